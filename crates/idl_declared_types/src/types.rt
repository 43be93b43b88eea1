// The types of all nodes, as they are kept.
ghost use Rattle.std.specs.Prelude.{◌≡◌};
ghost use Rattle.idl_declared_types.specs.Places.{found_place};

use crate::kinds::Kinds;
use crate::places::Places;
use crate::value_set::ValueSet;
use nd_base::Place;

/// What is noted of a node: numbers of types, and what needs the names that stand before it. Where a node has no type the numbers are those of
/// `void`.
#[derive(Clone, Copy, Debug)]
pub struct Typed {
    /// Of a declarator: its type, but for attributes other than a class.
    pub declared_as: usize,
    /// The type of a declarator, switch, tag or body; of labels, the type of the union's tag.
    pub of: usize,
    /// Whether the union of these labels says its tag's type.
    pub has_tag: bool,
    /// A variable of switch_is, size_is, max_is, first_is, length_is or last_is is no other member or parameter of the same list.
    pub no_variable: bool,
    /// A variable of size_is, max_is, first_is, length_is or last_is is of a wrong type.
    pub wrong_variable: bool,
    /// The variable of switch_is is of a wrong type.
    pub wrong_switch_variable: bool,
}

/// A struct, union or enum with its body.
#[derive(Drop)]
pub struct BodyTypes {
    pub place: Place,
    /// The number of its node.
    pub node: usize,
    /// Whether it is a non-encapsulated union.
    pub nonencapsulated: bool,
    /// The types of its members, or of its arms that are not empty.
    pub parts: Vec<usize>,
    /// The type of a union's tag, where it is said.
    pub tag: Option<usize>,
    /// The values of an enum; of another body there are none.
    pub values: ValueSet,
}

/// An operation.
#[derive(Drop)]
pub struct OperationTypes {
    /// The number of its node.
    pub node: usize,
    /// The types of its parameters.
    pub parameters: Vec<usize>,
    /// The type of its result.
    pub result: usize,
}

/// The types of the nodes of a program.
#[derive(Drop)]
pub struct Types {
    pub kinds: Kinds,
    /// One for each node.
    pub typed: Vec<Typed>,
    /// All bodies, in order.
    pub bodies: Vec<BodyTypes>,
    /// The first body of each place, by its number.
    pub by_place: Places,
    /// All operations, in order.
    pub operations: Vec<OperationTypes>,
}

impl Types {
    /// The first body of a place.
    pub fn body_of(&self, place: Place) -> Option<usize>
        ensures { result ≡ found_place place self.now.by_place }
    {
        self.by_place.get(place)
    }
}
