// What the rules ask of a type with all that it is made of.
ghost use Rattle.std.specs.Prelude.{◌≡◌, ℕ, ◌<◌, ◌||◌, ◌&&◌, true, false, List, length, is_none, slice_index_or, IfOk};
ghost use Rattle.idl_rule_definitions.specs.Scene.{Scene};
ghost use Rattle.idl_rule_definitions.specs.Scene as scene;
ghost use Rattle.idl_rule_definitions.specs.Types.{IdlType, Union, is_text, is_varying_array};
ghost use Rattle.idl_rule_definitions.specs.Types as tests;
ghost use Rattle.idl_rule_definitions.specs.TypeRules as rules;
ghost use Rattle.idl_declared_types.specs.Kinds.{type_by, type_at, seen_types, seen_class, is_inside};
ghost use Rattle.idl_value_rules.specs.TypeProperties.{AreProperties};
ghost use Rattle.idl_value_rules.specs.OwnMarks.{IsOwn, IsBelow, AreMarksBelow};
ghost use Rattle.idl_value_rules.specs.Counted.{IsCounted};
ghost use Rattle.idl_constructs.specs.declared.nodes.Nodes as program_nodes;
ghost use Rattle.idl_declared_types.specs.SeenTypes.{IsTypes};
ghost use Rattle.idl_value_rules.specs.SeenMarks.{mark_at, IsMark, AreMarks};

use crate::counted::{Counted, of_kinds};
use crate::in_place::{Properties, properties_of};
use idl_declared_types::kinds::{Class, Kind};
use idl_declared_types::types::Types;
use nd_base::{Memory, Place};
use std::alloc::Global;

/// What is marked of a type. What it "holds" it is itself, or what it points to or is made of as an array, text or pipe, and so on.
#[derive(Clone, Copy, Debug)]
pub struct Mark {
    pub holds_void: bool,
    pub holds_handle: bool,
    pub holds_pipe: bool,
    /// A context handle.
    pub holds_context: bool,
    /// A pointer without a class.
    pub holds_classless: bool,
    /// A pointer to a reference pointer.
    pub holds_reference_behind: bool,
    /// An array with a fixed dimension, or a product of them, of no element or too many.
    pub holds_wrong_count: bool,
    /// An array of more than one dimension that is not fixed in each.
    pub holds_many_not_fixed: bool,
    /// A non-encapsulated union.
    pub holds_nonencapsulated: bool,
    /// An array whose element hoists, or is a varying array or a text.
    pub holds_wrong_element: bool,
    /// A pipe of what no pipe may hold.
    pub holds_wrong_pipe: bool,
    /// An array, text or pipe that nests too deep.
    pub holds_deep_array: bool,
    /// It is itself an array of more than one dimension.
    pub many_dimensions: bool,
    /// It is itself a non-encapsulated union.
    pub nonencapsulated: bool,
    /// It hoists.
    pub hoists: bool,
    /// It nests too deep.
    pub too_deep: bool,
}

/// The marks of types, by their numbers.
#[derive(Drop)]
pub struct Marks {
    pub items: Vec<Mark>,
}

/// Of `void`.
const OF_VOID: Mark = Mark {
    holds_void: true,
    holds_handle: false,
    holds_pipe: false,
    holds_context: false,
    holds_classless: false,
    holds_reference_behind: false,
    holds_wrong_count: false,
    holds_many_not_fixed: false,
    holds_nonencapsulated: false,
    holds_wrong_element: false,
    holds_wrong_pipe: false,
    holds_deep_array: false,
    many_dimensions: false,
    nonencapsulated: false,
    hoists: false,
    too_deep: false,
};

impl Marks {
    /// The mark of a type; what is no number of a type stands for `void`.
    pub fn get(&self, number: usize) -> Mark
        ensures { result ≡ mark_at self.now number }
    {
        match self.items.get(number) {
            Some(mark) => *mark,
            None => OF_VOID,
        }
    }
}

/// What a type is itself.
#[derive(Clone, Copy, Debug)]
struct Own {
    void: bool,
    handle: bool,
    pipe: bool,
    context: bool,
    classless: bool,
    reference_behind: bool,
    nonencapsulated: bool,
    wrong_element: bool,
    wrong_pipe: bool,
    hoists: bool,
    too_deep: bool,
    deep_array: bool,
}

/// Whether a type of this kind is a union without its tag.
fn is_nonencapsulated(types: &Types, kind: Kind) -> bool
    ensures { (s : Scene) (n : program_nodes.Nodes) → IsTypes s n types.now
        → result ≡ scene.is_nonencapsulated s (type_by (seen_types types.now.kinds) kind) }
{
    let Kind::Union { file, at } = kind else {
        return false;
    };
    is_nonencapsulated_at(types, Place { file, at })
}

/// Whether the body of a place is a union without its tag.
fn is_nonencapsulated_at(types: &Types, place: Place) -> bool
    ensures { (s : Scene) (n : program_nodes.Nodes) → IsTypes s n types.now → result ≡ scene.is_nonencapsulated s (Union place) }
{
    let Some(number) = types.body_of(place) else {
        return false;
    };
    match types.bodies.get(number) {
        Some(body) => body.nonencapsulated,
        None => false,
    }
}

/// Whether a type is a text or a varying array.
fn is_text_or_varying(kind: Kind) -> bool
    ensures { (types : List IdlType) → result ≡ (is_text (type_by types kind) || is_varying_array (type_by types kind)) }
{
    match kind {
        Kind::Text { .. } => true,
        Kind::Array { varying, .. } => varying,
        _ => false,
    }
}

/// Whether a type is `void`.
fn is_void(kind: Kind) -> bool
    ensures { (types : List IdlType) → result ≡ tests.is_void (type_by types kind) }
{
    matches!(kind, Kind::Void)
}

/// Whether a type is `handle_t`.
fn is_handle(kind: Kind) -> bool
    ensures { (types : List IdlType) → result ≡ tests.is_handle (type_by types kind) }
{
    matches!(kind, Kind::Handle)
}

/// Whether a type is a pipe.
fn is_pipe(kind: Kind) -> bool
    ensures { (types : List IdlType) → result ≡ tests.is_pipe (type_by types kind) }
{
    matches!(kind, Kind::Pipe { .. })
}

/// Whether a type is a pointer without a class.
fn has_no_class(kind: Kind) -> bool
    ensures { (types : List IdlType) → result ≡ rules.has_no_class (type_by types kind) }
{
    let Kind::Pointer { class, .. } = kind else {
        return false;
    };
    is_absent(class)
}

/// Whether there is no class.
fn is_absent(class: Class) -> bool
    ensures { result ≡ is_none (seen_class class) }
{
    matches!(class, Class::Absent)
}

/// Whether a type is an array, text or pipe.
fn is_made_of_elements(kind: Kind) -> bool
    ensures { (types : List IdlType) → result ≡ rules.is_made_of_elements (type_by types kind) }
{
    matches!(
        kind,
        Kind::Array { .. } | Kind::Text { .. } | Kind::Pipe { .. }
    )
}

/// Whether an array, text or pipe nests too deep.
fn is_deep_array(kind: Kind, too_deep: bool) -> bool
    ensures { (types : List IdlType) → result ≡ (rules.is_made_of_elements (type_by types kind) && too_deep) }
{
    is_made_of_elements(kind) && too_deep
}

/// Whether an array of this kind has a wrong element, where that hoists or is barred elsewhere.
fn has_wrong_element(types: &Types, kind: Kind, properties: &Properties) -> bool
    ensures { (s : Scene) (count : ℕ) → length types.now.kinds ≡ count → is_inside count kind ≡ true
        → AreProperties s types.now.kinds count properties.now
        → result ≡ rules.has_wrong_element s (type_by (seen_types types.now.kinds) kind) }
{
    let Kind::Array { element, .. } = kind else {
        return false;
    };
    holds(&properties.hoists, element) || is_text_or_varying(types.kinds.kind(element))
}

/// A property by the number of a type.
fn holds(property: &Vec<bool>, number: usize) -> bool
    ensures { result ≡ slice_index_or property.now.items number false }
{
    match property.get(number) {
        Some(value) => *value,
        None => false,
    }
}

/// Whether a pipe of this kind is of what no pipe may hold.
fn is_wrong_pipe(types: &Types, kind: Kind, properties: &Properties) -> bool
    ensures { (s : Scene) (count : ℕ) → length types.now.kinds ≡ count → is_inside count kind ≡ true
        → AreProperties s types.now.kinds count properties.now
        → result ≡ rules.is_wrong_pipe s (type_by (seen_types types.now.kinds) kind) }
{
    let Kind::Pipe { element } = kind else {
        return false;
    };
    holds(&properties.barred, element)
}

/// Whether a pointer of this kind points to a reference pointer.
fn refers_to_reference(types: &Types, kind: Kind) -> bool
    ensures { result ≡ rules.refers_to_reference (type_by (seen_types types.now.kinds) kind) }
{
    let Kind::Pointer { to, .. } = kind else {
        return false;
    };
    types.kinds.kind(to).is_reference()
}

/// What the type of a number is itself.
fn own_of(types: &Types, number: usize, properties: &Properties) -> Own
    ensures { (s : Scene) (n : program_nodes.Nodes) (count : ℕ) → IsTypes s n types.now → length types.now.kinds ≡ count → number < count
        → AreProperties s types.now.kinds count properties.now → IsOwn s (type_at types.now.kinds number) result }
{
    let kind = types.kinds.kind(number);
    let too_deep = !holds(&properties.nests, number);
    Own {
        void: is_void(kind),
        handle: is_handle(kind),
        pipe: is_pipe(kind),
        context: kind.is_context(),
        classless: has_no_class(kind),
        reference_behind: refers_to_reference(types, kind),
        nonencapsulated: is_nonencapsulated(types, kind),
        wrong_element: has_wrong_element(types, kind, properties),
        wrong_pipe: is_wrong_pipe(types, kind, properties),
        hoists: holds(&properties.hoists, number),
        too_deep,
        deep_array: is_deep_array(kind, too_deep),
    }
}

/// What holds nothing, as the types that there are not.
pub const NOTHING: Mark = Mark {
    holds_void: false,
    holds_handle: false,
    holds_pipe: false,
    holds_context: false,
    holds_classless: false,
    holds_reference_behind: false,
    holds_wrong_count: false,
    holds_many_not_fixed: false,
    holds_nonencapsulated: false,
    holds_wrong_element: false,
    holds_wrong_pipe: false,
    holds_deep_array: false,
    many_dimensions: false,
    nonencapsulated: false,
    hoists: false,
    too_deep: false,
};

/// The mark of a type, from what it is itself and the mark of what it points to or is made of.
fn mark_of(own: &Own, counted: &Counted, below: &Mark) -> Mark
    ensures { (s : Scene) (t : IdlType) → IsOwn s t own.now → IsCounted t counted.now → IsBelow s t below.now → IsMark s t result }
{
    Mark {
        holds_void: own.void | below.holds_void,
        holds_handle: own.handle | below.holds_handle,
        holds_pipe: own.pipe | below.holds_pipe,
        holds_context: own.context | below.holds_context,
        holds_classless: own.classless | below.holds_classless,
        holds_reference_behind: own.reference_behind | below.holds_reference_behind,
        holds_wrong_count: counted.holds_wrong,
        holds_many_not_fixed: counted.holds_many_not_fixed,
        holds_nonencapsulated: own.nonencapsulated | below.holds_nonencapsulated,
        holds_wrong_element: own.wrong_element | below.holds_wrong_element,
        holds_wrong_pipe: own.wrong_pipe | below.holds_wrong_pipe,
        holds_deep_array: own.deep_array | below.holds_deep_array,
        many_dimensions: counted.many,
        nonencapsulated: own.nonencapsulated,
        hoists: own.hoists,
        too_deep: own.too_deep,
    }
}
/// The mark of the type of a number, from those of the types before it.
fn next_mark(
    types: &Types,
    number: usize,
    properties: &Properties,
    counted: &Counted,
    before: &Marks,
) -> Mark
    ensures { (s : Scene) (n : program_nodes.Nodes) (count : ℕ) → IsTypes s n types.now → length types.now.kinds ≡ count → number < count
        → AreProperties s types.now.kinds count properties.now → IsCounted (type_at types.now.kinds number) counted.now
        → AreMarksBelow s types.now.kinds number before.now → IsMark s (type_at types.now.kinds number) result }
{
    let own = own_of(types, number, properties);
    match types.kinds.kind(number).inner() {
        Some(inner) => mark_of(&own, counted, &before.get(inner)),
        None => mark_of(&own, counted, &NOTHING),
    }
}

/// The marks of all types. Takes memory for each type and each part of a body.
pub fn of_types(alloc: Global, types: &Types) -> Result<Marks, Memory>
    ensures { IfOk result (λ m. (s : Scene) (n : program_nodes.Nodes) → IsTypes s n types.now → AreMarks s types.now.kinds m) }
{
    let count = types.kinds.len();
    let properties = properties_of(alloc, types, count)?;
    let counted = of_kinds(alloc, &types.kinds)?;
    let mut marks = Marks {
        items: Vec::new(alloc),
    };
    for number in 0..count {
        let Some(one) = counted.get(number) else {
            unreachable!();
        };
        let mark = next_mark(types, number, &properties, one, &marks);
        let Ok(()) = marks.items.push(mark) else {
            return Err(Memory);
        };
    }
    Ok(marks)
}
