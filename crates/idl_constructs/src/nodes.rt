// All that a rule may speak of, as one list in the order of the text.
ghost use Rattle.std.specs.Prelude.{◌≡◌, ◌+◌, [], map, option_map, Some, None, IfOk, OnOk};
ghost use Rattle.idl_grammar.specs.Seen.{seen_attributes, seen_type, seen_declarator};
ghost use Rattle.idl_rule_definitions.specs.Nodes.{place_in, inside, declared};
ghost use Rattle.idl_constructs.specs.SeenNodes.{seen_construct, seen_position, seen_declared, list_found};
ghost use Rattle.idl_constructs.specs.Growing.{Adds, Pushes};

use crate::attributes::attribute_list;
use idl_grammar::{
    Attribute, Attributes, Declarator, Enumerator, Identifier, Init, PointerClass, SimpleType,
    SwitchType, TagKind, TypeSpec,
};
use nd_base::{Memory, Place};
use std::alloc::Global;

/// Where something stands.
#[derive(Clone, Copy, Debug, PartialEq, Eq)]
pub enum Position {
    Header,
    Typedef,
    /// A struct, union or enum in a declaration of its own.
    TaggedType,
    Member,
    Parameter,
    /// An arm of an encapsulated union.
    Arm,
    /// An arm of a non-encapsulated union.
    CasedArm,
    Operation,
}

/// A declaration, member, parameter or arm, with its attributes, and the class that its file gives to pointers without one.
#[derive(Clone, Copy)]
pub struct Construct<'t> {
    pub file: u16,
    pub position: Position,
    pub at: u32,
    pub attributes: &'t [Attribute],
    pub default: Option<PointerClass>,
}

/// A name that is declared for a type.
#[derive(Clone, Copy)]
pub struct Declared<'t> {
    pub construct: Construct<'t>,
    pub pipe: bool,
    pub of: &'t TypeSpec,
    pub declarator: &'t Declarator,
}

/// An operation without its parameters: the type of its result, and its name.
#[derive(Clone, Copy)]
pub struct Returned<'t> {
    pub construct: Construct<'t>,
    pub of: &'t TypeSpec,
    pub name: &'t Identifier,
}

/// One thing, or some of one kind that stand side by side. A list is told by its number among the lists of `Nodes`.
#[derive(Clone, Copy)]
pub enum Node<'t> {
    /// The header of a file.
    Header {
        construct: Construct<'t>,
    },
    /// The attributes of a construct.
    Attributes {
        construct: Construct<'t>,
    },
    /// A type that is to tell the arms of a union apart.
    Switch {
        construct: Construct<'t>,
        of: &'t SwitchType,
    },
    /// A tag without its body.
    Tag {
        construct: Construct<'t>,
        kind: TagKind,
        tag: &'t Identifier,
    },
    /// A struct, union or enum with its body.
    Body {
        construct: Construct<'t>,
        body: &'t TypeSpec,
    },
    /// The enumerators of an enum.
    Enumerators {
        construct: Construct<'t>,
        list: &'t [Enumerator],
    },
    /// The labels of a union with this body.
    Labels {
        construct: Construct<'t>,
        body: &'t TypeSpec,
    },
    /// An arm that holds nothing.
    EmptyArm {
        construct: Construct<'t>,
    },
    /// A declarator. A member or parameter is number `index` of its list; others have the empty list, which is number 0.
    Declarator {
        list: usize,
        index: usize,
        it: Declared<'t>,
    },
    /// The result of an operation: its type as it stands, without attributes.
    Result {
        it: Returned<'t>,
    },
    Constant {
        construct: Construct<'t>,
        of: SimpleType,
        star: bool,
        value: &'t Init,
    },
    /// A declaration that is a type alone.
    Type {
        construct: Construct<'t>,
        of: &'t TypeSpec,
    },
    /// An operation with its parameters, which are this list.
    Operation {
        it: Returned<'t>,
        parameters: usize,
    },
}

/// All nodes of some files, and the lists of members and parameters in them.
#[derive(Drop)]
pub struct Nodes<'t> {
    pub items: Vec<Node<'t>>,
    /// Number 0 is empty.
    pub lists: Vec<Vec<Declared<'t>>>,
}

impl<'t> Construct<'t> {
    /// An octet of its file.
    pub fn place(&self, at: u32) -> Place
        ensures { result ≡ place_in (seen_construct self.now) at }
    {
        Place {
            file: self.file,
            at,
        }
    }
    /// A construct in the same file.
    pub fn inside(
        &self,
        position: Position,
        at: u32,
        attributes: &'t Option<Attributes>,
    ) -> Construct<'t>
        ensures { seen_construct result ≡ inside (seen_construct self.now) (seen_position position) at (option_map seen_attributes attributes.now) }
    {
        Construct {
            file: self.file,
            position,
            at,
            attributes: attribute_list(attributes),
            default: self.default,
        }
    }

    /// A construct without attributes in the same file.
    pub fn without_attributes(&self, position: Position, at: u32) -> Construct<'t>
        ensures { seen_construct result ≡ inside (seen_construct self.now) (seen_position position) at None }
    {
        Construct {
            file: self.file,
            position,
            at,
            attributes: &[],
            default: self.default,
        }
    }

    /// A name that is declared for a type there.
    pub fn declared(&self, of: &'t TypeSpec, declarator: &'t Declarator) -> Declared<'t>
        ensures { seen_declared result ≡ declared (seen_construct self.now) (seen_type of.now) (seen_declarator declarator.now) }
    {
        Declared {
            construct: *self,
            pipe: false,
            of,
            declarator,
        }
    }
}

impl<'t> Nodes<'t> {
    /// No nodes, and the empty list. Takes memory for this list's entry.
    pub fn new(alloc: Global) -> Result<Nodes<'t>, Memory>
        ensures none { IfOk result (λ n. n.items.items ≡ []) }
        ensures empty { IfOk result (λ n. list_found n.lists.items 0 ≡ Some []) }
    {
        let mut lists = Vec::new(alloc);
        match lists.push(Vec::new(alloc)) {
            Ok(()) => Ok(Nodes {
                items: Vec::new(alloc),
                lists,
            }),
            Err(_) => Err(Memory),
        }
    }

    /// Adds a node. Takes memory for its entry.
    pub fn push(&mut self, node: Node<'t>) -> Result<(), Memory>
        ensures { OnOk result (Pushes self.old self.new node.entry) }
    {
        match self.items.push(node) {
            Ok(()) => Ok(()),
            Err(_) => Err(Memory),
        }
    }

    /// A list by its number, where there is one. Takes no memory.
    pub fn list(&self, number: usize) -> Option<&[Declared<'t>]>
        ensures { option_map (λ l. map seen_declared l.now) result ≡ list_found self.now.lists.items number }
    {
        match self.lists.get(number) {
            Some(list) => Some(list.as_slice()),
            None => None,
        }
    }

    /// Adds a list, and gives its number. Takes memory for its entry.
    pub fn push_list(&mut self, list: Vec<Declared<'t>>) -> Result<usize, Memory>
        ensures adds { OnOk result (Adds self.old self.new []) }
        ensures number { IfOk result (λ n. list_found self.new.lists.items n ≡ Some (map seen_declared list.entry.items)) }
    {
        let number = self.lists.len();
        match self.lists.push(list) {
            Ok(()) => Ok(number),
            Err(_) => Err(Memory),
        }
    }
}
