// What an attribute configuration file holds (C706, section 4.3).
use idl_grammar::{Identifier, Spelling};

/// The type of the variable of `implicit_handle`.
#[derive(Debug, Drop)]
pub enum HandleType {
    /// `handle_t`
    Handle,
    /// The name of a type.
    Name(Identifier),
}

/// What an attribute says (C706, sections 4.3.1 to 4.3.8).
#[derive(Debug, Drop)]
pub enum AttributeKind {
    /// `auto_handle`
    AutoHandle,
    /// `explicit_handle`
    ExplicitHandle,
    /// `implicit_handle`, the type of its variable, and the variable's name.
    ImplicitHandle { of: HandleType, name: Identifier },
    /// `code`
    Code,
    /// `nocode`
    NoCode,
    /// `in_line`
    InLine,
    /// `out_of_line`
    OutOfLine,
    /// `enable_allocate`
    EnableAllocate,
    /// `heap`
    Heap,
    /// `comm_status`
    CommStatus,
    /// `fault_status`
    FaultStatus,
}

/// An attribute.
#[derive(Debug, Drop)]
pub struct Attribute {
    /// The octet where it begins.
    pub at: u32,
    /// What it says.
    pub kind: AttributeKind,
}

/// A list of attributes between square brackets.
#[derive(Debug, Drop)]
pub struct Attributes {
    /// The octet of its bracket.
    pub at: u32,
    /// At least one attribute.
    pub list: Vec<Attribute>,
}

/// A parameter of an operation.
#[derive(Debug, Drop)]
pub struct Parameter {
    /// The octet where it begins.
    pub at: u32,
    /// Its attributes.
    pub attributes: Option<Attributes>,
    /// Its name.
    pub name: Identifier,
}

/// An element of the body. The octet `at` is the one where it begins.
#[derive(Debug, Drop)]
pub enum BodyElement {
    /// `include`, and at least one string with its quotes. The files are not opened.
    Include {
        at: u32,
        files: Vec<Spelling>,
    },
    /// Attributes of types, of which there is at least one.
    Types {
        at: u32,
        attributes: Attributes,
        names: Vec<Identifier>,
    },
    /// Attributes of an operation and of those of its parameters that are named.
    Operation {
        at: u32,
        attributes: Option<Attributes>,
        name: Identifier,
        parameters: Vec<Parameter>,
    },
}

/// An attribute configuration file.
#[derive(Debug, Drop)]
pub struct Acf {
    /// The octet where its first token begins.
    pub at: u32,
    /// The attributes of the interface.
    pub attributes: Option<Attributes>,
    /// The name of the interface.
    pub name: Identifier,
    /// The body.
    pub body: Vec<BodyElement>,
}
