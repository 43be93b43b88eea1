// Files: the header, imports and exports (C706, sections 4.2.3 to 4.2.6 and 4.2.13).
use crate::attributes::Attributes;
use crate::declarators::{Declarator, Init};
use crate::types::{SimpleType, TypeSpec};
use crate::words::{Identifier, Spelling};

/// The files of one `import`.
#[derive(Debug, Drop)]
pub struct Import {
    /// At least one string with its quotes.
    pub files: Vec<Spelling>,
}

/// A parameter of an operation.
#[derive(Debug, Drop)]
pub struct Parameter {
    /// The octet where it begins.
    pub at: u32,
    /// Its attributes.
    pub attributes: Option<Attributes>,
    /// Its type.
    pub of: TypeSpec,
    /// Its name.
    pub declarator: Declarator,
}

/// What is between the brackets of an operation.
#[derive(Debug, Drop)]
pub enum Parameters {
    /// Nothing.
    Absent,
    /// `void` alone.
    Void,
    /// At least one parameter.
    List(Vec<Parameter>),
}

/// A declaration. The octet `at` is the one where it begins.
#[derive(Debug, Drop)]
pub enum Export {
    /// Names for a type, or for pipes of it.
    Typedef {
        at: u32,
        attributes: Option<Attributes>,
        pipe: bool,
        of: TypeSpec,
        declarators: Vec<Declarator>,
    },
    /// A constant.
    Const {
        at: u32,
        of: SimpleType,
        star: bool,
        name: Identifier,
        value: Init,
    },
    /// A type alone.
    Tagged {
        at: u32,
        attributes: Option<Attributes>,
        of: TypeSpec,
    },
    /// An operation.
    Operation {
        at: u32,
        attributes: Option<Attributes>,
        result: TypeSpec,
        name: Identifier,
        parameters: Parameters,
    },
}

/// An IDL file.
#[derive(Debug, Drop)]
pub struct Tree {
    /// The attributes of the interface.
    pub attributes: Attributes,
    /// The name of the interface.
    pub name: Identifier,
    /// The imports.
    pub imports: Vec<Import>,
    /// The declarations.
    pub exports: Vec<Export>,
}
