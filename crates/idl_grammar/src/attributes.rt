// Attributes (C706, sections 4.2.4, 4.2.9 and 4.2.12 to 4.2.14).
use crate::expressions::Expr;
use crate::types::SwitchType;
use crate::words::{Identifier, Spelling, UuidText};

/// The class of a pointer (C706, section 4.2.20).
#[derive(Clone, Copy, Debug, PartialEq, Eq)]
pub enum PointerClass {
    /// `ref`
    Reference,
    /// `unique`
    Unique,
    /// `ptr`
    Full,
}

/// Which attribute names a variable.
#[derive(Clone, Copy, Debug, PartialEq, Eq)]
pub enum VariableWord {
    /// `size_is`
    SizeIs,
    /// `max_is`
    MaxIs,
    /// `length_is`
    LengthIs,
    /// `first_is`
    FirstIs,
    /// `last_is`
    LastIs,
    /// `switch_is`
    SwitchIs,
}

/// The variable of an attribute: a name, or `*` and a name.
#[derive(Debug, Drop)]
pub struct Variable {
    /// Whether a `*` is before the name.
    pub star: bool,
    /// The name.
    pub name: Identifier,
}

/// What an attribute says.
#[derive(Debug, Drop)]
pub enum AttributeKind {
    /// `uuid` and the UUID.
    Uuid(UuidText),
    /// `version`, the major number, and the minor one where it stands.
    Version {
        major: Spelling,
        minor: Option<Spelling>,
    },
    /// `endpoint` and its strings.
    Endpoint(Vec<Spelling>),
    /// `local`
    Local,
    /// `pointer_default` and its class.
    PointerDefault(PointerClass),
    /// The class of a pointer.
    Class(PointerClass),
    /// `in`
    In,
    /// `out`
    Out,
    /// `string`
    String,
    /// `context_handle`
    ContextHandle,
    /// `size_is`, `max_is`, `length_is`, `first_is`, `last_is` or `switch_is`, and its variable.
    Of(VariableWord, Variable),
    /// `switch_type` and its type.
    SwitchTypeIs(SwitchType),
    /// `case` and its values.
    Case(Vec<Expr>),
    /// `default`
    Default,
    /// `idempotent`
    Idempotent,
    /// `broadcast`
    Broadcast,
    /// `maybe`
    Maybe,
    /// `any_size`: a maximum count that nothing states.
    AnySize,
    /// `any_length`: an offset and an actual count that nothing states.
    AnyLength,
}

/// An attribute.
#[derive(Debug, Drop)]
pub struct Attribute {
    /// The octet where it begins.
    pub at: u32,
    /// What it says.
    pub kind: AttributeKind,
}

/// A list of attributes between square brackets.
#[derive(Debug, Drop)]
pub struct Attributes {
    /// The octet of its bracket.
    pub at: u32,
    /// At least one attribute.
    pub list: Vec<Attribute>,
}
