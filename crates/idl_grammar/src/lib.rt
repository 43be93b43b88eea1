//! The tree of an IDL file, and the grammar of IDL (C706, sections 4.2.2 to 4.2.14).
//!
//! `Tree` is what a parser gives: enums where the grammar has alternatives, structs where it has sequences, lists
//! where it repeats. It owns its names, and keeps the octet where each part begins. The grammar itself is a relation
//! of texts of tokens and trees (specs/Grammar, specs/Expressions), told apart from any parser.
//!
//! Phrases are the part that is one for all grammars: a grammar is a relation of texts of tokens, places in them and trees,
//! put together from a few combinators (specs/Text). What a parser's function gives is a reading (specs/ReadPhrases). The
//! laws of proofs/ say when a reading is exact: its value is the only one, and its fault is at the first token with which no
//! text of the grammar goes on (specs/Answers). They are proved once, for any grammar.
#![tactic(auto)]

mod attributes;
mod declarators;
mod expressions;
mod fault;
mod files;
mod language;
pub mod laws;
mod refusal;
mod types;
mod words;

pub use attributes::{Attribute, AttributeKind, Attributes, PointerClass, Variable, VariableWord};
pub use declarators::{Bound, Declarator, Init};
pub use expressions::{BinaryOperator, Expr, Operand, UnaryOperator};
pub use fault::SyntaxFault;
pub use files::{Export, Import, Parameter, Parameters, Tree};
pub use language::{IdlFile, Language};
pub use refusal::Refusal;
pub use types::{
    Arm, Case, Discriminant, Enumerator, IntegerType, Label, Member, SimpleType, SwitchType,
    TagKind, TypeSpec, Width,
};
pub use words::{Identifier, Spelling, UuidText};
