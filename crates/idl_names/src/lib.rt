//! The files that a file imports, and the names of all of them (C706, section 4.2).
#![tactic(auto)]

mod declarations;
pub mod laws;
mod loading;
mod resolving;
mod sources;
mod strings;
mod types;
mod walk;

pub use idl_parser::SyntaxFault;
pub use idl_scope::{
    ConstFault, ExpressionFault, FileTree, FileTrees, Meaning, NameFault, Names, Scope, Table,
    TagDefinition, TagUse, ValueFault, evaluate, value, value_of,
};
pub use resolving::resolve;
pub use sources::{FILES_LIMIT, Sources};
