//! The names of IDL files: what is declared, and what constants and enumerators stand for (C706, sections 4.2.6 to 4.2.11).
#![tactic(auto)]

mod expression;
mod fault;
mod known;
pub mod laws;
mod meaning;
mod name_fault;
mod operators;
mod scope;
mod table;
mod tag;
mod whole;

pub use expression::{Names, escaped, evaluate, value, value_of};
pub use fault::{ConstFault, ExpressionFault, ValueFault};
pub use known::{NameTables, enlist};
pub use meaning::Meaning;
pub use name_fault::NameFault;
pub use scope::{FileTree, FileTrees, Scope};
pub use table::Table;
pub use tag::{TagDefinition, TagUse};
