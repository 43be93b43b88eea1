//! The rules of IDL on declarators, types and bodies (C706, chapter 4).
#![tactic(auto)]

mod array_rules;
mod asked;
mod checking;
mod declaration_rules;
pub mod laws;
mod pointer_rules;
mod type_rules;
mod uses;
mod variable_rules;

pub use checking::{broken, other_breach};
