//! The tokens of an interface file, or of an attribute file, as the grammar sees them (C706, section 4.2.1), and the
//! reader of single tokens and of what a few of them make: the types without parts, lists of strings, and expressions
//! (section 4.2.7).
#![tactic(auto)]

mod expression;
pub mod lexemes;
mod operators;
pub mod parser;
mod refused;
mod simple;
mod strings;
pub mod symbol;
pub mod words;

pub use expression::outer;
pub use refused::fault_of;
