//! The types of declarators, each once, by a number; labels with their values; the types of the nodes of a program, the values of its enums, and
//! the numbers of the types that a table of types has.
#![tactic(auto)]

pub mod enum_values;
mod kind_tests;
pub mod kinds;
pub mod labels;
pub mod numbering;
pub mod places;
pub mod ranges;
pub mod types;
pub mod typing;
pub mod value_set;
pub mod written;
