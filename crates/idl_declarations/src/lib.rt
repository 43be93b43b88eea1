//! The parts of declarations, read from the tokens of an interface file: attributes (C706, sections 4.2.4, 4.2.9 and 4.2.12 to 4.2.14),
//! declarators and the values of constants (section 4.2.8), enumerations, and what a union has beside its arms (sections 4.2.9 and 4.2.11).
#![tactic(auto)]

pub mod attributes;
pub mod declarators;
pub mod enums;
