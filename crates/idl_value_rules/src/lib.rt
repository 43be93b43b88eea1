//! What the rules need to know of a type with all that it is made of; and the rules on values, on labels, on what contains itself, and on how
//! many there are.
#![tactic(auto)]

mod counted;
pub mod counts;
pub mod cycle_rule;
mod in_place;
pub mod label_rule;
pub mod marks;
pub mod values;
