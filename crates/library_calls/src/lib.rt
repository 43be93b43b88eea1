//! Calls on what a program lends, each of whose refusals is one that commands report: fragments are joined, a format label is read, and two versions
//! of an interface are compared. Why any call was refused: as numbers that cross to C, those of 128 bits in two halves, and the names that
//! belong to it.
#![tactic(auto)]

mod causes;
mod comparing;
mod joining;
mod labels;
mod names;
mod reasons;
mod values;
mod wide;
mod words;

pub use causes::{Cause, cause_of};
pub use comparing::compare_versions;
pub use joining::join_lent;
pub use labels::order_stated;
pub use names::{file, name};
pub use wide::Wide;
pub use words::reason_word;
