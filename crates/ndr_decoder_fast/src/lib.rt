//! Steps of a home's value that are taken in one go, where their octets are at hand and no items are kept.
#![tactic(auto)]

mod alone;
mod elements;
mod fault;
mod fields;
mod forms;
mod leaping;
mod members;
mod octets;
mod records;
mod room;
mod strings;
mod structs;
mod zeros;

pub use fault::{LeapFault, TextReason};
pub use fields::gap_to;
pub use leaping::leap;
pub use zeros::refused_text;
