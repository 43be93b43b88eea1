//! The values of a side of an operation, with the interface that they are of: made of octets or of a text, written as a text or as octets. The items
//! of octets in memory, one after the other.
#![tactic(auto)]

mod both;
mod decoding;
mod encoding;
mod logging;
mod reading;
mod values;

pub use encoding::Encoded;
pub use logging::{items_of, items_of_response};
pub use values::Values;
