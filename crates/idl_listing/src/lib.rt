//! The listing of an interface, for people, and the lines of words that it is made of, as the listing of a plan is.
#![tactic(auto)]

mod attribute_words;
mod header_line;
mod interface_lines;
mod operation_lines;
mod type_lines;
mod words;

pub use interface_lines::interface_listing;
pub use words::{class_word, number, side_word, signed, word, word_if};
