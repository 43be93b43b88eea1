//! The text of values: how graphs are written for people, and read.
//!
//! `print` writes the text of a graph that conforms, `print_value` and `append_value_text` that of one value, and `quoted` a string.
//! `read_text` reads a text, and gives the graph or the first fault with its line and column. `path` says where a node of a graph is.
//! These are declared in the crates below, and passed on here. The laws of texts are here.
#![tactic(auto)]

pub mod laws;

pub use text_grammar::{TEXT_LIMIT, TextFault, TextReason, Version};
pub use text_parser::read_text;
pub use text_printer::{append_value_text, path, print, print_value, quoted};
