//! What a rule may speak of: the parts of a text with what stands around them, and the words of their attributes. All of these are gathered
//! into one list in the order of the text, and the rules on lists of attributes are tried.
#![tactic(auto)]

pub mod attributes;
mod exports;
mod lists;
pub mod nodes;
pub mod parts;
mod walk;
pub mod words;

pub use exports::of_files;
pub use lists::first_breach;
