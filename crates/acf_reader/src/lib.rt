//! The reader of attribute configuration files, or attribute configuration sources (C706, section 4.3).
//!
//! `Acf` is what it gives: the tree of a file, with the octet where each part begins. The grammar itself is a relation of
//! texts of tokens and trees (specs/Grammar), told apart from the reader; it shares its tokens and its small parts with
//! the grammar of IDL.
#![tactic(auto)]

mod attributes;
mod body;
pub mod laws;
mod lexemes;
mod reading;
mod tree;
mod words;

pub use reading::read_acf;
pub use tree::{Acf, Attribute, AttributeKind, Attributes, BodyElement, HandleType, Parameter};
