//! The interface that files mean, if they break no rule.
#![tactic(auto)]

mod arms;
mod definitions;
mod header;
mod listed;
pub mod meaning;
mod members;
mod operations;

pub use meaning::main_tree;
