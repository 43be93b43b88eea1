//! Gives each node of a program its type.
#![tactic(auto)]

mod types;
mod variables;

pub use types::of_nodes;
