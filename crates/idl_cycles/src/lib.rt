//! Graphs of numbers: what goes by parts through so many levels, and what contains itself.
#![tactic(auto)]

mod graph;

pub use graph::{Graph, Rule, least_key, properties};
