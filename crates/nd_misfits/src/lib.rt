//! Passes over the values of a graph, each of which finds the first node for which the graph does not conform: nodes that have a
//! misfit by themselves, cells that are shared, and attributes that state other numbers than are there.
#![tactic(auto)]

mod agreement;
mod compared;
mod disagreeing;
mod homes;
pub mod laws;
mod local;
mod node;
mod nodes;
mod numbers;
mod pointers;
mod shared;
mod simple;

pub use disagreeing::disagreeing_attribute;
pub use local::local_misfit;
pub use numbers::{ParamNumber, RootNumber};
pub use shared::shared_cell;
