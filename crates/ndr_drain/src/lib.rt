//! Draining of streams: the pipes of a stream are given to ends, line by line, and the graph is kept with its pipes empty.
#![tactic(auto)]

mod chunks;
mod draining;
mod elements;
mod fault;
mod lines;

pub use draining::{Drained, drain, drain_over};
pub use fault::DrainFault;
