//! `fit`, which makes a fit of a graph that conforms, with or without a request, or reports its first misfit; a graph of values as a flat
//! graph, in which the elements of an array or a pipe that are numbers of one primitive type are a row.
#![tactic(auto)]

mod fitting;
mod given;
mod graph;
pub mod laws;
mod numbers;
mod reach;
mod values;

pub use fitting::fit;
pub use graph::flattened;
