//! Octets that are refused, traced: a line for each item before the fault, and the path of what is refused.
#![tactic(auto)]

pub mod examples;
mod homes;
mod pipes;
mod sides;
mod tracing;

pub use tracing::{Traced, trace};
