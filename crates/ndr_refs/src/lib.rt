//! The numbers of full pointers in a stream, and the cells that they name.
#![tactic(auto)]

pub mod laws;
mod referents;

pub use referents::{RefFault, Referents};
