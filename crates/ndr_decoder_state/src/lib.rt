//! The state of a decoder in the midst of a home's value, and the changes of it that all instructions share: items, nodes, frames and structs.
#![tactic(auto)]

mod fault;
mod flow;
mod machine;
mod nodes;
mod noting;
mod octets;
mod starting;

pub use fault::{DecodeFault, Progress};
pub use machine::{Machine, Owed, Phase, Wanted};
pub use octets::{gap_before, read_count, read_value};
