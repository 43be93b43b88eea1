//! The words of a command line, and the command that they are.
#![tactic(auto)]

mod command;
mod numbers;
mod words;

pub use command::{Command, OrderWord, Reading, Subject, Task};
pub use words::Words;

/// The most elements that a chunk of a pipe may be asked to have.
pub const CHUNK_LIMIT: u32 = 16_777_216;

/// The most cells that a sample may be asked to have.
pub const COUNT_LIMIT: u32 = 1_000_000;

/// The least number of octets that a fragment may be asked to have at most.
pub const LEAST_MAX: u32 = 1_024;
