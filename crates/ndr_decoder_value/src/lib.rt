//! The machine of the decoder: it follows the code of a plan over the octets of a source, with an explicit stack, and builds the value of one home at
//! a time.
#![tactic(auto)]

mod arrays;
mod checks;
mod enumerators;
mod numbers;
mod pointers;
mod rows;
mod running;
mod steps;
mod texts;
mod unions;

pub use checks::{try_in, wanted_of};
pub use running::{fetched, run};
pub use steps::Want;
