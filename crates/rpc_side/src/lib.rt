//! One side of a connection (C706 chapter 12): its stream is fed in pieces of any size, and what ends in it is reported, call by call, within limits.
#![tactic(auto)]

mod calls;
pub mod laws;
mod report;
mod side;

pub use report::{Limit, Limits, Report};
pub use side::Side;
