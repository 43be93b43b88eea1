//! The octets of a source, in NDR (C706, chapter 14), whose pipes are given to ends, and the rest of which is printed.
#![tactic(auto)]

mod draining;

pub use draining::drain_octets;
