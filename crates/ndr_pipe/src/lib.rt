//! The ends of pipes: where the elements of a pipe go, line by line, when a stream is drained. An end is an object of the caller. It is known by the
//! octets that it took, which contracts see whether or not it shows them, by whether it is finished, and by a count of its faults.
#![tactic(auto)]

mod boxed;
mod end;
mod ends;
mod file_end;
mod mem_end;

pub use end::{EndFailed, PipeEnd};
pub use ends::{BoxedEnd, Ends, PipeEnds};
pub use file_end::FileEnd;
pub use mem_end::MemEnd;
