//! The streams of a command: its input is read to a limit, the format label (C706, section 14.1) is taken from its front, and what it comes to is
//! written.
#![tactic(auto)]

mod delivery;
mod input;
mod label;
mod outcome;

pub use delivery::{DONE, OUT_OF_MEMORY, WRITE_FAILED, deliver, refusal_outcome};
pub use input::read_input;
pub use label::take_label;
pub use outcome::Outcome;
