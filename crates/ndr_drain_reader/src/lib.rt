//! Streams of values read in parts: the head, which is what comes before the pipes, and then the pipes chunk by chunk.
#![tactic(auto)]

mod beginning;
mod chunk;
mod elements;
mod handing;
mod head;
mod intake;
mod passing;
mod pipes;

pub use intake::{Intake, Phase};
pub use ndr_decode::Decoded;
pub use ndr_decoder_state::DecodeFault;
