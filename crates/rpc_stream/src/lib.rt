//! The PDUs of a stream of octets (C706 section 12.6.3), which comes in pieces of any size; and which of them are fragments of which call.
#![tactic(auto)]

mod call;
mod cutter;
pub mod laws;
mod stated;

pub use call::{Ended, Fragments, Part, Pdu, Peer, call_id, is_in_calls, part_in_call};
pub use cutter::Cutter;
pub use stated::{First, StreamReason};
