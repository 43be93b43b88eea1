//! The fragments of one request or response (C706 section 12.6): they are joined into their stub data, and stub data are split into them.
#![tactic(auto)]

mod header;
mod joining;
pub mod laws;
mod pdu;
mod splitting;

pub use joining::join;
pub use pdu::{Head, Joined, PduFault, PduReason, Wanted};
pub use splitting::split;
