//! The octets of a source, in NDR (C706, chapter 14): printed as the text of their values; explained, by a line for each of their items; traced,
//! by a line for each up to the first fault, and the fault with the path of what is refused.
#![tactic(auto)]

mod explaining;
mod held;
mod printing;
mod tracing;

pub use explaining::explain_octets;
pub use printing::{end, print_octets};
pub use tracing::{Stopped, trace_octets};
