//! Decoding of streams of values by the plan of their interface, from any source of octets; and the agreements of the parameters of a side, tried
//! with what is kept of the roots and cells that were read, and with a request.
#![tactic(auto)]

mod chunks;
mod decoding;
mod given;
mod homes;
pub mod laws;
mod roots;
mod trying;
mod worklist;

pub use chunks::elements_run;
pub use decoding::{Decoded, decode};
pub use homes::read_home;
pub use ndr_decoder_state::DecodeFault;
pub use roots::{Found, first_line, read_roots};
pub use trying::try_parameters;
