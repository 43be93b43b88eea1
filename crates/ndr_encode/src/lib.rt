//! Encodes graphs: a work is prepared for a graph, and then its octets are written as often as needed, without memory and without failing.
#![tactic(auto)]

mod encoding;
pub mod laws;
mod making;
mod numbering;
mod search;
mod work;

pub use encoding::encode_with;
pub use ndr_encoder_value::Turn;
pub use work::{EncodeFault, Work};
