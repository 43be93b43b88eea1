//! The primitives and context handles of the network data representation in octets (C706 sections 14.2 and 14.3), and
//! its format label (section 14.1).
#![tactic(auto)]

mod context;
mod label;
pub mod laws;
mod number;
mod range;

pub use context::{read_context, write_context};
pub use label::{LabelFault, read_label};
pub use number::{read_num, width_of, write_num};
pub use range::is_in_range;
