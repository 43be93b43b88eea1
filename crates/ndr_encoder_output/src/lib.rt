//! Outputs of an encoder: one writes the octets of pieces, another counts them and keeps what pointers name. Structs of numbers and pointers: runs of
//! a plan that write the members of such a struct one after the other, and nothing else.
#![tactic(auto)]

mod count;
mod fill;
mod known;
pub mod laws;
mod lookups;
mod members;
mod output;
mod row;

pub use count::{Count, Named};
pub use fill::Fill;
pub use known::{Known, Slot};
pub use lookups::{carrier_of, instr_at, past_checks};
pub use members::{Member, StructRun};
pub use output::Output;
