//! Laws of the decoder. A decoder reads octets as they come, keeps a stack of its own, and takes in one go what it can; the definitions of
//! streams (`nd_grammar`) speak of all octets at once. Between the two is a plain reader. Folders of the definitions and lemmas: `verdict`,
//! what is reported about octets; `reader`, what the plain reader still has to read at each point within a value; `worklist`, how far it has
//! come over the roots and pending referents; `steps`, what each instruction of a plan does; `runs`, what steps reach; `stream`, what is kept
//! between the values of homes; `pipes`, the pipes of a stream chunk by chunk. Each law is the contract of a function that does nothing.
#![tactic(auto)]

mod first;
mod frame;
mod kept;
pub mod laws;

pub use first::{First, Member};
pub use frame::Frame;
pub use kept::{Kept, KeptRoot};
