//! What a decoder keeps of a stream between the values of its homes: where each home begins and ends, the referents that are pending, and what
//! agreements need of the roots and cells that were read; and the beginnings of pipes and of their chunks.
#![tactic(auto)]

mod cells;
mod counts;
mod elements;
mod ending;
mod fetching;
pub mod laws;
mod looking;
mod opening;
mod parameters;
mod pending;
mod room;
mod stream;

pub use cells::KeptCells;
pub use counts::chunk_count;
pub use elements::{begin_elements, open_pipe};
pub use stream::Stream;
