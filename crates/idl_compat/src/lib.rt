//! The comparison of two interfaces: whether streams of the one are streams of the other.
#![tactic(auto)]

mod asking;
mod compared;
mod comparing;
mod forms;
pub mod laws;
mod matching;
mod operations;
mod pairs;
mod partners;
mod placing;

pub use compared::Compared;
pub use comparing::compare;
pub use forms::ask_types;
pub use operations::ask_param;
pub use pairs::{TypePair, TypePairs};
pub use partners::Partners;
pub use placing::{Pairing, Placing};
