//! The command `sample`: a graph of an interface that is made here, through fit, encode and decode.
#![tactic(auto)]

mod declared;
mod decoded;
mod encoded;
pub mod laws;
mod nodes;
mod sampling;
mod summary;

pub use declared::interface;
pub use nodes::graph;
pub use sampling::sample;
