//! The items of a stream in words: a line for each, with its place, its kind, the path of the node to which it belongs, and what it holds.
#![tactic(auto)]

mod cursor;
mod explaining;
mod gaps;
mod levels;
mod located;
mod names;

pub use explaining::{append_head, explain, explain_over};
pub use gaps::{append_gap, count_filled_gaps};
pub use levels::{Level, Levels, append_outer, append_steps, children, next_levels, type_of};
pub use names::{HomeName, append_home, name_of};
