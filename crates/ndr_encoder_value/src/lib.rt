//! Writes the value of a home to an output, by the run of a plan's code over the nodes of the value; and the homes of a stream, one after the
//! other, into lent octets. Arrays of structs of numbers and pointers are written element by element.
#![tactic(auto)]

mod arrays;
mod filling;
mod homes;
pub mod laws;
mod lookups;
mod maximum;
mod nodes;
mod numbers;
mod plain;
mod runs;
mod struct_arrays;
mod structs;
mod turn;
mod writing;

pub use filling::fill_turns;
pub use homes::write_home;
pub use struct_arrays::write_array;
pub use turn::Turn;
pub use writing::Run;
