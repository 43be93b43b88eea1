//! How graphs and values are written for people: version 2 of the value text. Where a node of a graph is, in words: the path from its root or cell.
#![tactic(auto)]

mod digits;
mod forms;
mod graphs;
mod paths;
mod quoting;
mod rows;
mod values;
mod walked;

pub use digits::{append_hexes, append_number};
pub use forms::append_context;
pub use graphs::{append_value_text, print, print_value};
pub use paths::{path, root_at};
pub use quoting::{append_quoted, quoted};
