//! Graphs of values kept flat: all nodes in one list, of which each root and each cell has a span, all texts and rows of numbers in
//! one list of octets. Graphs that conform, walks over their nodes, and the builder of such graphs.
#![tactic(auto)]

mod builder;
mod fit;
mod flat;
mod given;
pub mod laws;
mod node;
mod plain;
mod rebuilt;
mod records;
mod renumbered;
mod row;
mod walk;

pub use builder::Builder;
pub use fit::Fit;
pub use flat::FlatGraph;
pub use given::Given;
pub use node::Seen;
pub use plain::PlainWalk;
pub use rebuilt::values;
pub use records::{MOST_MEMBERS, Members, Records};
pub use row::Row;
pub use walk::Walk;
