//! Walks over the items of the value of a home, by the log of refused octets: a line for each item, and the path of what is refused. The laws say
//! which entries of a stream are due while they are gone through, and at which of them the log ends.
#![tactic(auto)]

mod cells;
mod counted;
pub mod laws;
mod members;
mod nodes;
mod parameters;
mod pointers;
mod progress;
mod search;
mod shapes;

pub use cells::{Cells, Pending, come_to, new_cell};
pub use members::{at_end, close};
pub use nodes::{Walker, walk_level};
pub use parameters::{RootSeen, note_direct, variable_path};
pub use pointers::PointerSpot;
pub use progress::{Ground, Halt, Progress, Spot, count, gap};
pub use search::{Search, Sought, find_agreement};
