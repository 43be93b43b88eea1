//! Values, and graphs of values: the values of an operation's parameters with the referents of their pointers. What makes such a
//! graph conform to the operation, and which misfit is its first.
#![tactic(auto)]

mod item;
mod item_log;
pub mod laws;
mod misfit;
mod value;

pub use item::{Home, Item, ItemKind};
pub use item_log::ItemLog;
pub use misfit::{Misfit, MisfitReason, NodeMisfit};
pub use value::{ArmVal, Cell, CellId, Cells, Graph, Val, Vals};
