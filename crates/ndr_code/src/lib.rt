//! Plans: the flat code of an interface, and where each of its runs is. Those who run a plan look its runs up by the laws of this crate.
#![tactic(auto)]

mod fields;
mod instr;
pub mod laws;
mod lengths;
mod lists;
mod plan;

pub use fields::{Field, Form, prim_of};
pub use instr::Instr;
pub use lengths::{Lengths, form_width};
pub use lists::{Code, EnumList, EnumLists, PlanLine, PlanLines, SideStarts};
pub use plan::Plan;

/// The greatest number of instructions of a plan: each address is below it.
pub const ADDRESS_LIMIT: u32 = 4_294_967_295;
