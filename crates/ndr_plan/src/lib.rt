//! How the types of an interface are laid out in a stream (C706, 14.2 and 14.3), as a flat plan, and the listing of a plan.
#![tactic(auto)]

ghost use Rattle.std.specs.Prelude.{◌≡◌, ◌<◌, length};
ghost use Rattle.nd_types.specs.Layout.{align_of};

mod addresses;
mod instr_words;
mod making;
mod plan_lines;
mod root_numbers;
mod side_checks;
mod side_code;
mod sides;
mod type_code;

pub use making::make;
use nd_types::{Interface, TypeId};
pub use ndr_code::{
    ADDRESS_LIMIT, Code, EnumList, EnumLists, Instr, Plan, PlanLine, PlanLines, SideStarts,
};
pub use plan_lines::listing;

/// The alignment of a type, by its number, which must be that of a type of the interface (C706, 14.2.2). It takes no memory.
pub fn align_of(interface: &Interface, of: TypeId) -> u8
    requires { of.0 < length interface.now.types }
    ensures { result ≡ align_of interface.now.types of.0 }
{
    interface.align(of)
}
