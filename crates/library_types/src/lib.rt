//! The types of an interface by their numbers; the roots of a side of an operation, the members of structs, the arms of unions and the enumerators,
//! by their places and by their names; what of these crosses to C, in numbers.
#![tactic(auto)]

mod bits;
mod description;
mod finding;
mod parts;
mod roots;

pub use bits::low;
pub use description::{TypeDescription, describe_type, type_count};
pub use finding::{Named, element_type, member_named, root_named};
pub use parts::{
    ArmDescription, Selection, arm_at, arm_selected, describe_arm, enumerator_at, is_default,
    member_at,
};
pub use roots::{RootDescription, describe_root, root_at, root_count};
