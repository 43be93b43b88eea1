//! What a program in another language holds: a handle, which holds an interface, values, a refusal, nodes or items, or nothing. Boxes as their
//! pointers.
#![tactic(auto)]

mod handle;
mod held;
mod loose;

pub use handle::Handle;
pub use held::Held;
pub use loose::Loose;
