//! The compiler of IDL (C706, chapter 4): the interface that files mean, and how their faults are reported. `compat` compiles two versions of an
//! interface, compares them, and finds the first place at which they differ. The laws, over the definitions of the language alone, say that every
//! text has an answer.
#![tactic(auto)]

mod acf;
mod interface;
pub mod laws;
mod places;
mod reported;
mod versions;

pub use interface::{compile, list, list_plan};
pub use places::{Incompatible, compat_why};
pub use versions::compat;
