//! What is said of each refusal and of each status: the entries of `why`.
#![tactic(auto)]

mod entries;
mod lookup;
mod near;
mod pages;

pub use entries::ENTRIES;
pub use lookup::{Explained, explain};
