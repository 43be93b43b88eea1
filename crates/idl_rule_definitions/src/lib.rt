//! What the rules of IDL speak of, the rules, which broken one is the first, and what files mean (C706, chapter 4).
#![tactic(auto)]

mod fault;
mod finder;
pub mod rule;

pub use fault::RuleFault;
pub use finder::{Breach, Finder};
