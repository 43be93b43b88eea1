//! The first place at which two interfaces differ.
#![tactic(auto)]

mod children;
mod finding;
mod lines;
mod origins;
mod places;
mod steps;
mod trail;
mod walking;
mod wanted;

pub use finding::first_difference;
pub use lines::difference_lines;
pub use places::{Difference, Place};
pub use steps::{Step, Steps};
