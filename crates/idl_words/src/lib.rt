//! Laws: the words that only the windows language has move no refusal of a text of C706.
#![tactic(auto)]

pub mod laws;
