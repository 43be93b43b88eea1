//! Laws of the rules: what is true of files that break no rule, and that they mean a legal interface. Each law is the contract of a function
//! that does nothing.
#![tactic(auto)]

pub mod laws;
