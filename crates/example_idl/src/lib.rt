//! Worked examples: small texts with the rule that each breaks, texts with their interfaces and listings, and attribute configuration files.
#![tactic(auto)]

pub mod laws;
