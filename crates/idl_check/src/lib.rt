//! The interface that files mean, or the first rule that they break, that on attribute files among them (C706, chapter 4).
#![tactic(auto)]

mod acf_names;
mod acf_places;
mod acf_rule;
mod checking;
mod interface;
pub mod laws;

pub use acf_rule::ACF_FILE;
pub use checking::check;
pub use idl_listing::interface_listing;
pub use idl_rule_definitions::RuleFault;
pub use interface::interface_of;
