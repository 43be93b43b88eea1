//! The command `session`: a script on the input opens, uses and ends the resources of a stock, under the identifiers of context handles.
#![tactic(auto)]

mod running;

pub use running::session;
