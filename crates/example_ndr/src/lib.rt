//! Laws of graphs without a misfit, and worked examples, each a theorem over the definitions: which graphs conform, with a request or
//! without one, and which misfit is the first of those that do not; which octets are streams of which graphs, where octets are refused, and
//! that the laws' premises can be met. Nothing is built on it.
#![tactic(auto)]

pub mod examples;
pub mod graphs;
pub mod misfit_laws;
pub mod plain_graphs;
