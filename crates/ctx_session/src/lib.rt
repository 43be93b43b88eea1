//! Sessions: a script opens, uses and ends the resources of a stock, which a store keeps under the identifiers of their context handles. The laws
//! say that no identifier is live twice.
#![tactic(auto)]

mod answer;
pub mod laws;
mod line;
mod lines;
mod numbers;
mod script;
mod session;
mod stock;
pub mod store_laws;

pub use session::{SCRIPT_LIMIT, SessionFault, run_script};
pub use stock::{Stock, StockOf};
