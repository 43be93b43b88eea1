//! Texts of values that are read and fitted to a side of an operation, among them the text of the request beside which a response is judged; and
//! the values of a fit, written as octets in NDR (C706, chapter 14).
#![tactic(auto)]

mod fitting;
mod request;
mod writing;

pub use fitting::{fit_graph, fit_text};
pub use request::load_request;
pub use writing::write_octets;
