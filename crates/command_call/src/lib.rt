//! The fragments of a request or response (C706 section 12.6) of a source, whose stub data are printed as the text of their values.
#![tactic(auto)]

mod calling;

pub use calling::print_call;
