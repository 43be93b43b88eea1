//! The parser of IDL (C706, section 4.2): types, parameters, declarations and whole files.
#![tactic(auto)]

mod file;
mod parameters;
mod parsing;
mod types;

pub use idl_grammar::SyntaxFault;
pub use parsing::parse;
