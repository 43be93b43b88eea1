//! The tokens of IDL and ACF texts, as C706 chapter 4 has them: words, UUIDs, numbers, character and string
//! literals and marks, with comments and spaces between them.
//!
//! `lex` cuts a text into its tokens, or answers the first fault and the octet where it stands. `Tokens` keeps
//! its own copy of the text.
#![tactic(auto)]

mod classes;
mod cut;
mod lexing;
mod literals;
mod numbers;
mod runs;
mod tokens;

pub use lexing::lex;
pub use numbers::number_of;
pub use tokens::{LexFault, LexKind, TokenKind, Tokens};
