//! How texts of values are read: version 1 and version 2 of the value text. What comes next in a text is looked at token by token: whether the token
//! that is due is the next.
#![tactic(auto)]

mod grammar;
mod identifiers;
mod lexeme;
mod names;
mod numbers;
mod octets;
mod parts;
mod steps;
mod stop;
mod strings;
mod texts;
mod values;

pub use lexeme::{Lexeme, Scanned};
pub use stop::Stop;
pub use texts::read_text;
