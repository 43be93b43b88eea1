//! The text of values, by definition: which text a graph has, which graph a text is read as, and where and why a text is that of no graph.
//! There are two versions: both are read, and the second is printed. As code: counts and indices in base 10, and the arm that a tag selects.
//! The laws of reading say that a text is cut in one way, and what its tokens come to when they are read one after the other.
#![tactic(auto)]

mod arms;
pub mod examples;
mod fault;
pub mod laws;
mod numbers;
mod version;

pub use arms::selected;
pub use fault::{TextFault, TextReason};
pub use numbers::{append_count, append_index};
pub use version::Version;

/// The greatest number of octets of a value text.
pub const TEXT_LIMIT: u32 = 536_870_912;
