//! Values that only contracts see, and that take no memory: what was given to an object that cannot show it, as a file.
#![tactic(auto)]

mod octets;

pub use octets::GhostOctets;
