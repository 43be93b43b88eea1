//! The laws, by what they are about.
pub mod chosen;
pub mod maximum;
pub mod pieces;
pub mod shaped;
pub mod turns;
pub mod written;
