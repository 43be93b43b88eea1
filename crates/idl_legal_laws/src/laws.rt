//! The laws, by what they are about.
pub mod legal;
pub mod rules;
