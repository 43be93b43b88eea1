//! The laws, by what they are about.
pub mod heads;
pub mod joined;
pub mod parts;
pub mod reader;
