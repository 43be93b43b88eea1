//! Laws of the encoder: what the runs of a plan write for the homes of a graph, one after the other, are the octets that the definitions
//! choose. Folders of the definitions and lemmas: `pieces`, what is written piece by piece; `written`, what runs write; `shaped`, that each
//! node of a graph that conforms has the form of its type; `turns`, the order of the homes; `maximum`, the maximum count before a value;
//! `chosen`, that all together are the chosen octets. Each law is the contract of a function that does nothing.
#![tactic(auto)]

mod frames;
pub mod laws;

pub use frames::{Frame, Frames};
