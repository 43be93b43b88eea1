//! Laws of streams that are read in parts: the head, which is all before the pipes, and then the chunks of the pipes. Folders of the
//! definitions and lemmas: `parts`, what a head and chunks are, and that they make the stream; `heads`, the head by the plain reader; `joined`,
//! what was read up to a fault or to the end of all pipes; `reader`, the plain reader of one chunk by itself. Each law is the contract of a
//! function that does nothing.
#![tactic(auto)]

pub mod laws;
