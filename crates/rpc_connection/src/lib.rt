//! What both sides of a connection say (C706 chapter 12), as definitions: fragments without padding and security trailers, what the fragments of
//! a call say together, which contexts are agreed on, which answer belongs to which question, and what each call can be read as. No code but laws.
#![tactic(auto)]

pub mod laws;
