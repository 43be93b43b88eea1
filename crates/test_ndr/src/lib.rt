//! Tests of decode and encode on worked octets and on octets that other programs wrote, and on a chain of a million cells; and of traces on worked
//! octets.
#![tactic(auto)]

#[cfg(test)]
mod chain;
#[cfg(test)]
mod interface;
#[cfg(test)]
mod plans;
#[cfg(test)]
mod referents;
#[cfg(test)]
mod responses;
#[cfg(test)]
mod tests;
#[cfg(test)]
mod trace_interface;
#[cfg(test)]
mod traces;
