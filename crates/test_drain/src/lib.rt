//! Tests of streams that are read in parts, by the calls of an intake and by a drain, on worked octets.
#![tactic(auto)]

#[cfg(test)]
mod drain;
#[cfg(test)]
mod intake;
#[cfg(test)]
mod interface;
#[cfg(test)]
mod responses;
