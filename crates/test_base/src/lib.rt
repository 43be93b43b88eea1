//! Tests of the calls of the lowest crates: octets, sources, sinks, files, numbers, types, values, ends, resources; of those on interfaces: their
//! operations and roots, layouts, copies, and the lists that types are made of; and of `join` on streams of fragments, changed at an octet or cut.
#![tactic(auto)]

#[cfg(test)]
mod base;
#[cfg(test)]
mod ends;
#[cfg(test)]
mod fragment_cuts;
#[cfg(test)]
mod fragment_reasons;
#[cfg(test)]
mod fragment_streams;
#[cfg(test)]
mod full;
#[cfg(test)]
mod input;
#[cfg(test)]
mod lists;
#[cfg(test)]
mod numbers;
#[cfg(test)]
mod resources;
#[cfg(test)]
mod two_types;
#[cfg(test)]
mod values;
#[cfg(test)]
mod walks;
#[cfg(test)]
mod whole_fragments;
