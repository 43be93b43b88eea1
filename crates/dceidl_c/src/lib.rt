//! The calls of `libdceidl`, as `include/dceidl.h` has them. Each takes what its handle holds, makes one call of the crates below, and puts it back.
#![tactic(auto)]

mod building;
mod faults;
mod fragments;
mod identity;
mod interfaces;
mod items;
mod nodes;
mod parts;
mod reading;
mod types;
mod versions;
mod writing;
