//! Tests of the public calls of graphs on worked rows: which graphs fit, which misfit is the first, `canonical`, `same`, the builder. Tests of the
//! calls on graphs in flat form: rows of numbers, structs side by side.
#![tactic(auto)]

#[cfg(test)]
mod basic_interface;
#[cfg(test)]
mod builder;
#[cfg(test)]
mod graphs;
#[cfg(test)]
mod home_building;
#[cfg(test)]
mod interface;
#[cfg(test)]
mod rows;
#[cfg(test)]
mod structs;
#[cfg(test)]
mod tests;
