//! Tests of the public calls of the front end on worked files: what a parser, the names, the rules and a listing make of them. The comparison of
//! interfaces that are written as IDL: one case for each answer and for each kind of type, alike and different.
#![tactic(auto)]

#[cfg(test)]
mod attribute_files;
#[cfg(test)]
mod checking;
#[cfg(test)]
mod comparisons;
#[cfg(test)]
mod compat_commands;
#[cfg(test)]
mod expressions;
#[cfg(test)]
mod files;
#[cfg(test)]
mod imports;
#[cfg(test)]
mod integers;
#[cfg(test)]
mod listing;
#[cfg(test)]
mod parsing;
#[cfg(test)]
mod tokens;
