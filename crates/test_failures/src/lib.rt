//! Tests of runs in which one call of the files, of the input, of an output or of the end of a pipe fails.
#![tactic(auto)]

#[cfg(test)]
mod commands;
#[cfg(test)]
mod runs;
#[cfg(test)]
mod tests;
