//! Tests of the public call of the program on worked command lines, each command once. Tests of sessions: scripts over resources in memory, some of
//! whose calls fail.
#![tactic(auto)]

#[cfg(test)]
mod resource_sessions;
#[cfg(test)]
mod scripts;
#[cfg(test)]
mod session_runs;
#[cfg(test)]
mod sessions;
#[cfg(test)]
mod tests;
