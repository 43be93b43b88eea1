//! Tests of the public calls of texts on worked rows: values that are printed and read, a stream that is explained, the path of a value.
#![tactic(auto)]

#[cfg(test)]
mod explaining;
#[cfg(test)]
mod fits;
#[cfg(test)]
mod paths;
#[cfg(test)]
mod printing;
#[cfg(test)]
mod reading;
