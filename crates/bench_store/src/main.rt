//! Measures a store of resources: so many are live, and it says how many nanoseconds a use takes, and a close with an open. Each resource only counts
//! its lines.
#![tactic(auto)]

mod counter;
mod measure;

use measure::measured;
use std::{env, io};

// The words of the command line are numbers of live resources, 1 to 4,096.
fn main(rt: HostRuntime) -> io::Result<()> {
    for word in env::args(&rt)?.skip(1) {
        let count = word.parse::<u32>().unwrap_or(0);
        if 1 <= count && count <= 4_096 {
            measured(&rt, count)?;
        }
    }
    Ok(())
}
