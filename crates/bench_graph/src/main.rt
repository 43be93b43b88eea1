//! Measures graphs: each is fitted to its operation, and if it fits made canonical and compared with that. It says how many nanoseconds
//! each takes for a node, and how many a copy of as many octets as the nodes take.
#![tactic(auto)]

ghost use Rattle.std.specs.Prelude.{◌<◌, ◌^◌};

mod interface;
mod list;
mod measure;

use list::Form;
use measure::{made_list, measured_list, measured_pointers};
use std::{env, io};

const MOST: u32 = 100_000_000;

// The words of the command line are pairs: what is measured, and how many cells or pointers it has. `list` is a list, `unnamed` one of
// which all cells but the first are named by nothing, `misfit` one whose last number is out of range, `pointers` pointers to one cell, and
// `graph` the list alone, which is made and not fitted.
fn main(rt: HostRuntime) -> io::Result<()> {
    let mut form = 0;
    for word in env::args(&rt)?.skip(1) {
        match word.as_str() {
            "list" => form = 0,
            "unnamed" => form = 1,
            "misfit" => form = 2,
            "pointers" => form = 3,
            "graph" => form = 4,
            number => {
                let count = number.parse::<u32>().unwrap_or(0);
                if count > 0 && count < MOST {
                    measured(&rt, form, count)?;
                }
            }
        }
    }
    Ok(())
}

// Measures one graph.
fn measured(rt: &HostRuntime, form: u32, count: u32) -> io::Result<()>
    requires { count < 2 ^ 31 }
{
    match form {
        0 => measured_list(
            rt,
            "list",
            Form {
                count,
                named: count,
                last: 1,
            },
        ),
        1 => measured_list(
            rt,
            "unnamed",
            Form {
                count,
                named: 1,
                last: 1,
            },
        ),
        2 => measured_list(
            rt,
            "misfit",
            Form {
                count,
                named: count,
                last: 4_294_967_296,
            },
        ),
        3 => measured_pointers(rt, count),
        _ => made_list(
            rt,
            Form {
                count,
                named: count,
                last: 1,
            },
        ),
    }
}
