//! Runs `join` or `split` so many times, so that the processor time of a run can be measured. The fragments of a request are the standard input. They
//! are read to their end and joined first; then they are joined again from memory, or their stub data are split into fragments of 4,280 octets, or
//! copied. It says how many octets the fragments and their stub data have.
//!
//! The words are `join`, `split` or `copy`, and how many times that is done.
#![tactic(auto)]

mod rounds;

use nd_base::{InputSource, Octets, PlainSource, STREAM_LIMIT, Source};
use rounds::{copy_often, join_often, joined, split_often};
use std::{env, io};

// The most octets that are read.
const MOST: usize = 268_435_456;

// How many octets are read at once.
const PIECE: usize = 1_048_576;

fn main(rt: HostRuntime) -> io::Result<()> {
    let mut words = env::args(&rt)?.skip(1);
    let Some(what) = words.next() else {
        return Err(invalid());
    };
    let Some(rounds) = words.next() else {
        return Err(invalid());
    };
    let Ok(rounds) = rounds.as_str().parse::<u32>() else {
        return Err(invalid());
    };
    let octets = input(&rt)?;
    let count = octets.as_slice().len();
    let mut source = PlainSource::new(octets);
    let first = joined(rt.alloc(), &mut source)?;
    let stub = first.stub.as_slice();
    if stub.len() > STREAM_LIMIT as usize {
        return Err(invalid());
    }
    match what.as_str() {
        "join" => join_often(rt.alloc(), rounds, source.into_octets())?,
        "split" => split_often(rt.alloc(), rounds, stub)?,
        "copy" => copy_often(rt.alloc(), rounds, stub)?,
        _ => return Err(invalid()),
    }
    println!(rt; "{count} octets, {} of stub data", stub.len())
}

// The octets of the standard input.
fn input(rt: &HostRuntime) -> io::Result<Octets> {
    let mut source = InputSource::new(rt.stdin());
    let mut buf = vec![in rt.alloc(); 0u8; PIECE]?;
    let mut octets = Octets::new(rt.alloc());
    for _ in 0..u64::MAX {
        let Ok(count) = source.fetch(buf.as_mut_slice()) else {
            return Err(invalid());
        };
        if count == 0 || octets.as_slice().len() > MOST {
            return Ok(octets);
        }
        if octets.append(&buf[..count]).is_err() {
            return Err(io::Error::from(io::ErrorKind::OutOfMemory));
        }
    }
    Err(invalid())
}

fn invalid() -> io::Error {
    io::Error::from(io::ErrorKind::InvalidInput)
}
