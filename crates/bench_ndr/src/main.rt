//! Measures `decode`, `Work::for_graph` and `encode_with`. The octets of an operation's inputs, in little order, are the standard input. They are
//! read to their end first; then they are decoded so many times from memory, and their graph is encoded as often, into a buffer that the octets are
//! then copied to. It says how many nanoseconds the fastest of each took. If they are to be decoded no time, they are decoded once, straight from the
//! input, and nothing is kept of them: so it shows what memory that takes.
//!
//! The words are the interface file, the number of the operation, and how many times the octets are decoded.
#![tactic(auto)]

mod measure;

use command_compile::compile;
use idl_grammar::{IdlFile, Language};
use measure::{decoded, measured};
use nd_base::{FolderFiles, InputSource, Octets, Source};
use ndr_plan::make;
use std::{env, io};

// The most octets that are read.
const MOST: usize = 67_108_864;

// How many octets are read at once. The buffer is given back before anything is measured, and the C library keeps memory that is given back up to
// twice the size of the largest block that it saw given back: so each round has the memory of the one before, as in a program that has run for long.
const PIECE: usize = 33_500_000;

fn main(rt: HostRuntime) -> io::Result<()> {
    let mut words = env::args(&rt)?.skip(1);
    let Some(idl) = words.next() else {
        return Err(invalid());
    };
    let mut files = FolderFiles::new(&rt);
    let main_file = IdlFile {
        name: idl.as_str(),
        language: Language::C706,
    };
    let Ok(interface) = compile(rt.alloc(), main_file, None, &mut files) else {
        return Err(invalid());
    };
    let Ok(plan) = make(rt.alloc(), &interface) else {
        return Err(io::Error::from(io::ErrorKind::OutOfMemory));
    };
    let op = number(words.next());
    let rounds = number(words.next());
    if op as usize >= interface.operations.len() {
        return Err(invalid());
    }
    if rounds == 0 {
        let _fit = decoded(&rt, &plan, op, &mut InputSource::new(rt.stdin()))?;
        return Ok(());
    }
    let octets = input(&rt)?;
    measured(&rt, &plan, op, rounds, octets)
}

// The number that a word says; 0 where there is none.
fn number(word: Option<String>) -> u32 {
    match word {
        Some(word) => word.as_str().parse::<u32>().unwrap_or(0),
        None => 0,
    }
}

// The octets of the standard input.
fn input(rt: &HostRuntime) -> io::Result<Octets> {
    let mut source = InputSource::new(rt.stdin());
    let mut buf = vec![in rt.alloc(); 0u8; PIECE]?;
    let mut octets = Octets::new(rt.alloc());
    for _ in 0..u64::MAX {
        let Ok(count) = source.fetch(buf.as_mut_slice()) else {
            return Err(invalid());
        };
        if count == 0 || octets.as_slice().len() > MOST {
            return Ok(octets);
        }
        if octets.append(&buf[..count]).is_err() {
            return Err(io::Error::from(io::ErrorKind::OutOfMemory));
        }
    }
    Err(invalid())
}

fn invalid() -> io::Error {
    io::Error::from(io::ErrorKind::InvalidInput)
}
