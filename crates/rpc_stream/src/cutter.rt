// A cutter holds the part of a PDU that has come, and takes what is missing from the pieces of a stream.
ghost use Rattle.std.specs.Prelude.{◌≡◌, ℕ, ◌+◌, ◌-◌, ◌≤◌, ◌<◌, ◌^◌, [], length, take, ◌==◌, IfOk, OnErr};
ghost use Rattle.rpc_stream.specs.Pdus.{first_of, short_by, is_no_label, lacking_of, IsTaken};

use crate::stated::{First, StreamReason};
use std::alloc::{AllocError, Global};
use std::marker::Model;

/// The part of a PDU that has come of a stream. Contracts see its octets.
#[derive(Debug, Drop)]
pub struct Cutter {
    pending: Vec<u8>,
}

impl Model for Cutter {
    ghost use Rattle.std.specs.Prelude.{List, ℕ};

    ghost Value = { List ℕ };

    ghost view = { λ c. c.pending.items };
}

impl Cutter {
    /// Nothing yet. Takes no memory.
    pub fn new(alloc: Global) -> Cutter
        ensures { result ≡ [] }
    {
        Cutter {
            pending: Vec::new(alloc),
        }
    }

    /// Takes octets from the front of a piece: those that are missing from the PDU, as far as is known, or the whole piece. The answer is how many.
    /// Takes memory for them.
    ///
    /// # Errors
    /// Memory ran out. Then nothing was taken, and the same piece may be given again.
    pub fn take(&mut self, piece: &[u8]) -> Result<usize, AllocError>
        ensures taken { IfOk result (λ n. IsTaken self.old piece.now n self.new) }
        ensures kept { OnErr result (self.new ≡ self.old) }
    {
        let lack = lacking(self.pending.as_slice());
        let count = smaller(lack, piece.len());
        self.pending.extend_from_slice(front(piece, count))?;
        Ok(count)
    }

    /// The octets that have come. Takes no memory.
    pub fn octets(&self) -> &[u8]
        ensures { result.now ≡ self.now }
    {
        self.pending.as_slice()
    }

    /// Whether they are a PDU, a part of one, or refused. Takes no memory.
    pub fn first(&self) -> First
        ensures { result ≡ first_of self.now }
    {
        what_begins(self.pending.as_slice())
    }

    /// Drops the octets, and keeps their room for the next PDU. Takes no memory.
    pub fn clear(&mut self)
        ensures { self.new ≡ [] }
    {
        self.pending.clear();
    }
}

// Finds what octets begin with.
fn what_begins(octets: &[u8]) -> First
    ensures { result ≡ first_of octets.now }
{
    if octets.len() < 16 {
        return First::Waiting;
    }
    if octets[0] != 5 {
        return First::Wrong {
            place: 0,
            reason: StreamReason::Version,
        };
    }
    if is_other_label(octets[4]) {
        return First::Wrong {
            place: 4,
            reason: StreamReason::Label,
        };
    }
    let length = stated_length(octets[4], octets[8], octets[9]);
    if length < 16 {
        return First::Wrong {
            place: 8,
            reason: StreamReason::Length,
        };
    }
    if octets.len() < length as usize {
        return First::Waiting;
    }
    First::Whole { length }
}

// Counts the octets that are missing from the PDU, as far as these say.
fn lacking(octets: &[u8]) -> usize
    ensures { result ≡ lacking_of octets.now }
{
    let have = octets.len();
    if have < 16 {
        16 - have
    } else {
        let length = stated_length(octets[4], octets[8], octets[9]) as usize;
        difference(length, have)
    }
}

// Subtracts, down to 0.
fn difference(one: usize, other: usize) -> usize
    ensures { result ≡ one - other }
{
    if one < other { 0 } else { one - other }
}

// Gives the smaller of two numbers.
fn smaller(one: usize, other: usize) -> usize
    ensures first { result ≤ one }
    ensures second { result ≤ other }
    ensures either { result + 1 ≤ one → result ≡ other }
{
    if one < other { one } else { other }
}

// Gives the first octets, this many.
fn front(octets: &[u8], count: usize) -> &[u8]
    requires { count ≤ length octets.now }
    ensures { result.now ≡ take count octets.now }
{
    &octets[..count]
}

// Tests whether a format label is refused, by its first octet.
fn is_other_label(octet: u8) -> bool
    ensures { result ≡ is_no_label octet }
{
    octet != 0 && octet != 16
}

// Reads a fragment length in the order of octets that the label states.
fn stated_length(label: u8, a: u8, b: u8) -> u32
    ensures value { result ≡ short_by (label == 16) a b }
    ensures fits { result < 2 ^ 16 }
{
    if label == 16 {
        u32::from(b) * 256 + u32::from(a)
    } else {
        u32::from(a) * 256 + u32::from(b)
    }
}
