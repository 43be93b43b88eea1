// The PDUs of a side, what each is to its call, and how calls end.
ghost use Rattle.std.specs.Prelude.{◌≡◌, ℕ, ◌+◌, ◌*◌, ◌≤◌, [], ◌∷◌, ◌++◌, length, slice_index, OnOk, OnErr};
ghost use Rattle.rpc_stream.specs.Pdus.{call_of};
ghost use Rattle.rpc_stream.specs.Calls.{part_at, in_calls};

use nd_base::Octets;
use std::alloc::{AllocError, Global};
use std::marker::Model;

/// One of the two sides of a connection (C706 section 12.6).
#[derive(Clone, Copy, Debug, PartialEq, Eq)]
pub enum Peer {
    /// The side that calls.
    Client,
    /// The side that is called.
    Server,
}

/// A PDU of a stream.
#[derive(Debug, Drop)]
pub struct Pdu {
    /// Where it begins: how many octets of the stream come before it, modulo 2^64.
    pub at: u64,
    pub octets: Octets,
}

/// PDUs in the order of their stream, as the fragments of a call. Contracts see their list.
#[derive(Debug, Drop)]
pub struct Fragments {
    items: Vec<Pdu>,
}

/// How a call ended.
#[derive(Debug, Drop)]
pub enum Ended {
    /// The last fragment came.
    Complete { fragments: Fragments },
    /// Another first fragment of its call id came before the last.
    CutOff { fragments: Fragments },
    /// A fault or an orphaned PDU stopped it, after these fragments, which may be none.
    Stopped { fragments: Fragments, by: Pdu },
    /// No call of its id was open, and this fragment begins none.
    Stray { pdu: Pdu },
}

/// What a PDU is to its call.
#[derive(Clone, Copy, Debug, PartialEq, Eq)]
pub enum Part {
    /// All of it.
    Sole,
    /// The first fragment.
    Opening,
    /// A fragment between the first and the last.
    Middle,
    /// The last fragment.
    Closing,
    /// What stops it.
    Stopping,
}

impl Model for Fragments {
    ghost use Rattle.std.specs.Prelude.{List};
    ghost use Rattle.rpc_stream.specs.declared.call.Pdu.{Pdu};

    ghost Value = { List Pdu };

    ghost view = { λ f. f.items.items };
}

impl Fragments {
    /// No PDUs. Takes no memory.
    pub fn new(alloc: Global) -> Fragments
        ensures { result ≡ [] }
    {
        Fragments {
            items: Vec::new(alloc),
        }
    }

    /// Adds a PDU at the end. Running out of memory is the only refusal: then nothing changes, and the PDU is dropped.
    pub fn push(&mut self, pdu: Pdu) -> Result<(), AllocError>
        ensures pushed { OnOk result (self.new ≡ self.old ++ (pdu ∷ [])) }
        ensures kept { OnErr result (self.new ≡ self.old) }
    {
        let Ok(()) = self.items.push(pdu) else {
            return Err(AllocError);
        };
        Ok(())
    }

    /// The PDUs. Takes no memory.
    pub fn as_slice(&self) -> &[Pdu]
        ensures { result.now ≡ self.now }
    {
        self.items.as_slice()
    }
}

/// What a PDU is to its call, by its type and flags (C706 section 12.6.3.1). Takes no memory.
pub fn part_in_call(octets: &[u8]) -> Part
    requires whole { 16 ≤ length octets.now }
    ensures { result ≡ part_at (slice_index octets.now 2) (slice_index octets.now 3) }
{
    let kind = octets[2];
    let first = octets[3] & 1 != 0;
    let last = octets[3] & 2 != 0;
    if kind == 19 || kind == 3 {
        Part::Stopping
    } else if 10 < kind && kind < 16 {
        Part::Sole
    } else if first && last {
        Part::Sole
    } else if first {
        Part::Opening
    } else if last {
        Part::Closing
    } else {
        Part::Middle
    }
}

/// Whether a PDU is a part of one of a side's calls, by its type. Takes no memory.
pub fn is_in_calls(peer: Peer, kind: u8) -> bool
    ensures { result ≡ in_calls peer kind }
{
    match peer {
        Peer::Client => kind == 0 || (kind == 11 || (kind == 14 || kind == 19)),
        Peer::Server => kind == 2 || (kind == 3 || (kind == 12 || (kind == 13 || kind == 15))),
    }
}

/// The call id of a PDU. Takes no memory.
pub fn call_id(octets: &[u8]) -> u32
    requires whole { 16 ≤ length octets.now }
    ensures { result ≡ call_of octets.now }
{
    let [a, b, c, d] = [octets[12], octets[13], octets[14], octets[15]];
    if octets[4] == 16 {
        long_number(d, c, b, a)
    } else {
        long_number(a, b, c, d)
    }
}

// Reads a number of four octets, the most significant first.
fn long_number(a: u8, b: u8, c: u8, d: u8) -> u32
    ensures { result ≡ ((a * 256 + b) * 256 + c) * 256 + d }
{
    ((u32::from(a) * 256 + u32::from(b)) * 256 + u32::from(c)) * 256 + u32::from(d)
}
