// Fragments are joined so many times, and stub data are split or copied as often.
ghost use Rattle.std.specs.Prelude.{◌≤◌, length};
ghost use Rattle.nd_base.specs.declared.TheConstants.{STREAM_LIMIT};

use nd_base::{Octets, Order, PlainSource};
use rpc_pdu::{Head, Joined, Wanted, join, split};
use std::alloc::Global;
use std::io;

// How many octets each fragment but the last has.
const MAX: u16 = 4_280;

/// The fragments of a source, joined.
pub(crate) fn joined(alloc: Global, source: &mut PlainSource) -> io::Result<Joined> {
    match join(alloc, Wanted::Request, source) {
        Ok(joined) => Ok(joined),
        Err(_) => Err(io::Error::from(io::ErrorKind::InvalidData)),
    }
}

/// Joins the same fragments so many times.
pub(crate) fn join_often(alloc: Global, rounds: u32, octets: Octets) -> io::Result<()> {
    let mut octets = octets;
    for _ in 0..rounds {
        let mut source = PlainSource::new(octets);
        let _joined = joined(alloc, &mut source)?;
        octets = source.into_octets();
    }
    Ok(())
}

/// Splits the same stub data so many times.
pub(crate) fn split_often(alloc: Global, rounds: u32, stub: &[u8]) -> io::Result<()>
    requires room { length stub.now ≤ STREAM_LIMIT }
{
    let head = Head::Request { opnum: 0 };
    for _ in 0..rounds {
        let Ok(_octets) = split(alloc, Order::Little, head, 1, MAX, stub) else {
            return Err(io::Error::from(io::ErrorKind::OutOfMemory));
        };
    }
    Ok(())
}

/// Copies the same octets so many times.
pub(crate) fn copy_often(alloc: Global, rounds: u32, octets: &[u8]) -> io::Result<()> {
    for _ in 0..rounds {
        let Ok(_copy) = Octets::copy(alloc, octets) else {
            return Err(io::Error::from(io::ErrorKind::OutOfMemory));
        };
    }
    Ok(())
}
