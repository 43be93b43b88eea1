// A pipe of three elements in two chunks through the public call.
ghost use Rattle.std.specs.Prelude.{◌≡◌, IfOk, false};
ghost use Rattle.ndr_pipe.specs.Ends.{AreOpen, ends_seen};

use crate::interface::interface;
use nd_base::{MemSource, Memory, Order, Steps, Uncounted};
use nd_grammar::Reason;
use nd_types::{Interface, Side};
use nd_value::ItemLog;
use ndr_drain::{DrainFault, drain};
use ndr_pipe::{MemEnd, PipeEnd, PipeEnds};
use ndr_plan::make;
use std::alloc::Global;
use std::test::Fail;

// The elements 1, 2 and 3 in chunks of 2 and 1, and the end.
const ROW: &[u8] = b"\x02\0\0\0\x01\0\0\0\x02\0\0\0\x01\0\0\0\x03\0\0\0\0\0\0\0";

// How many octets were taken. It is out of memory too if the interface has no operation.
fn drained(alloc: Global, octets: &[u8], ends: &mut PipeEnds) -> Result<u32, DrainFault>
    requires { AreOpen (ends_seen seen ends.old) }
{
    let Ok(interface) = interface(alloc) else {
        return Err(DrainFault::Memory);
    };
    drained_by(alloc, &interface, octets, ends)
}

fn drained_by(
    alloc: Global,
    interface: &Interface,
    octets: &[u8],
    ends: &mut PipeEnds,
) -> Result<u32, DrainFault>
    requires { AreOpen (ends_seen seen ends.old) }
{
    if interface.operations.len() == 0 {
        return Err(DrainFault::Memory);
    }
    let Ok(plan) = make(alloc, interface) else {
        return Err(DrainFault::Memory);
    };
    let Ok(mut source) = MemSource::new(alloc, octets, 5, &[]) else {
        return Err(DrainFault::Memory);
    };
    let mut log = ItemLog::quiet();
    let mut steps = Steps::new(Uncounted::new());
    match drain(
        alloc,
        interface,
        &plan,
        0,
        Side::In,
        Order::Little,
        None,
        &mut source,
        ends,
        &mut log,
        &mut steps,
    ) {
        Ok(drained) => Ok(drained.taken),
        Err(fault) => Err(fault),
    }
}

// An end in memory.
pub(crate) fn mem_end(alloc: Global) -> Result<Box<MemEnd>, Memory>
    ensures { IfOk result (λ b. (⟦<MemEnd as PipeEnd>⟧.seen b.value).finished ≡ false) }
{
    match Box::new(alloc, MemEnd::new(alloc, 100, &[])?) {
        Ok(end) => Ok(end),
        Err(_) => Err(Memory),
    }
}

// One more end that is not finished.
#[tactic(auto, using(ndr_pipe::proofs::Open::all_open))]
pub(crate) fn add(ends: &mut PipeEnds, end: Box<dyn PipeEnd>) -> Result<(), Memory>
    requires all { AreOpen (ends_seen seen ends.old) }
    requires one { (seen end).finished ≡ false }
    ensures { IfOk result (λ _. AreOpen (ends_seen seen ends.new)) }
{
    match ends.push(end) {
        Ok(()) => Ok(()),
        Err((memory, _)) => Err(memory),
    }
}

// Whether the first end has taken these octets, and is finished or not.
pub(crate) fn has_taken(ends: &PipeEnds, octets: &[u8], finished: bool) -> bool {
    match ends.get(0) {
        Some(end) => end.finished() == finished && end.shown() == Some(octets),
        None => false,
    }
}

// Octets, what they come to, and what the end has taken then.
#[derive(Clone, Copy)]
struct Row {
    octets: &'static [u8],
    wanted: Result<u32, DrainFault>,
    taken: &'static [u8],
    finished: bool,
}

const ROWS: &[Row] = &[
    Row {
        octets: ROW,
        wanted: Ok(24),
        taken: b"1\n2\n3\n",
        finished: true,
    },
    // The first octets of the same end after the first chunk, whose elements the end has; it is not finished.
    Row {
        octets: b"\x02\0\0\0\x01\0\0\0\x02\0\0\0\x01\0\0\0",
        wanted: Err(DrainFault::Bad {
            place: 16,
            reason: Reason::Truncated,
        }),
        taken: b"1\n2\n",
        finished: false,
    },
];

// Whether the octets of a row come to what they have to.
fn is_drained(alloc: Global, row: &Row) -> Result<bool, Memory> {
    let mut ends = PipeEnds::new(alloc);
    add(&mut ends, mem_end(alloc)?)?;
    let found = drained(alloc, row.octets, &mut ends);
    Ok(found == row.wanted && has_taken(&ends, row.taken, row.finished))
}

#[test]
fn pipes_go_to_ends(rt: HostRuntime) -> Result<(), Fail> {
    for row in ROWS {
        assert!(rt; is_drained(rt.alloc(), row)?);
    }
    Ok(())
}

// There is no end for the pipe.
#[test]
fn ends_are_too_few(rt: HostRuntime) {
    let mut ends = PipeEnds::new(rt.alloc());
    let wanted = DrainFault::TooFewEnds {
        wanted: 1,
        found: 0,
    };
    assert_eq!(rt; drained(rt.alloc(), ROW, &mut ends), Err(wanted));
}
