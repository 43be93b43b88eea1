// A stream with a pipe by the calls of an intake: its head, its chunks, and what is kept.
ghost use Rattle.std.specs.Prelude.{◌≡◌, ◌<◌, length, IfOk, OnOk};
ghost use Rattle.ndr_drain_reader.specs.Ready.{IsReady};
ghost use Rattle.ndr_drain_reader.specs.Seen.{intake_seen};
ghost use Rattle.ndr_drain_reader.specs.declared.intake.Phase.TheVariants.{Reading};

use crate::interface::interface;
use nd_base::{Counted, MemSource, Memory, Order, Steps};
use nd_grammar::Reason;
use nd_types::Side;
use nd_value::{ItemLog, Val, Vals};
use ndr_code::Plan;
use ndr_drain_reader::{DecodeFault, Intake};
use ndr_plan::make;
use std::alloc::Global;
use std::test::Fail;

// The elements 1, 2 and 3 in chunks of 2 and 1, and the end; then an octet of another stream.
const ROW: &[u8] = b"\x02\0\0\0\x01\0\0\0\x02\0\0\0\x01\0\0\0\x03\0\0\0\0\0\0\0\xff";

// The first octets of the same: the second chunk has no element.
const CUT: &[u8] = b"\x02\0\0\0\x01\0\0\0\x02\0\0\0\x01\0\0\0";

// The plan of the interface.
fn plan(alloc: Global) -> Result<Plan, Memory>
    ensures known { IfOk result (λ p. 0 < length p.tie.operations) }
{
    let interface = interface(alloc)?;
    let plan = make(alloc, &interface)?;
    if interface.operations.len() == 0 {
        return Err(Memory);
    }
    Ok(plan)
}

// An intake of the inputs of the first operation, whose head was read.
fn begun<'p>(
    alloc: Global,
    plan: &'p Plan,
    source: &mut MemSource,
    steps: &mut Steps<Counted>,
) -> Result<Intake<'p>, DecodeFault>
    requires known { 0 < length plan.now.tie.operations }
    ensures reading { IfOk result (λ i. (intake_seen i).phase ≡ Reading) }
    ensures ready { IfOk result IsReady }
{
    let mut intake = Intake::begin(alloc, plan, 0, Side::In, Order::Little)?;
    let mut log = ItemLog::quiet();
    intake.head(None, source, &mut log, steps)?;
    Ok(intake)
}

// The elements of the next chunk, or None at the end of the pipe. It is out of memory too where no pipe is left.
fn chunk(
    intake: &mut Intake<'_>,
    source: &mut MemSource,
    steps: &mut Steps<Counted>,
) -> Result<Option<Vals>, DecodeFault>
    requires reading { (intake_seen intake.old).phase ≡ Reading }
    requires ready { IsReady intake.old }
    ensures reading { OnOk result ((intake_seen intake.new).phase ≡ Reading) }
    ensures ready { OnOk result (IsReady intake.new) }
{
    if intake.pipes_left() == 0 {
        return Err(DecodeFault::Memory);
    }
    let mut log = ItemLog::quiet();
    let elements = intake.chunk(source, &mut log, steps)?;
    Ok(elements)
}

// Whether a chunk has these numbers.
fn has(elements: Option<Vals>, numbers: &[i128]) -> bool {
    let Some(elements) = elements else {
        return false;
    };
    if elements.len() != numbers.len() {
        return false;
    }
    for (at, number) in numbers.iter().enumerate() {
        match elements.get(at) {
            Some(Val::Num(found)) => {
                if *found != *number {
                    return false;
                }
            }
            _ => return false,
        }
    }
    true
}

// Whether so many pipes are left of a stream, and so many octets of its source.
fn leaves(intake: &Intake<'_>, source: &MemSource, pipes: u32, octets: usize) -> bool {
    intake.pipes_left() == pipes && source.left().len() == octets
}

// Whether the next chunk has these numbers, and so many octets are left after it.
fn chunk_has(
    intake: &mut Intake<'_>,
    source: &mut MemSource,
    steps: &mut Steps<Counted>,
    numbers: &[i128],
    octets: usize,
) -> Result<bool, DecodeFault>
    requires reading { (intake_seen intake.old).phase ≡ Reading }
    requires ready { IsReady intake.old }
    ensures reading { OnOk result ((intake_seen intake.new).phase ≡ Reading) }
    ensures ready { OnOk result (IsReady intake.new) }
{
    let elements = chunk(intake, source, steps)?;
    let found = has(elements, numbers);
    let left = leaves(intake, source, 1, octets);
    Ok(found && left)
}

// Whether the pipe ends, and what is kept is a pipe, of 24 octets.
fn pipe_ends(
    intake: Intake<'_>,
    source: &mut MemSource,
    steps: &mut Steps<Counted>,
) -> Result<bool, DecodeFault>
    requires reading { (intake_seen intake).phase ≡ Reading }
    requires ready { IsReady intake }
{
    let mut intake = intake;
    let elements = chunk(&mut intake, source, steps)?;
    if elements.is_some() || intake.failed() || intake.pipes_left() != 0 {
        return Ok(false);
    }
    let decoded = intake.finish();
    Ok(decoded.taken == 24 && decoded.fit.flat().root_count() == 1)
}

// Whether a stream of chunks of 2 and 1 elements is read in parts, each of which fetches what it needs and no octet more.
fn row_is_read(
    alloc: Global,
    plan: &Plan,
    source: &mut MemSource,
    steps: &mut Steps<Counted>,
) -> Result<bool, DecodeFault>
    requires known { 0 < length plan.now.tie.operations }
{
    let mut intake = begun(alloc, plan, source, steps)?;
    let whole = leaves(&intake, source, 1, 25);
    let first = chunk_has(&mut intake, source, steps, &[1, 2], 13)?;
    let second = chunk_has(&mut intake, source, steps, &[3], 5)?;
    let end = pipe_ends(intake, source, steps)?;
    Ok(whole && first && second && end)
}

// Whether a stream that ends within the second chunk is refused there, after the first was answered, and no pipe is left.
fn cut_is_refused(
    alloc: Global,
    plan: &Plan,
    source: &mut MemSource,
    steps: &mut Steps<Counted>,
) -> Result<bool, DecodeFault>
    requires known { 0 < length plan.now.tie.operations }
{
    let mut intake = begun(alloc, plan, source, steps)?;
    let first = chunk_has(&mut intake, source, steps, &[1, 2], 4)?;
    match chunk(&mut intake, source, steps) {
        Ok(_) => Ok(false),
        Err(fault) => {
            let wanted = DecodeFault::Bad {
                place: 16,
                reason: Reason::Truncated,
            };
            Ok(first && fault == wanted && intake.failed() && intake.pipes_left() == 0)
        }
    }
}

// The octet after the stream is left. Each count and each element is a step.
#[test]
fn streams_are_read_in_parts(rt: HostRuntime) -> Result<(), Fail> {
    let plan = plan(rt.alloc())?;
    let mut source = MemSource::new(rt.alloc(), ROW, 1, &[])?;
    let mut steps = Steps::new(Counted::new());
    assert!(rt; row_is_read(rt.alloc(), &plan, &mut source, &mut steps)?);
    assert!(rt; source.left() == b"\xff".as_slice());
    assert_eq!(rt; steps.ledger().count(), 6);
    Ok(())
}

#[test]
fn streams_are_refused_in_parts(rt: HostRuntime) -> Result<(), Fail> {
    let plan = plan(rt.alloc())?;
    let mut source = MemSource::new(rt.alloc(), CUT, 1, &[])?;
    let mut steps = Steps::new(Counted::new());
    assert!(rt; cut_is_refused(rt.alloc(), &plan, &mut source, &mut steps)?);
    Ok(())
}
