// A response with a pipe beside its request, which states how long its array is: drained, and its head alone.
ghost use Rattle.std.specs.Prelude.{◌≡◌, ◌<◌, length, IfOk};
ghost use Rattle.nd_types.specs.declared.types.Side.TheVariants as sides;
ghost use Rattle.ndr_pipe.specs.Ends.{AreOpen, ends_seen};

use crate::drain::{add, has_taken, mem_end};
use crate::interface::response_interface;
use nd_base::{MemSource, Memory, Order, Steps, Uncounted};
use nd_grammar::Reason;
use nd_types::{Interface, Side};
use nd_value::ItemLog;
use ndr_code::Plan;
use ndr_drain::{DrainFault, Drained, drain};
use ndr_drain_reader::{DecodeFault, Intake};
use ndr_pipe::PipeEnds;
use ndr_plan::make;
use std::alloc::Global;
use std::test::Fail;

// An array of two octets, and the element 7.
const RESPONSE: &[u8] = b"\x02\0\0\0\xab\xcd\0\0\x01\0\0\0\x07\0\0\0\0\0\0\0";

// Requests of arrays of two octets and of three.
const TWO: &[u8] = b"\x02\0\0\0";

const THREE: &[u8] = b"\x03\0\0\0";

// A request of an operation, which has no pipe.
fn asked(
    alloc: Global,
    interface: &Interface,
    plan: &Plan,
    octets: &[u8],
) -> Result<Drained, DrainFault>
    requires tied { plan.now.tie ≡ interface.now }
    requires known { 0 < length interface.now.operations }
    ensures of_op { IfOk result (λ d. d.fit.op ≡ 0) }
    ensures of_side { IfOk result (λ d. d.fit.side ≡ sides.In) }
    ensures tied { IfOk result (λ d. d.fit.interface ≡ interface.now) }
{
    let Ok(mut source) = MemSource::new(alloc, octets, 5, &[]) else {
        return Err(DrainFault::Memory);
    };
    let mut ends = PipeEnds::new(alloc);
    let mut log = ItemLog::quiet();
    let mut steps = Steps::new(Uncounted::new());
    let drained = drain(
        alloc,
        interface,
        plan,
        0,
        Side::In,
        Order::Little,
        None,
        &mut source,
        &mut ends,
        &mut log,
        &mut steps,
    )?;
    Ok(drained)
}

// How many octets the response takes beside a request.
fn answered(
    alloc: Global,
    interface: &Interface,
    plan: &Plan,
    request: &Drained,
    ends: &mut PipeEnds,
) -> Result<u32, DrainFault>
    requires tied { plan.now.tie ≡ interface.now }
    requires known { 0 < length interface.now.operations }
    requires of_op { request.now.fit.op ≡ 0 }
    requires of_side { request.now.fit.side ≡ sides.In }
    requires of { request.now.fit.interface ≡ interface.now }
    requires open { AreOpen (ends_seen seen ends.old) }
{
    let Ok(mut source) = MemSource::new(alloc, RESPONSE, 5, &[]) else {
        return Err(DrainFault::Memory);
    };
    let mut log = ItemLog::quiet();
    let mut steps = Steps::new(Uncounted::new());
    let drained = drain(
        alloc,
        interface,
        plan,
        0,
        Side::Out,
        Order::Little,
        Some(&request.fit),
        &mut source,
        ends,
        &mut log,
        &mut steps,
    )?;
    Ok(drained.taken)
}

// How many pipes are left of the response after its head, beside a request.
fn head_answered(alloc: Global, plan: &Plan, request: &Drained) -> Result<u32, DecodeFault>
    requires known { 0 < length plan.now.tie.operations }
    requires of_op { request.now.fit.op ≡ 0 }
    requires of_side { request.now.fit.side ≡ sides.In }
    requires of { request.now.fit.interface ≡ plan.now.tie }
{
    let mut source = MemSource::new(alloc, RESPONSE, 5, &[])?;
    let mut intake = Intake::begin(alloc, plan, 0, Side::Out, Order::Little)?;
    let mut log = ItemLog::quiet();
    let mut steps = Steps::new(Uncounted::new());
    intake.head(Some(&request.fit), &mut source, &mut log, &mut steps)?;
    Ok(intake.pipes_left())
}

// What the response comes to beside a request of these octets.
fn response_to(alloc: Global, octets: &[u8], ends: &mut PipeEnds) -> Result<u32, DrainFault>
    requires { AreOpen (ends_seen seen ends.old) }
{
    let Ok(interface) = response_interface(alloc) else {
        return Err(DrainFault::Memory);
    };
    if interface.operations.len() == 0 {
        return Err(DrainFault::Memory);
    }
    let Ok(plan) = make(alloc, &interface) else {
        return Err(DrainFault::Memory);
    };
    let request = asked(alloc, &interface, &plan, octets)?;
    answered(alloc, &interface, &plan, &request, ends)
}

// How many pipes are left after its head.
fn head_beside(alloc: Global, octets: &[u8]) -> Result<u32, DecodeFault> {
    let interface = response_interface(alloc)?;
    if interface.operations.len() == 0 {
        return Err(DecodeFault::Memory);
    }
    let plan = make(alloc, &interface)?;
    let Ok(request) = asked(alloc, &interface, &plan, octets) else {
        return Err(DecodeFault::Memory);
    };
    head_answered(alloc, &plan, &request)
}

// The agreement that fails where the request states another count.
const DISAGREES: Reason = Reason::Disagrees {
    wanted: 3,
    found: 2,
};

// Whether the response is drained beside a request, and what its end has then.
fn is_drained(
    alloc: Global,
    octets: &[u8],
    wanted: Result<u32, DrainFault>,
    taken: &[u8],
) -> Result<bool, Memory> {
    let mut ends = PipeEnds::new(alloc);
    add(&mut ends, mem_end(alloc)?)?;
    let found = response_to(alloc, octets, &mut ends);
    Ok(found == wanted && has_taken(&ends, taken, wanted.is_ok()))
}

#[test]
fn responses_are_drained_beside_their_requests(rt: HostRuntime) -> Result<(), Fail> {
    assert!(rt; is_drained(rt.alloc(), TWO, Ok(20), b"7\n")?);
    let refused = DrainFault::Bad {
        place: 0,
        reason: DISAGREES,
    };
    assert!(rt; is_drained(rt.alloc(), THREE, Err(refused), b"")?);
    Ok(())
}

#[test]
fn heads_are_read_beside_their_requests(rt: HostRuntime) {
    assert_eq!(rt; head_beside(rt.alloc(), TWO), Ok(1));
    let refused = DecodeFault::Bad {
        place: 0,
        reason: DISAGREES,
    };
    assert_eq!(rt; head_beside(rt.alloc(), THREE), Err(refused));
}
