// A response beside its request, through the public call.
ghost use Rattle.std.specs.Prelude.{◌≡◌, ◌<◌, length, IfOk, option_map};
ghost use Rattle.nd_types.specs.declared.types.Side.TheVariants as sides;
ghost use Rattle.nd_value.specs.Request.{IsRequestOf};

use crate::interface::interface;
use nd_base::{MemSource, Memory, Order, Steps, Uncounted};
use nd_flat::Fit;
use nd_grammar::Reason;
use nd_types::Side;
use nd_value::ItemLog;
use ndr_code::Plan;
use ndr_decode::{DecodeFault, Decoded, decode};
use ndr_plan::make;
use std::alloc::Global;
use std::test::Fail;

const IDL: &[u8] = b"[uuid(11111111-2222-3333-4444-555555555555)] interface t {
  void r([in] unsigned long n, [out, size_is(n)] byte a[*]);
}";

// Two octets, whose count is stated by the request.
const RESPONSE: &[u8] = b"\x02\0\0\0\xab\xcd";

// The plan of the interface.
fn plan(alloc: Global) -> Result<Plan, Memory>
    ensures known { IfOk result (λ p. 0 < length p.tie.operations) }
{
    let interface = interface(alloc, IDL)?;
    let plan = make(alloc, &interface)?;
    if interface.operations.len() == 0 {
        return Err(Memory);
    }
    Ok(plan)
}

// The values of a side, beside a request if one is given.
fn decoded(
    alloc: Global,
    plan: &Plan,
    side: Side,
    given: Option<&Fit>,
    octets: &[u8],
) -> Result<Decoded, DecodeFault>
    requires known { 0 < length plan.now.tie.operations }
    requires request { IsRequestOf plan.now.tie 0 side (option_map (λ f. f.now) given) }
    ensures of_op { IfOk result (λ d. d.fit.op ≡ 0) }
    ensures of_side { IfOk result (λ d. d.fit.side ≡ side) }
    ensures tied { IfOk result (λ d. d.fit.interface ≡ plan.now.tie) }
{
    let mut source = MemSource::new(alloc, octets, 3, &[])?;
    let mut log = ItemLog::quiet();
    let mut steps = Steps::new(Uncounted::new());
    let order = Order::Little;
    let decoded = decode(
        alloc,
        plan,
        0,
        side,
        order,
        given,
        &mut source,
        &mut log,
        &mut steps,
    )?;
    Ok(decoded)
}

// How many octets a response takes beside a request.
fn answered(alloc: Global, plan: &Plan, request: &Fit, octets: &[u8]) -> Result<u32, DecodeFault>
    requires known { 0 < length plan.now.tie.operations }
    requires of_op { request.now.op ≡ 0 }
    requires of_side { request.now.side ≡ sides.In }
    requires tied { request.now.interface ≡ plan.now.tie }
{
    let response = decoded(alloc, plan, Side::Out, Some(request), octets)?;
    Ok(response.taken)
}

// How many octets the response takes beside a request of these octets.
fn response_to(alloc: Global, octets: &[u8]) -> Result<u32, DecodeFault> {
    let plan = plan(alloc)?;
    let request = decoded(alloc, &plan, Side::In, None, octets)?;
    answered(alloc, &plan, &request.fit, RESPONSE)
}

// How many octets it takes without one.
fn response_alone(alloc: Global) -> Result<u32, DecodeFault> {
    let plan = plan(alloc)?;
    let response = decoded(alloc, &plan, Side::Out, None, RESPONSE)?;
    Ok(response.taken)
}

#[test]
fn counts_of_a_request_hold(rt: HostRuntime) {
    let refused = DecodeFault::Bad {
        place: 0,
        reason: Reason::Disagrees {
            wanted: 3,
            found: 2,
        },
    };
    assert_eq!(rt; response_to(rt.alloc(), b"\x02\0\0\0"), Ok(6));
    assert_eq!(rt; response_to(rt.alloc(), b"\x03\0\0\0"), Err(refused));
    assert_eq!(rt; response_alone(rt.alloc()), Ok(6));
}

#[test]
fn fits_tell_what_they_are_of(rt: HostRuntime) -> Result<(), Fail> {
    let plan = plan(rt.alloc())?;
    let response = decoded(rt.alloc(), &plan, Side::Out, None, RESPONSE)?;
    assert!(rt; response.fit.op() == 0 && response.fit.side() == Side::Out);
    Ok(())
}
