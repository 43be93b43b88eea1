// Values of octets in memory.
ghost use Rattle.std.specs.Prelude.{◌≡◌, ◌<◌, length, Some, None, option_map, IfOk, IfErr};
ghost use Rattle.std.specs.List.{slice_get};
ghost use Rattle.nd_types.specs.declared.interface.Interface.{Interface};
ghost use Rattle.nd_types.specs.declared.types.Operation.{Operation};
ghost use Rattle.nd_types.specs.declared.types.Side.TheVariants.{In, Out};
ghost use Rattle.nd_value.specs.Fitting.{setting_beside};
ghost use Rattle.nd_value.specs.Request.{IsRequestOf};
ghost use Rattle.command_refusals.specs.declared.refusal.Refusal.TheVariants as refusal;
ghost use Rattle.library_values.specs.Decoded.{IsDecodedOf, IsOctetsCause, IsOf};
ghost use Rattle.library_values.specs.Logged.{IsLoggedOf, empty_log};

use crate::values::{Values, plan_of};
use command_refusals::{OctetsFault, Refusal};
use library_interface::Compiled;
use nd_base::{LentSource, Order, Steps, Uncounted};
use nd_graph::{Fit, ItemLog};
use nd_types::Side;
use ndr_code::Plan;
use ndr_decode::{DecodeFault, Decoded, decode};
use std::alloc::Global;
use std::rc::Rc;

impl Values {
    /// The values of a side of an operation that octets begin with, in NDR (C706, chapter 14), and how many octets they take. `op` must be the number
    /// of an operation. A response is judged without a request.
    ///
    /// # Errors
    /// BadOctets, at the first faulty place, for the one reason that applies there. Memory where memory was refused.
    ///
    /// Takes memory for the values. The time is in proportion to the octets that they take.
    pub fn decode(
        alloc: Global,
        compiled: &Rc<Compiled>,
        op: u32,
        side: Side,
        order: Order,
        octets: &[u8],
    ) -> Result<(Values, u32), Refusal>
        requires known { op < length compiled.now.value.operations }
        ensures decoded { (o : Operation) → slice_get compiled.now.value.operations op ≡ Some o
            → IfOk result (λ d. IsDecodedOf (setting_beside compiled.now.value o side None) order octets.now d.1 d.0.graph) }
        ensures of { IfOk result (λ d. IsOf compiled.now.value op side None d.0) }
        ensures refused { (o : Operation) → slice_get compiled.now.value.operations op ≡ Some o
            → IfErr result (IsOctetsCause (setting_beside compiled.now.value o side None) order octets.now) }
    {
        let mut items = ItemLog::quiet();
        decode_beside(alloc, compiled, op, side, None, order, octets, &mut items)
    }

    /// The values of the response to a request that octets begin with, in NDR (C706, chapter 14), judged with the request, and how many octets they
    /// take. The request must be one, the values of an input side.
    ///
    /// # Errors
    /// BadOctets, at the first faulty place, for the one reason that applies there. Memory where memory was refused.
    ///
    /// Takes memory for the values. The time is in proportion to the octets that they take.
    pub fn decode_response(
        alloc: Global,
        request: &Values,
        order: Order,
        octets: &[u8],
    ) -> Result<(Values, u32), Refusal>
        requires request { request.now.side ≡ In }
        ensures decoded { (o : Operation) → slice_get request.now.interface.operations request.now.op ≡ Some o
            → IfOk result (λ d. IsDecodedOf (setting_beside request.now.interface o Out (Some request.now.graph)) order octets.now d.1 d.0.graph) }
        ensures of { IfOk result (λ d. IsOf request.now.interface request.now.op Out (Some request.now.graph) d.0) }
        ensures refused { (o : Operation) → slice_get request.now.interface.operations request.now.op ≡ Some o
            → IfErr result (IsOctetsCause (setting_beside request.now.interface o Out (Some request.now.graph)) order octets.now) }
    {
        decode_given(alloc, &request.compiled, &request.fit, order, octets)
    }
}

// The values of the response to a request.
fn decode_given(
    alloc: Global,
    compiled: &Rc<Compiled>,
    request: &Fit,
    order: Order,
    octets: &[u8],
) -> Result<(Values, u32), Refusal>
    requires tied { compiled.now.value ≡ request.now.interface }
    requires request { request.now.side ≡ In }
    ensures decoded { (o : Operation) → slice_get request.now.interface.operations request.now.op ≡ Some o
        → IfOk result (λ d. IsDecodedOf (setting_beside request.now.interface o Out (Some request.now.graph)) order octets.now d.1 d.0.graph) }
    ensures of { IfOk result (λ d. IsOf request.now.interface request.now.op Out (Some request.now.graph) d.0) }
    ensures refused { (o : Operation) → slice_get request.now.interface.operations request.now.op ≡ Some o
        → IfErr result (IsOctetsCause (setting_beside request.now.interface o Out (Some request.now.graph)) order octets.now) }
{
    // A fit is of an operation of its interface.
    let _conforming = request.flat();
    let op = request.op();
    let mut items = ItemLog::quiet();
    decode_beside(
        alloc,
        compiled,
        op,
        Side::Out,
        Some(request),
        order,
        octets,
        &mut items,
    )
}

// The values that octets begin with, with a request or without one.
#[inline(always)]
pub(crate) fn decode_beside(
    alloc: Global,
    compiled: &Rc<Compiled>,
    op: u32,
    side: Side,
    given: Option<&Fit>,
    order: Order,
    octets: &[u8],
    items: &mut ItemLog,
) -> Result<(Values, u32), Refusal>
    requires known { op < length compiled.now.value.operations }
    requires request { IsRequestOf compiled.now.value op side (option_map (λ f. f.now) given) }
    ensures decoded { (o : Operation) → slice_get compiled.now.value.operations op ≡ Some o
        → IfOk result (λ d. IsDecodedOf (setting_beside compiled.now.value o side (option_map (λ f. f.now.graph) given.entry)) order octets.now
        d.1 d.0.graph) }
    ensures of { IfOk result (λ d. IsOf compiled.now.value op side (option_map (λ f. f.now.graph) given.entry) d.0) }
    ensures logged { (o : Operation) → slice_get compiled.now.value.operations op ≡ Some o → items.old ≡ empty_log
        → IfOk result
        (λ _. IsLoggedOf (setting_beside compiled.now.value o side (option_map (λ f. f.now.graph) given.entry)) order octets.now items.new.items) }
    ensures refused { (o : Operation) → slice_get compiled.now.value.operations op ≡ Some o
        → IfErr result
        (IsOctetsCause (setting_beside compiled.now.value o side (option_map (λ f. f.now.graph) given.entry)) order octets.now) }
{
    let plan = plan_of(compiled);
    match decode_lent(alloc, plan, op, side, given, order, octets, items) {
        Ok(decoded) => held(compiled, decoded),
        Err(refusal) => Err(refusal),
    }
}

// What was decoded, with its interface.
#[inline(always)]
fn held(compiled: &Rc<Compiled>, decoded: Decoded) -> Result<(Values, u32), Refusal>
    requires { decoded.fit.interface ≡ compiled.now.value }
    ensures ok { IfOk result (λ d. (d.0 ≡ decoded.fit) × (d.1 ≡ decoded.taken)) }
    ensures err { IfErr result (λ e. e ≡ refusal.Memory) }
{
    match Values::of(compiled, decoded.fit) {
        Ok(values) => Ok((values, decoded.taken)),
        Err(refusal) => Err(refusal),
    }
}

// What octets begin with, by the plan of an interface. Their items go to a log.
#[inline(always)]
pub(crate) fn decode_lent(
    alloc: Global,
    plan: &Plan,
    op: u32,
    side: Side,
    given: Option<&Fit>,
    order: Order,
    octets: &[u8],
    items: &mut ItemLog,
) -> Result<Decoded, Refusal>
    requires known { op < length plan.now.tie.operations }
    requires request { IsRequestOf plan.now.tie op side (option_map (λ f. f.now) given) }
    ensures decoded { (i : Interface) (o : Operation) → plan.now.tie ≡ i → slice_get i.operations op ≡ Some o
        → IfOk result
        (λ d. IsDecodedOf (setting_beside i o side (option_map (λ f. f.now.graph) given.entry)) order octets.now d.taken d.fit.graph) }
    ensures of { IfOk result (λ d. IsOf plan.now.tie op side (option_map (λ f. f.now.graph) given.entry) d.fit) }
    ensures logged { (i : Interface) (o : Operation) → plan.now.tie ≡ i → slice_get i.operations op ≡ Some o → items.old ≡ empty_log
        → IfOk result (λ _. IsLoggedOf (setting_beside i o side (option_map (λ f. f.now.graph) given.entry)) order octets.now items.new.items) }
    ensures refused { (i : Interface) (o : Operation) → plan.now.tie ≡ i → slice_get i.operations op ≡ Some o
        → IfErr result (IsOctetsCause (setting_beside i o side (option_map (λ f. f.now.graph) given.entry)) order octets.now) }
{
    let mut source = LentSource::new(octets);
    let mut steps = Steps::new(Uncounted::new());
    match decode(
        alloc,
        plan,
        op,
        side,
        order,
        given,
        &mut source,
        items,
        &mut steps,
    ) {
        Ok(decoded) => Ok(decoded),
        Err(DecodeFault::Memory) => Err(Refusal::Memory),
        Err(DecodeFault::ReadFault) => unreachable!(),
        Err(DecodeFault::Bad { place, reason }) => Err(Refusal::BadOctets {
            place,
            why: OctetsFault::Refused(reason),
        }),
    }
}
