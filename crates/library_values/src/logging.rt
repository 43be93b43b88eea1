// Octets are decoded, and their items kept.
ghost use Rattle.std.specs.Prelude.{◌≡◌, ◌<◌, length, Some, None, option_map, IfOk, IfErr};
ghost use Rattle.std.specs.List.{slice_get};
ghost use Rattle.nd_types.specs.declared.interface.Interface.{Interface};
ghost use Rattle.nd_types.specs.declared.types.Operation.{Operation};
ghost use Rattle.nd_types.specs.declared.types.Side.TheVariants.{In, Out};
ghost use Rattle.nd_value.specs.Fitting.{setting_beside};
ghost use Rattle.nd_value.specs.Request.{IsRequestOf};
ghost use Rattle.library_values.specs.Decoded.{IsOctetsCause};
ghost use Rattle.library_values.specs.Logged.{IsLoggedOf};

use crate::Values;
use crate::decoding::decode_lent;
use command_refusals::Refusal;
use library_interface::Compiled;
use nd_base::Order;
use nd_graph::{Fit, ItemLog};
use nd_types::Side;
use ndr_code::Plan;
use std::alloc::Global;

/// The items of the values of a side of an operation that octets begin with, in NDR (C706, chapter 14). `op` must be the number of an operation. A
/// response is judged without a request.
///
/// # Errors
/// BadOctets, at the first faulty place, for the one reason that applies there. Memory where memory was refused.
///
/// Takes memory for the values, which it gives back, and for the items. The time is in proportion to the octets that the values take.
pub fn items_of(
    alloc: Global,
    compiled: &Compiled,
    op: u32,
    side: Side,
    order: Order,
    octets: &[u8],
) -> Result<ItemLog, Refusal>
    requires known { op < length compiled.now.operations }
    ensures logged { (o : Operation) → slice_get compiled.now.operations op ≡ Some o
        → IfOk result (λ l. IsLoggedOf (setting_beside compiled.now o side None) order octets.now l.items) }
    ensures refused { (o : Operation) → slice_get compiled.now.operations op ≡ Some o
        → IfErr result (IsOctetsCause (setting_beside compiled.now o side None) order octets.now) }
{
    log_beside(alloc, compiled, op, side, None, order, octets)
}

/// The items of the response to a request that octets begin with, in NDR (C706, chapter 14), judged with the request. The request must be one, the
/// values of an input side.
///
/// # Errors
/// BadOctets, at the first faulty place, for the one reason that applies there. Memory where memory was refused.
///
/// Takes memory for the values, which it gives back, and for the items. The time is in proportion to the octets that the values take.
pub fn items_of_response(
    alloc: Global,
    request: &Values,
    order: Order,
    octets: &[u8],
) -> Result<ItemLog, Refusal>
    requires request { request.now.side ≡ In }
    ensures logged { (o : Operation) → slice_get request.now.interface.operations request.now.op ≡ Some o
        → IfOk result (λ l. IsLoggedOf (setting_beside request.now.interface o Out (Some request.now.graph)) order octets.now l.items) }
    ensures refused { (o : Operation) → slice_get request.now.interface.operations request.now.op ≡ Some o
        → IfErr result (IsOctetsCause (setting_beside request.now.interface o Out (Some request.now.graph)) order octets.now) }
{
    log_given(alloc, request.compiled(), request.fit(), order, octets)
}

// The items of the response to a request.
fn log_given(
    alloc: Global,
    compiled: &Compiled,
    request: &Fit,
    order: Order,
    octets: &[u8],
) -> Result<ItemLog, Refusal>
    requires tied { compiled.now ≡ request.now.interface }
    requires request { request.now.side ≡ In }
    ensures logged { (o : Operation) → slice_get request.now.interface.operations request.now.op ≡ Some o
        → IfOk result (λ l. IsLoggedOf (setting_beside request.now.interface o Out (Some request.now.graph)) order octets.now l.items) }
    ensures refused { (o : Operation) → slice_get request.now.interface.operations request.now.op ≡ Some o
        → IfErr result (IsOctetsCause (setting_beside request.now.interface o Out (Some request.now.graph)) order octets.now) }
{
    // A fit is of an operation of its interface.
    let _conforming = request.flat();
    let op = request.op();
    log_beside(alloc, compiled, op, Side::Out, Some(request), order, octets)
}

// The items of octets, with a request or without one.
fn log_beside(
    alloc: Global,
    compiled: &Compiled,
    op: u32,
    side: Side,
    given: Option<&Fit>,
    order: Order,
    octets: &[u8],
) -> Result<ItemLog, Refusal>
    requires known { op < length compiled.now.operations }
    requires request { IsRequestOf compiled.now op side (option_map (λ f. f.now) given) }
    ensures logged { (o : Operation) → slice_get compiled.now.operations op ≡ Some o
        → IfOk result (λ l. IsLoggedOf (setting_beside compiled.now o side (option_map (λ f. f.now.graph) given.entry)) order octets.now l.items) }
    ensures refused { (o : Operation) → slice_get compiled.now.operations op ≡ Some o
        → IfErr result (IsOctetsCause (setting_beside compiled.now o side (option_map (λ f. f.now.graph) given.entry)) order octets.now) }
{
    log_lent(alloc, compiled.plan(), op, side, given, order, octets)
}

// The items of octets, by the plan of an interface.
fn log_lent(
    alloc: Global,
    plan: &Plan,
    op: u32,
    side: Side,
    given: Option<&Fit>,
    order: Order,
    octets: &[u8],
) -> Result<ItemLog, Refusal>
    requires known { op < length plan.now.tie.operations }
    requires request { IsRequestOf plan.now.tie op side (option_map (λ f. f.now) given) }
    ensures logged { (i : Interface) (o : Operation) → plan.now.tie ≡ i → slice_get i.operations op ≡ Some o
        → IfOk result (λ l. IsLoggedOf (setting_beside i o side (option_map (λ f. f.now.graph) given.entry)) order octets.now l.items) }
    ensures refused { (i : Interface) (o : Operation) → plan.now.tie ≡ i → slice_get i.operations op ≡ Some o
        → IfErr result (IsOctetsCause (setting_beside i o side (option_map (λ f. f.now.graph) given.entry)) order octets.now) }
{
    let mut items = ItemLog::keeping(alloc);
    match decode_lent(alloc, plan, op, side, given, order, octets, &mut items) {
        Ok(_) => Ok(items),
        Err(refusal) => Err(refusal),
    }
}
