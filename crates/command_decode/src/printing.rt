// The octets of a source are decoded, and the text of their values is printed.
ghost use Rattle.std.specs.Prelude.{◌≡◌, ◌≤◌, ◌<◌, length, Some, option_map, IfOk, IfErr};
ghost use Rattle.std.specs.List.{slice_get};
ghost use Rattle.nd_base.specs.Over.{source_over};
ghost use Rattle.nd_types.specs.declared.types.Operation.{Operation};
ghost use Rattle.nd_value.specs.Fitting.{setting_beside};
ghost use Rattle.nd_value.specs.Request.{IsRequestOf};
ghost use Rattle.command_decode.specs.Decoded.{IsPrinted, IsInputCause};
ghost use Rattle.command_decode.specs.Taken.{IsTaken, IsEnd, IsNoEnd};

use command_refusals::{OctetsFault, Refusal};
use nd_base::{Octets, Order, Source, Steps, Uncounted};
use nd_graph::{Fit, ItemLog};
use nd_types::{Interface, Side};
use ndr_code::Plan;
use ndr_decode::{DecodeFault, Decoded};
use ndr_plan::make;
use std::alloc::Global;
use value_text::print;

/// The text of the values of a side of an operation, of the octets that a source has left, in NDR (C706, chapter 14). `op` must be the number of an
/// operation of the interface. A request that is given must be one of that operation, and then the side is that of its outputs: they are judged
/// beside it.
///
/// The source is asked for no octet past the values but one, which tells whether they end it.
///
/// # Errors
/// BadOctets, the first place at which the octets are refused: that of an octet which follows the values, if one does. ReadFault, where the source
/// failed. Memory where memory was refused.
///
/// Takes memory for the plan of the interface, the values and the text. The time is in proportion to these and the octets.
pub fn print_octets<S: Source>(
    alloc: Global,
    interface: &Interface,
    op: u32,
    side: Side,
    given: Option<&Fit>,
    order: Order,
    input: &mut S,
) -> Result<Octets, Refusal>
    requires known { op < length interface.now.operations }
    requires request { IsRequestOf interface.now op side (option_map (λ f. f.now) given) }
    ensures printed { (o : Operation) → slice_get interface.now.operations op ≡ Some o
        → IfOk result
        (IsPrinted (source_over S.seen input.old input.new)
        (setting_beside interface.now o side (option_map (λ f. f.now.graph) given.entry)) order) }
    ensures refused { (o : Operation) → slice_get interface.now.operations op ≡ Some o
        → IfErr result
        (IsInputCause (source_over S.seen input.old input.new)
        (setting_beside interface.now o side (option_map (λ f. f.now.graph) given.entry)) order) }
{
    let plan = make(alloc, interface)?;
    let decoded = decode(alloc, &plan, op, side, given, order, input)?;
    end(input, decoded.taken)?;
    let text = print(alloc, interface, &decoded.fit)?;
    Ok(text)
}

// The values of the octets that a source has left.
fn decode<S: Source>(
    alloc: Global,
    plan: &Plan,
    op: u32,
    side: Side,
    given: Option<&Fit>,
    order: Order,
    input: &mut S,
) -> Result<Decoded, Refusal>
    requires known { op < length plan.now.tie.operations }
    requires request { IsRequestOf plan.now.tie op side (option_map (λ f. f.now) given) }
    ensures taken { (o : Operation) → slice_get plan.now.tie.operations op ≡ Some o
        → IfOk result
        (λ d. IsTaken (source_over S.seen input.old input.new)
        (setting_beside plan.now.tie o side (option_map (λ f. f.now.graph) given.entry)) order d.taken d.fit.graph) }
    ensures interface { IfOk result (λ d. d.fit.interface ≡ plan.now.tie) }
    ensures number { IfOk result (λ d. d.fit.op ≡ op) }
    ensures side { IfOk result (λ d. d.fit.side ≡ side) }
    ensures beside { IfOk result (λ d. d.fit.given ≡ option_map (λ f. f.now.graph) given.entry) }
    ensures refused { (o : Operation) → slice_get plan.now.tie.operations op ≡ Some o
        → IfErr result
        (IsInputCause (source_over S.seen input.old input.new)
        (setting_beside plan.now.tie o side (option_map (λ f. f.now.graph) given.entry)) order) }
    ensures later { (S.seen input.old).faults ≤ (S.seen input.new).faults }
{
    let mut items = ItemLog::quiet();
    let mut steps = Steps::new(Uncounted::new());
    match ndr_decode::decode(
        alloc, plan, op, side, order, given, input, &mut items, &mut steps,
    ) {
        Ok(decoded) => Ok(decoded),
        Err(DecodeFault::Memory) => Err(Refusal::Memory),
        Err(DecodeFault::ReadFault) => Err(Refusal::ReadFault),
        Err(DecodeFault::Bad { place, reason }) => Err(Refusal::BadOctets {
            place,
            why: OctetsFault::Refused(reason),
        }),
    }
}

/// The end of a source, after so many octets. It takes no memory.
///
/// # Errors
/// BadOctets at the place after them, where an octet follows: then it was taken. ReadFault, where the source failed.
pub fn end<S: Source>(input: &mut S, taken: u32) -> Result<(), Refusal>
    ensures ended { IfOk result (λ _. IsEnd (source_over S.seen input.old input.new)) }
    ensures refused { IfErr result (IsNoEnd (source_over S.seen input.old input.new) taken) }
{
    let mut next = [0u8];
    match input.fetch(&mut next) {
        Ok(0) => Ok(()),
        Ok(_) => Err(Refusal::BadOctets {
            place: taken,
            why: OctetsFault::Trailing,
        }),
        Err(_) => Err(Refusal::ReadFault),
    }
}
