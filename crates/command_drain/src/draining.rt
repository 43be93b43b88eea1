// The octets of a source are drained, and the text of what is kept is printed.
ghost use Rattle.std.specs.Prelude.{◌≡◌, ◌≤◌, ◌<◌, length, Some, option_map, IfOk, IfErr};
ghost use Rattle.std.specs.List.{slice_get};
ghost use Rattle.nd_base.specs.Over.{source_over};
ghost use Rattle.nd_types.specs.declared.types.Operation.{Operation};
ghost use Rattle.nd_value.specs.Fitting.{setting_beside};
ghost use Rattle.nd_value.specs.Request.{IsRequestOf};
ghost use Rattle.ndr_pipe.specs.Ends.{AreOpen, ends_over, ends_seen};
ghost use Rattle.command_drain.specs.Printed.{IsPrinted, IsDrainRefusal};
ghost use Rattle.command_drain.specs.Taken.{IsTaken, IsNotTaken};

use command_decode::end;
use command_refusals::{OctetsFault, Refusal};
use nd_base::{Octets, Order, Source, Steps, Uncounted};
use nd_graph::{Fit, ItemLog};
use nd_types::{Interface, Side};
use ndr_code::Plan;
use ndr_drain::{DrainFault, Drained, drain_over};
use ndr_pipe::{Ends, PipeEnd};
use ndr_plan::make;
use std::alloc::Global;
use value_text::print;

/// Gives the pipes of a side of an operation to ends, of the octets that a source has left, in NDR (C706, chapter 14), and prints the text of the
/// values with every pipe empty. `op` must be the number of an operation of the interface, and no end be finished. A request that is given must be
/// one of that operation, and then the side is that of its outputs: they are judged beside it.
///
/// The source is asked for no octet past the values but one, which tells whether they end it; by then all ends were served.
///
/// # Errors
/// TooFewEnds where the side has more pipes than there are ends. BadOctets, the first place at which the octets are refused: that of an octet which
/// follows the values, if one does. ReadFault, where the source failed. EndFailed, where an end failed. Memory where memory was refused. What the
/// ends have then is as `drain` says.
///
/// Takes memory for the plan of the interface, what is kept, a chunk at a time, and the text. The time is in proportion to these and the octets.
pub fn drain_octets<S: Source, E: PipeEnd>(
    alloc: Global,
    interface: &Interface,
    op: u32,
    side: Side,
    given: Option<&Fit>,
    order: Order,
    input: &mut S,
    ends: &mut Ends<E>,
) -> Result<Octets, Refusal>
    requires known { op < length interface.now.operations }
    requires request { IsRequestOf interface.now op side (option_map (λ f. f.now) given) }
    requires open { AreOpen (ends_seen E.seen ends.old) }
    ensures printed { (o : Operation) → slice_get interface.now.operations op ≡ Some o
        → IfOk result (IsPrinted (source_over S.seen input.old input.new) (ends_over E.seen ends.old ends.new)
        (setting_beside interface.now o side (option_map (λ f. f.now.graph) given.entry)) order) }
    ensures refused { (o : Operation) → slice_get interface.now.operations op ≡ Some o
        → IfErr result (IsDrainRefusal (source_over S.seen input.old input.new) (ends_over E.seen ends.old ends.new)
        (setting_beside interface.now o side (option_map (λ f. f.now.graph) given.entry)) order) }
{
    let plan = make(alloc, interface)?;
    let drained = drain(alloc, interface, &plan, op, side, given, order, input, ends)?;
    end(input, drained.taken)?;
    let text = print(alloc, interface, &drained.fit)?;
    Ok(text)
}

// Drains the octets that a source has left.
fn drain<S: Source, E: PipeEnd>(
    alloc: Global,
    interface: &Interface,
    plan: &Plan,
    op: u32,
    side: Side,
    given: Option<&Fit>,
    order: Order,
    input: &mut S,
    ends: &mut Ends<E>,
) -> Result<Drained, Refusal>
    requires tied { plan.now.tie ≡ interface.now }
    requires known { op < length interface.now.operations }
    requires request { IsRequestOf interface.now op side (option_map (λ f. f.now) given) }
    requires open { AreOpen (ends_seen E.seen ends.old) }
    ensures taken { (o : Operation) → slice_get interface.now.operations op ≡ Some o
        → IfOk result (λ d. IsTaken (source_over S.seen input.old input.new) (ends_over E.seen ends.old ends.new)
        (setting_beside interface.now o side (option_map (λ f. f.now.graph) given.entry)) order d.taken d.fit.graph) }
    ensures interface { IfOk result (λ d. d.fit.interface ≡ interface.now) }
    ensures number { IfOk result (λ d. d.fit.op ≡ op) }
    ensures side { IfOk result (λ d. d.fit.side ≡ side) }
    ensures beside { IfOk result (λ d. d.fit.given ≡ option_map (λ f. f.now.graph) given.entry) }
    ensures refused { (o : Operation) → slice_get interface.now.operations op ≡ Some o
        → IfErr result (IsNotTaken (source_over S.seen input.old input.new) (ends_over E.seen ends.old ends.new)
        (setting_beside interface.now o side (option_map (λ f. f.now.graph) given.entry)) order) }
    ensures later { (S.seen input.old).faults ≤ (S.seen input.new).faults }
{
    let mut items = ItemLog::quiet();
    let mut steps = Steps::new(Uncounted::new());
    match drain_over(
        alloc, interface, plan, op, side, order, given, input, ends, &mut items, &mut steps,
    ) {
        Ok(drained) => Ok(drained),
        Err(DrainFault::Memory) => Err(Refusal::Memory),
        Err(DrainFault::ReadFault) => Err(Refusal::ReadFault),
        Err(DrainFault::Bad { place, reason }) => Err(Refusal::BadOctets {
            place,
            why: OctetsFault::Refused(reason),
        }),
        Err(DrainFault::EndFailed { which }) => Err(Refusal::EndFailed { which }),
        Err(DrainFault::TooFewEnds { wanted, found }) => {
            Err(Refusal::TooFewEnds { wanted, found })
        }
    }
}
