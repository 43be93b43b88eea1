// The octets of the input are read, and what the command asks for is written of their values.
ghost use Rattle.std.specs.Prelude.{◌≡◌, ◌<◌, length, Some, option_map, IfOk, IfErr};
ghost use Rattle.std.specs.List.{slice_get};
ghost use Rattle.nd_base.specs.Over.{source_over};
ghost use Rattle.nd_types.specs.declared.types.Operation.{Operation};
ghost use Rattle.nd_value.specs.Fitting.{setting_beside};
ghost use Rattle.nd_value.specs.Request.{IsRequestOf};
ghost use Rattle.ndr_pipe.specs.Ends.{AreOpen, ends_over, ends_seen};
ghost use Rattle.command_decode.specs.Decoded.{IsTraceCause, IsTracedWhole};
ghost use Rattle.command_line.specs.declared.command.OrderWord.TheVariants.{Fixed, Label};
ghost use Rattle.command_line.specs.declared.command.Task.TheVariants.{Read};
ghost use Rattle.dceidl.specs.Asked.{AsksEnds, drains};
ghost use Rattle.dceidl.specs.Input.{IsMadeOf, IsTaskCause, IsMadeReading, IsReadingCause};

use crate::ready::Ready;
use command_decode::{Stopped, explain_octets, print_octets, trace_octets};
use command_drain::drain_octets;
use command_line::{OrderWord, Reading};
use command_refusals::Refusal;
use command_streams::take_label;
use nd_base::{Octets, Order, Source};
use nd_graph::Fit;
use nd_types::{Interface, Side};
use ndr_pipe::{Ends, PipeEnd};
use std::alloc::Global;

// Reads octets of the input, in the order that is named or that their format label states.
pub(crate) fn read_octets<S: Source, E: PipeEnd>(
    alloc: Global,
    ready: &Ready,
    how: Reading,
    order: OrderWord,
    given: Option<&Fit>,
    input: &mut S,
    ends: &mut Ends<E>,
) -> Result<Octets, Refusal>
    requires open { AreOpen (ends_seen E.seen ends.old) }
    requires known { ready.now.number < length ready.now.interface.operations }
    requires request { IsRequestOf ready.now.interface ready.now.number ready.now.side (option_map (λ f. f.now) given) }
    ensures ends { AsksEnds (ends_over E.seen ends.old ends.new) (drains (Read how order)) }
    ensures done { (o : Operation) → slice_get ready.now.interface.operations ready.now.number ≡ Some o
        → IfOk result (IsMadeOf (source_over S.seen input.old input.new) (ends_over E.seen ends.old ends.new) (Read how order)
        (setting_beside ready.now.interface o ready.now.side (option_map (λ f. f.now.graph) given.entry))) }
    ensures refused { (o : Operation) → slice_get ready.now.interface.operations ready.now.number ≡ Some o
        → IfErr result (IsTaskCause (source_over S.seen input.old input.new) (ends_over E.seen ends.old ends.new) (Read how order)
        (setting_beside ready.now.interface o ready.now.side (option_map (λ f. f.now.graph) given.entry))) }
{
    match order {
        OrderWord::Fixed(named) => read_values(alloc, ready, how, named, given, input, ends),
        OrderWord::Label => read_labelled(alloc, ready, how, given, input, ends),
    }
}

// Reads the octets of the input after their format label, in the order that it states.
fn read_labelled<S: Source, E: PipeEnd>(
    alloc: Global,
    ready: &Ready,
    how: Reading,
    given: Option<&Fit>,
    input: &mut S,
    ends: &mut Ends<E>,
) -> Result<Octets, Refusal>
    requires open { AreOpen (ends_seen E.seen ends.old) }
    requires known { ready.now.number < length ready.now.interface.operations }
    requires request { IsRequestOf ready.now.interface ready.now.number ready.now.side (option_map (λ f. f.now) given) }
    ensures ends { AsksEnds (ends_over E.seen ends.old ends.new) (drains (Read how Label)) }
    ensures done { (o : Operation) → slice_get ready.now.interface.operations ready.now.number ≡ Some o
        → IfOk result (IsMadeOf (source_over S.seen input.old input.new) (ends_over E.seen ends.old ends.new) (Read how Label)
        (setting_beside ready.now.interface o ready.now.side (option_map (λ f. f.now.graph) given.entry))) }
    ensures refused { (o : Operation) → slice_get ready.now.interface.operations ready.now.number ≡ Some o
        → IfErr result (IsTaskCause (source_over S.seen input.old input.new) (ends_over E.seen ends.old ends.new) (Read how Label)
        (setting_beside ready.now.interface o ready.now.side (option_map (λ f. f.now.graph) given.entry))) }
{
    let order = take_label(input)?;
    read_values(alloc, ready, how, order, given, input, ends)
}

// Reads octets of the input in an order.
fn read_values<S: Source, E: PipeEnd>(
    alloc: Global,
    ready: &Ready,
    how: Reading,
    order: Order,
    given: Option<&Fit>,
    input: &mut S,
    ends: &mut Ends<E>,
) -> Result<Octets, Refusal>
    requires open { AreOpen (ends_seen E.seen ends.old) }
    requires known { ready.now.number < length ready.now.interface.operations }
    requires request { IsRequestOf ready.now.interface ready.now.number ready.now.side (option_map (λ f. f.now) given) }
    ensures ends { AsksEnds (ends_over E.seen ends.old ends.new) (drains (Read how (Fixed order))) }
    ensures done { (o : Operation) → slice_get ready.now.interface.operations ready.now.number ≡ Some o
        → IfOk result (IsMadeReading how (source_over S.seen input.old input.new) (ends_over E.seen ends.old ends.new)
        (setting_beside ready.now.interface o ready.now.side (option_map (λ f. f.now.graph) given.entry)) order) }
    ensures refused { (o : Operation) → slice_get ready.now.interface.operations ready.now.number ≡ Some o
        → IfErr result (IsReadingCause how (source_over S.seen input.old input.new) (ends_over E.seen ends.old ends.new)
        (setting_beside ready.now.interface o ready.now.side (option_map (λ f. f.now.graph) given.entry)) order) }
{
    match how {
        Reading::Decode => print_octets(
            alloc,
            &ready.interface,
            ready.number,
            ready.side,
            given,
            order,
            input,
        ),
        Reading::Trace => traced_alone(
            alloc,
            &ready.interface,
            ready.number,
            ready.side,
            given,
            order,
            input,
        ),
        Reading::Drain => drain_octets(
            alloc,
            &ready.interface,
            ready.number,
            ready.side,
            given,
            order,
            input,
            ends,
        ),
        Reading::Explain => explain_octets(
            alloc,
            &ready.interface,
            ready.number,
            ready.side,
            given,
            order,
            input,
        ),
    }
}

// The items of the octets of the input; where they are refused, the refusal alone.
fn traced_alone<S: Source>(
    alloc: Global,
    interface: &Interface,
    op: u32,
    side: Side,
    given: Option<&Fit>,
    order: Order,
    input: &mut S,
) -> Result<Octets, Refusal>
    requires known { op < length interface.now.operations }
    requires request { IsRequestOf interface.now op side (option_map (λ f. f.now) given) }
    ensures explained { (o : Operation) → slice_get interface.now.operations op ≡ Some o
        → IfOk result
        (IsTracedWhole (source_over S.seen input.old input.new)
        (setting_beside interface.now o side (option_map (λ f. f.now.graph) given.entry)) order) }
    ensures refused { (o : Operation) → slice_get interface.now.operations op ≡ Some o
        → IfErr result
        (IsTraceCause (source_over S.seen input.old input.new)
        (setting_beside interface.now o side (option_map (λ f. f.now.graph) given.entry)) order) }
{
    match trace_octets(alloc, interface, op, side, given, order, input) {
        Ok(text) => Ok(text),
        Err(stopped) => {
            let Stopped { refusal, .. } = stopped;
            Err(refusal)
        }
    }
}
