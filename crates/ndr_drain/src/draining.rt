// Streams are drained: their pipes go to ends.
ghost use Rattle.std.specs.Prelude.{◌≡◌, ◌<◌, ◌≤◌, ◌-◌, ◌^◌, IfOk, IfErr, MatchResult, Some, length, map, option_map};
ghost use Rattle.std.specs.List.{slice_get};
ghost use Rattle.nd_base.specs.Over.{source_over};
ghost use Rattle.nd_types.specs.declared.types.Operation.{Operation};
ghost use Rattle.nd_value.specs.Deferral.{before_pipes};
ghost use Rattle.nd_value.specs.Fitting.{setting_beside};
ghost use Rattle.nd_value.specs.Request.{IsRequestOf};
ghost use Rattle.nd_value.specs.Setting.{root_list};
ghost use Rattle.nd_grammar.specs.decoded.Verdict.{decoding_seen};
ghost use Rattle.ndr_pipe.specs.Ends.{AreOpen, ends_over, ends_seen};
ghost use Rattle.ndr_drain_reader.specs.Ready.{IsReady};
ghost use Rattle.ndr_drain_reader.specs.Seen.{intake_seen};
ghost use Rattle.ndr_drain_reader.specs.declared.intake.Phase.TheVariants.{Reading};
ghost use Rattle.ndr_drain.specs.Drained.{IsDrained, IsDrainCause, IsTooFewEnds, pipe_count};
ghost use Rattle.ndr_drain.specs.Turns.{AreElements, AreOpenFrom, IsReadToEnd, StopsUnderWay, OfSetting};

use crate::DrainFault;
use crate::chunks::drain_pipes;
use crate::elements::element_types;
use crate::fault::drain_fault;
use nd_base::{Ledger, Order, Source, Steps};
use nd_flat::Fit;
use nd_types::{Interface, Side, TypeId};
use nd_value::ItemLog;
use ndr_code::Plan;
use ndr_drain_reader::Intake;
use ndr_pipe::{BoxedEnd, Ends, PipeEnd, PipeEnds};
use std::alloc::Global;

/// What a stream was drained to.
#[derive(Drop)]
pub struct Drained {
    /// The graph of the values with every pipe empty, in its canonical form.
    pub fit: Fit,
    /// How many octets of the source the values took, pipes included, with the gaps between them.
    pub taken: u32,
}

/// Reads a stream of a side of an operation from the octets that a source has left (C706, chapter 14), and gives its pipes to ends: the i-th pipe to
/// the i-th end. Each element is one line, the text of its value and a line feed. The lines of a chunk are given once the chunk is whole, before the
/// next count is read; after the end of a pipe its end is finished. So no more than one chunk is held at a time. The rest of the graph is kept.
///
/// The interface must be that of the plan, `op` the number of one of its operations, and no end be finished. A request that is given beside a
/// response must be one of the same operation and interface: then attributes whose variable travels in the request alone are checked against it.
///
/// At `Ok` the octets taken represent a graph that conforms, as `decode` answers it: it is the only one that they represent. What is kept is that
/// graph with its pipes empty. Each end took the lines of its pipe and is finished; an end without a pipe is as before.
///
/// # Errors
/// `TooFewEnds` exactly where the side has more pipes than there are ends, before anything is fetched or given. `Bad` and `ReadFault` as of `decode`:
/// before the pipes, where nothing was given; or in a chunk, which is not whole: then each end took exactly the lines of the chunks before it, and is
/// finished if the end of its pipe was read. `EndFailed` names the end of the pipe that was read, whose count of faults rose; it took the lines of
/// the whole chunks before, and then a prefix of those of the chunk with which the octets fetched end; the ends before it are finished, and those
/// after it are as before. After `Memory` the end of the pipe that was read took besides whole chunks at most a prefix of the lines of the next, and
/// is not finished. At every answer but `EndFailed` the counts of faults of all ends are as before, then those of the others.
///
/// A log that keeps items gets those of the pipes too. `steps` counts each item but the gaps, and each cell of what is kept: never more than the
/// octets fetched and the roots.
///
/// Octets are asked for only once the value must have them. The time is linear in the octets fetched and the lines. It takes memory for what is kept,
/// and for one chunk and one line at a time.
pub fn drain<S: Source, L: Ledger>(
    alloc: Global,
    interface: &Interface,
    plan: &Plan,
    op: u32,
    side: Side,
    order: Order,
    given: Option<&Fit>,
    source: &mut S,
    ends: &mut PipeEnds,
    items: &mut ItemLog,
    steps: &mut Steps<L>,
) -> Result<Drained, DrainFault>
    requires tied { plan.now.tie ≡ interface.now }
    requires known { op < length interface.now.operations }
    requires request { IsRequestOf interface.now op side (option_map (λ f. f.now) given) }
    requires open { AreOpen (ends_seen ⟦<BoxedEnd as PipeEnd>⟧.seen ends.old) }
    ensures drained { IfOk result (λ d. (o : Operation) → slice_get interface.now.operations op ≡ Some o
        → IsDrained (setting_beside interface.now o side (option_map (λ f. f.now.graph) given.entry)) order
        (source_over S.seen source.old source.new)
        (ends_over ⟦<BoxedEnd as PipeEnd>⟧.seen ends.old ends.new)
        (decoding_seen items.old items.new (L.number steps.old) (L.number steps.new)) d.taken d.fit.graph) }
    ensures of { IfOk result (λ d. (d.fit.op ≡ op) × (d.fit.side ≡ side) × (d.fit.interface ≡ interface.now)) }
    ensures beside { IfOk result (λ d. d.fit.given ≡ option_map (λ f. f.now.graph) given.entry) }
    ensures cause { IfErr result (λ f. (o : Operation) → slice_get interface.now.operations op ≡ Some o
        → IsDrainCause (setting_beside interface.now o side (option_map (λ f. f.now.graph) given.entry)) order
        (source_over S.seen source.old source.new)
        (ends_over ⟦<BoxedEnd as PipeEnd>⟧.seen ends.old ends.new)
        (decoding_seen items.old items.new (L.number steps.old) (L.number steps.new)) f) }
    ensures enough { (o : Operation) → slice_get interface.now.operations op ≡ Some o
        → length (ends_seen ⟦<BoxedEnd as PipeEnd>⟧.seen ends.old)
        < pipe_count (setting_beside interface.now o side (option_map (λ f. f.now.graph) given.entry))
        → MatchResult result (λ _. ⊥) IsTooFewEnds }
    ensures later { (S.seen source.old).faults ≤ (S.seen source.new).faults }
{
    drain_over(
        alloc, interface, plan, op, side, order, given, source, ends, items, steps,
    )
}

/// `drain` over ends of any one type.
pub fn drain_over<S: Source, L: Ledger, E: PipeEnd>(
    alloc: Global,
    interface: &Interface,
    plan: &Plan,
    op: u32,
    side: Side,
    order: Order,
    given: Option<&Fit>,
    source: &mut S,
    ends: &mut Ends<E>,
    items: &mut ItemLog,
    steps: &mut Steps<L>,
) -> Result<Drained, DrainFault>
    requires tied { plan.now.tie ≡ interface.now }
    requires known { op < length interface.now.operations }
    requires request { IsRequestOf interface.now op side (option_map (λ f. f.now) given) }
    requires open { AreOpen (ends_seen E.seen ends.old) }
    ensures drained { IfOk result (λ d. (o : Operation) → slice_get interface.now.operations op ≡ Some o
        → IsDrained (setting_beside interface.now o side (option_map (λ f. f.now.graph) given.entry)) order
        (source_over S.seen source.old source.new)
        (ends_over E.seen ends.old ends.new) (decoding_seen items.old items.new (L.number steps.old) (L.number steps.new)) d.taken d.fit.graph) }
    ensures of { IfOk result (λ d. (d.fit.op ≡ op) × (d.fit.side ≡ side) × (d.fit.interface ≡ interface.now)) }
    ensures beside { IfOk result (λ d. d.fit.given ≡ option_map (λ f. f.now.graph) given.entry) }
    ensures cause { IfErr result (λ f. (o : Operation) → slice_get interface.now.operations op ≡ Some o
        → IsDrainCause (setting_beside interface.now o side (option_map (λ f. f.now.graph) given.entry)) order
        (source_over S.seen source.old source.new)
        (ends_over E.seen ends.old ends.new) (decoding_seen items.old items.new (L.number steps.old) (L.number steps.new)) f) }
    ensures enough { (o : Operation) → slice_get interface.now.operations op ≡ Some o
        → length (ends_seen E.seen ends.old) < pipe_count (setting_beside interface.now o side (option_map (λ f. f.now.graph) given.entry))
        → MatchResult result (λ _. ⊥) IsTooFewEnds }
    ensures later { (S.seen source.old).faults ≤ (S.seen source.new).faults }
{
    let Ok(mut intake) = Intake::begin(alloc, plan, op, side, order) else {
        return Err(DrainFault::Memory);
    };
    let wanted = intake.pipes_left();
    let found = ends.len();
    if found < wanted as usize {
        return Err(DrainFault::TooFewEnds {
            wanted,
            found: found as u32,
        });
    }
    let Ok(types) = element_types(alloc, interface, op, side) else {
        return Err(DrainFault::Memory);
    };
    match intake.head(given, source, items, steps) {
        Ok(()) => {
            drain_rest(
                alloc,
                interface,
                types.as_slice(),
                intake,
                source,
                ends,
                items,
                steps,
            )
        }
        Err(fault) => Err(drain_fault(fault)),
    }
}

// Reads the pipes and gives them to their ends, after the head was read.
fn drain_rest<S: Source, L: Ledger, E: PipeEnd>(
    alloc: Global,
    interface: &Interface,
    types: &[TypeId],
    intake: Intake<'_>,
    source: &mut S,
    ends: &mut Ends<E>,
    items: &mut ItemLog,
    steps: &mut Steps<L>,
) -> Result<Drained, DrainFault>
    requires tied { (intake_seen intake).interface ≡ interface.now }
    requires reading { (intake_seen intake).phase ≡ Reading }
    requires ready { IsReady intake }
    requires first { OfSetting (intake_seen intake) (λ w. (intake_seen intake).spot.root ≡ before_pipes (root_list w)) }
    requires all { OfSetting (intake_seen intake) (λ w. (intake_seen intake).left ≡ length (root_list w) - before_pipes (root_list w)) }
    requires types { OfSetting (intake_seen intake) (λ w. AreElements w (map (λ t. t.0) types.now)) }
    requires open { AreOpenFrom 0 (ends_seen E.seen ends.old) }
    requires enough { length types.now ≤ length (ends_seen E.seen ends.old) }
    requires few { length types.now < 2 ^ 32 }
    ensures read { IfOk result (λ d. OfSetting (intake_seen intake.entry) (λ w. IsReadToEnd w (intake_seen intake.entry)
        (source_over S.seen source.old source.new) (ends_over E.seen ends.old ends.new)
        (decoding_seen items.old items.new (L.number steps.old) (L.number steps.new))
        d.fit.graph d.taken)) }
    ensures of { IfOk result
        (λ d. (d.fit.op ≡ (intake_seen intake.entry).op) × (d.fit.side ≡ (intake_seen intake.entry).side)
        × (d.fit.interface ≡ (intake_seen intake.entry).interface)) }
    ensures beside { IfOk result (λ d. d.fit.given ≡ (intake_seen intake.entry).given) }
    ensures cause { IfErr result (λ f. OfSetting (intake_seen intake.entry) (λ w. StopsUnderWay w (intake_seen intake.entry)
        (source_over S.seen source.old source.new) (ends_over E.seen ends.old ends.new)
        (decoding_seen items.old items.new (L.number steps.old) (L.number steps.new)) f)) }
    ensures later { (S.seen source.old).faults ≤ (S.seen source.new).faults }
{
    let mut intake = intake;
    match drain_pipes(
        alloc,
        interface,
        types,
        &mut intake,
        source,
        ends,
        items,
        steps,
    ) {
        Ok(()) => {
            let decoded = intake.finish();
            Ok(Drained {
                fit: decoded.fit,
                taken: decoded.taken,
            })
        }
        Err(fault) => Err(fault),
    }
}
