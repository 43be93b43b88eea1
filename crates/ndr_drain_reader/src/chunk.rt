// A chunk of a pipe, read by a machine of its own, whose graph has the chunk's elements alone.
ghost use Rattle.std.specs.Prelude.{◌≡◌, ◌≤◌, ◌<◌, ◌-◌, ◌+◌, Some, IfOk, IfErr, OnOk, OnErr};
ghost use Rattle.std.specs.List.{slice_get};
ghost use Rattle.nd_base.specs.Over.{source_over};
ghost use Rattle.nd_types.specs.declared.types.Operation.{Operation};
ghost use Rattle.ndr_decoder_state.specs.declared.fault.DecodeFault.TheVariants as fault;
ghost use Rattle.nd_grammar.specs.decoded.Verdict.{decoding_seen};
ghost use Rattle.ndr_drain_reader.specs.Calls.{IsAnswered, IsChunkCause};
ghost use Rattle.ndr_drain_reader.specs.Chunks.{Fills, IsAtChunk, IsOpened, Takes};
ghost use Rattle.ndr_drain_reader.specs.Ready.{IsReady};
ghost use Rattle.ndr_drain_reader.specs.Seen.{intake_seen, setting_in};
ghost use Rattle.ndr_drain_reader.specs.declared.intake.Phase.TheVariants as phase;

use crate::elements::elements_of;
use crate::handing::{count_steps, hand_on};
use crate::passing::{next_run, pass_elements, pass_end};
use crate::{DecodeFault, Intake};
use nd_base::{Counted, Intake as Buffer, Ledger, Order, Source, Steps};
use nd_flat::Builder;
use nd_value::{Home, ItemLog, Vals};
use ndr_code::Plan;
use ndr_decode::read_home;
use ndr_decoder_state::Machine;
use ndr_decoder_stream::{begin_elements, chunk_count, open_pipe};
use std::alloc::Global;

// Reads the next chunk, and answers its elements; at the end of the pipe nothing, and the next pipe is due.
pub(crate) fn read_chunk<S: Source, L: Ledger>(
    intake: &mut Intake<'_>,
    source: &mut S,
    items: &mut ItemLog,
    steps: &mut Steps<L>,
) -> Result<Option<Vals>, DecodeFault>
    requires reading { (intake_seen intake.old).phase ≡ phase.Reading }
    requires ready { IsReady intake.old }
    requires pipe { 0 < (intake_seen intake.old).left }
    ensures read { IfOk result (λ vals. (o : Operation) → slice_get (intake_seen intake.old).interface.operations (intake_seen intake.old).op ≡ Some o
        → IsAnswered (setting_in (intake_seen intake.old) o) (source_over S.Source.seen source.old source.new)
        (decoding_seen items.old items.new (L.number steps.old) (L.number steps.new)) (intake_seen intake.old) (intake_seen intake.new) vals) }
    ensures ready { OnOk result (IsReady intake.new) }
    ensures cause { IfErr result (λ e. (o : Operation) → slice_get (intake_seen intake.old).interface.operations (intake_seen intake.old).op ≡ Some o
        → IsChunkCause (setting_in (intake_seen intake.old) o) (intake_seen intake.old)
        (source_over S.Source.seen source.old source.new)
        (decoding_seen items.old items.new (L.number steps.old) (L.number steps.new)) e) }
    ensures later { (S.Source.seen source.old).faults ≤ (S.Source.seen source.new).faults }
{
    let elem = next_run(intake);
    let mut machine = open_chunk(intake, elem)?;
    let count = take_chunk(
        intake.alloc,
        intake.plan,
        intake.order,
        elem,
        intake.node - 1,
        &mut machine,
        &mut intake.buffer,
        source,
        items,
        steps,
    )?;
    if count == 0 {
        pass_end(intake, machine.at);
        return Ok(None);
    }
    let Machine {
        builder,
        at,
        count: nodes,
        ..
    } = machine;
    let vals = elements_of(intake.alloc, builder)?;
    pass_elements(intake, at, nodes - 1);
    Ok(Some(vals))
}

// A machine at the place of the next chunk, over a graph whose one root is a pipe without elements.
fn open_chunk(intake: &Intake<'_>, elem: u32) -> Result<Machine, DecodeFault>
    ensures opened { IfOk result (λ m. IsOpened (intake_seen intake.now).spot m) }
    ensures memory { IfErr result (λ e. e ≡ fault.Memory) }
{
    let plan = intake.plan;
    let builder = Builder::begin(intake.alloc, plan.tie.again(), intake.op, intake.side, None);
    let mut machine = Machine::new(intake.alloc, builder);
    machine.at = intake.at;
    open_pipe(&mut machine, 0, elem)?;
    machine.home = Home::Root(intake.root);
    Ok(machine)
}

// Reads a chunk with a log and a counter of its own, and then notes its items, whose nodes come after so many of the chunks before, and counts its
// steps.
fn take_chunk<S: Source, L: Ledger>(
    alloc: Global,
    plan: &Plan,
    order: Order,
    elem: u32,
    before: u32,
    machine: &mut Machine,
    buffer: &mut Buffer,
    source: &mut S,
    items: &mut ItemLog,
    steps: &mut Steps<L>,
) -> Result<u32, DecodeFault>
    requires at { IsAtChunk plan.now elem machine.old }
    ensures takes { (p : IsAtChunk plan.now elem machine.old) → p.spot.node - 1 ≡ before
        → Takes p.w order p.spot (source_over S.Source.seen source.old source.new)
        (decoding_seen items.old items.new (L.number steps.old) (L.number steps.new)) machine.new result }
    ensures later { (S.Source.seen source.old).faults ≤ (S.Source.seen source.new).faults }
{
    let mut own = items.like(alloc);
    let mut counter = Steps::new(Counted::new());
    let came = fill_chunk(
        plan,
        order,
        elem,
        machine,
        buffer,
        source,
        &mut own,
        &mut counter,
    );
    hand_on(&own, before, items)?;
    count_steps(counter.ledger().count(), steps);
    came
}

// Reads the count of a chunk and its elements.
fn fill_chunk<S: Source, L: Ledger>(
    plan: &Plan,
    order: Order,
    elem: u32,
    machine: &mut Machine,
    buffer: &mut Buffer,
    source: &mut S,
    items: &mut ItemLog,
    steps: &mut Steps<L>,
) -> Result<u32, DecodeFault>
    requires at { IsAtChunk plan.now elem machine.old }
    ensures fills { (p : IsAtChunk plan.now elem machine.old)
        → Fills p.w order p.spot (source_over S.Source.seen source.old source.new)
        (decoding_seen items.old items.new (L.number steps.old) (L.number steps.new)) machine.new result }
    ensures later { (S.Source.seen source.old).faults ≤ (S.Source.seen source.new).faults }
{
    let count = chunk_count(order, machine, buffer, source, items, steps)?;
    if count == 0 {
        return Ok(0);
    }
    begin_elements(machine, count, elem)?;
    read_home(plan, order, machine, buffer, source, items, steps)?;
    Ok(count)
}
