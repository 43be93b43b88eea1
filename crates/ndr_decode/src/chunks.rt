// Pipes, chunk by chunk.
ghost use Rattle.std.specs.Prelude.{◌≡◌, ◌≤◌, ◌<◌, ◌+◌, ◌^◌, ℕ, List, Some, length, OnOk, IfOk};
ghost use Rattle.std.specs.List.{slice_get};
ghost use Rattle.nd_base.specs.Over.{source_over};
ghost use Rattle.nd_types.specs.declared.types.Operation.{Operation};
ghost use Rattle.nd_types.specs.Roots.{roots_of};
ghost use Rattle.ndr_code.specs.Code.{value_roots, line_at};
ghost use Rattle.ndr_code.specs.declared.lists.PlanLine.TheVariants as plan_line;
ghost use Rattle.nd_grammar.specs.decoded.Verdict.{decoding_seen};
ghost use Rattle.ndr_decode.specs.Piping.{CallsPipe, ChunkReads, ElementsRun, IsAtChunk, IsAtPipe, IsAtPipes, PipeReads, StreamEnds, purpose_in};
ghost use Rattle.ndr_decode.specs.Streaming.{purpose_of};

use crate::homes::read_home;
use nd_base::{Intake, Ledger, Order, Source, Steps};
use nd_types::Side;
use nd_value::ItemLog;
use ndr_code::{Instr, Plan, PlanLine};
use ndr_decoder_state::{DecodeFault, Machine};
use ndr_decoder_stream::{Stream, begin_elements, chunk_count, open_pipe};

// Reads the pipes of a side: those of the lines from `line` on.
pub(crate) fn read_pipes<S: Source, L: Ledger>(
    plan: &Plan,
    op: u32,
    side: Side,
    order: Order,
    line: usize,
    stream: &mut Stream,
    intake: &mut Intake,
    source: &mut S,
    items: &mut ItemLog,
    steps: &mut Steps<L>,
) -> Result<(), DecodeFault>
    requires at { IsAtPipes plan.now op side order stream.old }
    requires line { (o : Operation) → slice_get plan.now.tie.operations op ≡ Some o
        → line ≡ line_at plan.now.tie.types plan.now.tie.operations op o side + length (value_roots (roots_of plan.now.tie.types side o)) + 1 }
    ensures reads { StreamEnds plan.now op side order stream.old (source_over S.Source.seen source.old source.new)
        (decoding_seen items.old items.new (L.number steps.old) (L.number steps.new)) stream.new result }
    ensures same { OnOk result (purpose_of stream.new ≡ purpose_of stream.old) }
    ensures later { (S.Source.seen source.old).faults ≤ (S.Source.seen source.new).faults }
{
    let mut number = stream.roots.as_slice().len() as u32;
    for next in line..plan.entries.len() {
        let Some(elem) = elements_run(plan, op, side, next) else {
            return Ok(());
        };
        read_pipe(
            plan,
            order,
            number,
            elem,
            &mut stream.machine,
            intake,
            source,
            items,
            steps,
        )?;
        number += 1;
    }
    Ok(())
}

// The run of the elements of the pipe that a line is of; nothing where it is of no pipe of the side.
pub fn elements_run(plan: &Plan, op: u32, side: Side, line: usize) -> Option<u32>
    requires there { line < length plan.now.entries }
    requires pipe { (name : List ℕ) (at : ℕ) → slice_get plan.now.entries line ≡ Some (plan_line.Entry op side name at)
        → (elem : ℕ) × CallsPipe plan.now.code at elem }
    ensures { ElementsRun plan.now op side line result }
{
    let PlanLine::Entry {
        op: of,
        side: on,
        name: _,
        at,
    } = &plan.entries.as_slice()[line]
    else {
        return None;
    };
    if *of != op || *on != side {
        return None;
    }
    Some(called_elements(plan.code.as_slice(), *at as usize))
}

// Reads the next pipe, whose elements have the run at an address.
#[inline(never)]
fn read_pipe<S: Source, L: Ledger>(
    plan: &Plan,
    order: Order,
    number: u32,
    elem: u32,
    machine: &mut Machine,
    intake: &mut Intake,
    source: &mut S,
    items: &mut ItemLog,
    steps: &mut Steps<L>,
) -> Result<(), DecodeFault>
    requires at { IsAtPipe plan.now order number elem machine.old }
    ensures reads { PipeReads plan.now order number elem machine.old (source_over S.Source.seen source.old source.new)
        (decoding_seen items.old items.new (L.number steps.old) (L.number steps.new)) machine.new result }
    ensures same { OnOk result (purpose_in machine.new ≡ purpose_in machine.old) }
    ensures later { (S.Source.seen source.old).faults ≤ (S.Source.seen source.new).faults }
{
    open_pipe(machine, number, elem)?;
    let mut so_far: u32 = 0;
    // Each chunk but the last one has an element, and a pipe has fewer than 2^32 of them.
    for _chunk in 0..u64::MAX {
        let count = read_chunk(
            plan, order, number, elem, so_far, machine, intake, source, items, steps,
        )?;
        if count == 0 {
            return Ok(());
        }
        so_far += count;
    }
    unreachable!()
}

// Reads the next chunk of a pipe that has so many elements so far: how many it has, 0 where the pipe has ended. Of more elements than a pipe may have
// a part is begun, and one of these is refused.
fn read_chunk<S: Source, L: Ledger>(
    plan: &Plan,
    order: Order,
    number: u32,
    elem: u32,
    so_far: u32,
    machine: &mut Machine,
    intake: &mut Intake,
    source: &mut S,
    items: &mut ItemLog,
    steps: &mut Steps<L>,
) -> Result<u32, DecodeFault>
    requires at { IsAtChunk plan.now order number elem so_far machine.old }
    requires room { so_far + 1 < 2 ^ 32 }
    ensures reads { ChunkReads plan.now order number elem so_far machine.old
        (source_over S.Source.seen source.old source.new)
        (decoding_seen items.old items.new (L.number steps.old) (L.number steps.new)) machine.new result }
    ensures room { IfOk result (λ count. so_far + count + 1 < 2 ^ 32) }
    ensures same { OnOk result (purpose_in machine.new ≡ purpose_in machine.old) }
    ensures later { (S.Source.seen source.old).faults ≤ (S.Source.seen source.new).faults }
{
    let count = chunk_count(order, machine, intake, source, items, steps)?;
    if count == 0 {
        return Ok(0);
    }
    let begun = count.min(u32::MAX - so_far);
    begin_elements(machine, begun, elem)?;
    read_home(plan, order, machine, intake, source, items, steps)?;
    Ok(begun)
}

// The run of the elements of the pipe whose run is at an address.
fn called_elements(code: &[Instr], at: usize) -> u32
    requires pipe { (elem : ℕ) × CallsPipe code.now at elem }
    ensures { CallsPipe code.now at result }
{
    let Instr::Call { run } = code[at] else {
        unreachable!()
    };
    let Instr::Pipe { run: elem } = code[run as usize] else {
        unreachable!()
    };
    elem
}
