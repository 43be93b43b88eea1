// The roots that are no pipes.
ghost use Rattle.std.specs.Prelude.{◌≡◌, ◌≤◌, ◌<◌, ◌+◌, Some, length, OnOk, IfOk};
ghost use Rattle.std.specs.List.{slice_get};
ghost use Rattle.nd_base.specs.Over.{source_over};
ghost use Rattle.nd_types.specs.declared.types.Operation.{Operation};
ghost use Rattle.nd_types.specs.Roots.{roots_of};
ghost use Rattle.nd_flat.specs.Building.{CanClose};
ghost use Rattle.ndr_code.specs.Code.{checks_at, value_roots, line_at, side_number};
ghost use Rattle.ndr_code.specs.declared.instr.Instr.{Instr};
ghost use Rattle.ndr_code.specs.declared.instr.Instr.TheVariants as op;
ghost use Rattle.nd_grammar.specs.decoded.Verdict.{decoding_seen};
ghost use Rattle.ndr_decoder_laws.specs.stream.Between.{Begins};
ghost use Rattle.ndr_decoder_stream.specs.Seen.{between_of};
ghost use Rattle.ndr_decode.specs.Streaming.{IsAtRoot, RootReads, RootsRead, purpose_of};

use crate::homes::read_home;
use crate::worklist::read_pending;
use nd_base::{Intake, Ledger, Order, Source, Steps};
use nd_types::{Side, TypeId};
use nd_value::ItemLog;
use ndr_code::{Instr as Code, Plan, PlanLine};
use ndr_decoder_state::DecodeFault;
use ndr_decoder_stream::Stream;

// Where the run of the agreements is, and the number of the line after it.
#[derive(Clone, Copy, Debug, PartialEq, Eq)]
pub struct Found {
    pub checks: u32,
    pub line: usize,
}

// Reads the roots of a side that are no pipes, each with the referents that it makes due.
pub fn read_roots<S: Source, L: Ledger>(
    plan: &Plan,
    op: u32,
    side: Side,
    order: Order,
    stream: &mut Stream,
    intake: &mut Intake,
    source: &mut S,
    items: &mut ItemLog,
    steps: &mut Steps<L>,
) -> Result<Found, DecodeFault>
    requires known { op < length plan.now.tie.operations }
    requires begins { Begins (between_of stream.old) }
    requires whole { CanClose stream.old.machine.builder }
    ensures reads { RootsRead plan.now order op side stream.old (source_over S.Source.seen source.old source.new)
        (decoding_seen items.old items.new (L.number steps.old) (L.number steps.new)) stream.new result }
    ensures found { IfOk result
        (λ f. (o : Operation) → slice_get plan.now.tie.operations op ≡ Some o
        → (f.checks ≡ checks_at plan.now.tie.types plan.now.tie.operations op o side)
        × (f.line ≡ line_at plan.now.tie.types plan.now.tie.operations op o side + length (value_roots (roots_of plan.now.tie.types side o)) + 1)) }
    ensures same { OnOk result (purpose_of stream.new ≡ purpose_of stream.old) }
    ensures later { (S.Source.seen source.old).faults ≤ (S.Source.seen source.new).faults }
{
    let lines = plan.entries.as_slice();
    for number in first_line(plan, op, side)..lines.len() {
        match &lines[number] {
            PlanLine::Checks { op: _, side: _, at } => {
                return Ok(Found {
                    checks: *at,
                    line: number + 1,
                });
            }
            PlanLine::Entry {
                op: _,
                side: _,
                name: _,
                at,
            } => {
                read_root(plan, order, *at, stream, intake, source, items, steps)?;
                read_pending(plan, order, stream, intake, source, items, steps)?;
            }
        }
    }
    unreachable!()
}

// The number of the first line of a side.
pub fn first_line(plan: &Plan, op: u32, side: Side) -> usize
    requires known { op < length plan.now.tie.operations }
    ensures { (o : Operation) → slice_get plan.now.tie.operations op ≡ Some o
        → result ≡ line_at plan.now.tie.types plan.now.tie.operations op o side }
{
    plan.sides.as_slice()[op as usize * 2 + number_of(side)] as usize
}

// The number of a side among those of its operation.
fn number_of(side: Side) -> usize
    ensures { result ≡ side_number side }
{
    match side {
        Side::In => 0,
        Side::Out => 1,
    }
}

// Reads the next root: its value, or the referent of a reference pointer in its place.
fn read_root<S: Source, L: Ledger>(
    plan: &Plan,
    order: Order,
    at: u32,
    stream: &mut Stream,
    intake: &mut Intake,
    source: &mut S,
    items: &mut ItemLog,
    steps: &mut Steps<L>,
) -> Result<(), DecodeFault>
    requires next { (i : Instr) × ((slice_get plan.now.code at ≡ Some i) × IsAtRoot plan.now order stream.old i) }
    ensures reads { (i : Instr) → slice_get plan.now.code at ≡ Some i
        → RootReads plan.now order i stream.old (source_over S.Source.seen source.old source.new)
        (decoding_seen items.old items.new (L.number steps.old) (L.number steps.new)) stream.new result }
    ensures same { OnOk result (purpose_of stream.new ≡ purpose_of stream.old) }
    ensures later { (S.Source.seen source.old).faults ≤ (S.Source.seen source.new).faults }
{
    match plan.code.as_slice()[at as usize] {
        Code::Direct { to, run } => {
            read_direct(plan, order, to, run, stream, intake, source, items, steps)
        }
        Code::Call { run } => read_placed(plan, order, run, stream, intake, source, items, steps),
        _ => unreachable!(),
    }
}

#[inline(never)]
fn read_direct<S: Source, L: Ledger>(
    plan: &Plan,
    order: Order,
    to: TypeId,
    run: u32,
    stream: &mut Stream,
    intake: &mut Intake,
    source: &mut S,
    items: &mut ItemLog,
    steps: &mut Steps<L>,
) -> Result<(), DecodeFault>
    requires next { IsAtRoot plan.now order stream.old (op.Direct to run) }
    ensures reads { RootReads plan.now order (op.Direct to run) stream.old
        (source_over S.Source.seen source.old source.new)
        (decoding_seen items.old items.new (L.number steps.old) (L.number steps.new)) stream.new result }
    ensures same { OnOk result (purpose_of stream.new ≡ purpose_of stream.old) }
    ensures later { (S.Source.seen source.old).faults ≤ (S.Source.seen source.new).faults }
{
    let cell = stream.open_reference(to, run, steps)?;
    read_home(
        plan,
        order,
        &mut stream.machine,
        intake,
        source,
        items,
        steps,
    )?;
    stream.end_reference(cell)
}

fn read_placed<S: Source, L: Ledger>(
    plan: &Plan,
    order: Order,
    run: u32,
    stream: &mut Stream,
    intake: &mut Intake,
    source: &mut S,
    items: &mut ItemLog,
    steps: &mut Steps<L>,
) -> Result<(), DecodeFault>
    requires next { IsAtRoot plan.now order stream.old (op.Call run) }
    ensures reads { RootReads plan.now order (op.Call run) stream.old (source_over S.Source.seen source.old source.new)
        (decoding_seen items.old items.new (L.number steps.old) (L.number steps.new)) stream.new result }
    ensures same { OnOk result (purpose_of stream.new ≡ purpose_of stream.old) }
    ensures later { (S.Source.seen source.old).faults ≤ (S.Source.seen source.new).faults }
{
    stream.open_root(run)?;
    read_home(
        plan,
        order,
        &mut stream.machine,
        intake,
        source,
        items,
        steps,
    )?;
    stream.end_root()
}
