// The head of a stream.
ghost use Rattle.std.specs.Prelude.{◌≡◌, ◌≤◌, ◌<◌, [], Some, length, option_map, IfOk, IfErr, OnOk};
ghost use Rattle.std.specs.List.{slice_get};
ghost use Rattle.nd_base.specs.Over.{source_over};
ghost use Rattle.nd_types.specs.declared.types.Operation.{Operation};
ghost use Rattle.nd_value.specs.Fitting.{setting_beside};
ghost use Rattle.nd_value.specs.Request.{IsRequestOf};
ghost use Rattle.nd_value.specs.Setting.{Setting};
ghost use Rattle.nd_flat.specs.Building.{CanClose};
ghost use Rattle.nd_grammar.specs.LegalSide.{IsLegalSide};
ghost use Rattle.nd_grammar.specs.decoded.Verdict.{decoding_seen};
ghost use Rattle.ndr_decoder_laws.specs.stream.Between.{Begins};
ghost use Rattle.ndr_decoder_stream.specs.Seen.{between_of};
ghost use Rattle.ndr_decode.specs.Streaming.{IsSettingOf, cells_of, purpose_of};
ghost use Rattle.ndr_drain_reader.specs.Calls.{HasHead, IsHeadCause};
ghost use Rattle.ndr_drain_reader.specs.Heads.{AddsPipes, HeadReads};
ghost use Rattle.ndr_drain_reader.specs.Ready.{IsAtHead, IsReady};
ghost use Rattle.ndr_drain_reader.specs.Seen.{intake_seen};
ghost use Rattle.ndr_drain_reader.specs.declared.intake.Phase.TheVariants as phase;

use crate::{DecodeFault, Intake, Phase};
use nd_base::{Intake as Buffer, Ledger, Memory, Order, Source, Steps};
use nd_flat::{Builder, Fit, Given, Seen};
use nd_types::Side;
use nd_value::ItemLog;
use ndr_code::Plan;
use ndr_decode::{read_roots, try_parameters};
use ndr_decoder_state::Machine;
use ndr_decoder_stream::Stream;
use ndr_drain_laws::laws::heads::{heads_are_read, heads_are_refused};

// Reads the head of a stream, and adds its pipes without elements.
pub(crate) fn read_head<S: Source, L: Ledger>(
    intake: &mut Intake<'_>,
    given: Option<&Fit>,
    source: &mut S,
    items: &mut ItemLog,
    steps: &mut Steps<L>,
) -> Result<(), DecodeFault>
    requires begun { (intake_seen intake.old).phase ≡ phase.Begun }
    requires ready { IsAtHead intake.old }
    requires request { IsRequestOf (intake_seen intake.old).interface (intake_seen intake.old).op (intake_seen intake.old).side
        (option_map (λ f. f.now) given) }
    ensures read { OnOk result ((o : Operation) → slice_get (intake_seen intake.old).interface.operations (intake_seen intake.old).op ≡ Some o
        → HasHead (setting_beside (intake_seen intake.old).interface o (intake_seen intake.old).side (option_map (λ f. f.now.graph) given.entry))
        (source_over S.Source.seen source.old source.new)
        (decoding_seen items.old items.new (L.number steps.old) (L.number steps.new))
        (intake_seen intake.old) (intake_seen intake.new)) }
    ensures beside { OnOk result ((intake_seen intake.new).given ≡ option_map (λ f. f.now.graph) given.entry) }
    ensures ready { OnOk result (IsReady intake.new) }
    ensures cause { IfErr result (λ e. (o : Operation) → slice_get (intake_seen intake.old).interface.operations (intake_seen intake.old).op ≡ Some o
        → IsHeadCause (setting_beside (intake_seen intake.old).interface o (intake_seen intake.old).side (option_map (λ f. f.now.graph) given.entry))
        (intake_seen intake.old).order
        (source_over S.Source.seen source.old source.new)
        (decoding_seen items.old items.new (L.number steps.old) (L.number steps.new)) e) }
    ensures later { (S.Source.seen source.old).faults ≤ (S.Source.seen source.new).faults }
{
    // A request conforms to the inputs of the operation, and what is read of a head is right.
    let _request = Given::beside(given);
    heads_are_read();
    heads_are_refused();
    let plan = intake.plan;
    let builder = Builder::begin(
        intake.alloc,
        plan.tie.again(),
        intake.op,
        intake.side,
        given,
    );
    let mut stream = Stream::begin(intake.alloc, builder);
    read_values(
        plan,
        intake.op,
        intake.side,
        intake.order,
        given,
        &mut stream,
        &mut intake.buffer,
        source,
        items,
        steps,
    )?;
    let at = stream.machine.at;
    let kept = with_pipes(stream, intake.left)?;
    intake.kept = kept;
    intake.at = at;
    intake.phase = Phase::Reading;
    Ok(())
}

// Reads the roots that are no pipes, with their referents, and tries the agreements of the parameters.
fn read_values<S: Source, L: Ledger>(
    plan: &Plan,
    op: u32,
    side: Side,
    order: Order,
    given: Option<&Fit>,
    stream: &mut Stream,
    buffer: &mut Buffer,
    source: &mut S,
    items: &mut ItemLog,
    steps: &mut Steps<L>,
) -> Result<(), DecodeFault>
    requires known { op < length plan.now.tie.operations }
    requires begins { Begins (between_of stream.old) }
    requires whole { CanClose stream.old.machine.builder }
    ensures reads { (w : Setting) → (legal : IsLegalSide w) → IsSettingOf plan.now op side w → w.given ≡ option_map (λ f. f.now.graph) given.entry
        → HeadReads w legal order (cells_of stream.old) (source_over S.Source.seen source.old source.new)
        (decoding_seen items.old items.new (L.number steps.old) (L.number steps.new)) stream.new result }
    ensures same { OnOk result (purpose_of stream.new ≡ purpose_of stream.old) }
    ensures later { (S.Source.seen source.old).faults ≤ (S.Source.seen source.new).faults }
{
    let found = read_roots(plan, op, side, order, stream, buffer, source, items, steps)?;
    let checks = found.checks as usize;
    try_parameters(plan.code.as_slice(), checks, stream, given)?;
    Ok(())
}

// The graph of a stream, with so many pipes without elements.
fn with_pipes(stream: Stream, count: u32) -> Result<Builder, Memory>
    requires whole { CanClose stream.machine.builder }
    ensures { IfOk result (λ b. AddsPipes count stream.machine.builder b) }
{
    let Stream { machine, .. } = stream;
    let Machine { mut builder, .. } = machine;
    add_pipes(&mut builder, count)?;
    Ok(builder)
}

// Adds so many pipes without elements.
fn add_pipes(builder: &mut Builder, count: u32) -> Result<(), Memory>
    requires whole { CanClose builder.old }
    ensures { OnOk result (AddsPipes count builder.old builder.new) }
{
    for _pipe in 0..count {
        builder.root()?;
        builder.add(&Seen::Pipe(0))?;
    }
    Ok(())
}
