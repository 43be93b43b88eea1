// The pipes of a stream, read chunk by chunk and given to their ends.
ghost use Rattle.std.specs.Prelude.{◌≡◌, ◌<◌, ◌≤◌, ◌-◌, ◌^◌, IfOk, IfErr, OnOk, length, map};
ghost use Rattle.nd_base.specs.Over.{source_over};
ghost use Rattle.nd_value.specs.Deferral.{before_pipes};
ghost use Rattle.nd_value.specs.Setting.{root_list};
ghost use Rattle.nd_grammar.specs.decoded.Verdict.{decoding_seen};
ghost use Rattle.ndr_drain_laws.specs.parts.Parts.{elem_at};
ghost use Rattle.ndr_pipe.specs.Ends.{IsOpenAt, ends_over, ends_seen};
ghost use Rattle.ndr_drain_reader.specs.Ready.{IsReady};
ghost use Rattle.ndr_drain_reader.specs.Seen.{intake_seen};
ghost use Rattle.ndr_drain_reader.specs.declared.intake.Phase.TheVariants.{Reading};
ghost use Rattle.ndr_drain.specs.Drained.{end_of_root};
ghost use Rattle.ndr_drain.specs.Turns.{AreElements, AreOpenFrom, HasPassed, IsStepCause, IsUnderWay, StopsUnderWay, OfSetting};

use crate::DrainFault;
use crate::fault::{GiveFault, drain_fault};
use crate::lines::give_lines;
use nd_base::{Ledger, Source, Steps};
use nd_types::{Interface, TypeId};
use nd_value::ItemLog;
use ndr_drain_reader::Intake;
use ndr_pipe::{Ends, PipeEnd};
use std::alloc::Global;

// Reads the next chunk, and gives it to the end of its pipe, whose elements are of this type.
fn drain_chunk<S: Source, L: Ledger, E: PipeEnd>(
    alloc: Global,
    interface: &Interface,
    of: TypeId,
    which: u32,
    intake: &mut Intake<'_>,
    source: &mut S,
    ends: &mut Ends<E>,
    items: &mut ItemLog,
    steps: &mut Steps<L>,
) -> Result<(), DrainFault>
    requires tied { (intake_seen intake.old).interface ≡ interface.now }
    requires reading { (intake_seen intake.old).phase ≡ Reading }
    requires ready { IsReady intake.old }
    requires pipe { 0 < (intake_seen intake.old).left }
    requires of { OfSetting (intake_seen intake.old) (λ w. of.0 ≡ elem_at w (intake_seen intake.old).spot.root) }
    requires which { OfSetting (intake_seen intake.old) (λ w. which ≡ end_of_root w (intake_seen intake.old).spot.root) }
    requires open { IsOpenAt (ends_seen E.seen ends.old) which }
    ensures passed { IfOk result (λ _. OfSetting (intake_seen intake.old) (λ w. HasPassed w (intake_seen intake.old) (intake_seen intake.new)
        (source_over S.seen source.old source.new) (ends_over E.seen ends.old ends.new)
        (decoding_seen items.old items.new (L.number steps.old) (L.number steps.new)))) }
    ensures ready { OnOk result (IsReady intake.new) }
    ensures cause { IfErr result (λ f. OfSetting (intake_seen intake.old) (λ w. IsStepCause w (intake_seen intake.old)
        (source_over S.seen source.old source.new) (ends_over E.seen ends.old ends.new)
        (decoding_seen items.old items.new (L.number steps.old) (L.number steps.new)) f)) }
    ensures later { (S.seen source.old).faults ≤ (S.seen source.new).faults }
{
    match intake.chunk(source, items, steps) {
        Ok(Some(vals)) => match give_lines(alloc, interface, of, &vals, which as usize, ends) {
            Ok(()) => Ok(()),
            Err(GiveFault::Memory) => Err(DrainFault::Memory),
            Err(GiveFault::End) => Err(DrainFault::EndFailed { which }),
        },
        Ok(None) => match ends.finish(which as usize) {
            Ok(()) => Ok(()),
            Err(_) => Err(DrainFault::EndFailed { which }),
        },
        Err(fault) => Err(drain_fault(fault)),
    }
}

// Reads all pipes, and gives each to its end. `types` are the types of their elements.
pub(crate) fn drain_pipes<S: Source, L: Ledger, E: PipeEnd>(
    alloc: Global,
    interface: &Interface,
    types: &[TypeId],
    intake: &mut Intake<'_>,
    source: &mut S,
    ends: &mut Ends<E>,
    items: &mut ItemLog,
    steps: &mut Steps<L>,
) -> Result<(), DrainFault>
    requires tied { (intake_seen intake.old).interface ≡ interface.now }
    requires reading { (intake_seen intake.old).phase ≡ Reading }
    requires ready { IsReady intake.old }
    requires first { OfSetting (intake_seen intake.old) (λ w. (intake_seen intake.old).spot.root ≡ before_pipes (root_list w)) }
    requires all { OfSetting (intake_seen intake.old) (λ w. (intake_seen intake.old).left ≡ length (root_list w) - before_pipes (root_list w)) }
    requires types { OfSetting (intake_seen intake.old) (λ w. AreElements w (map (λ t. t.0) types.now)) }
    requires open { AreOpenFrom 0 (ends_seen E.seen ends.old) }
    requires enough { length types.now ≤ length (ends_seen E.seen ends.old) }
    requires few { length types.now < 2 ^ 32 }
    ensures passed { IfOk result (λ _. OfSetting (intake_seen intake.old) (λ w. IsUnderWay w (intake_seen intake.old) (intake_seen intake.new)
        (source_over S.seen source.old source.new) (ends_over E.seen ends.old ends.new)
        (decoding_seen items.old items.new (L.number steps.old) (L.number steps.new)))) }
    ensures ready { OnOk result (IsReady intake.new) }
    ensures reading { OnOk result ((intake_seen intake.new).phase ≡ Reading) }
    ensures none_left { OnOk result ((intake_seen intake.new).left ≡ 0) }
    ensures cause { IfErr result (λ f. OfSetting (intake_seen intake.old) (λ w. StopsUnderWay w (intake_seen intake.old)
        (source_over S.seen source.old source.new) (ends_over E.seen ends.old ends.new)
        (decoding_seen items.old items.new (L.number steps.old) (L.number steps.new)) f)) }
    ensures later { (S.seen source.old).faults ≤ (S.seen source.new).faults }
{
    'pipes: while intake.pipes_left() > 0 {
        let left = intake.pipes_left() as usize;
        let which = types.len() - left;
        drain_chunk(
            alloc,
            interface,
            types[which],
            which as u32,
            intake,
            source,
            ends,
            items,
            steps,
        )?;
    }
    Ok(())
}
