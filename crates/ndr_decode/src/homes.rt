// The value of a home.
ghost use Rattle.std.specs.Prelude.{◌≡◌, ◌≤◌, ℕ, List, OnOk};
ghost use Rattle.nd_base.specs.Over.{source_over};
ghost use Rattle.nd_value.specs.declared.item.Item.{Item};
ghost use Rattle.ndr_decoder_laws.specs.runs.Reaching.{IsSafe, Reaches};
ghost use Rattle.ndr_decoder_value.specs.Reaching.{Ends};
ghost use Rattle.ndr_decoder_state.specs.Notes.{notes_seen};
ghost use Rattle.ndr_decoder_state.specs.Seen.{outside, state_of};
ghost use Rattle.ndr_decoder_laws.specs.steps.Steps.{State};

use nd_base::{Intake, Ledger, Order, Source, Steps};
use nd_value::ItemLog;
use ndr_code::Plan;
use ndr_decoder_state::{DecodeFault, Machine};
use ndr_decoder_value::run;

// Reads the value of the home that was opened, by the code of a plan.
#[inline(always)]
pub fn read_home<S: Source, L: Ledger>(
    plan: &Plan,
    order: Order,
    machine: &mut Machine,
    intake: &mut Intake,
    source: &mut S,
    items: &mut ItemLog,
    steps: &mut Steps<L>,
) -> Result<(), DecodeFault>
    requires safe { (fetched : List ℕ) (noted : List Item) (s : State)
        → Reaches plan.now.values order plan.now.code machine.old.home (state_of machine.old) fetched noted s → IsSafe plan.now.code s }
    ensures ends { Ends plan.now.values order plan.now.code machine.old.home (state_of machine.old)
        (source_over S.Source.seen source.old source.new)
        (notes_seen items.old items.new (L.number steps.old) (L.number steps.new) machine.old.cells machine.new.cells) (state_of machine.new) result }
    ensures outside { OnOk result (outside machine.new ≡ outside machine.old) }
    ensures later { (S.Source.seen source.old).faults ≤ (S.Source.seen source.new).faults }
{
    run(
        order,
        &plan.code,
        &plan.values,
        machine,
        intake,
        source,
        items,
        steps,
    )
}
