// Unions.
ghost use Rattle.std.specs.Prelude.{◌≡◌, ◌<◌, ◌+◌, ◌^◌, ◌==◌, length, OnOk};
ghost use Rattle.nd_types.specs.Table.{width};
ghost use Rattle.ndr_code.specs.Code.{enumerators};
ghost use Rattle.ndr_decoder_laws.specs.steps.Steps.{goes, arm_taken, tag_step, form_by};
ghost use Rattle.ndr_decoder_state.specs.Seen.{state_of, Does, outside};
ghost use Rattle.ndr_decoder_laws.specs.steps.StepItems.{tag_items};
ghost use Rattle.ndr_decoder_state.specs.Notes.{Noted, notes_seen};

use crate::enumerators::{carrier_of, is_enumerator};
use nd_base::{Ledger, Order, Steps};
use nd_flat::Seen;
use nd_grammar::Reason;
use nd_types::TypeId;
use nd_value::{ItemKind, ItemLog};
use ndr_code::EnumLists;
use ndr_decoder_laws::Frame;
use ndr_decoder_state::{DecodeFault, Machine, read_value};
use ndr_prim::width_of;

// `tag`: the tag is known, and its item is whole where its arm is.
pub(crate) fn tag(
    machine: &mut Machine,
    order: Order,
    octets: &[u8],
    values: &EnumLists,
    of: TypeId,
) -> Result<(), DecodeFault>
    requires wide { length octets.now ≡ width (form_by of.0 (enumerators values.now of.0)).prim }
    requires code { machine.old.pc < 2 ^ 32 }
    ensures does { Does (tag_step values.now order octets.now (form_by of.0 (enumerators values.now of.0)) (state_of machine.old)) result
        (state_of machine.new) }
    ensures outside { OnOk result (outside machine.new ≡ outside machine.old) }
{
    let carrier = carrier_of(values, of);
    let value = read_value(order, carrier, octets);
    if !is_enumerator(values, of, value) {
        return Err(DecodeFault::Bad {
            place: machine.at,
            reason: Reason::EnumValue,
        });
    }
    machine.tag = value;
    machine.carrier = carrier;
    machine.skip();
    Ok(())
}

// `arm`, of a label that is the tag, and `other`. The run 0 is the empty arm.
pub(crate) fn arm<L: Ledger>(
    machine: &mut Machine,
    run: u32,
    items: &mut ItemLog,
    steps: &mut Steps<L>,
) -> Result<(), DecodeFault>
    requires fits { machine.old.at + 8 < 2 ^ 32 }
    requires few { machine.old.count + 1 < 2 ^ 32 }
    ensures does { Does (goes (arm_taken (run == 0) run (state_of machine.old))) result (state_of machine.new) }
    ensures noted { Noted (goes (arm_taken (run == 0) run (state_of machine.old))) (tag_items machine.old.home (state_of machine.old))
        (notes_seen items.old items.new (L.number steps.old) (L.number steps.new) machine.old.cells machine.new.cells) result }
    ensures outside { OnOk result (outside machine.new ≡ outside machine.old) }
{
    let len = width_of(machine.carrier) as u32;
    machine.note(ItemKind::Tag, len, machine.tag, items, steps)?;
    let node = Seen::Union {
        tag: machine.tag,
        armed: run != 0,
    };
    machine.add(&node, Some(machine.at))?;
    machine.at += len;
    enter_arm(machine, run)
}

// Goes to the run of an arm, if it is not the empty one.
fn enter_arm(machine: &mut Machine, run: u32) -> Result<(), DecodeFault>
    ensures does { Does (goes (arm_entered run (state_of machine.old))) result (state_of machine.new) }
    ensures outside { OnOk result (outside machine.new ≡ outside machine.old) }
{
    if run == 0 {
        machine.jump(0);
        return Ok(());
    }
    machine.push(Frame::Elements {
        left: 0,
        run,
        back: 1,
    })?;
    machine.jump(run as usize);
    Ok(())
}

ghost use Rattle.ndr_decoder_value.specs.Parts.{arm_entered};
