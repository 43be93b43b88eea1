// Strings.
ghost use Rattle.std.specs.Prelude.{◌≡◌, ◌<◌, ◌+◌, ◌^◌, length, pos, [], ◌∷◌, OnOk};
ghost use Rattle.nd_grammar.specs.Refusal.{text_refusal};
ghost use Rattle.ndr_decoder_laws.specs.steps.Steps.{text_by, text_done};
ghost use Rattle.ndr_decoder_state.specs.Seen.{state_of, Does, phase_of, outside};
ghost use Rattle.nd_value.specs.declared.item.ItemKind.TheVariants as item;
ghost use Rattle.ndr_decoder_laws.specs.steps.StepItems.{next_item, text_items};
ghost use Rattle.ndr_decoder_state.specs.Notes.{Noted, notes_seen};

use crate::arrays::count_read;
use nd_base::{Ledger, Order, Steps};
use nd_flat::Seen;
use nd_grammar::Reason;
use nd_value::{ItemKind, ItemLog};
use ndr_decoder_fast::refused_text;
use ndr_decoder_state::{DecodeFault, Machine, Phase, read_count};

// `text`: the offset, the actual count, and then the octets
pub(crate) fn text<L: Ledger>(
    machine: &mut Machine,
    order: Order,
    octets: &[u8],
    limit: u32,
    items: &mut ItemLog,
    steps: &mut Steps<L>,
) -> Result<(), DecodeFault>
    requires wide { TextWanted (phase_of machine.old.phase) (length octets.now) }
    requires code { machine.old.pc < 2 ^ 32 }
    requires fits { machine.old.at + length octets.now < 2 ^ 32 }
    requires few { machine.old.count + 1 < 2 ^ 32 }
    ensures does { Does (text_by [] order octets.now (phase_of machine.old.phase) limit (state_of machine.old)) result (state_of machine.new) }
    ensures noted { Noted (text_by [] order octets.now (phase_of machine.old.phase) limit (state_of machine.old))
        (text_items order machine.old.home octets.now (phase_of machine.old.phase) (state_of machine.old))
        (notes_seen items.old items.new (L.number steps.old) (L.number steps.new) machine.old.cells machine.new.cells) result }
    ensures outside { OnOk result (outside machine.new ≡ outside machine.old) }
{
    match machine.phase {
        Phase::CountRead(_) => text_octets(machine, octets, limit, items, steps),
        Phase::OffsetRead(_) => text_count(machine, read_count(order, octets), limit, items, steps),
        Phase::Begun | Phase::GapRead => text_offset(
            machine,
            read_count(order, octets),
            items,
            steps,
        ),
    }
}

// The offset of a string.
fn text_offset<L: Ledger>(
    machine: &mut Machine,
    offset: u32,
    items: &mut ItemLog,
    steps: &mut Steps<L>,
) -> Result<(), DecodeFault>
    requires fits { machine.old.at + 4 < 2 ^ 32 }
    ensures does { Does (text_offset_read offset (state_of machine.old)) result (state_of machine.new) }
    ensures noted { Noted (text_offset_read offset (state_of machine.old))
        (next_item machine.old.home (state_of machine.old) item.Offset 4 (pos offset) ∷ [])
        (notes_seen items.old items.new (L.number steps.old) (L.number steps.new) machine.old.cells machine.new.cells) result }
    ensures outside { OnOk result (outside machine.new ≡ outside machine.old) }
{
    if offset != 0 {
        return Err(DecodeFault::Bad {
            place: machine.at,
            reason: Reason::TextOffset,
        });
    }
    count_read(
        machine,
        ItemKind::Offset,
        offset,
        Phase::OffsetRead(0),
        items,
        steps,
    )
}

// The actual count of a string.
fn text_count<L: Ledger>(
    machine: &mut Machine,
    count: u32,
    limit: u32,
    items: &mut ItemLog,
    steps: &mut Steps<L>,
) -> Result<(), DecodeFault>
    requires fits { machine.old.at + 4 < 2 ^ 32 }
    ensures does { Does (text_count_read count limit (state_of machine.old)) result (state_of machine.new) }
    ensures noted { Noted (text_count_read count limit (state_of machine.old))
        (next_item machine.old.home (state_of machine.old) item.Actual 4 (pos count) ∷ [])
        (notes_seen items.old items.new (L.number steps.old) (L.number steps.new) machine.old.cells machine.new.cells) result }
    ensures outside { OnOk result (outside machine.new ≡ outside machine.old) }
{
    if count == 0 {
        return Err(DecodeFault::Bad {
            place: machine.at,
            reason: Reason::TextEmpty,
        });
    }
    if limit < count {
        return Err(DecodeFault::Bad {
            place: machine.at,
            reason: Reason::PastBound,
        });
    }
    count_read(
        machine,
        ItemKind::Actual,
        count,
        Phase::CountRead(count - 1),
        items,
        steps,
    )
}

// The octets of a string with the terminator.
fn text_octets<L: Ledger>(
    machine: &mut Machine,
    octets: &[u8],
    limit: u32,
    items: &mut ItemLog,
    steps: &mut Steps<L>,
) -> Result<(), DecodeFault>
    requires some { 0 < length octets.now }
    requires code { machine.old.pc < 2 ^ 32 }
    requires fits { machine.old.at + length octets.now < 2 ^ 32 }
    requires few { machine.old.count + 1 < 2 ^ 32 }
    ensures does { Does (text_done (text_refusal machine.old.at octets.now) limit octets.now (state_of machine.old)) result (state_of machine.new) }
    ensures noted { Noted (text_done (text_refusal machine.old.at octets.now) limit octets.now (state_of machine.old))
        (next_item machine.old.home (state_of machine.old) item.Text (length octets.now) (pos (length octets.now)) ∷ [])
        (notes_seen items.old items.new (L.number steps.old) (L.number steps.new) machine.old.cells machine.new.cells) result }
    ensures outside { OnOk result (outside machine.new ≡ outside machine.old) }
{
    if let Some((place, reason)) = refused_text(machine.at, octets) {
        return Err(DecodeFault::Bad { place, reason });
    }
    let len = octets.len();
    machine.note(ItemKind::Text, len as u32, len as i128, items, steps)?;
    let node = Seen::Text {
        max: limit,
        octets: &octets[..len - 1],
    };
    machine.add(&node, Some(machine.at.saturating_sub(4)))?;
    machine.pass(len as u32);
    Ok(())
}

ghost use Rattle.ndr_decoder_value.specs.Parts.{text_offset_read, text_count_read, TextWanted};
