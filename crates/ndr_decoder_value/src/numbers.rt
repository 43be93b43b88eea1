// Primitives, enumerated values and context handles.
ghost use Rattle.std.specs.Prelude.{◌≡◌, ◌<◌, ◌+◌, ◌^◌, None, length, pos, [], ◌∷◌, OnOk};
ghost use Rattle.nd_types.specs.Table.{width};
ghost use Rattle.nd_types.specs.declared.types.Primitive.TheVariants.{Short};
ghost use Rattle.ndr_code.specs.Code.{enumerators};
ghost use Rattle.ndr_decoder_laws.specs.steps.Steps.{number_step};
ghost use Rattle.ndr_decoder_state.specs.Seen.{state_of, Does, outside};
ghost use Rattle.nd_value.specs.declared.item.ItemKind.TheVariants as item;
ghost use Rattle.ndr_decoder_laws.specs.steps.StepItems.{next_item, number_items};
ghost use Rattle.ndr_decoder_state.specs.Notes.{Noted, notes_seen};

use crate::enumerators::is_enumerator;
use nd_base::{Ledger, Order, Steps};
use nd_flat::Seen;
use nd_grammar::Reason;
use nd_types::{Prim, TypeId};
use nd_value::{ItemKind, ItemLog};
use ndr_code::EnumLists;
use ndr_decoder_state::{DecodeFault, Machine, read_value};
use ndr_prim::{read_context, width_of};

// `num`
#[inline(always)]
pub(crate) fn number<L: Ledger>(
    machine: &mut Machine,
    order: Order,
    octets: &[u8],
    prim: Prim,
    items: &mut ItemLog,
    steps: &mut Steps<L>,
) -> Result<(), DecodeFault>
    requires wide { length octets.now ≡ width prim }
    requires code { machine.old.pc < 2 ^ 32 }
    requires fits { machine.old.at + length octets.now < 2 ^ 32 }
    requires few { machine.old.count + 1 < 2 ^ 32 }
    ensures does { Does (number_step [] order octets.now prim None (state_of machine.old)) result (state_of machine.new) }
    ensures noted { Noted (number_step [] order octets.now prim None (state_of machine.old))
        (number_items order machine.old.home octets.now prim (state_of machine.old))
        (notes_seen items.old items.new (L.number steps.old) (L.number steps.new) machine.old.cells machine.new.cells) result }
    ensures outside { OnOk result (outside machine.new ≡ outside machine.old) }
{
    let value = read_value(order, prim, octets);
    leaf(machine, width_of(prim) as u32, value, items, steps)
}

// `enum`
pub(crate) fn enumerated<L: Ledger>(
    machine: &mut Machine,
    order: Order,
    octets: &[u8],
    values: &EnumLists,
    of: TypeId,
    items: &mut ItemLog,
    steps: &mut Steps<L>,
) -> Result<(), DecodeFault>
    requires wide { length octets.now ≡ 2 }
    requires code { machine.old.pc < 2 ^ 32 }
    requires fits { machine.old.at + length octets.now < 2 ^ 32 }
    requires few { machine.old.count + 1 < 2 ^ 32 }
    ensures does { Does (number_step values.now order octets.now Short (enumerators values.now of.0) (state_of machine.old)) result
        (state_of machine.new) }
    ensures noted { Noted (number_step values.now order octets.now Short (enumerators values.now of.0) (state_of machine.old))
        (number_items order machine.old.home octets.now Short (state_of machine.old))
        (notes_seen items.old items.new (L.number steps.old) (L.number steps.new) machine.old.cells machine.new.cells) result }
    ensures outside { OnOk result (outside machine.new ≡ outside machine.old) }
{
    let value = read_value(order, Prim::Short, octets);
    if !is_enumerator(values, of, value) {
        return Err(DecodeFault::Bad {
            place: machine.at,
            reason: Reason::EnumValue,
        });
    }
    leaf(machine, 2, value, items, steps)
}

// A number of so many octets that is not refused.
#[inline(always)]
fn leaf<L: Ledger>(
    machine: &mut Machine,
    len: u32,
    value: i128,
    items: &mut ItemLog,
    steps: &mut Steps<L>,
) -> Result<(), DecodeFault>
    requires keepable { IsKeepableNumber value }
    requires code { machine.old.pc < 2 ^ 32 }
    requires fits { machine.old.at + len < 2 ^ 32 }
    requires few { machine.old.count + 1 < 2 ^ 32 }
    ensures does { Does (goes (done_after len (with_node (tree.Num value, 0) None (state_of machine.old)))) result (state_of machine.new) }
    ensures noted { Noted (goes (done_after len (with_node (tree.Num value, 0) None (state_of machine.old))))
        (next_item machine.old.home (state_of machine.old) item.Num len value ∷ [])
        (notes_seen items.old items.new (L.number steps.old) (L.number steps.new) machine.old.cells machine.new.cells) result }
    ensures outside { OnOk result (outside machine.new ≡ outside machine.old) }
{
    machine.note(ItemKind::Num, len, value, items, steps)?;
    machine.add(&Seen::Num(value), None)?;
    machine.pass(len);
    Ok(())
}

// `context`
pub(crate) fn context<L: Ledger>(
    machine: &mut Machine,
    order: Order,
    octets: &[u8],
    items: &mut ItemLog,
    steps: &mut Steps<L>,
) -> Result<(), DecodeFault>
    requires wide { length octets.now ≡ 20 }
    requires code { machine.old.pc < 2 ^ 32 }
    requires fits { machine.old.at + 20 < 2 ^ 32 }
    requires few { machine.old.count + 1 < 2 ^ 32 }
    ensures does { Does (context_read order octets.now (state_of machine.old)) result (state_of machine.new) }
    ensures noted { Noted (context_read order octets.now (state_of machine.old))
        (next_item machine.old.home (state_of machine.old) item.Context 20 (pos 0) ∷ [])
        (notes_seen items.old items.new (L.number steps.old) (L.number steps.new) machine.old.cells machine.new.cells) result }
    ensures outside { OnOk result (outside machine.new ≡ outside machine.old) }
{
    machine.note(ItemKind::Context, 20, 0, items, steps)?;
    let mut handle = [0; 20];
    handle.copy_from_slice(octets);
    let (attributes, id) = read_context(order, &handle);
    machine.add(&Seen::Context { attributes, id }, None)?;
    machine.pass(20);
    Ok(())
}

ghost use Rattle.nd_flat.specs.FlatForm.{IsKeepableNumber};
ghost use Rattle.ndr_decoder_value.specs.Parts.{context_read};
ghost use Rattle.nd_value.specs.Tree as tree;
ghost use Rattle.ndr_decoder_laws.specs.steps.Steps.{goes, done_after, with_node};
