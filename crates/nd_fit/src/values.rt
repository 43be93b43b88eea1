// Values, put into a builder node by node.
ghost use Rattle.std.specs.Prelude.{◌≡◌, ◌<◌, ◌^◌, OnOk};
ghost use Rattle.nd_value.specs.Tree.{more, none, trees, node_count, count};
ghost use Rattle.nd_flat.specs.FlatForm.{armed_count};
ghost use Rattle.nd_value.specs.Seen.{tree_of};
ghost use Rattle.nd_flat.specs.Keepable.{AreKeepable};
ghost use Rattle.nd_flat.specs.Built.{Adds};

use crate::numbers::{add_numbers, primitive_of};
use nd_base::Memory;
use nd_flat::{Builder, Seen};
use nd_value::{ArmVal, Val, Vals};
use std::alloc::Global;

// Adds the nodes of a value to those of the open home, depth first. Running out of memory is the only refusal.
#[cycle(values)]
pub(crate) fn add_value(alloc: Global, builder: &mut Builder, val: &Val) -> Result<(), Memory>
    requires few { node_count (more (tree_of val.now) none) < 2 ^ 32 }
    requires keepable { AreKeepable (more (tree_of val.now) none) }
    ensures { OnOk result (Adds (more (tree_of val.now) none) builder.old builder.new) }
{
    match val {
        Val::Num(number) => builder.add(&Seen::Num(*number)),
        Val::Rec(vals) => {
            builder.add(&Seen::Rec(vals.len() as u32))?;
            add_values(alloc, builder, vals)
        }
        Val::Arr { max, offset, items } => {
            builder.add(&Seen::Arr {
                max: *max,
                offset: *offset,
                count: items.len() as u32,
            })?;
            add_elements(alloc, builder, items)
        }
        Val::Text { max, octets } => builder.add(&Seen::Text {
            max: *max,
            octets: octets.as_slice(),
        }),
        Val::Union { tag, arm: value } => {
            builder.add(&Seen::Union {
                tag: *tag,
                armed: is_armed(value),
            })?;
            add_arm(alloc, builder, value)
        }
        Val::Ptr(cell) => builder.add(&Seen::Ptr(*cell)),
        Val::Context { attributes, id } => builder.add(&Seen::Context {
            attributes: *attributes,
            id: *id,
        }),
        Val::Pipe(vals) => {
            builder.add(&Seen::Pipe(vals.len() as u32))?;
            add_elements(alloc, builder, vals)
        }
    }
}

// The same of the elements of an array or a pipe: as a row, where they are numbers of one primitive.
#[cycle(values)]
fn add_elements(alloc: Global, builder: &mut Builder, vals: &Vals) -> Result<(), Memory>
    requires few { node_count (trees vals.now) < 2 ^ 32 }
    requires keepable { AreKeepable (trees vals.now) }
    ensures { OnOk result (Adds (trees vals.now) builder.old builder.new) }
{
    match primitive_of(vals) {
        Some(prim) => add_numbers(alloc, builder, vals, prim),
        None => add_values(alloc, builder, vals),
    }
}

// The same of several values.
#[cycle(values)]
fn add_values(alloc: Global, builder: &mut Builder, vals: &Vals) -> Result<(), Memory>
    requires few { node_count (trees vals.now) < 2 ^ 32 }
    requires keepable { AreKeepable (trees vals.now) }
    ensures { OnOk result (Adds (trees vals.now) builder.old builder.new) }
{
    for at in 0..vals.len() {
        let Some(val) = vals.get(at) else {
            unreachable!()
        };
        add_value(alloc, builder, val)?;
    }
    Ok(())
}

// The same of the value of an arm, where it is there.
#[cycle(values)]
fn add_arm(alloc: Global, builder: &mut Builder, arm: &ArmVal) -> Result<(), Memory>
    requires few { node_count (trees arm.now) < 2 ^ 32 }
    requires keepable { AreKeepable (trees arm.now) }
    ensures { OnOk result (Adds (trees arm.now) builder.old builder.new) }
{
    match arm.get() {
        Some(val) => add_value(alloc, builder, val),
        None => Ok(()),
    }
}

// Whether the value of an arm is there.
fn is_armed(arm: &ArmVal) -> bool
    ensures { armed_count result ≡ count (trees arm.now) }
{
    match arm.get() {
        Some(_) => true,
        None => false,
    }
}
