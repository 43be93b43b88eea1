// Lists of numbers, put into a builder as rows.
ghost use Rattle.std.specs.Prelude.{◌≡◌, ◌<◌, ◌≤◌, ◌++◌, ◌^◌, length, OnOk, IfOk, IfSome, IsTrue};
ghost use Rattle.nd_base.specs.declared.octets.Order.TheVariants.{Little};
ghost use Rattle.nd_types.specs.Number.{written};
ghost use Rattle.nd_types.specs.Table.{in_range};
ghost use Rattle.nd_value.specs.Tree.{trees};
ghost use Rattle.nd_value.specs.Seen.{tree_of};
ghost use Rattle.nd_flat.specs.Built.{Adds};
ghost use Rattle.nd_fit.specs.Numbers.{IsNumberOf, AreNumbersOf, number_of, numbers_of, written_all};

use nd_base::{Memory, Octets, Order};
use nd_flat::{Builder, Row};
use nd_types::Prim;
use nd_value::{Val, Vals};
use ndr_prim::{is_in_range, width_of, write_num};
use std::alloc::Global;

// A primitive of which all values of a list are numbers, one of the narrowest; none where there is none, or no value.
pub(crate) fn primitive_of(vals: &Vals) -> Option<Prim>
    ensures numbers { IfSome result (λ p. AreNumbersOf p vals.now) }
    ensures some { IfSome result (λ p. 0 < length vals.now) }
{
    if vals.len() == 0 {
        return None;
    }
    first_of(
        vals,
        &[
            Prim::Byte,
            Prim::Small,
            Prim::UnsignedShort,
            Prim::Short,
            Prim::UnsignedLong,
            Prim::Long,
            Prim::UnsignedHyper,
            Prim::Hyper,
        ],
    )
}

// The first of these primitives of which all values of a list are numbers.
fn first_of(vals: &Vals, prims: &[Prim]) -> Option<Prim>
    ensures { IfSome result (λ p. AreNumbersOf p vals.now) }
{
    for prim in prims {
        if are_numbers_of(vals, *prim) {
            return Some(*prim);
        }
    }
    None
}

// Whether all values of a list are numbers of a primitive.
fn are_numbers_of(vals: &Vals, prim: Prim) -> bool
    ensures { IsTrue result → AreNumbersOf prim vals.now }
{
    for at in 0..vals.len() {
        let Some(val) = vals.get(at) else {
            unreachable!()
        };
        if !is_number_of(val, prim) {
            return false;
        }
    }
    true
}

// Whether a value is a number of a primitive.
fn is_number_of(val: &Val, prim: Prim) -> bool
    ensures { IsTrue result → IsNumberOf prim (tree_of val.now) }
{
    match val {
        Val::Num(number) => is_in_range(prim, *number),
        _ => false,
    }
}

// Adds numbers of a primitive to the nodes of the open home, as a row. Running out of memory is the only refusal.
pub(crate) fn add_numbers(
    alloc: Global,
    builder: &mut Builder,
    vals: &Vals,
    prim: Prim,
) -> Result<(), Memory>
    requires numbers { AreNumbersOf prim vals.now }
    requires some { 0 < length vals.now }
    requires few { length vals.now < 2 ^ 32 }
    ensures { OnOk result (Adds (trees vals.now) builder.old builder.new) }
{
    let octets = written_numbers(alloc, vals, prim)?;
    builder.row(&Row {
        order: Order::Little,
        of: prim,
        count: vals.len() as u32,
        octets: octets.as_slice(),
    })
}

// The octets of numbers of a primitive, one after the other, little-endian.
fn written_numbers(alloc: Global, vals: &Vals, prim: Prim) -> Result<Octets, Memory>
    requires { AreNumbersOf prim vals.now }
    ensures { IfOk result (λ os. os ≡ written_all prim (numbers_of vals.now)) }
{
    let mut octets = Octets::new(alloc);
    octets.make_room(vals.len().saturating_mul(width_of(prim)));
    for at in 0..vals.len() {
        let Some(val) = vals.get(at) else {
            unreachable!()
        };
        append_number(&mut octets, number_of(val), prim)?;
    }
    Ok(octets)
}

// Appends the octets of a number.
fn append_number(octets: &mut Octets, number: i128, prim: Prim) -> Result<(), Memory>
    requires { IsTrue (in_range prim number) }
    ensures { OnOk result (octets.new ≡ octets.old ++ written Little prim number) }
{
    let mut piece = [0; 8];
    let to = &mut piece[..width_of(prim)];
    write_num(Order::Little, prim, number, to);
    octets.append(to)
}

// The number of a value; 0 where it is none.
fn number_of(val: &Val) -> i128
    ensures { result ≡ number_of (tree_of val.now) }
{
    match val {
        Val::Num(number) => *number,
        Val::Rec(_)
        | Val::Arr { .. }
        | Val::Text { .. }
        | Val::Union { .. }
        | Val::Ptr(_)
        | Val::Context { .. }
        | Val::Pipe(_) => 0,
    }
}
