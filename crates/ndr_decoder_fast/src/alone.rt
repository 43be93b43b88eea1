// Gaps, numbers and pointers by themselves.
ghost use Rattle.std.specs.Prelude.{◌≡◌, ◌<◌, ◌≤◌, ◌+◌, ◌^◌, ℕ, true, length, None, OnOk, Ok};
ghost use Rattle.nd_base.specs.Over.{source_over};
ghost use Rattle.nd_base.specs.declared.TheConstants.{STREAM_LIMIT};
ghost use Rattle.nd_base.specs.declared.octets.Order.{Order as OrderValue};
ghost use Rattle.nd_types.specs.Number.{value_of_octets};
ghost use Rattle.nd_types.specs.Table.{width};
ghost use Rattle.nd_value.specs.Tree as tree;
ghost use Rattle.ndr_code.specs.declared.instr.Instr.TheVariants as op;
ghost use Rattle.ndr_decoder_laws.specs.declared.frame.Frame.TheVariants as frame;
ghost use Rattle.ndr_decoder_laws.specs.steps.Steps.{with_node};
ghost use Rattle.ndr_decoder_state.specs.Seen.{outside, state_of};
ghost use Rattle.ndr_decoder_fast.specs.Leaps.{TakesStep};

use crate::fields::gap_to;
use crate::forms::take_form;
use crate::octets::at_hand;
use nd_base::{Ledger, Memory, Order, STREAM_LIMIT, Source, Steps};
use nd_flat::Seen;
use nd_types::{Class, Prim, TypeId};
use ndr_code::{Form, Instr, form_width, prim_of};
use ndr_decoder_laws::{First, Frame};
use ndr_decoder_state::{Machine, read_value};

// So many octets a gap, a number or a pointer has at most.
const MOST: u32 = 8;

/// One step of a gap, a number or a pointer, if its octets are at hand. Numbers that are elements of an array are left to rows, and full pointers and
/// those that are in a struct or an array to others.
#[inline(always)]
pub fn leap_alone<S: Source, L: Ledger>(
    machine: &mut Machine,
    order: Order,
    instr: Instr,
    source: &mut S,
    steps: &mut Steps<L>,
) -> Result<bool, Memory>
    requires code { machine.old.pc < 2 ^ 32 }
    requires within { machine.old.at ≤ STREAM_LIMIT }
    requires few { machine.old.count + 1 < 2 ^ 32 }
    requires cells { machine.old.cells + 1 < 2 ^ 32 }
    ensures takes { TakesStep order instr (state_of machine.old) (source_over S.Source.seen source.old source.new)
        (L.number steps.old) (L.number steps.new) (state_of machine.new) result }
    ensures outside { OnOk result (outside machine.new ≡ outside machine.old) }
    ensures faults { (S.Source.seen source.new).faults ≡ (S.Source.seen source.old).faults }
{
    match instr {
        Instr::Align { to } => Ok(take_gap(machine, to, source)),
        Instr::Num { of } => {
            if is_element(machine) {
                return Ok(false);
            }
            take_number(machine, order, of, source, steps)
        }
        Instr::Pointer { class, to, run } => {
            take_pointer(machine, order, class, to, run, source, steps)
        }
        _ => Ok(false),
    }
}

// Whether what is read next is an element of an array.
#[inline(always)]
fn is_element(machine: &Machine) -> bool {
    match machine.top {
        Frame::Elements {
            left: _,
            run: _,
            back: _,
        } => true,
        Frame::Home | Frame::Record { back: _, first: _ } => false,
    }
}

// A gap.
#[inline(never)]
fn take_gap<S: Source>(machine: &mut Machine, to: u8, source: &mut S) -> bool
    requires code { machine.old.pc < 2 ^ 32 }
    requires within { machine.old.at ≤ STREAM_LIMIT }
    ensures takes { (order : OrderValue) (steps : ℕ) → TakesStep order (op.Align to) (state_of machine.old)
        (source_over S.Source.seen source.old source.new) steps steps (state_of machine.new) (Ok result) }
    ensures outside { outside machine.new ≡ outside machine.old }
    ensures faults { (S.Source.seen source.new).faults ≡ (S.Source.seen source.old).faults }
{
    let gap = gap_to(machine.at, to);
    if gap > MOST {
        return false;
    }
    let mut buffer = [0; MOST as usize];
    if !at_hand(source, &mut buffer[..gap as usize]) {
        return false;
    }
    machine.pass(gap);
    true
}

// A number.
#[inline(never)]
fn take_number<S: Source, L: Ledger>(
    machine: &mut Machine,
    order: Order,
    of: TypeId,
    source: &mut S,
    steps: &mut Steps<L>,
) -> Result<bool, Memory>
    requires code { machine.old.pc < 2 ^ 32 }
    requires within { machine.old.at ≤ STREAM_LIMIT }
    requires few { machine.old.count + 1 < 2 ^ 32 }
    ensures takes { TakesStep order (op.Num of) (state_of machine.old)
        (source_over S.Source.seen source.old source.new) (L.number steps.old) (L.number steps.new)
        (state_of machine.new) result }
    ensures outside { OnOk result (outside machine.new ≡ outside machine.old) }
    ensures faults { (S.Source.seen source.new).faults ≡ (S.Source.seen source.old).faults }
{
    let left = STREAM_LIMIT - machine.at;
    if left < MOST {
        return Ok(false);
    }
    let prim = prim_of(of.0);
    let wide = form_width(Form::Number(prim));
    let mut buffer = [0; MOST as usize];
    let octets = &mut buffer[..wide as usize];
    if !at_hand(source, octets) {
        return Ok(false);
    }
    add_number(machine, order, prim, octets)?;
    steps.tick();
    machine.pass(wide);
    Ok(true)
}

// The node of a number by its octets.
#[inline(always)]
fn add_number(machine: &mut Machine, order: Order, prim: Prim, octets: &[u8]) -> Result<(), Memory>
    requires wide { length octets.now ≡ width prim }
    requires few { machine.old.count + 1 < 2 ^ 32 }
    ensures ok { OnOk result
        (state_of machine.new ≡ with_node (tree.Num (value_of_octets order prim octets.now), 0) None (state_of machine.old)) }
    ensures outside { OnOk result (outside machine.new ≡ outside machine.old) }
{
    machine.add_node(&Seen::Num(read_value(order, prim, octets)), None)
}

// A pointer that is a home of its own and not full.
#[inline(never)]
fn take_pointer<S: Source, L: Ledger>(
    machine: &mut Machine,
    order: Order,
    class: Class,
    to: TypeId,
    run: u32,
    source: &mut S,
    steps: &mut Steps<L>,
) -> Result<bool, Memory>
    requires code { machine.old.pc < 2 ^ 32 }
    requires within { machine.old.at ≤ STREAM_LIMIT }
    requires few { machine.old.count + 1 < 2 ^ 32 }
    requires cells { machine.old.cells + 1 < 2 ^ 32 }
    ensures takes { TakesStep order (op.Pointer class to run) (state_of machine.old)
        (source_over S.Source.seen source.old source.new) (L.number steps.old) (L.number steps.new)
        (state_of machine.new) result }
    ensures outside { OnOk result (outside machine.new ≡ outside machine.old) }
    ensures faults { (S.Source.seen source.new).faults ≡ (S.Source.seen source.old).faults }
{
    if !is_alone(machine, class) {
        return Ok(false);
    }
    let left = STREAM_LIMIT - machine.at;
    if left < MOST {
        return Ok(false);
    }
    let mut octets = [0; 4];
    if !at_hand(source, &mut octets) {
        return Ok(false);
    }
    take_form(
        machine,
        order,
        Form::Pointer { class, to, run },
        &octets,
        steps,
    )?;
    machine.own = Some(First::Pointer);
    steps.tick();
    machine.pass(4);
    Ok(true)
}

// Whether a pointer of this class that is read next is a home of its own and not full.
#[inline(always)]
fn is_alone(machine: &Machine, class: Class) -> bool
    ensures home { result ≡ true → machine.now.top ≡ frame.Home }
    ensures other { result ≡ true → class ≡ Full → ⊥ }
{
    match (machine.top, class) {
        (Frame::Home, Class::Ref | Class::Unique) => true,
        _ => false,
    }
}

ghost use Rattle.nd_types.specs.declared.types.Class.TheVariants.{Full};
