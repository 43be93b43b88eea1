// Structs of numbers and pointers.
ghost use Rattle.std.specs.Prelude.{◌≡◌, ◌<◌, ◌≤◌, ◌^◌, ◌+◌, ℕ, List, Some, length, slice_get, true, OnOk, OnErr, IfSome};
ghost use Rattle.nd_base.specs.Over.{source_over};
ghost use Rattle.nd_base.specs.declared.TheConstants.{STREAM_LIMIT};
ghost use Rattle.nd_value.specs.declared.item.Item.{Item};
ghost use Rattle.nd_grammar.specs.Entry.{gap as gap_by};
ghost use Rattle.ndr_code.specs.declared.instr.Instr.TheVariants as op;
ghost use Rattle.nd_types.specs.Number.{AreOctets};
ghost use Rattle.ndr_decoder_laws.specs.steps.Steps.{State};
ghost use Rattle.ndr_decoder_laws.specs.runs.Reaching.{IsSafe, Reaches};
ghost use Rattle.ndr_decoder_state.specs.Seen.{outside, state_of};
ghost use Rattle.ndr_decoder_fast.specs.Leaps.{Leaps, LeapsOrGivesUp};
ghost use Rattle.ndr_decoder_fast.specs.declared.structs.TheConstants.{MOST};
ghost use Rattle.ndr_code.specs.Lengths.{HasFields, field_len};
ghost use Rattle.ndr_decoder_fast.specs.Structs.{IsLevel, StructRead, field_read};

use crate::LeapFault;
use crate::fields::gap_to;
use crate::forms::take_form;
use crate::octets::at_hand;
use nd_base::{Ledger, Memory, Order, STREAM_LIMIT, Source, Steps};
use nd_flat::Seen;
use ndr_code::{Code, EnumLists, Field, form_width};
use ndr_decoder_laws::Frame;
use ndr_decoder_state::Machine;

/// A struct of numbers and of unique and reference pointers, up to its `close`.
#[inline(always)]
pub fn leap_struct<S: Source, L: Ledger>(
    machine: &mut Machine,
    order: Order,
    code: &Code,
    members: u32,
    values: &EnumLists,
    source: &mut S,
    steps: &mut Steps<L>,
) -> Result<bool, LeapFault>
    requires short { length code.now < 2 ^ 32 }
    requires here { slice_get code.now machine.old.pc ≡ Some (op.Record members) }
    requires safe { (fetched : List ℕ) (noted : List Item) (s : State)
        → Reaches values.now order code.now machine.old.home (state_of machine.old) fetched noted s → IsSafe code.now s }
    ensures leaps { Leaps values.now order code.now machine.old.home (state_of machine.old)
        (source_over S.Source.seen source.old source.new) (L.number steps.old) (L.number steps.new)
        (state_of machine.new) result }
    ensures outside { OnOk result (outside machine.new ≡ outside machine.old) }
    ensures later { (S.Source.seen source.old).faults ≤ (S.Source.seen source.new).faults }
{
    let leapt = try_struct(machine, order, code, members, values, source, steps)?;
    Ok(leapt)
}

// The same, where nothing but memory can fail. It is apart, so that what calls it stays small.
#[inline(never)]
fn try_struct<S: Source, L: Ledger>(
    machine: &mut Machine,
    order: Order,
    code: &Code,
    members: u32,
    values: &EnumLists,
    source: &mut S,
    steps: &mut Steps<L>,
) -> Result<bool, Memory>
    requires short { length code.now < 2 ^ 32 }
    requires here { slice_get code.now machine.old.pc ≡ Some (op.Record members) }
    requires safe { (fetched : List ℕ) (noted : List Item) (s : State)
        → Reaches values.now order code.now machine.old.home (state_of machine.old) fetched noted s → IsSafe code.now s }
    ensures leaps { LeapsOrGivesUp values.now order code.now machine.old.home (state_of machine.old)
        (source_over S.Source.seen source.old source.new) (L.number steps.old) (L.number steps.new)
        (state_of machine.new) result }
    ensures outside { OnOk result (outside machine.new ≡ outside machine.old) }
    ensures later { (S.Source.seen source.old).faults ≤ (S.Source.seen source.new).faults }
{
    if !is_level(machine) || STREAM_LIMIT - machine.at < MOST {
        return Ok(false);
    }
    let Some(len) = code.struct_len(machine.pc, machine.at, members) else {
        return Ok(false);
    };
    let mut buffer = [0; MOST as usize];
    let octets = &mut buffer[..len as usize];
    if !at_hand(source, octets) {
        return Ok(false);
    }
    read_struct(machine, order, code, members, values, octets, steps)?;
    Ok(true)
}

// So many octets a struct may have that is taken in one go.
const MOST: u32 = 64;

// Whether what is kept of a struct that begins here is one for each member around it.
#[inline(always)]
fn is_level(machine: &Machine) -> bool
    ensures { result ≡ true → IsLevel (state_of machine.now) }
{
    let firsts = machine.firsts.len();
    let members = machine.members.len();
    match machine.top {
        Frame::Record { back: _, first: _ } => members == firsts + 1,
        Frame::Home
        | Frame::Elements {
            left: _,
            run: _,
            back: _,
        } => members == firsts,
    }
}

// A struct whose octets have come. Out of memory is the only refusal; then nothing is known of the machine.
#[inline(always)]
fn read_struct<L: Ledger>(
    machine: &mut Machine,
    order: Order,
    code: &Code,
    members: u32,
    values: &EnumLists,
    octets: &[u8],
    steps: &mut Steps<L>,
) -> Result<(), Memory>
    requires short { length code.now < 2 ^ 32 }
    requires here { slice_get code.now machine.old.pc ≡ Some (op.Record members) }
    requires level { IsLevel (state_of machine.old) }
    requires fields { HasFields code.now (machine.old.pc + 1) machine.old.at members (length octets.now) }
    requires within { machine.old.at + length octets.now ≤ STREAM_LIMIT }
    requires octets { AreOctets octets.now }
    requires safe { (fetched : List ℕ) (noted : List Item) (s : State)
        → Reaches values.now order code.now machine.old.home (state_of machine.old) fetched noted s → IsSafe code.now s }
    ensures read { StructRead values.now order code.now machine.old.home (state_of machine.old) (L.number steps.old) octets.now (L.number steps.new)
        (state_of machine.new) result }
    ensures outside { OnOk result (outside machine.new ≡ outside machine.old) }
{
    machine.add_node(&Seen::Rec(members), None)?;
    machine.pc += 1;
    let mut from = 0;
    let mut left = members;
    while left > 0 {
        let Some(field) = code.field(machine.pc) else {
            unreachable!()
        };
        let gap = gap_to(machine.at, field.to);
        let end = from + (gap + form_width(field.form)) as usize;
        take_field(machine, order, field, gap, &octets[from..end], steps)?;
        from = end;
        left -= 1;
    }
    machine.skip();
    Ok(())
}

// A member by the octets of its gap, which has so many, and of what it is. It is counted. Out of memory is the only refusal; then nothing is known of
// the machine.
#[inline(always)]
fn take_field<L: Ledger>(
    machine: &mut Machine,
    order: Order,
    field: Field,
    gap: u32,
    octets: &[u8],
    steps: &mut Steps<L>,
) -> Result<(), Memory>
    requires gap { gap ≡ gap_by machine.old.at field.to }
    requires wide { length octets.now ≡ field_len machine.old.at field }
    requires code { machine.old.pc < 2 ^ 32 }
    requires fits { machine.old.at + length octets.now < 2 ^ 32 }
    requires few { machine.old.count + 1 < 2 ^ 32 }
    requires cells { machine.old.cells + 1 < 2 ^ 32 }
    ensures ok { OnOk result (state_of machine.new ≡ field_read order field octets.now (state_of machine.old)) }
    ensures counted { OnOk result
        (L.number steps.new + length (state_of machine.old).cells ≡ L.number steps.old + 1 + length (state_of machine.new).cells) }
    ensures idle { OnErr result
        (L.number steps.new + length (state_of machine.old).cells ≤ L.number steps.old + length
        (field_read order field octets.now (state_of machine.old)).cells) }
    ensures outside { OnOk result (outside machine.new ≡ outside machine.old) }
{
    take_form(machine, order, field.form, &octets[gap as usize..], steps)?;
    steps.tick();
    machine.at += octets.len() as u32;
    machine.pc += 1;
    Ok(())
}
