// Which steps are taken in one go.
ghost use Rattle.std.specs.Prelude.{◌≡◌, ◌<◌, ◌≤◌, ◌^◌, ℕ, List, Some, length, slice_get, OnOk};
ghost use Rattle.nd_base.specs.Over.{source_over};
ghost use Rattle.nd_value.specs.declared.item.Item.{Item};
ghost use Rattle.ndr_code.specs.declared.instr.Instr.TheVariants as op;
ghost use Rattle.ndr_decoder_laws.specs.steps.Steps.{State};
ghost use Rattle.ndr_decoder_laws.specs.runs.Reaching.{IsSafe, Reaches};
ghost use Rattle.ndr_decoder_state.specs.Seen.{outside, state_of};
ghost use Rattle.ndr_decoder_fast.specs.Leaps.{Leaps};

use crate::LeapFault;
use crate::alone::leap_alone;
use crate::records::leap_records;
use crate::room::make_room;
use crate::strings::leap_string;
use crate::structs::leap_struct;
use nd_base::{Intake, Ledger, Order, Source, Steps};
use ndr_code::{Code, EnumLists, Form, Instr};
use ndr_decoder_laws::Frame;
use ndr_decoder_state::Machine;

/// Takes the steps of a struct of numbers and pointers, of such structs that are elements of an array, or of a string in one go, or the one step of a
/// gap, a number or a pointer, if the source has their octets at hand, and says whether it did. A struct with pointers has 64 octets at most and no
/// full pointer among its members, a string 256 octets with its terminator; a number by itself is no element of an array, and a pointer by itself is
/// the value of a home and not full. Else nothing is done. It notes nothing, so it is for a log that keeps nothing; each item but a gap, and each
/// cell that gets its number, is counted. At `Bad` steps were taken, and the octets of the next are refused; they were taken too. It takes memory for
/// what is read; after a fault nothing is known of the machine.
#[inline(always)]
pub fn leap<S: Source, L: Ledger>(
    machine: &mut Machine,
    order: Order,
    code: &Code,
    instr: Instr,
    values: &EnumLists,
    intake: &mut Intake,
    source: &mut S,
    steps: &mut Steps<L>,
) -> Result<bool, LeapFault>
    requires short { length code.now < 2 ^ 32 }
    requires here { slice_get code.now machine.old.pc ≡ Some instr }
    requires safe { (fetched : List ℕ) (noted : List Item) (s : State)
        → Reaches values.now order code.now machine.old.home (state_of machine.old) fetched noted s → IsSafe code.now s }
    ensures leaps { Leaps values.now order code.now machine.old.home (state_of machine.old)
        (source_over S.Source.seen source.old source.new) (L.number steps.old) (L.number steps.new)
        (state_of machine.new) result }
    ensures outside { OnOk result (outside machine.new ≡ outside machine.old) }
    ensures later { (S.Source.seen source.old).faults ≤ (S.Source.seen source.new).faults }
{
    match instr {
        Instr::Record { members } => leap_record(
            machine, order, code, members, values, intake, source, steps,
        ),
        Instr::Hoist => leap_string(machine, order, code, values, intake, source, steps),
        _ => leap_one(machine, order, code, instr, values, source, steps),
    }
}

// The same of a gap, a number or a pointer.
#[inline(always)]
fn leap_one<S: Source, L: Ledger>(
    machine: &mut Machine,
    order: Order,
    code: &Code,
    instr: Instr,
    values: &EnumLists,
    source: &mut S,
    steps: &mut Steps<L>,
) -> Result<bool, LeapFault>
    requires short { length code.now < 2 ^ 32 }
    requires here { slice_get code.now machine.old.pc ≡ Some instr }
    requires safe { (fetched : List ℕ) (noted : List Item) (s : State)
        → Reaches values.now order code.now machine.old.home (state_of machine.old) fetched noted s → IsSafe code.now s }
    ensures leaps { Leaps values.now order code.now machine.old.home (state_of machine.old)
        (source_over S.Source.seen source.old source.new) (L.number steps.old) (L.number steps.new)
        (state_of machine.new) result }
    ensures outside { OnOk result (outside machine.new ≡ outside machine.old) }
    ensures later { (S.Source.seen source.old).faults ≤ (S.Source.seen source.new).faults }
{
    let leapt = leap_alone(machine, order, instr, source, steps)?;
    Ok(leapt)
}

// The same of a struct, or of structs that are elements of an array.
#[inline(always)]
fn leap_record<S: Source, L: Ledger>(
    machine: &mut Machine,
    order: Order,
    code: &Code,
    members: u32,
    values: &EnumLists,
    intake: &mut Intake,
    source: &mut S,
    steps: &mut Steps<L>,
) -> Result<bool, LeapFault>
    requires short { length code.now < 2 ^ 32 }
    requires here { slice_get code.now machine.old.pc ≡ Some (op.Record members) }
    requires safe { (fetched : List ℕ) (noted : List Item) (s : State)
        → Reaches values.now order code.now machine.old.home (state_of machine.old) fetched noted s → IsSafe code.now s }
    ensures leaps { Leaps values.now order code.now machine.old.home (state_of machine.old)
        (source_over S.Source.seen source.old source.new) (L.number steps.old) (L.number steps.new)
        (state_of machine.new) result }
    ensures outside { OnOk result (outside machine.new ≡ outside machine.old) }
    ensures later { (S.Source.seen source.old).faults ≤ (S.Source.seen source.new).faults }
{
    if leap_elements(machine, order, code, members, values, intake, source, steps)? {
        return Ok(true);
    }
    leap_struct(machine, order, code, members, values, source, steps)
}

// The same of structs that are elements of an array.
#[inline(always)]
fn leap_elements<S: Source, L: Ledger>(
    machine: &mut Machine,
    order: Order,
    code: &Code,
    members: u32,
    values: &EnumLists,
    intake: &mut Intake,
    source: &mut S,
    steps: &mut Steps<L>,
) -> Result<bool, LeapFault>
    requires short { length code.now < 2 ^ 32 }
    requires here { slice_get code.now machine.old.pc ≡ Some (op.Record members) }
    requires safe { (fetched : List ℕ) (noted : List Item) (s : State)
        → Reaches values.now order code.now machine.old.home (state_of machine.old) fetched noted s → IsSafe code.now s }
    ensures leaps { Leaps values.now order code.now machine.old.home (state_of machine.old)
        (source_over S.Source.seen source.old source.new) (L.number steps.old) (L.number steps.new)
        (state_of machine.new) result }
    ensures outside { OnOk result (outside machine.new ≡ outside machine.old) }
    ensures later { (S.Source.seen source.old).faults ≤ (S.Source.seen source.new).faults }
{
    match machine.top {
        Frame::Elements {
            left,
            run: _,
            back: _,
        } => {
            if begins_with_pointer(machine, code) {
                if is_full(machine) {
                    make_room(machine, left, source.ahead());
                }
                return Ok(false);
            }
            leap_records(machine, order, code, members, values, intake, source, steps)
        }
        Frame::Home | Frame::Record { back: _, first: _ } => Ok(false),
    }
}

// Whether the list of the referents that are pending since the home's beginning is moved when it grows.
#[inline(always)]
fn is_full(machine: &Machine) -> bool {
    machine.fresh.len() == machine.fresh.capacity()
}

// Whether the first member of the struct at whose `record` the machine is is a pointer: then its elements are taken one by one.
#[inline(always)]
fn begins_with_pointer(machine: &Machine, code: &Code) -> bool
    requires code { machine.now.pc < 2 ^ 32 }
{
    let Some(field) = code.field(machine.pc + 1) else {
        return false;
    };
    match field.form {
        Form::Pointer {
            class: _,
            to: _,
            run: _,
        } => true,
        Form::Number(_) => false,
    }
}
