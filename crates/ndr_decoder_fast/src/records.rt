// Structs of numbers that are elements of an array.
ghost use Rattle.std.specs.Prelude.{◌≡◌, ◌<◌, ◌≤◌, ◌+◌, ◌-◌, ◌*◌, ◌^◌, ◌++◌, ℕ, List, Some, length, slice_get, OnOk, OnErr, IfErr};
ghost use Rattle.nd_base.specs.Over.{source_over};
ghost use Rattle.nd_value.specs.declared.item.Item.{Item};
ghost use Rattle.nd_flat.specs.Building.{with_nodes};
ghost use Rattle.nd_flat.specs.Records.{IsMembers, IsRecords, all_records, members_of, records_flats, records_len};
ghost use Rattle.ndr_code.specs.declared.instr.Instr.TheVariants as op;
ghost use Rattle.ndr_decoder_laws.specs.steps.Steps.{State, goes};
ghost use Rattle.ndr_decoder_laws.specs.runs.Reaching.{IsSafe, Reaches};
ghost use Rattle.ndr_decoder_laws.specs.runs.Records.{records_read};
ghost use Rattle.ndr_decoder_laws.specs.runs.Rows.{HasLeft, with_fewer};
ghost use Rattle.ndr_decoder_state.specs.Seen.{outside, state_of};
ghost use Rattle.ndr_decoder_fast.specs.Strings.{TextDoes};
ghost use Rattle.ndr_decoder_fast.specs.declared.fault.LeapFault.TheVariants as leap;
ghost use Rattle.ndr_decoder_fast.specs.Leaps.{Leaps};

use crate::LeapFault;
use crate::elements::{Elements, elements_here};
use crate::octets::are_octets;
use nd_base::{Intake, Ledger, Memory, Order, Source, Steps};
use nd_flat::{Builder, Records};
use ndr_code::{Code, EnumLists, Instr};
use ndr_decoder_laws::Frame;
use ndr_decoder_state::{Machine, Phase};

/// Structs of numbers that are elements of an array, as many as a piece has room for, but not one alone.
pub fn leap_records<S: Source, L: Ledger>(
    machine: &mut Machine,
    order: Order,
    code: &Code,
    members: u32,
    values: &EnumLists,
    intake: &mut Intake,
    source: &mut S,
    steps: &mut Steps<L>,
) -> Result<bool, LeapFault>
    requires short { length code.now < 2 ^ 32 }
    requires here { slice_get code.now machine.old.pc ≡ Some (op.Record members) }
    requires safe { (fetched : List ℕ) (noted : List Item) (s : State)
        → Reaches values.now order code.now machine.old.home (state_of machine.old) fetched noted s → IsSafe code.now s }
    ensures leaps { Leaps values.now order code.now machine.old.home (state_of machine.old)
        (source_over S.Source.seen source.old source.new) (L.number steps.old) (L.number steps.new)
        (state_of machine.new) result }
    ensures outside { OnOk result (outside machine.new ≡ outside machine.old) }
    ensures later { (S.Source.seen source.old).faults ≤ (S.Source.seen source.new).faults }
{
    let Some(elements) = elements_here(machine, code, members) else {
        return Ok(false);
    };
    if !intake.at_hand(source, elements.len) {
        return Ok(false);
    }
    are_octets(intake.octets());
    let ahead = source.ahead();
    read_elements(machine, order, &elements, intake.octets(), ahead, steps)?;
    Ok(true)
}

// Elements whose octets have all come. Each of their numbers is counted as one; nothing is noted. It takes memory; after `Memory` nothing was
// counted, and nothing is known of the machine.
fn read_elements<L: Ledger>(
    machine: &mut Machine,
    order: Order,
    elements: &Elements,
    octets: &[u8],
    ahead: usize,
    steps: &mut Steps<L>,
) -> Result<(), LeapFault>
    requires whole { IsMembers elements.now.members }
    requires some { 0 < elements.now.count }
    requires wide { length octets.now ≡ records_len (members_of elements.now.members) elements.now.count }
    requires left { HasLeft (elements.now.count - 1) machine.old.top }
    requires code { machine.old.pc < 2 ^ 32 }
    requires fits { machine.old.at + length octets.now < 2 ^ 32 }
    requires few { machine.old.count + (elements.now.count + elements.now.count * elements.now.members.len) < 2 ^ 32 }
    ensures does { TextDoes (goes (records_read (machine.old.pc + 2 + elements.now.members.len) (machine.old.at + length octets.now)
        (records_flats order (members_of elements.now.members) elements.now.count octets.now)
        (with_fewer (elements.now.count - 1) machine.old.top) (state_of machine.old))) result (state_of machine.new) }
    ensures memory { IfErr result (λ e. e ≡ leap.Memory) }
    ensures ticks { OnOk result (L.number steps.new ≡ L.number steps.old + elements.now.count * elements.now.members.len) }
    ensures idle { OnErr result (steps.new ≡ steps.old) }
    ensures outside { OnOk result (outside machine.new ≡ outside machine.old) }
{
    let records = Records {
        order,
        members: elements.members,
        count: elements.count,
        octets,
    };
    let room = room_for(machine, elements, octets.len(), ahead);
    add_records(&mut machine.builder, &records, room)?;
    let numbers = elements.count * u32::from(elements.members.len);
    machine.count += elements.count + numbers;
    machine.at += octets.len() as u32;
    machine.phase = Phase::Begun;
    machine.pc = machine.pc + 2 + elements.members.len as usize;
    machine.top = fewer_left(elements.count - 1, machine.top);
    count_more(numbers, steps);
    Ok(())
}

// How many octets of the elements after these, which have so many, may be given room: those that are at hand, unless the place in the stream shows
// that as many octets were kept already. So the list grows by half at least where it is moved, and the time stays linear.
fn room_for(machine: &Machine, elements: &Elements, len: usize, ahead: usize) -> usize
    requires { 0 < elements.now.count }
    ensures at_hand { result ≤ ahead }
{
    let Frame::Elements {
        left,
        run: _,
        back: _,
    } = machine.top
    else {
        return 0;
    };
    let more = left.saturating_sub(elements.count - 1) as usize;
    let room = more
        .saturating_mul(len / elements.count as usize)
        .min(ahead);
    if room < machine.at as usize {
        return 0;
    }
    room
}

// Structs side by side, and room for so many octets after them.
fn add_records(builder: &mut Builder, records: &Records<'_>, room: usize) -> Result<(), Memory>
    requires whole { IsRecords records.now }
    requires some { 0 < records.now.count }
    ensures ok { OnOk result (builder.new ≡ with_nodes (builder.old.nodes ++ all_records records.now) builder.old) }
    ensures err { OnErr result (builder.new ≡ builder.old) }
{
    if room > 0 {
        builder.make_room_for_octets(room.saturating_add(records.octets.len()));
    }
    builder.records(records)
}

// The frame of elements of which so many fewer are left.
fn fewer_left(fewer: u32, top: Frame) -> Frame
    requires { HasLeft fewer top }
    ensures { result ≡ with_fewer fewer top }
{
    let Frame::Elements { left, run, back } = top else {
        unreachable!()
    };
    Frame::Elements {
        left: left - fewer,
        run,
        back,
    }
}

// Counts so many steps.
fn count_more<L: Ledger>(more: u32, steps: &mut Steps<L>)
    ensures { L.number steps.new ≡ L.number steps.old + more }
{
    for _ in 0..more {
        steps.tick();
    }
}
