// Runs of numbers of one primitive, fetched and built in one go.
ghost use Rattle.std.specs.Prelude.{◌≡◌, ◌<◌, ◌≤◌, ◌+◌, ◌-◌, ◌*◌, ◌%◌, ◌^◌, length, true, Some, slice_get, IfErr, OnOk, OnErr};
ghost use Rattle.nd_types.specs.Table.{width};
ghost use Rattle.nd_base.specs.declared.TheConstants.{STREAM_LIMIT, PIECE};
ghost use Rattle.nd_flat.specs.Building.{with_numbers};
ghost use Rattle.nd_flat.specs.FlatForm.{IsRow, row_numbers};
ghost use Rattle.ndr_code.specs.declared.instr.Instr.TheVariants as op;
ghost use Rattle.ndr_decoder_laws.specs.steps.Steps.{goes};
ghost use Rattle.ndr_decoder_state.specs.declared.fault.DecodeFault.TheVariants as fault;
ghost use Rattle.ndr_decoder_state.specs.Seen.{state_of, Does, outside};
ghost use Rattle.ndr_decoder_laws.specs.runs.Rows.{row_read, HasLeft, with_fewer, IsNumberRun, IsInRow};
ghost use Rattle.ndr_decoder_state.specs.Notes.{notes_seen};
ghost use Rattle.ndr_decoder_value.specs.Notes.{RowNoted};

use nd_base::{Ledger, Memory, Order, PIECE, STREAM_LIMIT, Steps};
use nd_flat::{Builder, Row};
use nd_types::{Prim, TypeId};
use nd_value::{ItemKind, ItemLog};
use ndr_code::{Code, Instr};
use ndr_decoder_laws::Frame;
use ndr_decoder_state::{DecodeFault, Machine, Phase};
use ndr_prim::{read_num, width_of};

/// How many numbers may be read in one go at a `num`: as many elements as are left of an array whose elements are all of this primitive, and as a
/// piece and the limit of a stream have room for; one anywhere else. Takes no memory.
pub fn row_len(machine: &Machine, code: &Code, prim: Prim) -> u32
    requires code { machine.now.pc < 2 ^ 32 }
    ensures some { 0 < result }
    ensures piece { result * width prim ≤ PIECE }
    ensures within { 1 < result → machine.now.at + result * width prim ≤ STREAM_LIMIT }
    ensures aligned { 1 < result → machine.now.at % width prim ≡ 0 }
    ensures row { 1 < result → IsInRow code.now (result - 1) machine.now.pc prim machine.now.top }
{
    let Frame::Elements { left, run, back: _ } = machine.top else {
        return 1;
    };
    let wide = width_of(prim) as u32;
    if left == 0 || machine.at % wide != 0 || !is_row(code, run as usize, machine.pc, prim) {
        return 1;
    }
    let room = STREAM_LIMIT.saturating_sub(machine.at).min(PIECE) / wide;
    room.min(left).max(1)
}

/// So many numbers in a row, more than one, as `row_len` says. Each is noted and counted as one. It takes memory; after `Memory` nothing is known
/// of the machine. `ahead` is how many octets more are at hand: those of the same array are given room at once.
pub fn read_row<L: Ledger>(
    machine: &mut Machine,
    order: Order,
    octets: &[u8],
    prim: Prim,
    count: u32,
    ahead: usize,
    items: &mut ItemLog,
    steps: &mut Steps<L>,
) -> Result<(), DecodeFault>
    requires some { 0 < count }
    requires wide { length octets.now ≡ count * width prim }
    requires left { HasLeft (count - 1) machine.old.top }
    requires code { machine.old.pc < 2 ^ 32 }
    requires fits { machine.old.at + length octets.now < 2 ^ 32 }
    requires few { machine.old.count + count < 2 ^ 32 }
    ensures does { Does (goes (row_read order prim count octets.now (state_of machine.old))) result (state_of machine.new) }
    ensures noted { RowNoted order prim machine.old.home machine.old.at machine.old.count count octets.now
        (notes_seen items.old items.new (L.number steps.old) (L.number steps.new) machine.old.cells machine.new.cells) result }
    ensures outside { OnOk result (outside machine.new ≡ outside machine.old) }
{
    note_row(machine, order, octets, prim, count, items, steps)?;
    let row = Row {
        order,
        of: prim,
        count,
        octets,
    };
    let room = room_for(machine, count, prim, ahead);
    add_row(&mut machine.builder, &row, room)?;
    machine.count += count;
    machine.top = fewer_left(count - 1, machine.top);
    machine.pass(octets.len() as u32);
    Ok(())
}

// How many octets of the elements after so many may be given room: those that are at hand, unless the place in the stream shows that as many octets
// were kept already. So the list grows by half at least where it is moved, and the time stays linear.
fn room_for(machine: &Machine, count: u32, prim: Prim, ahead: usize) -> usize
    requires { 0 < count }
    ensures at_hand { result ≤ ahead }
{
    let Frame::Elements {
        left,
        run: _,
        back: _,
    } = machine.top
    else {
        return 0;
    };
    let more = left.saturating_sub(count - 1) as usize;
    let room = more.saturating_mul(width_of(prim)).min(ahead);
    if room < machine.at as usize {
        return 0;
    }
    room
}

// A row, and room for so many octets after it.
fn add_row(builder: &mut Builder, row: &Row<'_>, room: usize) -> Result<(), Memory>
    requires whole { IsRow row.now }
    requires some { 0 < row.now.count }
    ensures ok { OnOk result (builder.new ≡ with_numbers (row_numbers row.now) builder.old) }
    ensures err { OnErr result (builder.new ≡ builder.old) }
{
    if room > 0 {
        builder.make_room_for_octets(room.saturating_add(row.octets.len()));
    }
    builder.row(row)
}

/// Notes so many numbers in a row.
pub fn note_row<L: Ledger>(
    machine: &Machine,
    order: Order,
    octets: &[u8],
    prim: Prim,
    count: u32,
    items: &mut ItemLog,
    steps: &mut Steps<L>,
) -> Result<(), DecodeFault>
    requires some { 0 < count }
    requires wide { length octets.now ≡ count * width prim }
    requires fits { machine.now.at + length octets.now < 2 ^ 32 }
    requires few { machine.now.count + count < 2 ^ 32 }
    ensures noted { RowNoted order prim machine.now.home machine.now.at machine.now.count count octets.now
        (notes_seen items.old items.new (L.number steps.old) (L.number steps.new) machine.now.cells machine.now.cells) result }
    ensures memory { IfErr result (λ e. e ≡ fault.Memory) }
{
    let wide = width_of(prim);
    let kept = items.len();
    machine.note_ahead(
        0,
        wide as u32,
        read_num(order, prim, &octets[..wide]),
        items,
        steps,
    )?;
    if items.len() == kept {
        count_more(count - 1, steps);
        return Ok(());
    }
    for i in 1..count as usize {
        let value = read_num(order, prim, &octets[i * wide..i * wide + wide]);
        machine.note_ahead(i as u32, wide as u32, value, items, steps)?;
    }
    Ok(())
}

// Counts so many steps.
fn count_more<L: Ledger>(more: u32, steps: &mut Steps<L>)
    ensures { L.number steps.new ≡ L.number steps.old + more }
{
    for _ in 0..more {
        steps.tick();
    }
}

// The frame of elements of which so many fewer are left.
fn fewer_left(fewer: u32, top: Frame) -> Frame
    requires { HasLeft fewer top }
    ensures { result ≡ with_fewer fewer top }
{
    let Frame::Elements { left, run, back } = top else {
        unreachable!()
    };
    Frame::Elements {
        left: left - fewer,
        run,
        back,
    }
}

// Whether the elements of a run are numbers so wide, and `pc` is the address of their `num`: after the first of them none has a gap.
fn is_row(code: &Code, run: usize, pc: usize, prim: Prim) -> bool
    requires { pc < 2 ^ 32 }
    ensures { result ≡ true → IsNumberRun code.now run pc prim }
{
    let wide = width_of(prim);
    if !is_ret(code, pc + 1) {
        return false;
    }
    if run == pc {
        return wide == 1;
    }
    0 < pc && run == pc - 1 && is_align(code, run, wide)
}

// Whether a `ret` is at an address.
fn is_ret(code: &Code, at: usize) -> bool
    ensures { result ≡ true → slice_get code.now at ≡ Some op.Ret }
{
    matches!(code.get(at), Some(Instr::Ret))
}

// Whether an `align` to so many octets is at an address.
fn is_align(code: &Code, at: usize, wide: usize) -> bool
    ensures { result ≡ true → slice_get code.now at ≡ Some (op.Align wide) }
{
    match code.get(at) {
        Some(Instr::Align { to }) => *to as usize == wide,
        _ => false,
    }
}
