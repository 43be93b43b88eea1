// Strings.
ghost use Rattle.std.specs.Prelude.{◌≡◌, ◌<◌, ◌≤◌, ◌+◌, ◌-◌, ◌^◌, ℕ, true, false, List, Some, length, slice_get, OnOk, IfSome, IfNone};
ghost use Rattle.nd_base.specs.Over.{source_over};
ghost use Rattle.nd_value.specs.declared.item.Item.{Item};
ghost use Rattle.ndr_code.specs.declared.instr.Instr.TheVariants as op;
ghost use Rattle.ndr_decoder_laws.specs.steps.Steps.{State};
ghost use Rattle.ndr_decoder_laws.specs.runs.Reaching.{IsSafe, Reaches};
ghost use Rattle.ndr_decoder_state.specs.Seen.{outside, state_of};
ghost use Rattle.ndr_decoder_fast.specs.Leaps.{Leaps};
ghost use Rattle.ndr_decoder_fast.specs.Strings.{CountCame, MaxCame, IsAtString, max_read, ReadsText, TextDoes};

use crate::octets::at_hand;
use crate::zeros::refused_at;
use crate::{LeapFault, TextReason};
use nd_base::{Intake, Ledger, Order, STREAM_LIMIT, Source, Steps};
use nd_flat::Seen;
use ndr_code::{Code, EnumLists, Instr};
use ndr_decoder_laws::Frame;
use ndr_decoder_state::{Machine, Phase, gap_before, read_count};

/// A string whose maximum count is in front of it.
#[inline(never)]
pub fn leap_string<S: Source, L: Ledger>(
    machine: &mut Machine,
    order: Order,
    code: &Code,
    values: &EnumLists,
    intake: &mut Intake,
    source: &mut S,
    steps: &mut Steps<L>,
) -> Result<bool, LeapFault>
    requires short { length code.now < 2 ^ 32 }
    requires here { slice_get code.now machine.old.pc ≡ Some op.Hoist }
    requires safe { (fetched : List ℕ) (noted : List Item) (s : State)
        → Reaches values.now order code.now machine.old.home (state_of machine.old) fetched noted s → IsSafe code.now s }
    ensures leaps { Leaps values.now order code.now machine.old.home (state_of machine.old)
        (source_over S.Source.seen source.old source.new) (L.number steps.old) (L.number steps.new)
        (state_of machine.new) result }
    ensures outside { OnOk result (outside machine.new ≡ outside machine.old) }
    ensures later { (S.Source.seen source.old).faults ≤ (S.Source.seen source.new).faults }
{
    let Some(ahead) = string_ahead(machine, code) else {
        return Ok(false);
    };
    let gap = gap_before(machine.at, 4);
    let Some(max) = take_maximum(gap, order, source) else {
        return Ok(false);
    };
    pass_maximum(machine, gap, max, ahead.run);
    steps.tick();
    leap_offset(machine, order, ahead.bound, source, steps)?;
    Ok(true)
}

// So many octets a string may have that is taken in one go, with its terminator.
const SHORT: u32 = 256;

// So many are read through less room.
const FEW: u32 = 32;

// More than the octets of such a string with its gap and its counts.
const ROOM: u32 = 512;

// A string: its run, and its bound, of which 0 means the maximum count.
#[derive(Clone, Copy)]
struct Ahead {
    run: u32,
    bound: u32,
}

// The string at whose `hoist` the machine is, if it is a home of its own.
#[inline(always)]
fn string_ahead(machine: &Machine, code: &Code) -> Option<Ahead>
    requires code { machine.now.pc < 2 ^ 32 }
    requires within { machine.now.at ≤ STREAM_LIMIT }
    ensures { IfSome result (λ a. IsAtString code.now 512 a.run a.bound (state_of machine.now)) }
{
    if !begins_home(machine) || STREAM_LIMIT - machine.at < ROOM {
        return None;
    }
    let Some(Instr::Call { run }) = code.get(machine.pc + 1) else {
        return None;
    };
    let run = *run;
    if !is_aligned(code, run as usize) {
        return None;
    }
    let Some(Instr::Text { bound }) = code.get(run as usize + 1) else {
        return None;
    };
    Some(Ahead { run, bound: *bound })
}

// Whether the machine is at the beginning of an instruction of a home that has nothing around it.
#[inline(always)]
fn begins_home(machine: &Machine) -> bool
    ensures { result ≡ true → (machine.now.phase ≡ phase.Begun) × (machine.now.top ≡ frame.Home) }
{
    match (machine.phase, machine.top) {
        (Phase::Begun, Frame::Home) => true,
        _ => false,
    }
}

// Whether a gap to a multiple of four octets is at an address.
#[inline(always)]
fn is_aligned(code: &Code, at: usize) -> bool
    ensures { result ≡ true → slice_get code.now at ≡ Some (op.Align 4) }
{
    match code.get(at) {
        Some(Instr::Align { to }) => *to == 4,
        _ => false,
    }
}

// The maximum count after a gap of so many octets, if both are at hand.
#[inline(always)]
fn take_maximum<S: Source>(gap: u32, order: Order, source: &mut S) -> Option<u32>
    requires few { gap ≤ 4 }
    ensures came { IfSome result (MaxCame order (S.Source.seen source.old).left (S.Source.seen source.new).left gap) }
    ensures nothing { IfNone result ((S.Source.seen source.new).left ≡ (S.Source.seen source.old).left) }
    ensures faults { (S.Source.seen source.new).faults ≡ (S.Source.seen source.old).faults }
{
    let mut octets = [0; 8];
    let all = &mut octets[..gap as usize + 4];
    if !at_hand(source, all) {
        return None;
    }
    Some(read_count(order, &all[gap as usize..]))
}

// A count of four octets, if they are at hand.
#[inline(always)]
fn take_count<S: Source>(order: Order, source: &mut S) -> Option<u32>
    ensures came { IfSome result (CountCame order (S.Source.seen source.old).left (S.Source.seen source.new).left) }
    ensures nothing { IfNone result ((S.Source.seen source.new).left ≡ (S.Source.seen source.old).left) }
    ensures faults { (S.Source.seen source.new).faults ≡ (S.Source.seen source.old).faults }
{
    let mut octets = [0; 4];
    if !at_hand(source, &mut octets) {
        return None;
    }
    Some(read_count(order, &octets))
}

// After a gap and the maximum count: at the `text` of a run.
#[inline(always)]
fn pass_maximum(machine: &mut Machine, gap: u32, max: u32, run: u32)
    requires fits { machine.old.at + gap + 4 < 2 ^ 32 }
    ensures is { state_of machine.new ≡ max_read gap max run (state_of machine.old) }
    ensures outside { outside machine.new ≡ outside machine.old }
{
    machine.at += gap;
    machine.max = max;
    machine.max_at = Some(machine.at);
    pass_count(machine, Phase::Begun);
    machine.jump(run as usize + 1);
}

// After a count: at the same instruction.
#[inline(always)]
fn pass_count(machine: &mut Machine, phase: Phase)
    requires fits { machine.old.at + 4 < 2 ^ 32 }
    ensures is { state_of machine.new ≡ past 4 (phase_of phase) (state_of machine.old) }
    ensures count { machine.new.count ≡ machine.old.count }
    ensures outside { outside machine.new ≡ outside machine.old }
{
    machine.at += 4;
    machine.phase = phase;
}

// The offset of a string, and what comes after it, as far as it is at hand.
#[inline(always)]
fn leap_offset<S: Source, L: Ledger>(
    machine: &mut Machine,
    order: Order,
    bound: u32,
    source: &mut S,
    steps: &mut Steps<L>,
) -> Result<(), LeapFault>
    requires first { (state_of machine.old).phase ≡ begun }
    requires code { machine.old.pc < 2 ^ 32 }
    requires within { machine.old.at + 400 ≤ STREAM_LIMIT }
    requires few { machine.old.count + 1 < 2 ^ 32 }
    ensures reads { ReadsText order bound (state_of machine.old) (source_over S.Source.seen source.old source.new)
        (L.number steps.old) (L.number steps.new) (state_of machine.new) result }
    ensures outside { OnOk result (outside machine.new ≡ outside machine.old) }
    ensures faults { (S.Source.seen source.new).faults ≡ (S.Source.seen source.old).faults }
{
    let Some(offset) = take_count(order, source) else {
        return Ok(());
    };
    if offset != 0 {
        return Err(LeapFault::Bad {
            place: machine.at,
            why: TextReason::TextOffset,
        });
    }
    pass_count(machine, Phase::OffsetRead(0));
    steps.tick();
    leap_actual(machine, order, bound, source, steps)
}

// The actual count of a string, and what comes after it, as far as it is at hand.
#[inline(always)]
fn leap_actual<S: Source, L: Ledger>(
    machine: &mut Machine,
    order: Order,
    bound: u32,
    source: &mut S,
    steps: &mut Steps<L>,
) -> Result<(), LeapFault>
    requires offset { (state_of machine.old).phase ≡ offset_read 0 }
    requires code { machine.old.pc < 2 ^ 32 }
    requires within { machine.old.at + 300 ≤ STREAM_LIMIT }
    requires few { machine.old.count + 1 < 2 ^ 32 }
    ensures reads { ReadsText order bound (state_of machine.old) (source_over S.Source.seen source.old source.new)
        (L.number steps.old) (L.number steps.new) (state_of machine.new) result }
    ensures outside { OnOk result (outside machine.new ≡ outside machine.old) }
    ensures faults { (S.Source.seen source.new).faults ≡ (S.Source.seen source.old).faults }
{
    let Some(count) = take_count(order, source) else {
        return Ok(());
    };
    let limit = limit(machine, bound);
    if count == 0 {
        return Err(LeapFault::Bad {
            place: machine.at,
            why: TextReason::TextEmpty,
        });
    }
    if limit < count {
        return Err(LeapFault::Bad {
            place: machine.at,
            why: TextReason::PastBound,
        });
    }
    pass_count(machine, Phase::CountRead(count - 1));
    steps.tick();
    leap_octets(machine, order, count, bound, source, steps)
}

// So many octets of a string with its terminator, if they are few and at hand.
#[inline(always)]
fn leap_octets<S: Source, L: Ledger>(
    machine: &mut Machine,
    order: Order,
    count: u32,
    bound: u32,
    source: &mut S,
    steps: &mut Steps<L>,
) -> Result<(), LeapFault>
    requires some { 0 < count }
    requires counted { (state_of machine.old).phase ≡ count_read (count - 1) }
    requires code { machine.old.pc < 2 ^ 32 }
    requires within { machine.old.at + 256 ≤ STREAM_LIMIT }
    requires few { machine.old.count + 1 < 2 ^ 32 }
    ensures reads { ReadsText order bound (state_of machine.old) (source_over S.Source.seen source.old source.new)
        (L.number steps.old) (L.number steps.new) (state_of machine.new) result }
    ensures outside { OnOk result (outside machine.new ≡ outside machine.old) }
    ensures faults { (S.Source.seen source.new).faults ≡ (S.Source.seen source.old).faults }
{
    if count <= FEW {
        let mut octets = [0; FEW as usize];
        return leap_text(
            machine,
            order,
            bound,
            &mut octets[..count as usize],
            source,
            steps,
        );
    }
    if count > SHORT {
        return Ok(());
    }
    leap_short(machine, order, count, bound, source, steps)
}

// The same of no more than `SHORT`. It is apart, so that the room for them is not cleared where they are fewer.
#[inline(never)]
fn leap_short<S: Source, L: Ledger>(
    machine: &mut Machine,
    order: Order,
    count: u32,
    bound: u32,
    source: &mut S,
    steps: &mut Steps<L>,
) -> Result<(), LeapFault>
    requires some { 0 < count }
    requires short { count ≤ 256 }
    requires counted { (state_of machine.old).phase ≡ count_read (count - 1) }
    requires code { machine.old.pc < 2 ^ 32 }
    requires within { machine.old.at + 256 ≤ STREAM_LIMIT }
    requires few { machine.old.count + 1 < 2 ^ 32 }
    ensures reads { ReadsText order bound (state_of machine.old) (source_over S.Source.seen source.old source.new)
        (L.number steps.old) (L.number steps.new) (state_of machine.new) result }
    ensures outside { OnOk result (outside machine.new ≡ outside machine.old) }
    ensures faults { (S.Source.seen source.new).faults ≡ (S.Source.seen source.old).faults }
{
    let mut octets = [0; SHORT as usize];
    leap_text(
        machine,
        order,
        bound,
        &mut octets[..count as usize],
        source,
        steps,
    )
}

// So many octets of a string with its terminator, if they are at hand.
#[inline(always)]
fn leap_text<S: Source, L: Ledger>(
    machine: &mut Machine,
    order: Order,
    bound: u32,
    text: &mut [u8],
    source: &mut S,
    steps: &mut Steps<L>,
) -> Result<(), LeapFault>
    requires some { 0 < length text.old }
    requires counted { (state_of machine.old).phase ≡ count_read (length text.old - 1) }
    requires code { machine.old.pc < 2 ^ 32 }
    requires within { machine.old.at + length text.old ≤ STREAM_LIMIT }
    requires few { machine.old.count + 1 < 2 ^ 32 }
    ensures reads { ReadsText order bound (state_of machine.old) (source_over S.Source.seen source.old source.new)
        (L.number steps.old) (L.number steps.new) (state_of machine.new) result }
    ensures outside { OnOk result (outside machine.new ≡ outside machine.old) }
    ensures faults { (S.Source.seen source.new).faults ≡ (S.Source.seen source.old).faults }
{
    if !at_hand(source, text) {
        return Ok(());
    }
    add_text(machine, bound, text)?;
    steps.tick();
    Ok(())
}

// The octets of a string with its terminator.
#[inline(always)]
fn add_text(machine: &mut Machine, bound: u32, octets: &[u8]) -> Result<(), LeapFault>
    requires some { 0 < length octets.now }
    requires code { machine.old.pc < 2 ^ 32 }
    requires within { machine.old.at + length octets.now < 2 ^ 32 }
    requires few { machine.old.count + 1 < 2 ^ 32 }
    ensures does { TextDoes
        (text_done (text_refusal machine.old.at octets.now) (limit_of bound (state_of machine.old)) octets.now (state_of machine.old)) result
        (state_of machine.new) }
    ensures outside { OnOk result (outside machine.new ≡ outside machine.old) }
{
    if let Some((place, why)) = refused_at(machine.at, octets) {
        return Err(LeapFault::Bad { place, why });
    }
    let len = octets.len();
    let node = Seen::Text {
        max: limit(machine, bound),
        octets: &octets[..len - 1],
    };
    machine.add_node(&node, Some(machine.at.saturating_sub(4)))?;
    machine.pass(len as u32);
    Ok(())
}

// A bound of a string, of which 0 means the maximum count.
#[inline(always)]
fn limit(machine: &Machine, bound: u32) -> u32
    ensures { result ≡ limit_of bound (state_of machine.now) }
{
    if bound == 0 { machine.max } else { bound }
}

ghost use Rattle.nd_base.specs.declared.TheConstants.{STREAM_LIMIT};
ghost use Rattle.nd_grammar.specs.Refusal.{text_refusal};
ghost use Rattle.ndr_decoder_laws.specs.declared.frame.Frame.TheVariants as frame;
ghost use Rattle.ndr_decoder_laws.specs.steps.Steps.{begun, offset_read, count_read, past, text_done, limit_of};
ghost use Rattle.ndr_decoder_state.specs.Seen.{phase_of};
ghost use Rattle.ndr_decoder_state.specs.declared.machine.Phase.TheVariants as phase;
