// The value of a home, from its first octet to its last.
ghost use Rattle.std.specs.Prelude.{◌≡◌, ◌<◌, ◌≤◌, ◌^◌, ◌%◌, ◌*◌, ◌/◌, ◌+◌, ◌-◌, ℕ, true, false, List, Some, length, take, slice_get, OnOk, OnErr};
ghost use Rattle.std.specs.Prelude.{IfOk, IfErr, Ok};
ghost use Rattle.std.specs.Io.KnownBytes.{Consumes};
ghost use Rattle.nd_base.specs.Over.{source_over};
ghost use Rattle.nd_base.specs.declared.TheConstants.{STREAM_LIMIT, PIECE};
ghost use Rattle.nd_types.specs.Number.{AreOctets};
ghost use Rattle.nd_types.specs.Table.{width};
ghost use Rattle.nd_value.specs.declared.item.Item.{Item};
ghost use Rattle.ndr_code.specs.declared.instr.Instr.TheVariants as op;
ghost use Rattle.ndr_decoder_laws.specs.steps.Steps.{State, IsInner, wants};
ghost use Rattle.ndr_code.specs.Fields.{prim_of};
ghost use Rattle.ndr_decoder_laws.specs.declared.frame.Frame.TheVariants as frame;
ghost use Rattle.ndr_decoder_state.specs.Seen.{state_of, outside};
ghost use Rattle.ndr_decoder_state.specs.Notes.{notes_seen};
ghost use Rattle.ndr_decoder_laws.specs.runs.Reaching.{Reaches, IsSafe};
ghost use Rattle.ndr_decoder_laws.specs.runs.Rows.{IsInRow};
ghost use Rattle.ndr_decoder_fast.specs.Leaps.{Leaps};
ghost use Rattle.ndr_decoder_state.specs.declared.fault.DecodeFault.TheVariants as fault;
ghost use Rattle.ndr_decoder_value.specs.Notes.{RowNoted};
ghost use Rattle.ndr_decoder_value.specs.Parts.{quick};
ghost use Rattle.ndr_decoder_value.specs.Reaching.{Ends, Turns, Fetches, stream_answer};

use crate::rows::{note_row, read_row, row_len};
use crate::steps::{Want, is_flow, is_quick, pass_quick, take_flow, take_step, wanted};
use nd_base::{Intake, IntakeFault, Ledger, Order, STREAM_LIMIT, Source, Steps};
use nd_grammar::Reason;
use nd_types::{Prim, TypeId};
use nd_value::ItemLog;
use ndr_code::{Code, EnumLists, Instr, prim_of};
use ndr_decoder_fast::{LeapFault, gap_to, leap};
use ndr_decoder_laws::Frame;
use ndr_decoder_state::{DecodeFault, Machine, Progress};
use ndr_prim::width_of;

/// Reads the value of a home from the instruction at which the machine is. Each state that the code can reach from here must be safe.
///
/// At `Ok` the steps of the code have come to the end of the value. At `Bad` the last of them is refused by its octets, or its octets end past the
/// limit of a stream, or the source has ended before the last of them. `ReadFault` is answered only if the source's count of faults rose, and before
/// the last octet of a step came. In each case the octets of the steps, and of those alone, were taken from the source. A row of numbers is fetched
/// and built in one go. It takes memory for what was read; the time is linear in the steps.
#[inline(always)]
pub fn run<S: Source, L: Ledger>(
    order: Order,
    code: &Code,
    values: &EnumLists,
    machine: &mut Machine,
    intake: &mut Intake,
    source: &mut S,
    items: &mut ItemLog,
    steps: &mut Steps<L>,
) -> Result<(), DecodeFault>
    requires short { length code.now < 2 ^ 32 }
    requires safe { (fetched : List ℕ) (noted : List Item) (s : State)
        → Reaches values.now order code.now machine.old.home (state_of machine.old) fetched noted s → IsSafe code.now s }
    ensures ends { Ends values.now order code.now machine.old.home (state_of machine.old)
        (source_over S.Source.seen source.old source.new)
        (notes_seen items.old items.new (L.number steps.old) (L.number steps.new) machine.old.cells machine.new.cells) (state_of machine.new) result }
    ensures outside { OnOk result (outside machine.new ≡ outside machine.old) }
    ensures later { (S.Source.seen source.old).faults ≤ (S.Source.seen source.new).faults }
{
    let instr = code.at(machine.pc);
    match take_lead(
        machine, order, code, instr, values, intake, source, items, steps,
    ) {
        Ok(Progress::More) => run_first(order, code, values, machine, intake, source, items, steps),
        Ok(Progress::Whole) => Ok(()),
        Err(fault) => Err(fault),
    }
}

// The gap before a home's value, if it is empty or at hand.
#[inline(always)]
fn take_lead<S: Source, L: Ledger>(
    machine: &mut Machine,
    order: Order,
    code: &Code,
    instr: Instr,
    values: &EnumLists,
    intake: &mut Intake,
    source: &mut S,
    items: &mut ItemLog,
    steps: &mut Steps<L>,
) -> Result<Progress, DecodeFault>
    requires short { length code.now < 2 ^ 32 }
    requires here { slice_get code.now machine.old.pc ≡ Some instr }
    requires safe { (fetched : List ℕ) (noted : List Item) (s : State)
        → Reaches values.now order code.now machine.old.home (state_of machine.old) fetched noted s → IsSafe code.now s }
    ensures turns { Turns values.now order code.now machine.old.home (state_of machine.old)
        (source_over S.Source.seen source.old source.new)
        (notes_seen items.old items.new (L.number steps.old) (L.number steps.new) machine.old.cells machine.new.cells) (state_of machine.new) result }
    ensures outside { OnOk result (outside machine.new ≡ outside machine.old) }
    ensures later { (S.Source.seen source.old).faults ≤ (S.Source.seen source.new).faults }
{
    if is_empty_gap(machine, instr) {
        let progress = take_quick(
            machine, order, code, instr, values, intake, source, items, steps,
        );
        return Ok(progress);
    }
    if is_gap(instr) {
        return take_first(
            machine, order, code, instr, values, intake, source, items, steps,
        );
    }
    Ok(Progress::More)
}

// Whether the instruction is a gap.
#[inline(always)]
fn is_gap(instr: Instr) -> bool {
    matches!(instr, Instr::Align { to: _ })
}

// Whether the instruction is a gap that is empty.
#[inline(always)]
fn is_empty_gap(machine: &Machine, instr: Instr) -> bool
    ensures { result ≡ true → quick instr machine.now.at ≡ true }
{
    match instr {
        Instr::Align { to } => gap_to(machine.at, to) == 0,
        _ => false,
    }
}

// The value of a home after such a gap.
#[inline(always)]
fn run_first<S: Source, L: Ledger>(
    order: Order,
    code: &Code,
    values: &EnumLists,
    machine: &mut Machine,
    intake: &mut Intake,
    source: &mut S,
    items: &mut ItemLog,
    steps: &mut Steps<L>,
) -> Result<(), DecodeFault>
    requires short { length code.now < 2 ^ 32 }
    requires safe { (fetched : List ℕ) (noted : List Item) (s : State)
        → Reaches values.now order code.now machine.old.home (state_of machine.old) fetched noted s → IsSafe code.now s }
    ensures ends { Ends values.now order code.now machine.old.home (state_of machine.old)
        (source_over S.Source.seen source.old source.new)
        (notes_seen items.old items.new (L.number steps.old) (L.number steps.new) machine.old.cells machine.new.cells) (state_of machine.new) result }
    ensures outside { OnOk result (outside machine.new ≡ outside machine.old) }
    ensures later { (S.Source.seen source.old).faults ≤ (S.Source.seen source.new).faults }
{
    let instr = code.at(machine.pc);
    match take_first(
        machine, order, code, instr, values, intake, source, items, steps,
    ) {
        Ok(Progress::More) => run_on(order, code, values, machine, intake, source, items, steps),
        Ok(Progress::Whole) => Ok(()),
        Err(fault) => Err(fault),
    }
}

// The steps at a home's beginning that are taken in one go, where there are such. They are all of most homes.
#[inline(always)]
fn take_first<S: Source, L: Ledger>(
    machine: &mut Machine,
    order: Order,
    code: &Code,
    instr: Instr,
    values: &EnumLists,
    intake: &mut Intake,
    source: &mut S,
    items: &mut ItemLog,
    steps: &mut Steps<L>,
) -> Result<Progress, DecodeFault>
    requires short { length code.now < 2 ^ 32 }
    requires here { slice_get code.now machine.old.pc ≡ Some instr }
    requires safe { (fetched : List ℕ) (noted : List Item) (s : State)
        → Reaches values.now order code.now machine.old.home (state_of machine.old) fetched noted s → IsSafe code.now s }
    ensures turns { Turns values.now order code.now machine.old.home (state_of machine.old)
        (source_over S.Source.seen source.old source.new)
        (notes_seen items.old items.new (L.number steps.old) (L.number steps.new) machine.old.cells machine.new.cells) (state_of machine.new) result }
    ensures outside { OnOk result (outside machine.new ≡ outside machine.old) }
    ensures later { (S.Source.seen source.old).faults ≤ (S.Source.seen source.new).faults }
{
    let leapt = try_leap(
        machine, order, code, instr, values, intake, source, items, steps,
    )?;
    if !leapt {
        return Ok(Progress::More);
    }
    if is_over(machine, code) {
        return Ok(Progress::Whole);
    }
    Ok(Progress::More)
}

// Whether the machine is at the end of the value of its home.
#[inline(always)]
fn is_over(machine: &Machine, code: &Code) -> bool
    ensures ends { result ≡ true → slice_get code.now machine.now.pc ≡ Some op.Ret }
    ensures home { result ≡ true → machine.now.top ≡ frame.Home }
{
    match machine.top {
        Frame::Home => matches!(code.get(machine.pc), Some(Instr::Ret)),
        Frame::Record { back: _, first: _ }
        | Frame::Elements {
            left: _,
            run: _,
            back: _,
        } => false,
    }
}

// Reads the value of a home turn by turn, as `run` does.
#[inline(never)]
fn run_on<S: Source, L: Ledger>(
    order: Order,
    code: &Code,
    values: &EnumLists,
    machine: &mut Machine,
    intake: &mut Intake,
    source: &mut S,
    items: &mut ItemLog,
    steps: &mut Steps<L>,
) -> Result<(), DecodeFault>
    requires short { length code.now < 2 ^ 32 }
    requires safe { (fetched : List ℕ) (noted : List Item) (s : State)
        → Reaches values.now order code.now machine.old.home (state_of machine.old) fetched noted s → IsSafe code.now s }
    ensures ends { Ends values.now order code.now machine.old.home (state_of machine.old)
        (source_over S.Source.seen source.old source.new)
        (notes_seen items.old items.new (L.number steps.old) (L.number steps.new) machine.old.cells machine.new.cells) (state_of machine.new) result }
    ensures outside { OnOk result (outside machine.new ≡ outside machine.old) }
    ensures later { (S.Source.seen source.old).faults ≤ (S.Source.seen source.new).faults }
{
    // No stream within the limit has so many turns.
    for _turn in 0..u64::MAX {
        let instr = code.at(machine.pc);
        if is_quick(machine, instr) {
            match take_quick(
                machine, order, code, instr, values, intake, source, items, steps,
            ) {
                Progress::More => continue,
                Progress::Whole => return Ok(()),
            }
        }
        match take_some(
            machine, order, code, instr, values, intake, source, items, steps,
        ) {
            Ok(Progress::More) => {}
            Ok(Progress::Whole) => return Ok(()),
            Err(fault) => return Err(fault),
        }
    }
    Err(DecodeFault::Memory)
}

// The end of a run, or an empty gap. It reads and notes nothing.
#[inline(always)]
fn take_quick<S: Source, L: Ledger>(
    machine: &mut Machine,
    order: Order,
    code: &Code,
    instr: Instr,
    values: &EnumLists,
    intake: &mut Intake,
    source: &mut S,
    items: &mut ItemLog,
    steps: &mut Steps<L>,
) -> Progress
    requires short { length code.now < 2 ^ 32 }
    requires here { slice_get code.now machine.old.pc ≡ Some instr }
    requires safe { (fetched : List ℕ) (noted : List Item) (s : State)
        → Reaches values.now order code.now machine.old.home (state_of machine.old) fetched noted s → IsSafe code.now s }
    requires quick { quick instr machine.old.at ≡ true }
    ensures turns { Turns values.now order code.now machine.old.home (state_of machine.old)
        (source_over S.Source.seen source.old source.new)
        (notes_seen items.old items.new (L.number steps.old) (L.number steps.new) machine.old.cells machine.new.cells) (state_of machine.new)
        (Ok result) }
    ensures outside { outside machine.new ≡ outside machine.old }
    ensures later { (S.Source.seen source.old).faults ≤ (S.Source.seen source.new).faults }
{
    pass_quick(machine, instr)
}

// Steps that are taken in one go, where there are such; else one step, or a row of numbers.
#[inline(always)]
fn take_some<S: Source, L: Ledger>(
    machine: &mut Machine,
    order: Order,
    code: &Code,
    instr: Instr,
    values: &EnumLists,
    intake: &mut Intake,
    source: &mut S,
    items: &mut ItemLog,
    steps: &mut Steps<L>,
) -> Result<Progress, DecodeFault>
    requires short { length code.now < 2 ^ 32 }
    requires here { slice_get code.now machine.old.pc ≡ Some instr }
    requires safe { (fetched : List ℕ) (noted : List Item) (s : State)
        → Reaches values.now order code.now machine.old.home (state_of machine.old) fetched noted s → IsSafe code.now s }
    ensures turns { Turns values.now order code.now machine.old.home (state_of machine.old)
        (source_over S.Source.seen source.old source.new)
        (notes_seen items.old items.new (L.number steps.old) (L.number steps.new) machine.old.cells machine.new.cells) (state_of machine.new) result }
    ensures outside { OnOk result (outside machine.new ≡ outside machine.old) }
    ensures later { (S.Source.seen source.old).faults ≤ (S.Source.seen source.new).faults }
{
    let leapt = try_leap(
        machine, order, code, instr, values, intake, source, items, steps,
    )?;
    if leapt {
        return Ok(Progress::More);
    }
    take_next(machine, order, code, values, intake, source, items, steps)
}

// Takes steps in one go, if the log keeps nothing and there are such steps, and says whether it did.
#[inline(always)]
fn try_leap<S: Source, L: Ledger>(
    machine: &mut Machine,
    order: Order,
    code: &Code,
    instr: Instr,
    values: &EnumLists,
    intake: &mut Intake,
    source: &mut S,
    items: &ItemLog,
    steps: &mut Steps<L>,
) -> Result<bool, LeapFault>
    requires short { length code.now < 2 ^ 32 }
    requires here { slice_get code.now machine.old.pc ≡ Some instr }
    requires safe { (fetched : List ℕ) (noted : List Item) (s : State)
        → Reaches values.now order code.now machine.old.home (state_of machine.old) fetched noted s → IsSafe code.now s }
    ensures leaps { Leaps values.now order code.now machine.old.home (state_of machine.old)
        (source_over S.Source.seen source.old source.new) (L.number steps.old) (L.number steps.new)
        (state_of machine.new) result }
    ensures quiet { IfOk result (λ leapt. leapt ≡ true → items.now.keeps ≡ false) }
    ensures fault { OnErr result (items.now.keeps ≡ false) }
    ensures outside { OnOk result (outside machine.new ≡ outside machine.old) }
    ensures later { (S.Source.seen source.old).faults ≤ (S.Source.seen source.new).faults }
{
    if items.keeps() {
        return Ok(false);
    }
    leap(machine, order, code, instr, values, intake, source, steps)
}

// One step; a row of numbers where there is one.
#[inline(never)]
fn take_next<S: Source, L: Ledger>(
    machine: &mut Machine,
    order: Order,
    code: &Code,
    values: &EnumLists,
    intake: &mut Intake,
    source: &mut S,
    items: &mut ItemLog,
    steps: &mut Steps<L>,
) -> Result<Progress, DecodeFault>
    requires short { length code.now < 2 ^ 32 }
    requires safe { (fetched : List ℕ) (noted : List Item) (s : State)
        → Reaches values.now order code.now machine.old.home (state_of machine.old) fetched noted s → IsSafe code.now s }
    ensures turns { Turns values.now order code.now machine.old.home (state_of machine.old)
        (source_over S.Source.seen source.old source.new)
        (notes_seen items.old items.new (L.number steps.old) (L.number steps.new) machine.old.cells machine.new.cells) (state_of machine.new) result }
    ensures outside { OnOk result (outside machine.new ≡ outside machine.old) }
    ensures later { (S.Source.seen source.old).faults ≤ (S.Source.seen source.new).faults }
{
    let instr = code.at(machine.pc);
    if is_flow(machine, instr) {
        let progress = take_flow(machine, instr)?;
        return Ok(progress);
    }
    let Instr::Num { of } = instr else {
        return take_one(
            machine, order, code, instr, values, intake, source, items, steps,
        );
    };
    let count = row_len(machine, code, prim_of(of.0));
    if count == 1 {
        return take_one(
            machine, order, code, instr, values, intake, source, items, steps,
        );
    }
    take_row(
        machine, order, code, values, of, count, intake, source, items, steps,
    )
}

// One step.
#[inline(always)]
fn take_one<S: Source, L: Ledger>(
    machine: &mut Machine,
    order: Order,
    code: &Code,
    instr: Instr,
    values: &EnumLists,
    intake: &mut Intake,
    source: &mut S,
    items: &mut ItemLog,
    steps: &mut Steps<L>,
) -> Result<Progress, DecodeFault>
    requires short { length code.now < 2 ^ 32 }
    requires here { slice_get code.now machine.old.pc ≡ Some instr }
    requires safe { (fetched : List ℕ) (noted : List Item) (s : State)
        → Reaches values.now order code.now machine.old.home (state_of machine.old) fetched noted s → IsSafe code.now s }
    ensures turns { Turns values.now order code.now machine.old.home (state_of machine.old)
        (source_over S.Source.seen source.old source.new)
        (notes_seen items.old items.new (L.number steps.old) (L.number steps.new) machine.old.cells machine.new.cells) (state_of machine.new) result }
    ensures outside { OnOk result (outside machine.new ≡ outside machine.old) }
    ensures later { (S.Source.seen source.old).faults ≤ (S.Source.seen source.new).faults }
{
    let came = fetch(machine, instr, values, intake, source);
    are_octets(intake.octets());
    came?;
    take_step(machine, order, intake.octets(), instr, values, items, steps)
}

// Fetches the octets that a step wants.
#[inline(always)]
fn fetch<S: Source>(
    machine: &Machine,
    instr: Instr,
    values: &EnumLists,
    intake: &mut Intake,
    source: &mut S,
) -> Result<(), DecodeFault>
    requires inner { IsInner instr }
    requires within { machine.now.at ≤ STREAM_LIMIT }
    ensures fetched { Fetches (wants values.now instr (state_of machine.now)) machine.now.at
        (source_over S.Source.seen source.old source.new) intake.new result }
    ensures fits { IfOk result (λ _. machine.now.at + length intake.new + 8 < 2 ^ 32) }
    ensures left { Consumes (S.Source.seen source.old).left (S.Source.seen source.new).left intake.new }
    ensures later { (S.Source.seen source.old).faults ≤ (S.Source.seen source.new).faults }
{
    match wanted(machine, instr, values) {
        Want::Gap(count) => fetched(intake.gap(source, machine.at, count)),
        Want::Item(count) => fetched(intake.item(source, machine.at, count)),
    }
}

// Octets are numbers below 256.
#[inline(always)]
fn are_octets(octets: &[u8])
    ensures { AreOctets octets.now }
{}

// So many numbers in a row.
fn take_row<S: Source, L: Ledger>(
    machine: &mut Machine,
    order: Order,
    code: &Code,
    values: &EnumLists,
    of: TypeId,
    count: u32,
    intake: &mut Intake,
    source: &mut S,
    items: &mut ItemLog,
    steps: &mut Steps<L>,
) -> Result<Progress, DecodeFault>
    requires many { 1 < count }
    requires piece { count * width (prim_of of.0) ≤ PIECE }
    requires within { machine.old.at + count * width (prim_of of.0) ≤ STREAM_LIMIT }
    requires aligned { machine.old.at % width (prim_of of.0) ≡ 0 }
    requires row { IsInRow code.now (count - 1) machine.old.pc (prim_of of.0) machine.old.top }
    requires short { length code.now < 2 ^ 32 }
    requires here { slice_get code.now machine.old.pc ≡ Some (op.Num of) }
    requires safe { (fetched : List ℕ) (noted : List Item) (s : State)
        → Reaches values.now order code.now machine.old.home (state_of machine.old) fetched noted s → IsSafe code.now s }
    ensures turns { Turns values.now order code.now machine.old.home (state_of machine.old)
        (source_over S.Source.seen source.old source.new)
        (notes_seen items.old items.new (L.number steps.old) (L.number steps.new) machine.old.cells machine.new.cells) (state_of machine.new) result }
    ensures outside { OnOk result (outside machine.new ≡ outside machine.old) }
    ensures later { (S.Source.seen source.old).faults ≤ (S.Source.seen source.new).faults }
{
    let prim = prim_of(of.0);
    let came = fetched(intake.item(source, machine.at, count * width_of(prim) as u32));
    are_octets(intake.octets());
    if let Err(fault) = came {
        note_whole(machine, order, intake.octets(), prim, items, steps)?;
        return Err(fault);
    }
    let ahead = source.ahead();
    read_row(
        machine,
        order,
        intake.octets(),
        prim,
        count,
        ahead,
        items,
        steps,
    )?;
    Ok(Progress::More)
}

// Notes the numbers of a row whose octets have all come.
fn note_whole<L: Ledger>(
    machine: &Machine,
    order: Order,
    octets: &[u8],
    prim: Prim,
    items: &mut ItemLog,
    steps: &mut Steps<L>,
) -> Result<(), DecodeFault>
    requires fits { machine.now.at + length octets.now < 2 ^ 32 }
    requires few { machine.now.count + length octets.now < 2 ^ 32 }
    ensures noted { RowNoted order prim machine.now.home machine.now.at machine.now.count (length octets.now / width prim)
        (take (length octets.now / width prim * width prim) octets.now)
        (notes_seen items.old items.new (L.number steps.old) (L.number steps.new) machine.now.cells machine.now.cells) result }
    ensures memory { IfErr result (λ e. e ≡ fault.Memory) }
{
    let wide = width_of(prim);
    let count = octets.len() / wide;
    if count == 0 {
        return Ok(());
    }
    note_row(
        machine,
        order,
        &octets[..count * wide],
        prim,
        count as u32,
        items,
        steps,
    )
}

/// What a fault of the intake says of a stream. Takes no memory.
#[inline(always)]
pub fn fetched(answer: Result<(), IntakeFault>) -> Result<(), DecodeFault>
    ensures { result ≡ stream_answer answer }
{
    match answer {
        Ok(()) => Ok(()),
        Err(IntakeFault::Memory) => Err(DecodeFault::Memory),
        Err(IntakeFault::ReadFault) => Err(DecodeFault::ReadFault),
        Err(IntakeFault::TooLong) => Err(DecodeFault::Bad {
            place: STREAM_LIMIT,
            reason: Reason::TooLong,
        }),
        Err(IntakeFault::Truncated { place }) => Err(DecodeFault::Bad {
            place,
            reason: Reason::Truncated,
        }),
    }
}
