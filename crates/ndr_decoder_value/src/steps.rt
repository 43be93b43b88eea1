// What each instruction does.
ghost use Rattle.std.specs.Prelude.{◌≡◌, ◌≢◌, ◌<◌, ◌+◌, ◌^◌, true, false, [], length, OnOk, IfOk};
ghost use Rattle.ndr_code.specs.declared.instr.Instr.TheVariants as op;
ghost use Rattle.ndr_decoder_laws.specs.steps.Steps.{IsInner, step, wants, text_want, hoist_want, limit_of};
ghost use Rattle.ndr_decoder_state.specs.Seen.{state_of, phase_of, Comes, Does, outside};
ghost use Rattle.ndr_decoder_value.specs.Wanting.{Wants, IsFewGap};
ghost use Rattle.ndr_decoder_value.specs.Parts.{HasWanted, arm_tried, reads, flows, quick, Acts, ActNoted, FlowComes};
ghost use Rattle.ndr_decoder_laws.specs.steps.StepItems.{arm_items, step_items};
ghost use Rattle.ndr_decoder_state.specs.Notes.{Noted, notes_seen};

use crate::arrays::{align, array, hoist, varying};
use crate::checks::check;
use crate::enumerators::carrier_of;
use crate::numbers::{context, enumerated, number};
use crate::pointers::{To, pointer};
use crate::texts::text;
use crate::unions::{arm, tag};
use nd_base::{Ledger, Memory, Order, Steps};
use nd_grammar::Reason;
use nd_value::ItemLog;
use ndr_code::{EnumLists, Instr, prim_of};
use ndr_decoder_fast::gap_to;
use ndr_decoder_state::{DecodeFault, Machine, Phase, Progress, gap_before};
use ndr_prim::width_of;

/// What octets a step wants: those of a gap, or of a primitive.
#[derive(Clone, Copy, Debug, PartialEq, Eq)]
pub enum Want {
    Gap(u32),
    Item(u32),
}

/// The octets that an instruction wants next. Takes no memory.
#[inline(always)]
pub fn wanted(machine: &Machine, instr: Instr, values: &EnumLists) -> Want
    requires inner { IsInner instr }
    ensures wants { Wants (wants values.now instr (state_of machine.now)) result }
    ensures few { IsFewGap result }
{
    match instr {
        Instr::Align { to } => Want::Gap(gap_to(machine.at, to)),
        Instr::Num { of } => Want::Item(width_of(prim_of(of.0)) as u32),
        Instr::Enum { .. } => Want::Item(2),
        Instr::Vary { .. } => Want::Item(4),
        Instr::Confvary { .. } => Want::Item(4),
        Instr::Text { .. } => text_wanted(machine),
        Instr::Hoist => hoist_wanted(machine),
        Instr::Tag { of } => Want::Item(width_of(carrier_of(values, of)) as u32),
        Instr::Pointer { .. } => Want::Item(4),
        Instr::Context => Want::Item(20),
        Instr::Void
        | Instr::Ret
        | Instr::Record { .. }
        | Instr::Close
        | Instr::Fixed { .. }
        | Instr::Conf { .. }
        | Instr::Arm { .. }
        | Instr::Other { .. }
        | Instr::Noarm
        | Instr::Direct { .. }
        | Instr::Check { .. }
        | Instr::Given { .. }
        | Instr::Pipe { .. }
        | Instr::Defer
        | Instr::Call { .. } => Want::Gap(0),
    }
}

// The octets that a string wants next.
fn text_wanted(machine: &Machine) -> Want
    ensures wants { Wants (text_want [] (phase_of machine.now.phase)) result }
    ensures few { IsFewGap result }
{
    match machine.phase {
        Phase::CountRead(count) => Want::Item(count.saturating_add(1)),
        Phase::Begun | Phase::GapRead | Phase::OffsetRead(_) => Want::Item(4),
    }
}

// The octets that a maximum count wants next.
fn hoist_wanted(machine: &Machine) -> Want
    ensures wants { Wants (hoist_want [] (phase_of machine.now.phase) machine.now.at) result }
    ensures few { IsFewGap result }
{
    match machine.phase {
        Phase::GapRead => Want::Item(4),
        Phase::Begun | Phase::OffsetRead(_) | Phase::CountRead(_) => Want::Gap(gap_before(
            machine.at, 4,
        )),
    }
}

/// Whether the step reads and notes nothing: it begins or ends a struct or a run, or is a gap that is empty. Takes no memory.
#[inline(always)]
pub fn is_flow(machine: &Machine, instr: Instr) -> bool
    ensures { result ≡ flows instr machine.now.at }
{
    match instr {
        Instr::Ret | Instr::Record { members: _ } | Instr::Close | Instr::Call { run: _ } => true,
        Instr::Align { to } => gap_to(machine.at, to) == 0,
        _ => false,
    }
}

/// Whether the step is one of those that are taken first: it ends a run, or is a gap that is empty. Takes no memory.
#[inline(always)]
pub fn is_quick(machine: &Machine, instr: Instr) -> bool
    ensures { result ≡ quick instr machine.now.at }
{
    match instr {
        Instr::Ret => true,
        Instr::Align { to } => gap_to(machine.at, to) == 0,
        _ => false,
    }
}

/// What such a step does. Takes no memory.
#[inline(always)]
pub fn pass_quick(machine: &mut Machine, instr: Instr) -> Progress
    requires quick { quick instr machine.old.at ≡ true }
    requires code { machine.old.pc < 2 ^ 32 }
    requires fits { machine.old.at + 8 < 2 ^ 32 }
    ensures does { FlowComes instr (state_of machine.old) result (state_of machine.new) }
    ensures outside { outside machine.new ≡ outside machine.old }
{
    match instr {
        Instr::Ret => machine.ret(),
        Instr::Align { to: _ } => {
            machine.pass(0);
            Progress::More
        }
        _ => unreachable!(),
    }
}

/// What a step does that reads and notes nothing. It takes memory at the beginning of a struct and of a member, and out of memory is the only
/// refusal; then nothing is known of the machine.
#[inline(always)]
pub fn take_flow(machine: &mut Machine, instr: Instr) -> Result<Progress, Memory>
    requires flow { flows instr machine.old.at ≡ true }
    requires code { machine.old.pc < 2 ^ 32 }
    requires fits { machine.old.at + 8 < 2 ^ 32 }
    requires few { machine.old.count + 1 < 2 ^ 32 }
    ensures does { IfOk result (λ p. FlowComes instr (state_of machine.old) p (state_of machine.new)) }
    ensures outside { OnOk result (outside machine.new ≡ outside machine.old) }
{
    match instr {
        Instr::Ret => Ok(machine.ret()),
        Instr::Call { run } => {
            let Ok(()) = machine.call(run) else {
                return Err(Memory);
            };
            Ok(Progress::More)
        }
        Instr::Record { members } => {
            let Ok(()) = machine.record(members) else {
                return Err(Memory);
            };
            Ok(Progress::More)
        }
        Instr::Close => {
            machine.close();
            Ok(Progress::More)
        }
        Instr::Align { to: _ } => {
            machine.pass(0);
            Ok(Progress::More)
        }
        _ => unreachable!(),
    }
}

/// What an instruction of a home's value does with the octets that it wanted, all fetched. The item that they are is noted, if they are not
/// refused; each item but a gap, and each cell that gets its number, is counted as a step. It takes memory for what was read; after `Memory` nothing
/// is known of the machine.
#[inline(always)]
pub fn take_step<L: Ledger>(
    machine: &mut Machine,
    order: Order,
    octets: &[u8],
    instr: Instr,
    values: &EnumLists,
    items: &mut ItemLog,
    steps: &mut Steps<L>,
) -> Result<Progress, DecodeFault>
    requires inner { IsInner instr }
    requires wanted { HasWanted (wants values.now instr (state_of machine.old)) octets.now }
    requires code { machine.old.pc < 2 ^ 32 }
    requires fits { machine.old.at + length octets.now + 8 < 2 ^ 32 }
    requires few { machine.old.count + 1 < 2 ^ 32 }
    requires cells { machine.old.cells + 1 < 2 ^ 32 }
    ensures does { Comes (step values.now order octets.now instr (state_of machine.old)) result (state_of machine.new) }
    ensures noted { Noted (step values.now order octets.now instr (state_of machine.old))
        (step_items order machine.old.home octets.now instr (state_of machine.old))
        (notes_seen items.old items.new (L.number steps.old) (L.number steps.new) machine.old.cells machine.new.cells) result }
    ensures outside { OnOk result (outside machine.new ≡ outside machine.old) }
{
    if let Instr::Ret = instr {
        return Ok(machine.ret());
    }
    go_on(machine, order, octets, instr, values, items, steps)?;
    Ok(Progress::More)
}

// An instruction after which there is more.
#[inline(always)]
fn go_on<L: Ledger>(
    machine: &mut Machine,
    order: Order,
    octets: &[u8],
    instr: Instr,
    values: &EnumLists,
    items: &mut ItemLog,
    steps: &mut Steps<L>,
) -> Result<(), DecodeFault>
    requires more { instr ≢ op.Ret }
    requires inner { IsInner instr }
    requires wanted { HasWanted (wants values.now instr (state_of machine.old)) octets.now }
    requires code { machine.old.pc < 2 ^ 32 }
    requires fits { machine.old.at + length octets.now + 8 < 2 ^ 32 }
    requires few { machine.old.count + 1 < 2 ^ 32 }
    requires cells { machine.old.cells + 1 < 2 ^ 32 }
    ensures does { Does (step values.now order octets.now instr (state_of machine.old)) result (state_of machine.new) }
    ensures noted { Noted (step values.now order octets.now instr (state_of machine.old))
        (step_items order machine.old.home octets.now instr (state_of machine.old))
        (notes_seen items.old items.new (L.number steps.old) (L.number steps.new) machine.old.cells machine.new.cells) result }
    ensures outside { OnOk result (outside machine.new ≡ outside machine.old) }
{
    if reads_octets(instr) {
        read_item(machine, order, octets, instr, values, items, steps)
    } else {
        act(machine, instr, items, steps)
    }
}

// Whether an instruction reads octets.
#[inline(always)]
fn reads_octets(instr: Instr) -> bool
    ensures { result ≡ reads instr }
{
    match instr {
        Instr::Align { to: _ }
        | Instr::Num { of: _ }
        | Instr::Enum { of: _ }
        | Instr::Vary { bound: _, run: _ }
        | Instr::Confvary { run: _ }
        | Instr::Text { bound: _ }
        | Instr::Hoist
        | Instr::Tag { of: _ }
        | Instr::Pointer {
            class: _,
            to: _,
            run: _,
        }
        | Instr::Context => true,
        _ => false,
    }
}

// An instruction that reads octets.
#[inline(always)]
fn read_item<L: Ledger>(
    machine: &mut Machine,
    order: Order,
    octets: &[u8],
    instr: Instr,
    values: &EnumLists,
    items: &mut ItemLog,
    steps: &mut Steps<L>,
) -> Result<(), DecodeFault>
    requires reads { reads instr ≡ true }
    requires wanted { HasWanted (wants values.now instr (state_of machine.old)) octets.now }
    requires code { machine.old.pc < 2 ^ 32 }
    requires fits { machine.old.at + length octets.now + 8 < 2 ^ 32 }
    requires few { machine.old.count + 1 < 2 ^ 32 }
    requires cells { machine.old.cells + 1 < 2 ^ 32 }
    ensures does { Does (step values.now order octets.now instr (state_of machine.old)) result (state_of machine.new) }
    ensures noted { Noted (step values.now order octets.now instr (state_of machine.old))
        (step_items order machine.old.home octets.now instr (state_of machine.old))
        (notes_seen items.old items.new (L.number steps.old) (L.number steps.new) machine.old.cells machine.new.cells) result }
    ensures outside { OnOk result (outside machine.new ≡ outside machine.old) }
{
    match instr {
        Instr::Align { to: _ } => align(machine, octets, items, steps),
        Instr::Num { of } => number(machine, order, octets, prim_of(of.0), items, steps),
        Instr::Enum { of } => enumerated(machine, order, octets, values, of, items, steps),
        Instr::Vary { bound, run } => varying(machine, order, octets, bound, run, items, steps),
        Instr::Confvary { run } => {
            let max = machine.max;
            varying(machine, order, octets, max, run, items, steps)
        }
        Instr::Text { bound } => {
            let max = limit(machine, bound);
            text(machine, order, octets, max, items, steps)
        }
        Instr::Hoist => hoist(machine, order, octets, items, steps),
        Instr::Tag { of } => tag(machine, order, octets, values, of),
        Instr::Pointer { class, to, run } => {
            let to = To { class, to, run };
            pointer(machine, order, octets, to, items, steps)
        }
        Instr::Context => context(machine, order, octets, items, steps),
        _ => unreachable!(),
    }
}

// An instruction that reads nothing, and after which there is more.
fn act<L: Ledger>(
    machine: &mut Machine,
    instr: Instr,
    items: &mut ItemLog,
    steps: &mut Steps<L>,
) -> Result<(), DecodeFault>
    requires idle { reads instr ≡ false }
    requires more { instr ≢ op.Ret }
    requires inner { IsInner instr }
    requires code { machine.old.pc < 2 ^ 32 }
    requires fits { machine.old.at + 8 < 2 ^ 32 }
    requires few { machine.old.count + 1 < 2 ^ 32 }
    ensures does { Acts instr (state_of machine.old) result (state_of machine.new) }
    ensures noted { ActNoted machine.old.home instr (state_of machine.old)
        (notes_seen items.old items.new (L.number steps.old) (L.number steps.new) machine.old.cells machine.new.cells) result }
    ensures outside { OnOk result (outside machine.new ≡ outside machine.old) }
{
    match instr {
        Instr::Void => {
            machine.skip();
            Ok(())
        }
        Instr::Record { members } => machine.record(members),
        Instr::Close => {
            machine.close();
            Ok(())
        }
        Instr::Fixed { count, run } => array(machine, count, run),
        Instr::Conf { run } => {
            let max = machine.max;
            array(machine, max, run)
        }
        Instr::Arm { label, run } => try_arm(machine, label, run, items, steps),
        Instr::Other { run } => arm(machine, run, items, steps),
        Instr::Noarm => Err(DecodeFault::Bad {
            place: machine.at,
            reason: Reason::NoArm,
        }),
        Instr::Check {
            attr,
            field,
            var,
            star: _,
        } => check(machine, attr, field, var),
        Instr::Call { run } => machine.call(run),
        _ => unreachable!(),
    }
}

// `arm`
fn try_arm<L: Ledger>(
    machine: &mut Machine,
    label: i128,
    run: u32,
    items: &mut ItemLog,
    steps: &mut Steps<L>,
) -> Result<(), DecodeFault>
    requires code { machine.old.pc < 2 ^ 32 }
    requires fits { machine.old.at + 8 < 2 ^ 32 }
    requires few { machine.old.count + 1 < 2 ^ 32 }
    ensures does { Does (arm_tried label run (state_of machine.old)) result (state_of machine.new) }
    ensures noted { Noted (arm_tried label run (state_of machine.old)) (arm_items machine.old.home label (state_of machine.old))
        (notes_seen items.old items.new (L.number steps.old) (L.number steps.new) machine.old.cells machine.new.cells) result }
    ensures outside { OnOk result (outside machine.new ≡ outside machine.old) }
{
    if label != machine.tag {
        machine.skip();
        return Ok(());
    }
    arm(machine, run, items, steps)
}

// A bound of a string, of which 0 means the maximum count.
fn limit(machine: &Machine, bound: u32) -> u32
    ensures { result ≡ limit_of bound (state_of machine.now) }
{
    if bound == 0 { machine.max } else { bound }
}
