// Arrays, and maximum counts before a home's value.
ghost use Rattle.std.specs.Prelude.{◌≡◌, ◌<◌, ◌+◌, ◌^◌, None, length, pos, [], ◌∷◌, OnOk, OnErr};
ghost use Rattle.nd_value.specs.Tree as tree;
ghost use Rattle.ndr_decoder_laws.specs.steps.Steps.{goes, elements, with_node, past, vary_by, hoist_by, with_max, done_after};
ghost use Rattle.ndr_decoder_laws.specs.steps.Steps as phase;
ghost use Rattle.ndr_decoder_state.specs.Seen.{state_of, Does, phase_of, outside};
ghost use Rattle.nd_value.specs.declared.item.ItemKind.TheVariants as item;
ghost use Rattle.ndr_decoder_laws.specs.steps.StepItems.{next_item, gap_items, vary_items, hoist_items};
ghost use Rattle.ndr_decoder_state.specs.Notes.{Noted, notes_seen};

use nd_base::{Ledger, Order, Steps};
use nd_flat::Seen;
use nd_grammar::Reason;
use nd_value::{ItemKind, ItemLog};
use ndr_decoder_laws::Frame;
use ndr_decoder_state::{DecodeFault, Machine, Phase, read_count};

// `fixed` and `conf`
pub(crate) fn array(machine: &mut Machine, count: u32, run: u32) -> Result<(), DecodeFault>
    requires code { machine.old.pc < 2 ^ 32 }
    requires few { machine.old.count + 1 < 2 ^ 32 }
    ensures does { Does (goes (elements count run (with_node (tree.Arr count 0, count) None (state_of machine.old)))) result (state_of machine.new) }
    ensures outside { OnOk result (outside machine.new ≡ outside machine.old) }
{
    let node = Seen::Arr {
        max: count,
        offset: 0,
        count,
    };
    machine.add(&node, None)?;
    begin_elements(machine, count, run)
}

// So many elements by the run; if there is none, the next instruction.
fn begin_elements(machine: &mut Machine, count: u32, run: u32) -> Result<(), DecodeFault>
    requires code { machine.old.pc < 2 ^ 32 }
    ensures does { Does (goes (elements count run (state_of machine.old))) result (state_of machine.new) }
    ensures outside { OnOk result (outside machine.new ≡ outside machine.old) }
{
    if count == 0 {
        machine.skip();
        return Ok(());
    }
    let back = machine.pc + 1;
    machine.push(Frame::Elements {
        left: count - 1,
        run,
        back,
    })?;
    machine.jump(run as usize);
    Ok(())
}

// `vary` and `confvary`: the offset, and then the actual count
pub(crate) fn varying<L: Ledger>(
    machine: &mut Machine,
    order: Order,
    octets: &[u8],
    limit: u32,
    run: u32,
    items: &mut ItemLog,
    steps: &mut Steps<L>,
) -> Result<(), DecodeFault>
    requires wide { length octets.now ≡ 4 }
    requires code { machine.old.pc < 2 ^ 32 }
    requires fits { machine.old.at + 4 < 2 ^ 32 }
    requires few { machine.old.count + 1 < 2 ^ 32 }
    ensures does { Does (vary_by [] order octets.now (phase_of machine.old.phase) limit run (state_of machine.old)) result (state_of machine.new) }
    ensures noted { Noted (vary_by [] order octets.now (phase_of machine.old.phase) limit run (state_of machine.old))
        (vary_items order machine.old.home octets.now (phase_of machine.old.phase) (state_of machine.old))
        (notes_seen items.old items.new (L.number steps.old) (L.number steps.new) machine.old.cells machine.new.cells) result }
    ensures outside { OnOk result (outside machine.new ≡ outside machine.old) }
{
    let number = read_count(order, octets);
    match machine.phase {
        Phase::OffsetRead(offset) => actual(machine, offset, number, limit, run, items, steps),
        Phase::Begun | Phase::GapRead | Phase::CountRead(_) => {
            count_read(
                machine,
                ItemKind::Offset,
                number,
                Phase::OffsetRead(number),
                items,
                steps,
            )
        }
    }
}

// A count that is passed, after which the same instruction goes on.
pub(crate) fn count_read<L: Ledger>(
    machine: &mut Machine,
    kind: ItemKind,
    number: u32,
    phase: Phase,
    items: &mut ItemLog,
    steps: &mut Steps<L>,
) -> Result<(), DecodeFault>
    requires fits { machine.old.at + 4 < 2 ^ 32 }
    ensures does { Does (goes (past 4 (phase_of phase) (state_of machine.old))) result (state_of machine.new) }
    ensures noted { Noted (goes (past 4 (phase_of phase) (state_of machine.old)))
        (next_item machine.old.home (state_of machine.old) kind 4 (pos number) ∷ [])
        (notes_seen items.old items.new (L.number steps.old) (L.number steps.new) machine.old.cells machine.new.cells) result }
    ensures outside { OnOk result (outside machine.new ≡ outside machine.old) }
    ensures count { machine.new.count ≡ machine.old.count }
    ensures pc { machine.new.pc ≡ machine.old.pc }
    ensures unnoted { OnErr result (items.new ≡ items.old) }
    ensures idle { OnErr result (steps.new ≡ steps.old) }
    ensures memory { IfErr result (λ e. e ≡ fault.Memory) }
{
    machine.note(kind, 4, i128::from(number), items, steps)?;
    machine.at += 4;
    machine.phase = phase;
    Ok(())
}

// The actual count of an array after its offset: the elements follow.
fn actual<L: Ledger>(
    machine: &mut Machine,
    offset: u32,
    count: u32,
    limit: u32,
    run: u32,
    items: &mut ItemLog,
    steps: &mut Steps<L>,
) -> Result<(), DecodeFault>
    requires code { machine.old.pc < 2 ^ 32 }
    requires fits { machine.old.at + 4 < 2 ^ 32 }
    requires few { machine.old.count + 1 < 2 ^ 32 }
    ensures does { Does (actual_read offset count limit run (state_of machine.old)) result (state_of machine.new) }
    ensures noted { Noted (actual_read offset count limit run (state_of machine.old))
        (next_item machine.old.home (state_of machine.old) item.Actual 4 (pos count) ∷ [])
        (notes_seen items.old items.new (L.number steps.old) (L.number steps.new) machine.old.cells machine.new.cells) result }
    ensures outside { OnOk result (outside machine.new ≡ outside machine.old) }
{
    if u64::from(limit) < u64::from(offset) + u64::from(count) {
        return Err(DecodeFault::Bad {
            place: machine.at,
            reason: Reason::PastBound,
        });
    }
    let place = machine.at;
    count_read(machine, ItemKind::Actual, count, Phase::Begun, items, steps)?;
    let node = Seen::Arr {
        max: limit,
        offset,
        count,
    };
    machine.add(&node, Some(place))?;
    begin_elements(machine, count, run)
}

// `hoist`: the gap, and then the maximum count
pub(crate) fn hoist<L: Ledger>(
    machine: &mut Machine,
    order: Order,
    octets: &[u8],
    items: &mut ItemLog,
    steps: &mut Steps<L>,
) -> Result<(), DecodeFault>
    requires wide { IsHoisted (phase_of machine.old.phase) octets.now }
    requires code { machine.old.pc < 2 ^ 32 }
    requires fits { machine.old.at + length octets.now < 2 ^ 32 }
    ensures does { Does (hoist_by [] order octets.now (phase_of machine.old.phase) (state_of machine.old)) result (state_of machine.new) }
    ensures noted { Noted (hoist_by [] order octets.now (phase_of machine.old.phase) (state_of machine.old))
        (hoist_items order machine.old.home octets.now (phase_of machine.old.phase) (state_of machine.old))
        (notes_seen items.old items.new (L.number steps.old) (L.number steps.new) machine.old.cells machine.new.cells) result }
    ensures outside { OnOk result (outside machine.new ≡ outside machine.old) }
{
    match machine.phase {
        Phase::GapRead => maximum(machine, read_count(order, octets), items, steps),
        Phase::Begun | Phase::OffsetRead(_) | Phase::CountRead(_) => hoist_gap(
            machine, octets, items, steps,
        ),
    }
}

// The gap before a maximum count.
fn hoist_gap<L: Ledger>(
    machine: &mut Machine,
    octets: &[u8],
    items: &mut ItemLog,
    steps: &mut Steps<L>,
) -> Result<(), DecodeFault>
    requires fits { machine.old.at + length octets.now < 2 ^ 32 }
    ensures does { Does (goes (past (length octets.now) phase.gap_read (state_of machine.old))) result (state_of machine.new) }
    ensures noted { Noted (goes (past (length octets.now) phase.gap_read (state_of machine.old)))
        (gap_items machine.old.home machine.old.at octets.now)
        (notes_seen items.old items.new (L.number steps.old) (L.number steps.new) machine.old.cells machine.new.cells) result }
    ensures outside { OnOk result (outside machine.new ≡ outside machine.old) }
{
    machine.note_gap(octets, items, steps)?;
    machine.at += octets.len() as u32;
    machine.phase = Phase::GapRead;
    Ok(())
}

// The maximum count before a home's value.
fn maximum<L: Ledger>(
    machine: &mut Machine,
    max: u32,
    items: &mut ItemLog,
    steps: &mut Steps<L>,
) -> Result<(), DecodeFault>
    requires code { machine.old.pc < 2 ^ 32 }
    requires fits { machine.old.at + 4 < 2 ^ 32 }
    ensures does { Does (goes (done_after 4 (with_max max (state_of machine.old)))) result (state_of machine.new) }
    ensures noted { Noted (goes (done_after 4 (with_max max (state_of machine.old))))
        (next_item machine.old.home (state_of machine.old) item.Max 4 (pos max) ∷ [])
        (notes_seen items.old items.new (L.number steps.old) (L.number steps.new) machine.old.cells machine.new.cells) result }
    ensures outside { OnOk result (outside machine.new ≡ outside machine.old) }
{
    machine.note(ItemKind::Max, 4, i128::from(max), items, steps)?;
    machine.max = max;
    machine.max_at = Some(machine.at);
    machine.pass(4);
    Ok(())
}

// `align`
#[inline(always)]
pub(crate) fn align<L: Ledger>(
    machine: &mut Machine,
    octets: &[u8],
    items: &mut ItemLog,
    steps: &mut Steps<L>,
) -> Result<(), DecodeFault>
    requires code { machine.old.pc < 2 ^ 32 }
    requires fits { machine.old.at + length octets.now < 2 ^ 32 }
    ensures does { Does (goes (done_after (length octets.now) (state_of machine.old))) result (state_of machine.new) }
    ensures noted { Noted (goes (done_after (length octets.now) (state_of machine.old))) (gap_items machine.old.home machine.old.at octets.now)
        (notes_seen items.old items.new (L.number steps.old) (L.number steps.new) machine.old.cells machine.new.cells) result }
    ensures outside { OnOk result (outside machine.new ≡ outside machine.old) }
{
    machine.note_gap(octets, items, steps)?;
    machine.pass(octets.len() as u32);
    Ok(())
}

ghost use Rattle.std.specs.Prelude.{IfErr};
ghost use Rattle.ndr_decoder_state.specs.declared.fault.DecodeFault.TheVariants as fault;
ghost use Rattle.ndr_decoder_value.specs.Parts.{actual_read, IsHoisted};
