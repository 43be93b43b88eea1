// Pending referents.
ghost use Rattle.std.specs.Prelude.{◌≡◌, ◌≤◌, ◌+◌, Some, None, [], length, map, OnOk, IfOk, IfSome, IfNone};
ghost use Rattle.nd_base.specs.Over.{source_over};
ghost use Rattle.nd_types.specs.declared.types.Class.TheVariants.{Full};
ghost use Rattle.ndr_decoder_state.specs.Seen.{agreement_of, owed_of};
ghost use Rattle.nd_grammar.specs.decoded.Verdict.{decoding_seen};
ghost use Rattle.ndr_decoder_laws.specs.stream.Between.{kept_at};
ghost use Rattle.ndr_decode.specs.Streaming.{ArePaid, IsAtReferent, IsStreaming, PendingReads, ReferentReads, purpose_of, with_taken};
ghost use Rattle.ndr_decode.specs.Tried.{AreTried};

use crate::homes::read_home;
use nd_base::{Intake, Ledger, Order, Source, Steps};
use nd_types::Class;
use nd_value::{CellId, ItemLog};
use ndr_code::Plan;
use ndr_decoder_laws::Kept;
use ndr_decoder_state::{DecodeFault, Owed, Wanted};
use ndr_decoder_stream::Stream;
use ndr_decoder_value::try_in;

// Reads what is pending, one referent after the other, each followed by those that it makes due.
pub(crate) fn read_pending<S: Source, L: Ledger>(
    plan: &Plan,
    order: Order,
    stream: &mut Stream,
    intake: &mut Intake,
    source: &mut S,
    items: &mut ItemLog,
    steps: &mut Steps<L>,
) -> Result<(), DecodeFault>
    requires streaming { IsStreaming plan.now order stream.old }
    ensures reads { PendingReads plan.now order stream.old (source_over S.Source.seen source.old source.new)
        (decoding_seen items.old items.new (L.number steps.old) (L.number steps.new)) stream.new result }
    ensures same { OnOk result (purpose_of stream.new ≡ purpose_of stream.old) }
    ensures later { (S.Source.seen source.old).faults ≤ (S.Source.seen source.new).faults }
{
    let mut next = None;
    // Each turn takes one of the referents that are pending, and for each that becomes pending four octets are read.
    for _turn in 0..u64::MAX {
        let Some(owed) = take_next(next, stream) else {
            return Ok(());
        };
        next = read_owed(plan, order, owed, stream, intake, source, items, steps)?;
    }
    unreachable!()
}

// The next of the pending referents: the one that was given, if one was.
#[inline(always)]
fn take_next(given: Option<Owed>, stream: &mut Stream) -> Option<Owed>
    requires within { IfSome given (λ o. o.from + o.len ≤ length stream.old.wanted.items) }
    ensures same { with_taken result stream.new ≡ with_taken given stream.old }
    ensures machine { stream.new.machine ≡ stream.old.machine }
    ensures within { IfSome result (λ o. o.from + o.len ≤ length stream.new.wanted.items) }
    ensures none { IfNone result (stream.new.todo.items ≡ []) }
{
    match given {
        Some(owed) => Some(owed),
        None => stream.todo.pop(),
    }
}

// The referent of a pointer that was taken from those that are pending, if it was not read yet, and the pointer's agreements. A null pointer has
// none. It may give the next of those that are pending.
#[inline(always)]
fn read_owed<S: Source, L: Ledger>(
    plan: &Plan,
    order: Order,
    owed: Owed,
    stream: &mut Stream,
    intake: &mut Intake,
    source: &mut S,
    items: &mut ItemLog,
    steps: &mut Steps<L>,
) -> Result<Option<Owed>, DecodeFault>
    requires next { IsAtReferent plan.now order owed stream.old }
    requires within { owed.from + owed.len ≤ length stream.old.wanted.items }
    ensures reads { ReferentReads plan.now order owed stream.old (source_over S.Source.seen source.old source.new)
        (decoding_seen items.old items.new (L.number steps.old) (L.number steps.new)) stream.new result }
    ensures given { IfOk result (λ q. IfSome q (λ o. o.from + o.len ≤ length stream.new.wanted.items)) }
    ensures paid { IfOk result (λ q. ArePaid stream.old q stream.new) }
    ensures same { OnOk result (purpose_of stream.new ≡ purpose_of stream.old) }
    ensures later { (S.Source.seen source.old).faults ≤ (S.Source.seen source.new).faults }
{
    let Some(cell) = owed.cell else {
        return Ok(None);
    };
    if let Class::Full = owed.class {
        if let Some(kept) = stream.kept_cell(cell) {
            try_all(stream.wanted.as_slice(), owed, kept)?;
            return Ok(None);
        }
    }
    read_referent(
        plan, order, owed, cell, stream, intake, source, items, steps,
    )
}

// The referent of a pointer, which was not read yet, and the pointer's agreements.
#[inline(always)]
fn read_referent<S: Source, L: Ledger>(
    plan: &Plan,
    order: Order,
    owed: Owed,
    cell: CellId,
    stream: &mut Stream,
    intake: &mut Intake,
    source: &mut S,
    items: &mut ItemLog,
    steps: &mut Steps<L>,
) -> Result<Option<Owed>, DecodeFault>
    requires next { IsAtReferent plan.now order owed stream.old }
    requires within { owed.from + owed.len ≤ length stream.old.wanted.items }
    requires cell { owed.cell ≡ Some cell }
    requires unread { owed.class ≡ Full → kept_at stream.old.cells.items cell.0 ≡ None }
    ensures reads { ReferentReads plan.now order owed stream.old (source_over S.Source.seen source.old source.new)
        (decoding_seen items.old items.new (L.number steps.old) (L.number steps.new)) stream.new result }
    ensures given { IfOk result (λ q. IfSome q (λ o. o.from + o.len ≤ length stream.new.wanted.items)) }
    ensures paid { IfOk result (λ q. ArePaid stream.old q stream.new) }
    ensures same { OnOk result (purpose_of stream.new ≡ purpose_of stream.old) }
    ensures later { (S.Source.seen source.old).faults ≤ (S.Source.seen source.new).faults }
{
    stream.open_cell(cell, owed.run);
    read_home(
        plan,
        order,
        &mut stream.machine,
        intake,
        source,
        items,
        steps,
    )?;
    if owed.len == 0 {
        stream.pass_cell(cell)?;
        let next = stream.settle_ahead(source.ahead())?;
        return Ok(next);
    }
    let kept = stream.end_cell(cell)?;
    try_all(stream.wanted.as_slice(), owed, kept)?;
    stream.settle()?;
    Ok(None)
}

// Tries the agreements of a pointer in its referent.
#[inline(always)]
fn try_all(wanted: &[Wanted], owed: Owed, kept: Kept) -> Result<(), DecodeFault>
    requires within { owed.from + owed.len ≤ length wanted.now }
    ensures { AreTried (owed_of wanted.now owed).agreements kept result }
{
    if owed.len == 0 {
        return Ok(());
    }
    try_each(&wanted[owed.from..owed.from + owed.len], kept)
}

// Tries agreements one after the other.
#[inline(never)]
fn try_each(wanted: &[Wanted], kept: Kept) -> Result<(), DecodeFault>
    ensures { AreTried (map agreement_of wanted.now) kept result }
{
    for at in 0..wanted.len() {
        let one = wanted[at];
        try_in(one, kept.first, kept.max_at)?;
    }
    Ok(())
}
