// Octets in memory are decoded, and their items are written in words up to the first fault.
ghost use Rattle.std.specs.Prelude.{◌≡◌, ◌<◌, ◌++◌, decimal, length, Some, option_map, IfOk, OnOk};
ghost use Rattle.std.specs.List.{slice_get};
ghost use Rattle.nd_base.specs.declared.octets.Order.{Order};
ghost use Rattle.nd_types.specs.declared.types.Operation.{Operation};
ghost use Rattle.nd_value.specs.Fitting.{setting_beside};
ghost use Rattle.nd_value.specs.Request.{IsRequestOf};
ghost use Rattle.ndr_explain.specs.Explained.{filled_gaps};
ghost use Rattle.command_decode.specs.Fronts.{IsLoggedFront, IsRefusedFront};
ghost use Rattle.command_decode.specs.Decoded.{IsTraced, fault_line, gaps_line, trailing_line};

use command_refusals::{OctetsFault, fault_words};
use itoa::Buffer;
use nd_base::{LentSource, Memory, Octets, Order, Steps, Uncounted};
use nd_grammar::Reason;
use nd_graph::{Fit, ItemLog};
use nd_types::{Interface, Side};
use ndr_decode::{DecodeFault, Decoded, decode};
use ndr_explain::{count_filled_gaps, explain_over};
use ndr_plan::make;
use ndr_trace::trace;
use std::alloc::Global;
use text_grammar::append_count;

// Octets in words.
#[derive(Drop)]
pub(crate) enum Traced {
    // They are accepted: a line for each item, and one that counts the gaps that are not zero.
    Whole(Octets),
    // They are refused at a place: a line for each item before it, the line of the fault, and one that counts the gaps that are not zero.
    Refused {
        lines: Octets,
        place: u32,
        why: OctetsFault,
    },
}

// The items of the values of a side of an operation, in words, a line for each, up to the first fault.
pub(crate) fn trace_held(
    alloc: Global,
    interface: &Interface,
    op: u32,
    side: Side,
    given: Option<&Fit>,
    order: Order,
    octets: &[u8],
) -> Result<Traced, Memory>
    requires known { op < length interface.now.operations }
    requires request { IsRequestOf interface.now op side (option_map (λ f. f.now) given) }
    ensures { (o : Operation) → slice_get interface.now.operations op ≡ Some o
        → IfOk result (IsTraced (setting_beside interface.now o side (option_map (λ f. f.now.graph) given.entry)) order octets.now) }
{
    let plan = make(alloc, interface)?;
    let mut source = LentSource::new(octets);
    let mut items = ItemLog::keeping(alloc);
    let mut steps = Steps::new(Uncounted::new());
    match decode(
        alloc,
        &plan,
        op,
        side,
        order,
        given,
        &mut source,
        &mut items,
        &mut steps,
    ) {
        Ok(decoded) => explained(alloc, interface, &decoded, &items, octets),
        Err(DecodeFault::Bad { place, reason }) => refused(
            alloc, interface, op, side, given, order, octets, &items, place, reason,
        ),
        Err(DecodeFault::Memory) => Err(Memory),
        Err(DecodeFault::ReadFault) => unreachable!(),
    }
}

// The items of values that took these octets, or the first of them.
fn explained(
    alloc: Global,
    interface: &Interface,
    decoded: &Decoded,
    items: &ItemLog,
    octets: &[u8],
) -> Result<Traced, Memory>
    requires tied { decoded.now.fit.interface ≡ interface.now }
    ensures { (order : Order) (o : Operation) → slice_get interface.now.operations decoded.now.fit.op ≡ Some o
        → IsLoggedFront (setting_beside interface.now o decoded.now.fit.side decoded.now.fit.given) order octets.now decoded.now.taken
        decoded.now.fit.graph items.now.items
        → IfOk result (IsTraced (setting_beside interface.now o decoded.now.fit.side decoded.now.fit.given) order octets.now) }
{
    let gaps = count_filled_gaps(items, octets);
    let lines = explain_over(alloc, interface, &decoded.fit, items, octets)?;
    let place = decoded.taken;
    if octets.len() == place as usize {
        whole(lines, gaps)
    } else {
        trailed(lines, place, gaps)
    }
}

// Lines of values that take all octets.
fn whole(lines: Octets, gaps: usize) -> Result<Traced, Memory>
    ensures { IfOk result (λ t. t ≡ Traced.Whole (lines ++ gaps_line gaps)) }
{
    let text = with_gaps(lines, gaps)?;
    Ok(Traced::Whole(text))
}

// Lines of values that an octet follows.
fn trailed(lines: Octets, place: u32, gaps: usize) -> Result<Traced, Memory>
    ensures { IfOk result (λ t. t ≡ Traced.Refused (lines ++ (trailing_line place ++ gaps_line gaps)) place OctetsFault.Trailing) }
{
    let ended = with_trailing(lines, place)?;
    let lines = with_gaps(ended, gaps)?;
    Ok(Traced::Refused {
        lines,
        place,
        why: OctetsFault::Trailing,
    })
}

// Lines with that of an octet that follows the values at their end.
fn with_trailing(lines: Octets, place: u32) -> Result<Octets, Memory>
    ensures { IfOk result (λ text. text ≡ lines ++ trailing_line place) }
{
    let mut lines = lines;
    append_count(&mut lines, place)?;
    lines.append(b" fault Trailing\n")?;
    Ok(lines)
}

// Lines with one that counts the gaps that are not zero at their end, if there are any.
fn with_gaps(lines: Octets, gaps: usize) -> Result<Octets, Memory>
    ensures { IfOk result (λ text. text ≡ lines ++ gaps_line gaps) }
{
    if gaps == 0 {
        return Ok(lines);
    }
    let mut lines = lines;
    lines.append(b"gaps that are not zero: ")?;
    append_number(&mut lines, gaps)?;
    lines.append(b"\n")?;
    Ok(lines)
}

// Adds a number in base 10.
fn append_number(lines: &mut Octets, number: usize) -> Result<(), Memory>
    ensures { OnOk result (lines.new ≡ lines.old ++ decimal number) }
{
    let mut buffer = Buffer::new();
    lines.append(buffer.format(number).as_bytes())
}

// The items before a fault, and the fault.
fn refused(
    alloc: Global,
    interface: &Interface,
    op: u32,
    side: Side,
    given: Option<&Fit>,
    order: Order,
    octets: &[u8],
    items: &ItemLog,
    place: u32,
    reason: Reason,
) -> Result<Traced, Memory>
    requires known { op < length interface.now.operations }
    requires request { IsRequestOf interface.now op side (option_map (λ f. f.now) given) }
    ensures { (o : Operation) → slice_get interface.now.operations op ≡ Some o
        → IsRefusedFront (setting_beside interface.now o side (option_map (λ f. f.now.graph) given.entry)) order octets.now place reason
        items.now.items
        → IfOk result (IsTraced (setting_beside interface.now o side (option_map (λ f. f.now.graph) given.entry)) order octets.now) }
{
    let traced = trace(
        alloc, interface, op, side, given, order, octets, items, place, reason,
    )?;
    let why = OctetsFault::Refused(reason);
    let gaps = count_filled_gaps(items, octets);
    let ended = with_fault(alloc, traced.lines, place, why, traced.path.as_slice())?;
    let lines = with_gaps(ended, gaps)?;
    Ok(Traced::Refused { lines, place, why })
}

// Lines with that of a fault at their end.
fn with_fault(
    alloc: Global,
    lines: Octets,
    place: u32,
    why: OctetsFault,
    path: &[u8],
) -> Result<Octets, Memory>
    ensures { IfOk result (λ text. text ≡ lines ++ fault_line place why path.now) }
{
    let mut lines = lines;
    append_count(&mut lines, place)?;
    lines.append(b" fault ")?;
    let words = fault_words(alloc, why)?;
    lines.append(words.as_slice())?;
    lines.append(b" ")?;
    lines.append(path)?;
    lines.append(b"\n")?;
    Ok(lines)
}
