// Gaps whose octets are not all zero.
ghost use Rattle.std.specs.Prelude.{◌≡◌, ◌≤◌, ◌++◌, true, false, OnOk};
ghost use Rattle.nd_value.specs.declared.item.ItemKind.TheVariants as kinds;
ghost use Rattle.ndr_explain.specs.Cursors.{IsNoGap};
ghost use Rattle.ndr_explain.specs.Explained.{are_zero as all_zero, filled as filled_by, filled_gaps, gap_shown, is_zero as zero, its_octets};

use nd_base::{Memory, Octets};
use nd_value::{Item, ItemKind, ItemLog};
use text_printer::append_hexes;

/// How many gaps of a stream have octets that are not all zero, of those octets of the stream that are given. Takes no memory; the time is in
/// proportion to the items and the octets.
pub fn count_filled_gaps(items: &ItemLog, octets: &[u8]) -> usize
    ensures { result ≡ filled_gaps octets.now items.now.items }
{
    let mut count = 0;
    for at in 0..items.len() {
        let Some(item) = items.get(at) else {
            unreachable!()
        };
        count += filled(octets, item);
    }
    count
}

/// Adds the octets of a gap, as far as they are given, in hexadecimal digits; nothing if they are all zero. It takes memory for the digits; out of
/// memory is the only error.
pub fn append_gap(text: &mut Octets, octets: &[u8], gap: &Item) -> Result<(), Memory>
    ensures { OnOk result (text.new ≡ text.old ++ gap_shown (its_octets octets.now gap.now)) }
{
    let shown = octets_of(octets, gap);
    if are_zero(shown) {
        return Ok(());
    }
    text.append(b" x\"")?;
    append_hexes(text, shown)?;
    text.append(b"\"")?;
    Ok(())
}

// 1 for a gap whose octets are not all zero, 0 for any other item.
fn filled(octets: &[u8], item: &Item) -> usize
    ensures is { result ≡ filled_by octets.now item.now.kind item.now }
    ensures few { result ≤ 1 }
{
    match item.kind {
        ItemKind::Gap => one_unless_zero(octets_of(octets, item)),
        _ => 0,
    }
}

// 0 for octets that are all zero, and else 1.
fn one_unless_zero(octets: &[u8]) -> usize
    ensures is { result ≡ elim (all_zero octets.now) [ true ↦ 0 | false ↦ 1 ] }
    ensures few { result ≤ 1 }
{
    if are_zero(octets) { 0 } else { 1 }
}

// Tells whether an item is a gap.
pub(crate) fn is_gap(kind: ItemKind) -> bool
    ensures gap { result ≡ true → kind ≡ kinds.Gap }
    ensures other { result ≡ false → IsNoGap kind }
{
    match kind {
        ItemKind::Gap => true,
        _ => false,
    }
}

// The octets of an item, as far as they are given.
fn octets_of<'o>(octets: &'o [u8], item: &Item) -> &'o [u8]
    ensures { result.now ≡ its_octets octets.now item.now }
{
    let from = item.at as usize;
    if from >= octets.len() {
        return &[];
    }
    let rest = &octets[from..];
    let len = item.len as usize;
    if len >= rest.len() {
        return rest;
    }
    &rest[..len]
}

// Tells whether octets are all zero.
fn are_zero(octets: &[u8]) -> bool
    ensures { result ≡ all_zero octets.now }
{
    octets.iter().all(|octet| is_zero(*octet))
}

fn is_zero(octet: u8) -> bool
    ensures { result ≡ zero octet }
{
    octet == 0
}
