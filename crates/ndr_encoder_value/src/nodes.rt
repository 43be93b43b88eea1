// The next nodes of a home, and what they say: total look-ups.
ghost use Rattle.std.specs.Prelude.{◌≡◌, pos, None};
ghost use Rattle.nd_value.specs.Seen.{cell_number};
ghost use Rattle.nd_value.specs.Tree.{cell_in, flat};
ghost use Rattle.nd_flat.specs.FlatForm.{flat_seen};
ghost use Rattle.ndr_encoder_laws.specs.written.Run.{here, later, num_in, tag_in, offset_in, octets_in};

use nd_flat::{Seen, Walk};
use nd_value::CellId;

// The next node; the number 0 where there is none.
#[inline(always)]
pub(crate) fn next_node<'a>(walk: &mut Walk<'a>) -> Seen<'a>
    ensures node { flat_seen result ≡ here (flat walk.old) }
    ensures rest { flat walk.new ≡ later (flat walk.old) }
{
    match walk.step() {
        Some(seen) => seen,
        None => Seen::Num(0),
    }
}

// What a node that is no number is taken for. It is a call so that numbers are not chosen by a test of their node.
#[cold]
#[inline(never)]
fn no_number() -> i128
    ensures { result ≡ pos 0 }
{
    0
}

// The same of a node that is no pointer.
#[cold]
#[inline(never)]
fn no_cell() -> Option<CellId>
    ensures { cell_number result ≡ None }
{
    None
}

// The next node as a number; 0 where it is none.
#[inline(always)]
pub(crate) fn next_number(walk: &mut Walk<'_>) -> i128
    ensures number { result ≡ num_in (here (flat walk.old)).0 }
    ensures rest { flat walk.new ≡ later (flat walk.old) }
{
    match next_node(walk) {
        Seen::Num(value) => value,
        _ => no_number(),
    }
}

// The cell that the next node names, if it is a pointer that is not null.
#[inline(always)]
pub(crate) fn next_cell(walk: &mut Walk<'_>) -> Option<CellId>
    ensures cell { cell_number result ≡ cell_in (here (flat walk.old)).0 }
    ensures rest { flat walk.new ≡ later (flat walk.old) }
{
    match next_node(walk) {
        Seen::Ptr(cell) => cell,
        _ => no_cell(),
    }
}

// The tag of a union, or 0.
pub(crate) fn tag_of(seen: &Seen<'_>) -> i128
    ensures { result ≡ tag_in (flat_seen seen.now).0 }
{
    match seen {
        Seen::Union { tag, armed: _armed } => *tag,
        _ => 0,
    }
}

// The number of children of a node.
pub(crate) fn count_of(seen: &Seen<'_>) -> u32
    ensures { result ≡ (flat_seen seen.now).1 }
{
    match seen {
        Seen::Rec(count) => *count,
        Seen::Arr {
            max: _max,
            offset: _offset,
            count,
        } => *count,
        Seen::Union { tag: _tag, armed } => u32::from(*armed),
        Seen::Pipe(count) => *count,
        _ => 0,
    }
}

// The offset of an array, or 0.
pub(crate) fn offset_of(seen: &Seen<'_>) -> u32
    ensures { result ≡ offset_in (flat_seen seen.now).0 }
{
    match seen {
        Seen::Arr {
            max: _max,
            offset,
            count: _count,
        } => *offset,
        _ => 0,
    }
}

// The octets of a text, or none.
pub(crate) fn octets_of<'a>(seen: &Seen<'a>) -> &'a [u8]
    ensures { result.now ≡ octets_in (flat_seen seen.now).0 }
{
    match seen {
        Seen::Text { max: _max, octets } => octets,
        _ => &[],
    }
}
