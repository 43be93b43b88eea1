// The maximum count before a home.
ghost use Rattle.std.specs.Prelude.{◌≡◌, ◌<◌, ◌^◌, length};
ghost use Rattle.nd_value.specs.Tree.{flat};
ghost use Rattle.nd_flat.specs.FlatForm.{flat_seen};
ghost use Rattle.ndr_encoder_laws.specs.maximum.LastPart.{own_count, last_max};
ghost use Rattle.ndr_encoder_value.specs.Maximum.{last_own};

use nd_flat::{Seen, Walk};

// The number of children of a node.
fn count_of(seen: &Seen<'_>) -> u32
    ensures { result ≡ (flat_seen seen.now).1 }
{
    match seen {
        Seen::Rec(count) => *count,
        Seen::Arr {
            max: _max,
            offset: _offset,
            count,
        } => *count,
        Seen::Union { tag: _tag, armed } => u32::from(*armed),
        Seen::Pipe(count) => *count,
        _ => 0,
    }
}

// The maximum count of a node that has one.
fn own_maximum(seen: &Seen<'_>) -> Option<u32>
    ensures { result ≡ own_count (flat_seen seen.now).0 }
{
    match seen {
        Seen::Arr {
            max,
            offset: _offset,
            count: _count,
        } => Some(*max),
        Seen::Text {
            max,
            octets: _octets,
        } => Some(*max),
        _ => None,
    }
}

// The maximum count of a node that is the last part of all around it, if it has one.
fn last_maximum(due: u64, seen: &Seen<'_>) -> Option<u32>
    ensures { result ≡ last_own due (flat_seen seen.now).0 }
{
    if due == 1 { own_maximum(seen) } else { None }
}

// The maximum count of a value: its own, else that of its last part; 0 where none has one. `due` is how many values are still to come: where it is 1,
// the next node is the last part of all around it.
pub(crate) fn maximum_of(walk: &mut Walk<'_>) -> u32
    requires few { length (flat walk.old) < 2 ^ 32 }
    ensures { result ≡ last_max 1 (flat walk.old) }
{
    let mut due: u64 = 1;
    while let Some(seen) = walk.step() {
        if let Some(max) = last_maximum(due, &seen) {
            return max;
        }
        due = due.saturating_sub(1) + u64::from(count_of(&seen));
    }
    0
}
