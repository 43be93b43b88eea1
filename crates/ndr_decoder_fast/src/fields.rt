// Gaps.
ghost use Rattle.std.specs.Prelude.{◌≡◌, ◌<◌, ◌≤◌};
ghost use Rattle.nd_grammar.specs.Entry.{gap};

use ndr_decoder_state::gap_before;

/// How many octets a gap to a multiple of a number has, as `gap_before` says: the numbers of the standard (C706, 14.2.2) need no division. Takes no
/// memory.
#[inline(always)]
pub fn gap_to(at: u32, to: u8) -> u32
    ensures is { result ≡ gap at to }
    ensures few { result < 256 }
{
    if to == 4 {
        return gap_to_four(at);
    }
    other_gap(at, to)
}

// The gap to a multiple of four octets, which most gaps are.
#[inline(always)]
fn gap_to_four(at: u32) -> u32
    ensures { result ≡ gap at 4 }
{
    3 - ((u64::from(at) + 3) % 4) as u32
}

// The same where most gaps do not go to this multiple.
#[inline(never)]
fn other_gap(at: u32, to: u8) -> u32
    ensures is { result ≡ gap at to }
    ensures few { result < 256 }
{
    match to {
        1 => gap_before(at, 1),
        2 => gap_before(at, 2),
        8 => gap_before(at, 8),
        _ => gap_before(at, to),
    }
}
