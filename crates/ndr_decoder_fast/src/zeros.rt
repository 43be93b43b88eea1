// The terminator of a string.
ghost use Rattle.std.specs.Prelude.{◌≡◌, ◌<◌, ◌+◌, ◌^◌, length};
ghost use Rattle.nd_grammar.specs.Refusal.{text_refusal};
ghost use Rattle.ndr_decoder_fast.specs.Faults.{refusal_of};
ghost use Rattle.ndr_decoder_fast.specs.Strings.{first_zero};

use crate::TextReason;
use crate::fault::reason_of;
use nd_grammar::Reason;

/// Where the octets of a string with the terminator, which begin at a place, are refused, and why: at the first zero before the last octet, or at a
/// last octet that is not zero (C706, 14.3.4). Takes no memory.
pub fn refused_text(at: u32, octets: &[u8]) -> Option<(u32, Reason)>
    requires some { 0 < length octets.now }
    requires fits { at + length octets.now < 2 ^ 32 }
    ensures { result ≡ text_refusal at octets.now }
{
    match refused_at(at, octets) {
        Some((place, why)) => Some((place, reason_of(why))),
        None => None,
    }
}

/// The same, and the reason by its name alone.
#[inline(always)]
pub fn refused_at(at: u32, octets: &[u8]) -> Option<(u32, TextReason)>
    requires some { 0 < length octets.now }
    requires fits { at + length octets.now < 2 ^ 32 }
    ensures { refusal_of result ≡ text_refusal at octets.now }
{
    let last = octets.len() - 1;
    let zero = find_zero(octets);
    if zero < last {
        return Some((at + zero as u32, TextReason::TextZero));
    }
    if zero > last {
        return Some((at + last as u32, TextReason::TextUnended));
    }
    None
}

// The place of the first zero octet, or the number of octets.
#[inline(always)]
fn find_zero(octets: &[u8]) -> usize
    ensures is { result ≡ first_zero octets.now }
{
    for at in 0..octets.len() {
        let Some(octet) = octets.get(at) else {
            unreachable!()
        };
        if *octet == 0 {
            return at;
        }
    }
    octets.len()
}
