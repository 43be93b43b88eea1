// Words, numbers and UUIDs.
ghost use Rattle.std.specs.Prelude.{◌≡◌, ℕ, ◌+◌, ◌-◌, ◌<◌, ◌≤◌, true, false, length, slice_index, slice_range};
ghost use Rattle.nd_base.specs.Text as class;
ghost use Rattle.std.specs.Bool.{MatchBool};
ghost use Rattle.idl_lexer.specs.Pieces as pieces;
ghost use Rattle.idl_lexer.specs.Pieces.{IsUuid};

use nd_base::text::{is_hex_digit, is_word_octet};

/// The octets of a UUID.
pub(crate) const UUID_LENGTH: usize = 36;

/// Where a run of letters, digits and `_` ends.
pub(crate) fn run_end(text: &[u8], from: usize) -> usize
    requires { from ≤ length text.now }
    ensures after { from ≤ result }
    ensures within { result ≤ length text.now }
    ensures each { (k : ℕ) → from ≤ k → k < result → class.is_word_octet (slice_index text.now k) ≡ true }
    ensures stops { result < length text.now → class.is_word_octet (slice_index text.now result) ≡ false }
{
    let mut end = from;
    while end < text.len() && is_word_octet(text[end]) {
        end += 1;
    }
    end
}

/// Whether an octet may stand at a place of a UUID.
fn fits_uuid(place: usize, octet: u8) -> bool
    ensures { result ≡ pieces.fits_uuid place octet }
{
    match place {
        8 | 13 | 18 | 23 => octet == b'-',
        _ => is_hex_digit(octet),
    }
}

/// Whether octets are 8, 4, 4, 4 and 12 hexadecimal digits joined by `-`.
fn is_uuid(octets: &[u8]) -> bool
    ensures { MatchBool result (IsUuid octets.now) (IsUuid octets.now → ⊥) }
{
    if octets.len() != UUID_LENGTH {
        return false;
    }
    for (place, octet) in octets.iter().enumerate() {
        if !fits_uuid(place, *octet) {
            return false;
        }
    }
    true
}

/// Whether a UUID is at a place of a text.
pub(crate) fn uuid_stands(text: &[u8], from: usize) -> bool
    requires { from ≤ length text.now }
    ensures found { result ≡ true → (from + 36 ≤ length text.now) × IsUuid (slice_range text.now from (from + 36)) }
    ensures none { result ≡ false → (to : ℕ) → to ≤ length text.now → IsUuid (slice_range text.now from to) → ⊥ }
{
    text.len() - from >= UUID_LENGTH && is_uuid(&text[from..from + UUID_LENGTH])
}
