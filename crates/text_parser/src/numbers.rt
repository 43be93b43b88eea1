// Numbers of a value text.
ghost use Rattle.std.specs.Prelude.{◌≡◌, ◌+◌, ◌*◌, ◌^◌, ◌<◌, ◌≤◌, true, ℕ, List, length, IfSome, MatchOption, option_map};
ghost use Rattle.std.specs.List.{list_all};
ghost use Rattle.nd_base.specs.Text.{is_digit as is_decimal};
ghost use Rattle.text_grammar.specs.Tokens as tokens;
ghost use Rattle.text_grammar.specs.Runs.{value_from, leading_zero, is_number as number_stands, number_of as number_by, IsNatural};
ghost use Rattle.text_parser.specs.Quick.{first_digit as first_digit_by, HasDigits, is_whole as whole_number};

use crate::octets::run_end;
use nd_base::text::{is_digit, is_word_octet};

/// The greatest number of digits.
const DIGIT_LIMIT: usize = 20;

/// The greatest number after which one digit more still fits in 64 bits, whichever it is, and in 19 digits.
const MOST_BEFORE: u64 = 999_999_999_999_999_999;

/// The value of at most 20 digits.
fn value_of(digits: &[u8]) -> u128
    requires few { length digits.now ≤ 20 }
    requires digits { list_all is_decimal digits.now ≡ true }
    ensures { result ≡ value_from 0 digits.now }
{
    let mut value = 0_u128;
    for digit in digits {
        value = value * 10 + u128::from(*digit - b'0');
    }
    value
}

/// `0` with more after it.
fn has_leading_zero(run: &[u8]) -> bool
    ensures { result ≡ leading_zero run.now }
{
    matches!(run, [b'0', _, ..])
}

fn all_digits(octets: &[u8]) -> bool
    ensures { result ≡ list_all is_decimal octets.now }
{
    octets.iter().all(|octet| octet.is_ascii_digit())
}

/// 1 to 20 digits, without a leading zero except 0 itself.
fn is_number(run: &[u8]) -> bool
    ensures { result ≡ number_stands run.now }
{
    !run.is_empty() && !has_leading_zero(run) && run.len() <= DIGIT_LIMIT && all_digits(run)
}

/// The number that a run writes, if it writes one.
fn number_of(run: &[u8]) -> Option<u128>
    ensures { result ≡ number_by run.now }
{
    if is_number(run) {
        Some(value_of(run))
    } else {
        None
    }
}

/// The number at the front of a text, and what follows it, by the run that it is in.
fn natural_by_run(text: &[u8]) -> Option<(u128, &[u8])>
    ensures { MatchOption result ((n : ℕ) (rest : List ℕ) → IsNatural text.now n rest → ⊥) (λ x. IsNatural text.now x.0 x.1.now) }
{
    let end = run_end(text);
    match number_of(&text[..end]) {
        Some(value) => Some((value, &text[end..])),
        None => None,
    }
}

/// The digit at the front of a text, as a number, and what follows it.
#[inline(always)]
fn first_digit(text: &[u8]) -> Option<(u64, &[u8])>
    ensures is { option_map (λ x. (x.0, x.1.now)) result ≡ first_digit_by text.now }
    ensures less { IfSome result (λ x. length x.1.now < length text.now) }
    ensures low { IfSome result (λ x. x.0 < 10) }
{
    match text {
        [octet, rest @ ..] if is_digit(*octet) => Some((u64::from(*octet - b'0'), rest)),
        _ => None,
    }
}

/// The value of the digits at the front of a text, and what follows them: of all of them, or of those up to the first after which the
/// value is more than `most`.
#[inline(always)]
fn leading_digits(most: u64, text: &[u8]) -> (u64, &[u8])
    requires { most * 10 + 10 < 2 ^ 64 }
    ensures digits { HasDigits text.now result.0 result.1.now }
    ensures within { length result.1.now ≤ length text.now }
{
    let mut value = 0_u64;
    let mut rest = text;
    while let Some((digit, after)) = first_digit(rest) {
        if value > most {
            return (value, rest);
        }
        value = value * 10 + digit;
        rest = after;
    }
    (value, rest)
}

/// Whether no letter, digit or `_` comes first.
#[inline(always)]
fn ends_run(text: &[u8]) -> bool
    ensures { result ≡ tokens.ends_run text.now }
{
    match text {
        [] => true,
        [octet, ..] => !is_word_octet(*octet),
    }
}

/// Whether digits, with what follows them, are a number.
#[inline(always)]
fn is_whole(digits: &[u8], rest: &[u8]) -> bool
    ensures { result ≡ whole_number digits.now rest.now }
{
    !digits.is_empty() && !has_leading_zero(digits) && digits.len() <= DIGIT_LIMIT && ends_run(rest)
}

/// The number at the front of a text, and what follows it. It is read in one pass if it is below 10^19.
pub fn natural(text: &[u8]) -> Option<(u128, &[u8])>
    ensures { MatchOption result ((n : ℕ) (rest : List ℕ) → IsNatural text.now n rest → ⊥) (λ x. IsNatural text.now x.0 x.1.now) }
{
    let (value, rest) = leading_digits(MOST_BEFORE, text);
    if is_whole(&text[..text.len() - rest.len()], rest) {
        return Some((value as u128, rest));
    }
    natural_by_run(text)
}
