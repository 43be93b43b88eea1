// The values of numbers.
ghost use Rattle.std.specs.Prelude.{◌≡◌, ◌≤◌, ◌<◌, ◌^◌, ◌+◌, ◌*◌, List, ℕ, [], ◌∷◌, length, Some, None, cond, ltb, true, IsTrue};
ghost use Rattle.std.specs.List.{list_all};
ghost use Rattle.nd_base.specs.Text as class;
ghost use Rattle.idl_lexer.specs.Pieces as numbers;

use nd_base::text::{is_digit, is_hex_digit};

/// The value of a digit, decimal or hexadecimal.
fn digit_value(digit: u8) -> u64
    requires { IsTrue (class.is_hex_digit digit) }
    ensures { result ≡ numbers.digit_value digit }
{
    match digit {
        b'0'..=b'9' => u64::from(digit - b'0'),
        b'A'..=b'F' => u64::from(digit - b'A') + 10,
        _ => u64::from(digit - b'a') + 10,
    }
}

/// The value with one digit more, where it is one of 64 bits.
fn with_digit(base: u64, value: u64, digit: u8) -> Option<u64>
    requires { IsTrue (class.is_hex_digit digit) }
    ensures { result ≡ numbers.in_64_bits (value * base + numbers.digit_value digit) }
{
    let Some(shifted) = value.checked_mul(base) else {
        return None;
    };
    shifted.checked_add(digit_value(digit))
}

/// The value of digits to a base, where it is one of 64 bits.
fn digits_value(base: u64, digits: &[u8]) -> Option<u64>
    requires some { 1 ≤ base }
    requires digits { IsTrue (list_all class.is_hex_digit digits.now) }
    ensures { result ≡ numbers.in_64_bits (numbers.value_from base 0 digits.now) }
{
    let mut value = 0_u64;
    for digit in digits {
        match with_digit(base, value, *digit) {
            Some(next) => value = next,
            None => return None,
        }
    }
    Some(value)
}

fn all_digits(octets: &[u8]) -> bool
    ensures { result ≡ list_all class.is_digit octets.now }
{
    octets.iter().all(|octet| is_digit(*octet))
}

fn all_hex_digits(octets: &[u8]) -> bool
    ensures { result ≡ list_all class.is_hex_digit octets.now }
{
    octets.iter().all(|octet| is_hex_digit(*octet))
}

fn decimal_of(octets: &[u8]) -> Option<u64>
    ensures { result ≡ numbers.decimal_of octets.now }
{
    match octets {
        [] => None,
        [digit] => is_digit(*digit).then(|| digit_value(*digit)),
        [first, ..] => {
            if *first == b'0' || !all_digits(octets) {
                return None;
            }
            digits_value(10, octets)
        }
    }
}

fn hexadecimal_of(octets: &[u8]) -> Option<u64>
    ensures { result ≡ numbers.hexadecimal_of octets.now }
{
    if octets.is_empty() || !all_hex_digits(octets) {
        return None;
    }
    digits_value(16, octets)
}

/// The value of a number token's octets: decimal without a leading zero, or `0x` or `0X` and hexadecimal digits
/// (with leading zeros or without), at most 2^64 - 1. None for what is no such number. Takes no memory.
pub fn number_of(octets: &[u8]) -> Option<u64>
    ensures { result ≡ numbers.number_of octets.now }
{
    match octets {
        [b'0', b'x' | b'X', digits @ ..] => hexadecimal_of(digits),
        _ => decimal_of(octets),
    }
}
