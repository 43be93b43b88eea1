//! Classes of octets, hexadecimal digits, lines and columns, and the joining of pieces.
ghost use Rattle.std.specs.Prelude.{◌≡◌, ◌<◌, map, IfOk};
ghost use Rattle.nd_base.specs.Text as text;

use crate::{Memory, Octets};
use std::alloc::Global;

/// Whether an octet is a decimal digit. Takes no memory.
pub fn is_digit(octet: u8) -> bool
    ensures { result ≡ text.is_digit octet }
{
    octet.is_ascii_digit()
}

/// Whether an octet is a letter or `_`. Takes no memory.
pub fn is_letter(octet: u8) -> bool
    ensures { result ≡ text.is_letter octet }
{
    octet.is_ascii_alphabetic() || octet == b'_'
}

/// Whether an octet is a letter, a digit or `_`. Takes no memory.
pub fn is_word_octet(octet: u8) -> bool
    ensures { result ≡ text.is_word_octet octet }
{
    is_letter(octet) || is_digit(octet)
}

/// Whether an octet is a hexadecimal digit, in either case. Takes no memory.
pub fn is_hex_digit(octet: u8) -> bool
    ensures { result ≡ text.is_hex_digit octet }
{
    is_digit(octet) || (octet >= b'A' && octet <= b'F') || (octet >= b'a' && octet <= b'f')
}

/// The hexadecimal digit of a number below 16, in lower case. Takes no memory.
pub fn hex_digit(value: u8) -> u8
    requires { value < 16 }
    ensures { result ≡ text.hex_digit value }
{
    if value <= 9 {
        b'0' + value
    } else {
        b'a' - 10 + value
    }
}

/// Line and column after octets, both from 1. Only a line feed ends a line. Takes no memory.
pub fn position(octets: &[u8]) -> (u64, u64)
    ensures { result ≡ text.position 1 1 octets.now }
{
    let mut line = 1;
    let mut column = 1;
    for octet in octets {
        if *octet == b'\n' {
            line += 1;
            column = 1;
        } else {
            column += 1;
        }
    }
    (line, column)
}

/// The octets of all pieces, one after the other. Takes memory for them, and running out of memory is the only refusal.
pub fn join(alloc: Global, pieces: &[&[u8]]) -> Result<Octets, Memory>
    ensures { IfOk result (λ joined. joined ≡ text.joined (map (λ p. p.now) pieces.now)) }
{
    let mut joined = Octets::new(alloc);
    for piece in pieces {
        joined.append(piece)?;
    }
    Ok(joined)
}
