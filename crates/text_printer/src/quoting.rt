// Strings of a value text.
ghost use Rattle.std.specs.Prelude.{◌≡◌, ◌++◌, ◌∷◌, [], true, flat_map, IfOk, OnOk};
ghost use Rattle.text_grammar.specs.Written.{escaped, quoted_text};

use crate::digits::append_hex;
use nd_base::{Memory, Octets};
use std::alloc::Global;

/// Octets as a string of the value text: `"`, the octets, `"`. Those from 0x20 to 0x7E are written as they are, except that a quote and
/// a backslash are written after a backslash; all others are written `\xHH` with two digits in lower case.
///
/// It takes memory for the text alone; out of memory is the only error.
pub fn quoted(alloc: Global, octets: &[u8]) -> Result<Octets, Memory>
    ensures { IfOk result (λ text. text ≡ quoted_text octets.now) }
{
    let mut text = Octets::new(alloc);
    append_quoted(&mut text, octets)?;
    Ok(text)
}

/// Adds the same to a text. It takes memory for the text alone; out of memory is the only error, and then a part of the string may have
/// been added.
pub fn append_quoted(text: &mut Octets, octets: &[u8]) -> Result<(), Memory>
    ensures { OnOk result (text.new ≡ text.old ++ quoted_text octets.now) }
{
    text.append(b"\"")?;
    append_escaped(text, octets)?;
    text.append(b"\"")
}

/// The characters of a string: octets that are written as they are in pieces, and each other one by itself.
fn append_escaped(text: &mut Octets, octets: &[u8]) -> Result<(), Memory>
    ensures { OnOk result (text.new ≡ text.old ++ flat_map escaped octets.now) }
{
    let end = octets.len();
    let mut from = 0;
    for at in 0..end {
        let Some(octet) = octets.get(at) else {
            unreachable!()
        };
        if is_plain(*octet) {
            continue;
        }
        text.append(&octets[from..at])?;
        append_character(text, *octet)?;
        from = at + 1;
    }
    text.append(&octets[from..end])
}

/// Whether an octet of a string is written as it is.
fn is_plain(octet: u8) -> bool
    ensures { result ≡ true → escaped octet ≡ octet ∷ [] }
{
    if octet == b'"' || octet == b'\\' {
        return false;
    }
    0x20 <= octet && octet <= 0x7e
}

/// The character for an octet.
fn append_character(text: &mut Octets, octet: u8) -> Result<(), Memory>
    ensures { OnOk result (text.new ≡ text.old ++ escaped octet) }
{
    if octet == b'"' || octet == b'\\' {
        return text.append(&[b'\\', octet]);
    }
    if 0x20 <= octet && octet <= 0x7e {
        return text.append(&[octet]);
    }
    text.append(b"\\x")?;
    append_hex(text, octet)
}
