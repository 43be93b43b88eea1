// UUIDs of a value text.
ghost use Rattle.std.specs.Prelude.{◌≡◌, ◌==◌, true, false, not, length, take, filter, ◌<◌, IfOk, IfErr, MatchOption};
ghost use Rattle.std.specs.List.{list_all};
ghost use Rattle.nd_base.specs.Text as octets;
ghost use Rattle.nd_base.specs.Text.{uuid_form};
ghost use Rattle.text_grammar.specs.Tokens as tokens;
ghost use Rattle.text_grammar.specs.Tokens.{uuid_octets, IsCut};
ghost use Rattle.text_parser.specs.Lexemes.{for_uuid};
ghost use Rattle.text_parser.specs.Misses.{MissesUuid};
ghost use Rattle.text_parser.specs.Identifiers.{fits_place, HasForm, is_id};

use crate::Stop;
use crate::lexeme::scan;
use crate::octets::skip_blanks;
use crate::steps::unexpected;
use crate::strings::hex_pair;
use nd_base::text::is_hex_digit;
use nd_base::{Memory, Octets};
use std::alloc::Global;
use text_grammar::Version;
use uuid::Uuid;

/// How the octets of a UUID are written: d is any hexadecimal digit, and a hyphen is itself.
const UUID_FORM: &[u8] = b"dddddddd-dddd-dddd-dddd-dddddddddddd";

/// Whether an octet may be in a place of the form.
fn fits(place: u8, octet: u8) -> bool
    ensures { result ≡ fits_place place octet }
{
    if place == b'-' {
        octet == b'-'
    } else {
        is_hex_digit(octet)
    }
}

/// What follows octets of a form at the front of a text; none where others come.
fn after_form<'a>(whole: &[u8], text: &'a [u8]) -> Option<&'a [u8]>
    ensures { MatchOption result (octets.has_form whole.now (take (length whole.now) text.now) ≡ false)
        (λ rest. HasForm whole.now text.now rest.now) }
{
    let mut form = whole;
    let mut rest = text;
    while let [place, places @ ..] = form {
        let [octet, after @ ..] = rest else {
            return None;
        };
        if !fits(*place, *octet) {
            return None;
        }
        form = places;
        rest = after;
    }
    Some(rest)
}

/// Octets without the hyphens among them.
fn digits_of(alloc: Global, written: &[u8]) -> Result<Octets, Memory>
    ensures { IfOk result (λ d. d ≡ filter (λ c. not (c == 45)) written.now) }
{
    let mut digits = Octets::new(alloc);
    for octet in written {
        if *octet != b'-' {
            digits.append(&[*octet])?;
        }
    }
    Ok(digits)
}

/// The octets that pairs of hexadecimal digits write.
fn octets_of(alloc: Global, digits: &[u8]) -> Result<Octets, Memory>
    requires { list_all octets.is_hex_digit digits.now ≡ true }
    ensures { IfOk result (λ o. o ≡ tokens.hex_octets digits.now) }
{
    let mut octets = Octets::new(alloc);
    let mut rest = digits;
    while let Some((octet, after)) = hex_pair(rest) {
        octets.append(&[octet])?;
        rest = after;
    }
    Ok(octets)
}

/// The UUID that 36 octets write.
fn uuid_of(alloc: Global, written: &[u8]) -> Result<Uuid, Memory>
    requires { octets.has_form uuid_form written.now ≡ true }
    ensures { IfOk result (λ id. id ≡ uuid_octets written.now) }
{
    let digits = digits_of(alloc, written)?;
    let octets = octets_of(alloc, digits.as_slice())?;
    let Ok(id) = Uuid::from_slice(octets.as_slice()) else {
        unreachable!()
    };
    Ok(id)
}

/// A UUID, where one is due. It takes memory for its 32 digits and its 16 octets while it is read.
pub(crate) fn identifier(
    alloc: Global,
    version: Version,
    text: &[u8],
) -> Result<(Uuid, &[u8]), Stop>
    ensures ok { IfOk result (λ x. IsCut (for_uuid version) text.now (tokens.Uuid x.0) x.1.now) }
    ensures form { IfOk result (λ x. is_id x.0 ≡ true) }
    ensures less { IfOk result (λ x. length x.1.now < length text.now) }
    ensures err { IfErr result (λ e. MissesUuid version text.now e) }
{
    let here = skip_blanks(text);
    let Some(rest) = after_form(UUID_FORM, here) else {
        return Err(unexpected(&scan(version, text)));
    };
    let id = uuid_of(alloc, &here[..UUID_FORM.len()])?;
    Ok((id, rest))
}
