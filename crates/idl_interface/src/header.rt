// What the header of a file says.
ghost use Rattle.std.specs.Prelude.{◌≡◌, [], ◌∷◌, ◌^◌, ◌<◌, ◌≤◌, ℕ, List, map, IfOk};
ghost use Rattle.idl_lexer.specs.Pieces.{digit_value, IsUuid};
ghost use Rattle.idl_grammar.specs.Seen.{seen_kind, seen_attribute};
ghost use Rattle.idl_rule_definitions.specs.Attributes.{first_said};
ghost use Rattle.idl_rule_definitions.specs.Meaning.{uuid_from, uuid_said, major_said, minor_said, or_none};

use idl_grammar::{Attribute, AttributeKind};
use idl_lexer::number_of;
use nd_base::Memory;

/// The value of a digit of a UUID.
fn digit_value(digit: u8) -> u8
    ensures { result ≡ digit_value digit }
{
    if digit <= b'9' {
        digit.saturating_sub(b'0')
    } else if digit <= b'F' {
        digit - 55
    } else {
        digit.saturating_sub(87)
    }
}

/// A number with one more octet of a UUID, where it still has 128 bits.
fn with_octet(number: u128, octet: u8) -> u128
    requires { uuid_from number (octet ∷ []) < 2 ^ 128 }
    ensures { (more : List ℕ) → uuid_from number (octet ∷ more) ≡ uuid_from result more }
{
    if octet == b'-' {
        return number;
    }
    16 * number + u128::from(digit_value(octet))
}

/// The number of a UUID.
fn uuid_of(octets: &[u8]) -> u128
    requires { IsUuid octets.now }
    ensures { result ≡ uuid_from 0 octets.now }
{
    let mut number = 0;
    for octet in octets {
        number = with_octet(number, *octet);
    }
    number
}

fn uuid_said(kind: &AttributeKind) -> Option<u128>
    ensures { result ≡ uuid_said (seen_kind kind.now) }
{
    match kind {
        AttributeKind::Uuid(uuid) => Some(uuid_of(uuid.as_slice())),
        _ => None,
    }
}

/// The UUID of a header.
pub(crate) fn uuid(list: &[Attribute]) -> Option<u128>
    ensures { result ≡ first_said uuid_said (map seen_attribute list.now) }
{
    for attribute in list {
        if let Some(uuid) = uuid_said(&attribute.kind) {
            return Some(uuid);
        }
    }
    None
}

fn major_said(kind: &AttributeKind) -> Option<u64>
    ensures { result ≡ major_said (seen_kind kind.now) }
{
    match kind {
        AttributeKind::Version { major, .. } => number_of(major.octets.as_slice()),
        _ => None,
    }
}

fn minor_said(kind: &AttributeKind) -> Option<u64>
    ensures { result ≡ minor_said (seen_kind kind.now) }
{
    match kind {
        AttributeKind::Version { minor: None, .. } => Some(0),
        AttributeKind::Version {
            minor: Some(minor),
            ..
        } => number_of(minor.octets.as_slice()),
        _ => None,
    }
}

fn first_major(list: &[Attribute]) -> Option<u64>
    ensures { result ≡ first_said major_said (map seen_attribute list.now) }
{
    for attribute in list {
        if let Some(major) = major_said(&attribute.kind) {
            return Some(major);
        }
    }
    None
}

fn first_minor(list: &[Attribute]) -> Option<u64>
    ensures { result ≡ first_said minor_said (map seen_attribute list.now) }
{
    for attribute in list {
        if let Some(minor) = minor_said(&attribute.kind) {
            return Some(minor);
        }
    }
    None
}

/// A number of a version, or 0.
fn narrow(number: Option<u64>) -> u16
    requires { or_none number ≤ 65535 }
    ensures { result ≡ or_none number }
{
    let Some(number) = number else {
        return 0;
    };
    let Ok(number) = u16::try_from(number) else {
        unreachable!();
    };
    number
}

/// The major number of the version of a header that keeps rule 4.
pub(crate) fn major(list: &[Attribute]) -> u16
    requires { or_none (first_said major_said (map seen_attribute list.now)) ≤ 65535 }
    ensures { result ≡ or_none (first_said major_said (map seen_attribute list.now)) }
{
    narrow(first_major(list))
}

/// The minor number of the version of a header that keeps rule 4.
pub(crate) fn minor(list: &[Attribute]) -> u16
    requires { or_none (first_said minor_said (map seen_attribute list.now)) ≤ 65535 }
    ensures { result ≡ or_none (first_said minor_said (map seen_attribute list.now)) }
{
    narrow(first_minor(list))
}
