// A line of a script.
ghost use Rattle.std.specs.Prelude.{◌≡◌, ℕ, ◌<◌, ◌≤◌, ◌==◌, List, length, take, drop, position, IfSome, option_map};
ghost use Rattle.std.specs.List.{list_all};
ghost use Rattle.ctx_session.specs.Script.{client_of, id_of, is_printable, open_by, opened, used, closed, downed, line_of};
ghost use Rattle.ctx_session.specs.Lines.{line_meant};

use crate::numbers::number_named;
use std::str;
use uuid::Uuid;

// What a line of a script asks for.
#[derive(Clone, Copy)]
pub(crate) enum Line {
    // The first fresh resource is opened for a client.
    Open { client: u32, id: Uuid },
    // A text is applied to a resource: what follows the identifier and a space in the line.
    Use { id: Uuid },
    // A resource is ended.
    Close { id: Uuid },
    // The resources of a client are ended.
    Down { client: u32 },
}

// The client that a word names.
fn read_client(word: &[u8]) -> Option<u32>
    ensures { result ≡ client_of word.now }
{
    match str::from_utf8(word) {
        Ok(word) => number_named(word, 0, u32::MAX),
        Err(_) => None,
    }
}

// The identifier that a word names.
fn read_id(word: &[u8]) -> Option<Uuid>
    ensures { result ≡ id_of word.now }
{
    if word.len() != 36 {
        return None;
    }
    match Uuid::try_parse_ascii(word) {
        Ok(id) => Some(id),
        Err(_) => None,
    }
}

fn is_printable(octet: u8) -> bool
    ensures { result ≡ is_printable octet }
{
    32 <= octet && octet <= 126
}

// The octets before a place.
pub(crate) fn front(octets: &[u8], at: usize) -> &[u8]
    requires { at ≤ length octets.now }
    ensures { result.now ≡ take at octets.now }
{
    octets.split_at(at).0
}

// The octets from a place on.
pub(crate) fn rest_at(octets: &[u8], at: usize) -> &[u8]
    requires { at ≤ length octets.now }
    ensures { result.now ≡ drop at octets.now }
{
    octets.split_at(at).1
}

// The place of the first space.
fn space(octets: &[u8]) -> Option<usize>
    ensures place { result ≡ position (λ c. c == 32) octets.now }
    ensures within { IfSome result (λ at. at < length octets.now) }
{
    octets.iter().position(|octet| *octet == b' ')
}

// A line that opens a resource, if it has a client and an identifier.
fn open_line(client: Option<u32>, id: Option<Uuid>) -> Option<Line>
    ensures { (octets : List ℕ) → option_map (line_meant octets) result ≡ open_by client id }
{
    let Some(client) = client else {
        return None;
    };
    match id {
        Some(id) => Some(Line::Open { client, id }),
        None => None,
    }
}

// The line whose rest follows `open `.
fn read_open(rest: &[u8]) -> Option<Line>
    ensures { (octets : List ℕ) → option_map (line_meant octets) result ≡ opened rest.now }
{
    match space(rest) {
        Some(at) => open_line(read_client(front(rest, at)), read_id(rest_at(rest, at + 1))),
        None => None,
    }
}

// Whether octets are a text.
fn is_text(octets: &[u8]) -> bool
    ensures { result ≡ list_all is_printable octets.now }
{
    octets.iter().all(|octet| is_printable(*octet))
}

// The line whose rest follows `use `.
fn read_use(rest: &[u8]) -> Option<Line>
    ensures { (octets : List ℕ) → drop 41 octets ≡ drop 37 rest.now → option_map (line_meant octets) result ≡ used rest.now }
{
    if rest.len() < 36 {
        return None;
    }
    let (word, rest) = rest.split_at(36);
    let Some(id) = read_id(word) else {
        return None;
    };
    let Some(text) = rest.strip_prefix(b" ") else {
        return None;
    };
    if is_text(text) {
        Some(Line::Use { id })
    } else {
        None
    }
}

// The line whose rest follows `close `.
fn read_close(rest: &[u8]) -> Option<Line>
    ensures { (octets : List ℕ) → option_map (line_meant octets) result ≡ closed rest.now }
{
    match read_id(rest) {
        Some(id) => Some(Line::Close { id }),
        None => None,
    }
}

// The line whose rest follows `down `.
fn read_down(rest: &[u8]) -> Option<Line>
    ensures { (octets : List ℕ) → option_map (line_meant octets) result ≡ downed rest.now }
{
    match read_client(rest) {
        Some(client) => Some(Line::Down { client }),
        None => None,
    }
}

// The line that octets without a line feed are, if they are one.
pub(crate) fn read_line(octets: &[u8]) -> Option<Line>
    ensures { option_map (line_meant octets.now) result ≡ line_of octets.now }
{
    if let Some(rest) = octets.strip_prefix(b"open ") {
        return read_open(rest);
    }
    if let Some(rest) = octets.strip_prefix(b"use ") {
        return read_use(rest);
    }
    if let Some(rest) = octets.strip_prefix(b"close ") {
        return read_close(rest);
    }
    if let Some(rest) = octets.strip_prefix(b"down ") {
        return read_down(rest);
    }
    None
}

// The text of a line that uses a resource: what follows `use `, 36 octets and a space.
pub(crate) fn text_of(octets: &[u8]) -> &[u8]
    ensures { result.now ≡ drop 41 octets.now }
{
    if octets.len() < 41 {
        return &[];
    }
    rest_at(octets, 41)
}
