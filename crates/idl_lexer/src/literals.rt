// Character and string literals.
ghost use Rattle.std.specs.Prelude.{◌≡◌, ℕ, ◌+◌, ◌<◌, ◌≤◌, true, false, List, ◌∷◌, length, slice_index, slice_range, MatchResult};
ghost use Rattle.idl_lexer.specs.Literals.{completes, completes_after, IsEnd, IsUnended};

use crate::classes::{is_escape, is_plain};

/// What may follow in a literal.
#[derive(Clone, Copy, Drop)]
pub(crate) enum Due {
    /// Characters of a string, or its closing quote.
    Characters,
    /// What follows a backslash in a string.
    Escape,
    /// The one character of a character literal.
    OneCharacter,
    /// What follows a backslash in a character literal.
    OneEscape,
    /// The closing quote of a character literal.
    Quote,
}

/// What an octet does in a literal.
#[derive(Clone, Copy, Drop)]
pub(crate) enum Step {
    Goes(Due),
    Closed,
    Bad,
}

/// One octet of a literal.
fn advance(due: Due, octet: u8) -> Step
    ensures { (rest : List ℕ) → completes due (octet ∷ rest) ≡ completes_after result rest }
{
    match due {
        Due::Characters if octet == b'"' => Step::Closed,
        Due::Characters if octet == b'\\' => Step::Goes(Due::Escape),
        Due::Characters if is_plain(b'"', octet) => Step::Goes(Due::Characters),
        Due::Escape if is_escape(octet) => Step::Goes(Due::Characters),
        Due::OneCharacter if octet == b'\\' => Step::Goes(Due::OneEscape),
        Due::OneCharacter if is_plain(b'\'', octet) => Step::Goes(Due::Quote),
        Due::OneEscape if is_escape(octet) => Step::Goes(Due::Quote),
        Due::Quote if octet == b'\'' => Step::Closed,
        _ => Step::Bad,
    }
}

/// Why a literal has no end.
#[derive(Clone, Copy, Drop)]
pub(crate) enum Unended {
    /// A line feed or the text's end comes first.
    Open,
    /// An octet cannot stand there.
    Bad(usize),
}

/// The octet past a literal, whose opening quote is the octet before `first`.
pub(crate) fn literal_end(text: &[u8], start: Due, first: usize) -> Result<usize, Unended>
    requires { first ≤ length text.now }
    ensures { MatchResult result (IsEnd text.now start first) (IsUnended text.now start first) }
{
    let mut due = start;
    for at in first..text.len() {
        let octet = text[at];
        if octet == b'\n' {
            return Err(Unended::Open);
        }
        match advance(due, octet) {
            Step::Goes(next) => due = next,
            Step::Closed => return Ok(at + 1),
            Step::Bad => return Err(Unended::Bad(at)),
        }
    }
    Err(Unended::Open)
}
