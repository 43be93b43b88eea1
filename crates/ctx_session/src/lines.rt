// The first line of a script.
ghost use Rattle.std.specs.Prelude.{◌≡◌, ℕ, ◌<◌, List, length, take, IfSome, IfNone};
ghost use Rattle.ctx_session.specs.Script.{BeginsWith, IsOther, HasLine, feed_of};
ghost use Rattle.ctx_session.specs.Lines.{line_meant};

use crate::line::{Line, front, read_line};

// A line at the front of octets, and the place of its line feed.
#[derive(Clone, Copy)]
pub(crate) struct FirstLine {
    pub(crate) line: Line,
    pub(crate) end: usize,
}

// The place of the first line feed.
fn feed(octets: &[u8]) -> Option<usize>
    ensures place { result ≡ feed_of octets.now }
    ensures within { IfSome result (λ at. at < length octets.now) }
{
    octets.iter().position(|octet| *octet == b'\n')
}

// The line at the front of octets, or None if they begin with what is no line.
pub(crate) fn first_line(octets: &[u8]) -> Option<FirstLine>
    ensures line { IfSome result (λ f. BeginsWith octets.now f.end (line_meant (take f.end octets.now) f.line)) }
    ensures within { IfSome result (λ f. f.end < length octets.now) }
    ensures other { IfNone result (0 < length octets.now → IsOther octets.now) }
{
    let Some(end) = feed(octets) else {
        return None;
    };
    match read_line(front(octets, end)) {
        Some(line) => Some(FirstLine { line, end }),
        None => None,
    }
}

// The line at the front of octets that begin with one.
#[tactic(auto, using(crate::proofs::Scripts::never_none))]
pub(crate) fn line_at_front(octets: &[u8]) -> FirstLine
    requires { HasLine octets.now }
    ensures line { BeginsWith octets.now result.end (line_meant (take result.end octets.now) result.line) }
    ensures within { result.end < length octets.now }
{
    match first_line(octets) {
        Some(first) => first,
        None => unreachable!(),
    }
}
