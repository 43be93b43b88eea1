// Octets of a value text, and runs of them.
ghost use Rattle.std.specs.Prelude.{◌≡◌, ◌≤◌, true, length, take, drop};
ghost use Rattle.text_grammar.specs.Tokens as tokens;
ghost use Rattle.text_grammar.specs.Runs.{run, after_run};
ghost use Rattle.text_parser.specs.Quick.{is_one_of_marks as marks};

use nd_base::text::is_word_octet;

/// Space, tab, carriage return or line feed.
#[inline(always)]
pub fn is_blank(octet: u8) -> bool
    ensures { result ≡ tokens.is_blank octet }
{
    octet == b' ' || octet == b'\t' || octet == b'\r' || octet == b'\n'
}

/// One of the marks `= { } [ ] , : ( )`.
#[inline(always)]
pub fn is_mark(octet: u8) -> bool
    ensures { result ≡ tokens.is_mark octet }
{
    is_one_of_marks(octet)
}

/// The same, by one comparison after the other, which a compiler makes a look-up.
#[inline(always)]
fn is_one_of_marks(octet: u8) -> bool
    ensures { result ≡ marks octet }
{
    octet == b'='
        || octet == b'{'
        || octet == b'}'
        || octet == b'['
        || octet == b']'
        || octet == b','
        || octet == b':'
        || octet == b'('
        || octet == b')'
}

/// The text without the blanks at its front.
#[inline(always)]
pub(crate) fn skip_blanks(text: &[u8]) -> &[u8]
    ensures { result.now ≡ tokens.skip text.now }
{
    let mut rest = text;
    while let [first, after @ ..] = rest {
        if !is_blank(*first) {
            return rest;
        }
        rest = after;
    }
    rest
}

/// Where the letters, digits and `_` at the front of a text end.
#[inline(always)]
pub fn run_end(text: &[u8]) -> usize
    ensures within { result ≤ length text.now }
    ensures run { take result text.now ≡ run text.now }
    ensures after { drop result text.now ≡ after_run text.now }
{
    let mut end = 0;
    while end < text.len() && is_word_octet(text[end]) {
        end += 1;
    }
    end
}
