// The classes of octets that tokens are made of.
ghost use Rattle.std.specs.Prelude.{◌≡◌};
ghost use Rattle.idl_lexer.specs.Pieces as classes;

pub(crate) fn is_space(octet: u8) -> bool
    ensures { result ≡ classes.is_space octet }
{
    matches!(octet, b' ' | b'\t' | b'\n' | 0x0C | b'\r')
}

/// Whether an octet stands for itself in a literal of this quote.
pub(crate) fn is_plain(quote: u8, octet: u8) -> bool
    ensures { result ≡ classes.is_plain quote octet }
{
    octet >= 0x20 && octet <= 0x7E && octet != quote && octet != b'\\'
}

/// Whether an octet may follow a backslash in a literal.
pub(crate) fn is_escape(octet: u8) -> bool
    ensures { result ≡ classes.is_escape octet }
{
    matches!(
        octet,
        b'a' | b'b' | b'f' | b'n' | b'r' | b't' | b'v' | b'\\' | b'?' | b'\'' | b'"'
    )
}

/// Whether an octet is a mark by itself.
pub(crate) fn is_mark_octet(octet: u8) -> bool
    ensures { result ≡ classes.is_mark_octet octet }
{
    matches!(
        octet,
        b'[' | b']'
            | b'('
            | b')'
            | b'{'
            | b'}'
            | b','
            | b';'
            | b':'
            | b'='
            | b'*'
            | b'.'
            | b'+'
            | b'-'
            | b'/'
            | b'%'
            | b'~'
            | b'!'
            | b'&'
            | b'|'
            | b'^'
            | b'<'
            | b'>'
            | b'?'
    )
}

/// Whether two octets are a mark together.
pub(crate) fn are_mark(first: u8, second: u8) -> bool
    ensures { result ≡ classes.are_mark first second }
{
    match first {
        b'.' => second == b'.',
        b'<' => second == b'<' || second == b'=',
        b'>' => second == b'>' || second == b'=',
        b'=' | b'!' => second == b'=',
        b'&' => second == b'&',
        b'|' => second == b'|',
        _ => false,
    }
}
