// The entries of a text, one after the other, and their names.
ghost use Rattle.std.specs.Prelude.{◌≡◌, ◌==◌, ◌≤◌, ◌<◌, ◌∷◌, length, take, drop, position, IfSome};
ghost use Rattle.command_why.specs.Explained.{entries, title as title_of};

// The first entry of a text, and what follows it.
#[derive(Clone, Copy)]
pub(crate) struct Page<'a> {
    pub(crate) entry: &'a [u8],
    pub(crate) rest: &'a [u8],
}

// The octets before a place.
fn front(octets: &[u8], at: usize) -> &[u8]
    requires { at ≤ length octets.now }
    ensures { result.now ≡ take at octets.now }
{
    octets.split_at(at).0
}

// The octets from a place on.
fn rest_at(octets: &[u8], at: usize) -> &[u8]
    requires { at ≤ length octets.now }
    ensures { result.now ≡ drop at octets.now }
{
    octets.split_at(at).1
}

// The place of the first form feed, which ends an entry.
fn entry_end(text: &[u8]) -> Option<usize>
    ensures place { result ≡ position (λ c. c == 12) text.now }
    ensures within { IfSome result (λ at. at < length text.now) }
{
    text.iter().position(|octet| *octet == b'\x0c')
}

// The place of the first line feed.
fn line_end(entry: &[u8]) -> Option<usize>
    ensures place { result ≡ position (λ c. c == 10) entry.now }
    ensures within { IfSome result (λ at. at < length entry.now) }
{
    entry.iter().position(|octet| *octet == b'\n')
}

// The first entry of a text that is not empty.
pub(crate) fn first_page(text: &[u8]) -> Page<'_>
    requires { 0 < length text.now }
    ensures first { entries text.now ≡ result.entry.now ∷ entries result.rest.now }
    ensures less { length result.rest.now < length text.now }
{
    match entry_end(text) {
        Some(at) => Page {
            entry: front(text, at),
            rest: rest_at(text, at + 1),
        },
        None => Page {
            entry: text,
            rest: rest_at(text, text.len()),
        },
    }
}

// The name of an entry: its first line.
pub(crate) fn title(entry: &[u8]) -> &[u8]
    ensures { result.now ≡ title_of entry.now }
{
    match line_end(entry) {
        Some(at) => front(entry, at),
        None => entry,
    }
}
