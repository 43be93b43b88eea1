// The names of entries: of all, and of those that are nearest to a name that has none.
ghost use Rattle.std.specs.Prelude.{◌≡◌, ◌≤◌, ◌⊎◌, max, IfOk};
ghost use Rattle.command_why.specs.Explained.{entries, names as names_of, lower as lower_of, shared as shared_of, most_shared as most_shared_of};
ghost use Rattle.command_why.specs.Explained.{names_sharing as names_sharing_of, nearest as nearest_of};

use crate::pages::{first_page, title};
use nd_base::{Memory, Octets};
use std::alloc::Global;

// The names of all entries of a text, a line each.
pub(crate) fn names(alloc: Global, text: &[u8]) -> Result<Octets, Memory>
    ensures { IfOk result (λ n. n ≡ names_of (entries text.now)) }
{
    let mut lines = Octets::new(alloc);
    let mut rest = text;
    while rest.len() > 0 {
        let page = first_page(rest);
        lines.append(title(page.entry))?;
        lines.append(b"\n")?;
        rest = page.rest;
    }
    Ok(lines)
}

// The names of the entries that share the longest beginning with a name, a line each.
pub(crate) fn nearest(alloc: Global, text: &[u8], name: &[u8]) -> Result<Octets, Memory>
    ensures { IfOk result (λ n. n ≡ nearest_of (entries text.now) name.now) }
{
    let count = most_shared(text, name);
    names_sharing(alloc, count, text, name)
}

// The names of the entries that share a beginning of so many octets with a name, a line each.
fn names_sharing(alloc: Global, count: usize, text: &[u8], name: &[u8]) -> Result<Octets, Memory>
    ensures { IfOk result (λ n. n ≡ names_sharing_of count (entries text.now) name.now) }
{
    let mut lines = Octets::new(alloc);
    let mut rest = text;
    while rest.len() > 0 {
        let page = first_page(rest);
        let own = title(page.entry);
        if shared(own, name) == count {
            lines.append(own)?;
            lines.append(b"\n")?;
        }
        rest = page.rest;
    }
    Ok(lines)
}

// The longest beginning that the name of an entry shares with a name.
fn most_shared(text: &[u8], name: &[u8]) -> usize
    ensures { result ≡ most_shared_of (entries text.now) name.now }
{
    let mut most = 0;
    let mut rest = text;
    while rest.len() > 0 {
        let page = first_page(rest);
        most = greater(most, shared(title(page.entry), name));
        rest = page.rest;
    }
    most
}

// The greater of two numbers.
fn greater(a: usize, b: usize) -> usize
    ensures { result ≡ max a b }
{
    if a < b { b } else { a }
}

// The lesser of two numbers.
fn lesser(a: usize, b: usize) -> usize
    ensures first { result ≤ a }
    ensures second { result ≤ b }
    ensures either { (result ≡ a) ⊎ (result ≡ b) }
{
    if a < b { a } else { b }
}

// How many octets two names have in common at their beginnings, the case of letters aside.
fn shared(one: &[u8], other: &[u8]) -> usize
    ensures { result ≡ shared_of one.now other.now }
{
    let least = lesser(one.len(), other.len());
    for count in 0..least {
        if lower(one[count]) != lower(other[count]) {
            return count;
        }
    }
    least
}

// A capital letter as its small one, and any other octet as itself.
fn lower(octet: u8) -> u8
    ensures { result ≡ lower_of octet }
{
    if b'A' <= octet && octet <= b'Z' {
        octet + 32
    } else {
        octet
    }
}
