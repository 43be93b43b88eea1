// What the entries say of the words of a command.
ghost use Rattle.std.specs.Prelude.{◌≡◌, ◌∷◌, map, option_map, IfOk};
ghost use Rattle.std.specs.String.{string_bytes};
ghost use Rattle.command_why.specs.Explained.{entries, entry_of, spelled as spelled_of, name_explained, explained_by, explained};

use crate::entries::ENTRIES;
use crate::near::{names, nearest};
use crate::pages::{first_page, title};
use nd_base::{Memory, Octets};
use std::alloc::Global;

/// What words come to.
#[derive(Debug, Drop)]
pub enum Explained {
    /// Their entry; of no words the names of all entries, a line each.
    Found(Octets),
    /// They have no entry: the names of the entries that are nearest, a line each.
    Nearest(Octets),
}

/// What the entries say of words. Takes memory for it, and running out of memory is the only refusal.
pub fn explain(alloc: Global, words: &[String]) -> Result<Explained, Memory>
    ensures { IfOk result (λ e. e ≡ explained (map string_bytes words.now)) }
{
    explain_by(alloc, ENTRIES.as_bytes(), words)
}

// What the entries of a text say of words.
fn explain_by(alloc: Global, text: &[u8], words: &[String]) -> Result<Explained, Memory>
    ensures { IfOk result (λ e. e ≡ explained_by (entries text.now) (map string_bytes words.now)) }
{
    match words {
        [] => {
            let all = names(alloc, text)?;
            Ok(Explained::Found(all))
        }
        [first, rest @ ..] => {
            let name = spelled(alloc, first.as_str(), rest)?;
            explain_name(alloc, text, name.as_slice())
        }
    }
}

// What the entries of a text say of a name.
fn explain_name(alloc: Global, text: &[u8], name: &[u8]) -> Result<Explained, Memory>
    ensures { IfOk result (λ e. e ≡ name_explained (entries text.now) name.now) }
{
    match entry_named(text, name) {
        Some(entry) => {
            let found = Octets::copy(alloc, entry)?;
            Ok(Explained::Found(found))
        }
        None => {
            let names = nearest(alloc, text, name)?;
            Ok(Explained::Nearest(names))
        }
    }
}

// The entry of a name, if there is one.
fn entry_named<'a>(text: &'a [u8], name: &[u8]) -> Option<&'a [u8]>
    ensures { option_map (λ e. e.now) result ≡ entry_of (entries text.now) name.now }
{
    let mut rest = text;
    while rest.len() > 0 {
        let page = first_page(rest);
        if title(page.entry) == name {
            return Some(page.entry);
        }
        rest = page.rest;
    }
    None
}

// The name that words spell.
fn spelled(alloc: Global, first: &str, rest: &[String]) -> Result<Octets, Memory>
    ensures { IfOk result (λ n. n ≡ spelled_of (first.now ∷ map string_bytes rest.now)) }
{
    let mut name = Octets::copy(alloc, first.as_bytes())?;
    for word in rest {
        name.append(b" ")?;
        name.append(word.as_bytes())?;
    }
    Ok(name)
}
