// The names of files that strings spell.
ghost use Rattle.std.specs.Prelude.{◌≡◌, ◌∷◌, ◌++◌, ℕ, if◌then◌else◌, ◌==◌, string_bytes, IfOk};
ghost use Rattle.idl_names.specs.Walk as sources;
ghost use Rattle.idl_scope.specs.Value as values;

use idl_scope::escaped;
use nd_base::Memory;
use std::alloc::Global;

/// The character that begins with an octet, and how many octets spell it.
fn character(octet: u8, next: u8) -> (u8, usize)
    ensures character { result.0 ≡ (if octet == sources.backslash then values.escaped next else octet) }
    ensures width { result.1 ≡ (if octet == sources.backslash then 2 else 1) }
{
    if octet == b'\\' {
        (escaped(next), 2)
    } else {
        (octet, 1)
    }
}

/// What a string spells between its quotes.
fn string_value(alloc: Global, string: &[u8]) -> Result<Vec<u8>, Memory>
    ensures { IfOk result (λ v. v.items ≡ sources.string_value string.now) }
{
    let mut value = Vec::new(alloc);
    let mut at = 1;
    while at + 1 < string.len() {
        let (octet, width) = character(string[at], string[at + 1]);
        match value.push(octet) {
            Ok(()) => {}
            Err(_) => return Err(Memory),
        }
        at += width;
    }
    Ok(value)
}

/// The name of the file that a string spells. Takes memory for it.
pub(crate) fn file_named(alloc: Global, string: &[u8]) -> Result<String, Memory>
    ensures { IfOk result (λ name. string_bytes name ≡ sources.file_named string.now) }
{
    let value = string_value(alloc, string)?;
    Ok(String::from_utf8_lossy(alloc, value.as_slice())?)
}
