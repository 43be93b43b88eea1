// Files are added to files in memory.
ghost use Rattle.std.specs.Prelude.{◌≡◌, ◌<◌, ℕ, List, length, option_map, Some, true, false, OnOk, IsErrOf, IsUtf8};
ghost use Rattle.std.specs.List.{slice_get};
ghost use Rattle.nd_base.specs.InMemory.{content_of, entries_of, files_calls, with_file};
ghost use Rattle.library_interface.specs.Named.{named_after, HasBadName};
ghost use Rattle.library_interface.specs.declared.lend_fault.LendFault.TheVariants.{BadName};

use crate::file::File;
use crate::lend_fault::LendFault;
use nd_base::MemFiles;
use std::str::from_utf8;

/// Whether the name of a file is not UTF-8. Takes no memory.
pub fn has_bad_name(files: &[File<'_>]) -> bool
    ensures yes { result ≡ true → HasBadName files.now }
    ensures no { result ≡ false → HasBadName files.now → ⊥ }
{
    for at in 0..files.len() {
        if is_bad(name_at(files, at)) {
            return true;
        }
    }
    false
}

// Whether a name is not UTF-8.
fn is_bad(name: &[u8]) -> bool
    ensures yes { result ≡ true → IsUtf8 name.now → ⊥ }
    ensures no { result ≡ false → IsUtf8 name.now }
{
    match from_utf8(name) {
        Ok(_) => false,
        Err(_) => true,
    }
}

// Adds files, one after the other.
pub(crate) fn add_all(taken: &mut MemFiles, files: &[File<'_>]) -> Result<(), LendFault>
    ensures ok { OnOk result ((name : List ℕ)
        → content_of (entries_of taken.new) name ≡ named_after files.now name (content_of (entries_of taken.old) name)) }
    ensures bad { IsErrOf result BadName → HasBadName files.now }
    ensures good { OnOk result (HasBadName files.now → ⊥) }
    ensures calls { files_calls taken.new ≡ files_calls taken.old }
{
    for at in 0..files.len() {
        add_file(taken, name_at(files, at), text_at(files, at))?;
    }
    Ok(())
}

// The name of a file.
fn name_at<'a>(files: &[File<'a>], at: usize) -> &'a [u8]
    requires { at < length files.now }
    ensures { option_map (λ f. f.name.now) (slice_get files.now at) ≡ Some result.now }
{
    files[at].name
}

// The text of a file.
fn text_at<'a>(files: &[File<'a>], at: usize) -> &'a [u8]
    requires { at < length files.now }
    ensures { option_map (λ f. f.text.now) (slice_get files.now at) ≡ Some result.now }
{
    files[at].text
}

// Adds a file.
fn add_file(taken: &mut MemFiles, name: &[u8], text: &[u8]) -> Result<(), LendFault>
    ensures ok { OnOk result ((other : List ℕ)
        → content_of (entries_of taken.new) other ≡ with_file name.now text.now (λ _. content_of (entries_of taken.old) other) other) }
    ensures bad { IsErrOf result BadName → IsUtf8 name.now → ⊥ }
    ensures good { OnOk result (IsUtf8 name.now) }
    ensures calls { files_calls taken.new ≡ files_calls taken.old }
{
    let name = match from_utf8(name) {
        Ok(name) => name,
        Err(_) => return Err(LendFault::BadName),
    };
    match taken.add(name, text) {
        Ok(()) => Ok(()),
        Err(_) => Err(LendFault::Memory),
    }
}
