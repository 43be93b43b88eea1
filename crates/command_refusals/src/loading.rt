// Files by their names.
ghost use Rattle.std.specs.Prelude.{◌≡◌, ◌≤◌, [], ◌∷◌, ◌++◌, IfOk, IfErr};
ghost use Rattle.nd_base.specs.Over.{IsContent, files_over};
ghost use Rattle.command_refusals.specs.Loads.{IsLoadCause};

use crate::refusal::Refusal;
use nd_base::{FileFault, Files, Octets};
use std::alloc::Global;

/// The content of the file of a name, or its first [`FILE_LIMIT`](nd_base::FILE_LIMIT)` + 1` octets if it is longer.
///
/// # Errors
/// Absent if there is no such file, FileFailed if it could not be read, Memory where memory was refused.
///
/// Takes memory for the content.
pub fn load<F: Files>(alloc: Global, name: &str, files: &mut F) -> Result<Octets, Refusal>
    ensures content { IfOk result (IsContent (F.seen files.old).held name.now) }
    ensures refused { IfErr result (IsLoadCause (files_over F.seen files.old files.new) name.now) }
    ensures later { (F.seen files.old).faults ≤ (F.seen files.new).faults }
    ensures absences_later { (F.seen files.old).absences ≤ (F.seen files.new).absences }
    ensures same { (F.seen files.new).held ≡ (F.seen files.old).held }
    ensures asked { (F.seen files.new).asked ≡ (F.seen files.old).asked ++ name.now ∷ [] }
{
    match files.load(alloc, name) {
        Ok(text) => Ok(text),
        Err(FileFault::Absent) => Err(Refusal::Absent {
            file: Octets::copy(alloc, name.as_bytes())?,
        }),
        Err(FileFault::Failed) => Err(Refusal::FileFailed {
            file: Octets::copy(alloc, name.as_bytes())?,
        }),
        Err(FileFault::Memory) => Err(Refusal::Memory),
    }
}
