// Files that a caller lends, as files to load from.
ghost use Rattle.std.specs.Prelude.{◌≡◌, []};
ghost use Rattle.nd_base.specs.Calls.{failing_calls};
ghost use Rattle.nd_base.specs.InMemory.{files_calls};

use crate::adding::add_all;
use crate::file::File;
use crate::lend_fault::LendFault;
use nd_base::{FileFault, Files, MemFiles, Octets};
use std::alloc::Global;

/// Files to load from, none of whose loads fails.
#[derive(Drop)]
pub struct LentFiles {
    files: MemFiles,
    ghost sure: { failing_calls (files_calls files) ≡ [] },
}

impl LentFiles {
    ghost use Rattle.std.specs.Prelude.{ℕ, List, None, IfOk, IsErrOf};
    ghost use Rattle.library_interface.specs.Held.{content_under};
    ghost use Rattle.library_interface.specs.Named.{named_after, HasBadName};
    ghost use Rattle.library_interface.specs.declared.lend_fault.LendFault.TheVariants.{BadName};

    /// Copies of these files. Of two files of one name the later counts.
    ///
    /// # Errors
    /// BadName, where the name of a file is not UTF-8. Memory where memory was refused.
    #[tactic(auto, using(crate::proofs::Sure::held_of))]
    pub fn of(alloc: Global, files: &[File<'_>]) -> Result<LentFiles, LendFault>
        ensures held { IfOk result (λ f. (name : List ℕ) → content_under f name ≡ named_after files.now name None) }
        ensures bad { IsErrOf result BadName → HasBadName files.now }
        ensures good { IfOk result (λ _. HasBadName files.now → ⊥) }
    {
        let mut taken = match MemFiles::new(alloc, &[]) {
            Ok(none) => none,
            Err(_) => return Err(LendFault::Memory),
        };
        match add_all(&mut taken, files) {
            Ok(()) => Ok(LentFiles { files: taken }),
            Err(fault) => Err(fault),
        }
    }
}

impl Files for LentFiles {
    ghost use Rattle.std.specs.Prelude.{Some};
    ghost use Rattle.nd_base.specs.InMemory.{files_absences, files_asked};
    ghost use Rattle.library_interface.specs.Held.{content_under};

    ghost seen = { λ f. record { held = Some (content_under f); absences = files_absences f.files; faults = 0; asked = files_asked f.files } };

    #[tactic(auto, using(crate::proofs::Sure::never_failed, crate::proofs::Sure::stays_sure))]
    fn load(&mut self, alloc: Global, name: &str) -> Result<Octets, FileFault> {
        self.files.load(alloc, name)
    }
}
