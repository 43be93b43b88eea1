// Versions of an interface.
ghost use Rattle.std.specs.Prelude.{◌≡◌, ◌≤◌, IsSomeAnd};
ghost use Rattle.library_calls.specs.Versions.{AreCompatible};
ghost use Rattle.library_answers.specs.Answers.{refusal_in};
ghost use Rattle.library_answers.specs.Versions.{IsCompareRefusal};

use crate::answers::{ARGUMENT, EMPTY, OK, REFUSED, SHORT, refuse};
use library_calls::compare_versions;
use library_handles::Handle;
use library_interface::Compiled;
use std::alloc::Global;

/// Whether the newer of two versions of an interface is compatible with the older one. Takes memory for a fault alone.
#[tactic(auto, using(crate::proofs::Calls::compare_refused))]
pub fn compare(alloc: Global, older: &Compiled, newer: &Compiled, fault: &mut Handle) -> u32
    ensures known { result ≤ REFUSED }
    ensures not_empty { result ≡ EMPTY → ⊥ }
    ensures not_argument { result ≡ ARGUMENT → ⊥ }
    ensures not_short { result ≡ SHORT → ⊥ }
    ensures compatible { result ≡ OK → AreCompatible older.now newer.now }
    ensures refused { result ≡ REFUSED → IsSomeAnd (refusal_in fault.new.value) (λ e. IsCompareRefusal older.now newer.now e) }
    ensures fault_kept { (result ≡ REFUSED → ⊥) → fault.new.value ≡ fault.old.value }
{
    match compare_versions(alloc, older.interface(), newer.interface()) {
        Ok(()) => OK,
        Err(refusal) => refuse(alloc, fault, refusal),
    }
}
