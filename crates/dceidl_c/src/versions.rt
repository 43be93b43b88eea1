// Versions of an interface.
ghost use Rattle.std.specs.Prelude.{◌≡◌, ◌≤◌, Some, None, true, is_some, IsSomeAnd};
ghost use Rattle.nd_types.specs.declared.interface.Interface.{Interface};
ghost use Rattle.library_calls.specs.Versions.{AreCompatible};
ghost use Rattle.library_answers.specs.Answers.{interface_in, refusal_in};
ghost use Rattle.library_answers.specs.Versions.{IsCompareRefusal};

use library_answers::{ARGUMENT, EMPTY, MEMORY, OK, REFUSED, SHORT, compare};
use library_handles::{Handle, Held};
use library_interface::Compiled;
use std::alloc::Global;

/// Whether the newer of two versions of an interface is compatible with the older one.
#[unsafe(no_mangle)]
pub extern "C" fn dceidl_compare(
    alloc: Global,
    older: &mut Handle,
    newer: &mut Handle,
    fault: &mut Handle,
) -> u32
    ensures known { result ≤ REFUSED }
    ensures not_argument { result ≡ ARGUMENT → ⊥ }
    ensures not_short { result ≡ SHORT → ⊥ }
    ensures older_same { older.new.value ≡ older.old.value }
    ensures newer_same { newer.new.value ≡ newer.old.value }
    ensures compatible { result ≡ OK → IsSomeAnd (interface_in older.old.value)
        (λ i. IsSomeAnd (interface_in newer.old.value) (λ j. AreCompatible i j)) }
    ensures refused { result ≡ REFUSED → IsSomeAnd (interface_in older.old.value)
        (λ i. IsSomeAnd (interface_in newer.old.value) (λ j. IsSomeAnd (refusal_in fault.new.value) (λ e. IsCompareRefusal i j e))) }
    ensures empty { result ≡ EMPTY → (i : Interface) → interface_in older.old.value ≡ Some i → interface_in newer.old.value ≡ None }
    ensures memory { result ≡ MEMORY → IsSomeAnd (interface_in older.old.value) (λ _. is_some (interface_in newer.old.value) ≡ true) }
    ensures fault_kept { (result ≡ REFUSED → ⊥) → fault.new.value ≡ fault.old.value }
{
    let Some(held) = older.take(alloc) else {
        return EMPTY;
    };
    let status = match &*held {
        Held::Interface(compiled) => compare_with(alloc, compiled, newer, fault),
        _ => EMPTY,
    };
    older.put(alloc, held);
    status
}

// The same, beside the interface of the older version.
fn compare_with(alloc: Global, older: &Compiled, newer: &mut Handle, fault: &mut Handle) -> u32
    ensures known { result ≤ REFUSED }
    ensures not_argument { result ≡ ARGUMENT → ⊥ }
    ensures not_short { result ≡ SHORT → ⊥ }
    ensures newer_same { newer.new.value ≡ newer.old.value }
    ensures compatible { result ≡ OK → IsSomeAnd (interface_in newer.old.value) (λ j. AreCompatible older.now j) }
    ensures refused { result ≡ REFUSED → IsSomeAnd (interface_in newer.old.value)
        (λ j. IsSomeAnd (refusal_in fault.new.value) (λ e. IsCompareRefusal older.now j e)) }
    ensures empty { result ≡ EMPTY → interface_in newer.old.value ≡ None }
    ensures memory { result ≡ MEMORY → is_some (interface_in newer.old.value) ≡ true }
    ensures fault_kept { (result ≡ REFUSED → ⊥) → fault.new.value ≡ fault.old.value }
{
    let Some(held) = newer.take(alloc) else {
        return EMPTY;
    };
    let status = match &*held {
        Held::Interface(compiled) => compare(alloc, older, compiled, fault),
        _ => EMPTY,
    };
    newer.put(alloc, held);
    status
}
