// Versions of an interface.
ghost use Rattle.std.specs.Prelude.{◌≡◌, ◌<◌, length, IfOk, IfErr};
ghost use Rattle.nd_types.specs.declared.interface.Interface.{Interface as InterfaceValue};
ghost use Rattle.idl_compat.specs.Comparison.{IsCompared};
ghost use Rattle.command_compile.specs.Compat.{IsRefusal, IsDifference};
ghost use Rattle.library_calls.specs.Versions.{AreCompatible};

use command_refusals::{CompatFault, Refusal};
use idl_compat::{Compared, compare};
use nd_base::Octets;
use nd_types::Interface;
use std::alloc::Global;

/// Compares two versions of an interface. Where it answers Ok, the newer one has all operations of the older, and octets represent a graph that
/// conforms to a side of an operation of the older exactly if they represent the same graph, and it conforms, under the newer.
///
/// # Errors
/// NotCompatible, for the first reason in this order: the UUIDs differ or one is absent; the major versions differ; the minor version of the newer is
/// less; it has fewer operations; this operation of the older is the first that no one-to-one pairing of types makes alike with those before it.
/// Memory where memory was refused.
///
/// Takes memory for the pairs of their types, in time that grows with the types, members, arms and parameters.
pub fn compare_versions(alloc: Global, older: &Interface, newer: &Interface) -> Result<(), Refusal>
    ensures compatible { IfOk result (λ _. AreCompatible older.now newer.now) }
    ensures refused { IfErr result (IsRefusal older.now newer.now) }
{
    match compare(alloc, older, newer) {
        Ok(compared) => verdict(alloc, older, &compared),
        Err(_) => Err(Refusal::Memory),
    }
}

// What a comparison of an older version with a newer one comes to.
fn verdict(alloc: Global, older: &Interface, compared: &Compared) -> Result<(), Refusal>
    requires { (newer : InterfaceValue) × IsCompared older.now newer compared.now }
    ensures compatible { (newer : InterfaceValue) → IsCompared older.now newer compared.now → IfOk result (λ _. AreCompatible older.now newer) }
    ensures refused { (newer : InterfaceValue) → IsCompared older.now newer compared.now → IfErr result (IsRefusal older.now newer) }
{
    match compared {
        Compared::Yes { .. } => Ok(()),
        Compared::OtherUuid => Err(Refusal::NotCompatible(CompatFault::OtherUuid)),
        Compared::OtherMajor { old, new } => {
            Err(Refusal::NotCompatible(CompatFault::OtherMajor {
                old: *old,
                new: *new,
            }))
        }
        Compared::OlderMinor { old, new } => {
            Err(Refusal::NotCompatible(CompatFault::OlderMinor {
                old: *old,
                new: *new,
            }))
        }
        Compared::Fewer { old, new } => Err(Refusal::NotCompatible(CompatFault::Fewer {
            old: *old,
            new: *new,
        })),
        Compared::Differs { op } => Err(difference(alloc, older, *op)),
    }
}

// That an operation differs.
fn difference(alloc: Global, older: &Interface, op: u32) -> Refusal
    requires { op < length older.now.operations }
    ensures { IsDifference older.now op result }
{
    let Some(operation) = older.operations.get(op as usize) else {
        unreachable!();
    };
    match Octets::copy(alloc, operation.name.as_slice()) {
        Ok(name) => Refusal::NotCompatible(CompatFault::Differs { name }),
        Err(_) => Refusal::Memory,
    }
}
