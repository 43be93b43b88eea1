// What two parts of operations ask for, if they are to be alike.
ghost use Rattle.std.specs.Prelude.{◌≡◌, ℕ, List, Some, None, true, false, IfOk, slice_get};
ghost use Rattle.nd_types.specs.declared.types.Operation.{Operation as TheOperation};
ghost use Rattle.idl_compat.specs.declared.pairs.TypePair.{TypePair as Pair};
ghost use Rattle.idl_compat.specs.Comparison.{AlikeParams, IsPair};
ghost use Rattle.idl_compat_place.specs.Trails.{AreOtherForms, AreOtherParams, IsWanted};

use idl_compat::{TypePair, TypePairs, ask_param, ask_types};
use nd_base::Memory;
use nd_types::{HANDLE, Operation, Param, TypeDef, TypeId};
use std::alloc::Global;

// What two parts ask for.
#[derive(Clone, Copy, Debug, PartialEq, Eq)]
pub(crate) enum Wanted {
    // Nothing makes them alike.
    Other,
    // They are alike.
    Nothing,
    // These types have to be partners.
    Types(TypePair),
}

// Whether two types differ, whatever types they name are paired.
pub(crate) fn are_other_types(alloc: Global, old: &TypeDef, new: &TypeDef) -> Result<bool, Memory>
    ensures { IfOk result (AreOtherForms old.now new.now) }
{
    let mut queue = TypePairs::new(alloc);
    let ok = ask_types(&mut queue, old, new)?;
    Ok(!ok)
}

// Whether two parameters differ, whatever types are paired.
fn are_other_params(alloc: Global, old: &Param, new: &Param) -> Result<bool, Memory>
    ensures { IfOk result (AreOtherParams old.now new.now) }
{
    let mut queue = TypePairs::new(alloc);
    let ok = ask_param(&mut queue, old, new)?;
    Ok(!ok)
}

// What two parameters ask for.
fn wanted_params(alloc: Global, old: &Param, new: &Param) -> Result<Wanted, Memory>
    ensures { (o q : TheOperation) (n : ℕ) → slice_get o.params n ≡ Some old.now → slice_get q.params n ≡ Some new.now
        → IfOk result (IsWanted o q n) }
{
    if are_other_params(alloc, old, new)? {
        return Ok(Wanted::Other);
    }
    if old.field.of.0 == HANDLE.0 && new.field.of.0 == HANDLE.0 {
        return Ok(Wanted::Nothing);
    }
    Ok(Wanted::Types(TypePair {
        old: old.field.of,
        new: new.field.of,
    }))
}

// What two results ask for.
fn wanted_results(old: Option<TypeId>, new: Option<TypeId>) -> Wanted
    ensures { (o q : TheOperation) (n : ℕ) → slice_get o.params n ≡ None → slice_get q.params n ≡ None → o.result ≡ old → q.result ≡ new
        → IsWanted o q n result }
{
    match (old, new) {
        (Some(old), Some(new)) => Wanted::Types(TypePair { old, new }),
        (None, None) => Wanted::Nothing,
        _ => Wanted::Other,
    }
}

// What two parts ask for.
pub(crate) fn wanted_parts(
    alloc: Global,
    old: &Operation,
    new: &Operation,
    part: usize,
) -> Result<Wanted, Memory>
    ensures { IfOk result (IsWanted old.now new.now part) }
{
    match old.params.get(part) {
        Some(param) => match new.params.get(part) {
            Some(other) => wanted_params(alloc, param, other),
            None => Ok(Wanted::Other),
        },
        None => match new.params.get(part) {
            Some(_) => Ok(Wanted::Other),
            None => Ok(wanted_results(old.result, new.result)),
        },
    }
}
