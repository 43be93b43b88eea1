// Which pairs of types two types or operations ask for, if they are to be alike.
ghost use Rattle.std.specs.Prelude.{◌≡◌, ℕ, List, Some, true, false, IfOk, slice_get};
ghost use Rattle.idl_compat.specs.declared.pairs.TypePair.{TypePair};
ghost use Rattle.idl_compat.specs.Comparison.{OneByOne, AlikeFields, IsPair};
ghost use Rattle.idl_compat.specs.Asking.{Asks};

use crate::{TypePair, TypePairs};
use nd_base::Memory;
use nd_types::{AttrVars, Field, Fields, TypeId};

// The pair of two types.
pub(crate) fn ask(queue: &mut TypePairs, old: TypeId, new: TypeId) -> Result<bool, Memory>
    ensures { IfOk result (λ ok. Asks (λ m. IsPair m old.0 new.0) queue.old queue.new ok) }
{
    let Ok(()) = queue.push(TypePair { old, new }) else {
        return Err(Memory);
    };
    Ok(true)
}

// Whether two lists of attributes have the same attribute at a place, or both none.
fn agree_at(vars: &AttrVars, others: &AttrVars, at: usize) -> bool
    ensures equal { result ≡ true → slice_get vars.now at ≡ slice_get others.now at }
    ensures other { slice_get vars.now at ≡ slice_get others.now at → result ≡ true }
{
    match vars.get(at) {
        Some(var) => match others.get(at) {
            Some(other) => *var == *other,
            None => false,
        },
        None => others.get(at).is_none(),
    }
}

// Whether two lists of attributes are equal.
pub(crate) fn are_equal(vars: &AttrVars, others: &AttrVars) -> bool
    ensures equal { result ≡ true → vars.now ≡ others.now }
    ensures other { vars.now ≡ others.now → result ≡ true }
{
    if vars.len() != others.len() {
        return false;
    }
    for at in 0..vars.len() {
        if !agree_at(vars, others, at) {
            return false;
        }
    }
    true
}

// The pair of the types of two members.
fn ask_field(queue: &mut TypePairs, old: &Field, new: &Field) -> Result<bool, Memory>
    ensures { IfOk result (λ ok. Asks (λ m. AlikeFields (IsPair m) old.now new.now) queue.old queue.new ok) }
{
    if !are_equal(&old.vars, &new.vars) {
        return Ok(false);
    }
    ask(queue, old.of, new.of)
}

// The pairs of the types of members.
pub(crate) fn ask_fields(
    queue: &mut TypePairs,
    members: &Fields,
    others: &Fields,
) -> Result<bool, Memory>
    ensures { IfOk result (λ ok. Asks (λ m. OneByOne (AlikeFields (IsPair m)) members.now others.now) queue.old queue.new ok) }
{
    if members.len() != others.len() {
        return Ok(false);
    }
    for at in 0..members.len() {
        let Some(member) = members.get(at) else {
            return Ok(false);
        };
        let Some(other) = others.get(at) else {
            return Ok(false);
        };
        if !ask_field(queue, member, other)? {
            return Ok(false);
        }
    }
    Ok(true)
}
