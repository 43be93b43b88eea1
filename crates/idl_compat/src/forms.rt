// The pairs that two types of one form ask for.
ghost use Rattle.std.specs.Prelude.{◌≡◌, ℕ, List, Some, true, false, IfOk, slice_get};
ghost use Rattle.nd_types.specs.declared.types.TypeDef.TheVariants.{Prim as ThePrim, Enum as TheEnum, Struct as TheStruct, Array as TheArray};
ghost use Rattle.nd_types.specs.declared.types.TypeDef.TheVariants.{Text as TheText, Union as TheUnion, Pointer as ThePointer, Context as TheContext};
ghost use Rattle.nd_types.specs.declared.types.TypeDef.TheVariants.{Pipe as ThePipe};
ghost use Rattle.idl_compat.specs.declared.pairs.TypePair.{TypePair};
ghost use Rattle.idl_compat.specs.Comparison.{AlikeTypes, BothOrNone, AlikeArms, AlikeDefaults, OneByOne, IsPair};
ghost use Rattle.idl_compat.specs.Asking.{Asks};

use crate::TypePairs;
use crate::asking::{ask, ask_fields};
use nd_base::Memory;
use nd_types::{Arm, Arms, Class, Fields, Numbers, Prim, TypeDef, TypeId};

// The pair of two types that may be absent.
pub(crate) fn ask_both(
    queue: &mut TypePairs,
    old: Option<TypeId>,
    new: Option<TypeId>,
) -> Result<bool, Memory>
    ensures { IfOk result (λ ok. Asks (λ m. BothOrNone (IsPair m) old new) queue.old queue.new ok) }
{
    match old {
        Some(old) => match new {
            Some(new) => ask(queue, old, new),
            None => Ok(false),
        },
        None => Ok(new.is_none()),
    }
}

// The pair of the types of two arms.
fn ask_arm(queue: &mut TypePairs, old: &Arm, new: &Arm) -> Result<bool, Memory>
    ensures { IfOk result (λ ok. Asks (λ m. AlikeArms (IsPair m) old.now new.now) queue.old queue.new ok) }
{
    if old.label != new.label {
        return Ok(false);
    }
    ask_both(queue, old.of, new.of)
}

// The pair of the types of two default arms.
fn ask_default(queue: &mut TypePairs, old: &Option<Arm>, new: &Option<Arm>) -> Result<bool, Memory>
    ensures { IfOk result (λ ok. Asks (λ m. AlikeDefaults (IsPair m) old.now new.now) queue.old queue.new ok) }
{
    match old {
        Some(arm) => match new {
            Some(other) => ask_both(queue, arm.of, other.of),
            None => Ok(false),
        },
        None => Ok(new.is_none()),
    }
}

// The pairs of two primitives: none.
fn ask_prim(queue: &TypePairs, prim: Prim, new: &TypeDef) -> Result<bool, Memory>
    ensures { IfOk result (λ ok. Asks (λ m. AlikeTypes (IsPair m) (Some (ThePrim prim)) (Some new.now)) queue.now queue.now ok) }
{
    match new {
        TypeDef::Prim(other) => Ok(prim == *other),
        _ => Ok(false),
    }
}

// The pairs of two structs.
fn ask_struct(queue: &mut TypePairs, members: &Fields, new: &TypeDef) -> Result<bool, Memory>
    ensures { IfOk result (λ ok. Asks (λ m. AlikeTypes (IsPair m) (Some (TheStruct members.now)) (Some new.now)) queue.old queue.new ok) }
{
    match new {
        TypeDef::Struct { members: others } => {
            let ok = ask_fields(queue, members, others)?;
            Ok(ok)
        }
        _ => Ok(false),
    }
}

// The pair of the referents of two pointers.
fn ask_pointer(
    queue: &mut TypePairs,
    class: Class,
    to: TypeId,
    new: &TypeDef,
) -> Result<bool, Memory>
    ensures { IfOk result (λ ok. Asks (λ m. AlikeTypes (IsPair m) (Some (ThePointer class to)) (Some new.now)) queue.old queue.new ok) }
{
    match new {
        TypeDef::Pointer {
            class: other,
            to: other_to,
        } => {
            if class != *other {
                return Ok(false);
            }
            let ok = ask(queue, to, *other_to)?;
            Ok(ok)
        }
        _ => Ok(false),
    }
}

// Whether two lists of numbers have the same number at a place, or both none.
fn agree_at(numbers: &Numbers, others: &Numbers, at: usize) -> bool
    ensures equal { result ≡ true → slice_get numbers.now at ≡ slice_get others.now at }
    ensures other { slice_get numbers.now at ≡ slice_get others.now at → result ≡ true }
{
    match numbers.get(at) {
        Some(number) => match others.get(at) {
            Some(other) => *number == *other,
            None => false,
        },
        None => others.get(at).is_none(),
    }
}

// Whether two lists of numbers are equal.
fn are_equal(numbers: &Numbers, others: &Numbers) -> bool
    ensures equal { result ≡ true → numbers.now ≡ others.now }
    ensures other { numbers.now ≡ others.now → result ≡ true }
{
    if numbers.len() != others.len() {
        return false;
    }
    for at in 0..numbers.len() {
        if !agree_at(numbers, others, at) {
            return false;
        }
    }
    true
}

// The pairs of two enumerated types: none.
fn ask_enum(queue: &TypePairs, values: &Numbers, new: &TypeDef) -> Result<bool, Memory>
    ensures { IfOk result (λ ok. Asks (λ m. AlikeTypes (IsPair m) (Some (TheEnum values.now)) (Some new.now)) queue.now queue.now ok) }
{
    match new {
        TypeDef::Enum { values: others } => {
            let ok = are_equal(values, others);
            Ok(ok)
        }
        _ => Ok(false),
    }
}

// The pair of the elements of two arrays.
fn ask_array(
    queue: &mut TypePairs,
    elem: TypeId,
    bound: Option<u32>,
    varying: bool,
    new: &TypeDef,
) -> Result<bool, Memory>
    ensures { IfOk result (λ ok. Asks (λ m. AlikeTypes (IsPair m) (Some (TheArray elem bound varying)) (Some new.now)) queue.old queue.new ok) }
{
    match new {
        TypeDef::Array {
            elem: other,
            bound: other_bound,
            varying: other_varying,
        } => {
            if bound != *other_bound || varying != *other_varying {
                return Ok(false);
            }
            let ok = ask(queue, elem, *other)?;
            Ok(ok)
        }
        _ => Ok(false),
    }
}

// The pair of the elements of two texts.
fn ask_text(
    queue: &mut TypePairs,
    elem: TypeId,
    bound: Option<u32>,
    new: &TypeDef,
) -> Result<bool, Memory>
    ensures { IfOk result (λ ok. Asks (λ m. AlikeTypes (IsPair m) (Some (TheText elem bound)) (Some new.now)) queue.old queue.new ok) }
{
    match new {
        TypeDef::Text {
            elem: other,
            bound: other_bound,
        } => {
            if bound != *other_bound {
                return Ok(false);
            }
            let ok = ask(queue, elem, *other)?;
            Ok(ok)
        }
        _ => Ok(false),
    }
}

// The pair of the elements of two pipes.
fn ask_pipe(queue: &mut TypePairs, elem: TypeId, new: &TypeDef) -> Result<bool, Memory>
    ensures { IfOk result (λ ok. Asks (λ m. AlikeTypes (IsPair m) (Some (ThePipe elem)) (Some new.now)) queue.old queue.new ok) }
{
    match new {
        TypeDef::Pipe { elem: other } => {
            let ok = ask(queue, elem, *other)?;
            Ok(ok)
        }
        _ => Ok(false),
    }
}

// The pairs of two context handles: none.
fn ask_context(queue: &TypePairs, new: &TypeDef) -> Result<bool, Memory>
    ensures { IfOk result (λ ok. Asks (λ m. AlikeTypes (IsPair m) (Some TheContext) (Some new.now)) queue.now queue.now ok) }
{
    match new {
        TypeDef::Context => Ok(true),
        _ => Ok(false),
    }
}

// The pairs of the types of arms.
fn ask_arms(queue: &mut TypePairs, arms: &Arms, others: &Arms) -> Result<bool, Memory>
    ensures { IfOk result (λ ok. Asks (λ m. OneByOne (AlikeArms (IsPair m)) arms.now others.now) queue.old queue.new ok) }
{
    if arms.len() != others.len() {
        return Ok(false);
    }
    for at in 0..arms.len() {
        let Some(arm) = arms.get(at) else {
            return Ok(false);
        };
        let Some(other) = others.get(at) else {
            return Ok(false);
        };
        if !ask_arm(queue, arm, other)? {
            return Ok(false);
        }
    }
    Ok(true)
}

// The pairs of two unions. (The pair of their tags is always asked for.)
fn ask_union(
    queue: &mut TypePairs,
    tag: TypeId,
    encapsulated: bool,
    arms: &Arms,
    default: &Option<Arm>,
    new: &TypeDef,
) -> Result<bool, Memory>
    ensures { IfOk result
        (λ ok. Asks (λ m. AlikeTypes (IsPair m) (Some (TheUnion tag encapsulated arms.now default.now)) (Some new.now)) queue.old queue.new ok) }
{
    match new {
        TypeDef::Union {
            tag: other,
            encapsulated: other_kind,
            arms: others,
            default: other_default,
        } => {
            if encapsulated != *other_kind {
                return Ok(false);
            }
            push_pair(queue, tag, *other)?;
            if !ask_arms(queue, arms, others)? {
                return Ok(false);
            }
            let ok = ask_default(queue, default, other_default)?;
            Ok(ok)
        }
        _ => Ok(false),
    }
}

// The pair of two types.
fn push_pair(queue: &mut TypePairs, old: TypeId, new: TypeId) -> Result<(), Memory>
    ensures { IfOk result (λ x. Asks (λ m. IsPair m old.0 new.0) queue.old queue.new true) }
{
    let Ok(()) = queue.push(crate::TypePair { old, new }) else {
        return Err(Memory);
    };
    Ok(())
}

/// The pairs that two types ask for, added to a queue, or false where no pairs make them alike. Running out of memory is the only refusal.
pub fn ask_types(queue: &mut TypePairs, old: &TypeDef, new: &TypeDef) -> Result<bool, Memory>
    ensures { IfOk result (λ ok. Asks (λ m. AlikeTypes (IsPair m) (Some old.now) (Some new.now)) queue.old queue.new ok) }
{
    match old {
        TypeDef::Prim(prim) => ask_prim(queue, *prim, new),
        TypeDef::Enum { values } => ask_enum(queue, values, new),
        TypeDef::Struct { members } => ask_struct(queue, members, new),
        TypeDef::Array {
            elem,
            bound,
            varying,
        } => ask_array(queue, *elem, *bound, *varying, new),
        TypeDef::Text { elem, bound } => ask_text(queue, *elem, *bound, new),
        TypeDef::Union {
            tag,
            encapsulated,
            arms,
            default,
        } => ask_union(queue, *tag, *encapsulated, arms, default, new),
        TypeDef::Pointer { class, to } => ask_pointer(queue, *class, *to, new),
        TypeDef::Context => ask_context(queue, new),
        TypeDef::Pipe { elem } => ask_pipe(queue, *elem, new),
    }
}
