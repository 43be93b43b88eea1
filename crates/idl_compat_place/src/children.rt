// The types to which steps lead.
ghost use Rattle.std.specs.Prelude.{◌≡◌, ℕ, ◌≤◌, None};
ghost use Rattle.idl_compat_place.specs.Differences.{child as child_by, nth_child as nth_child_of, default_child as default_of, tag_child as tag_of};
ghost use Rattle.idl_compat_place.specs.Differences.{only};

use crate::Step;
use nd_types::{TypeDef, TypeId};

// A type as the only part.
fn only_child(child: TypeId, number: usize) -> Option<TypeId>
    ensures { result ≡ only child number }
{
    if number == 0 { Some(child) } else { None }
}

// The type of a part.
fn nth_child(definition: &TypeDef, number: usize) -> Option<TypeId>
    ensures { result ≡ nth_child_of definition.now number }
{
    match definition {
        TypeDef::Struct { members } => match members.get(number) {
            Some(member) => Some(member.of),
            None => None,
        },
        TypeDef::Union { arms, .. } => match arms.get(number) {
            Some(arm) => arm.of,
            None => None,
        },
        TypeDef::Array { elem, .. } => only_child(*elem, number),
        TypeDef::Text { elem, .. } => only_child(*elem, number),
        TypeDef::Pipe { elem } => only_child(*elem, number),
        TypeDef::Pointer { to, .. } => only_child(*to, number),
        TypeDef::Prim(_) | TypeDef::Enum { .. } | TypeDef::Context => None,
    }
}

// The type of a default arm.
fn default_child(definition: &TypeDef) -> Option<TypeId>
    ensures { result ≡ default_of definition.now }
{
    match definition {
        TypeDef::Union {
            default: Some(arm),
            ..
        } => arm.of,
        _ => None,
    }
}

// The type of a union's tag.
fn tag_child(definition: &TypeDef) -> Option<TypeId>
    ensures { result ≡ tag_of definition.now }
{
    match definition {
        TypeDef::Union { tag, .. } => Some(*tag),
        _ => None,
    }
}

// The type to which a step leads, or None where it leads to none.
pub(crate) fn child(definition: &TypeDef, step: Step) -> Option<TypeId>
    ensures { result ≡ child_by definition.now step }
{
    match step {
        Step::Nth(number) => nth_child(definition, number),
        Step::Default => default_child(definition),
        Step::Tag => tag_child(definition),
    }
}

// How many parts a type has.
pub(crate) fn part_count(definition: &TypeDef) -> usize
    ensures { (n : ℕ) → result ≤ n → nth_child_of definition.now n ≡ None }
{
    match definition {
        TypeDef::Struct { members } => members.len(),
        TypeDef::Union { arms, .. } => arms.len(),
        TypeDef::Prim(_) | TypeDef::Enum { .. } | TypeDef::Context => 0,
        _ => 1,
    }
}
