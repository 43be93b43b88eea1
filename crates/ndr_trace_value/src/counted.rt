// The values that have the counts and tags which items are.
ghost use Rattle.std.specs.Prelude.{◌≡◌, ◌∷◌, IfOk, OnOk, option_map, reverse};
ghost use Rattle.std.specs.List.{slice_get};
ghost use Rattle.nd_types.specs.Table.{type_at};
ghost use Rattle.nd_value.specs.declared.item.ItemKind.TheVariants as kinds;
ghost use Rattle.text_grammar.specs.Paths.{member_path};
ghost use Rattle.ndr_explain.specs.Cursors.{level_place, name_text, path_to};
ghost use Rattle.ndr_trace_value.specs.LastMembers.{counted_path, front_variable, last_field, last_member, last_path, level_variable};
ghost use Rattle.ndr_trace_value.specs.LastMembers.{last_variable as last_variable_path, last_within, struct_of};
ghost use Rattle.ndr_trace_value.specs.LastMembers.{variable_within as variable_path_within, whole_types};
ghost use Rattle.ndr_trace_value.specs.Places.{field_variable, place_variable};
ghost use Rattle.ndr_trace_value.specs.Traces.{numbered_path};

use crate::progress::{Spot, append_path};
use crate::search::attribute;
use nd_base::{Memory, Octets};
use nd_types::{Field, Fields, NESTING_LIMIT, TypeDef, TypeId, Types};
use nd_value::ItemKind;
use ndr_explain::{Level, append_home, append_outer};
use std::alloc::Global;

/// Adds the steps from the value at which an item is to the one that has this count or tag: if the item is a maximum count, from a home's value to
/// its last member, to that one's, and so on; there are none else.
pub fn append_counted(
    types: &Types,
    text: &mut Octets,
    kind: ItemKind,
    top: Level<'_>,
) -> Result<(), Memory>
    ensures { OnOk result (text.new ≡ counted_path types.now kind (whole_types top.entry) text.old) }
{
    match kind {
        ItemKind::Max => append_front(types, text, top),
        _ => Ok(()),
    }
}

// The same of a maximum count.
fn append_front(types: &Types, text: &mut Octets, top: Level<'_>) -> Result<(), Memory>
    ensures { OnOk result (text.new ≡ counted_path types.now kinds.Max (whole_types top.entry) text.old) }
{
    match top {
        Level::Whole { of } => append_last(types, text, of),
        Level::Arm { .. } => Ok(()),
        Level::Members { .. } => Ok(()),
        Level::Elements { .. } => Ok(()),
    }
}

// Adds the steps to the last member of a struct, to its last member, and so on.
fn append_last(types: &Types, text: &mut Octets, of: TypeId) -> Result<(), Memory>
    ensures { OnOk result (text.new ≡ last_path types.now of.0 text.old) }
{
    append_within(types, text, of, NESTING_LIMIT)?;
    Ok(())
}

// The same of a type that nests at most so deep.
fn append_within(types: &Types, text: &mut Octets, of: TypeId, depth: u32) -> Result<(), Memory>
    ensures { OnOk result (text.new ≡ last_within depth types.now of.0 text.old) }
{
    let mut at = of;
    for _level in 0..depth {
        let Some(last) = last_in(types, at) else {
            return Ok(());
        };
        append_member(text, last)?;
        at = last.of;
    }
    Ok(())
}

/// The path of the variable that states an item: of a maximum count, which is in front of a home's value, if a struct ends that value; of another
/// count and of a tag, if it is a member's. Else, or if the member has no attribute for it, the path is empty.
pub fn stated_path(
    alloc: Global,
    types: &Types,
    kind: ItemKind,
    spot: &Spot<'_, '_>,
) -> Result<Octets, Memory>
    ensures { IfOk result (λ text. text ≡ level_variable types.now kind spot.now.top
        (path_to (name_text spot.now.name) (spot.now.top ∷ reverse spot.now.below.now.items))
        (path_to (name_text spot.now.name) (reverse spot.now.below.now.items))) }
{
    match kind {
        ItemKind::Max => variable_in_front(alloc, types, spot),
        _ => variable_beside(alloc, kind, spot),
    }
}

/// The path of the variable of a member's attribute that speaks of an item of this kind. It is empty if a node is no member, or the member has no
/// such attribute.
pub fn variable_beside(alloc: Global, kind: ItemKind, spot: &Spot<'_, '_>) -> Result<Octets, Memory>
    ensures { IfOk result (λ text. text ≡ place_variable kind
        (path_to (name_text spot.now.name) (reverse spot.now.below.now.items)) (level_place spot.now.top)) }
{
    match spot.top {
        Level::Whole { .. } => Ok(Octets::new(alloc)),
        Level::Arm { .. } => Ok(Octets::new(alloc)),
        Level::Members { members, at } => variable_of_member(alloc, kind, spot, members, at),
        Level::Elements { .. } => Ok(Octets::new(alloc)),
    }
}

// The same of a member by its number.
fn variable_of_member(
    alloc: Global,
    kind: ItemKind,
    spot: &Spot<'_, '_>,
    members: &Fields,
    at: usize,
) -> Result<Octets, Memory>
    ensures { IfOk result (λ text. text ≡ field_variable kind
        (path_to (name_text spot.now.name) (reverse spot.now.below.now.items)) members.now (slice_get members.now at)) }
{
    let Some(member) = members.get(at) else {
        return Ok(Octets::new(alloc));
    };
    let Some(by) = attribute(&member.vars, kind) else {
        return Ok(Octets::new(alloc));
    };
    let mut path = struct_path(alloc, spot)?;
    append_numbered(&mut path, members, by.var)?;
    Ok(path)
}

/// The path of the struct of which a node is a member.
pub fn struct_path(alloc: Global, spot: &Spot<'_, '_>) -> Result<Octets, Memory>
    ensures { IfOk result (λ text. text ≡ path_to (name_text spot.now.name) (reverse spot.now.below.now.items)) }
{
    let mut path = Octets::new(alloc);
    append_home(&mut path, spot.name)?;
    append_outer(&mut path, spot.below)?;
    Ok(path)
}

// The path of the variable that states a maximum count.
fn variable_in_front(alloc: Global, types: &Types, spot: &Spot<'_, '_>) -> Result<Octets, Memory>
    ensures { IfOk result (λ text. text ≡ front_variable types.now (whole_types spot.now.top)
        (path_to (name_text spot.now.name) (spot.now.top ∷ reverse spot.now.below.now.items))) }
{
    let mut path = Octets::new(alloc);
    append_path(&mut path, spot)?;
    let variable = variable_of_front(alloc, types, path.as_slice(), spot.top)?;
    Ok(variable)
}

// The same from the path of the home's value.
fn variable_of_front(
    alloc: Global,
    types: &Types,
    path: &[u8],
    top: Level<'_>,
) -> Result<Octets, Memory>
    ensures { IfOk result (λ text. text ≡ front_variable types.now (whole_types top.entry) path.now) }
{
    match top {
        Level::Whole { of } => last_variable(alloc, types, path, of),
        Level::Arm { .. } => Ok(Octets::new(alloc)),
        Level::Members { .. } => Ok(Octets::new(alloc)),
        Level::Elements { .. } => Ok(Octets::new(alloc)),
    }
}

// The same of a home's value of this type.
fn last_variable(alloc: Global, types: &Types, path: &[u8], of: TypeId) -> Result<Octets, Memory>
    ensures { IfOk result (λ text. text ≡ last_variable_path types.now of.0 path.now) }
{
    let variable = variable_within(alloc, types, path, of, NESTING_LIMIT)?;
    Ok(variable)
}

// The same of a type that nests at most so deep.
fn variable_within(
    alloc: Global,
    types: &Types,
    path: &[u8],
    of: TypeId,
    depth: u32,
) -> Result<Octets, Memory>
    ensures { IfOk result (λ text. text ≡ variable_path_within depth types.now of.0 path.now) }
{
    let mut text = Octets::copy(alloc, path)?;
    let mut at = of;
    for _level in 0..depth {
        let Some(members) = members_in(types, at) else {
            return Ok(Octets::new(alloc));
        };
        let Some(last) = last_of(members) else {
            return Ok(Octets::new(alloc));
        };
        if let Some(by) = attribute(&last.vars, ItemKind::Max) {
            append_numbered(&mut text, members, by.var)?;
            return Ok(text);
        }
        append_member(&mut text, last)?;
        at = last.of;
    }
    Ok(Octets::new(alloc))
}

// The members of a struct.
fn members_in(types: &Types, of: TypeId) -> Option<&Fields>
    ensures { option_map (λ m. m.now) result ≡ struct_of (type_at types.now of.0) }
{
    match types.get(of.0 as usize) {
        Some(TypeDef::Struct { members }) => Some(members),
        _ => None,
    }
}

/// Adds the step to a member by its number.
pub fn append_numbered(text: &mut Octets, members: &Fields, at: u32) -> Result<(), Memory>
    ensures { OnOk result (text.new ≡ numbered_path text.old members.now at) }
{
    match members.get(at as usize) {
        Some(member) => append_member(text, member),
        None => text.append(b"."),
    }
}

// The last member of a struct.
fn last_in(types: &Types, of: TypeId) -> Option<&Field>
    ensures { option_map (λ f. f.now) result ≡ last_member (type_at types.now of.0) }
{
    match types.get(of.0 as usize) {
        Some(TypeDef::Struct { members }) => last_of(members),
        _ => None,
    }
}

// The last of members.
fn last_of(members: &Fields) -> Option<&Field>
    ensures { option_map (λ f. f.now) result ≡ last_field members.now }
{
    let Some(last) = members.get(members.len().saturating_sub(1)) else {
        return None;
    };
    Some(last)
}

// Adds the step to a member.
fn append_member(text: &mut Octets, member: &Field) -> Result<(), Memory>
    ensures { OnOk result (text.new ≡ member_path text.old member.now.name) }
{
    text.append(b".")?;
    text.append(member.name.as_slice())?;
    Ok(())
}
