// Children of nodes, one after the other.
ghost use Rattle.std.specs.Prelude.{◌≡◌, ◌<◌, ◌+◌, ◌++◌, ◌∷◌, ℕ, List, [], drop, length, map, replicate, reverse, Some, OnOk, IfOk, option_map};
ghost use Rattle.std.specs.Prelude.{option_copied};
ghost use Rattle.nd_types.specs.Table.{type_at};
ghost use Rattle.nd_types.specs.Layout.{arm_type};
ghost use Rattle.nd_value.specs.Tree as tree;
ghost use Rattle.nd_value.specs.Tree.{Trees};
ghost use Rattle.nd_value.specs.Nodes.{child_types, selected_types};
ghost use Rattle.text_grammar.specs.Paths.{member_path, element_path, child_paths};
ghost use Rattle.ndr_explain.specs.declared.levels.Level.TheVariants as level;
ghost use Rattle.nd_flat.specs.FlatForm.{flat_seen};
ghost use Rattle.std.specs.List.{slice_get};
ghost use Rattle.ndr_explain.specs.Cursors.{level_types, level_paths, child_path, field_path, arm_path, armed_paths, elem_types, elem_paths};
ghost use Rattle.ndr_explain.specs.Cursors.{array_element, pipe_element, union_arm, index_paths, path_to, types_after, paths_after, inner_types};
ghost use Rattle.ndr_explain.specs.Cursors.{inner_paths, HasChild, IsLevelOf, IsChildLevel, AreLevelsOf};
ghost use Rattle.ndr_explain.specs.Cursors.{child_places, inner_places, level_places, member_places, next_places, no_places, places_after};

use nd_base::{Memory, Name, Octets};
use nd_flat::Seen;
use nd_types::{Arm, Fields, TypeDef, TypeId, Types};
use text_grammar::{append_index, selected};

/// The children of a node, and the one of them at which a walk is.
#[derive(Clone, Copy, Drop)]
pub enum Level<'a> {
    /// One value without a name of its own: that of a home, or of an arm that has no name.
    Whole {
        of: TypeId,
    },
    /// The value of an arm that has a name.
    Arm {
        of: TypeId,
        name: &'a Name,
    },
    /// The members of a struct.
    Members {
        members: &'a Fields,
        at: usize,
    },
    /// So many elements of an array or a pipe; the index of the first is the array's offset.
    Elements {
        of: TypeId,
        offset: u32,
        at: u32,
        size: u32,
    },
}

/// A level, and those around it, the outermost first.
#[derive(Drop)]
pub struct Levels<'a> {
    pub top: Level<'a>,
    pub below: Vec<Level<'a>>,
}

/// The type of the child at which a level is; the first type where it is past its last child.
pub fn type_of(level: Level<'_>) -> TypeId
    ensures { 0 < length (level_types level.entry) → level_types level.entry ≡ result.0 ∷ drop 1 (level_types level.entry) }
{
    match level {
        Level::Whole { of } => of,
        Level::Arm { of, .. } => of,
        Level::Members { members, at } => member_type(members, at),
        Level::Elements { of, .. } => of,
    }
}

// The type of a member, where it is there.
fn member_type(members: &Fields, at: usize) -> TypeId
    ensures { at < length members.now → option_map (λ f. f.of) (slice_get members.now at) ≡ Some result }
{
    match members.get(at) {
        Some(member) => member.of,
        None => TypeId(0),
    }
}

// A level at its next child, if there is one.
fn after<'a>(level: Level<'a>) -> Option<Level<'a>>
    ensures is { IsLevelOf (drop 1 (level_types level.entry)) (λ p. drop 1 (level_paths p level.entry)) result }
    ensures places { inner_places result ≡ drop 1 (level_places level.entry) }
{
    match level {
        Level::Whole { .. } => None,
        Level::Arm { .. } => None,
        Level::Members { members, at } => member_after(members, at),
        Level::Elements {
            of,
            offset,
            at,
            size,
        } => element_after(of, offset, at, size),
    }
}

// The members after one.
fn member_after<'a>(members: &'a Fields, at: usize) -> Option<Level<'a>>
    ensures is { let l = level.Members members.entry at in IsLevelOf (drop 1 (level_types l)) (λ p. drop 1 (level_paths p l)) result }
    ensures places { inner_places result ≡ drop 1 (level_places (level.Members members.entry at)) }
{
    if at >= members.len() {
        return None;
    }
    let next = at + 1;
    if next == members.len() {
        return None;
    }
    Some(Level::Members { members, at: next })
}

// The elements after one.
fn element_after<'a>(of: TypeId, offset: u32, at: u32, size: u32) -> Option<Level<'a>>
    ensures is { let l = level.Elements of offset at size in IsLevelOf (drop 1 (level_types l)) (λ p. drop 1 (level_paths p l)) result }
    ensures places { inner_places result ≡ drop 1 (level_places (level.Elements of offset at size)) }
{
    if at >= size {
        return None;
    }
    let next = at + 1;
    if next == size {
        return None;
    }
    Some(Level::Elements {
        of,
        offset,
        at: next,
        size,
    })
}

/// The level of the children of a node of a type, if it has any.
pub fn children<'a>(types: &'a Types, of: TypeId, seen: &Seen<'_>) -> Option<Level<'a>>
    ensures is { IsChildLevel types.now of.0 (flat_seen seen.now) result }
    ensures places { inner_places result ≡ child_places (type_at types.now of.0) (inner_types result) }
{
    match seen {
        Seen::Rec(_) => members(types, of),
        Seen::Arr { offset, count, .. } => elements(array_elem(types, of), *offset, *count),
        Seen::Union { tag, .. } => arm_value(arm_of(types, of, *tag)),
        Seen::Pipe(count) => elements(pipe_elem(types, of), 0, *count),
        Seen::Num(_) => None,
        Seen::Text { .. } => None,
        Seen::Ptr(_) => None,
        Seen::Context { .. } => None,
    }
}

// The members of a struct, if it has any.
fn members<'a>(types: &'a Types, of: TypeId) -> Option<Level<'a>>
    ensures is { (ks : Trees)
        → IsLevelOf (child_types (type_at types.now of.0) tree.Rec ks) (λ p. child_paths (type_at types.now of.0) tree.Rec p ks) result }
    ensures places { inner_places result ≡ child_places (type_at types.now of.0) (inner_types result) }
{
    match types.get(of.0 as usize) {
        Some(TypeDef::Struct { members }) => first_member(members),
        _ => None,
    }
}

// The first of members, if there are any.
fn first_member<'a>(members: &'a Fields) -> Option<Level<'a>>
    ensures is { IsLevelOf (map (λ f. f.of.0) members.now) (λ p. map (λ f. member_path p f.name) members.now) result }
    ensures places { inner_places result ≡ member_places members.now 0 (inner_types result) }
{
    if members.len() == 0 {
        return None;
    }
    Some(Level::Members { members, at: 0 })
}

// So many elements of this type, if there is one.
fn elements<'a>(elem: Option<TypeId>, offset: u32, size: u32) -> Option<Level<'a>>
    ensures is { IsLevelOf (elem_types (option_map (λ t. t.0) elem) size) (λ p. elem_paths (option_map (λ t. t.0) elem) p offset size) result }
    ensures places { inner_places result ≡ no_places (inner_types result) }
{
    match elem {
        Some(of) => first_element(of, offset, size),
        None => None,
    }
}

// The first of so many elements, if there are any.
fn first_element<'a>(of: TypeId, offset: u32, size: u32) -> Option<Level<'a>>
    ensures is { IsLevelOf (replicate size of.0) (λ p. index_paths p offset size) result }
    ensures places { inner_places result ≡ no_places (inner_types result) }
{
    if size == 0 {
        return None;
    }
    Some(Level::Elements {
        of,
        offset,
        at: 0,
        size,
    })
}

// The value of an arm, if it has one.
fn arm_value<'a>(arm: Option<&'a Arm>) -> Option<Level<'a>>
    ensures is { IsLevelOf (selected_types (option_copied arm.entry)) (λ p. armed_paths p (option_copied arm.entry)) result }
    ensures places { inner_places result ≡ no_places (inner_types result) }
{
    match arm {
        Some(arm) => named_value(arm),
        None => None,
    }
}

// The value of this arm, if it has one.
fn named_value<'a>(arm: &'a Arm) -> Option<Level<'a>>
    ensures is { IsLevelOf (arm_type arm.now) (λ p. armed_paths p (Some arm.now)) result }
    ensures places { inner_places result ≡ no_places (inner_types result) }
{
    match arm.of {
        Some(of) => arm_level(of, &arm.name),
        None => None,
    }
}

// A value of this type, with the name of an arm, if it has one.
fn arm_level<'a>(of: TypeId, name: &'a Option<Name>) -> Option<Level<'a>>
    ensures is { IsLevelOf (of.0 ∷ []) (λ p. arm_path p name.now ∷ []) result }
    ensures places { inner_places result ≡ no_places (inner_types result) }
{
    match name {
        Some(name) => Some(Level::Arm { of, name }),
        None => Some(Level::Whole { of }),
    }
}

// The arm of a union that a tag selects.
fn arm_of<'a>(types: &'a Types, of: TypeId, tag: i128) -> Option<&'a Arm>
    ensures { option_copied result ≡ union_arm (type_at types.now of.0) tag }
{
    match types.get(of.0 as usize) {
        Some(TypeDef::Union { arms, default, .. }) => selected(arms, default, tag),
        _ => None,
    }
}

// The type of the elements of an array.
fn array_elem(types: &Types, of: TypeId) -> Option<TypeId>
    ensures { option_map (λ t. t.0) result ≡ array_element (type_at types.now of.0) }
{
    match types.get(of.0 as usize) {
        Some(TypeDef::Array { elem, .. }) => Some(*elem),
        _ => None,
    }
}

// The type of the elements of a pipe.
fn pipe_elem(types: &Types, of: TypeId) -> Option<TypeId>
    ensures { option_map (λ t. t.0) result ≡ pipe_element (type_at types.now of.0) }
{
    match types.get(of.0 as usize) {
        Some(TypeDef::Pipe { elem }) => Some(*elem),
        _ => None,
    }
}

/// The levels of the node that follows one: a level of its children, or what comes after it.
pub fn next_levels<'a>(
    inner: Option<Level<'a>>,
    top: Level<'a>,
    below: Vec<Level<'a>>,
) -> Result<Option<Levels<'a>>, Memory>
    ensures is { HasChild inner.entry
        → IfOk result (AreLevelsOf (inner_types inner.entry ++ types_after (top.entry ∷ reverse below.entry.items))
        (λ p. inner_paths (path_to p (top.entry ∷ reverse below.entry.items)) inner.entry ++ paths_after p (top.entry ∷ reverse below.entry.items))) }
    ensures places { IfOk result (λ r. next_places r ≡ inner_places inner.entry ++ places_after (top.entry ∷ reverse below.entry.items)) }
{
    match inner {
        Some(level) => enter(level, top, below),
        None => Ok(leave(top, below)),
    }
}

// A level inside of another.
fn enter<'a>(
    inner: Level<'a>,
    top: Level<'a>,
    below: Vec<Level<'a>>,
) -> Result<Option<Levels<'a>>, Memory>
    ensures is { 0 < length (level_types inner.entry)
        → IfOk result (AreLevelsOf (level_types inner.entry ++ types_after (top.entry ∷ reverse below.entry.items))
        (λ p. level_paths (path_to p (top.entry ∷ reverse below.entry.items)) inner.entry ++ paths_after p (top.entry ∷ reverse below.entry.items))) }
    ensures places { IfOk result (λ r. next_places r ≡ level_places inner.entry ++ places_after (top.entry ∷ reverse below.entry.items)) }
{
    let mut below = below;
    let Ok(()) = below.push(top) else {
        return Err(Memory);
    };
    Ok(Some(Levels { top: inner, below }))
}

// What comes after the child at which the innermost level is.
fn leave<'a>(top: Level<'a>, below: Vec<Level<'a>>) -> Option<Levels<'a>>
    ensures is { AreLevelsOf (types_after (top.entry ∷ reverse below.entry.items))
        (λ p. paths_after p (top.entry ∷ reverse below.entry.items)) result }
    ensures places { next_places result ≡ places_after (top.entry ∷ reverse below.entry.items) }
{
    if let Some(next) = after(top) {
        return Some(Levels { top: next, below });
    }
    let mut left = below;
    while let Some(level) = left.pop() {
        if let Some(next) = after(level) {
            return Some(Levels {
                top: next,
                below: left,
            });
        }
    }
    None
}

/// Adds the step from a node to its child at which a level is.
fn append_step(text: &mut Octets, level: Level<'_>) -> Result<(), Memory>
    ensures { OnOk result (text.new ≡ child_path text.old level.entry) }
{
    match level {
        Level::Whole { .. } => Ok(()),
        Level::Arm { name, .. } => append_member(text, name),
        Level::Members { members, at } => append_member_at(text, members, at),
        Level::Elements { offset, at, .. } => append_element(text, offset, at),
    }
}

// Adds the step to a member.
fn append_member(text: &mut Octets, name: &Name) -> Result<(), Memory>
    ensures { OnOk result (text.new ≡ member_path text.old name.now) }
{
    text.append(b".")?;
    text.append(name.as_slice())?;
    Ok(())
}

// Adds the step to the member at a place, if there is one.
fn append_member_at(text: &mut Octets, members: &Fields, at: usize) -> Result<(), Memory>
    ensures { OnOk result (text.new ≡ field_path text.old (slice_get members.now at)) }
{
    match members.get(at) {
        Some(member) => append_member(text, &member.name),
        None => Ok(()),
    }
}

// Adds the step to an element.
fn append_element(text: &mut Octets, offset: u32, at: u32) -> Result<(), Memory>
    ensures { OnOk result (text.new ≡ element_path text.old (offset + at)) }
{
    text.append(b"[")?;
    append_index(text, offset, at as usize)?;
    text.append(b"]")?;
    Ok(())
}

/// Adds the steps from a home's value to the node at which levels are.
pub fn append_steps(text: &mut Octets, top: Level<'_>, below: &Vec<Level<'_>>) -> Result<(), Memory>
    ensures { OnOk result (text.new ≡ path_to text.old (top.entry ∷ reverse below.now.items)) }
{
    append_outer(text, below)?;
    append_step(text, top)?;
    Ok(())
}

/// Adds the steps of the levels around the innermost.
pub fn append_outer(text: &mut Octets, below: &Vec<Level<'_>>) -> Result<(), Memory>
    ensures { OnOk result (text.new ≡ path_to text.old (reverse below.now.items)) }
{
    for level in below.as_slice() {
        append_step(text, *level)?;
    }
    Ok(())
}
