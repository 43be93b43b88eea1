// Values of a listing, read by their types.
ghost use Rattle.std.specs.Prelude.{◌≡◌, [], ◌∷◌, ◌&&◌, nat_le, Some, length, map, take, drop, replicate, IfOk, IfErr};
ghost use Rattle.nd_types.specs.Layout.{type_list};
ghost use Rattle.nd_types.specs.Table.{Table, type_at};
ghost use Rattle.nd_value.specs.Seen.{tree_of};
ghost use Rattle.nd_value.specs.Tree as tree;
ghost use Rattle.nd_value.specs.Tree.{Label};
ghost use Rattle.library_nodes.specs.Listings.{has_form, is_pointer, is_context, is_wide, meant, cell_numbered};
ghost use Rattle.library_nodes.specs.Listings.{plain, numeric, elements, united, saying};
ghost use Rattle.library_nodes.specs.Steps.{IsValue, AreValues, IsBuilt, AreBuilt, number_trees};
ghost use Rattle.library_nodes.specs.declared.stop.Stop.TheVariants as stop;

use crate::Description;
use crate::forms::{
    ARRAY, NUMBER, PIPE, STRING, STRUCT, UNION, cell_numbered, has_form, has_numbers, has_parts,
    is_context, is_numeral, is_pointer, is_wide, is_wide_at, meant, selected_type,
};
use crate::reader::Reader;
use crate::stop::Stop;
use nd_base::{Memory, Octets};
use nd_types::{Arm, Arms, Fields, TypeDef, TypeId, Types};
use nd_value::{ArmVal, Val, Vals};
use std::alloc::Global;
use uuid::Uuid;

/// A value of a type. The calls are nested as deep as the type is.
#[cycle(values)]
pub(crate) fn value(
    alloc: Global,
    types: &Types,
    of: TypeId,
    reader: &mut Reader<'_>,
) -> Result<Val, Stop>
    ensures { IsValue types.now of.0 reader.old reader.new result }
{
    let Some(node) = reader.node() else {
        return Err(Stop::At { left: 0 });
    };
    match types.get(of.0 as usize) {
        Some(definition) => by_type(alloc, types, definition, &node, reader),
        None => Err(reader.wrong()),
    }
}

// The value of a node by what its type is.
#[cycle(values)]
fn by_type(
    alloc: Global,
    types: &Types,
    definition: &TypeDef,
    node: &Description,
    reader: &mut Reader<'_>,
) -> Result<Val, Stop>
    ensures { IsBuilt types.now (saying types.now (Some definition.now) node.now reader.old.numbers reader.old.octets) reader.old reader.new result }
{
    match definition {
        TypeDef::Prim(_) => number(definition, node, reader),
        TypeDef::Enum { .. } => number(definition, node, reader),
        TypeDef::Struct { members } => structure(alloc, types, members, node, reader),
        TypeDef::Array { elem, .. } => array(alloc, types, *elem, node, reader),
        TypeDef::Text { .. } => string(alloc, node, reader),
        TypeDef::Union {
            tag,
            arms,
            default,
            ..
        } => union(alloc, types, *tag, arms, default, node, reader),
        TypeDef::Pointer { .. } => pointer(node, reader),
        TypeDef::Context => context(node, reader),
        TypeDef::Pipe { elem } => pipe(alloc, types, *elem, node, reader),
    }
}

// A number of a primitive or an enumerated type.
fn number(definition: &TypeDef, node: &Description, reader: &Reader<'_>) -> Result<Val, Stop>
    ensures { (table : Table) → IsBuilt table
        (plain (has_form node.now 1 0) (tree.Num (meant (is_wide (Some definition.now)) node.now.number)) [] reader.now.numbers reader.now.octets)
        reader.now reader.now result }
{
    if !has_form(node, NUMBER, 0) {
        return Err(reader.wrong());
    }
    Ok(Val::Num(meant(is_wide(definition), node.number)))
}

// A struct.
#[cycle(values)]
fn structure(
    alloc: Global,
    types: &Types,
    members: &Fields,
    node: &Description,
    reader: &mut Reader<'_>,
) -> Result<Val, Stop>
    ensures { IsBuilt types.now
        (plain (has_form node.now 2 (length members.now)) tree.Rec (map (λ f. f.of.0) members.now) reader.old.numbers reader.old.octets)
        reader.old reader.new result }
{
    if !has_form(node, STRUCT, members.len()) {
        return Err(reader.wrong());
    }
    match member_values(alloc, types, members, reader) {
        Ok(vals) => Ok(Val::Rec(vals)),
        Err(stop) => Err(stop),
    }
}

// The members of a struct.
#[cycle(values)]
fn member_values(
    alloc: Global,
    types: &Types,
    members: &Fields,
    reader: &mut Reader<'_>,
) -> Result<Vals, Stop>
    ensures { AreValues types.now (map (λ f. f.of.0) members.now) reader.old reader.new result }
{
    let mut vals = Vals::new(alloc);
    for at in 0..members.len() {
        let Some(member) = members.get(at) else {
            unreachable!()
        };
        let val = value(alloc, types, member.of, reader)?;
        let Ok(()) = vals.push(val) else {
            return Err(Stop::Memory);
        };
    }
    Ok(vals)
}

// An array.
#[cycle(values)]
fn array(
    alloc: Global,
    types: &Types,
    elem: TypeId,
    node: &Description,
    reader: &mut Reader<'_>,
) -> Result<Val, Stop>
    ensures { IsBuilt types.now
        (elements types.now 3 elem.0 (tree.Arr node.now.max node.now.offset) node.now reader.old.numbers reader.old.octets)
        reader.old reader.new result }
{
    match elements(alloc, types, elem, ARRAY, node, reader) {
        Ok(items) => Ok(Val::Arr {
            max: node.max,
            offset: node.offset,
            items,
        }),
        Err(stop) => Err(stop),
    }
}

// All elements of a pipe.
#[cycle(values)]
fn pipe(
    alloc: Global,
    types: &Types,
    elem: TypeId,
    node: &Description,
    reader: &mut Reader<'_>,
) -> Result<Val, Stop>
    ensures { IsBuilt types.now (elements types.now 8 elem.0 tree.Pipe node.now reader.old.numbers reader.old.octets) reader.old reader.new result }
{
    match elements(alloc, types, elem, PIPE, node, reader) {
        Ok(items) => Ok(Val::Pipe(items)),
        Err(stop) => Err(stop),
    }
}

// The elements of an array or a pipe, whatever it says itself.
#[cycle(values)]
fn elements(
    alloc: Global,
    types: &Types,
    elem: TypeId,
    kind: u32,
    node: &Description,
    reader: &mut Reader<'_>,
) -> Result<Vals, Stop>
    ensures { (label : Label) → AreBuilt types.now (elements types.now kind elem.0 label node.now reader.old.numbers reader.old.octets)
        label reader.old reader.new result }
{
    if is_numeral(types, elem) {
        return numbers(alloc, is_wide_at(types, elem), kind, node, reader);
    }
    if !has_parts(node, kind) {
        return Err(reader.wrong());
    }
    element_values(alloc, types, elem, node.count as usize, reader)
}

// So many elements that are nodes.
#[cycle(values)]
fn element_values(
    alloc: Global,
    types: &Types,
    elem: TypeId,
    count: usize,
    reader: &mut Reader<'_>,
) -> Result<Vals, Stop>
    ensures { AreValues types.now (replicate count elem.0) reader.old reader.new result }
{
    let mut vals = Vals::new(alloc);
    while vals.len() < count {
        let val = value(alloc, types, elem, reader)?;
        let Ok(()) = vals.push(val) else {
            return Err(Stop::Memory);
        };
    }
    Ok(vals)
}

// Elements that are numbers.
fn numbers(
    alloc: Global,
    wide: bool,
    kind: u32,
    node: &Description,
    reader: &mut Reader<'_>,
) -> Result<Vals, Stop>
    ensures { (table : Table) (label : Label) → AreBuilt table (numeric wide kind label node.now reader.old.numbers reader.old.octets)
        label reader.old reader.new result }
{
    let wrong = reader.wrong();
    if !has_numbers(node, kind) {
        return Err(wrong);
    }
    let Some(taken) = reader.numbers(node.count as usize) else {
        return Err(wrong);
    };
    match number_values(alloc, wide, taken) {
        Ok(vals) => Ok(vals),
        Err(_) => Err(Stop::Memory),
    }
}

// Numbers as values.
fn number_values(alloc: Global, wide: bool, numbers: &[u64]) -> Result<Vals, Memory>
    ensures { IfOk result (λ vs. vs ≡ number_trees wide numbers.now) }
{
    let mut vals = Vals::new(alloc);
    for number in numbers {
        let Ok(()) = vals.push(Val::Num(meant(wide, *number))) else {
            return Err(Memory);
        };
    }
    Ok(vals)
}

// A string.
fn string(alloc: Global, node: &Description, reader: &mut Reader<'_>) -> Result<Val, Stop>
    ensures { (table : Table) → IsBuilt table
        (plain (has_form node.now 4 0 && nat_le node.now.length (length reader.old.octets))
        (tree.Text node.now.max (take node.now.length reader.old.octets)) [] reader.old.numbers (drop node.now.length reader.old.octets))
        reader.old reader.new result }
{
    let wrong = reader.wrong();
    if !has_form(node, STRING, 0) {
        return Err(wrong);
    }
    let Some(taken) = reader.octets(node.length) else {
        return Err(wrong);
    };
    match Octets::copy(alloc, taken) {
        Ok(octets) => Ok(Val::Text {
            max: node.max,
            octets,
        }),
        Err(_) => Err(Stop::Memory),
    }
}

// A union.
#[cycle(values)]
fn union(
    alloc: Global,
    types: &Types,
    tag: TypeId,
    arms: &Arms,
    default: &Option<Arm>,
    node: &Description,
    reader: &mut Reader<'_>,
) -> Result<Val, Stop>
    ensures { IsBuilt types.now
        (united (is_wide (type_at types.now tag.0)) arms.now default.now node.now reader.old.numbers reader.old.octets)
        reader.old reader.new result }
{
    let number = meant(is_wide_at(types, tag), node.number);
    let of = selected_type(arms, default, number);
    match arm_value(alloc, types, of, node, reader) {
        Ok(arm) => Ok(Val::Union { tag: number, arm }),
        Err(stop) => Err(stop),
    }
}

// The value of an arm of a type, where it has one, whatever the tag is.
#[cycle(values)]
fn arm_value(
    alloc: Global,
    types: &Types,
    of: Option<TypeId>,
    node: &Description,
    reader: &mut Reader<'_>,
) -> Result<ArmVal, Stop>
    ensures { (label : Label) → AreBuilt types.now
        (plain (has_form node.now 5 (length (type_list of))) label (type_list of) reader.old.numbers reader.old.octets)
        label reader.old reader.new result }
{
    match of {
        Some(of) => boxed_value(alloc, types, of, node, reader),
        None => no_value(node, reader),
    }
}

// The value of an arm that has one.
#[cycle(values)]
fn boxed_value(
    alloc: Global,
    types: &Types,
    of: TypeId,
    node: &Description,
    reader: &mut Reader<'_>,
) -> Result<ArmVal, Stop>
    ensures { (label : Label) → AreBuilt types.now
        (plain (has_form node.now 5 1) label (of.0 ∷ []) reader.old.numbers reader.old.octets)
        label reader.old reader.new result }
{
    if !has_form(node, UNION, 1) {
        return Err(reader.wrong());
    }
    match value(alloc, types, of, reader) {
        Ok(val) => arm_of(alloc, val),
        Err(stop) => Err(stop),
    }
}

// A value as that of an arm.
fn arm_of(alloc: Global, val: Val) -> Result<ArmVal, Stop>
    ensures ok { IfOk result (λ a. a ≡ tree_of val ∷ []) }
    ensures err { IfErr result (λ e. e ≡ stop.Memory) }
{
    match Box::new(alloc, val) {
        Ok(val) => Ok(ArmVal::of(val)),
        Err(_) => Err(Stop::Memory),
    }
}

// That an arm has no value.
fn no_value(node: &Description, reader: &Reader<'_>) -> Result<ArmVal, Stop>
    ensures { (table : Table) (label : Label) → AreBuilt table
        (plain (has_form node.now 5 0) label [] reader.now.numbers reader.now.octets) label reader.now reader.now result }
{
    if !has_form(node, UNION, 0) {
        return Err(reader.wrong());
    }
    Ok(ArmVal::none())
}

// A pointer.
fn pointer(node: &Description, reader: &Reader<'_>) -> Result<Val, Stop>
    ensures { (table : Table) → IsBuilt table
        (plain (is_pointer node.now) (tree.Ptr (cell_numbered node.now.number)) [] reader.now.numbers reader.now.octets)
        reader.now reader.now result }
{
    if !is_pointer(node) {
        return Err(reader.wrong());
    }
    Ok(Val::Ptr(cell_numbered(node.number as u32)))
}

// A context handle.
fn context(node: &Description, reader: &mut Reader<'_>) -> Result<Val, Stop>
    ensures { (table : Table) → IsBuilt table
        (plain (is_context node.now && nat_le 16 (length reader.old.octets))
        (tree.Context node.now.number (take 16 reader.old.octets)) [] reader.old.numbers (drop 16 reader.old.octets))
        reader.old reader.new result }
{
    let wrong = reader.wrong();
    if !is_context(node) {
        return Err(wrong);
    }
    let Some(taken) = reader.octets(16) else {
        return Err(wrong);
    };
    match Uuid::from_slice(taken) {
        Ok(id) => Ok(Val::Context {
            attributes: node.number as u32,
            id,
        }),
        Err(_) => unreachable!(),
    }
}
