// The pointers of a value that name cells, depth first.
ghost use Rattle.std.specs.Prelude.{◌≡◌, ℕ, ◌+◌, ◌<◌, ◌^◌, ◌++◌, [], ◌∷◌, length, map, replicate, true, ◌==◌, OnOk};
ghost use Rattle.nd_types.specs.Table.{type_at};
ghost use Rattle.nd_types.specs.Layout.{type_list};
ghost use Rattle.nd_value.specs.Tree.{more, none, trees, node_count, count};
ghost use Rattle.nd_value.specs.Nodes.{child_types};
ghost use Rattle.nd_value.specs.Misfit.{has_shape, has_arm};
ghost use Rattle.nd_misfits.specs.Searched.{label_in, kids_in};
ghost use Rattle.nd_value.specs.Seen.{tree_of, cell_number};
ghost use Rattle.nd_misfits.specs.Pointers.{are_formed, named_by, pointers_of_home, Collects};

use crate::homes::HomeValue;
use crate::node::selected;
use crate::simple::{after_values, simple_nodes};
use nd_base::Memory;
use nd_types::{Class, Fields, TypeDef, TypeId, Types};
use nd_value::{ArmVal, CellId, Home, Val, Vals};

// A pointer that names a cell: where it is, its class, and the cell.
#[derive(Clone, Copy, Debug, PartialEq, Eq)]
pub(crate) struct CellPointer {
    pub(crate) home: Home,
    pub(crate) node: u32,
    pub(crate) class: Class,
    pub(crate) cell: CellId,
}

// The pointers of a home that name cells, in place of those that were found before.
pub(crate) fn cell_pointers(
    types: &Types,
    home: HomeValue<'_>,
    found: &mut Vec<CellPointer>,
) -> Result<(), Memory>
    requires few { node_count (more (tree_of home.val.now) none) < 2 ^ 32 }
    requires formed { are_formed types.now (home.of.0 ∷ []) (more (tree_of home.val.now) none) ≡ true }
    ensures { OnOk result (found.new.items ≡ pointers_of_home types.now home.entry.home home.entry.of.0 (tree_of home.entry.val.now)) }
{
    found.clear();
    value(types, home.home, home.of, home.val, 0, found)?;
    Ok(())
}

// Goes through the nodes of a value of a type, which are numbered from `node` on, and adds the pointers that name cells to those
// found before: the number after the nodes.
#[cycle(pointers)]
fn value(
    types: &Types,
    home: Home,
    of: TypeId,
    val: &Val,
    node: u32,
    found: &mut Vec<CellPointer>,
) -> Result<u32, Memory>
    requires few { node + node_count (more (tree_of val.now) none) < 2 ^ 32 }
    requires formed { are_formed types.now (of.0 ∷ []) (more (tree_of val.now) none) ≡ true }
    ensures { Collects types.now home (of.0 ∷ []) node (more (tree_of val.now) none) found.old.items found.new.items result }
{
    by_form(types, home, of, val, node, found)
}

// The same of a value that has the form of its type.
#[cycle(pointers)]
fn by_form(
    types: &Types,
    home: Home,
    of: TypeId,
    val: &Val,
    node: u32,
    found: &mut Vec<CellPointer>,
) -> Result<u32, Memory>
    requires few { node + node_count (more (tree_of val.now) none) < 2 ^ 32 }
    requires shape { has_shape (type_at types.now of.0) (label_in (tree_of val.now)) (kids_in (tree_of val.now)) ≡ true }
    requires arm { has_arm (type_at types.now of.0) (label_in (tree_of val.now)) ≡ true }
    requires formed { are_formed types.now (child_types (type_at types.now of.0) (label_in (tree_of val.now)) (kids_in (tree_of val.now)))
        (kids_in (tree_of val.now)) ≡ true }
    ensures { Collects types.now home (of.0 ∷ []) node (more (tree_of val.now) none) found.old.items found.new.items result }
{
    let def = types.get(of.0 as usize);
    let next = node + 1;
    match val {
        Val::Rec(vals) => {
            let Some(TypeDef::Struct { members: fields }) = def else {
                unreachable!()
            };
            members(types, home, fields, vals, next, found)
        }
        Val::Arr { items, .. } => {
            let Some(TypeDef::Array { elem, .. }) = def else {
                unreachable!()
            };
            list(types, home, *elem, items, next, found)
        }
        Val::Union { tag, arm: value } => {
            let Some(TypeDef::Union { arms, default, .. }) = def else {
                unreachable!()
            };
            let Some(chosen) = selected(arms, default, *tag) else {
                unreachable!()
            };
            arm(types, home, chosen.of, value, next, found)
        }
        Val::Pipe(items) => {
            let Some(TypeDef::Pipe { elem }) = def else {
                unreachable!()
            };
            list(types, home, *elem, items, next, found)
        }
        Val::Ptr(cell) => {
            let Some(TypeDef::Pointer { class, .. }) = def else {
                unreachable!()
            };
            pointer(home, *class, *cell, node, found)?;
            Ok(next)
        }
        Val::Num(_) | Val::Text { .. } | Val::Context { .. } => Ok(next),
    }
}

// The same of the members of a structure.
#[cycle(pointers)]
fn members(
    types: &Types,
    home: Home,
    fields: &Fields,
    vals: &Vals,
    node: u32,
    found: &mut Vec<CellPointer>,
) -> Result<u32, Memory>
    requires few { node + node_count (trees vals.now) < 2 ^ 32 }
    requires formed { are_formed types.now (map (λ f. f.of.0) fields.now) (trees vals.now) ≡ true }
    requires shape { (count (trees vals.now) == length fields.now) ≡ true }
    ensures { Collects types.now home (map (λ f. f.of.0) fields.now) node (trees vals.now) found.old.items found.new.items result }
{
    let mut next = node;
    for at in 0..vals.len() {
        let Some(field) = fields.get(at) else {
            unreachable!()
        };
        let Some(val) = vals.get(at) else {
            unreachable!()
        };
        next = value(types, home, field.of, val, next, found)?;
    }
    Ok(next)
}

// The same of the elements of an array or a pipe. Simple ones are not searched.
#[cycle(pointers)]
fn list(
    types: &Types,
    home: Home,
    elem: TypeId,
    vals: &Vals,
    node: u32,
    found: &mut Vec<CellPointer>,
) -> Result<u32, Memory>
    requires few { node + node_count (trees vals.now) < 2 ^ 32 }
    requires formed { are_formed types.now (replicate (count (trees vals.now)) elem.0) (trees vals.now) ≡ true }
    ensures { Collects types.now home (replicate (count (trees vals.now)) elem.0) node (trees vals.now) found.old.items found.new.items result }
{
    let count = vals.len();
    if count == 0 {
        return elements(types, home, elem, vals, node, found);
    }
    match simple_nodes(types, elem, false) {
        Some(inside) => Ok(after_values(count, inside, node)),
        None => elements(types, home, elem, vals, node, found),
    }
}

// The same of elements one by one.
#[cycle(pointers)]
fn elements(
    types: &Types,
    home: Home,
    elem: TypeId,
    vals: &Vals,
    node: u32,
    found: &mut Vec<CellPointer>,
) -> Result<u32, Memory>
    requires few { node + node_count (trees vals.now) < 2 ^ 32 }
    requires formed { are_formed types.now (replicate (count (trees vals.now)) elem.0) (trees vals.now) ≡ true }
    ensures { Collects types.now home (replicate (count (trees vals.now)) elem.0) node (trees vals.now) found.old.items found.new.items result }
{
    let mut next = node;
    for at in 0..vals.len() {
        let Some(val) = vals.get(at) else {
            unreachable!()
        };
        next = value(types, home, elem, val, next, found)?;
    }
    Ok(next)
}

// The same of the value of an arm, where the arm has a type.
#[cycle(pointers)]
fn arm(
    types: &Types,
    home: Home,
    of: Option<TypeId>,
    arm: &ArmVal,
    node: u32,
    found: &mut Vec<CellPointer>,
) -> Result<u32, Memory>
    requires few { node + node_count (trees arm.now) < 2 ^ 32 }
    requires formed { are_formed types.now (type_list of) (trees arm.now) ≡ true }
    ensures { Collects types.now home (type_list of) node (trees arm.now) found.old.items found.new.items result }
{
    match arm.get() {
        Some(val) => {
            let Some(of) = of else { unreachable!() };
            value(types, home, of, val, node, found)
        }
        None => Ok(node),
    }
}

// Adds a pointer, unless it is null.
fn pointer(
    home: Home,
    class: Class,
    cell: Option<CellId>,
    node: u32,
    found: &mut Vec<CellPointer>,
) -> Result<(), Memory>
    ensures { OnOk result (found.new.items ≡ found.old.items ++ named_by (cell_number cell) class home node) }
{
    let Some(cell) = cell else { return Ok(()) };
    let named = CellPointer {
        home,
        node,
        class,
        cell,
    };
    match found.push(named) {
        Ok(()) => Ok(()),
        Err(_) => Err(Memory),
    }
}
