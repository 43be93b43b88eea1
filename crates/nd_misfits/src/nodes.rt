// The nodes of values, depth first.
ghost use Rattle.std.specs.Prelude.{◌≡◌, ℕ, ◌+◌, ◌<◌, ◌^◌, [], ◌∷◌, length, map, replicate, true, ◌==◌};
ghost use Rattle.nd_types.specs.Table.{type_at};
ghost use Rattle.nd_types.specs.Layout.{type_list};
ghost use Rattle.nd_value.specs.Tree.{more, none, trees, node_count, count};
ghost use Rattle.nd_value.specs.Nodes.{child_types};
ghost use Rattle.nd_value.specs.Seen.{tree_of};
ghost use Rattle.nd_value.specs.Misfit.{has_shape, has_arm};
ghost use Rattle.nd_misfits.specs.Searched.{Searched, label_in, kids_in};

use crate::node::{selected, single, within_widths};
use nd_types::{Fields, TypeDef, TypeId, Types};
use nd_value::{ArmVal, Graph, NodeMisfit, Val, Vals};

// Goes through the nodes of a value of a type, which are numbered from `node` on: the number after them, or the first that has a
// misfit by itself.
#[cycle(nodes)]
pub(crate) fn value(
    types: &Types,
    graph: &Graph,
    of: TypeId,
    val: &Val,
    node: u32,
) -> Result<u32, NodeMisfit>
    requires { node + node_count (more (tree_of val.now) none) < 2 ^ 32 }
    ensures { Searched types.now graph.now (of.0 ∷ []) node (more (tree_of val.now) none) result }
{
    within_widths(val);
    match single(types, graph, of, val) {
        Some(reason) => Err(NodeMisfit { node, reason }),
        None => children(types, graph, of, val, node + 1),
    }
}

// The same of the children of a value that has no misfit by itself.
#[cycle(nodes)]
fn children(
    types: &Types,
    graph: &Graph,
    of: TypeId,
    val: &Val,
    node: u32,
) -> Result<u32, NodeMisfit>
    requires few { node + node_count (kids_in (tree_of val.now)) < 2 ^ 32 }
    requires shape { has_shape (type_at types.now of.0) (label_in (tree_of val.now)) (kids_in (tree_of val.now)) ≡ true }
    requires arm { has_arm (type_at types.now of.0) (label_in (tree_of val.now)) ≡ true }
    ensures { Searched types.now graph.now (child_types (type_at types.now of.0) (label_in (tree_of val.now)) (kids_in (tree_of val.now)))
        node (kids_in (tree_of val.now)) result }
{
    let def = types.get(of.0 as usize);
    match val {
        Val::Rec(vals) => {
            let Some(TypeDef::Struct { members: fields }) = def else {
                unreachable!()
            };
            members(types, graph, fields, vals, node)
        }
        Val::Arr { items, .. } => {
            let Some(TypeDef::Array { elem, .. }) = def else {
                unreachable!()
            };
            elements(types, graph, *elem, items, node)
        }
        Val::Union { tag, arm: value } => {
            let Some(TypeDef::Union { arms, default, .. }) = def else {
                unreachable!()
            };
            let Some(chosen) = selected(arms, default, *tag) else {
                unreachable!()
            };
            arm(types, graph, chosen.of, value, node)
        }
        Val::Pipe(items) => {
            let Some(TypeDef::Pipe { elem }) = def else {
                unreachable!()
            };
            elements(types, graph, *elem, items, node)
        }
        Val::Num(_) | Val::Text { .. } | Val::Ptr(_) | Val::Context { .. } => Ok(node),
    }
}

// The same of the members of a structure.
#[cycle(nodes)]
fn members(
    types: &Types,
    graph: &Graph,
    fields: &Fields,
    vals: &Vals,
    node: u32,
) -> Result<u32, NodeMisfit>
    requires few { node + node_count (trees vals.now) < 2 ^ 32 }
    requires shape { (count (trees vals.now) == length fields.now) ≡ true }
    ensures { Searched types.now graph.now (map (λ f. f.of.0) fields.now) node (trees vals.now) result }
{
    let mut next = node;
    for at in 0..vals.len() {
        let Some(field) = fields.get(at) else {
            unreachable!()
        };
        let Some(val) = vals.get(at) else {
            unreachable!()
        };
        next = value(types, graph, field.of, val, next)?;
    }
    Ok(next)
}

// The same of the elements of an array or a pipe.
#[cycle(nodes)]
fn elements(
    types: &Types,
    graph: &Graph,
    elem: TypeId,
    vals: &Vals,
    node: u32,
) -> Result<u32, NodeMisfit>
    requires few { node + node_count (trees vals.now) < 2 ^ 32 }
    ensures { Searched types.now graph.now (replicate (count (trees vals.now)) elem.0) node (trees vals.now) result }
{
    let mut next = node;
    for at in 0..vals.len() {
        let Some(val) = vals.get(at) else {
            unreachable!()
        };
        next = value(types, graph, elem, val, next)?;
    }
    Ok(next)
}

// The same of the value of an arm, where the arm has a type.
#[cycle(nodes)]
fn arm(
    types: &Types,
    graph: &Graph,
    of: Option<TypeId>,
    arm: &ArmVal,
    node: u32,
) -> Result<u32, NodeMisfit>
    requires few { node + node_count (trees arm.now) < 2 ^ 32 }
    requires shape { (count (trees arm.now) == length (type_list of)) ≡ true }
    ensures { Searched types.now graph.now (type_list of) node (trees arm.now) result }
{
    match arm.get() {
        Some(val) => {
            let Some(of) = of else { unreachable!() };
            value(types, graph, of, val, node)
        }
        None => Ok(node),
    }
}
