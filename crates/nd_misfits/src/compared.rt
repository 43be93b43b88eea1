// The fourth pass within a home: attributes of members that state other numbers than are there.
ghost use Rattle.std.specs.Prelude.{◌≡◌, ℕ, ◌+◌, ◌<◌, ◌≤◌, ◌^◌, [], ◌∷◌, length, map, replicate, true, ◌==◌};
ghost use Rattle.nd_types.specs.Table.{type_at};
ghost use Rattle.nd_types.specs.Layout.{type_list};
ghost use Rattle.nd_value.specs.Tree.{more, none, trees, node_count, count};
ghost use Rattle.nd_value.specs.Agreement.{member_agreements};
ghost use Rattle.nd_value.specs.Nodes.{child_types, child_agreements};
ghost use Rattle.nd_value.specs.Seen.{tree_of};
ghost use Rattle.nd_value.specs.Misfit.{has_shape, has_arm};
ghost use Rattle.nd_misfits.specs.Searched.{label_in, kids_in};
ghost use Rattle.nd_misfits.specs.Pointers.{are_formed};
ghost use Rattle.nd_misfits.specs.Disagreeing.{Compared};

use crate::agreement::member;
use crate::node::selected;
use crate::simple::{after_values, simple_nodes};
use nd_types::{Fields, TypeDef, TypeId, Types};
use nd_value::{ArmVal, Graph, NodeMisfit, Val, Vals};

// Goes through the nodes of a home's value of a type, which are numbered from 0 on: the number after them, or the first node whose
// attributes do not all hold, where none governs the value itself. A simple value is not searched.
pub(crate) fn home_value(
    types: &Types,
    graph: &Graph,
    of: TypeId,
    val: &Val,
) -> Result<u32, NodeMisfit>
    requires few { node_count (more (tree_of val.now) none) < 2 ^ 32 }
    requires formed { are_formed types.now (of.0 ∷ []) (more (tree_of val.now) none) ≡ true }
    ensures { Compared types.now graph.now (of.0 ∷ []) [] 0 (more (tree_of val.now) none) result }
{
    match simple_nodes(types, of, true) {
        Some(inside) => Ok(after_values(1, inside, 0)),
        None => value(types, graph, of, val, 0),
    }
}

// The same of a value whose nodes are numbered from `node` on.
#[cycle(compared)]
fn value(types: &Types, graph: &Graph, of: TypeId, val: &Val, node: u32) -> Result<u32, NodeMisfit>
    requires few { node + node_count (more (tree_of val.now) none) < 2 ^ 32 }
    requires formed { are_formed types.now (of.0 ∷ []) (more (tree_of val.now) none) ≡ true }
    ensures { Compared types.now graph.now (of.0 ∷ []) [] node (more (tree_of val.now) none) result }
{
    by_form(types, graph, of, val, node)
}

// The same of a value that has the form of its type.
#[cycle(compared)]
fn by_form(
    types: &Types,
    graph: &Graph,
    of: TypeId,
    val: &Val,
    node: u32,
) -> Result<u32, NodeMisfit>
    requires few { node + node_count (more (tree_of val.now) none) < 2 ^ 32 }
    requires shape { has_shape (type_at types.now of.0) (label_in (tree_of val.now)) (kids_in (tree_of val.now)) ≡ true }
    requires arm { has_arm (type_at types.now of.0) (label_in (tree_of val.now)) ≡ true }
    requires formed { are_formed types.now (child_types (type_at types.now of.0) (label_in (tree_of val.now)) (kids_in (tree_of val.now)))
        (kids_in (tree_of val.now)) ≡ true }
    ensures { Compared types.now graph.now (of.0 ∷ []) [] node (more (tree_of val.now) none) result }
{
    let def = types.get(of.0 as usize);
    let next = node + 1;
    match val {
        Val::Rec(vals) => {
            let Some(TypeDef::Struct { members: fields }) = def else {
                unreachable!()
            };
            members(types, graph, fields, vals, next)
        }
        Val::Arr { items, .. } => {
            let Some(TypeDef::Array { elem, .. }) = def else {
                unreachable!()
            };
            list(types, graph, *elem, items, next)
        }
        Val::Union { tag, arm: value } => {
            let Some(TypeDef::Union { arms, default, .. }) = def else {
                unreachable!()
            };
            let Some(chosen) = selected(arms, default, *tag) else {
                unreachable!()
            };
            arm(types, graph, chosen.of, value, next)
        }
        Val::Pipe(items) => {
            let Some(TypeDef::Pipe { elem }) = def else {
                unreachable!()
            };
            list(types, graph, *elem, items, next)
        }
        Val::Num(_) | Val::Text { .. } | Val::Ptr(_) | Val::Context { .. } => Ok(next),
    }
}

// The same of the members of a structure, whose attributes are compared too.
#[cycle(compared)]
fn members(
    types: &Types,
    graph: &Graph,
    fields: &Fields,
    vals: &Vals,
    node: u32,
) -> Result<u32, NodeMisfit>
    requires few { node + node_count (trees vals.now) < 2 ^ 32 }
    requires formed { are_formed types.now (map (λ f. f.of.0) fields.now) (trees vals.now) ≡ true }
    requires shape { (count (trees vals.now) == length fields.now) ≡ true }
    ensures { Compared types.now graph.now (map (λ f. f.of.0) fields.now) (map (λ f. member_agreements (trees vals.now) f.vars) fields.now)
        node (trees vals.now) result }
{
    let mut next = node;
    for at in 0..vals.len() {
        let Some(field) = fields.get(at) else {
            unreachable!()
        };
        let Some(val) = vals.get(at) else {
            unreachable!()
        };
        if let Some(reason) = member(graph, vals, &field.vars, val) {
            return Err(NodeMisfit { node: next, reason });
        }
        next = value(types, graph, field.of, val, next)?;
    }
    Ok(next)
}

// The same of the elements of an array or a pipe. Simple ones are not searched.
#[cycle(compared)]
fn list(
    types: &Types,
    graph: &Graph,
    elem: TypeId,
    vals: &Vals,
    node: u32,
) -> Result<u32, NodeMisfit>
    requires few { node + node_count (trees vals.now) < 2 ^ 32 }
    requires formed { are_formed types.now (replicate (count (trees vals.now)) elem.0) (trees vals.now) ≡ true }
    ensures { Compared types.now graph.now (replicate (count (trees vals.now)) elem.0) [] node (trees vals.now) result }
{
    let count = vals.len();
    if count == 0 {
        return elements(types, graph, elem, vals, node);
    }
    match simple_nodes(types, elem, true) {
        Some(inside) => Ok(after_values(count, inside, node)),
        None => elements(types, graph, elem, vals, node),
    }
}

// The same of elements one by one.
#[cycle(compared)]
fn elements(
    types: &Types,
    graph: &Graph,
    elem: TypeId,
    vals: &Vals,
    node: u32,
) -> Result<u32, NodeMisfit>
    requires few { node + node_count (trees vals.now) < 2 ^ 32 }
    requires formed { are_formed types.now (replicate (count (trees vals.now)) elem.0) (trees vals.now) ≡ true }
    ensures { Compared types.now graph.now (replicate (count (trees vals.now)) elem.0) [] node (trees vals.now) result }
{
    let mut next = node;
    for at in 0..vals.len() {
        let Some(val) = vals.get(at) else {
            unreachable!()
        };
        next = value(types, graph, elem, val, next)?;
    }
    Ok(next)
}

// The same of the value of an arm, where the arm has a type.
#[cycle(compared)]
fn arm(
    types: &Types,
    graph: &Graph,
    of: Option<TypeId>,
    arm: &ArmVal,
    node: u32,
) -> Result<u32, NodeMisfit>
    requires few { node + node_count (trees arm.now) < 2 ^ 32 }
    requires formed { are_formed types.now (type_list of) (trees arm.now) ≡ true }
    ensures { Compared types.now graph.now (type_list of) [] node (trees arm.now) result }
{
    match arm.get() {
        Some(val) => {
            let Some(of) = of else { unreachable!() };
            value(types, graph, of, val, node)
        }
        None => Ok(node),
    }
}
