// Where a node of a graph is, in words.
ghost use Rattle.std.specs.Prelude.{◌≡◌, ◌<◌, ◌≤◌, ◌+◌, suc, [], ◌∷◌, List, ℕ, Some, None, length, IfOk, OnOk, MatchOption, option_map};
ghost use Rattle.std.specs.Prelude.{option_copied};
ghost use Rattle.std.specs.List.{slice_get};
ghost use Rattle.nd_types.specs.declared.types.Operation.{Operation};
ghost use Rattle.nd_value.specs.Fitting.{setting_of};
ghost use Rattle.nd_types.specs.Roots.{named_roots, root_value};
ghost use Rattle.nd_types.specs.Table.{Table, type_at};
ghost use Rattle.nd_value.specs.Tree as tree;
ghost use Rattle.nd_value.specs.Tree.{Trees, more, none, trees, count, node_count};
ghost use Rattle.nd_value.specs.Nodes.{child_types, selected_types};
ghost use Rattle.nd_value.specs.Seen.{tree_of, cell_of};
ghost use Rattle.nd_value.specs.Setting.{Setting, or_unread, cell_of_number};
ghost use Rattle.nd_value.specs.declared.item.Home.TheVariants as HomeValue;
ghost use Rattle.text_grammar.specs.Paths.{IsPath, arm_paths, element_paths};
ghost use Rattle.text_printer.specs.Steps.{HasPath, HasCellPath, IsStep, IsChildStep, IsChildAt, seen_step, seen_child, elem_types, member_types};
ghost use Rattle.text_printer.specs.Steps.{member_paths, struct_members, union_arm, arm_path};

use nd_base::{Memory, Name, Octets};
use nd_types::{Arm, Fields, Interface, RootDef, Side, TypeDef, TypeId, Types};
use nd_value::{ArmVal, Cell, CellId, Graph, Home, Val, Vals};
use std::alloc::Global;
use text_grammar::{append_count, append_index, selected};

/// The path of a node of a graph: the name of its root, or `@k` for the cell of number k; then `.name` for each member of a struct and
/// each arm of a union on the way, and `[i]` for each element of an array or a pipe, where i is its index in the array, which counts
/// from the offset. The node of number 0 is the home's own value, whose path is the home's name. A root past those of the side, as a graph
/// with too many roots has it, is called `root`.
///
/// `op` must be the number of an operation. The home and the node must be there, unless the node is 0 and the home a root that is
/// missing or too many; and the nodes before it must have the forms of their types.
///
/// It takes memory for the path alone; out of memory is the only error. The time is in proportion to the nodes of the home.
pub fn path(
    alloc: Global,
    interface: &Interface,
    op: u32,
    side: Side,
    graph: &Graph,
    home: Home,
    node: u32,
) -> Result<Octets, Memory>
    requires known { op < length interface.now.operations }
    ensures { IfOk result (λ text. (o : Operation) → slice_get interface.now.operations op ≡ Some o
        → (p : List ℕ) → IsPath (setting_of interface.now o side) graph.now home node p → text ≡ p) }
{
    let mut text = Octets::new(alloc);
    append_path(&mut text, interface, op, side, graph, home, node)?;
    Ok(text)
}

/// The same after an empty text.
fn append_path(
    text: &mut Octets,
    interface: &Interface,
    op: u32,
    side: Side,
    graph: &Graph,
    home: Home,
    node: u32,
) -> Result<(), Memory>
    requires { op < length interface.now.operations }
    ensures { OnOk result (text.old ≡ [] → (o : Operation) → slice_get interface.now.operations op ≡ Some o
        → (p : List ℕ) → IsPath (setting_of interface.now o side) graph.now home node p → text.new ≡ p) }
{
    match home {
        Home::Root(at) => append_root_path(text, interface, op, side, graph, at, node),
        Home::Cell(cell) => append_cell_path(text, &interface.types, graph, cell, node),
    }
}

/// The path of a node of a root.
fn append_root_path(
    text: &mut Octets,
    interface: &Interface,
    op: u32,
    side: Side,
    graph: &Graph,
    at: u32,
    node: u32,
) -> Result<(), Memory>
    requires { op < length interface.now.operations }
    ensures { OnOk result (text.old ≡ [] → (o : Operation) → slice_get interface.now.operations op ≡ Some o
        → (p : List ℕ) → IsPath (setting_of interface.now o side) graph.now (HomeValue.Root at) node p → text.new ≡ p) }
{
    match root_at(interface, op, side, at) {
        Some(root) => {
            text.append(root.name)?;
            append_root_steps(
                text,
                &interface.types,
                root.of,
                root_value_at(graph, at),
                node,
            )
        }
        None => text.append(b"root"),
    }
}

/// The path of a node of a cell.
fn append_cell_path(
    text: &mut Octets,
    types: &Types,
    graph: &Graph,
    cell: CellId,
    node: u32,
) -> Result<(), Memory>
    ensures { OnOk result (text.old ≡ [] → (w : Setting) → w.table ≡ types.now
        → (p : List ℕ) → IsPath w graph.now (HomeValue.Cell cell) node p → text.new ≡ p) }
{
    text.append(b"@")?;
    append_count(text, cell.0)?;
    append_cell_steps(text, types, cell_at(graph, cell), node)
}

/// The steps from the value of a root, where it is there.
fn append_root_steps(
    text: &mut Octets,
    types: &Types,
    of: TypeId,
    val: Option<&Val>,
    node: u32,
) -> Result<(), Memory>
    ensures { OnOk result
        ((p : List ℕ) → HasPath types.now of.0 text.old (or_unread (option_map (λ v. tree_of v.now) val.entry)) node p → text.new ≡ p) }
{
    match val {
        Some(val) => append_steps(text, types, of, val, node),
        None => Ok(()),
    }
}

/// The steps from the value of a cell, where it is there.
fn append_cell_steps(
    text: &mut Octets,
    types: &Types,
    cell: Option<&Cell>,
    node: u32,
) -> Result<(), Memory>
    ensures { OnOk result ((p : List ℕ) → HasCellPath types.now text.old (option_map (λ c. cell_of c.now) cell.entry) node p → text.new ≡ p) }
{
    match cell {
        Some(cell) => append_steps(text, types, cell.of, &cell.val, node),
        None => Ok(()),
    }
}

/// The value of a root by its place.
fn root_value_at(graph: &Graph, at: u32) -> Option<&Val>
    ensures { option_map (λ v. tree_of v.now) result ≡ slice_get graph.now.roots at }
{
    graph.roots.get(at as usize)
}

/// A root of a side of an operation by its place, from 0. `op` must be the number of an operation. Takes no memory.
pub fn root_at(interface: &Interface, op: u32, side: Side, at: u32) -> Option<RootDef<'_>>
    requires { op < length interface.now.operations }
    ensures { (o : Operation) → slice_get interface.now.operations op ≡ Some o
        → option_map root_value result ≡ slice_get (named_roots interface.now.types side o) at }
{
    let mut place = 0;
    for root in interface.params(op, side) {
        if place == at {
            return Some(root);
        }
        place += 1;
    }
    None
}

/// A cell by its number.
fn cell_at(graph: &Graph, cell: CellId) -> Option<&Cell>
    ensures { option_map (λ c. cell_of c.now) result ≡ cell_of_number graph.now cell.0 }
{
    if cell.0 == 0 {
        return None;
    }
    graph.cells.get(cell.0 as usize - 1)
}

/// A step from a value to a child: the child's type, the child, and the number in it of the node that is looked for.
#[derive(Clone, Copy)]
struct Step<'a> {
    of: TypeId,
    val: &'a Val,
    node: u32,
}

/// A value of a list by its place, with the number in it of the node that is looked for.
#[derive(Clone, Copy)]
struct Child<'a> {
    at: usize,
    val: &'a Val,
    node: u32,
}

/// The steps from a value of a type to one of its nodes.
fn append_steps(
    text: &mut Octets,
    types: &Types,
    of: TypeId,
    val: &Val,
    node: u32,
) -> Result<(), Memory>
    ensures { OnOk result ((p : List ℕ) → HasPath types.now of.0 text.old (tree_of val.now) node p → text.new ≡ p) }
{
    let mut child_of = of;
    let mut child = val;
    let mut left = node;
    while left > 0 {
        let Some(next) = next_step(text, types, child_of, child, left - 1)? else {
            return Ok(());
        };
        child_of = next.of;
        child = next.val;
        left = next.node;
    }
    Ok(())
}

/// The step from a value to its child that has a node in it, the node counted from the first child.
fn next_step<'a>(
    text: &mut Octets,
    types: &Types,
    of: TypeId,
    val: &'a Val,
    node: u32,
) -> Result<Option<Step<'a>>, Memory>
    ensures { IfOk result (λ next. IsStep types.now of.0 (tree_of val.now) node text.old text.new (seen_step next)) }
{
    match val {
        Val::Rec(vals) => to_member(text, members_of(types, of), vals, node),
        Val::Arr { offset, items, .. } => {
            to_element(text, array_elem(types, of), *offset, items, node)
        }
        Val::Pipe(items) => to_element(text, pipe_elem(types, of), 0, items, node),
        Val::Union { tag, arm } => to_arm(text, arm_of(types, of, *tag), arm, node),
        Val::Num(_) => Ok(None),
        Val::Text { .. } => Ok(None),
        Val::Ptr(_) => Ok(None),
        Val::Context { .. } => Ok(None),
    }
}

/// The step to a member, where there are members.
fn to_member<'a>(
    text: &mut Octets,
    members: Option<&Fields>,
    vals: &'a Vals,
    node: u32,
) -> Result<Option<Step<'a>>, Memory>
    ensures { let ms = option_map (λ m. m.now) members.entry in IfOk result (λ next. (table : Table)
        → IsChildStep table (member_types ms) (member_paths text.old ms) (trees vals.now) node text.new (seen_step next)) }
{
    match members {
        Some(members) => to_one_member(text, members, vals, node),
        None => Ok(None),
    }
}

/// The step to one of these members.
fn to_one_member<'a>(
    text: &mut Octets,
    members: &Fields,
    vals: &'a Vals,
    node: u32,
) -> Result<Option<Step<'a>>, Memory>
    ensures { let ms = Some members.now in IfOk result (λ next. (table : Table)
        → IsChildStep table (member_types ms) (member_paths text.old ms) (trees vals.now) node text.new (seen_step next)) }
{
    let Some(child) = child_at(vals, node) else {
        return Ok(None);
    };
    let Some(member) = members.get(child.at) else {
        return Ok(None);
    };
    text.append(b".")?;
    text.append(member.name.as_slice())?;
    Ok(Some(Step {
        of: member.of,
        val: child.val,
        node: child.node,
    }))
}

/// The step to an element of this type, where there is one.
fn to_element<'a>(
    text: &mut Octets,
    elem: Option<TypeId>,
    offset: u32,
    items: &'a Vals,
    node: u32,
) -> Result<Option<Step<'a>>, Memory>
    ensures { let ks = trees items.now in IfOk result (λ next. (table : Table)
        → IsChildStep table (elem_types (option_map (λ t. t.0) elem) (count ks)) (element_paths text.old offset ks) ks node text.new
        (seen_step next)) }
{
    match elem {
        Some(elem) => to_one_element(text, elem, offset, items, node),
        None => Ok(None),
    }
}

/// The step to an element of this type.
fn to_one_element<'a>(
    text: &mut Octets,
    elem: TypeId,
    offset: u32,
    items: &'a Vals,
    node: u32,
) -> Result<Option<Step<'a>>, Memory>
    ensures { let ks = trees items.now in IfOk result (λ next. (table : Table)
        → IsChildStep table (elem_types (Some elem.0) (count ks)) (element_paths text.old offset ks) ks node text.new (seen_step next)) }
{
    let Some(child) = child_at(items, node) else {
        return Ok(None);
    };
    text.append(b"[")?;
    append_index(text, offset, child.at)?;
    text.append(b"]")?;
    Ok(Some(Step {
        of: elem,
        val: child.val,
        node: child.node,
    }))
}

/// The step to the value of an arm, where one is selected.
fn to_arm<'a>(
    text: &mut Octets,
    chosen: Option<&Arm>,
    arm: &'a ArmVal,
    node: u32,
) -> Result<Option<Step<'a>>, Memory>
    ensures { let a = option_copied chosen.entry in IfOk result (λ next. (table : Table)
        → IsChildStep table (selected_types a) (arm_paths text.old a) (trees arm.now) node text.new (seen_step next)) }
{
    match chosen {
        Some(chosen) => to_one_arm(text, chosen, arm, node),
        None => Ok(None),
    }
}

/// The step to the value of this arm.
fn to_one_arm<'a>(
    text: &mut Octets,
    chosen: &Arm,
    arm: &'a ArmVal,
    node: u32,
) -> Result<Option<Step<'a>>, Memory>
    ensures { let a = Some chosen.now in IfOk result (λ next. (table : Table)
        → IsChildStep table (selected_types a) (arm_paths text.old a) (trees arm.now) node text.new (seen_step next)) }
{
    let Some(of) = chosen.of else {
        return Ok(None);
    };
    let Some(val) = arm.get() else {
        return Ok(None);
    };
    append_arm_name(text, &chosen.name)?;
    Ok(Some(Step { of, val, node }))
}

/// The name of an arm, where it has one.
fn append_arm_name(text: &mut Octets, name: &Option<Name>) -> Result<(), Memory>
    ensures { OnOk result (text.new ≡ arm_path text.old name.now) }
{
    match name {
        Some(name) => {
            text.append(b".")?;
            text.append(name.as_slice())
        }
        None => Ok(()),
    }
}

/// The members of a struct.
fn members_of(types: &Types, of: TypeId) -> Option<&Fields>
    ensures { option_map (λ m. m.now) result ≡ struct_members (type_at types.now of.0) }
{
    match types.get(of.0 as usize) {
        Some(TypeDef::Struct { members }) => Some(members),
        _ => None,
    }
}

/// The arm of a union that a tag selects.
fn arm_of(types: &Types, of: TypeId, tag: i128) -> Option<&Arm>
    ensures { option_copied result ≡ union_arm (type_at types.now of.0) tag }
{
    match types.get(of.0 as usize) {
        Some(TypeDef::Union { arms, default, .. }) => selected(arms, default, tag),
        _ => None,
    }
}

/// The type of the elements of an array.
fn array_elem(types: &Types, of: TypeId) -> Option<TypeId>
    ensures { (max offset : ℕ) (ks : Trees)
        → child_types (type_at types.now of.0) (tree.Arr max offset) ks ≡ elem_types (option_map (λ t. t.0) result) (count ks) }
{
    match types.get(of.0 as usize) {
        Some(TypeDef::Array { elem, .. }) => Some(*elem),
        _ => None,
    }
}

/// The type of the elements of a pipe.
fn pipe_elem(types: &Types, of: TypeId) -> Option<TypeId>
    ensures { (ks : Trees) → child_types (type_at types.now of.0) tree.Pipe ks ≡ elem_types (option_map (λ t. t.0) result) (count ks) }
{
    match types.get(of.0 as usize) {
        Some(TypeDef::Pipe { elem }) => Some(*elem),
        _ => None,
    }
}

/// The value that has a node among the nodes of values, with its place and the node's number in it.
fn child_at(vals: &Vals, node: u32) -> Option<Child<'_>>
    ensures { IsChildAt vals.now node (seen_child result) }
{
    let mut left = node;
    for at in 0..vals.len() {
        let Some(val) = vals.get(at) else {
            unreachable!()
        };
        match beyond(val, left) {
            Some(more) => left = more,
            None => {
                return Some(Child {
                    at,
                    val,
                    node: left,
                });
            }
        }
    }
    None
}

/// How far a number is past the nodes of a value; None where it is one of them.
#[cycle(nodes)]
fn beyond(val: &Val, node: u32) -> Option<u32>
    ensures { let n = node_count (more (tree_of val.now) none) in MatchOption result (node < n) (λ m. node ≡ n + m) }
{
    if node == 0 {
        return None;
    }
    match val {
        Val::Rec(vals) => beyond_all(vals, node - 1),
        Val::Pipe(vals) => beyond_all(vals, node - 1),
        Val::Arr { items, .. } => beyond_all(items, node - 1),
        Val::Union { arm, .. } => beyond_arm(arm, node - 1),
        Val::Num(_) => Some(node - 1),
        Val::Text { .. } => Some(node - 1),
        Val::Ptr(_) => Some(node - 1),
        Val::Context { .. } => Some(node - 1),
    }
}

/// The same of values one after the other.
#[cycle(nodes)]
fn beyond_all(vals: &Vals, node: u32) -> Option<u32>
    ensures { let n = node_count (trees vals.now) in MatchOption result (node < n) (λ m. node ≡ n + m) }
{
    let mut left = node;
    for at in 0..vals.len() {
        let Some(val) = vals.get(at) else {
            unreachable!()
        };
        match beyond(val, left) {
            Some(more) => left = more,
            None => return None,
        }
    }
    Some(left)
}

/// The same of the value of an arm, where it is there.
#[cycle(nodes)]
fn beyond_arm(arm: &ArmVal, node: u32) -> Option<u32>
    ensures { let n = node_count (trees arm.now) in MatchOption result (node < n) (λ m. node ≡ n + m) }
{
    match arm.get() {
        Some(val) => beyond(val, node),
        None => Some(node),
    }
}
