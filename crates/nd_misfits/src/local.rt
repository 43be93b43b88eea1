// The first pass: misfits of nodes by themselves, and the number of roots.
ghost use Rattle.std.specs.Prelude.{◌≡◌, ◌<◌, ◌^◌, true, length, map, slice_get, Option, Some, None, OnOk, IfErr};
ghost use Rattle.nd_types.specs.declared.types.Operation.{Operation};
ghost use Rattle.nd_value.specs.declared.value.Graph.{Graph as GraphValue};
ghost use Rattle.nd_types.specs.Roots.{named_roots};
ghost use Rattle.nd_value.specs.Tree.{more, none, trees, node_count};
ghost use Rattle.nd_value.specs.Seen.{tree_of};
ghost use Rattle.nd_value.specs.Conforms.{FewNodes, HasFewNodes, first_local};
ghost use Rattle.nd_value.specs.Fitting.{setting_beside};
ghost use Rattle.nd_value.specs.Passes.{Tells, first_in_home, first_in_roots, first_in_cells};
ghost use Rattle.nd_misfits.specs.Searched.{have_machine_values, HasMachineValues};

use crate::nodes::value;
use nd_types::{Interface, Side, TypeId, Types};
use nd_value::{CellId, Graph, Home, Misfit, MisfitReason, NodeMisfit, Val};

/// The first node that has a misfit by itself, as that misfit, if there is one. A root that is missing or too many comes after the
/// roots that are there. It looks at each node once, and goes no deeper than types nest. It takes no memory.
pub fn local_misfit(interface: &Interface, op: u32, side: Side, graph: &Graph) -> Result<(), Misfit>
    requires known { op < length interface.now.operations }
    requires few_cells { length graph.now.cells < 2 ^ 32 }
    requires few_nodes { HasFewNodes graph.now }
    ensures none { OnOk result ((o : Operation) (q : Option GraphValue) → slice_get interface.now.operations op ≡ Some o
        → first_local (setting_beside interface.now o side q) graph.now ≡ None) }
    ensures machine { OnOk result (HasMachineValues graph.now) }
    ensures first { IfErr result (λ e. (o : Operation) (q : Option GraphValue) → slice_get interface.now.operations op ≡ Some o
        → Tells (first_local (setting_beside interface.now o side q) graph.now) e) }
{
    roots(interface, op, side, graph)?;
    cells(&interface.types, graph)
}

// The same of the roots.
fn roots(interface: &Interface, op: u32, side: Side, graph: &Graph) -> Result<(), Misfit>
    requires known { op < length interface.now.operations }
    requires few { FewNodes graph.now.roots }
    ensures none { OnOk result ((o : Operation) → slice_get interface.now.operations op ≡ Some o
        → first_in_roots interface.now.types graph.now 0 (named_roots interface.now.types side o) graph.now.roots ≡ None) }
    ensures machine { OnOk result (have_machine_values (trees graph.now.roots) ≡ true) }
    ensures first { IfErr result (λ e. (o : Operation) → slice_get interface.now.operations op ≡ Some o
        → Tells (first_in_roots interface.now.types graph.now 0 (named_roots interface.now.types side o) graph.now.roots) e) }
{
    let mut at: u32 = 0;
    for root in interface.params(op, side) {
        let Some(val) = graph.roots.get(at as usize) else {
            return Err(wrong_root(at));
        };
        home(&interface.types, graph, Home::Root(at), root.of, val)?;
        at += 1;
    }
    if graph.roots.len() > at as usize {
        return Err(wrong_root(at));
    }
    Ok(())
}

// A root that is missing or too many.
fn wrong_root(at: u32) -> Misfit
    ensures { result ≡ Misfit.At (Home.Root at) 0 MisfitReason.Shape }
{
    Misfit::At {
        home: Home::Root(at),
        node: 0,
        reason: MisfitReason::Shape,
    }
}

// The same of the cells.
fn cells(types: &Types, graph: &Graph) -> Result<(), Misfit>
    requires few { length graph.now.cells < 2 ^ 32 }
    requires few_nodes { FewNodes (map (λ c. c.val) graph.now.cells) }
    ensures none { OnOk result (first_in_cells types.now graph.now 1 graph.now.cells ≡ None) }
    ensures machine { OnOk result (have_machine_values (trees (map (λ c. c.val) graph.now.cells)) ≡ true) }
    ensures first { IfErr result (λ e. Tells (first_in_cells types.now graph.now 1 graph.now.cells) e) }
{
    for at in 0..graph.cells.len() {
        let Some(cell) = graph.cells.get(at) else {
            unreachable!()
        };
        let number = at as u32 + 1;
        home(types, graph, Home::Cell(CellId(number)), cell.of, &cell.val)?;
    }
    Ok(())
}

// The same of one value as a home.
fn home(types: &Types, graph: &Graph, home: Home, of: TypeId, val: &Val) -> Result<(), Misfit>
    requires few { node_count (more (tree_of val.now) none) < 2 ^ 32 }
    ensures none { OnOk result (first_in_home types.now graph.now home of.0 (tree_of val.now) ≡ None) }
    ensures machine { OnOk result (have_machine_values (more (tree_of val.now) none) ≡ true) }
    ensures first { IfErr result (λ e. Tells (first_in_home types.now graph.now home of.0 (tree_of val.now)) e) }
{
    match value(types, graph, of, val, 0) {
        Ok(_) => Ok(()),
        Err(NodeMisfit { node, reason }) => Err(Misfit::At { home, node, reason }),
    }
}
