// The fourth pass: attributes that state other numbers than are there (C706, 4.2.18 to 4.2.20).
ghost use Rattle.std.specs.Prelude.{◌≡◌, ◌+◌, ◌<◌, ◌^◌, true, [], length, map, slice_get, Option, Some, None, OnOk, IfErr, IfSome, IfNone};
ghost use Rattle.std.specs.List.{AllByRecursion};
ghost use Rattle.nd_types.specs.declared.types.Operation.{Operation as OperationValue};
ghost use Rattle.nd_value.specs.declared.value.Graph.{Graph as GraphValue};
ghost use Rattle.nd_value.specs.Tree.{node_count, more, none};
ghost use Rattle.nd_value.specs.Seen.{tree_of};
ghost use Rattle.nd_value.specs.Setting.{Setting};
ghost use Rattle.nd_value.specs.Conforms.{HasFewNodes, or_later, first_local, first_disagreeing};
ghost use Rattle.nd_value.specs.Fitting.{setting_beside};
ghost use Rattle.nd_value.specs.Passes.{Tells};
ghost use Rattle.nd_misfits.specs.HomeList.{home_tree, cell_homes};
ghost use Rattle.nd_misfits.specs.Pointers.{IsWalkable};
ghost use Rattle.nd_misfits.specs.Disagreeing.{disagreeing_home, disagreeing_homes, home_vars, own_disagreement};
ghost use Rattle.nd_misfits.specs.Numbers.{given_numbers, are_small_roots, are_small_numbers, AreNumbers};

use crate::agreement::parameter;
use crate::compared::home_value;
use crate::homes::{HomeValue, cell_home, roots};
use crate::numbers::{ParamNumber, RootNumber, numbers, roots_as_numbers};
use nd_base::Memory;
use nd_types::{AttrVars, Interface, Operation, Side, Types};
use nd_value::{Graph, Misfit, MisfitReason, NodeMisfit};
use std::alloc::Global;

/// The first node whose attributes do not all hold, as the misfit Disagrees, if there is one. `given` are the inputs of the request
/// beside which the graph is judged, as variables. It looks at each node once, and takes memory for a list of the roots and for the
/// numbers of the parameters.
pub fn disagreeing_attribute(
    alloc: Global,
    interface: &Interface,
    op: u32,
    side: Side,
    given: &[RootNumber],
    graph: &Graph,
) -> Result<(), Misfit>
    requires known { op < length interface.now.operations }
    requires few_cells { length graph.now.cells < 2 ^ 32 }
    requires few_nodes { HasFewNodes graph.now }
    requires local { (o : OperationValue) (q : Option GraphValue) → slice_get interface.now.operations op ≡ Some o
        → first_local (setting_beside interface.now o side q) graph.now ≡ None }
    requires small { are_small_roots given.now ≡ true }
    ensures none { OnOk result ((o : OperationValue) (q : Option GraphValue) → slice_get interface.now.operations op ≡ Some o
        → given.now ≡ given_numbers interface.now.types o q → first_disagreeing (setting_beside interface.now o side q) graph.now ≡ None) }
    ensures first { IfErr result (λ e. (o : OperationValue) (q : Option GraphValue) → slice_get interface.now.operations op ≡ Some o
        → given.now ≡ given_numbers interface.now.types o q → Tells (first_disagreeing (setting_beside interface.now o side q) graph.now) e) }
{
    let Some(operation) = interface.operations.get(op as usize) else {
        unreachable!()
    };
    let roots = roots(alloc, interface, op, side, graph)?;
    let own = roots_as_numbers(alloc, graph, roots.as_slice())?;
    let numbers = numbers(alloc, operation.params.len(), given, own.as_slice())?;
    among_all(
        &interface.types,
        operation,
        numbers.as_slice(),
        graph,
        roots.as_slice(),
    )
}

// The same of the roots and then the cells, by the numbers of the parameters.
fn among_all(
    types: &Types,
    operation: &Operation,
    numbers: &[ParamNumber],
    graph: &Graph,
    roots: &[HomeValue<'_>],
) -> Result<(), Misfit>
    requires few { length graph.now.cells < 2 ^ 32 }
    requires walkable { AllByRecursion (IsWalkable types.now (length graph.now.cells + 1)) (map home_tree roots.now) }
    requires cells { AllByRecursion (IsWalkable types.now (length graph.now.cells + 1)) (cell_homes 1 graph.now.cells) }
    requires small { are_small_numbers numbers.now ≡ true }
    ensures none { OnOk result ((w : Setting) → w.table ≡ types.now → w.op ≡ operation.now → AreNumbers w graph.now numbers.now
        → or_later (disagreeing_homes w graph.now (map home_tree roots.now)) (disagreeing_homes w graph.now (cell_homes 1 graph.now.cells)) ≡ None) }
    ensures first { IfErr result (λ e. (w : Setting) → w.table ≡ types.now → w.op ≡ operation.now → AreNumbers w graph.now numbers.now
        → Tells (or_later (disagreeing_homes w graph.now (map home_tree roots.now))
        (disagreeing_homes w graph.now (cell_homes 1 graph.now.cells))) e) }
{
    among(types, operation, numbers, graph, roots)?;
    among_cells(types, operation, numbers, graph)
}

// The same of some homes.
fn among(
    types: &Types,
    operation: &Operation,
    numbers: &[ParamNumber],
    graph: &Graph,
    homes: &[HomeValue<'_>],
) -> Result<(), Misfit>
    requires walkable { AllByRecursion (IsWalkable types.now (length graph.now.cells + 1)) (map home_tree homes.now) }
    requires small { are_small_numbers numbers.now ≡ true }
    ensures none { OnOk result ((w : Setting) → w.table ≡ types.now → w.op ≡ operation.now → AreNumbers w graph.now numbers.now
        → disagreeing_homes w graph.now (map home_tree homes.now) ≡ None) }
    ensures first { IfErr result (λ e. (w : Setting) → w.table ≡ types.now → w.op ≡ operation.now → AreNumbers w graph.now numbers.now
        → Tells (disagreeing_homes w graph.now (map home_tree homes.now)) e) }
{
    for at in 0..homes.len() {
        one(types, operation, numbers, graph, homes[at])?;
    }
    Ok(())
}

// The same of the cells.
fn among_cells(
    types: &Types,
    operation: &Operation,
    numbers: &[ParamNumber],
    graph: &Graph,
) -> Result<(), Misfit>
    requires few { length graph.now.cells < 2 ^ 32 }
    requires walkable { AllByRecursion (IsWalkable types.now (length graph.now.cells + 1)) (cell_homes 1 graph.now.cells) }
    requires small { are_small_numbers numbers.now ≡ true }
    ensures none { OnOk result ((w : Setting) → w.table ≡ types.now → w.op ≡ operation.now → AreNumbers w graph.now numbers.now
        → disagreeing_homes w graph.now (cell_homes 1 graph.now.cells) ≡ None) }
    ensures first { IfErr result (λ e. (w : Setting) → w.table ≡ types.now → w.op ≡ operation.now → AreNumbers w graph.now numbers.now
        → Tells (disagreeing_homes w graph.now (cell_homes 1 graph.now.cells)) e) }
{
    for at in 0..graph.cells.len() {
        let Some(cell) = graph.cells.get(at) else {
            unreachable!()
        };
        one(types, operation, numbers, graph, cell_home(at, cell))?;
    }
    Ok(())
}

// The same of one home.
fn one(
    types: &Types,
    operation: &Operation,
    numbers: &[ParamNumber],
    graph: &Graph,
    home: HomeValue<'_>,
) -> Result<(), Misfit>
    requires walkable { IsWalkable types.now (length graph.now.cells + 1) (home_tree home) }
    requires small { are_small_numbers numbers.now ≡ true }
    ensures none { OnOk result ((w : Setting) → w.table ≡ types.now → w.op ≡ operation.now → AreNumbers w graph.now numbers.now
        → disagreeing_home w graph.now (home_tree home.entry) ≡ None) }
    ensures first { IfErr result (λ e. (w : Setting) → w.table ≡ types.now → w.op ≡ operation.now → AreNumbers w graph.now numbers.now
        → Tells (disagreeing_home w graph.now (home_tree home.entry)) e) }
{
    if let Some(reason) = own(operation, numbers, graph, home) {
        return Err(Misfit::At {
            home: home.home,
            node: 0,
            reason,
        });
    }
    match home_value(types, graph, home.of, home.val) {
        Ok(_) => Ok(()),
        Err(NodeMisfit { node, reason }) => Err(Misfit::At {
            home: home.home,
            node,
            reason,
        }),
    }
}

// The first attribute of a home's parameter that does not hold.
fn own(
    operation: &Operation,
    numbers: &[ParamNumber],
    graph: &Graph,
    home: HomeValue<'_>,
) -> Option<MisfitReason>
    requires small { are_small_numbers numbers.now ≡ true }
    ensures { (w : Setting) → w.op ≡ operation.now → AreNumbers w graph.now numbers.now
        → result ≡ own_disagreement w graph.now (home_tree home.entry) }
{
    match attributes(operation, home.param) {
        Some(vars) => parameter(graph, numbers, vars, home.val),
        None => None,
    }
}

// The attributes of a parameter, where a home is one.
fn attributes(operation: &Operation, param: Option<u32>) -> Option<&AttrVars>
    ensures some { IfSome result (λ vars. home_vars operation.now param ≡ vars.now) }
    ensures none { IfNone result (home_vars operation.now param ≡ []) }
{
    match operation.params.get(param? as usize) {
        Some(param) => Some(&param.field.vars),
        None => None,
    }
}
