// Graphs of values, put into a builder.
ghost use Rattle.std.specs.Prelude.{◌≡◌, ◌<◌, ◌≤◌, ◌^◌, ◌+◌, length, map, OnOk, IfOk};
ghost use Rattle.std.specs.List.{AllByRecursion};
ghost use Rattle.nd_value.specs.Tree.{more, none, trees, node_count, Referent};
ghost use Rattle.nd_value.specs.Seen.{tree_of};
ghost use Rattle.nd_value.specs.Conforms.{FewNodes};
ghost use Rattle.nd_flat.specs.Building.{CanClose, closed};
ghost use Rattle.nd_flat.specs.Keepable.{AreKeepable, HasKeepable};
ghost use Rattle.nd_flat.specs.Built.{Rooted, Filled};
ghost use Rattle.nd_fit.specs.Steps.{AllReserved, AllRooted, AllFilled, blank};

use crate::values::add_value;
use nd_base::{Ledger, Memory, Steps, Uncounted};
use nd_flat::{Builder, FlatGraph};
use nd_types::{Side, Tie};
use nd_value::{CellId, Cells, Graph, Val, Vals};
use std::alloc::Global;

/// A graph of values as a flat graph, which is the same graph to contracts. Arrays and pipes whose elements are numbers of one primitive
/// are kept as rows. It takes memory for nodes, texts, rows, roots and cells, and for the octets of one row at a time. Out of
/// memory is the only refusal. Its calls nest as deep as the values of one home do: at most 32 levels where each value has the form
/// of its type. Each home must have fewer than 2^32 nodes, and each value be one that a node can keep: numbers and
/// tags from -2^64 to 2^64 - 1, texts of fewer than 2^32 octets. The tie, the operation and the side are those for which the graph
/// is meant; it need not conform.
pub fn flattened(
    alloc: Global,
    tie: Tie,
    op: u32,
    side: Side,
    graph: &Graph,
) -> Result<FlatGraph, Memory>
    requires few_cells { length graph.now.cells < 2 ^ 32 }
    requires keepable { HasKeepable graph.now }
    ensures { IfOk result (λ g. g ≡ graph.now) }
{
    let mut builder = Builder::begin(alloc, tie, op, side, None);
    let mut steps = Steps::new(Uncounted::new());
    reserve_all(&mut builder, &graph.cells, &mut steps)?;
    root_all(alloc, &mut builder, &graph.roots)?;
    fill_all(alloc, &mut builder, &graph.cells)?;
    Ok(builder.into_graph())
}

// Gives each cell its number.
fn reserve_all<L: Ledger>(
    builder: &mut Builder,
    cells: &Cells,
    steps: &mut Steps<L>,
) -> Result<(), Memory>
    requires few { length builder.old.graph.cells + length cells.now < 2 ^ 32 }
    ensures { OnOk result (AllReserved cells.now builder.old builder.new) }
{
    for at in 0..cells.len() {
        let Some(cell) = cells.get(at) else {
            unreachable!()
        };
        builder.reserve(cell.of, steps)?;
    }
    Ok(())
}

// Builds a root.
fn root_one(alloc: Global, builder: &mut Builder, val: &Val) -> Result<(), Memory>
    requires whole { CanClose builder.old }
    requires few { node_count (more (tree_of val.now) none) < 2 ^ 32 }
    requires keepable { AreKeepable (more (tree_of val.now) none) }
    ensures { OnOk result (Rooted (tree_of val.now) builder.old builder.new) }
{
    builder.root()?;
    add_value(alloc, builder, val)
}

// Builds a cell.
fn fill_one(alloc: Global, builder: &mut Builder, cell: CellId, val: &Val) -> Result<(), Memory>
    requires whole { CanClose builder.old }
    requires there { (0 < cell.0) × (cell.0 ≤ length builder.old.graph.cells) }
    requires few { node_count (more (tree_of val.now) none) < 2 ^ 32 }
    requires keepable { AreKeepable (more (tree_of val.now) none) }
    ensures { OnOk result (Filled cell.0 (tree_of val.now) builder.old builder.new) }
{
    builder.fill(cell);
    add_value(alloc, builder, val)
}

// Builds each root.
fn root_all(alloc: Global, builder: &mut Builder, vals: &Vals) -> Result<(), Memory>
    requires whole { CanClose builder.old }
    requires few { FewNodes vals.now }
    requires keepable { AreKeepable (trees vals.now) }
    ensures { OnOk result (AllRooted vals.now builder.old builder.new) }
{
    for at in 0..vals.len() {
        let Some(val) = vals.get(at) else {
            unreachable!()
        };
        root_one(alloc, builder, val)?;
    }
    Ok(())
}

// Builds each cell.
fn fill_all(alloc: Global, builder: &mut Builder, cells: &Cells) -> Result<(), Memory>
    requires whole { CanClose builder.old }
    requires few { length cells.now < 2 ^ 32 }
    requires blank { (closed builder.old).cells ≡ map blank cells.now }
    requires few_nodes { AllByRecursion (λ (x : Referent). node_count (more x.val none) < 2 ^ 32) cells.now }
    requires keepable { AllByRecursion (λ (x : Referent). AreKeepable (more x.val none)) cells.now }
    ensures { OnOk result (AllFilled cells.now builder.old builder.new) }
{
    for at in 0..cells.len() {
        let Some(cell) = cells.get(at) else {
            unreachable!()
        };
        fill_one(alloc, builder, CellId(at as u32 + 1), &cell.val)?;
    }
    Ok(())
}
