// Whether two graphs are the same up to the numbers of their cells.
ghost use Rattle.std.specs.Prelude.{◌≡◌, ◌<◌, ◌≤◌, length, IfOk};
ghost use Rattle.std.specs.Bool.{Decides};
ghost use Rattle.nd_value.specs.Tree.{flat};
ghost use Rattle.nd_value.specs.Canon.{Same};
ghost use Rattle.nd_flat.specs.FlatForm.{flat_seen};
ghost use Rattle.nd_graph.specs.Order.{IsOrder};
ghost use Rattle.nd_graph.specs.Alike.{AreAlike, AreSameRoots, AreSameCells, IsSameCell, number_by as numbers_by, renumbered_flat};
ghost use Rattle.nd_graph.specs.Alike.{renumbered_flats};

use crate::order::{Order, order_of};
use nd_base::Memory;
use nd_flat::{Fit, FlatGraph, Seen, Walk};
use nd_value::CellId;
use std::alloc::Global;

/// Whether a one-to-one map of cell numbers carries the graph of `a` to the graph of `b`. It takes memory for two numbers and a mark for
/// each cell, and two numbers for each pointer that is due, of each graph. Running out of memory is the only refusal. It takes time in
/// proportion to nodes and cells, and no call is nested deeper for a longer chain.
pub fn same(alloc: Global, a: &Fit, b: &Fit) -> Result<bool, Memory>
    ensures { IfOk result (λ same. Decides same (Same a.now.graph b.now.graph)) }
{
    let left = order_of(alloc, a.flat())?;
    let right = order_of(alloc, b.flat())?;
    Ok(same_graphs(a.flat(), b.flat(), &left, &right))
}

// Whether two graphs have as many roots and cells, which say the same; pointers are compared by the numbers of their cells.
fn same_graphs(a: &FlatGraph, b: &FlatGraph, left: &Order, right: &Order) -> bool
    requires left { IsOrder a.now left.now.numbers.items left.now.cells.items }
    requires right { IsOrder b.now right.now.numbers.items right.now.cells.items }
    ensures { Decides result (AreAlike (numbers_by left.now.numbers.items) (numbers_by right.now.numbers.items) a.now b.now
        left.now.cells.items right.now.cells.items) }
{
    if a.root_count() != b.root_count() {
        return false;
    }
    if a.cell_count() != b.cell_count() {
        return false;
    }
    if !same_roots(a, b, left, right) {
        return false;
    }
    same_cells(a, b, left, right)
}

// Whether the roots of two graphs say the same.
fn same_roots(a: &FlatGraph, b: &FlatGraph, left: &Order, right: &Order) -> bool
    requires { length a.now.roots ≡ length b.now.roots }
    ensures { Decides result (AreSameRoots (numbers_by left.now.numbers.items) (numbers_by right.now.numbers.items) a.now b.now) }
{
    for at in 0..a.root_count() {
        let mut mine = a.root_walk(at);
        let mut other = b.root_walk(at);
        if !same_nodes(&mut mine, &mut other, left, right) {
            return false;
        }
    }
    true
}

// Whether the cells of two graphs that have one number say the same.
fn same_cells(a: &FlatGraph, b: &FlatGraph, left: &Order, right: &Order) -> bool
    requires left { IsOrder a.now left.now.numbers.items left.now.cells.items }
    requires right { IsOrder b.now right.now.numbers.items right.now.cells.items }
    requires all { length a.now.cells ≡ length b.now.cells }
    ensures { Decides result (AreSameCells (numbers_by left.now.numbers.items) (numbers_by right.now.numbers.items) a.now b.now
        left.now.cells.items right.now.cells.items) }
{
    for at in 0..a.cell_count() {
        let mine = left.cells[at];
        let other = right.cells[at];
        if !same_cell(a, b, left, right, CellId(mine), CellId(other)) {
            return false;
        }
    }
    true
}

// Whether two cells are of one type and say the same.
fn same_cell(
    a: &FlatGraph,
    b: &FlatGraph,
    left: &Order,
    right: &Order,
    mine: CellId,
    other: CellId,
) -> bool
    requires mine { (0 < mine.0) × (mine.0 ≤ length a.now.cells) }
    requires other { (0 < other.0) × (other.0 ≤ length b.now.cells) }
    ensures { Decides result (IsSameCell (numbers_by left.now.numbers.items) (numbers_by right.now.numbers.items) a.now b.now mine.0 other.0) }
{
    let at = mine.0 as usize - 1;
    let beside = other.0 as usize - 1;
    if a.cell_type(at).0 != b.cell_type(beside).0 {
        return false;
    }
    let mut mine = a.cell_walk(at);
    let mut other = b.cell_walk(beside);
    same_nodes(&mut mine, &mut other, left, right)
}

// Whether the nodes of two walks say the same, one after the other.
fn same_nodes(a: &mut Walk<'_>, b: &mut Walk<'_>, left: &Order, right: &Order) -> bool
    ensures { Decides result (renumbered_flats (numbers_by left.now.numbers.items) (flat a.old)
        ≡ renumbered_flats (numbers_by right.now.numbers.items) (flat b.old)) }
{
    while let Some(node) = a.step() {
        let Some(other) = b.step() else {
            return false;
        };
        if !same_node(&node, &other, left, right) {
            return false;
        }
    }
    b.step().is_none()
}

// Whether two nodes say the same.
fn same_node(a: &Seen<'_>, b: &Seen<'_>, left: &Order, right: &Order) -> bool
    ensures { Decides result (renumbered_flat (numbers_by left.now.numbers.items) (flat_seen a.now)
        ≡ renumbered_flat (numbers_by right.now.numbers.items) (flat_seen b.now)) }
{
    let Some(mine) = a.named_cell() else {
        return a == b;
    };
    let Some(other) = b.named_cell() else {
        return false;
    };
    number_of(left, mine) == number_of(right, other)
}

// The number of a cell; 0 if it has none.
fn number_of(order: &Order, cell: CellId) -> u32
    ensures { result ≡ numbers_by order.now.numbers.items cell.0 }
{
    let at = cell.0 as usize;
    if at < order.numbers.as_slice().len() {
        order.numbers[at]
    } else {
        0
    }
}
