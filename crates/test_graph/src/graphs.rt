// The graphs of the rows.
ghost use Rattle.std.specs.Prelude.{◌≡◌, ◌++◌, [], ◌∷◌, IfOk, OnOk};
ghost use Rattle.nd_value.specs.Seen.{tree_of};
ghost use Rattle.test_graph.specs.Built.{pair_graph};
ghost use Rattle.test_graph.specs.Graphs as rows;
ghost use Rattle.test_graph.specs.Graphs.{cell, graph, of_two};

use nd_base::{Memory, Octets};
use nd_graph::{Cell, CellId, Cells, Graph, Val, Vals};
use nd_types::TypeId;
use std::alloc::Global;

fn to(cell: u32) -> Val
    ensures { tree_of result ≡ rows.pointer_to cell }
{
    Val::Ptr(Some(CellId(cell)))
}

fn one(alloc: Global, first: Val) -> Result<Vals, Memory>
    ensures { IfOk result (λ vs. vs ≡ tree_of first ∷ []) }
{
    let mut vals = Vals::new(alloc);
    let Ok(()) = vals.push(first) else {
        return Err(Memory);
    };
    Ok(vals)
}

fn both(alloc: Global, first: Val, second: Val) -> Result<Vals, Memory>
    ensures { IfOk result (λ vs. vs ≡ tree_of first ∷ tree_of second ∷ []) }
{
    let mut vals = Vals::new(alloc);
    if vals.push(first).is_err() || vals.push(second).is_err() {
        return Err(Memory);
    }
    Ok(vals)
}

fn add_cell(cells: &mut Cells, of: u32, val: Val) -> Result<(), Memory>
    ensures { OnOk result (cells.new ≡ cells.old ++ cell of (tree_of val) ∷ []) }
{
    let of = TypeId(of);
    let Ok(()) = cells.push(Cell { of, val }) else {
        return Err(Memory);
    };
    Ok(())
}

// A graph of one root and no cell.
fn of_root(alloc: Global, root: Val) -> Result<Graph, Memory>
    ensures { IfOk result (λ g. g ≡ graph (tree_of root ∷ []) []) }
{
    Ok(Graph {
        roots: one(alloc, root)?,
        cells: Cells::new(alloc),
    })
}

// A graph of a pointer to one cell.
fn of_cell(alloc: Global, of: u32, val: Val) -> Result<Graph, Memory>
    ensures { IfOk result (λ g. g ≡ graph (rows.pointer_to 1 ∷ []) (cell of (tree_of val) ∷ [])) }
{
    let mut cells = Cells::new(alloc);
    add_cell(&mut cells, of, val)?;
    let roots = one(alloc, to(1))?;
    Ok(Graph { roots, cells })
}

// A pair of values as a struct.
fn pair_of(alloc: Global, first: Val, second: Val) -> Result<Val, Memory>
    ensures { IfOk result (λ v. tree_of v ≡ of_two (tree_of first) (tree_of second)) }
{
    Ok(Val::Rec(both(alloc, first, second)?))
}

pub(crate) fn null(alloc: Global) -> Result<Graph, Memory>
    ensures { IfOk result (λ g. g ≡ graph (rows.null ∷ []) []) }
{
    of_root(alloc, Val::Ptr(None))
}

pub(crate) fn without_cells(alloc: Global) -> Result<Graph, Memory>
    ensures { IfOk result (λ g. g ≡ graph (rows.pointer_to 1 ∷ []) []) }
{
    of_root(alloc, to(1))
}

pub(crate) fn ring_of_one(alloc: Global) -> Result<Graph, Memory>
    ensures { IfOk result (λ g. g ≡ rows.ring_of_one) }
{
    let node = pair_of(alloc, Val::Num(7), to(1))?;
    of_cell(alloc, 12, node)
}

pub(crate) fn ring_of_two(alloc: Global) -> Result<Graph, Memory>
    ensures { IfOk result (λ g. g ≡ rows.ring_of_two) }
{
    let mut cells = Cells::new(alloc);
    add_cell(&mut cells, 12, pair_of(alloc, Val::Num(7), to(2))?)?;
    add_cell(&mut cells, 12, pair_of(alloc, Val::Num(8), to(1))?)?;
    let roots = one(alloc, to(1))?;
    Ok(Graph { roots, cells })
}

pub(crate) fn ring_swapped(alloc: Global) -> Result<Graph, Memory>
    ensures { IfOk result (λ g. g ≡ rows.ring_swapped) }
{
    let mut cells = Cells::new(alloc);
    add_cell(&mut cells, 12, pair_of(alloc, Val::Num(8), to(2))?)?;
    add_cell(&mut cells, 12, pair_of(alloc, Val::Num(7), to(1))?)?;
    let roots = one(alloc, to(2))?;
    Ok(Graph { roots, cells })
}

pub(crate) fn ring_and_leaf(alloc: Global) -> Result<Graph, Memory>
    ensures { IfOk result (λ g. g ≡ rows.ring_and_leaf) }
{
    let mut cells = Cells::new(alloc);
    add_cell(&mut cells, 12, pair_of(alloc, Val::Num(7), to(1))?)?;
    add_cell(&mut cells, 14, Val::Rec(one(alloc, Val::Num(8))?))?;
    let roots = one(alloc, to(1))?;
    Ok(Graph { roots, cells })
}

// A pair: its first pointer is to a struct of two pointers to leaves 5 and 6, and its second to the leaf 5 too.
pub(crate) fn pair(alloc: Global) -> Result<Graph, Memory>
    ensures { IfOk result (λ g. g ≡ pair_graph) }
{
    let mut cells = Cells::new(alloc);
    add_cell(&mut cells, 18, pair_of(alloc, to(2), to(3))?)?;
    add_cell(&mut cells, 16, pair_of(alloc, to(3), to(4))?)?;
    add_cell(&mut cells, 14, Val::Rec(one(alloc, Val::Num(5))?))?;
    add_cell(&mut cells, 14, Val::Rec(one(alloc, Val::Num(6))?))?;
    let roots = one(alloc, to(1))?;
    Ok(Graph { roots, cells })
}

pub(crate) fn apart(alloc: Global) -> Result<Graph, Memory>
    ensures { IfOk result (λ g. g ≡ rows.apart) }
{
    let mut cells = Cells::new(alloc);
    add_cell(&mut cells, 7, Val::Num(5))?;
    add_cell(&mut cells, 7, Val::Num(5))?;
    let roots = both(alloc, to(1), to(2))?;
    Ok(Graph { roots, cells })
}

pub(crate) fn shared(alloc: Global) -> Result<Graph, Memory>
    ensures { IfOk result (λ g. g ≡ rows.shared) }
{
    let mut cells = Cells::new(alloc);
    add_cell(&mut cells, 7, Val::Num(5))?;
    let roots = both(alloc, to(1), to(1))?;
    Ok(Graph { roots, cells })
}

pub(crate) fn miscounted(alloc: Global) -> Result<Graph, Memory>
    ensures { IfOk result (λ g. g ≡ rows.miscounted) }
{
    let items = both(alloc, Val::Num(1), Val::Num(2))?;
    let array = Val::Arr {
        max: 2,
        offset: 0,
        items,
    };
    let val = pair_of(alloc, Val::Num(3), array)?;
    of_cell(alloc, 22, val)
}

pub(crate) fn zero_within(alloc: Global) -> Result<Graph, Memory>
    ensures { IfOk result (λ g. g ≡ rows.zero_within) }
{
    let octets = Octets::copy(alloc, b"h\0")?;
    of_cell(alloc, 24, Val::Text { max: 3, octets })
}

pub(crate) fn two_back(alloc: Global) -> Result<Graph, Memory>
    ensures { IfOk result (λ g. g ≡ rows.two_back) }
{
    let items = both(alloc, Val::Num(171), Val::Num(205))?;
    let array = Val::Arr {
        max: 2,
        offset: 0,
        items,
    };
    of_root(alloc, array)
}

pub(crate) fn one_back(alloc: Global, number: u32) -> Result<Graph, Memory>
    ensures { IfOk result (λ g. g ≡ rows.one_back number) }
{
    let items = one(alloc, Val::Num(7))?;
    let array = Val::Arr {
        max: 1,
        offset: 0,
        items,
    };
    let mut cells = Cells::new(alloc);
    add_cell(&mut cells, 8, Val::Num(i128::from(number)))?;
    let roots = both(alloc, to(1), array)?;
    Ok(Graph { roots, cells })
}

pub(crate) fn asked(alloc: Global, number: u32) -> Result<Graph, Memory>
    ensures { IfOk result (λ g. g ≡ rows.asked number) }
{
    of_root(alloc, Val::Num(i128::from(number)))
}

pub(crate) fn asked_by_pointer(alloc: Global, number: u32) -> Result<Graph, Memory>
    ensures { IfOk result (λ g. g ≡ rows.asked_by_pointer number) }
{
    of_cell(alloc, 8, Val::Num(i128::from(number)))
}
