// The graphs that are measured.
ghost use Rattle.std.specs.Prelude.{◌≡◌, ◌<◌, ◌^◌, [], ◌∷◌, length, IfOk};
ghost use Rattle.nd_value.specs.Conforms.{HasFewNodes};
ghost use Rattle.nd_value.specs.Seen.{cell_of};
ghost use Rattle.bench_graph.specs.List.{IsNode, AreNodes, AreLeaves, to_first, number, array, one_leaf};

use nd_base::Memory;
use nd_graph::{Cell, CellId, Cells, Graph, Val, Vals};
use nd_types::TypeId;
use std::alloc::Global;

// A list of cells: so many, of which each of the first `named` names the next, and the last has this number.
#[derive(Clone, Copy)]
pub(crate) struct Form {
    pub(crate) count: u32,
    pub(crate) named: u32,
    pub(crate) last: i128,
}

// A pointer to the first cell, and a list of this form.
#[tactic(auto, using(crate::proofs::ListNodes::few_nodes))]
pub(crate) fn list(alloc: Global, form: Form) -> Result<Graph, Memory>
    ensures cells { IfOk result (λ g. length g.cells ≡ form.count) }
    ensures few { IfOk result (λ g. HasFewNodes g) }
{
    let roots = head(alloc)?;
    let cells = cells(alloc, form)?;
    Ok(Graph { roots, cells })
}

// A pointer to the first cell.
fn head(alloc: Global) -> Result<Vals, Memory>
    ensures { IfOk result (λ vs. vs ≡ to_first ∷ []) }
{
    let mut vals = Vals::new(alloc);
    let Ok(()) = vals.push(Val::Ptr(Some(CellId(1)))) else {
        return Err(Memory);
    };
    Ok(vals)
}

#[tactic(auto, using(crate::proofs::ListNodes::more_nodes))]
fn cells(alloc: Global, form: Form) -> Result<Cells, Memory>
    ensures count { IfOk result (λ cs. length cs ≡ form.count) }
    ensures nodes { IfOk result (λ cs. AreNodes cs) }
{
    let mut cells = Cells::new(alloc);
    for at in 0..form.count {
        let cell = cell(alloc, at, form)?;
        let Ok(()) = cells.push(cell) else {
            return Err(Memory);
        };
    }
    Ok(cells)
}

// The cell at a place, from 0.
fn cell(alloc: Global, at: u32, form: Form) -> Result<Cell, Memory>
    requires { at < form.count }
    ensures { IfOk result (λ c. IsNode (cell_of c)) }
{
    let next = if at + 1 < form.named {
        Some(CellId(at + 2))
    } else {
        None
    };
    let value = if at + 1 < form.count { 1 } else { form.last };
    let mut members = Vals::new(alloc);
    if members.push(Val::Num(value)).is_err() || members.push(Val::Ptr(next)).is_err() {
        return Err(Memory);
    }
    Ok(Cell {
        of: TypeId(12),
        val: Val::Rec(members),
    })
}

// So many pointers to one cell.
#[tactic(auto, using(crate::proofs::ListNodes::few_leaves))]
pub(crate) fn pointers(alloc: Global, count: u32) -> Result<Graph, Memory>
    requires { count < 2 ^ 31 }
    ensures cells { IfOk result (λ g. length g.cells ≡ 1) }
    ensures few { IfOk result (λ g. HasFewNodes g) }
{
    let items = leaves(alloc, count)?;
    let roots = counted(alloc, count, items)?;
    let cells = leaf(alloc)?;
    Ok(Graph { roots, cells })
}

// A count, and an array of as many elements.
fn counted(alloc: Global, count: u32, items: Vals) -> Result<Vals, Memory>
    ensures { IfOk result (λ vs. vs ≡ number count ∷ array count items ∷ []) }
{
    let array = Val::Arr {
        max: count,
        offset: 0,
        items,
    };
    let mut vals = Vals::new(alloc);
    if vals.push(Val::Num(i128::from(count))).is_err() || vals.push(array).is_err() {
        return Err(Memory);
    }
    Ok(vals)
}

// One cell, a number.
fn leaf(alloc: Global) -> Result<Cells, Memory>
    ensures { IfOk result (λ cs. cs ≡ one_leaf ∷ []) }
{
    let cell = Cell {
        of: TypeId(7),
        val: Val::Num(5),
    };
    let mut cells = Cells::new(alloc);
    let Ok(()) = cells.push(cell) else {
        return Err(Memory);
    };
    Ok(cells)
}

// So many pointers to the first cell, as elements.
#[tactic(auto, using(crate::proofs::ListNodes::more_leaves))]
fn leaves(alloc: Global, count: u32) -> Result<Vals, Memory>
    ensures { IfOk result (λ vs. AreLeaves vs count) }
{
    let mut items = Vals::new(alloc);
    for _at in 0..count {
        let Ok(()) = items.push(Val::Ptr(Some(CellId(1)))) else {
            return Err(Memory);
        };
    }
    Ok(items)
}
