// The order in which the cells of a graph are named.
ghost use Rattle.std.specs.Prelude.{◌≡◌, ◌+◌, ◌-◌, ◌<◌, ◌^◌, ◌++◌, [], false, length, replicate, reverse, OnOk, IfOk};
ghost use Rattle.nd_value.specs.Seen.{cell_number};
ghost use Rattle.nd_value.specs.Canon.{target};
ghost use Rattle.nd_value.specs.Names.{HasNames, cells_in, named_by};
ghost use Rattle.nd_flat.specs.Building.{HasHome, home_tree};
ghost use Rattle.nd_graph.specs.Naming.{cell_homes, root_homes};
ghost use Rattle.nd_graph.specs.Order.{IsOrder, IsAllNamed, numbering, name, ordering, visited, is_deferred, with_mark, HaveNumbers, HasMark};

use nd_base::Memory;
use nd_flat::{FlatGraph, PlainWalk, Walk};
use nd_value::{CellId, Home};
use std::alloc::Global;

// The numbers of cells in the order in which they are named, by the cell, from 0, and 0 for one that is not named yet; and the
// cells by these numbers, from 1.
#[derive(Drop)]
pub(crate) struct Order {
    pub(crate) numbers: Vec<u32>,
    pub(crate) cells: Vec<u32>,
}

// The order of all cells of a graph.
pub(crate) fn order_of(alloc: Global, graph: &FlatGraph) -> Result<Order, Memory>
    requires few_roots { length graph.now.roots < 2 ^ 32 }
    requires few_cells { length graph.now.cells < 2 ^ 32 }
    requires names { HasNames graph.now }
    requires all { IsAllNamed graph.now }
    ensures { IfOk result (λ o. IsOrder graph.now o.numbers.items o.cells.items) }
{
    let mut order = unnamed(alloc, graph.cell_count())?;
    let mut stands = none_stands(alloc, graph.cell_count())?;
    let mut met = Vec::new(alloc);
    let mut due = roots(alloc, graph.root_count())?;
    while let Some(home) = due.pop() {
        visit(graph, home, &mut order, &mut stands, &mut met, &mut due)?;
    }
    Ok(order)
}

// No cell is named.
fn unnamed(alloc: Global, count: usize) -> Result<Order, Memory>
    requires { count < 2 ^ 32 }
    ensures numbers { IfOk result (λ o. o.numbers.items ≡ replicate (count + 1) 0) }
    ensures cells { IfOk result (λ o. o.cells.items ≡ []) }
{
    Ok(Order {
        numbers: vec![in alloc; 0; count + 1]?,
        cells: Vec::new(alloc),
    })
}

// No cell stands.
fn none_stands(alloc: Global, count: usize) -> Result<Vec<bool>, Memory>
    ensures { IfOk result (λ stands. stands.items ≡ replicate count false) }
{
    Ok(vec![in alloc; false; count]?)
}

// All roots, the first one last.
fn roots(alloc: Global, count: usize) -> Result<Vec<Home>, Memory>
    requires { count < 2 ^ 32 }
    ensures { IfOk result (λ due. reverse due.items ≡ root_homes 0 count) }
{
    let mut due = Vec::new(alloc);
    for at in (0..count).rev() {
        let Ok(()) = due.push(Home::Root(at as u32)) else {
            return Err(Memory);
        };
    }
    Ok(due)
}

// Visits a home that is due: unless it stands already, it names the cells of its pointers, which become due, the first one last.
fn visit(
    graph: &FlatGraph,
    home: Home,
    order: &mut Order,
    stands: &mut Vec<bool>,
    met: &mut Vec<u32>,
    due: &mut Vec<Home>,
) -> Result<(), Memory>
    requires home { HasHome graph.now home }
    requires numbers { HaveNumbers order.old.numbers.items order.old.cells.items (named_by (home_tree graph.now home)) }
    requires mark { HasMark stands.old.items home }
    requires met { met.old.items ≡ [] }
    ensures visited { OnOk result (ordering order.new.numbers.items order.new.cells.items stands.new.items due.new.items
        ≡ visited graph.now home (ordering order.old.numbers.items order.old.cells.items stands.old.items due.old.items)) }
    ensures met { OnOk result (met.new.items ≡ []) }
{
    if !comes_to_stand(home, stands) {
        return Ok(());
    }
    name_home(graph, home, order, met)?;
    make_due(met, due)
}

// Marks a home as one that stands. Whether it did not stand before; a root never did.
fn comes_to_stand(home: Home, stands: &mut Vec<bool>) -> bool
    requires { HasMark stands.old.items home }
    ensures deferred { result ≡ is_deferred stands.old.items home }
    ensures mark { stands.new.items ≡ with_mark home stands.old.items }
{
    match home {
        Home::Root(_at) => true,
        Home::Cell(cell) => {
            let at = cell.0 as usize - 1;
            let stood = stands[at];
            stands[at] = true;
            !stood
        }
    }
}

// The cells that a home names are named in order, and listed.
fn name_home(
    graph: &FlatGraph,
    home: Home,
    order: &mut Order,
    met: &mut Vec<u32>,
) -> Result<(), Memory>
    requires home { HasHome graph.now home }
    requires numbers { HaveNumbers order.old.numbers.items order.old.cells.items (named_by (home_tree graph.now home)) }
    ensures order { OnOk result (numbering order.new.numbers.items order.new.cells.items
        ≡ name (named_by (home_tree graph.now home)) (numbering order.old.numbers.items order.old.cells.items)) }
    ensures met { OnOk result (met.new.items ≡ met.old.items ++ named_by (home_tree graph.now home)) }
{
    let mut plain = graph.plain_walk(home);
    name_plain(&mut plain, order, met)?;
    let mut walk = plain.walk();
    name_all(&mut walk, order, met)
}

// The same of the cells that a walk meets as long as it gives nodes.
fn name_plain(walk: &mut PlainWalk<'_>, order: &mut Order, met: &mut Vec<u32>) -> Result<(), Memory>
    requires { HaveNumbers order.old.numbers.items order.old.cells.items (cells_in walk.old) }
    ensures have { OnOk result (HaveNumbers order.new.numbers.items order.new.cells.items (cells_in walk.new)) }
    ensures order { OnOk result (name (cells_in walk.new) (numbering order.new.numbers.items order.new.cells.items)
        ≡ name (cells_in walk.old) (numbering order.old.numbers.items order.old.cells.items)) }
    ensures met { OnOk result (met.new.items ++ cells_in walk.new ≡ met.old.items ++ cells_in walk.old) }
{
    while let Some(cell) = walk.next_cell() {
        name_one(cell, order, met)?;
    }
    Ok(())
}

// The cells that a walk meets are named in order, and listed.
fn name_all(walk: &mut Walk<'_>, order: &mut Order, met: &mut Vec<u32>) -> Result<(), Memory>
    requires { HaveNumbers order.old.numbers.items order.old.cells.items (cells_in walk.old) }
    ensures order { OnOk result (numbering order.new.numbers.items order.new.cells.items
        ≡ name (cells_in walk.old) (numbering order.old.numbers.items order.old.cells.items)) }
    ensures met { OnOk result (met.new.items ≡ met.old.items ++ cells_in walk.old) }
{
    while let Some(cell) = walk.next_cell() {
        name_one(cell, order, met)?;
    }
    Ok(())
}

// Cells become due, the first one last.
fn make_due(met: &mut Vec<u32>, due: &mut Vec<Home>) -> Result<(), Memory>
    ensures met { OnOk result (met.new.items ≡ []) }
    ensures due { OnOk result (due.new.items ≡ due.old.items ++ reverse (cell_homes met.old.items)) }
{
    while let Some(cell) = met.pop() {
        let Ok(()) = due.push(Home::Cell(CellId(cell))) else {
            return Err(Memory);
        };
    }
    Ok(())
}

// A cell is named, if one is given: it is listed, and has the next number unless it has one.
fn name_one(cell: Option<CellId>, order: &mut Order, met: &mut Vec<u32>) -> Result<(), Memory>
    requires { HaveNumbers order.old.numbers.items order.old.cells.items (target (cell_number cell)) }
    ensures order { OnOk result (numbering order.new.numbers.items order.new.cells.items
        ≡ name (target (cell_number cell)) (numbering order.old.numbers.items order.old.cells.items)) }
    ensures met { OnOk result (met.new.items ≡ met.old.items ++ target (cell_number cell)) }
{
    let Some(cell) = cell else {
        return Ok(());
    };
    let Ok(()) = met.push(cell.0) else {
        return Err(Memory);
    };
    number(cell, order)
}

// A cell has the next number, unless it has one.
fn number(cell: CellId, order: &mut Order) -> Result<(), Memory>
    requires { HaveNumbers order.old.numbers.items order.old.cells.items (target (Some cell.0)) }
    ensures { OnOk result (numbering order.new.numbers.items order.new.cells.items
        ≡ name (target (Some cell.0)) (numbering order.old.numbers.items order.old.cells.items)) }
{
    let at = cell.0 as usize;
    if order.numbers[at] != 0 {
        return Ok(());
    }
    let Ok(()) = order.cells.push(cell.0) else {
        return Err(Memory);
    };
    order.numbers[at] = order.cells.as_slice().len() as u32;
    Ok(())
}
