// Which cells are reached: the third pass of a fit.
ghost use Rattle.std.specs.Prelude.{◌≡◌, ◌+◌, ◌<◌, ◌≤◌, ◌^◌, ◌++◌, true, false, length, replicate, slice_index_or, suc};
ghost use Rattle.std.specs.Prelude.{Option, OnOk, IfOk, MatchOption};
ghost use Rattle.nd_value.specs.Seen.{cell_number};
ghost use Rattle.nd_value.specs.Canon.{target};
ghost use Rattle.nd_value.specs.Names.{cells_in, named_by, HasNames};
ghost use Rattle.nd_flat.specs.Building.{HasHome, home_tree};
ghost use Rattle.nd_fit.specs.Reach.{searched, note, note_roots, HaveMarks, Searching, TellsMark, TellsReach};

use nd_base::Memory;
use nd_flat::{FlatGraph, PlainWalk, Walk};
use nd_value::{CellId, Home};
use std::alloc::Global;

// The first cell that is not reached, if one is not. It takes memory for a mark and a number for each cell, and looks at each node once.
pub(crate) fn unreached(alloc: Global, graph: &FlatGraph) -> Result<Option<CellId>, Memory>
    requires few_roots { length graph.now.roots < 2 ^ 32 }
    requires few_cells { length graph.now.cells < 2 ^ 32 }
    requires names { HasNames graph.now }
    ensures { IfOk result (λ c. TellsReach graph.now c) }
{
    let mut marks = unmarked(alloc, graph.cell_count() + 1)?;
    let mut queue = Vec::new(alloc);
    from_roots(graph, &mut marks, &mut queue)?;
    from_cells(graph, &mut marks, &mut queue)?;
    Ok(first_unmarked(graph.cell_count(), &marks))
}

// No cell is marked.
fn unmarked(alloc: Global, count: usize) -> Result<Vec<bool>, Memory>
    ensures { IfOk result (λ marks. marks.items ≡ replicate count false) }
{
    Ok(vec![in alloc; false; count]?)
}

// Marks the cells that the roots name.
fn from_roots(graph: &FlatGraph, marks: &mut Vec<bool>, queue: &mut Vec<u32>) -> Result<(), Memory>
    requires few_roots { length graph.now.roots < 2 ^ 32 }
    requires names { HasNames graph.now }
    requires marks { length marks.old.items ≡ suc (length graph.now.cells) }
    ensures { OnOk result (searched marks.new.items queue.new.items ≡ note_roots graph.now.roots (searched marks.old.items queue.old.items)) }
{
    for at in 0..graph.root_count() {
        note_home(graph, Home::Root(at as u32), marks, queue)?;
    }
    Ok(())
}

// Marks the cells that the cells in the queue name, which join it.
fn from_cells(graph: &FlatGraph, marks: &mut Vec<bool>, queue: &mut Vec<u32>) -> Result<(), Memory>
    requires few_cells { length graph.now.cells < 2 ^ 32 }
    requires names { HasNames graph.now }
    requires begun { Searching graph.now graph.now.roots (searched marks.old.items queue.old.items) 0 }
    ensures { OnOk result (Searching graph.now graph.now.roots (searched marks.new.items queue.new.items) (length queue.new.items)) }
{
    for at in 0..graph.cell_count() + 1 {
        let Some(cell) = item(queue.as_slice(), at) else {
            return Ok(());
        };
        note_home(graph, Home::Cell(CellId(cell)), marks, queue)?;
    }
    Ok(())
}

// An item of a list.
fn item(list: &[u32], at: usize) -> Option<u32>
    ensures { MatchOption result (length list.now ≤ at) (λ c. (at < length list.now) × (c ≡ slice_index_or list.now at 0)) }
{
    if at < list.len() {
        Some(list[at])
    } else {
        None
    }
}

// Marks the cells that a home names.
fn note_home(
    graph: &FlatGraph,
    home: Home,
    marks: &mut Vec<bool>,
    queue: &mut Vec<u32>,
) -> Result<(), Memory>
    requires there { HasHome graph.now home }
    requires have { HaveMarks marks.old.items (named_by (home_tree graph.now home)) }
    ensures { OnOk result (searched marks.new.items queue.new.items
        ≡ note (named_by (home_tree graph.now home)) (searched marks.old.items queue.old.items)) }
{
    let mut plain = graph.plain_walk(home);
    note_plain(&mut plain, marks, queue)?;
    let mut walk = plain.walk();
    note_all(&mut walk, marks, queue)
}

// Marks the cells that a walk meets as long as it gives nodes.
fn note_plain(
    walk: &mut PlainWalk<'_>,
    marks: &mut Vec<bool>,
    queue: &mut Vec<u32>,
) -> Result<(), Memory>
    requires { HaveMarks marks.old.items (cells_in walk.old) }
    ensures have { OnOk result (HaveMarks marks.new.items (cells_in walk.new)) }
    ensures left { OnOk result (note (cells_in walk.new) (searched marks.new.items queue.new.items)
        ≡ note (cells_in walk.old) (searched marks.old.items queue.old.items)) }
{
    while let Some(cell) = walk.next_cell() {
        note_one(cell, marks, queue)?;
    }
    Ok(())
}

// Marks the cells that a walk meets.
fn note_all(walk: &mut Walk<'_>, marks: &mut Vec<bool>, queue: &mut Vec<u32>) -> Result<(), Memory>
    requires { HaveMarks marks.old.items (cells_in walk.old) }
    ensures { OnOk result (searched marks.new.items queue.new.items ≡ note (cells_in walk.old) (searched marks.old.items queue.old.items)) }
{
    while let Some(cell) = walk.next_cell() {
        note_one(cell, marks, queue)?;
    }
    Ok(())
}

// Marks a cell, if one is given.
fn note_one(cell: Option<CellId>, marks: &mut Vec<bool>, queue: &mut Vec<u32>) -> Result<(), Memory>
    requires { HaveMarks marks.old.items (target (cell_number cell)) }
    ensures { OnOk result (searched marks.new.items queue.new.items ≡ note (target (cell_number cell)) (searched marks.old.items queue.old.items)) }
{
    let Some(cell) = cell else {
        return Ok(());
    };
    let at = cell.0 as usize;
    if marks[at] {
        return Ok(());
    }
    let Ok(()) = queue.push(cell.0) else {
        return Err(Memory);
    };
    marks[at] = true;
    Ok(())
}

// The first cell that is not marked.
fn first_unmarked(count: usize, marks: &[bool]) -> Option<CellId>
    requires few { count < 2 ^ 32 }
    requires marks { length marks.now ≡ suc count }
    ensures { TellsMark count marks.now result }
{
    for at in 0..count {
        if !marks[at + 1] {
            return Some(CellId(at as u32 + 1));
        }
    }
    None
}
