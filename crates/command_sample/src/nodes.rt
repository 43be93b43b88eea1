// The nodes of the sample, as they are drawn.
ghost use Rattle.std.specs.Prelude.{◌≡◌, ◌≤◌, ◌<◌, ◌^◌, ◌∷◌, [], length, IfOk};
ghost use Rattle.nd_value.specs.Seen.{cell_of, tree_of};
ghost use Rattle.command_sample.specs.Nodes.{next_state, pointer_to, left, right, sample_node, sample_nodes, sample_graph};

use nd_base::Memory;
use nd_types::TypeId;
use nd_value::{Cell, CellId, Cells, Graph, Val, Vals};
use std::alloc::Global;

/// The graph of the sample: `count` nodes, drawn from a seed. Each node has a value below 1000, names the next one on its left and any one on its
/// right, and the root is the first. Takes memory for it; out of memory is the only refusal.
pub fn graph(alloc: Global, seed: u32, count: u32) -> Result<Graph, Memory>
    requires some { 1 ≤ count }
    ensures { IfOk result (λ g. g ≡ sample_graph seed count) }
{
    let mut roots = Vals::new(alloc);
    let Ok(()) = roots.push(Val::Ptr(Some(CellId(1)))) else {
        return Err(Memory);
    };
    let cells = nodes(alloc, seed, count)?;
    Ok(Graph { roots, cells })
}

// The nodes in the order of their numbers, from 1.
fn nodes(alloc: Global, seed: u32, count: u32) -> Result<Cells, Memory>
    requires some { 1 ≤ count }
    ensures { IfOk result (λ cells. cells ≡ sample_nodes count 1 count seed) }
{
    let mut cells = Cells::new(alloc);
    let mut state = seed;
    for at in 0..count {
        let value = next(state);
        state = next(value);
        let cell = node(alloc, at + 1, count, value, state)?;
        let Ok(()) = cells.push(cell) else {
            return Err(Memory);
        };
    }
    Ok(cells)
}

// The node of a number, of so many, by the two states that are drawn for it.
fn node(alloc: Global, number: u32, count: u32, value: u32, other: u32) -> Result<Cell, Memory>
    requires some { 1 ≤ number }
    requires among { number ≤ count }
    ensures { IfOk result (λ c. cell_of c ≡ sample_node count number value other) }
{
    let next = if number < count {
        Some(CellId(number + 1))
    } else {
        None
    };
    let mut members = Vals::new(alloc);
    if members.push(Val::Num(i128::from(value % 1000))).is_err()
        || members.push(Val::Ptr(next)).is_err()
        || members
            .push(Val::Ptr(Some(CellId(1 + (other / 65_536) % count))))
            .is_err()
    {
        return Err(Memory);
    }
    Ok(Cell {
        of: TypeId(12),
        val: Val::Rec(members),
    })
}

// The state after a state.
fn next(state: u32) -> u32
    ensures { result ≡ next_state state }
{
    ((u64::from(state) * 69_069 + 1) % 4_294_967_296) as u32
}
