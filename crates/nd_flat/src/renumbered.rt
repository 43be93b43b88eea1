// Graphs with their cells renumbered.
ghost use Rattle.std.specs.Prelude.{◌≡◌, length, map, slice_index_or, IfOk};
ghost use Rattle.nd_value.specs.Names.{AreThere};
ghost use Rattle.nd_flat.specs.Renumbered.{renumbered_graph};
ghost use Rattle.nd_flat.specs.RenumberedNodes.{renumbered_node as renumbered_one, cell_span};

use crate::FlatGraph;
use crate::flat::{CellSpan, Span};
use crate::node::Node;
use nd_base::{Memory, Octets};
use nd_value::CellId;
use smallvec::SmallVec;
use std::alloc::Global;

impl FlatGraph {
    /// The graph with its cells renumbered: `numbers` are the new numbers by the old ones, from 0, and `cells` the old numbers in the
    /// order of the new ones, from 1. The listed cells must be there; a pointer to a cell that has no number gets 0. It takes memory
    /// for all nodes, octets, roots and cells. Out of memory is the only refusal.
    pub fn renumbered(
        &self,
        alloc: Global,
        numbers: &[u32],
        cells: &[u32],
    ) -> Result<FlatGraph, Memory>
        requires { AreThere (length self.now.cells) cells.now }
        ensures { IfOk result (λ g. g ≡ renumbered_graph numbers.now cells.now self.now) }
    {
        let nodes = renumbered_nodes(alloc, self.nodes.as_slice(), numbers)?;
        let octets = Octets::copy(alloc, self.octets.as_slice())?;
        let roots = SmallVec::from_slice(alloc, self.roots.as_slice())?;
        let cells = spans(alloc, self.cells.as_slice(), cells)?;
        Ok(FlatGraph {
            nodes,
            octets,
            roots,
            cells,
        })
    }
}

// The nodes with each pointer's cell renumbered.
fn renumbered_nodes(alloc: Global, nodes: &[Node], numbers: &[u32]) -> Result<Vec<Node>, Memory>
    ensures { IfOk result (λ ns. ns.items ≡ map (renumbered_one numbers.now) nodes.now) }
{
    let mut renumbered = Vec::new(alloc);
    for node in nodes {
        let Ok(()) = renumbered.push(renumbered_node(node, numbers)) else {
            return Err(Memory);
        };
    }
    Ok(renumbered)
}

// A node with its cell renumbered, if it names one.
fn renumbered_node(node: &Node, numbers: &[u32]) -> Node
    ensures { result ≡ renumbered_one numbers.now node.now }
{
    match node {
        Node::Ptr(cell) => Node::Ptr(CellId(number_of(*cell, numbers))),
        _ => *node,
    }
}

// The new number of a cell; 0 if it has none.
fn number_of(cell: CellId, numbers: &[u32]) -> u32
    ensures { result ≡ slice_index_or numbers.now cell.0 0 }
{
    let at = cell.0 as usize;
    if at < numbers.len() { numbers[at] } else { 0 }
}

// The spans of the cells with these numbers.
fn spans(alloc: Global, spans: &[CellSpan], cells: &[u32]) -> Result<Vec<CellSpan>, Memory>
    requires { AreThere (length spans.now) cells.now }
    ensures { IfOk result (λ found. found.items ≡ map (cell_span spans.now) cells.now) }
{
    let mut found = Vec::new(alloc);
    for cell in cells {
        let Ok(()) = found.push(spans[*cell as usize - 1]) else {
            return Err(Memory);
        };
    }
    Ok(found)
}
