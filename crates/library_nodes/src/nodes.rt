// The nodes of all values of a graph.
ghost use Rattle.std.specs.Prelude.{◌≡◌, ◌+◌, [], IfOk, OnOk};
ghost use Rattle.std.specs.List.{slice_get};
ghost use Rattle.library_nodes.specs.Listed.{IsListOf, root_start, cell_start};

use crate::laying::{lay_cells, lay_roots};
use crate::node::Node;
use nd_base::{Memory, Octets};
use nd_flat::FlatGraph;
use std::alloc::Global;

/// Nodes, with the numbers that are elements of arrays and pipes, and the octets of strings. A number that is an element takes 8 octets.
#[derive(Drop)]
pub struct NodeList {
    pub nodes: Vec<Node>,
    pub numbers: Vec<u64>,
    pub octets: Octets,
}

impl NodeList {
    // Lets go of the nodes, and keeps their room for others.
    #[inline(always)]
    fn clear(&mut self)
        ensures nodes { self.new.nodes.items ≡ [] }
        ensures numbers { self.new.numbers.items ≡ [] }
        ensures octets { self.new.octets ≡ [] }
    {
        self.nodes.clear();
        self.numbers.clear();
        self.octets.clear();
    }
}

/// The nodes of the roots of a graph and then of its cells, and which of them are the first of these.
#[derive(Drop)]
pub struct Nodes {
    pub list: NodeList,
    /// The number of the first node of each root and then of each cell.
    pub starts: Vec<usize>,
    /// How many roots there are.
    pub roots: usize,
}

impl Nodes {
    /// The nodes of a graph. It takes memory for them, for the numbers and octets, and for a number for each root and cell; running out of it is the
    /// only refusal. The time is in proportion to the nodes and octets.
    pub fn of(alloc: Global, graph: &FlatGraph) -> Result<Nodes, Memory>
        ensures { IfOk result (λ n. IsListOf graph.now n) }
    {
        let mut nodes = Nodes::none(alloc);
        nodes.fill(graph)?;
        Ok(nodes)
    }

    // No nodes. It allocates nothing.
    #[inline(always)]
    pub(crate) fn none(alloc: Global) -> Nodes {
        Nodes {
            list: NodeList {
                nodes: Vec::new(alloc),
                numbers: Vec::new(alloc),
                octets: Octets::new(alloc),
            },
            starts: Vec::new(alloc),
            roots: 0,
        }
    }

    // The nodes of another graph in the room of those before, as `of` gives them.
    pub(crate) fn fill(&mut self, graph: &FlatGraph) -> Result<(), Memory>
        ensures { OnOk result (IsListOf graph.now self.new) }
    {
        self.list.clear();
        self.starts.clear();
        lay_roots(&mut self.list, &mut self.starts, graph)?;
        lay_cells(&mut self.list, &mut self.starts, graph)?;
        self.roots = graph.root_count();
        Ok(())
    }

    /// The number of the first node of a root by its place, from 0. Takes no memory.
    pub fn root(&self, root: usize) -> Option<usize>
        ensures { result ≡ root_start self.now root }
    {
        if root < self.roots {
            start_at(self.starts.as_slice(), root)
        } else {
            None
        }
    }

    /// The number of the first node of a cell by its number, from 1. Takes no memory.
    pub fn cell(&self, cell: u32) -> Option<usize>
        ensures { result ≡ cell_start self.now cell }
    {
        if cell == 0 {
            return None;
        }
        cell_at(self.starts.as_slice(), self.roots, cell as usize - 1)
    }
}

// A number of a list.
fn start_at(starts: &[usize], at: usize) -> Option<usize>
    ensures { result ≡ slice_get starts.now at }
{
    if at < starts.len() {
        Some(starts[at])
    } else {
        None
    }
}

// A number of a list by its place after the first ones.
fn cell_at(starts: &[usize], first: usize, at: usize) -> Option<usize>
    ensures { result ≡ slice_get starts.now (first + at) }
{
    if first < starts.len() && at < starts.len() - first {
        Some(starts[first + at])
    } else {
        None
    }
}
