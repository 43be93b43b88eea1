//! Graphs of numbers: what is made of what.

mod cycles;
mod rounds;

ghost use Rattle.std.specs.Prelude.{◌≡◌, [], ◌∷◌, ◌++◌, length};
ghost use Rattle.std.specs.Result.{OnErr, OnOk};
ghost use Rattle.idl_cycles.specs.Graph.{parts_at};

pub use cycles::least_key;
use nd_base::Memory;
pub use rounds::{Rule, properties};
use std::alloc::Global;
use std::marker::Model;

/// Where the parts of a node stand.
#[derive(Clone, Copy)]
struct Span {
    start: usize,
    end: usize,
}

/// The parts of each node, in order. Nodes are numbered from 0. Memory: 16 octets for each node and 8 for each part.
#[derive(Drop)]
pub struct Graph {
    parts: Vec<usize>,
    spans: Vec<Span>,
}

impl Model for Graph {
    ghost use Rattle.std.specs.Prelude.{ℕ, List};
    ghost use Rattle.idl_cycles.specs.GraphRows.{rows_of, AreSpans};

    ghost Value = { List (List ℕ) };

    ghost view = { λ g. rows_of g.parts.items g.spans.items };

    ghost invariant = { λ g. AreSpans g.parts.items g.spans.items };
}

impl Graph {
    /// A graph without nodes.
    pub fn new(alloc: Global) -> Self
        ensures { result ≡ [] }
    {
        Graph {
            parts: Vec::new(alloc),
            spans: Vec::new(alloc),
        }
    }

    /// The number of nodes.
    pub fn len(&self) -> usize
        ensures { result ≡ length self.now }
    {
        self.spans.len()
    }

    /// Adds the next node, of these parts.
    pub fn push(&mut self, parts: &[usize]) -> Result<(), Memory>
        ensures ok { OnOk result (self.new ≡ self.old ++ parts.now ∷ []) }
        ensures err { OnErr result (self.new ≡ self.old) }
    {
        let start = self.parts.len();
        self.parts.extend_from_slice(parts)?;
        let end = self.parts.len();
        let Ok(()) = self.spans.push(Span { start, end }) else {
            return Err(Memory);
        };
        Ok(())
    }

    /// The parts of a node; none, of a number that is no node.
    pub fn parts(&self, node: usize) -> &[usize]
        ensures { result.now ≡ parts_at self.now node }
    {
        let Some(span) = self.spans.get(node) else {
            return &[];
        };
        &self.parts[span.start..span.end]
    }
}

#[cfg(test)]
mod tests;
