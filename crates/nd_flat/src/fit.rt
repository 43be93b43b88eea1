// Graphs that conform.
ghost use Rattle.std.specs.Prelude.{◌≡◌, length, IfOk, IfErr};
ghost use Rattle.nd_value.specs.Tree.{more, none};
ghost use Rattle.nd_value.specs.Fitting.{IsFit};
ghost use Rattle.nd_value.specs.Names.{AreThere};
ghost use Rattle.nd_flat.specs.Building.{HasHome, home_tree};
ghost use Rattle.nd_flat.specs.Renumbered.{renumbered_fitting};

use crate::{FlatGraph, Given, PlainWalk, Walk};
use nd_base::Memory;
use nd_types::{Side, Tie};
use nd_value::{Graph, Home};
use std::alloc::Global;
use std::marker::Model;

/// A graph that conforms to a side of an operation of an interface, beside a request or beside none. Contracts see the graph, the
/// number of the operation, the side, the interface and the graph of the request.
#[derive(Drop)]
pub struct Fit {
    graph: FlatGraph,
    op: u32,
    side: Side,
    tie: Tie,
    given: Given,
}

impl Model for Fit {
    ghost use Rattle.nd_value.specs.Fitting.{Fitting, IsFit, fitting_code};

    ghost Value = { Fitting };

    ghost coded = { fitting_code };

    ghost view = { λ f. record { graph = f.graph; op = f.op; side = f.side; interface = f.tie; given = f.given } };

    ghost invariant = { λ f. IsFit (record { graph = f.graph; op = f.op; side = f.side; interface = f.tie; given = f.given }) };
}

impl Fit {
    /// Takes over a graph that conforms to a side of an operation, beside this request or beside none. A request conforms to the inputs
    /// of the operation, and then `side` must be Out. Takes no memory.
    pub fn of(graph: FlatGraph, op: u32, side: Side, tie: Tie, given: Given) -> Fit
        requires { IsFit (record { graph = graph; op = op; side = side; interface = tie; given = given }) }
        ensures { result ≡ record { graph = graph; op = op; side = side; interface = tie; given = given } }
    {
        Fit {
            graph,
            op,
            side,
            tie,
            given,
        }
    }

    /// The number of the operation. Takes no memory.
    pub fn op(&self) -> u32
        ensures { result ≡ self.now.op }
    {
        self.op
    }

    /// The side of the operation. Takes no memory.
    pub fn side(&self) -> Side
        ensures { result ≡ self.now.side }
    {
        self.side
    }

    /// The graph as it is kept. Takes no memory.
    pub fn flat(&self) -> &FlatGraph
        ensures graph { result.now ≡ self.now.graph }
        ensures conforms { IsFit self.now }
    {
        &self.graph
    }

    /// A walk over the nodes of a root or a cell that is there, depth first. Takes no memory.
    #[inline(always)]
    pub fn walk(&self, home: Home) -> Walk<'_>
        requires there { HasHome self.now.graph home }
        ensures walk { result ≡ more (home_tree self.now.graph home) none }
        ensures conforms { IsFit self.now }
    {
        self.graph.walk(home)
    }

    /// The same walk, as one that gives nodes that are kept one by one. Takes no memory.
    #[inline(always)]
    pub fn plain_walk(&self, home: Home) -> PlainWalk<'_>
        requires there { HasHome self.now.graph home }
        ensures walk { result ≡ more (home_tree self.now.graph home) none }
    {
        self.graph.plain_walk(home)
    }

    /// The same with its cells renumbered: `numbers` are the new numbers by the old ones, from 0, and `cells` the old numbers in the
    /// order of the new ones, from 1. The listed cells must be there, and the graph conform after it as before. It takes memory for
    /// all nodes, octets, roots and cells. Out of memory is the only refusal.
    pub fn renumbered(&self, alloc: Global, numbers: &[u32], cells: &[u32]) -> Result<Fit, Memory>
        requires there { AreThere (length self.now.graph.cells) cells.now }
        requires fits { IsFit (renumbered_fitting numbers.now cells.now self.now) }
        ensures { IfOk result (λ f. f ≡ renumbered_fitting numbers.now cells.now self.now) }
    {
        let graph = self.graph.renumbered(alloc, numbers, cells)?;
        Ok(Fit::of(
            graph,
            self.op,
            self.side,
            self.tie.again(),
            self.given.again(),
        ))
    }

    /// The graph as values that callers can take apart and change. It takes memory for each value, and its calls nest as deep as the types
    /// of the operation do, which is at most 32 levels. Out of memory is the only refusal; then the fit is handed back unchanged.
    pub fn graph(self, alloc: Global) -> Result<Graph, (Memory, Fit)>
        ensures graph { IfOk result (λ g. g ≡ self.graph) }
        ensures back { IfErr result (λ e. e.1 ≡ self) }
    {
        match self.graph.values(alloc) {
            Ok(graph) => Ok(graph),
            Err(memory) => Err((memory, self)),
        }
    }
}
