// Graphs kept flat: all nodes in one list, of which each root and each cell has a span.
ghost use Rattle.std.specs.Prelude.{◌≡◌, ◌<◌, suc, length, slice_get, slice_index_or, IfOk};
ghost use Rattle.nd_value.specs.Tree.{more, none};

use crate::node::Node;
use crate::rebuilt::{cells, roots};
use crate::{PlainWalk, Walk};
use nd_base::{Memory, Octets};
use nd_types::TypeId;
use nd_value::{Graph, Home};
use smallvec::SmallVec;
use std::alloc::Global;
use std::marker::Model;

// Where the nodes of a root are: `len` of them from `from` on.
#[derive(Clone, Copy, Drop)]
pub struct Span {
    pub from: usize,
    pub len: usize,
}

impl Default for Span {
    fn default() -> Span {
        Span { from: 0, len: 0 }
    }
}

// The same of a cell, with the type of its value.
#[derive(Clone, Copy, Drop)]
pub struct CellSpan {
    pub of: TypeId,
    pub span: Span,
}

/// A graph whose values are kept as lists of nodes, and its longer texts, rows of numbers and structs of numbers as octets. Contracts see it as
/// roots and cells. A node takes 24 octets, and a row of numbers, or structs of numbers side by side, one node and their octets. Of the first four
/// roots it takes no memory but for their nodes.
#[derive(Drop)]
pub struct FlatGraph {
    pub(crate) nodes: Vec<Node>,
    pub(crate) octets: Octets,
    pub(crate) roots: SmallVec<Span, 4>,
    pub(crate) cells: Vec<CellSpan>,
}

impl Model for FlatGraph {
    ghost use Rattle.nd_value.specs.declared.value.Graph.{Graph};
    ghost use Rattle.nd_value.specs.Fitting.{graph_code};

    ghost Value = { Graph };

    ghost coded = { graph_code };

    ghost use Rattle.nd_flat.specs.Store.{seen_graph, IsKept};

    ghost view = { λ g. seen_graph g.octets g.nodes.items g.roots.items g.cells.items };

    ghost invariant = { λ g. IsKept g.octets g.nodes.items g.roots.items g.cells.items };
}

impl FlatGraph {
    ghost use Rattle.nd_value.specs.Setting.{root_at, cell_at};
    ghost use Rattle.nd_flat.specs.Building.{HasHome, home_tree, referent_type};

    /// The number of roots. Takes no memory.
    pub fn root_count(&self) -> usize
        ensures { result ≡ length self.now.roots }
    {
        self.roots.as_slice().len()
    }

    /// The number of cells. Takes no memory.
    pub fn cell_count(&self) -> usize
        ensures { result ≡ length self.now.cells }
    {
        self.cells.as_slice().len()
    }

    /// A walk over the nodes of a root or a cell that is there, depth first. Takes no memory.
    #[inline(always)]
    pub fn walk(&self, home: Home) -> Walk<'_>
        requires { HasHome self.now home }
        ensures { result ≡ more (home_tree self.now home) none }
    {
        let span = span_of(self.roots.as_slice(), self.cells.as_slice(), home);
        let nodes = self.nodes.as_slice();
        Walk::over(
            &nodes[span.from..span.from + span.len],
            self.octets.as_slice(),
        )
    }

    /// The same walk, as one that gives nodes that are kept one by one. Takes no memory.
    #[inline(always)]
    pub fn plain_walk(&self, home: Home) -> PlainWalk<'_>
        requires { HasHome self.now home }
        ensures { result ≡ more (home_tree self.now home) none }
    {
        let span = span_of(self.roots.as_slice(), self.cells.as_slice(), home);
        let nodes = self.nodes.as_slice();
        PlainWalk::over(
            &nodes[span.from..span.from + span.len],
            self.octets.as_slice(),
        )
    }

    /// A walk over the nodes of a root by its place, from 0. Takes no memory.
    pub fn root_walk(&self, at: usize) -> Walk<'_>
        requires { at < length self.now.roots }
        ensures { result ≡ more (root_at self.now at) none }
    {
        let span = root_span(self.roots.as_slice(), at);
        let nodes = self.nodes.as_slice();
        Walk::over(
            &nodes[span.from..span.from + span.len],
            self.octets.as_slice(),
        )
    }

    /// A walk over the nodes of a cell by its place, from 0: its number less one. Takes no memory.
    pub fn cell_walk(&self, at: usize) -> Walk<'_>
        requires { at < length self.now.cells }
        ensures { result ≡ more (cell_at self.now (suc at)) none }
    {
        let span = cell_span(self.cells.as_slice(), at);
        let nodes = self.nodes.as_slice();
        Walk::over(
            &nodes[span.from..span.from + span.len],
            self.octets.as_slice(),
        )
    }

    /// The walk over a root, as one that gives nodes that are kept one by one. Takes no memory.
    #[inline(always)]
    pub fn root_plain_walk(&self, at: usize) -> PlainWalk<'_>
        requires { at < length self.now.roots }
        ensures { result ≡ more (root_at self.now at) none }
    {
        let span = root_span(self.roots.as_slice(), at);
        let nodes = self.nodes.as_slice();
        PlainWalk::over(
            &nodes[span.from..span.from + span.len],
            self.octets.as_slice(),
        )
    }

    /// The same of a cell by its place, from 0. Takes no memory.
    #[inline(always)]
    pub fn cell_plain_walk(&self, at: usize) -> PlainWalk<'_>
        requires { at < length self.now.cells }
        ensures { result ≡ more (cell_at self.now (suc at)) none }
    {
        let span = cell_span(self.cells.as_slice(), at);
        let nodes = self.nodes.as_slice();
        PlainWalk::over(
            &nodes[span.from..span.from + span.len],
            self.octets.as_slice(),
        )
    }

    /// The type of a cell by its place, from 0. Takes no memory.
    pub fn cell_type(&self, at: usize) -> TypeId
        requires { at < length self.now.cells }
        ensures { result.0 ≡ referent_type (slice_get self.now.cells at) }
    {
        type_in(self.cells.as_slice(), at)
    }

    // The graph as values. It takes memory for each value, and calls itself for the parts of a value: so its calls nest as deep as the
    // values do. Out of memory is the only refusal.
    pub(crate) fn values(&self, alloc: Global) -> Result<Graph, Memory>
        ensures { IfOk result (λ g. g ≡ self.now) }
    {
        Ok(Graph {
            roots: roots(alloc, self)?,
            cells: cells(alloc, self)?,
        })
    }
}

ghost use Rattle.nd_flat.specs.Store.{HasSpan, chosen_span, no_span, no_cell};

// The span of a root by its place.
fn root_span(roots: &[Span], at: usize) -> Span
    requires { at < length roots.now }
    ensures { result ≡ slice_index_or roots.now at no_span }
{
    roots[at]
}

// The span of a cell by its place.
fn cell_span(cells: &[CellSpan], at: usize) -> Span
    requires { at < length cells.now }
    ensures { result ≡ (slice_index_or cells.now at no_cell).span }
{
    cells[at].span
}

// The type of a cell by its place.
fn type_in(cells: &[CellSpan], at: usize) -> TypeId
    requires { at < length cells.now }
    ensures { result ≡ (slice_index_or cells.now at no_cell).of }
{
    cells[at].of
}

// The span of a root or a cell.
#[inline(always)]
fn span_of(roots: &[Span], cells: &[CellSpan], home: Home) -> Span
    requires { HasSpan roots.now cells.now home }
    ensures { result ≡ chosen_span roots.now cells.now home }
{
    match home {
        Home::Root(at) => roots[at as usize],
        Home::Cell(cell) => cells[cell.0 as usize - 1].span,
    }
}
