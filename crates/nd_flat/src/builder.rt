// Graphs as they are built.
ghost use Rattle.std.specs.Prelude.{◌≡◌, ℕ, ◌+◌, ◌-◌, ◌<◌, ◌≤◌, ◌^◌, ◌++◌, [], ◌∷◌, length, drop, slice_set};
ghost use Rattle.std.specs.Prelude.{OnOk, OnErr, IfOk, IfErr, IsTrue, None, option_map};
ghost use Rattle.nd_value.specs.Setting.{unread, cell_home};
ghost use Rattle.nd_value.specs.Tree.{Tree, Referent};
ghost use Rattle.nd_value.specs.declared.item.Home.TheVariants as home;
ghost use Rattle.nd_flat.specs.FlatForm.{flat_seen, seen_nodes, num_flats, row_numbers, HasOctets, IsKeepable, IsRow, text_of};
ghost use Rattle.nd_flat.specs.Building.{CanClose, HasNoUnread, IsPipe, closed, opened, with_root, with_cell, with_node, with_nodes, with_numbers};
ghost use Rattle.nd_flat.specs.Building.{with_graph, raised, fitting, start};
ghost use Rattle.nd_flat.specs.Records.{IsRecords, all_records};
ghost use Rattle.nd_value.specs.Fitting.{IsFit};
ghost use Rattle.nd_value.specs.Request.{IsRequestOf};

use crate::flat::{CellSpan, FlatGraph, Span};
use crate::given::Given;
use crate::node::{Node, kept_node, kept_records, kept_row};
use crate::{Fit, Records, Row, Seen};
use nd_base::{Ledger, Memory, Octets, Steps, push};
use nd_types::{Side, Tie, TypeId};
use nd_value::CellId;
use smallvec::SmallVec;
use std::alloc::Global;
use std::marker::Model;

// Which home is open: none before the first one.
#[derive(Clone, Copy, Drop)]
pub enum OpenHome {
    NoHome,
    Root(usize),
    // by its place, which is the cell's number less one
    Cell(usize),
}

/// Builds a graph, one root or cell at a time and in any order: a home is opened, and its nodes are added depth first, each with the
/// number of its children. Contracts see the graph so far, in which homes that are not built are unread, the home that is open, and
/// its nodes so far. Where memory is refused a builder is as it was before the call.
#[derive(Drop)]
pub struct Builder {
    nodes: Vec<Node>,
    octets: Octets,
    roots: SmallVec<Span, 4>,
    cells: Vec<CellSpan>,
    home: OpenHome,
    // where the nodes of the open home begin
    from: usize,
    op: u32,
    side: Side,
    tie: Tie,
    given: Given,
}

impl Model for Builder {
    ghost use Rattle.nd_flat.specs.Building.{Building, building_code};

    ghost Value = { Building };

    ghost coded = { building_code };

    ghost use Rattle.nd_flat.specs.Store.{seen_builder, IsBuilt};

    ghost view = { λ b. seen_builder b.octets b.nodes.items b.from b.roots.items b.cells.items b.home b.op b.side b.tie b.given };

    ghost invariant = { λ b. IsBuilt b.octets b.nodes.items b.from b.roots.items b.cells.items b.home };
}

impl Builder {
    /// Begins a graph for a side of an operation of the tie's interface, beside a request or beside none. A request is a fit of the same
    /// interface and operation and of the side In, and then `side` must be Out. It allocates nothing.
    pub fn begin(alloc: Global, tie: Tie, op: u32, side: Side, given: Option<&Fit>) -> Builder
        requires request { IsRequestOf tie op side (option_map (λ f. f.now) given) }
        ensures { result ≡ start tie op side (option_map (λ f. f.now.graph) given.entry) }
    {
        Builder {
            nodes: Vec::new(alloc),
            octets: Octets::new(alloc),
            roots: SmallVec::new(alloc),
            cells: Vec::new(alloc),
            home: OpenHome::NoHome,
            from: 0,
            op,
            side,
            tie,
            given: Given::beside(given),
        }
    }

    /// Opens the next root, which takes memory after the fourth. The home that was open must be whole. Out of memory is the only refusal.
    #[inline(always)]
    pub fn root(&mut self) -> Result<(), Memory>
        requires { CanClose self.old }
        ensures ok { OnOk result (self.new ≡ opened (home.Root (length self.old.graph.roots)) (with_root (closed self.old)) self.old) }
        ensures err { OnErr result (self.new ≡ self.old) }
    {
        let next = self.roots.as_slice().len();
        let Ok(()) = self.roots.push(EMPTY) else {
            return Err(Memory);
        };
        let to = self.nodes.as_slice().len();
        let span = Span {
            from: self.from,
            len: to - self.from,
        };
        close(self.home, span, &mut self.roots, &mut self.cells);
        self.home = OpenHome::Root(next);
        self.from = to;
        Ok(())
    }

    /// Gives the next cell its number, from 1, and counts one step. The cell is of this type, and is not built yet. The home that is
    /// open stays open. It takes memory; out of memory is the only refusal, and counts nothing.
    #[inline(always)]
    pub fn reserve<L: Ledger>(&mut self, of: TypeId, steps: &mut Steps<L>) -> Result<CellId, Memory>
        requires few { length self.old.graph.cells < 2 ^ 32 - 1 }
        ensures cell { IfOk result (λ c. c.0 ≡ length self.old.graph.cells + 1) }
        ensures ok { OnOk result (self.new ≡ with_graph (with_cell of.0 self.old.graph) self.old) }
        ensures tick { OnOk result (L.number steps.new ≡ L.number steps.old + 1) }
        ensures err { OnErr result (self.new ≡ self.old) }
        ensures idle { OnErr result (steps.new ≡ steps.old) }
    {
        let cell = CellId(self.cells.len() as u32 + 1);
        let Ok(()) = push(&mut self.cells, CellSpan { of, span: EMPTY }) else {
            return Err(Memory);
        };
        steps.tick();
        Ok(cell)
    }

    /// Opens a cell that has its number; what it held before is gone. The home that was open must be whole. Takes no memory.
    #[inline(always)]
    pub fn fill(&mut self, cell: CellId)
        requires whole { CanClose self.old }
        requires there { (0 < cell.0) × (cell.0 ≤ length self.old.graph.cells) }
        ensures { self.new ≡ opened (cell_home cell.0) (closed self.old) self.old }
    {
        let to = self.nodes.as_slice().len();
        let span = Span {
            from: self.from,
            len: to - self.from,
        };
        close(self.home, span, &mut self.roots, &mut self.cells);
        self.home = OpenHome::Cell(cell.0 as usize - 1);
        self.from = to;
    }

    /// Adds the next node of the open home. A number or tag must be from -2^64 to 2^64 - 1, and a text have fewer than 2^32 octets. It
    /// takes memory; out of memory is the only refusal.
    #[inline(always)]
    pub fn add(&mut self, node: &Seen<'_>) -> Result<(), Memory>
        requires { IsKeepable (flat_seen node.now).0 }
        ensures ok { OnOk result (self.new ≡ with_node (flat_seen node.now) self.old) }
        ensures err { OnErr result (self.new ≡ self.old) }
    {
        let kept = kept_node(&mut self.octets, node)?;
        let Ok(()) = push(&mut self.nodes, kept) else {
            return Err(Memory);
        };
        Ok(())
    }

    /// Adds numbers of the open home as its next nodes, which are kept side by side as they are. There must be one at least. It takes
    /// memory for the octets and one node; out of memory is the only refusal.
    pub fn row(&mut self, row: &Row<'_>) -> Result<(), Memory>
        requires whole { IsRow row.now }
        requires some { 0 < row.now.count }
        ensures ok { OnOk result (self.new ≡ with_numbers (row_numbers row.now) self.old) }
        ensures err { OnErr result (self.new ≡ self.old) }
    {
        let kept = kept_row(&mut self.octets, row)?;
        let Ok(()) = self.nodes.push(kept) else {
            return Err(Memory);
        };
        Ok(())
    }

    /// Adds structs of numbers of the open home as its next nodes, which are kept side by side as they are. There must be one at least. It takes
    /// memory for the octets and one node; out of memory is the only refusal.
    pub fn records(&mut self, records: &Records<'_>) -> Result<(), Memory>
        requires whole { IsRecords records.now }
        requires some { 0 < records.now.count }
        ensures ok { OnOk result (self.new ≡ with_nodes (self.old.nodes ++ all_records records.now) self.old) }
        ensures err { OnErr result (self.new ≡ self.old) }
    {
        let kept = kept_records(&mut self.octets, records)?;
        let Ok(()) = self.nodes.push(kept) else {
            return Err(Memory);
        };
        Ok(())
    }

    /// Makes room for so many nodes and cells more, where memory has it, so that the lists need not be moved as they grow. It is no promise: what is
    /// added later may find no memory.
    pub fn make_room(&mut self, nodes: usize, cells: usize)
        ensures { self.new ≡ self.old }
    {
        let _nodes = self.nodes.reserve_exact(nodes);
        let _cells = self.cells.reserve_exact(cells);
    }

    /// Makes room for so many octets of texts, rows of numbers and structs more, in the same way.
    pub fn make_room_for_octets(&mut self, octets: usize)
        ensures { self.new ≡ self.old }
    {
        self.octets.make_room(octets);
    }

    /// Raises the number of elements of the pipe that is the open home: so many more are to be added. The sum must be below 2^32.
    /// Takes no memory.
    pub fn chunk(&mut self, more: u32)
        requires { IsPipe more self.old.nodes }
        ensures { self.new ≡ with_nodes (raised more self.old.nodes) self.old }
    {
        raise(&mut self.nodes, self.from, more);
    }

    /// The graph, whether it conforms or not. The open home must be whole, and each root and each cell built. Takes no memory.
    pub fn into_graph(self) -> FlatGraph
        requires whole { CanClose self }
        requires read { HasNoUnread (closed self) }
        ensures { result ≡ closed self }
    {
        let Builder {
            nodes,
            octets,
            mut roots,
            mut cells,
            home,
            from,
            op: _op,
            side: _side,
            tie: _tie,
            given: _given,
        } = self;
        let to = nodes.as_slice().len();
        let span = Span {
            from,
            len: to - from,
        };
        close(home, span, &mut roots, &mut cells);
        FlatGraph {
            nodes,
            octets,
            roots,
            cells,
        }
    }

    /// The graph as a fit. The open home must be whole, and the graph conform to the side of the operation, beside the request that was
    /// given. Takes no memory.
    pub fn finish(self) -> Fit
        requires whole { CanClose self }
        requires fits { IsFit (fitting self) }
        ensures { result ≡ fitting self }
    {
        let Builder {
            nodes,
            octets,
            mut roots,
            mut cells,
            home,
            from,
            op,
            side,
            tie,
            given,
        } = self;
        let to = nodes.as_slice().len();
        let span = Span {
            from,
            len: to - from,
        };
        close(home, span, &mut roots, &mut cells);
        let graph = FlatGraph {
            nodes,
            octets,
            roots,
            cells,
        };
        Fit::of(graph, op, side, tie, given)
    }
}

const EMPTY: Span = Span { from: 0, len: 0 };

ghost use Rattle.nd_flat.specs.Store.{IsPlace, closed_roots, closed_cells, IsPipeAt, raised_at};

// Notes the span of the home that was open.
#[inline(always)]
fn close(home: OpenHome, span: Span, roots: &mut SmallVec<Span, 4>, cells: &mut Vec<CellSpan>)
    requires { IsPlace roots.old.items cells.old.items home }
    ensures roots { roots.new.items ≡ closed_roots home span roots.old.items }
    ensures cells { cells.new.items ≡ closed_cells home span cells.old.items }
{
    match home {
        OpenHome::NoHome => {}
        OpenHome::Root(at) => put_root(roots, at, span),
        OpenHome::Cell(at) => {
            let of = cells[at].of;
            cells[at] = CellSpan { of, span };
        }
    }
}

// Makes the span of a root this one.
#[inline(always)]
fn put_root(roots: &mut SmallVec<Span, 4>, at: usize, span: Span)
    requires { at < length roots.old.items }
    ensures { roots.new.items ≡ slice_set roots.old.items at span }
{
    if let Some(place) = roots.get_mut(at) {
        *place = span;
    }
}

// Raises the number of elements of the pipe at a place.
fn raise(nodes: &mut Vec<Node>, at: usize, more: u32)
    requires { IsPipeAt more (drop at nodes.old.items) }
    ensures { nodes.new.items ≡ raised_at at more nodes.old.items }
{
    let count = match &nodes[at] {
        Node::Pipe(count) => *count,
        _ => unreachable!(),
    };
    nodes[at] = Node::Pipe(count + more);
}
