// Whether a graph conforms.
ghost use Rattle.std.specs.Prelude.{◌≡◌, ◌<◌, ◌^◌, length, slice_get, option_map, Option, Some, None, IfOk, IfErr, OnOk};
ghost use Rattle.nd_value.specs.declared.value.Graph.{Graph as GraphValue};
ghost use Rattle.nd_types.specs.declared.types.Operation.{Operation};
ghost use Rattle.nd_value.specs.Conforms.{Conforms, HasFewNodes, first_local, IsMisfit, IsOfNoFit};
ghost use Rattle.nd_value.specs.Fitting.{setting_beside};
ghost use Rattle.nd_value.specs.Passes.{TellsUnreached, AreReached};
ghost use Rattle.nd_value.specs.Request.{IsRequestOf};

use crate::flattened;
use crate::given::given_numbers;
use crate::reach::unreached;
use nd_flat::{Fit, FlatGraph, Given};
use nd_misfits::{disagreeing_attribute, local_misfit, shared_cell};
use nd_types::{Interface, Side};
use nd_value::{Graph, Home, Misfit, MisfitReason};
use std::alloc::Global;

/// Takes over a graph that conforms to a side of an operation, or hands it back unchanged with its first misfit.
///
/// `op` must be the number of an operation, and there must be fewer than 2^32 cells, and in each home fewer than 2^32 nodes. `given` is
/// the request beside which a response is judged: a fit of the same interface and operation and of the side In, and then `side` must be
/// Out. Where it is given, an attribute of an output whose variable is an input alone is compared with that input's number in the
/// request; without one such an attribute fixes nothing.
///
/// Four passes go over the graph in this order, each over the roots and then the cells, and in each home over its nodes in order: nodes
/// that have a misfit by themselves, cells that are shared, cells that are not reached, attributes that disagree (C706, 4.2.18 to
/// 4.2.20). The first failing place of the first failing pass is reported. A wrong number of roots is a Shape at the first that is
/// missing or too many, after the misfits of the roots that are there. It takes memory for a list of the roots, a mark and a number for
/// each cell, the pointers of one home at a time, the numbers of the parameters, and for the nodes, texts and cells of the answer.
pub fn fit(
    alloc: Global,
    interface: &Interface,
    op: u32,
    side: Side,
    given: Option<&Fit>,
    graph: Graph,
) -> Result<Fit, (Misfit, Graph)>
    requires known { op < length interface.now.operations }
    requires few_cells { length graph.cells < 2 ^ 32 }
    requires few_nodes { HasFewNodes graph }
    requires request { IsRequestOf interface.now op side (option_map (λ f. f.now) given) }
    ensures fits { IfOk result (λ f. f ≡ record {
      graph = graph;
      op = op;
      side = side;
      interface = interface.now;
      given = option_map (λ f. f.now.graph) given.entry;
    }) }
    ensures misfit { IfErr result (λ e. (o : Operation) → slice_get interface.now.operations op ≡ Some o
        → IsMisfit (setting_beside interface.now o side (option_map (λ f. f.now.graph) given.entry)) graph e.0) }
    ensures not_conforming { IfErr result (λ e. (o : Operation) → slice_get interface.now.operations op ≡ Some o
        → IsOfNoFit (setting_beside interface.now o side (option_map (λ f. f.now.graph) given.entry)) graph e.0) }
    ensures back { IfErr result (λ e. e.1 ≡ graph) }
{
    match passes(alloc, interface, op, side, given, &graph) {
        Ok(flat) => Ok(Fit::of(flat, op, side, interface.tie(), Given::beside(given))),
        Err(misfit) => Err((misfit, graph)),
    }
}

// The four passes, and the graph in its flat form.
fn passes(
    alloc: Global,
    interface: &Interface,
    op: u32,
    side: Side,
    given: Option<&Fit>,
    graph: &Graph,
) -> Result<FlatGraph, Misfit>
    requires known { op < length interface.now.operations }
    requires few_cells { length graph.now.cells < 2 ^ 32 }
    requires few_nodes { HasFewNodes graph.now }
    requires request { IsRequestOf interface.now op side (option_map (λ f. f.now) given) }
    ensures graph { IfOk result (λ flat. flat ≡ graph.now) }
    ensures conforms { OnOk result ((o : Operation) → slice_get interface.now.operations op ≡ Some o
        → Conforms (setting_beside interface.now o side (option_map (λ f. f.now.graph) given.entry)) graph.now) }
    ensures misfit { IfErr result (λ e. (o : Operation) → slice_get interface.now.operations op ≡ Some o
        → IsMisfit (setting_beside interface.now o side (option_map (λ f. f.now.graph) given.entry)) graph.now e) }
{
    local_misfit(interface, op, side, graph)?;
    shared_cell(alloc, interface, op, side, graph)?;
    let flat = flattened(alloc, interface.tie(), op, side, graph)?;
    unreached_cell(alloc, interface, op, side, &flat)?;
    let numbers = given_numbers(alloc, interface, op, given)?;
    disagreeing_attribute(alloc, interface, op, side, numbers.as_slice(), graph)?;
    Ok(flat)
}

// The third pass: the first cell that no root and no cell that is reached names.
fn unreached_cell(
    alloc: Global,
    interface: &Interface,
    op: u32,
    side: Side,
    flat: &FlatGraph,
) -> Result<(), Misfit>
    requires known { op < length interface.now.operations }
    requires few_cells { length flat.now.cells < 2 ^ 32 }
    requires few_nodes { HasFewNodes flat.now }
    requires local { (o : Operation) (q : Option GraphValue) → slice_get interface.now.operations op ≡ Some o
        → first_local (setting_beside interface.now o side q) flat.now ≡ None }
    ensures none { OnOk result ((o : Operation) (q : Option GraphValue) → slice_get interface.now.operations op ≡ Some o
        → AreReached (setting_beside interface.now o side q) flat.now) }
    ensures first { IfErr result (λ e. (o : Operation) (q : Option GraphValue) → slice_get interface.now.operations op ≡ Some o
        → TellsUnreached (setting_beside interface.now o side q) flat.now e) }
{
    match unreached(alloc, flat)? {
        Some(cell) => Err(Misfit::At {
            home: Home::Cell(cell),
            node: 0,
            reason: MisfitReason::Unreached,
        }),
        None => Ok(()),
    }
}
