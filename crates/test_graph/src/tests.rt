// Rows through the public calls.
ghost use Rattle.std.specs.Prelude.{◌≡◌, ◌<◌, IfOk, None};
ghost use Rattle.nd_types.specs.declared.types.Side.TheVariants as side;
ghost use Rattle.test_graph.specs.Graphs.{IsSmall};
ghost use Rattle.test_graph.specs.Rows.{row_operations};

use crate::graphs::{
    apart, asked, asked_by_pointer, miscounted, null, one_back, ring_and_leaf, ring_of_one,
    ring_of_two, ring_swapped, shared, two_back, without_cells, zero_within,
};
use crate::interface::{PAIR, RING, SAY, SIZED, SIZED_BY_POINTER, SUM, TWO, interface};
use nd_base::Memory;
use nd_graph::{CellId, Fit, Graph, Home, Misfit, MisfitReason, Seen, Val, canonical, fit, same};
use nd_types::{Interface, Side};
use std::alloc::Global;
use std::test::Fail;

// A graph of the inputs of an operation as a fit. It is out of memory too where the graph does not conform.
pub(crate) fn fitted(
    alloc: Global,
    interface: &Interface,
    op: u32,
    graph: Graph,
) -> Result<Fit, Memory>
    requires operations { interface.now.operations ≡ row_operations }
    requires known { op < 7 }
    requires small { IsSmall graph }
    ensures { IfOk result (λ f. f ≡ record { graph = graph; op = op; side = side.In; interface = interface.now; given = None }) }
{
    match fit(alloc, interface, op, Side::In, None, graph) {
        Ok(fit) => Ok(fit),
        Err(_) => Err(Memory),
    }
}

// The same of the outputs, without a request.
fn fitted_back(alloc: Global, interface: &Interface, op: u32, graph: Graph) -> Result<Fit, Memory>
    requires operations { interface.now.operations ≡ row_operations }
    requires known { op < 7 }
    requires small { IsSmall graph }
    ensures { IfOk result (λ f. f.graph ≡ graph) }
{
    match fit(alloc, interface, op, Side::Out, None, graph) {
        Ok(fit) => Ok(fit),
        Err(_) => Err(Memory),
    }
}

// The misfit of the inputs of an operation.
fn misfit(alloc: Global, interface: &Interface, op: u32, graph: Graph) -> Option<Misfit>
    requires operations { interface.now.operations ≡ row_operations }
    requires known { op < 7 }
    requires small { IsSmall graph }
{
    match fit(alloc, interface, op, Side::In, None, graph) {
        Ok(_) => None,
        Err((misfit, _)) => Some(misfit),
    }
}

// The misfit of the outputs of an operation, judged with a request.
fn misfit_beside(
    alloc: Global,
    interface: &Interface,
    op: u32,
    request: Graph,
    graph: Graph,
) -> Result<Option<Misfit>, Memory>
    requires operations { interface.now.operations ≡ row_operations }
    requires known { op < 7 }
    requires small_request { IsSmall request }
    requires small { IsSmall graph }
{
    let request = fitted(alloc, interface, op, request)?;
    match fit(alloc, interface, op, Side::Out, Some(&request), graph) {
        Ok(_) => Ok(None),
        Err((misfit, _)) => Ok(Some(misfit)),
    }
}

// Whether a misfit is this one.
fn is(misfit: Option<Misfit>, home: Home, node: u32, reason: MisfitReason) -> bool {
    misfit == Some(Misfit::At { home, node, reason })
}

// Whether a cell is a node of a ring, by its place.
fn is_node(graph: &Graph, at: usize, number: i128, next: u32) -> bool {
    let Some(cell) = graph.cells.get(at) else {
        return false;
    };
    let Val::Rec(members) = &cell.val else {
        return false;
    };
    let Some(Val::Num(value)) = members.get(0) else {
        return false;
    };
    let Some(Val::Ptr(Some(named))) = members.get(1) else {
        return false;
    };
    *value == number && named.0 == next
}

// Whether two graphs of the inputs of the ring's operation are the same.
fn are_same(alloc: Global, interface: &Interface, one: Graph, other: Graph) -> Result<bool, Memory>
    requires operations { interface.now.operations ≡ row_operations }
    requires small { IsSmall one }
    requires other { IsSmall other }
{
    let one = fitted(alloc, interface, RING, one)?;
    let other = fitted(alloc, interface, RING, other)?;
    same(alloc, &one, &other)
}

// The values of the canonical form of such a graph.
fn canonical_values(alloc: Global, interface: &Interface, graph: Graph) -> Result<Graph, Memory>
    requires operations { interface.now.operations ≡ row_operations }
    requires small { IsSmall graph }
{
    let fit = fitted(alloc, interface, RING, graph)?;
    let canon = canonical(alloc, &fit)?;
    match canon.graph(alloc) {
        Ok(graph) => Ok(graph),
        Err(_) => Err(Memory),
    }
}

// A ring of 7 and 8 with its cells swapped is the same. A ring of 7 alone is another graph.
#[test]
#[tactic(auto, using(crate::proofs::Small::ring_of_one_small, crate::proofs::Small::ring_of_two_small, crate::proofs::Small::ring_swapped_small))]
fn rings_are_compared(rt: HostRuntime) -> Result<(), Fail> {
    let interface = interface(rt.alloc())?;
    let (ring, swapped) = (ring_of_two(rt.alloc())?, ring_swapped(rt.alloc())?);
    assert!(rt; are_same(rt.alloc(), &interface, ring, swapped)?);
    let (single, ring) = (ring_of_one(rt.alloc())?, ring_of_two(rt.alloc())?);
    assert!(rt; !are_same(rt.alloc(), &interface, single, ring)?);
    Ok(())
}

// The canonical form of the ring with its cells swapped has them in the order of the stream.
#[test]
#[tactic(auto, using(crate::proofs::Small::ring_swapped_small))]
fn rings_are_made_canonical(rt: HostRuntime) -> Result<(), Fail> {
    let interface = interface(rt.alloc())?;
    let graph = canonical_values(rt.alloc(), &interface, ring_swapped(rt.alloc())?)?;
    assert!(rt; is_node(&graph, 0, 7, 2));
    assert!(rt; is_node(&graph, 1, 8, 1));
    Ok(())
}

// A null reference pointer; a cell that is not there.
#[test]
#[tactic(auto, using(crate::proofs::Small::null_small, crate::proofs::Small::without_cells_small))]
fn pointers_do_not_fit(rt: HostRuntime) -> Result<(), Fail> {
    let interface = interface(rt.alloc())?;
    let found = misfit(rt.alloc(), &interface, PAIR, null(rt.alloc())?);
    assert!(rt; is(found, Home::Root(0), 0, MisfitReason::NullRef));
    let found = misfit(rt.alloc(), &interface, RING, without_cells(rt.alloc())?);
    assert!(rt; is(found, Home::Root(0), 0, MisfitReason::NoCell));
    Ok(())
}

// A cell that two unique pointers share, and none that is; a cell that nothing names.
#[test]
#[tactic(auto, using(crate::proofs::Small::apart_small, crate::proofs::Small::shared_small, crate::proofs::Small::ring_and_leaf_small))]
fn cells_are_shared_or_not_reached(rt: HostRuntime) -> Result<(), Fail> {
    let interface = interface(rt.alloc())?;
    assert!(rt; misfit(rt.alloc(), &interface, TWO, apart(rt.alloc())?).is_none());
    let found = misfit(rt.alloc(), &interface, TWO, shared(rt.alloc())?);
    assert!(rt; is(found, Home::Root(1), 0, MisfitReason::Shared));
    let found = misfit(rt.alloc(), &interface, RING, ring_and_leaf(rt.alloc())?);
    assert!(rt; is(found, Home::Cell(CellId(2)), 0, MisfitReason::Unreached));
    Ok(())
}

// A count that disagrees with its array, at the array; a zero within a string, at the string.
#[test]
#[tactic(auto, using(crate::proofs::Small::miscounted_small, crate::proofs::Small::zero_within_small))]
fn cells_do_not_fit(rt: HostRuntime) -> Result<(), Fail> {
    let interface = interface(rt.alloc())?;
    let found = misfit(rt.alloc(), &interface, SUM, miscounted(rt.alloc())?);
    let wanted = 3;
    let reason = MisfitReason::Disagrees { wanted, found: 2 };
    assert!(rt; is(found, Home::Cell(CellId(1)), 2, reason));
    let found = misfit(rt.alloc(), &interface, SAY, zero_within(rt.alloc())?);
    assert!(rt; is(found, Home::Cell(CellId(1)), 0, MisfitReason::Zero));
    Ok(())
}

// An array of bytes is kept as a row: it is given at once, with its full count.
#[test]
#[tactic(auto, using(crate::proofs::Small::two_back_small))]
fn arrays_are_kept_as_rows(rt: HostRuntime) -> Result<(), Fail> {
    let interface = interface(rt.alloc())?;
    let fit = fitted_back(rt.alloc(), &interface, SIZED, two_back(rt.alloc())?)?;
    let mut walk = fit.walk(Home::Root(0));
    let (max, offset, count) = (2, 0, 2);
    assert!(rt; walk.step() == Some(Seen::Arr { max, offset, count }));
    let row = walk.row(u32::MAX).ok_or("a row")?;
    assert!(rt; row.count == 2 && row.octets == b"\xab\xcd".as_slice());
    assert!(rt; walk.step().is_none());
    Ok(())
}

// The size of an output by a number of the request.
#[test]
#[tactic(auto, using(crate::proofs::Small::asked_small, crate::proofs::Small::two_back_small))]
fn requests_give_sizes(rt: HostRuntime) -> Result<(), Fail> {
    let interface = interface(rt.alloc())?;
    let (request, graph) = (asked(rt.alloc(), 2)?, two_back(rt.alloc())?);
    assert!(rt; misfit_beside(rt.alloc(), &interface, SIZED, request, graph)?.is_none());
    let (request, graph) = (asked(rt.alloc(), 3)?, two_back(rt.alloc())?);
    let found = misfit_beside(rt.alloc(), &interface, SIZED, request, graph)?;
    let wanted = 3;
    let reason = MisfitReason::Disagrees { wanted, found: 2 };
    assert!(rt; is(found, Home::Root(0), 0, reason));
    Ok(())
}

// Where the variable travels back too, the response's own number counts.
#[test]
#[tactic(auto, using(crate::proofs::Small::asked_by_pointer_small, crate::proofs::Small::one_back_small))]
fn responses_give_sizes(rt: HostRuntime) -> Result<(), Fail> {
    let interface = interface(rt.alloc())?;
    let request = asked_by_pointer(rt.alloc(), 5)?;
    let graph = one_back(rt.alloc(), 1)?;
    assert!(rt; misfit_beside(rt.alloc(), &interface, SIZED_BY_POINTER, request, graph)?.is_none());
    let request = asked_by_pointer(rt.alloc(), 5)?;
    let graph = one_back(rt.alloc(), 5)?;
    let found = misfit_beside(rt.alloc(), &interface, SIZED_BY_POINTER, request, graph)?;
    let wanted = 5;
    let reason = MisfitReason::Disagrees { wanted, found: 1 };
    assert!(rt; is(found, Home::Root(1), 0, reason));
    Ok(())
}
