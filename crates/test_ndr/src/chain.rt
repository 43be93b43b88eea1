// A chain of a million cells is made by the public calls, encoded and decoded. No call may nest as deep as the chain is long.
ghost use Rattle.std.specs.Prelude.{◌≡◌, ◌<◌, ◌∷◌, [], length, IfOk, IfSome};
ghost use Rattle.nd_value.specs.Conforms.{HasFewNodes};
ghost use Rattle.nd_value.specs.Seen.{cell_of};
ghost use Rattle.test_ndr.specs.Chain.{IsNode, AreNodes, to_first};

use crate::interface::interface;
use nd_base::{Memory, Octets, Order, PlainSource, Steps, Uncounted};
use nd_graph::{Cell, CellId, Cells, Fit, Graph, ItemLog, Val, Vals, fit, same};
use nd_types::{Interface, Side, TypeId};
use ndr_code::Plan;
use ndr_decode::{DecodeFault, Decoded, decode};
use ndr_encode::{Work, encode_with};
use ndr_plan::make;
use std::alloc::Global;
use std::test::Fail;

const IDL: &[u8] = b"[uuid(11111111-2222-3333-4444-555555555555)] interface t {
  typedef struct node { long v; [ptr] struct node *next; } node;
  void ring([in, ptr] node *p);
}";

// The number of the type of a node, the first after the basic ones.
const NODE: TypeId = TypeId(12);

// A pointer to the first of so many cells, each of which has its own number and a pointer to the next; that of the last is null.
#[tactic(auto, using(crate::proofs::Nodes::few_nodes))]
fn chain(alloc: Global, count: u32) -> Result<Graph, Memory>
    ensures cells { IfOk result (λ g. length g.cells ≡ count) }
    ensures few { IfOk result (λ g. HasFewNodes g) }
{
    let roots = head(alloc)?;
    let cells = cells(alloc, count)?;
    Ok(Graph { roots, cells })
}

// A pointer to the first cell.
fn head(alloc: Global) -> Result<Vals, Memory>
    ensures { IfOk result (λ vs. vs ≡ to_first ∷ []) }
{
    let mut vals = Vals::new(alloc);
    let Ok(()) = vals.push(Val::Ptr(Some(CellId(1)))) else {
        return Err(Memory);
    };
    Ok(vals)
}

#[tactic(auto, using(crate::proofs::Nodes::more_nodes))]
fn cells(alloc: Global, count: u32) -> Result<Cells, Memory>
    ensures count { IfOk result (λ cs. length cs ≡ count) }
    ensures nodes { IfOk result (λ cs. AreNodes cs) }
{
    let mut cells = Cells::new(alloc);
    for at in 0..count {
        let cell = cell(alloc, at, count)?;
        let Ok(()) = cells.push(cell) else {
            return Err(Memory);
        };
    }
    Ok(cells)
}

// The cell at a place, from 0.
fn cell(alloc: Global, at: u32, count: u32) -> Result<Cell, Memory>
    requires { at < count }
    ensures { IfOk result (λ c. IsNode (cell_of c)) }
{
    let next = if at + 1 < count {
        Some(CellId(at + 2))
    } else {
        None
    };
    let mut members = Vals::new(alloc);
    if members.push(Val::Num(i128::from(at) + 1)).is_err()
        || members.push(Val::Ptr(next)).is_err()
    {
        return Err(Memory);
    }
    Ok(Cell {
        of: NODE,
        val: Val::Rec(members),
    })
}

// The octets of a graph, in little order; none if they are more than a stream may have.
fn encoded(alloc: Global, plan: &Plan, fit: &Fit) -> Result<Octets, Memory>
    requires tied { plan.now.tie ≡ fit.now.interface }
{
    let Ok(mut work) = Work::for_graph(alloc, plan, fit, 1) else {
        return Ok(Octets::new(alloc));
    };
    let mut out = vec![in alloc; 0u8; work.length() as usize]?;
    encode_with(&mut work, plan, fit, Order::Little, out.as_mut_slice());
    Ok(Octets::adopt(out))
}

// The graph that octets represent.
fn decoded(alloc: Global, plan: &Plan, octets: Octets) -> Result<Decoded, DecodeFault>
    requires known { 0 < length plan.now.tie.operations }
{
    let mut source = PlainSource::new(octets);
    let mut log = ItemLog::quiet();
    let mut steps = Steps::new(Uncounted::new());
    decode(
        alloc,
        plan,
        0,
        Side::In,
        Order::Little,
        None,
        &mut source,
        &mut log,
        &mut steps,
    )
}

// The chain of so many cells as a graph of the operation, or None if it does not fit.
fn fitted(alloc: Global, interface: &Interface, count: u32) -> Result<Option<Fit>, Memory>
    requires known { 0 < length interface.now.operations }
    ensures { IfOk result (λ o. IfSome o (λ f. f.interface ≡ interface.now)) }
{
    let graph = chain(alloc, count)?;
    match fit(alloc, interface, 0, Side::In, None, graph) {
        Ok(fit) => Ok(Some(fit)),
        Err(_) => Ok(None),
    }
}

// Whether a graph takes so many octets, which are decoded to the same graph.
fn is_kept(alloc: Global, plan: &Plan, fit: &Fit, size: usize) -> Result<bool, Memory>
    requires tied { plan.now.tie ≡ fit.now.interface }
    requires known { 0 < length plan.now.tie.operations }
{
    let octets = encoded(alloc, plan, fit)?;
    if octets.as_slice().len() != size {
        return Ok(false);
    }
    match decoded(alloc, plan, octets) {
        Ok(decoded) => {
            let is_same = same(alloc, fit, &decoded.fit)?;
            Ok(is_same && decoded.taken as usize == size)
        }
        Err(_) => Ok(false),
    }
}

// Whether a chain of so many cells takes so many octets, which are decoded to the same graph.
fn comes_back(alloc: Global, count: u32, size: usize) -> Result<bool, Memory> {
    let interface = interface(alloc, IDL)?;
    let plan = make(alloc, &interface)?;
    if interface.operations.len() == 0 {
        return Ok(false);
    }
    match fitted(alloc, &interface, count)? {
        Some(fit) => is_kept(alloc, &plan, &fit, size),
        None => Ok(false),
    }
}

// Eight octets for each node, and four for the pointer to the first.
#[test]
fn long_chains_come_back(rt: HostRuntime) -> Result<(), Fail> {
    assert!(rt; comes_back(rt.alloc(), 1_000_000, 8_000_004)?);
    Ok(())
}
