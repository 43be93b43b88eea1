// Octets through the public calls.
ghost use Rattle.std.specs.Prelude.{◌≡◌, ◌<◌, ℕ, length, IfOk};
ghost use Rattle.ndr_encode.specs.Work.{IsWorkFor};

use crate::interface::interface;
use nd_base::{Counted, MemSource, Memory, Order, Steps};
use nd_flat::{Fit, Seen, Walk};
use nd_grammar::Reason;
use nd_types::Side;
use nd_value::{CellId, Graph, ItemLog, Val};
use ndr_code::Plan;
use ndr_decode::{DecodeFault, Decoded, decode};
use ndr_encode::{EncodeFault, Work, encode_with};
use ndr_plan::make;
use std::alloc::Global;
use std::test::Fail;

// The operations by their numbers: an array of structs with unique pointers, a struct with an array, two full pointers, a context handle,
// a list, and full pointers that share a referent.
const IDL: &[u8] = b"[uuid(11111111-2222-3333-4444-555555555555)] interface t {
  typedef struct { long v; } leaf;
  typedef struct { byte t; [unique] leaf *p; } holder;
  typedef struct { short n; [size_is(n)] hyper a[*]; } s;
  typedef [context_handle] void *ctx;
  typedef struct node { long v; [ptr] struct node *next; } node;
  typedef struct { [ptr] leaf *y; [ptr] leaf *z; } two;
  typedef struct { [ptr] two *a; [ptr] leaf *b; } pair;
  void arrc([in] long n, [in, size_is(n)] holder a[*]);
  void sum([in] s *p);
  void f([in, ptr] long *a, [in, ptr] short *b);
  void use([in] ctx c);
  void ring([in, ptr] node *p);
  void turns([in] pair *p);
}";

const HOLDERS: u32 = 0;

const SUM: u32 = 1;

const FULL: u32 = 2;

const USE: u32 = 3;

const RING: u32 = 4;

const TURNS: u32 = 5;

// What Samba's libndr writes of the holders 1 (with a leaf 11), 2 (null) and 3 (with a leaf 12).
const HOLDERS_OCTETS: &[u8] =
    b"\x03\0\0\0\x03\0\0\0\x01\0\0\0\0\0\x02\0\x02\0\0\0\0\0\0\0\x03\0\0\0\x04\0\x02\0\x0b\0\0\0\x0c\0\0\0";

// The same with the cells' own numbers, in both orders.
const HOLDERS_LITTLE: &[u8] =
    b"\x03\0\0\0\x03\0\0\0\x01\0\0\0\x01\0\0\0\x02\0\0\0\0\0\0\0\x03\0\0\0\x02\0\0\0\x0b\0\0\0\x0c\0\0\0";

const HOLDERS_BIG: &[u8] =
    b"\0\0\0\x03\0\0\0\x03\x01\0\0\0\0\0\0\x01\x02\0\0\0\0\0\0\0\x03\0\0\0\0\0\0\x02\0\0\0\x0b\0\0\0\x0c";

// A context handle in both orders.
const CONTEXT_LITTLE: &[u8] =
    b"\0\0\0\0\x33\x22\x11\0\x55\x44\x77\x66\x88\x99\xaa\xbb\xcc\xdd\xee\xff";

const CONTEXT_BIG: &[u8] =
    b"\0\0\0\0\0\x11\x22\x33\x44\x55\x66\x77\x88\x99\xaa\xbb\xcc\xdd\xee\xff";

// A pair: of two leaves the first is shared, and is where the first pointer to it has its turn, after the pointers of both structs.
const TURNS_LITTLE: &[u8] = b"\x02\0\0\0\x03\0\0\0\x03\0\0\0\x04\0\0\0\x05\0\0\0\x06\0\0\0";

const TURNS_BIG: &[u8] = b"\0\0\0\x02\0\0\0\x03\0\0\0\x03\0\0\0\x04\0\0\0\x05\0\0\0\x06";

// A node of a value.
#[derive(Clone, Copy)]
enum Node {
    Num(i128),
    Rec(u32),
    Arr { max: u32, offset: u32, count: u32 },
    Null,
    /// The number of the cell.
    Ptr(u32),
}

// Octets of an operation's inputs, and the graph that they are decoded to.
#[derive(Clone, Copy)]
struct Row {
    op: u32,
    octets: &'static [u8],
    /// How many octets the source gives at a call.
    piece: u32,
    taken: u32,
    left: &'static [u8],
    /// Each item but gaps is a step, and so is each cell.
    steps: u64,
    /// The nodes of each root, and of each cell.
    roots: &'static [&'static [Node]],
    cells: &'static [&'static [Node]],
}

const ROWS: &[Row] = &[
    // An array of structs with unique pointers, and two octets after it.
    Row {
        op: HOLDERS,
        octets: b"\x03\0\0\0\x03\0\0\0\x01\0\0\0\0\0\x02\0\x02\0\0\0\0\0\0\0\x03\0\0\0\x04\0\x02\0\x0b\0\0\0\x0c\0\0\0\xff\xff",
        piece: 3,
        taken: 40,
        left: b"\xff\xff",
        steps: 12,
        roots: &[
            &[Node::Num(3)],
            &[
                Node::Arr {
                    max: 3,
                    offset: 0,
                    count: 3,
                },
                Node::Rec(2),
                Node::Num(1),
                Node::Ptr(1),
                Node::Rec(2),
                Node::Num(2),
                Node::Null,
                Node::Rec(2),
                Node::Num(3),
                Node::Ptr(2),
            ],
        ],
        cells: &[
            &[Node::Rec(1), Node::Num(11)],
            &[Node::Rec(1), Node::Num(12)],
        ],
    },
    // A ring of 7 and 8, and an octet after it.
    Row {
        op: RING,
        octets: b"\x01\0\0\0\x07\0\0\0\x02\0\0\0\x08\0\0\0\x01\0\0\0\xff",
        piece: 1,
        taken: 20,
        left: b"\xff",
        steps: 7,
        roots: &[&[Node::Ptr(1)]],
        cells: &[
            &[Node::Rec(2), Node::Num(7), Node::Ptr(2)],
            &[Node::Rec(2), Node::Num(8), Node::Ptr(1)],
        ],
    },
];

// Octets of an operation's inputs that are refused: at which place, for which reason, and which octets are left then.
#[derive(Clone, Copy)]
struct Refused {
    op: u32,
    octets: &'static [u8],
    piece: u32,
    place: u32,
    reason: Reason,
    left: &'static [u8],
}

const REFUSED: &[Refused] = &[
    // A count that disagrees with its array, at the count.
    Refused {
        op: SUM,
        octets: b"\x02\0\0\0\0\0\0\0\x03\0\0\0\0\0\0\0\x01\0\0\0\0\0\0\0\x02\0\0\0\0\0\0\0\xff",
        piece: 4096,
        place: 0,
        reason: Reason::Disagrees {
            wanted: 3,
            found: 2,
        },
        left: b"\xff",
    },
    // A full pointer to a referent of another type, at the pointer.
    Refused {
        op: FULL,
        octets: b"\x01\0\0\0\x05\0\0\0\x01\0\0\0\xff",
        piece: 4096,
        place: 8,
        reason: Reason::OtherType,
        left: b"\xff",
    },
    // The first octets of a ring end too early.
    Refused {
        op: RING,
        octets: b"\x01\0\0\0\x07\0\0\0\x02\0",
        piece: 1,
        place: 10,
        reason: Reason::Truncated,
        left: b"",
    },
];

// Octets of an operation's inputs, and those that are written of their graph, in both orders.
#[derive(Clone, Copy)]
struct Written {
    op: u32,
    octets: &'static [u8],
    little: &'static [u8],
    big: &'static [u8],
}

const WRITTEN: &[Written] = &[
    Written {
        op: USE,
        octets: CONTEXT_LITTLE,
        little: CONTEXT_LITTLE,
        big: CONTEXT_BIG,
    },
    Written {
        op: TURNS,
        octets: TURNS_LITTLE,
        little: TURNS_LITTLE,
        big: TURNS_BIG,
    },
    Written {
        op: HOLDERS,
        octets: HOLDERS_OCTETS,
        little: HOLDERS_LITTLE,
        big: HOLDERS_BIG,
    },
];

// The plan of the interface. It is out of memory too if the number is that of no operation.
fn plan(alloc: Global, op: u32) -> Result<Plan, Memory>
    ensures known { IfOk result (λ p. op < length p.tie.operations) }
{
    let interface = interface(alloc, IDL)?;
    let plan = make(alloc, &interface)?;
    if op as usize >= interface.operations.len() {
        return Err(Memory);
    }
    Ok(plan)
}

// The inputs of an operation in little order.
fn decoded(
    alloc: Global,
    plan: &Plan,
    op: u32,
    source: &mut MemSource,
    steps: &mut Steps<Counted>,
) -> Result<Decoded, DecodeFault>
    requires known { op < length plan.now.tie.operations }
    ensures tied { IfOk result (λ d. d.fit.interface ≡ plan.now.tie) }
{
    let mut log = ItemLog::quiet();
    let (side, order) = (Side::In, Order::Little);
    let decoded = decode(alloc, plan, op, side, order, None, source, &mut log, steps)?;
    Ok(decoded)
}

// A node as a walk sees it.
fn seen_of(node: Node) -> Seen<'static> {
    match node {
        Node::Num(number) => Seen::Num(number),
        Node::Rec(members) => Seen::Rec(members),
        Node::Arr { max, offset, count } => Seen::Arr { max, offset, count },
        Node::Null => Seen::Ptr(None),
        Node::Ptr(cell) => Seen::Ptr(Some(CellId(cell))),
    }
}

// Whether a walk sees these nodes.
fn sees(walk: Walk<'_>, nodes: &[Node]) -> bool {
    let mut walk = walk;
    for node in nodes {
        if walk.step() != Some(seen_of(*node)) {
            return false;
        }
    }
    walk.step().is_none()
}

// Whether the roots of a graph have these nodes.
fn has_roots(fit: &Fit, roots: &[&[Node]]) -> bool {
    let flat = fit.flat();
    for (at, nodes) in roots.iter().enumerate() {
        if at >= flat.root_count() || !sees(flat.root_walk(at), nodes) {
            return false;
        }
    }
    flat.root_count() == roots.len()
}

// Whether the cells of a graph have these nodes.
fn has_cells(fit: &Fit, cells: &[&[Node]]) -> bool {
    let flat = fit.flat();
    for (at, nodes) in cells.iter().enumerate() {
        if at >= flat.cell_count() || !sees(flat.cell_walk(at), nodes) {
            return false;
        }
    }
    flat.cell_count() == cells.len()
}

// Whether a row is decoded to its graph.
fn is_decoded(alloc: Global, row: &Row) -> Result<bool, DecodeFault> {
    let plan = plan(alloc, row.op)?;
    let mut source = MemSource::new(alloc, row.octets, row.piece.max(1), &[])?;
    let mut steps = Steps::new(Counted::new());
    let decoded = decoded(alloc, &plan, row.op, &mut source, &mut steps)?;
    Ok(
        decoded.taken == row.taken
            && source.left() == row.left
            && steps.ledger().count() == row.steps
            && has_roots(&decoded.fit, row.roots)
            && has_cells(&decoded.fit, row.cells),
    )
}

// Whether a row is refused where it has to be.
fn is_refused(alloc: Global, row: &Refused) -> Result<bool, Memory> {
    let plan = plan(alloc, row.op)?;
    let mut source = MemSource::new(alloc, row.octets, row.piece.max(1), &[])?;
    let mut steps = Steps::new(Counted::new());
    let (place, reason) = (row.place, row.reason);
    match decoded(alloc, &plan, row.op, &mut source, &mut steps) {
        Ok(_) => Ok(false),
        Err(fault) => Ok(fault == DecodeFault::Bad { place, reason } && source.left() == row.left),
    }
}

// Whether a work writes these octets. It stays as it is.
fn writes(
    alloc: Global,
    work: &mut Work,
    plan: &Plan,
    fit: &Fit,
    order: Order,
    octets: &[u8],
) -> Result<bool, Memory>
    requires tied { plan.now.tie ≡ fit.now.interface }
    requires made { (k : ℕ) × IsWorkFor fit.now k work.old }
    ensures again { work.new ≡ work.old }
{
    let mut out = vec![in alloc; 0u8; work.length() as usize]?;
    encode_with(work, plan, fit, order, out.as_mut_slice());
    Ok(out.as_slice() == octets)
}

// Whether one work writes the octets of a row, in the one order, in the other, and in the first again.
fn writes_again(alloc: Global, plan: &Plan, fit: &Fit, row: &Written) -> Result<bool, EncodeFault>
    requires tied { plan.now.tie ≡ fit.now.interface }
{
    let mut work = Work::for_graph(alloc, plan, fit, 1)?;
    let first = writes(alloc, &mut work, plan, fit, Order::Little, row.little)?;
    let second = writes(alloc, &mut work, plan, fit, Order::Big, row.big)?;
    let third = writes(alloc, &mut work, plan, fit, Order::Little, row.little)?;
    Ok(first && second && third && work.length() as usize == row.little.len())
}

// Whether the octets that are written of a row's graph are those of the row.
fn is_written(alloc: Global, row: &Written) -> Result<bool, EncodeFault> {
    let plan = plan(alloc, row.op)?;
    let mut source = MemSource::new(alloc, row.octets, 4096, &[])?;
    let mut steps = Steps::new(Counted::new());
    match decoded(alloc, &plan, row.op, &mut source, &mut steps) {
        Ok(decoded) => writes_again(alloc, &plan, &decoded.fit, row),
        Err(_) => Ok(false),
    }
}

// Whether a cell of a graph of values is a struct of two pointers to these cells.
fn is_two(graph: &Graph, at: usize, first: u32, second: u32) -> bool {
    let Some(cell) = graph.cells.get(at) else {
        return false;
    };
    let Val::Rec(members) = &cell.val else {
        return false;
    };
    let Some(Val::Ptr(Some(one))) = members.get(0) else {
        return false;
    };
    let Some(Val::Ptr(Some(other))) = members.get(1) else {
        return false;
    };
    one.0 == first && other.0 == second
}

// Whether the cells are numbered by their turns: the leaf that both structs share is the third, where its first pointer in the stream has its turn.
fn has_shared_referents(alloc: Global) -> Result<bool, DecodeFault> {
    let plan = plan(alloc, TURNS)?;
    let mut source = MemSource::new(alloc, TURNS_LITTLE, 4096, &[])?;
    let mut steps = Steps::new(Counted::new());
    let decoded = decoded(alloc, &plan, TURNS, &mut source, &mut steps)?;
    match decoded.fit.graph(alloc) {
        Ok(graph) => Ok(
            decoded.taken == 24
                && graph.roots.len() == 1
                && graph.cells.len() == 4
                && is_two(&graph, 0, 2, 3)
                && is_two(&graph, 1, 3, 4),
        ),
        Err(_) => Ok(false),
    }
}

#[test]
fn values_are_decoded(rt: HostRuntime) -> Result<(), Fail> {
    for row in ROWS {
        assert!(rt; is_decoded(rt.alloc(), row)?);
    }
    Ok(())
}

#[test]
fn first_faults_are_found(rt: HostRuntime) -> Result<(), Fail> {
    for row in REFUSED {
        assert!(rt; is_refused(rt.alloc(), row)?);
    }
    Ok(())
}

#[test]
fn shared_referents_are_values(rt: HostRuntime) -> Result<(), Fail> {
    assert!(rt; has_shared_referents(rt.alloc())?);
    Ok(())
}

// A work is used again, in both orders.
#[test]
fn works_are_used_again(rt: HostRuntime) -> Result<(), Fail> {
    for row in WRITTEN {
        assert!(rt; is_written(rt.alloc(), row)?);
    }
    Ok(())
}
