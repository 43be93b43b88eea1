// Octets that are refused are traced through the public calls, with ample memory.
ghost use Rattle.std.specs.Prelude.{◌<◌, length};

use crate::trace_interface::interface;
use nd_base::{LentSource, Memory, Order, Steps, Uncounted};
use nd_grammar::Reason;
use nd_types::{Interface, Side};
use nd_value::ItemLog;
use ndr_code::Plan;
use ndr_decode::{DecodeFault, decode};
use ndr_plan::make;
use ndr_trace::{Traced, trace};
use std::alloc::Global;
use std::test::Fail;

// Octets of an operation's inputs, with their trace.
#[derive(Clone, Copy)]
struct Row {
    op: u32,
    octets: &'static [u8],
    lines: &'static [u8],
    path: &'static [u8],
}

const PUT: u32 = 0;

const CHOOSE: u32 = 1;

const SHARE: u32 = 2;

const FEED: u32 = 3;

const ROWS: &[Row] = &[
    // An array is cut short, in an element.
    Row {
        op: PUT,
        octets: b"\x02\0\0\0\x02\0\0\0\x05\0\0\0\x06\0",
        lines: b"0 4 max @1 2\n4 2 num @1.n 2\n6 2 gap\n8 4 num @1.a[0] 5\n",
        path: b"@1.a[1]",
    },
    // A gap before the fault is not zero.
    Row {
        op: PUT,
        octets: b"\x02\0\0\0\x02\0\0\xa1\x05\0\0\0\x06\0",
        lines: b"0 4 max @1 2\n4 2 num @1.n 2\n6 2 gap x\"00a1\"\n8 4 num @1.a[0] 5\n",
        path: b"@1.a[1]",
    },
    // Octets end in a gap.
    Row {
        op: PUT,
        octets: b"\x02\0\0\0\x02\0\0",
        lines: b"0 4 max @1 2\n4 2 num @1.n 2\n",
        path: b"@1.a[0]",
    },
    // Octets end between two items.
    Row {
        op: PUT,
        octets: b"\x02\0\0\0",
        lines: b"0 4 max @1 2\n",
        path: b"@1.n",
    },
    // A count states another number than there are elements.
    Row {
        op: PUT,
        octets: b"\x02\0\0\0\x03\0\0\0\x05\0\0\0\x06\0\0\0",
        lines: b"0 4 max @1 2\n4 2 num @1.n 3\n6 2 gap\n8 4 num @1.a[0] 5\n12 4 num @1.a[1] 6\n",
        path: b"@1.a @1.n",
    },
    // A tag selects no arm.
    Row {
        op: CHOOSE,
        octets: b"\x01\0\x01\0\x07\0\0\0\x03\0\x03\0",
        lines: b"0 2 num a[0].k 1\n2 2 tag a[0].v 1\n4 4 num a[0].v.x 7\n8 2 num a[1].k 3\n",
        path: b"a[1].v",
    },
    // A number is that of a referent of another type.
    Row {
        op: SHARE,
        octets: b"\x02\0\0\0\x07\0\0\0\x02\0\0\0",
        lines: b"0 4 number p 2\n4 4 num @1 7\n",
        path: b"q",
    },
    // The second chunk of a pipe is cut short.
    Row {
        op: FEED,
        octets: b"\x02\0\0\0\x01\0\0\0\x02\0\0\0\x01\0\0\0\x03\0",
        lines: b"0 4 chunk d 2\n4 4 num d[0] 1\n8 4 num d[1] 2\n12 4 chunk d 1\n",
        path: b"d[2]",
    },
];

// Where octets are refused, and why; nothing if they are not. Their items are logged.
fn refused(
    alloc: Global,
    plan: &Plan,
    op: u32,
    octets: &[u8],
    items: &mut ItemLog,
) -> Option<(u32, Reason)>
    requires known { op < length plan.now.tie.operations }
{
    let mut source = LentSource::new(octets);
    let mut steps = Steps::new(Uncounted::new());
    let (side, order) = (Side::In, Order::Little);
    match decode(
        alloc,
        plan,
        op,
        side,
        order,
        None,
        &mut source,
        items,
        &mut steps,
    ) {
        Err(DecodeFault::Bad { place, reason }) => Some((place, reason)),
        _ => None,
    }
}

// The trace of octets. It is out of memory too if the octets are not refused.
fn traced(alloc: Global, interface: &Interface, op: u32, octets: &[u8]) -> Result<Traced, Memory> {
    let plan = make(alloc, interface)?;
    if op as usize >= interface.operations.len() {
        return Err(Memory);
    }
    let mut items = ItemLog::keeping(alloc);
    let Some((place, why)) = refused(alloc, &plan, op, octets, &mut items) else {
        return Err(Memory);
    };
    let (side, order) = (Side::In, Order::Little);
    trace(
        alloc, interface, op, side, None, order, octets, &items, place, why,
    )
}

// Whether the octets of a row have its trace.
fn is_traced(alloc: Global, interface: &Interface, row: &Row) -> Result<bool, Memory> {
    let traced = traced(alloc, interface, row.op, row.octets)?;
    Ok(traced.lines.as_slice() == row.lines && traced.path.as_slice() == row.path)
}

#[test]
fn refused_octets_are_traced(rt: HostRuntime) -> Result<(), Fail> {
    let interface = interface(rt.alloc())?;
    for row in ROWS {
        assert!(rt; is_traced(rt.alloc(), &interface, row)?);
    }
    Ok(())
}
