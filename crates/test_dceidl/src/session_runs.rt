// Sessions over three resources in memory, in which some calls fail.
ghost use Rattle.std.specs.Prelude.{◌≡◌, false, IfOk};
ghost use Rattle.ctx_store.specs.InMemory.{mem_resource_seen, was_ended};
ghost use Rattle.ctx_session.specs.Session.{AreFresh};
ghost use Rattle.ctx_session.specs.Stocked.{fresh_seen};

use command_session::session;
use ctx_session::StockOf;
use ctx_store::{MemResource, Resource};
use nd_base::{MemSink, MemSource, Memory};
use std::alloc::Global;

// Which calls fail, by their numbers from 1: 0 fails none. Of a resource `apply` and `end` are counted together.
#[derive(Clone, Copy)]
pub(crate) struct Failing {
    pub(crate) fetch: u32,
    pub(crate) put: u32,
    pub(crate) note: u32,
    // How many octets the output and the notes hold.
    pub(crate) out_room: u32,
    pub(crate) notes_room: u32,
    pub(crate) resources: [u32; 3],
}

// More octets than an output gets here.
const AMPLE: u32 = 4000;

// The room of a resource.
const LINES: u32 = 16;

// No call fails.
pub(crate) const NONE: Failing = Failing {
    fetch: 0,
    put: 0,
    note: 0,
    out_room: AMPLE,
    notes_room: AMPLE,
    resources: [0, 0, 0],
};

// What a session answers, and what it wrote and left.
#[derive(Drop)]
pub(crate) struct Ran {
    pub(crate) status: u8,
    pub(crate) left: usize,
    pub(crate) out: MemSink,
    pub(crate) notes: MemSink,
    pub(crate) stock: StockOf<MemResource>,
}

pub(crate) fn run_session(alloc: Global, script: &[u8], failing: &Failing) -> Result<Ran, Memory> {
    let mut input = MemSource::new(alloc, script, 7, &[failing.fetch])?;
    let mut out = MemSink::new(alloc, failing.out_room, &[failing.put])?;
    let mut notes = MemSink::new(alloc, failing.notes_room, &[failing.note])?;
    let mut stock = StockOf::new(alloc);
    for at in 0..3usize {
        supply(
            &mut stock,
            MemResource::new(alloc, LINES, &[failing.resources[at]])?,
        )?;
    }
    let status = session(alloc, &mut input, &mut out, &mut notes, &mut stock);
    Ok(Ran {
        status,
        left: input.left().len(),
        out,
        notes,
        stock,
    })
}

// One more fresh resource.
pub(crate) fn supply(stock: &mut StockOf<MemResource>, resource: MemResource) -> Result<(), Memory>
    requires all { AreFresh (fresh_seen mem_resource_seen stock.old) }
    requires one { was_ended resource ≡ false }
    ensures { IfOk result (λ _. AreFresh (fresh_seen mem_resource_seen stock.new)) }
{
    match stock.push(resource) {
        Ok(()) => Ok(()),
        Err((memory, _)) => Err(memory),
    }
}

// Whether so many resources are fresh, and the spent ones, each of which was ended, have these lines.
pub(crate) fn has_stock(ran: &Ran, fresh: usize, spent: &[&[u8]]) -> bool {
    for at in 0..spent.len() {
        if !has_lines(ran.stock.spent(at), spent[at]) {
            return false;
        }
    }
    let whole = fresh == 0 || ran.stock.fresh(fresh - 1).is_some();
    whole && ran.stock.fresh(fresh).is_none() && ran.stock.spent(spent.len()).is_none()
}

// Whether a resource was ended and has these lines.
fn has_lines(resource: Option<&MemResource>, lines: &[u8]) -> bool {
    match resource {
        Some(resource) => resource.ended() && resource.lines() == Some(lines),
        None => false,
    }
}
