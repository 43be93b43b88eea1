// The lines of a script are done one after the other, and then all that is live is ended.
ghost use Rattle.std.specs.Prelude.{◌≡◌, ◌+◌, ◌<◌, ◌≤◌, ◌-◌, List, [], length, vec_len, vec_capacity};
ghost use Rattle.ctx_store.specs.Resource.{ResourceSeen};
ghost use Rattle.ctx_store.specs.Live.{AreLive};
ghost use Rattle.ctx_store.specs.Seen.{store_seen, store_spare};
ghost use Rattle.ctx_session.specs.Script.{Open, Use, Close, opens_of};
ghost use Rattle.ctx_session.specs.Lines.{line_meant};
ghost use Rattle.ctx_session.specs.Session.{DoesLine, EndsClient, EndsAll, IsReady, AreFresh};
ghost use Rattle.ctx_session.specs.Written.{IsShort};
ghost use Rattle.ctx_session.specs.Stocked.{state_of, spent_room, fresh_seen, spent_seen};
ghost use Rattle.ctx_session.specs.Outcome.{HasRunScript, stock_over};
ghost use Rattle.ctx_session.specs.UnderWay.{AreDone, AreLeft};

use crate::answer::{ANSWER_LIMIT, Answer, write_answer};
use crate::line::{Line, front, rest_at, text_of};
use crate::lines::line_at_front;
use crate::script::check;
use crate::stock::StockOf;
use ctx_store::{Resource, SpentOf, StoreOf, Unknown, UseFault};
use nd_base::Octets;
use std::alloc::Global;
use uuid::Uuid;

/// The most octets of a script.
pub const SCRIPT_LIMIT: usize = 1_048_576;

/// Why a script is not run.
#[derive(Clone, Copy, Debug, PartialEq, Eq)]
pub enum SessionFault {
    /// It has more than [`SCRIPT_LIMIT`] octets.
    TooLong,
    /// The line of this number, from 1, is the first that is none.
    BadLine(u32),
    /// Out of memory.
    Memory,
}

// Opens the first fresh resource.
fn open_next<R: Resource>(
    store: &mut StoreOf<R>,
    stock: &mut StockOf<R>,
    client: u32,
    id: Uuid,
) -> Answer
    requires spare { 0 < store_spare store.old }
    requires ready { IsReady (state_of R.shows store.old stock.old) (spent_room stock.old) }
    ensures does { DoesLine (state_of R.shows store.old stock.old) (Open client id) result (state_of R.shows store.new stock.new) }
    ensures ready { IsReady (state_of R.shows store.new stock.new) (spent_room stock.new) }
    ensures short { IsShort result }
    ensures spare { store_spare store.old ≤ store_spare store.new + 1 }
{
    if stock.is_used_up() {
        return Answer::NoneFresh;
    }
    if let Some(fault) = store.fault_of(id) {
        return Answer::Refused(fault);
    }
    let Some(resource) = stock.take() else {
        return Answer::NoneFresh;
    };
    match store.open(client, id, resource) {
        Ok(()) => Answer::Done,
        // It was seen that nothing refuses it.
        Err(_) => unreachable!(),
    }
}

// Applies a text to the resource of an identifier.
fn use_live<R: Resource>(store: &mut StoreOf<R>, id: Uuid, text: &[u8]) -> Answer
    requires live { AreLive (store_seen R.shows store.old) }
    ensures does { (fresh : List ResourceSeen) (spent : List ResourceSeen)
        → DoesLine (record { live = store_seen R.shows store.old; fresh = fresh; spent = spent }) (Use id text.now) result
        (record { live = store_seen R.shows store.new; fresh = fresh; spent = spent }) }
    ensures live { AreLive (store_seen R.shows store.new) }
    ensures many { length (store_seen R.shows store.new) ≡ length (store_seen R.shows store.old) }
    ensures short { IsShort result }
    ensures spare { store_spare store.old ≤ store_spare store.new }
{
    match store.apply(id, text) {
        Ok(()) => Answer::Done,
        Err(UseFault::Unknown) => Answer::Unknown,
        Err(UseFault::Failed) => Answer::Failed,
    }
}

// Ends the resource of an identifier.
fn close<R: Resource>(store: &mut StoreOf<R>, stock: &mut StockOf<R>, id: Uuid) -> Answer
    requires ready { IsReady (state_of R.shows store.old stock.old) (spent_room stock.old) }
    ensures does { DoesLine (state_of R.shows store.old stock.old) (Close id) result (state_of R.shows store.new stock.new) }
    ensures ready { IsReady (state_of R.shows store.new stock.new) (spent_room stock.new) }
    ensures short { IsShort result }
    ensures spare { store_spare store.old ≤ store_spare store.new }
{
    match store.close(id) {
        Ok(SpentOf { resource, failed }) => {
            stock.spend(resource);
            if failed { Answer::Failed } else { Answer::Done }
        }
        Err(Unknown) => Answer::Unknown,
    }
}

// Ends the resources of a client, and counts them.
fn end_client<R: Resource>(store: &mut StoreOf<R>, stock: &mut StockOf<R>, client: u32) -> u32
    requires ready { IsReady (state_of R.shows store.old stock.old) (spent_room stock.old) }
    ensures does { EndsClient client (state_of R.shows store.old stock.old) result (state_of R.shows store.new stock.new) }
    ensures ready { IsReady (state_of R.shows store.new stock.new) (spent_room stock.new) }
    ensures few { result ≤ 4096 }
    ensures spare { store_spare store.old ≤ store_spare store.new }
{
    let mut count = 0;
    loop {
        let Some(SpentOf { resource, .. }) = store.run_down(client) else {
            return count;
        };
        stock.spend(resource);
        count += 1;
    }
}

// Does a line.
fn do_line<R: Resource>(
    store: &mut StoreOf<R>,
    stock: &mut StockOf<R>,
    line: Line,
    octets: &[u8],
) -> Answer
    requires spare { opens_of (line_meant octets.now line) ≤ store_spare store.old }
    requires ready { IsReady (state_of R.shows store.old stock.old) (spent_room stock.old) }
    ensures does { DoesLine (state_of R.shows store.old stock.old) (line_meant octets.now line) result (state_of R.shows store.new stock.new) }
    ensures ready { IsReady (state_of R.shows store.new stock.new) (spent_room stock.new) }
    ensures short { IsShort result }
    ensures spare { store_spare store.old ≤ store_spare store.new + opens_of (line_meant octets.now line) }
{
    match line {
        Line::Open { client, id } => open_next(store, stock, client, id),
        Line::Use { id } => use_live(store, id, text_of(octets)),
        Line::Close { id } => close(store, stock, id),
        Line::Down { client } => Answer::Ended(end_client(store, stock, client)),
    }
}

// Does the lines of a script, and writes what each comes to.
fn do_lines<R: Resource>(
    store: &mut StoreOf<R>,
    stock: &mut StockOf<R>,
    script: &[u8],
    out: &mut Vec<u8>,
)
    requires left { AreLeft script.now (store_spare store.old) (vec_capacity out.old - vec_len out.old) }
    requires ready { IsReady (state_of R.shows store.old stock.old) (spent_room stock.old) }
    ensures does { AreDone script.now (state_of R.shows store.old stock.old) (state_of R.shows store.new stock.new) out.old.items out.new.items }
    ensures ready { IsReady (state_of R.shows store.new stock.new) (spent_room stock.new) }
{
    let mut rest = script;
    while rest.len() > 0 {
        let first = line_at_front(rest);
        let answer = do_line(store, stock, first.line, front(rest, first.end));
        write_answer(out, answer);
        rest = rest_at(rest, first.end + 1);
    }
}

// Ends all that is live.
fn end_all<R: Resource>(store: &mut StoreOf<R>, stock: &mut StockOf<R>)
    requires ready { IsReady (state_of R.shows store.old stock.old) (spent_room stock.old) }
    ensures does { EndsAll (state_of R.shows store.old stock.old) (state_of R.shows store.new stock.new) }
    ensures none_live { store_seen R.shows store.new ≡ [] }
{
    loop {
        let Some(client) = store.first_client() else {
            return;
        };
        end_client(store, stock, client);
    }
}

/// Runs a script: its lines open, use and end the resources of a stock, whose fresh ones were never ended, and then all that is live is ended.
/// What each line comes to is a line of the text that is given. All memory is taken before the first line is done. If the script is not run, the
/// stock is as before.
pub fn run_script<R: Resource>(
    alloc: Global,
    script: &[u8],
    stock: &mut StockOf<R>,
) -> Result<Octets, SessionFault>
    requires fresh { AreFresh (fresh_seen R.shows stock.old) }
    ensures { HasRunScript script.now (stock_over R.shows stock.old stock.new) result }
{
    if script.len() > SCRIPT_LIMIT {
        return Err(SessionFault::TooLong);
    }
    let checked = match check(script) {
        Ok(checked) => checked,
        Err(line) => return Err(SessionFault::BadLine(line)),
    };
    let mut store = StoreOf::new(alloc);
    let Ok(()) = store.reserve(checked.opens) else {
        return Err(SessionFault::Memory);
    };
    let Ok(()) = stock.room() else {
        return Err(SessionFault::Memory);
    };
    let Ok(mut out) = Vec::with_capacity(alloc, checked.lines as usize * ANSWER_LIMIT) else {
        return Err(SessionFault::Memory);
    };
    do_lines(&mut store, stock, script, &mut out);
    end_all(&mut store, stock);
    Ok(Octets::adopt(out))
}
