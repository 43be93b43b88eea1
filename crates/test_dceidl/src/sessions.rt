// Runs with a stock of one resource in memory.
ghost use Rattle.std.specs.Prelude.{IfOk};
ghost use Rattle.ctx_session.specs.Session.{AreFresh};
ghost use Rattle.ctx_session.specs.Stocked.{fresh_seen};

use ctx_store::{MemResource, Resource};
use dceidl::{Status, Stock, VERSION, Words, run_with};
use nd_base::{MemFiles, MemSink, MemSource, Memory};
use ndr_pipe::PipeEnds;
use std::alloc::Global;
use std::test::Fail;

// What a run answers and writes.
#[derive(Drop)]
struct Ran {
    status: Status,
    out: MemSink,
    notes: MemSink,
}

fn stock_of_one(alloc: Global) -> Result<Stock, Memory>
    ensures { IfOk result (λ stock. AreFresh (fresh_seen shows stock)) }
{
    let resource = MemResource::new(alloc, 8, &[])?;
    let Ok(resource) = Box::new(alloc, resource) else {
        return Err(Memory);
    };
    let mut stock = Stock::new(alloc);
    let Ok(()) = stock.push(resource) else {
        return Err(Memory);
    };
    Ok(stock)
}

// The outcome of a command line, without what else its contract says.
fn status_of(
    alloc: Global,
    words: &Words,
    input: &mut MemSource,
    out: &mut MemSink,
    notes: &mut MemSink,
    stock: &mut Stock,
) -> Result<Status, Memory>
    requires { AreFresh (fresh_seen shows stock.old) }
{
    let mut files = MemFiles::new(alloc, &[])?;
    let mut ends = PipeEnds::new(alloc);
    Ok(run_with(
        alloc, words, &mut files, input, out, notes, &mut ends, stock,
    ))
}

// Runs one word over a stock.
fn run_word(alloc: Global, word: &str, input: &[u8], stock: &mut Stock) -> Result<Ran, Memory>
    requires { AreFresh (fresh_seen shows stock.old) }
{
    let mut words = Words::new(alloc);
    words.push(word)?;
    let mut input = MemSource::new(alloc, input, 4096, &[])?;
    let mut out = MemSink::new(alloc, 100, &[])?;
    let mut notes = MemSink::new(alloc, 100, &[])?;
    let status = status_of(alloc, &words, &mut input, &mut out, &mut notes, stock)?;
    Ok(Ran { status, out, notes })
}

// Whether a stock has no fresh resource, and one that is spent, with a line.
fn is_spent(stock: &Stock) -> bool {
    let lines = match stock.spent(0) {
        Some(resource) => resource.lines() == Some(b"hi\n".as_slice()),
        None => false,
    };
    lines && stock.fresh(0).is_none() && stock.spent(1).is_none()
}

const SCRIPT: &[u8] =
    b"open 1 00112233-4455-6677-8899-aabbccddeeff\nuse 00112233-4455-6677-8899-aabbccddeeff hi\ndown 1\n";

#[test]
fn a_session_is_run_over_the_stock(rt: HostRuntime) -> Result<(), Fail> {
    let mut stock = stock_of_one(rt.alloc())?;
    let ran = run_word(rt.alloc(), "session", SCRIPT, &mut stock)?;
    assert_eq!(rt; ran.status, 0);
    assert_eq!(rt; ran.out.written(), b"ok\nok\nended 1\n".as_slice());
    assert_eq!(rt; ran.notes.written(), b"".as_slice());
    assert!(rt; is_spent(&stock));
    Ok(())
}

#[test]
fn room_is_made_for_what_will_be_spent(rt: HostRuntime) -> Result<(), Fail> {
    let mut stock = stock_of_one(rt.alloc())?;
    stock.room()?;
    assert!(rt; stock.fresh(0).is_some() && stock.fresh(1).is_none());
    assert!(rt; stock.spent(0).is_none());
    Ok(())
}

#[test]
fn other_words_leave_the_stock(rt: HostRuntime) -> Result<(), Fail> {
    let mut stock = stock_of_one(rt.alloc())?;
    let ran = run_word(rt.alloc(), "--version", b"x", &mut stock)?;
    assert_eq!(rt; ran.status, 0);
    assert_eq!(rt; ran.out.written(), VERSION.as_bytes());
    assert!(rt; stock.fresh(0).is_some() && stock.spent(0).is_none());
    Ok(())
}
