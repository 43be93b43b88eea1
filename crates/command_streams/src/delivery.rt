// What a run came to is written.
ghost use Rattle.std.specs.Prelude.{◌≡◌, ◌⊎◌};
ghost use Rattle.nd_base.specs.Over.{sink_over};
ghost use Rattle.command_refusals.specs.Lines.{status_of, line_of};
ghost use Rattle.command_streams.specs.Delivery.{IsDelivered, IsGiven, IsReported, IsTold};

use crate::outcome::Outcome;
use command_refusals::{Refusal, Status, line, status};
use nd_base::Sink;
use std::alloc::Global;

/// A command is done.
pub const DONE: Status = 0;

/// Standard output or standard error failed.
pub const WRITE_FAILED: Status = 4;

/// Out of memory.
pub const OUT_OF_MEMORY: Status = 5;

/// A refusal with its status and line, `idl` and `op` as [`line`](command_refusals::line) has them. Takes memory for the line; without it the outcome
/// is `Wanting`.
pub fn refusal_outcome(alloc: Global, idl: &str, op: &str, refusal: &Refusal) -> Outcome
    ensures { (result ≡ Outcome.Refused (status_of refusal.now) (line_of idl.now op.now refusal.now)) ⊎ (result ≡ Outcome.Wanting) }
{
    match line(alloc, idl, op, refusal) {
        Ok(line) => Outcome::Refused {
            status: status(refusal),
            line,
        },
        Err(_) => Outcome::Wanting,
    }
}

/// Writes what a run came to, and returns the exit status. Takes no memory.
pub fn deliver<K: Sink, N: Sink>(outcome: &Outcome, out: &mut K, notes: &mut N) -> Status
    ensures { IsDelivered
        (sink_over K.seen out.old out.new)
        (sink_over N.seen notes.old notes.new) outcome.now result }
{
    match outcome {
        Outcome::Done(text) => give(text.as_slice(), out, notes),
        Outcome::Refused { status, line } => report(*status, line.as_slice(), notes),
        Outcome::Reported { text, status, line } => {
            tell(text.as_slice(), *status, line.as_slice(), out, notes)
        }
        Outcome::Wanting => report(OUT_OF_MEMORY, b"want of memory\n", notes),
    }
}

fn give<K: Sink, N: Sink>(text: &[u8], out: &mut K, notes: &mut N) -> Status
    ensures { IsGiven
        (sink_over K.seen out.old out.new)
        (sink_over N.seen notes.old notes.new) text.now result }
{
    match out.put(text) {
        Ok(()) => DONE,
        Err(_) => {
            let _ = notes.put(b"write fault\n");
            WRITE_FAILED
        }
    }
}

fn report<N: Sink>(status: Status, line: &[u8], notes: &mut N) -> Status
    ensures { IsReported (sink_over N.seen notes.old notes.new) line.now status result }
{
    match notes.put(line) {
        Ok(()) => status,
        Err(_) => WRITE_FAILED,
    }
}

// Writes a text, and then the line of a refusal.
fn tell<K: Sink, N: Sink>(
    text: &[u8],
    status: Status,
    line: &[u8],
    out: &mut K,
    notes: &mut N,
) -> Status
    ensures { IsTold
        (sink_over K.seen out.old out.new)
        (sink_over N.seen notes.old notes.new) text.now line.now status result }
{
    match out.put(text) {
        Ok(()) => report(status, line, notes),
        Err(_) => {
            let _ = notes.put(b"write fault\n");
            WRITE_FAILED
        }
    }
}
