// A script is read and run, and what it comes to is written.
ghost use Rattle.std.specs.Prelude.{◌≡◌, ◌≢◌, ◌⊎◌, ℕ, List, [], ◌∷◌, MatchResult};
ghost use Rattle.nd_base.specs.Over.{Rose, source_over, sink_over};
ghost use Rattle.command_refusals.specs.declared.refusal.Refusal.{Refusal as Why};
ghost use Rattle.command_streams.specs.Input.{AreGiven};
ghost use Rattle.command_streams.specs.Delivery.{IsOneOf, IsCompleted, IsGiven};
ghost use Rattle.ctx_session.specs.Session.{AreFresh};
ghost use Rattle.ctx_session.specs.Stocked.{fresh_seen};
ghost use Rattle.ctx_session.specs.Outcome.{stock_over, IsDone};
ghost use Rattle.command_session.specs.Session.{session_over, HasSession, IsSessionDone, IsSessionRefused, IsRefusalDelivered, IsNotRun};
ghost use Rattle.command_session.specs.Rows.{IsAnswered, IsRefusedWith, IsCutShort, IsUnreported, HasNotFailed, IsScript, IsNoScript, Refuses};

use command_refusals::{Refusal, Status};
use command_streams::{Outcome, deliver, read_input, refusal_outcome};
use ctx_session::{SCRIPT_LIMIT, SessionFault, StockOf, run_script};
use ctx_store::Resource;
use nd_base::{Octets, Sink, Source};
use std::alloc::Global;

/// Runs the script on the input and returns the exit status.
///
/// The input is read to its end, or to one octet past [`SCRIPT_LIMIT`](ctx_session::SCRIPT_LIMIT), and is checked as a whole. Its lines then open,
/// use and end resources of the stock, whose fresh ones were never ended, under the identifiers of context handles (C706 section 5.1.6): `open CLIENT
/// UUID` the first fresh one, `use UUID TEXT` applies a line to one, `close UUID` ends one, `down CLIENT` ends all of a client. Each line is answered
/// by a line of `out`. After the last line all that is live is ended, client by client. Resources that were ended are appended to the spent ones.
///
/// With status 0 the whole input was read, `out` has the answers, and `notes` are as before. With status 1 the script is refused: for its first line
/// that is none, or for its length. Status 3 is a read fault, 4 a fault of `out` or `notes`, 5 out of memory. If the session was not done, the stock
/// is as before.
///
/// All memory is taken before the first line is done: for the input with a buffer of 65,536 octets, for the resources that the script opens, and for
/// the answers, 16 octets a line. All but what the stock keeps is released.
pub fn session<S: Source, K: Sink, N: Sink, R: Resource>(
    alloc: Global,
    input: &mut S,
    out: &mut K,
    notes: &mut N,
    stock: &mut StockOf<R>,
) -> Status
    requires fresh { AreFresh (fresh_seen R.shows stock.old) }
    ensures whole { HasSession (session_over (source_over S.seen input.old input.new) (stock_over R.shows stock.old stock.new))
        (sink_over K.seen out.old out.new)
        (sink_over N.seen notes.old notes.new) result }
    // What each status says.
    ensures statuses { IsOneOf (0 ∷ 1 ∷ 3 ∷ 4 ∷ 5 ∷ []) result }
    ensures done { result ≡ 0 → IsAnswered
        (session_over (source_over S.seen input.old input.new) (stock_over R.shows stock.old stock.new))
        (sink_over K.seen out.old out.new)
        (sink_over N.seen notes.old notes.new) }
    ensures refused { result ≢ 0 → result ≢ 4 → IsRefusedWith
        (session_over (source_over S.seen input.old input.new) (stock_over R.shows stock.old stock.new))
        (sink_over K.seen out.old out.new)
        (sink_over N.seen notes.old notes.new) result }
    ensures write { result ≡ 4
        → IsCutShort (session_over (source_over S.seen input.old input.new) (stock_over R.shows stock.old stock.new))
        (sink_over K.seen out.old out.new)
        (sink_over N.seen notes.old notes.new)
        ⊎ IsUnreported (session_over (source_over S.seen input.old input.new) (stock_over R.shows stock.old stock.new))
        (sink_over K.seen out.old out.new)
        (sink_over N.seen notes.old notes.new) }
    ensures unfailed { HasNotFailed
        (session_over (source_over S.seen input.old input.new) (stock_over R.shows stock.old stock.new))
        (sink_over K.seen out.old out.new)
        (sink_over N.seen notes.old notes.new) → IsOneOf (0 ∷ 1 ∷ 5 ∷ []) result }
    // Which of these comes, where the octets of the input are known and no fetch fails, and notes do not.
    ensures complete { (octets : List ℕ) → AreGiven (source_over S.seen input.old input.new) octets → IsScript octets
        → (Rose (N.seen notes.old).faults (N.seen notes.new).faults → ⊥) → IsCompleted (sink_over K.seen out.old out.new) result }
    ensures exactly { (octets : List ℕ) (r : Why) → AreGiven (source_over S.seen input.old input.new) octets → IsNoScript octets r
        → (Rose (N.seen notes.old).faults (N.seen notes.new).faults → ⊥) → Refuses (sink_over N.seen notes.old notes.new) result r }
{
    let done = perform(alloc, input, stock);
    write(alloc, done, out, notes)
}

// Writes the answers of a session, or reports its refusal.
fn write<K: Sink, N: Sink>(
    alloc: Global,
    done: Result<Octets, Refusal>,
    out: &mut K,
    notes: &mut N,
) -> Status
    ensures { MatchResult done
        (λ made. IsGiven (sink_over K.seen out.old out.new) (sink_over N.seen notes.old notes.new) made result)
        (λ refusal. IsRefusalDelivered
        (sink_over K.seen out.old out.new)
        (sink_over N.seen notes.old notes.new) refusal result) }
{
    match done {
        Ok(made) => {
            let outcome = Outcome::Done(made);
            deliver(&outcome, out, notes)
        }
        Err(refusal) => {
            let outcome = refusal_outcome(alloc, "", "", &refusal);
            deliver(&outcome, out, notes)
        }
    }
}

// Reads a script and runs it.
fn perform<S: Source, R: Resource>(
    alloc: Global,
    input: &mut S,
    stock: &mut StockOf<R>,
) -> Result<Octets, Refusal>
    requires fresh { AreFresh (fresh_seen R.shows stock.old) }
    ensures { MatchResult result
        (IsSessionDone (session_over (source_over S.seen input.old input.new) (stock_over R.shows stock.old stock.new)))
        (IsSessionRefused (session_over (source_over S.seen input.old input.new) (stock_over R.shows stock.old stock.new))) }
{
    let script = read_input(alloc, input, SCRIPT_LIMIT as u32)?;
    run(alloc, script.as_slice(), stock)
}

// Runs a script.
fn run<R: Resource>(alloc: Global, script: &[u8], stock: &mut StockOf<R>) -> Result<Octets, Refusal>
    requires fresh { AreFresh (fresh_seen R.shows stock.old) }
    ensures { MatchResult result
        (IsDone script.now (stock_over R.shows stock.old stock.new))
        (IsNotRun script.now (stock_over R.shows stock.old stock.new)) }
{
    match run_script(alloc, script, stock) {
        Ok(made) => Ok(made),
        Err(SessionFault::TooLong) => Err(Refusal::LongScript),
        Err(SessionFault::BadLine(line)) => Err(Refusal::BadScript { line }),
        Err(SessionFault::Memory) => Err(Refusal::Memory),
    }
}
