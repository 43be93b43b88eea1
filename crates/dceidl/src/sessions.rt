// The top call with a stock: `session` runs a script over it, and all other words are a command line of `run`.
ghost use Rattle.std.specs.Prelude.{◌≡◌, ◌≢◌, ◌⊎◌, ℕ, List, [], ◌∷◌, true, false};
ghost use Rattle.nd_base.specs.Over.{Rose, files_over, source_over, sink_over, AreUntouched};
ghost use Rattle.ndr_pipe.specs.Ends.{AreOpen, AreAsBefore, ends_over, ends_seen};
ghost use Rattle.ctx_session.specs.Session.{AreFresh};
ghost use Rattle.ctx_session.specs.Stocked.{fresh_seen};
ghost use Rattle.ctx_session.specs.Outcome.{IsUntouched, stock_over};
ghost use Rattle.command_line.specs.Words.{is_session};
ghost use Rattle.command_refusals.specs.declared.refusal.Refusal.{Refusal as Why};
ghost use Rattle.command_streams.specs.Input.{AreGiven};
ghost use Rattle.command_streams.specs.Delivery.{IsOneOf, IsCompleted};
ghost use Rattle.command_session.specs.Session.{session_over, HasSession};
ghost use Rattle.command_session.specs.Rows.{IsAnswered, IsRefusedWith, IsCutShort, IsUnreported, HasNotFailed, IsScript, IsNoScript, Refuses};
ghost use Rattle.dceidl.specs.Asked.{seen_over};
ghost use Rattle.dceidl.specs.Whole.{IsRun};

use crate::top::run;
use command_line::Words;
use command_refusals::Status;
use command_session::session;
use ctx_session::Stock;
use nd_base::{Files, Sink, Source};
use ndr_pipe::{BoxedEnd, PipeEnd, PipeEnds};
use std::alloc::Global;

/// Runs a command line with a stock of resources, and returns the exit status.
///
/// The one word `session` runs the script on the input over the stock, as [`session`](command_session::session) says: no file is asked for, and the
/// ends are as before. With all other words it does what [`run`](crate::run) does, and the stock is as before.
///
/// No end may be finished before, and no fresh resource ended.
pub fn run_with<F: Files, S: Source, K: Sink, N: Sink>(
    alloc: Global,
    words: &Words,
    files: &mut F,
    input: &mut S,
    out: &mut K,
    notes: &mut N,
    ends: &mut PipeEnds,
    stock: &mut Stock,
) -> Status
    requires open { AreOpen (ends_seen ⟦<BoxedEnd as PipeEnd>⟧.seen ends.old) }
    requires fresh { AreFresh (fresh_seen shows stock.old) }
    // Other words than `session`.
    ensures others { is_session words.now ≡ false → IsRun words.now
        (seen_over (files_over F.seen files.old files.new) (source_over S.seen input.old input.new)
        (ends_over ⟦<BoxedEnd as PipeEnd>⟧.seen ends.old ends.new))
        (sink_over K.seen out.old out.new)
        (sink_over N.seen notes.old notes.new) result }
    ensures others_stock { is_session words.now ≡ false → IsUntouched (stock_over shows stock.old stock.new) }
    // The one word `session`: what it touches, and what it comes to.
    ensures session_files { is_session words.now ≡ true → AreUntouched (files_over F.seen files.old files.new) }
    ensures session_ends { is_session words.now ≡ true → AreAsBefore (ends_over ⟦<BoxedEnd as PipeEnd>⟧.seen ends.old ends.new) }
    ensures session { is_session words.now ≡ true
        → HasSession (session_over (source_over S.seen input.old input.new) (stock_over shows stock.old stock.new))
        (sink_over K.seen out.old out.new)
        (sink_over N.seen notes.old notes.new) result }
    // What each status of a session says.
    ensures session_statuses { is_session words.now ≡ true → IsOneOf (0 ∷ 1 ∷ 3 ∷ 4 ∷ 5 ∷ []) result }
    ensures session_done { is_session words.now ≡ true → result ≡ 0
        → IsAnswered (session_over (source_over S.seen input.old input.new) (stock_over shows stock.old stock.new))
        (sink_over K.seen out.old out.new)
        (sink_over N.seen notes.old notes.new) }
    ensures session_refused { is_session words.now ≡ true → result ≢ 0 → result ≢ 4
        → IsRefusedWith (session_over (source_over S.seen input.old input.new) (stock_over shows stock.old stock.new))
        (sink_over K.seen out.old out.new)
        (sink_over N.seen notes.old notes.new) result }
    ensures session_write { is_session words.now ≡ true → result ≡ 4
        → IsCutShort (session_over (source_over S.seen input.old input.new) (stock_over shows stock.old stock.new))
        (sink_over K.seen out.old out.new)
        (sink_over N.seen notes.old notes.new)
        ⊎ IsUnreported (session_over (source_over S.seen input.old input.new) (stock_over shows stock.old stock.new))
        (sink_over K.seen out.old out.new)
        (sink_over N.seen notes.old notes.new) }
    ensures session_unfailed { is_session words.now ≡ true
        → HasNotFailed (session_over (source_over S.seen input.old input.new) (stock_over shows stock.old stock.new))
        (sink_over K.seen out.old out.new)
        (sink_over N.seen notes.old notes.new) → IsOneOf (0 ∷ 1 ∷ 5 ∷ []) result }
    // Which of these comes, where the octets of the input are known and no fetch fails, and notes do not.
    ensures session_complete { is_session words.now ≡ true → (octets : List ℕ)
        → AreGiven (source_over S.seen input.old input.new) octets → IsScript octets
        → (Rose (N.seen notes.old).faults (N.seen notes.new).faults → ⊥) → IsCompleted (sink_over K.seen out.old out.new) result }
    ensures session_exactly { is_session words.now ≡ true → (octets : List ℕ) (r : Why)
        → AreGiven (source_over S.seen input.old input.new) octets → IsNoScript octets r
        → (Rose (N.seen notes.old).faults (N.seen notes.new).faults → ⊥) → Refuses (sink_over N.seen notes.old notes.new) result r }
{
    if words.is_session() {
        session(alloc, input, out, notes, stock)
    } else {
        run_line(alloc, words, files, input, out, notes, ends)
    }
}

// `run`, with all that it promises as one record.
fn run_line<F: Files, S: Source, K: Sink, N: Sink>(
    alloc: Global,
    words: &Words,
    files: &mut F,
    input: &mut S,
    out: &mut K,
    notes: &mut N,
    ends: &mut PipeEnds,
) -> Status
    requires open { AreOpen (ends_seen ⟦<BoxedEnd as PipeEnd>⟧.seen ends.old) }
    ensures { IsRun words.now
        (seen_over (files_over F.seen files.old files.new) (source_over S.seen input.old input.new)
        (ends_over ⟦<BoxedEnd as PipeEnd>⟧.seen ends.old ends.new))
        (sink_over K.seen out.old out.new)
        (sink_over N.seen notes.old notes.new) result }
{
    run(alloc, words, files, input, out, notes, ends)
}
