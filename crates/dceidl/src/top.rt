// The top call: what the words ask for is done, and what it comes to is written.
ghost use Rattle.std.specs.Prelude.{◌≡◌, ◌≢◌, ◌⊎◌, [], ◌∷◌, codes, false, map, Some, None, IfOk, option_map};
ghost use Rattle.std.specs.String.{string_bytes};
ghost use Rattle.std.specs.Io.KnownBytes.{Appends};
ghost use Rattle.nd_base.specs.Over.{Rose, files_over, source_over, sink_over};
ghost use Rattle.command_refusals.specs.declared.refusal.Refusal.{Refusal as Why};
ghost use Rattle.ndr_pipe.specs.Ends.{AreOpen, ends_over, ends_seen};
ghost use Rattle.dceidl.specs.Asked.{Asks, AsksFor, seen_over};
ghost use Rattle.dceidl.specs.Causes.{statuses_of, tells};
ghost use Rattle.command_line.specs.Commands.{command_of, IsWellFormed};
ghost use Rattle.command_refusals.specs.Lines.{status_of, line_of};
ghost use Rattle.dceidl.specs.Rows.{IsDone, IsRefused, AreUnknown, tells_refused, ReadsInput, IsDueAndMissing, IsDueAndReported, IsEndReported};
ghost use Rattle.dceidl.specs.Rows.{HasNotFailed, IsSound, CanBeDone, MustBeRefused, Refuses};
ghost use Rattle.command_streams.specs.Delivery.{IsOneOf, IsCompleted};
ghost use Rattle.dceidl.specs.Run.{IsOutcome, IsCommandOutcome, IsExplanation, HasRun};
ghost use Rattle.command_line.specs.Words.{Command as Wanted, command, worded_command, idl_of, op_of, name_in as name_or_nothing};

use crate::compared::{asked_versions, compared};
use crate::perform::perform;
use crate::trace::{asked_trace, traced};
use command_line::{Command, Words};
use command_refusals::{Refusal, Status, line, status};
use command_streams::{Outcome, deliver};
use command_why::{Explained, explain};
use nd_base::{Files, Memory, Octets, Sink, Source};
use ndr_pipe::{BoxedEnd, Ends, PipeEnd, PipeEnds};
use std::alloc::Global;

/// The command line is not valid.
pub(crate) const WORDS_REFUSED: Status = 2;

/// Runs a command line and returns the exit status.
///
/// `--help` and `--version` write their text to `out`, and `sample` the summary of a sample, as no words do. The other commands load the interface
/// file, the files that it imports, and then the attribute configuration file if one is named (C706, chapter 4), and check the rules of the language.
/// `compile` writes the listing of the interface to `out`, `plan` that of its plan. `decode` writes the values of one side of the operation as text
/// to `out`: its `[in]` parameters, or its `[out]` parameters and its result (C706, chapter 14); it asks for no octet past the values but one.
/// `explain` writes a line for each item of the same octets, and `trace` too, which reads the input to its end, or to one octet past the limit of a
/// stream, and writes the lines before a fault and the fault where the octets are refused. `drain` gives the elements of their pipes to `ends`, the
/// i-th pipe to the i-th end, and writes the text of the values with empty pipes. With ORDER `label` four octets, a format label (C706, section
/// 14.1), are before the octets and state their order. `encode` and `migrate` read such a text to its end, or to one octet past its limit,
/// [`TEXT_LIMIT`](value_text::TEXT_LIMIT) octets. `encode` writes the octets of its values, at most [`STREAM_LIMIT`](nd_base::STREAM_LIMIT), after a
/// label if one is asked for, and `migrate` writes it as it is printed. `call` reads the fragments of a request or response (C706, section 12.6), and
/// writes the call id and the values of their stub data; `wrap` reads a text and writes such fragments. `compat` compares the interfaces of two
/// files, the second of which is loaded once the first means an interface; a file that both need is loaded for each; as `compat .. why` it writes to
/// `out`, where an operation differs, the first place at which it does. `why` writes what words of a refusal mean.
///
/// Nothing is requested before it is needed, and no file more than once: no file for an invalid command line, `--help` or
/// `--version`, an import when its declaration is reached, the attribute configuration file when all names are resolved (it is loaded
/// again if it was loaded under the same name as an interface file), and no input before the files are loaded and checked and the
/// operation is found.
///
/// A successful run writes its text to `out` and nothing to `notes`. A refused run writes nothing to `out` (except `why` the names that are nearest
/// to words that have no entry, `trace` its lines, and `compat .. why` a place) and one line to `notes`; if there are several reasons, the first in
/// the order of work is reported. If `out` fails, it may have received a prefix of the text, a line on `notes` says so, and the status is 4; if
/// `notes` fails, the status is 4 too.
///
/// No end may be finished before. Only `drain` calls ends, once the label is read and there are enough of them: each chunk's lines are given once the
/// chunk is read, and an end is finished where its pipe ends. If an end fails, the status is 8.
///
/// Memory is taken for the files and their declarations, for the input with a buffer of 65,536 octets while it is read, for the
/// values, and for the text or the line. All of it is released before `run` returns.
pub fn run<F: Files, S: Source, K: Sink, N: Sink>(
    alloc: Global,
    words: &Words,
    files: &mut F,
    input: &mut S,
    out: &mut K,
    notes: &mut N,
    ends: &mut PipeEnds,
) -> Status
    requires open { AreOpen (ends_seen ⟦<BoxedEnd as PipeEnd>⟧.seen ends.old) }
    ensures whole { HasRun words.now
        (seen_over (files_over F.seen files.old files.new) (source_over S.seen input.old input.new)
        (ends_over ⟦<BoxedEnd as PipeEnd>⟧.seen ends.old ends.new))
        (sink_over K.seen out.old out.new)
        (sink_over N.seen notes.old notes.new) result }
    // What a run asks for: files only when they are due and each once (an attribute file that is a file of IDL too is loaded again), the input only
    // if the command reads it.
    ensures asked { Asks
        (seen_over (files_over F.seen files.old files.new) (source_over S.seen input.old input.new)
        (ends_over ⟦<BoxedEnd as PipeEnd>⟧.seen ends.old ends.new)) (command words.now) }
    // What each status says.
    ensures statuses { (c : Wanted) → command words.now ≡ Some c → IsOneOf (statuses_of c) result }
    ensures words { result ≡ 2 → AreUnknown (command words.now) }
    ensures words_exactly { command words.now ≡ None → IsOneOf (2 ∷ 4 ∷ 5 ∷ []) result }
    ensures words_line { result ≡ 2 → Appends (N.seen notes.old).written (N.seen notes.new).written (codes "words refused\n") }
    ensures read { result ≡ 3 → Rose (S.seen input.old).faults (S.seen input.new).faults × ReadsInput (command words.now) }
    ensures write { result ≡ 4 → Rose (K.seen out.old).faults (K.seen out.new).faults ⊎ Rose (N.seen notes.old).faults (N.seen notes.new).faults }
    ensures absent { result ≡ 7 → Rose (F.seen files.old).absences (F.seen files.new).absences
        × IsDueAndMissing (command words.now) (F.seen files.old).held (sink_over N.seen notes.old notes.new) }
    ensures file { result ≡ 9 → Rose (F.seen files.old).faults (F.seen files.new).faults
        × IsDueAndReported (command words.now) (F.seen files.old).held (sink_over N.seen notes.old notes.new) }
    ensures end { result ≡ 8 → IsEndReported (ends_over ⟦<BoxedEnd as PipeEnd>⟧.seen ends.old ends.new) (sink_over N.seen notes.old notes.new) }
    ensures quiet { result ≡ 0 → (N.seen notes.new).written ≡ (N.seen notes.old).written }
    ensures nothing_given { tells_refused (command words.now) ≡ false → result ≢ 0 → result ≢ 4
        → (K.seen out.new).written ≡ (K.seen out.old).written }
    ensures unfailed { HasNotFailed
        (seen_over (files_over F.seen files.old files.new) (source_over S.seen input.old input.new)
        (ends_over ⟦<BoxedEnd as PipeEnd>⟧.seen ends.old ends.new))
        (sink_over K.seen out.old out.new)
        (sink_over N.seen notes.old notes.new) → IsOneOf (0 ∷ 1 ∷ 2 ∷ 5 ∷ 6 ∷ []) result }
    // What a command comes to: it is done, or it is refused for a cause, under its status and with its line.
    ensures done { (c : Wanted) → command words.now ≡ Some c → result ≡ 0 → IsDone
        (seen_over (files_over F.seen files.old files.new) (source_over S.seen input.old input.new)
        (ends_over ⟦<BoxedEnd as PipeEnd>⟧.seen ends.old ends.new))
        (sink_over K.seen out.old out.new)
        (sink_over N.seen notes.old notes.new) c }
    ensures refused { (c : Wanted) → command words.now ≡ Some c → result ≢ 0 → result ≢ 4 → result ≢ 5 → IsRefused
        (seen_over (files_over F.seen files.old files.new) (source_over S.seen input.old input.new)
        (ends_over ⟦<BoxedEnd as PipeEnd>⟧.seen ends.old ends.new))
        (sink_over K.seen out.old out.new)
        (sink_over N.seen notes.old notes.new) c result }
    // Which of these comes, where no load fails and notes do not.
    ensures complete { (c : Wanted) → command words.now ≡ Some c
        → IsSound
        (seen_over (files_over F.seen files.old files.new) (source_over S.seen input.old input.new)
        (ends_over ⟦<BoxedEnd as PipeEnd>⟧.seen ends.old ends.new)) (sink_over N.seen notes.old notes.new)
        → CanBeDone
        (seen_over (files_over F.seen files.old files.new) (source_over S.seen input.old input.new)
        (ends_over ⟦<BoxedEnd as PipeEnd>⟧.seen ends.old ends.new)) c
        → IsCompleted (sink_over K.seen out.old out.new) result }
    ensures exactly { (c : Wanted) (r : Why) → command words.now ≡ Some c
        → IsSound
        (seen_over (files_over F.seen files.old files.new) (source_over S.seen input.old input.new)
        (ends_over ⟦<BoxedEnd as PipeEnd>⟧.seen ends.old ends.new)) (sink_over N.seen notes.old notes.new)
        → MustBeRefused
        (seen_over (files_over F.seen files.old files.new) (source_over S.seen input.old input.new)
        (ends_over ⟦<BoxedEnd as PipeEnd>⟧.seen ends.old ends.new)) c r
        → Refuses c (sink_over N.seen notes.old notes.new) result r }
{
    run_over(alloc, words, files, input, out, notes, ends)
}

// The same over ends of any type.
fn run_over<F: Files, S: Source, K: Sink, N: Sink, E: PipeEnd>(
    alloc: Global,
    words: &Words,
    files: &mut F,
    input: &mut S,
    out: &mut K,
    notes: &mut N,
    ends: &mut Ends<E>,
) -> Status
    requires open { AreOpen (ends_seen E.seen ends.old) }
    ensures { HasRun words.now
        (seen_over (files_over F.seen files.old files.new) (source_over S.seen input.old input.new)
        (ends_over E.seen ends.old ends.new))
        (sink_over K.seen out.old out.new)
        (sink_over N.seen notes.old notes.new) result }
{
    let outcome = answer(alloc, words, files, input, ends);
    deliver(&outcome, out, notes)
}

// What the words come to.
fn answer<F: Files, S: Source, E: PipeEnd>(
    alloc: Global,
    words: &Words,
    files: &mut F,
    input: &mut S,
    ends: &mut Ends<E>,
) -> Outcome
    requires open { AreOpen (ends_seen E.seen ends.old) }
    ensures asked { Asks
        (seen_over (files_over F.seen files.old files.new) (source_over S.seen input.old input.new)
        (ends_over E.seen ends.old ends.new)) (command words.now) }
    ensures outcome { IsOutcome
        (seen_over (files_over F.seen files.old files.new) (source_over S.seen input.old input.new)
        (ends_over E.seen ends.old ends.new)) (command words.now) result }
{
    match words.why() {
        Some(asked) => explanation(alloc, asked),
        None => performed(alloc, words, files, input, ends),
    }
}

// What words of a refusal mean, or the names that are nearest if they have no entry.
fn explanation(alloc: Global, words: &[String]) -> Outcome
    ensures { IsExplanation (map string_bytes words.now) result }
{
    match explain(alloc, words) {
        Ok(Explained::Found(text)) => Outcome::Done(text),
        Ok(Explained::Nearest(text)) => {
            let Ok(line) = Octets::copy(alloc, b"words refused\n") else {
                return Outcome::Wanting;
            };
            Outcome::Reported {
                text,
                status: WORDS_REFUSED,
                line,
            }
        }
        Err(_) => Outcome::Wanting,
    }
}

// What the command comes to that words are by their number.
fn performed<F: Files, S: Source, E: PipeEnd>(
    alloc: Global,
    words: &Words,
    files: &mut F,
    input: &mut S,
    ends: &mut Ends<E>,
) -> Outcome
    requires open { AreOpen (ends_seen E.seen ends.old) }
    ensures asked { Asks
        (seen_over (files_over F.seen files.old files.new) (source_over S.seen input.old input.new)
        (ends_over E.seen ends.old ends.new)) (worded_command words.now) }
    ensures outcome { IsOutcome
        (seen_over (files_over F.seen files.old files.new) (source_over S.seen input.old input.new)
        (ends_over E.seen ends.old ends.new)) (worded_command words.now) result }
{
    match words.command() {
        None => refused(alloc, WORDS_REFUSED, b"words refused\n"),
        Some(command) => performed_command(alloc, command, files, input, ends),
    }
}

// What a command comes to.
fn performed_command<F: Files, S: Source, E: PipeEnd>(
    alloc: Global,
    command: Command<'_>,
    files: &mut F,
    input: &mut S,
    ends: &mut Ends<E>,
) -> Outcome
    requires open { AreOpen (ends_seen E.seen ends.old) }
    requires formed { IsWellFormed command }
    ensures asked { AsksFor
        (seen_over (files_over F.seen files.old files.new) (source_over S.seen input.old input.new)
        (ends_over E.seen ends.old ends.new)) (command_of command.entry) }
    ensures outcome { IsCommandOutcome
        (seen_over (files_over F.seen files.old files.new) (source_over S.seen input.old input.new)
        (ends_over E.seen ends.old ends.new)) (command_of command.entry) result }
{
    match asked_trace(command) {
        Some(tracing) => traced(alloc, tracing, files, input),
        None => match asked_versions(command) {
            Some(versions) => compared(alloc, versions, files),
            None => performed_plainly(alloc, command, files, input, ends),
        },
    }
}

// What a command comes to that writes nothing beside a refusal.
fn performed_plainly<F: Files, S: Source, E: PipeEnd>(
    alloc: Global,
    command: Command<'_>,
    files: &mut F,
    input: &mut S,
    ends: &mut Ends<E>,
) -> Outcome
    requires open { AreOpen (ends_seen E.seen ends.old) }
    requires formed { IsWellFormed command }
    requires plain { tells (command_of command) ≡ false }
    ensures asked { AsksFor
        (seen_over (files_over F.seen files.old files.new) (source_over S.seen input.old input.new)
        (ends_over E.seen ends.old ends.new)) (command_of command.entry) }
    ensures outcome { IsCommandOutcome
        (seen_over (files_over F.seen files.old files.new) (source_over S.seen input.old input.new)
        (ends_over E.seen ends.old ends.new)) (command_of command.entry) result }
{
    match perform(alloc, command, files, input, ends) {
        Ok(made) => Outcome::Done(made),
        Err(refusal) => refused_command(alloc, command, &refusal),
    }
}

fn refused(alloc: Global, status: Status, line: &[u8]) -> Outcome
    ensures { (result ≡ Outcome.Refused status line.now) ⊎ (result ≡ Outcome.Wanting) }
{
    match Octets::copy(alloc, line) {
        Ok(line) => Outcome::Refused { status, line },
        Err(_) => Outcome::Wanting,
    }
}

// A refusal with its status and line.
fn refused_command(alloc: Global, command: Command<'_>, refusal: &Refusal) -> Outcome
    ensures { (result ≡ Outcome.Refused (status_of refusal.now)
        (line_of (idl_of (command_of command.entry)) (op_of (command_of command.entry)) refusal.now))
        ⊎ (result ≡ Outcome.Wanting) }
{
    match command_line(alloc, command, refusal) {
        Ok(line) => Outcome::Refused {
            status: status(refusal),
            line,
        },
        Err(_) => Outcome::Wanting,
    }
}

// The line of a command's refusal.
fn command_line(alloc: Global, command: Command<'_>, refusal: &Refusal) -> Result<Octets, Memory>
    ensures { IfOk result (λ l. l ≡ line_of (idl_of (command_of command.entry)) (op_of (command_of command.entry)) refusal.now) }
{
    match command {
        Command::Values { of, .. } => line(alloc, of.idl.name, of.op, refusal),
        Command::Compile { idl, .. } => line(alloc, idl.name, "", refusal),
        Command::Plan { idl, .. } => line(alloc, idl.name, "", refusal),
        Command::Call { idl, op, .. } => line(alloc, idl.name, name_in(op), refusal),
        Command::Wrap { of, .. } => line(alloc, of.idl.name, of.op, refusal),
        Command::Compat { .. } => line(alloc, "", "", refusal),
        Command::Sample { .. } => line(alloc, "", "", refusal),
        Command::Help => line(alloc, "", "", refusal),
        Command::Version => line(alloc, "", "", refusal),
    }
}

// A name, or nothing if there is none.
fn name_in(name: Option<&str>) -> &str
    ensures { result.now ≡ name_or_nothing (option_map (λ a. a.now) name.entry) }
{
    match name {
        Some(name) => name,
        None => "",
    }
}
