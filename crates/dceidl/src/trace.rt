// `trace`: octets are explained, up to the first fault if they are refused.
ghost use Rattle.std.specs.Prelude.{◌≡◌, ◌<◌, ℕ, List, Option, false, length, Some, option_map, IfOk, IfErr, IfSome, IfNone};
ghost use Rattle.std.specs.List.{slice_get};
ghost use Rattle.nd_base.specs.Over.{FilesOver, files_over, source_over};
ghost use Rattle.nd_types.specs.declared.types.Operation.{Operation};
ghost use Rattle.nd_value.specs.Fitting.{setting_beside};
ghost use Rattle.nd_value.specs.Request.{IsRequestOf};
ghost use Rattle.ndr_pipe.specs.Ends.{EndsSeen, AreAsBefore};
ghost use Rattle.command_line.specs.Commands.{command_of, subject_of, IsJudged, IsWellFormed};
ghost use Rattle.command_line.specs.Words as words;
ghost use Rattle.command_line.specs.Words.{Values, idl_of, op_of};
ghost use Rattle.command_line.specs.declared.command.OrderWord.TheVariants.{Label};
ghost use Rattle.command_line.specs.declared.command.Reading.TheVariants.{Trace};
ghost use Rattle.command_line.specs.declared.command.Task.TheVariants.{Read};
ghost use Rattle.dceidl.specs.Asked.{AsksFilesOf, Seen, seen_over};
ghost use Rattle.dceidl.specs.Causes.{IsMade, tells, traces};
ghost use Rattle.dceidl.specs.Held.{HasNoPlace};
ghost use Rattle.dceidl.specs.Input.{IsMadeOf};
ghost use Rattle.dceidl.specs.Run.{IsCommandOutcome};
ghost use Rattle.dceidl.specs.Tracing.{IsPrepared, IsStoppedCommand, IsStoppedTask};

use crate::prepared::{Prepared, prepare};
use crate::ready::Ready;
use command_decode::{Stopped, trace_octets};
use command_line::{Command, OrderWord, Reading, Subject, Task};
use command_refusals::{line, status};
use command_streams::{Outcome, take_label};
use nd_base::{Files, Octets, Source};
use nd_graph::Fit;
use std::alloc::Global;

// What `trace` speaks of, the order of the octets, and the file of the request beside which a response is judged, if one is named.
#[derive(Clone, Copy)]
pub(crate) struct Tracing<'a> {
    pub(crate) of: Subject<'a>,
    pub(crate) order: OrderWord,
    pub(crate) given: Option<&'a str>,
}

// What a command asks to trace, if it does.
pub(crate) fn asked_trace(command: Command<'_>) -> Option<Tracing<'_>>
    requires formed { IsWellFormed command }
    ensures some { IfSome result (λ t. command_of command.entry ≡ Values (Read Trace t.order) (subject_of t.of) (option_map (λ g. g.now) t.given)) }
    ensures judged { IfSome result (λ t. IsJudged t.of.side t.given) }
    ensures none { IfNone result (HasNoPlace (command_of command.entry) → tells (command_of command.entry) ≡ false) }
{
    match command {
        Command::Values { task, of, given } => match trace_order(task) {
            Some(order) => Some(Tracing { of, order, given }),
            None => None,
        },
        Command::Compile { .. } => None,
        Command::Plan { .. } => None,
        Command::Call { .. } => None,
        Command::Wrap { .. } => None,
        Command::Compat { .. } => None,
        Command::Sample { .. } => None,
        Command::Help => None,
        Command::Version => None,
    }
}

// The order of octets that a task traces, if it does.
fn trace_order(task: Task) -> Option<OrderWord>
    ensures some { IfSome result (λ word. task ≡ Read Trace word) }
    ensures none { IfNone result (traces task ≡ false) }
{
    match task {
        Task::Read {
            how: Reading::Trace,
            order,
        } => Some(order),
        Task::Read { .. } => None,
        Task::Encode { .. } => None,
        Task::Migrate => None,
    }
}

// What the trace of the input comes to.
pub(crate) fn traced<F: Files, S: Source>(
    alloc: Global,
    tracing: Tracing<'_>,
    files: &mut F,
    input: &mut S,
) -> Outcome
    requires judged { IsJudged tracing.of.side tracing.given }
    ensures asked { AsksFilesOf (files_over F.seen files.old files.new)
        (Values (Read Trace tracing.entry.order) (subject_of tracing.entry.of) (option_map (λ g. g.now) tracing.entry.given)) }
    ensures outcome { (e : EndsSeen) → AreAsBefore e → IsCommandOutcome
        (seen_over (files_over F.seen files.old files.new) (source_over S.seen input.old input.new) e)
        (Values (Read Trace tracing.entry.order) (subject_of tracing.entry.of) (option_map (λ g. g.now) tracing.entry.given)) result }
{
    match prepare(alloc, tracing.of, tracing.given, files) {
        Ok(prepared) => traced_outcome(
            alloc,
            tracing.of.idl.name,
            tracing.of.op,
            trace_prepared(alloc, prepared, tracing.order, input),
        ),
        Err(refusal) => stopped_outcome(
            alloc,
            tracing.of.idl.name,
            tracing.of.op,
            Stopped {
                refusal,
                lines: None,
            },
        ),
    }
}

// The outcome of a trace.
fn traced_outcome(alloc: Global, idl: &str, op: &str, answer: Result<Octets, Stopped>) -> Outcome
    ensures { (x : Seen) (c : words.Command) → idl_of c ≡ idl.now → op_of c ≡ op.now → IfOk answer (IsMade x c) → IfErr answer (IsStoppedCommand x c)
        → IsCommandOutcome x c result }
{
    match answer {
        Ok(made) => Outcome::Done(made),
        Err(stopped) => stopped_outcome(alloc, idl, op, stopped),
    }
}

// The outcome of a command that is refused, with what it writes beside the line.
fn stopped_outcome(alloc: Global, idl: &str, op: &str, stopped: Stopped) -> Outcome
    ensures { (x : Seen) (c : words.Command) → idl_of c ≡ idl.now → op_of c ≡ op.now → IsStoppedCommand x c stopped → IsCommandOutcome x c result }
{
    let Stopped { refusal, lines } = stopped;
    let Ok(line) = line(alloc, idl, op, &refusal) else {
        return Outcome::Wanting;
    };
    let status = status(&refusal);
    match lines {
        Some(text) => Outcome::Reported { text, status, line },
        None => Outcome::Refused { status, line },
    }
}

// Traces the octets of the input, once what the command speaks of is ready.
fn trace_prepared<S: Source>(
    alloc: Global,
    prepared: Prepared,
    order: OrderWord,
    input: &mut S,
) -> Result<Octets, Stopped>
    requires known { prepared.ready.number < length prepared.ready.interface.operations }
    requires request { IsRequestOf prepared.ready.interface prepared.ready.number prepared.ready.side prepared.request }
    ensures made { (f : FilesOver) (of : words.Subject) (given : Option (List ℕ)) → IsPrepared f of given prepared
        → IfOk result (λ made. (e : EndsSeen) → IsMade (seen_over f (source_over S.seen input.old input.new) e)
        (Values (Read Trace order) of given) made) }
    ensures stopped { (f : FilesOver) (of : words.Subject) (given : Option (List ℕ)) → IsPrepared f of given prepared
        → IfErr result (λ h. (e : EndsSeen) → AreAsBefore e
        → IsStoppedCommand (seen_over f (source_over S.seen input.old input.new) e) (Values (Read Trace order) of given) h) }
{
    let Prepared { ready, request } = prepared;
    match request {
        None => trace_values(alloc, &ready, None, order, input),
        Some(request) => trace_values(alloc, &ready, Some(&request), order, input),
    }
}

// Traces the octets of the input, after their format label if the command asks for one.
fn trace_values<S: Source>(
    alloc: Global,
    ready: &Ready,
    given: Option<&Fit>,
    order: OrderWord,
    input: &mut S,
) -> Result<Octets, Stopped>
    requires known { ready.now.number < length ready.now.interface.operations }
    requires request { IsRequestOf ready.now.interface ready.now.number ready.now.side (option_map (λ f. f.now) given) }
    ensures made { (o : Operation) → slice_get ready.now.interface.operations ready.now.number ≡ Some o
        → IfOk result (λ made. (e : EndsSeen) → IsMadeOf (source_over S.seen input.old input.new) e (Read Trace order)
        (setting_beside ready.now.interface o ready.now.side (option_map (λ f. f.now.graph) given.entry)) made) }
    ensures stopped { (o : Operation) → slice_get ready.now.interface.operations ready.now.number ≡ Some o
        → IfErr result (IsStoppedTask (source_over S.seen input.old input.new) order
        (setting_beside ready.now.interface o ready.now.side (option_map (λ f. f.now.graph) given.entry))) }
{
    match order {
        OrderWord::Fixed(named) => trace_octets(
            alloc,
            &ready.interface,
            ready.number,
            ready.side,
            given,
            named,
            input,
        ),
        OrderWord::Label => trace_labelled(alloc, ready, given, input),
    }
}

// Traces the octets of the input after their format label, in the order that it states.
fn trace_labelled<S: Source>(
    alloc: Global,
    ready: &Ready,
    given: Option<&Fit>,
    input: &mut S,
) -> Result<Octets, Stopped>
    requires known { ready.now.number < length ready.now.interface.operations }
    requires request { IsRequestOf ready.now.interface ready.now.number ready.now.side (option_map (λ f. f.now) given) }
    ensures made { (o : Operation) → slice_get ready.now.interface.operations ready.now.number ≡ Some o
        → IfOk result (λ made. (e : EndsSeen) → IsMadeOf (source_over S.seen input.old input.new) e (Read Trace Label)
        (setting_beside ready.now.interface o ready.now.side (option_map (λ f. f.now.graph) given.entry)) made) }
    ensures stopped { (o : Operation) → slice_get ready.now.interface.operations ready.now.number ≡ Some o
        → IfErr result (IsStoppedTask (source_over S.seen input.old input.new) Label
        (setting_beside ready.now.interface o ready.now.side (option_map (λ f. f.now.graph) given.entry))) }
{
    match take_label(input) {
        Ok(named) => trace_octets(
            alloc,
            &ready.interface,
            ready.number,
            ready.side,
            given,
            named,
            input,
        ),
        Err(refusal) => Err(Stopped {
            refusal,
            lines: None,
        }),
    }
}
