// What each command does.
ghost use Rattle.std.specs.Prelude.{◌≡◌, ◌<◌, ◌≤◌, [], ◌∷◌, ◌++◌, length, Some, None, option_map, IfOk, IfErr};
ghost use Rattle.std.specs.List.{slice_get};
ghost use Rattle.nd_base.specs.Over.{files_over, source_over};
ghost use Rattle.nd_types.specs.declared.types.Operation.{Operation};
ghost use Rattle.nd_types.specs.declared.types.Side.TheVariants.{Out};
ghost use Rattle.nd_value.specs.Fitting.{setting_of, setting_beside};
ghost use Rattle.nd_value.specs.Request.{IsRequestOf};
ghost use Rattle.ndr_pipe.specs.Ends.{AreOpen, ends_over, ends_seen};
ghost use Rattle.dceidl.specs.Asked.{AsksFor, AsksEnds, drains, seen_over};
ghost use Rattle.dceidl.specs.Causes.{IsMade, IsCause};
ghost use Rattle.command_line.specs.Commands.{command_of, subject_of, IsWellFormed, HasChunks};
ghost use Rattle.dceidl.specs.Input.{IsLabelledEncoding, IsMigration, IsMadeOf, IsTaskCause, IsMadeBeside, IsBesideCause, IsInputEncodingCause};
ghost use Rattle.dceidl.specs.Input.{IsInputTextCause, OfText};
ghost use Rattle.command_line.specs.Words.{Values};

use crate::call::call;
use crate::encode::{encode, migrate};
use crate::reading::read_octets;
use crate::ready::{Ready, make_ready};
use crate::wrap::wrap;
use crate::{HELP, VERSION};
use command_compile::{compat, list, list_plan};
use command_encode::load_request;
use command_line::{Command, OrderWord, Subject, Task};
use command_refusals::Refusal;
use command_sample::sample;
use command_streams::read_input;
use nd_base::{Files, Octets, Source};
use nd_graph::Fit;
use ndr_pipe::{Ends, PipeEnd};
use std::alloc::Global;
use value_text::TEXT_LIMIT;

// Does a command.
pub(crate) fn perform<F: Files, S: Source, E: PipeEnd>(
    alloc: Global,
    command: Command<'_>,
    files: &mut F,
    input: &mut S,
    ends: &mut Ends<E>,
) -> Result<Octets, Refusal>
    requires open { AreOpen (ends_seen E.seen ends.old) }
    requires formed { IsWellFormed command }
    ensures asked { AsksFor
        (seen_over (files_over F.seen files.old files.new) (source_over S.seen input.old input.new)
        (ends_over E.seen ends.old ends.new))
        (command_of command.entry) }
    ensures done { IfOk result (IsMade
        (seen_over (files_over F.seen files.old files.new) (source_over S.seen input.old input.new)
        (ends_over E.seen ends.old ends.new))
        (command_of command.entry)) }
    ensures refused { IfErr result (IsCause
        (seen_over (files_over F.seen files.old files.new) (source_over S.seen input.old input.new)
        (ends_over E.seen ends.old ends.new))
        (command_of command.entry)) }
{
    match command {
        Command::Values {
            task,
            of,
            given: None,
        } => perform_alone(alloc, task, of, files, input, ends),
        Command::Values {
            task,
            of,
            given: Some(name),
        } => perform_beside(alloc, task, of, name, files, input, ends),
        Command::Compile { idl, acf } => list(alloc, idl, acf, files),
        Command::Plan { idl, acf } => list_plan(alloc, idl, acf, files),
        Command::Call { idl, acf, op } => call(alloc, idl, acf, op, files, input),
        Command::Wrap {
            of,
            order,
            call,
            max,
        } => wrap(alloc, of, order, call, max, files, input),
        Command::Compat {
            old,
            old_acf,
            new,
            new_acf,
            ..
        } => compat(alloc, old, old_acf, new, new_acf, files),
        Command::Sample { seed, count } => Ok(sample(alloc, seed, count)?),
        Command::Help => Ok(Octets::copy(alloc, HELP.as_bytes())?),
        Command::Version => Ok(Octets::copy(alloc, VERSION.as_bytes())?),
    }
}

// Does something with values, once what the command speaks of is ready.
fn perform_alone<F: Files, S: Source, E: PipeEnd>(
    alloc: Global,
    task: Task,
    of: Subject<'_>,
    files: &mut F,
    input: &mut S,
    ends: &mut Ends<E>,
) -> Result<Octets, Refusal>
    requires open { AreOpen (ends_seen E.seen ends.old) }
    requires chunk { HasChunks task }
    ensures asked { AsksFor
        (seen_over (files_over F.seen files.old files.new) (source_over S.seen input.old input.new)
        (ends_over E.seen ends.old ends.new))
        (Values task (subject_of of.entry) None) }
    ensures done { IfOk result (IsMade
        (seen_over (files_over F.seen files.old files.new) (source_over S.seen input.old input.new)
        (ends_over E.seen ends.old ends.new))
        (Values task (subject_of of.entry) None)) }
    ensures refused { IfErr result (IsCause
        (seen_over (files_over F.seen files.old files.new) (source_over S.seen input.old input.new)
        (ends_over E.seen ends.old ends.new))
        (Values task (subject_of of.entry) None)) }
{
    let ready = make_ready(alloc, of, files)?;
    perform_task(alloc, &ready, task, None, input, ends)
}

// The same beside the request of a file.
fn perform_beside<F: Files, S: Source, E: PipeEnd>(
    alloc: Global,
    task: Task,
    of: Subject<'_>,
    name: &str,
    files: &mut F,
    input: &mut S,
    ends: &mut Ends<E>,
) -> Result<Octets, Refusal>
    requires open { AreOpen (ends_seen E.seen ends.old) }
    requires chunk { HasChunks task }
    requires outputs { of.side ≡ Out }
    ensures asked { AsksFor
        (seen_over (files_over F.seen files.old files.new) (source_over S.seen input.old input.new)
        (ends_over E.seen ends.old ends.new))
        (Values task (subject_of of.entry) (Some name.now)) }
    ensures done { IfOk result (IsMade
        (seen_over (files_over F.seen files.old files.new) (source_over S.seen input.old input.new)
        (ends_over E.seen ends.old ends.new))
        (Values task (subject_of of.entry) (Some name.now))) }
    ensures refused { IfErr result (IsCause
        (seen_over (files_over F.seen files.old files.new) (source_over S.seen input.old input.new)
        (ends_over E.seen ends.old ends.new))
        (Values task (subject_of of.entry) (Some name.now))) }
{
    let ready = make_ready(alloc, of, files)?;
    perform_after(alloc, &ready, task, name, files, input, ends)
}

// Loads the request of a file, and does something with values beside it.
fn perform_after<F: Files, S: Source, E: PipeEnd>(
    alloc: Global,
    ready: &Ready,
    task: Task,
    name: &str,
    files: &mut F,
    input: &mut S,
    ends: &mut Ends<E>,
) -> Result<Octets, Refusal>
    requires open { AreOpen (ends_seen E.seen ends.old) }
    requires known { ready.now.number < length ready.now.interface.operations }
    requires outputs { ready.now.side ≡ Out }
    requires chunk { HasChunks task }
    ensures asked { (F.seen files.new).asked ≡ (F.seen files.old).asked ++ name.now ∷ [] }
    ensures same { (F.seen files.new).held ≡ (F.seen files.old).held }
    ensures later { (F.seen files.old).faults ≤ (F.seen files.new).faults }
    ensures absences_later { (F.seen files.old).absences ≤ (F.seen files.new).absences }
    ensures ends { AsksEnds (ends_over E.seen ends.old ends.new) (drains task) }
    ensures done { (o : Operation) → slice_get ready.now.interface.operations ready.now.number ≡ Some o
        → IfOk result
        (IsMadeBeside (files_over F.seen files.old files.new)
        (source_over S.seen input.old input.new) (ends_over E.seen ends.old ends.new) name.now task
        (setting_of ready.now.interface o ready.now.side)) }
    ensures refused { (o : Operation) → slice_get ready.now.interface.operations ready.now.number ≡ Some o
        → IfErr result
        (IsBesideCause (files_over F.seen files.old files.new)
        (source_over S.seen input.old input.new) (ends_over E.seen ends.old ends.new) name.now task
        (setting_of ready.now.interface o ready.now.side)) }
{
    let request = load_request(alloc, &ready.interface, ready.number, name, files)?;
    perform_task(alloc, ready, task, Some(&request), input, ends)
}

// Does something with the values of the input, beside a request if one is given.
fn perform_task<S: Source, E: PipeEnd>(
    alloc: Global,
    ready: &Ready,
    task: Task,
    given: Option<&Fit>,
    input: &mut S,
    ends: &mut Ends<E>,
) -> Result<Octets, Refusal>
    requires open { AreOpen (ends_seen E.seen ends.old) }
    requires known { ready.now.number < length ready.now.interface.operations }
    requires request { IsRequestOf ready.now.interface ready.now.number ready.now.side (option_map (λ f. f.now) given) }
    requires chunk { HasChunks task }
    ensures ends { AsksEnds (ends_over E.seen ends.old ends.new) (drains task) }
    ensures done { (o : Operation) → slice_get ready.now.interface.operations ready.now.number ≡ Some o
        → IfOk result (IsMadeOf (source_over S.seen input.old input.new) (ends_over E.seen ends.old ends.new) task
        (setting_beside ready.now.interface o ready.now.side (option_map (λ f. f.now.graph) given.entry))) }
    ensures refused { (o : Operation) → slice_get ready.now.interface.operations ready.now.number ≡ Some o
        → IfErr result (IsTaskCause (source_over S.seen input.old input.new) (ends_over E.seen ends.old ends.new) task
        (setting_beside ready.now.interface o ready.now.side (option_map (λ f. f.now.graph) given.entry))) }
{
    match task {
        Task::Read { how, order } => read_octets(alloc, ready, how, order, given, input, ends),
        Task::Encode { order, chunk } => encode_input(alloc, ready, given, order, chunk, input),
        Task::Migrate => migrate_input(alloc, ready, given, input),
    }
}

// Encodes the text of the input.
pub(crate) fn encode_input<S: Source>(
    alloc: Global,
    ready: &Ready,
    given: Option<&Fit>,
    order: OrderWord,
    chunk: u32,
    input: &mut S,
) -> Result<Octets, Refusal>
    requires known { ready.now.number < length ready.now.interface.operations }
    requires request { IsRequestOf ready.now.interface ready.now.number ready.now.side (option_map (λ f. f.now) given) }
    requires chunk { 1 ≤ chunk }
    ensures done { (o : Operation) → slice_get ready.now.interface.operations ready.now.number ≡ Some o
        → IfOk result (λ made. OfText (source_over S.seen input.old input.new) (λ text. IsLabelledEncoding
        (setting_beside ready.now.interface o ready.now.side (option_map (λ f. f.now.graph) given.entry)) order chunk text made)) }
    ensures refused { (o : Operation) → slice_get ready.now.interface.operations ready.now.number ≡ Some o
        → IfErr result (IsInputEncodingCause (source_over S.seen input.old input.new)
        (setting_beside ready.now.interface o ready.now.side (option_map (λ f. f.now.graph) given.entry)) chunk) }
{
    let text = read_input(alloc, input, TEXT_LIMIT)?;
    encode(alloc, ready, given, order, chunk, text.as_slice())
}

// Prints the values of the text of the input.
fn migrate_input<S: Source>(
    alloc: Global,
    ready: &Ready,
    given: Option<&Fit>,
    input: &mut S,
) -> Result<Octets, Refusal>
    requires known { ready.now.number < length ready.now.interface.operations }
    requires request { IsRequestOf ready.now.interface ready.now.number ready.now.side (option_map (λ f. f.now) given) }
    ensures done { (o : Operation) → slice_get ready.now.interface.operations ready.now.number ≡ Some o
        → IfOk result (λ made. OfText (source_over S.seen input.old input.new) (λ text. IsMigration
        (setting_beside ready.now.interface o ready.now.side (option_map (λ f. f.now.graph) given.entry)) text made)) }
    ensures refused { (o : Operation) → slice_get ready.now.interface.operations ready.now.number ≡ Some o
        → IfErr result (IsInputTextCause (source_over S.seen input.old input.new)
        (setting_beside ready.now.interface o ready.now.side (option_map (λ f. f.now.graph) given.entry))) }
{
    let text = read_input(alloc, input, TEXT_LIMIT)?;
    migrate(alloc, ready, given, text.as_slice())
}
