// What a command on values speaks of is made ready, with the request of a file if one is named.
ghost use Rattle.std.specs.Prelude.{◌≡◌, ◌<◌, length, None, Some, option_map, IfOk, IfErr};
ghost use Rattle.nd_base.specs.Over.{files_over};
ghost use Rattle.nd_types.specs.declared.types.Side.TheVariants.{Out};
ghost use Rattle.command_line.specs.Commands.{subject_of, IsJudged};
ghost use Rattle.command_line.specs.Words.{Values};
ghost use Rattle.command_line.specs.declared.command.Task.{Task};
ghost use Rattle.dceidl.specs.Asked.{AsksFilesOf};
ghost use Rattle.dceidl.specs.Ready.{IsUnready};
ghost use Rattle.dceidl.specs.Tracing.{IsPrepared};

use crate::ready::{Ready, make_ready};
use command_encode::load_request;
use command_line::Subject;
use command_refusals::Refusal;
use nd_base::Files;
use nd_graph::Fit;
use std::alloc::Global;

// An operation of an interface, a side of it, and maybe a request.
#[derive(Drop)]
pub(crate) struct Prepared {
    pub(crate) ready: Ready,
    pub(crate) request: Option<Fit>,
}

// Loads and reads the files, finds the operation, and loads the request of a file if one is named.
pub(crate) fn prepare<F: Files>(
    alloc: Global,
    of: Subject<'_>,
    given: Option<&str>,
    files: &mut F,
) -> Result<Prepared, Refusal>
    requires judged { IsJudged of.side given }
    ensures asked { (task : Task) → AsksFilesOf (files_over F.seen files.old files.new)
        (Values task (subject_of of.entry) (option_map (λ g. g.now) given.entry)) }
    ensures prepared { IfOk result
        (IsPrepared (files_over F.seen files.old files.new) (subject_of of.entry) (option_map (λ g. g.now) given.entry)) }
    ensures known { IfOk result (λ p. p.ready.number < length p.ready.interface.operations) }
    ensures refused { IfErr result
        (IsUnready (files_over F.seen files.old files.new) (subject_of of.entry) (option_map (λ g. g.now) given.entry)) }
{
    match given {
        None => prepare_alone(alloc, of, files),
        Some(name) => prepare_beside(alloc, of, name, files),
    }
}

// The same without a request.
fn prepare_alone<F: Files>(
    alloc: Global,
    of: Subject<'_>,
    files: &mut F,
) -> Result<Prepared, Refusal>
    ensures asked { (task : Task) → AsksFilesOf (files_over F.seen files.old files.new)
        (Values task (subject_of of.entry) None) }
    ensures prepared { IfOk result
        (IsPrepared (files_over F.seen files.old files.new) (subject_of of.entry) None) }
    ensures known { IfOk result (λ p. p.ready.number < length p.ready.interface.operations) }
    ensures refused { IfErr result
        (IsUnready (files_over F.seen files.old files.new) (subject_of of.entry) None) }
{
    let ready = make_ready(alloc, of, files)?;
    Ok(Prepared {
        ready,
        request: None,
    })
}

// The same with the request of a file.
fn prepare_beside<F: Files>(
    alloc: Global,
    of: Subject<'_>,
    name: &str,
    files: &mut F,
) -> Result<Prepared, Refusal>
    requires outputs { of.side ≡ Out }
    ensures asked { (task : Task) → AsksFilesOf (files_over F.seen files.old files.new)
        (Values task (subject_of of.entry) (Some name.now)) }
    ensures prepared { IfOk result
        (IsPrepared (files_over F.seen files.old files.new) (subject_of of.entry) (Some name.now)) }
    ensures known { IfOk result (λ p. p.ready.number < length p.ready.interface.operations) }
    ensures refused { IfErr result
        (IsUnready (files_over F.seen files.old files.new) (subject_of of.entry) (Some name.now)) }
{
    let ready = make_ready(alloc, of, files)?;
    let request = load_request(alloc, &ready.interface, ready.number, name, files)?;
    Ok(Prepared {
        ready,
        request: Some(request),
    })
}
