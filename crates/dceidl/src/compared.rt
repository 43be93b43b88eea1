// `compat .. why`: two versions are compared, and the first place at which they differ is written beside the refusal.
ghost use Rattle.std.specs.Prelude.{◌≡◌, true, false, option_map, IfSome, IfNone};
ghost use Rattle.nd_base.specs.Over.{FilesOver, files_over};
ghost use Rattle.idl_grammar.specs.Files.{seen_idl};
ghost use Rattle.command_compile.specs.Compiled.{FileNames};
ghost use Rattle.command_compile.specs.Compat.{AsksBoth, IsIncompatible};
ghost use Rattle.command_line.specs.Commands.{command_of};
ghost use Rattle.command_line.specs.Words.{Compat};
ghost use Rattle.dceidl.specs.Held.{HasNoPlace, IsComparedOutcome};

use command_compile::{Incompatible, compat_why};
use command_line::Command;
use command_refusals::{line, status};
use command_streams::Outcome;
use idl_grammar::IdlFile;
use nd_base::Files;
use std::alloc::Global;

// The files of two versions.
#[derive(Clone, Copy)]
pub(crate) struct Versions<'a> {
    pub(crate) old: IdlFile<'a>,
    pub(crate) old_acf: Option<&'a str>,
    pub(crate) new: IdlFile<'a>,
    pub(crate) new_acf: Option<&'a str>,
}

// The versions of a command that asks for the first place at which they differ.
pub(crate) fn asked_versions(command: Command<'_>) -> Option<Versions<'_>>
    ensures some { IfSome result (λ v. command_of command.entry
        ≡ Compat (seen_idl v.old) (option_map (λ a. a.now) v.old_acf) (seen_idl v.new) (option_map (λ a. a.now) v.new_acf) true) }
    ensures none { IfNone result (HasNoPlace (command_of command.entry)) }
{
    match command {
        Command::Compat {
            old,
            old_acf,
            new,
            new_acf,
            why,
        } => {
            if why {
                Some(Versions {
                    old,
                    old_acf,
                    new,
                    new_acf,
                })
            } else {
                None
            }
        }
        Command::Values { .. } => None,
        Command::Compile { .. } => None,
        Command::Plan { .. } => None,
        Command::Call { .. } => None,
        Command::Wrap { .. } => None,
        Command::Sample { .. } => None,
        Command::Help => None,
        Command::Version => None,
    }
}

// What the comparison of two versions comes to.
pub(crate) fn compared<F: Files>(alloc: Global, versions: Versions<'_>, files: &mut F) -> Outcome
    ensures asked { AsksBoth (files_over F.seen files.old files.new)
        (record { idl = seen_idl versions.entry.old; acf = option_map (λ a. a.now) versions.entry.old_acf })
        (record { idl = seen_idl versions.entry.new; acf = option_map (λ a. a.now) versions.entry.new_acf }) }
    ensures outcome { IsComparedOutcome (files_over F.seen files.old files.new)
        (record { idl = seen_idl versions.entry.old; acf = option_map (λ a. a.now) versions.entry.old_acf })
        (record { idl = seen_idl versions.entry.new; acf = option_map (λ a. a.now) versions.entry.new_acf }) result }
{
    match compat_why(
        alloc,
        versions.old,
        versions.old_acf,
        versions.new,
        versions.new_acf,
        files,
    ) {
        Ok(made) => Outcome::Done(made),
        Err(why) => incompatible(alloc, why),
    }
}

// The outcome of versions that are not compatible.
fn incompatible(alloc: Global, why: Incompatible) -> Outcome
    ensures { (f : FilesOver) (old new : FileNames) → IsIncompatible f old new why → IsComparedOutcome f old new result }
{
    let Incompatible { refusal, place } = why;
    let Ok(line) = line(alloc, "", "", &refusal) else {
        return Outcome::Wanting;
    };
    let status = status(&refusal);
    match place {
        Some(text) => Outcome::Reported { text, status, line },
        None => Outcome::Refused { status, line },
    }
}
