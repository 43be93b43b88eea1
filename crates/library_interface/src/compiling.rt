// An interface is compiled from files that a caller lends.
ghost use Rattle.std.specs.Prelude.{◌≡◌, ℕ, List, Option, None, option_map, IfOk, IfErr};
ghost use Rattle.idl_grammar.specs.Files.{seen_idl};
ghost use Rattle.library_interface.specs.Held.{content_under};
ghost use Rattle.library_interface.specs.Named.{named_after, HasBadName};
ghost use Rattle.library_interface.specs.declared.file.File.{File as FileValue};
ghost use Rattle.command_refusals.specs.declared.refusal.Refusal.TheVariants as refusal;
ghost use Rattle.library_interface.specs.CompiledOf.{IsCompiledOf, IsCompileCause, IsCompileFault};
ghost use Rattle.library_interface.specs.declared.fault.CompileFault.TheVariants.{Refused};

use crate::compiled::Compiled;
use crate::fault::CompileFault;
use crate::{File, LendFault, LentFiles};
use command_compile::compile;
use command_refusals::Refusal;
use idl_grammar::IdlFile;
use nd_types::Interface;
use std::alloc::Global;

/// The interface that the file `idl` means with those that it imports, and with an attribute configuration file if one is named (C706, chapter 4).
/// All of these are among the files that are lent; of two files of one name the later counts.
///
/// # Errors
/// BadName, where the name of a file is not UTF-8. Refused by Absent, the first file that was due and is not among them; by BadIdl, the first fault
/// of the files, at its line and column; by Memory where memory was refused.
///
/// Takes memory for a copy of the files, the interface and its plan, and keeps the interface and the plan.
pub fn compile_files(
    alloc: Global,
    files: &[File<'_>],
    idl: IdlFile<'_>,
    acf: Option<&str>,
) -> Result<Compiled, CompileFault>
    ensures compiled { IfOk result (IsCompiledOf (λ name. named_after files.now name None) (seen_idl idl.entry) (option_map (λ a. a.now) acf.entry)) }
    ensures good { IfOk result (λ _. HasBadName files.now → ⊥) }
    ensures refused { IfErr result
        (IsCompileFault files.now (λ name. named_after files.now name None) (seen_idl idl.entry) (option_map (λ a. a.now) acf.entry)) }
{
    match LentFiles::of(alloc, files) {
        Ok(lent) => compile_lent(alloc, lent, idl, acf),
        Err(LendFault::Memory) => Err(CompileFault::Refused(Refusal::Memory)),
        Err(LendFault::BadName) => Err(CompileFault::BadName),
    }
}

// The interface that files mean, with its plan.
fn compile_lent(
    alloc: Global,
    mut lent: LentFiles,
    idl: IdlFile<'_>,
    acf: Option<&str>,
) -> Result<Compiled, CompileFault>
    ensures compiled { (held : List ℕ → Option (List ℕ)) → ((name : List ℕ) → content_under lent name ≡ held name)
        → IfOk result (IsCompiledOf held (seen_idl idl.entry) (option_map (λ a. a.now) acf.entry)) }
    ensures refused { (files : List FileValue) (held : List ℕ → Option (List ℕ)) → ((name : List ℕ) → content_under lent name ≡ held name)
        → IfErr result (IsCompileFault files held (seen_idl idl.entry) (option_map (λ a. a.now) acf.entry)) }
{
    match compile_interface(alloc, &mut lent, idl, acf) {
        Ok(interface) => with_plan(alloc, interface),
        Err(refusal) => Err(CompileFault::Refused(refusal)),
    }
}

// An interface with its plan.
fn with_plan(alloc: Global, interface: Interface) -> Result<Compiled, CompileFault>
    ensures ok { IfOk result (λ c. c ≡ interface) }
    ensures err { IfErr result (λ e. e ≡ Refused refusal.Memory) }
{
    match Compiled::of(alloc, interface) {
        Ok(compiled) => Ok(compiled),
        Err(_) => Err(CompileFault::Refused(Refusal::Memory)),
    }
}

// The interface that files mean.
fn compile_interface(
    alloc: Global,
    lent: &mut LentFiles,
    idl: IdlFile<'_>,
    acf: Option<&str>,
) -> Result<Interface, Refusal>
    ensures compiled { (held : List ℕ → Option (List ℕ)) → ((name : List ℕ) → content_under lent.old name ≡ held name)
        → IfOk result (IsCompiledOf held (seen_idl idl.entry) (option_map (λ a. a.now) acf.entry)) }
    ensures refused { (held : List ℕ → Option (List ℕ)) → ((name : List ℕ) → content_under lent.old name ≡ held name)
        → IfErr result (IsCompileCause held (seen_idl idl.entry) (option_map (λ a. a.now) acf.entry)) }
{
    match compile(alloc, idl, acf, lent) {
        Ok(interface) => Ok(interface),
        Err(refusal) => Err(refusal),
    }
}
