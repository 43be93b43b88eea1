// Two versions of an interface are compiled and compared.
ghost use Rattle.std.specs.Prelude.{◌≡◌, ◌<◌, [], ◌∷◌, codes, decimal, length, Some, option_map, IfOk, IfErr};
ghost use Rattle.std.specs.List.{slice_get};
ghost use Rattle.nd_base.specs.Over.{files_over};
ghost use Rattle.nd_base.specs.Text.{joined};
ghost use Rattle.nd_types.specs.declared.types.Operation.{Operation};
ghost use Rattle.idl_grammar.specs.Files.{seen_idl};
ghost use Rattle.command_refusals.specs.declared.refusal.Refusal.TheVariants.{NotCompatible};
ghost use Rattle.command_refusals.specs.declared.refusal.CompatFault.TheVariants as fault;
ghost use Rattle.command_compile.specs.Compat.{AsksBoth, IsCompatible, IsCompatCause, AreCompiled, IsFilesCause, IsAnswer, IsRefusal, IsDifference};
ghost use Rattle.command_compile.specs.Compat.{compatible_line as line_of};

use crate::compile;
use command_refusals::{CompatFault, Refusal};
use idl_compat::{Compared, compare};
use idl_grammar::IdlFile;
use itoa::Buffer;
use nd_base::text::join;
use nd_base::{Files, Memory, Octets};
use nd_types::Interface;
use std::alloc::Global;

// Two versions of an interface.
#[derive(Drop)]
pub(crate) struct Versions {
    pub(crate) older: Interface,
    pub(crate) newer: Interface,
}

/// The line `compatible` with the number of operations of the interface of the file `old`, if that of the file `new` is a later version with the same
/// ones. Then, by the pairs of their types, octets represent a graph that conforms to a side of an operation of the older one exactly if they
/// represent the same graph, and it conforms, under the newer one.
///
/// The file `old` is compiled with its imports and its attribute configuration file `old_acf`, as by [`compile`], and after it `new` in the same way.
/// A file that both of them need is loaded for each.
///
/// # Errors
/// Absent, FileFailed and BadIdl, as [`compile`] answers them: of the files of `old`, or, where these mean an interface, of the files of `new`.
/// NotCompatible, the first reason in this order: the UUIDs differ or one is absent; the major versions differ; the minor version of the newer one is
/// less; it has fewer operations; this operation of the older one is the first that no one-to-one pairing of types makes alike with those before it.
/// Memory where memory was refused.
///
/// Takes memory for the files, the interfaces and the pairs of their types. The time is in proportion to these.
pub fn compat<F: Files>(
    alloc: Global,
    old: IdlFile<'_>,
    old_acf: Option<&str>,
    new: IdlFile<'_>,
    new_acf: Option<&str>,
    files: &mut F,
) -> Result<Octets, Refusal>
    ensures asked { AsksBoth (files_over F.seen files.old files.new)
        (record { idl = seen_idl old.entry; acf = option_map (λ a. a.now) old_acf.entry })
        (record { idl = seen_idl new.entry; acf = option_map (λ a. a.now) new_acf.entry }) }
    ensures done { IfOk result (IsCompatible (files_over F.seen files.old files.new)
        (record { idl = seen_idl old.entry; acf = option_map (λ a. a.now) old_acf.entry })
        (record { idl = seen_idl new.entry; acf = option_map (λ a. a.now) new_acf.entry })) }
    ensures refused { IfErr result (IsCompatCause (files_over F.seen files.old files.new)
        (record { idl = seen_idl old.entry; acf = option_map (λ a. a.now) old_acf.entry })
        (record { idl = seen_idl new.entry; acf = option_map (λ a. a.now) new_acf.entry })) }
{
    let versions = compile_both(alloc, old, old_acf, new, new_acf, files)?;
    answer(alloc, &versions.older, &versions.newer)
}

// The interfaces of both files.
pub(crate) fn compile_both<F: Files>(
    alloc: Global,
    old: IdlFile<'_>,
    old_acf: Option<&str>,
    new: IdlFile<'_>,
    new_acf: Option<&str>,
    files: &mut F,
) -> Result<Versions, Refusal>
    ensures asked { AsksBoth (files_over F.seen files.old files.new)
        (record { idl = seen_idl old.entry; acf = option_map (λ a. a.now) old_acf.entry })
        (record { idl = seen_idl new.entry; acf = option_map (λ a. a.now) new_acf.entry }) }
    ensures compiled { IfOk result (λ v. AreCompiled (files_over F.seen files.old files.new)
        (record { idl = seen_idl old.entry; acf = option_map (λ a. a.now) old_acf.entry })
        (record { idl = seen_idl new.entry; acf = option_map (λ a. a.now) new_acf.entry })
        v.older v.newer) }
    ensures refused { IfErr result (IsFilesCause (files_over F.seen files.old files.new)
        (record { idl = seen_idl old.entry; acf = option_map (λ a. a.now) old_acf.entry })
        (record { idl = seen_idl new.entry; acf = option_map (λ a. a.now) new_acf.entry })) }
{
    let older = compile(alloc, old, old_acf, files)?;
    let newer = compile(alloc, new, new_acf, files)?;
    Ok(Versions { older, newer })
}

// What the comparison of two interfaces comes to, as a line or a refusal.
pub(crate) fn answer(alloc: Global, older: &Interface, newer: &Interface) -> Result<Octets, Refusal>
    ensures done { IfOk result (IsAnswer older.now newer.now) }
    ensures refused { IfErr result (IsRefusal older.now newer.now) }
{
    match compare(alloc, older, newer)? {
        Compared::Yes { .. } => {
            let line = compatible_line(alloc, older)?;
            Ok(line)
        }
        Compared::OtherUuid => Err(Refusal::NotCompatible(CompatFault::OtherUuid)),
        Compared::OtherMajor { old, new } => {
            Err(Refusal::NotCompatible(CompatFault::OtherMajor { old, new }))
        }
        Compared::OlderMinor { old, new } => {
            Err(Refusal::NotCompatible(CompatFault::OlderMinor { old, new }))
        }
        Compared::Fewer { old, new } => {
            Err(Refusal::NotCompatible(CompatFault::Fewer { old, new }))
        }
        Compared::Differs { op } => Err(difference(alloc, older, op)),
    }
}

// The line of an interface that has all operations of an older one.
fn compatible_line(alloc: Global, older: &Interface) -> Result<Octets, Memory>
    ensures { IfOk result (λ line. line ≡ line_of older.now) }
{
    let mut digits = Buffer::new();
    let count = digits.format(older.operations.len() as u32).as_bytes();
    join(alloc, &[b"compatible ", count, b"\n"])
}

// That an operation differs.
fn difference(alloc: Global, older: &Interface, op: u32) -> Refusal
    requires { op < length older.now.operations }
    ensures { IsDifference older.now op result }
{
    let Some(operation) = older.operations.get(op as usize) else {
        unreachable!();
    };
    match Octets::copy(alloc, operation.name.as_slice()) {
        Ok(name) => Refusal::NotCompatible(CompatFault::Differs { name }),
        Err(_) => Refusal::Memory,
    }
}
