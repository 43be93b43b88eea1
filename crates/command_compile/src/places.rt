// The first place at which two versions of an interface differ, beside the refusal.
ghost use Rattle.std.specs.Prelude.{◌≡◌, ℕ, true, false, option_map, IfOk, IfErr};
ghost use Rattle.nd_base.specs.Over.{files_over};
ghost use Rattle.idl_compat.specs.Comparison.{IsFirst};
ghost use Rattle.idl_grammar.specs.Files.{seen_idl};
ghost use Rattle.command_refusals.specs.declared.refusal.Refusal.TheVariants.{NotCompatible};
ghost use Rattle.command_refusals.specs.declared.refusal.CompatFault.TheVariants as fault;
ghost use Rattle.command_compile.specs.Compat.{AsksBoth, IsCompatible, IsIncompatible, IsRefusal, IsPlaceText, IsExplained, IsOfOperation};

use crate::versions::{answer, compile_both};
use command_refusals::{CompatFault, Refusal};
use idl_compat_place::{difference_lines, first_difference};
use idl_grammar::IdlFile;
use nd_base::{Files, Memory, Octets};
use nd_types::Interface;
use std::alloc::Global;

/// Why two versions are not compatible.
#[derive(Drop)]
pub struct Incompatible {
    pub refusal: Refusal,
    /// Where an operation differs, the lines of the first place at which it does: those of
    /// [`difference_lines`](idl_compat_place::difference_lines).
    pub place: Option<Octets>,
}

/// The same as [`compat`](crate::compat); where an operation of the older interface differs, with the first place at which it does.
///
/// # Errors
/// As [`compat`](crate::compat). A place is beside the refusal NotCompatible with Differs, and beside no other.
///
/// Takes memory as [`compat`](crate::compat), and for the place. The time is in proportion to the files, the interfaces and the pairs of their types.
pub fn compat_why<F: Files>(
    alloc: Global,
    old: IdlFile<'_>,
    old_acf: Option<&str>,
    new: IdlFile<'_>,
    new_acf: Option<&str>,
    files: &mut F,
) -> Result<Octets, Incompatible>
    ensures asked { AsksBoth (files_over F.seen files.old files.new)
        (record { idl = seen_idl old.entry; acf = option_map (λ a. a.now) old_acf.entry })
        (record { idl = seen_idl new.entry; acf = option_map (λ a. a.now) new_acf.entry }) }
    ensures done { IfOk result (IsCompatible (files_over F.seen files.old files.new)
        (record { idl = seen_idl old.entry; acf = option_map (λ a. a.now) old_acf.entry })
        (record { idl = seen_idl new.entry; acf = option_map (λ a. a.now) new_acf.entry })) }
    ensures refused { IfErr result (IsIncompatible (files_over F.seen files.old files.new)
        (record { idl = seen_idl old.entry; acf = option_map (λ a. a.now) old_acf.entry })
        (record { idl = seen_idl new.entry; acf = option_map (λ a. a.now) new_acf.entry })) }
{
    let versions = match compile_both(alloc, old, old_acf, new, new_acf, files) {
        Ok(versions) => versions,
        Err(refusal) => {
            return Err(Incompatible {
                refusal,
                place: None,
            });
        }
    };
    match answer(alloc, &versions.older, &versions.newer) {
        Ok(line) => Ok(line),
        Err(refusal) => Err(explained(alloc, &versions.older, &versions.newer, refusal)),
    }
}

// Whether a refusal is that of an operation that differs.
fn is_of_operation(refusal: &Refusal) -> bool
    ensures { IsOfOperation refusal.now result }
{
    match refusal {
        Refusal::NotCompatible(CompatFault::Differs { .. }) => true,
        _ => false,
    }
}

// A refusal with the first place at which an operation differs, if it is of that.
fn explained(alloc: Global, older: &Interface, newer: &Interface, refusal: Refusal) -> Incompatible
    ensures { IsRefusal older.now newer.now refusal → IsExplained older.now newer.now refusal result }
{
    if !is_of_operation(&refusal) {
        return Incompatible {
            refusal,
            place: None,
        };
    }
    match place_text(alloc, older, newer) {
        Ok(text) => Incompatible {
            refusal,
            place: Some(text),
        },
        Err(_) => Incompatible {
            refusal: Refusal::Memory,
            place: None,
        },
    }
}

// The lines of the first difference of two interfaces.
fn place_text(alloc: Global, older: &Interface, newer: &Interface) -> Result<Octets, Memory>
    ensures { (k : ℕ) → IsFirst older.now newer.now k → IfOk result (IsPlaceText older.now newer.now) }
{
    match first_difference(alloc, older, newer)? {
        Some(difference) => difference_lines(alloc, older, newer, &difference),
        None => Octets::copy(alloc, b""),
    }
}
