// Interfaces.
ghost use Rattle.std.specs.Prelude.{◌≡◌, ◌≤◌, ◌<◌, length, take, drop, Some, None, option_map, IfSome, IsSomeAnd, IsUtf8};
ghost use Rattle.std.specs.List.{slice_get};
ghost use Rattle.nd_types.specs.Roots.{operation_named};
ghost use Rattle.idl_grammar.specs.Files.{seen_idl};
ghost use Rattle.library_interface.specs.Named.{HasBadName};
ghost use Rattle.library_answers.specs.Answers.{interface_in, refusal_in};
ghost use Rattle.library_answers.specs.Compiling.{IsCompile, IsCompileRefusal, IsFilesCompile, IsFilesRefusal, name_of_file};

use crate::answers::{ABSENT, ARGUMENT, EMPTY, MEMORY, OK, REFUSED, SHORT, fill, lay_out, refuse};
use idl_grammar::{IdlFile, Language};
use library_handles::{Handle, Held};
use library_interface::{CompileFault, Compiled, File, compile_files, has_bad_name};
use std::alloc::Global;
use std::rc::Rc;
use std::str::from_utf8;

/// Compiles the first file with what it imports in a language, beside the attribute configuration file of the number `acf`, if that is not 0. Fills
/// the interface or the fault. Takes memory for the interface, and for the files while it compiles.
#[tactic(auto, using(crate::proofs::Files::compiling))]
pub fn compile(
    alloc: Global,
    language: Language,
    files: &[File<'_>],
    acf: usize,
    interface: &mut Handle,
    fault: &mut Handle,
) -> u32
    ensures known { result ≤ REFUSED }
    ensures not_empty { result ≡ EMPTY → ⊥ }
    ensures not_short { result ≡ SHORT → ⊥ }
    ensures compiled { result ≡ OK → IsSomeAnd (interface_in interface.new.value) (λ i. IsFilesCompile language files.now acf i) }
    ensures refused { result ≡ REFUSED → IsSomeAnd (refusal_in fault.new.value) (λ e. IsFilesRefusal language files.now acf e) }
    ensures argument { result ≡ ARGUMENT → acf < length files.now → HasBadName files.now }
    ensures there { (result ≡ ARGUMENT → ⊥) → acf < length files.now }
    ensures named { (result ≡ ARGUMENT → ⊥) → HasBadName files.now → ⊥ }
    ensures interface_kept { (result ≡ OK → ⊥) → interface.new.value ≡ interface.old.value }
    ensures fault_kept { (result ≡ REFUSED → ⊥) → fault.new.value ≡ fault.old.value }
{
    if has_bad_name(files) {
        return ARGUMENT;
    }
    let Some(name) = name_of(files, 0) else {
        return ARGUMENT;
    };
    let idl = IdlFile { name, language };
    if acf == 0 {
        return compile_named(alloc, files, idl, None, interface, fault);
    }
    let Some(beside) = name_of(files, acf) else {
        return ARGUMENT;
    };
    compile_named(alloc, files, idl, Some(beside), interface, fault)
}

// The name of a file, if there is one of that number and its name is UTF-8.
#[tactic(auto, using(crate::proofs::Files::bad_name))]
fn name_of<'a>(files: &[File<'a>], number: usize) -> Option<&'a str>
    ensures named { IfSome result (λ name. name_of_file files.now number ≡ Some name.now) }
    ensures there { IfSome result (λ _. number < length files.now) }
    ensures bad { result ≡ None → number < length files.now → HasBadName files.now }
{
    if number >= files.len() {
        return None;
    }
    let name = octets_of_name(files, number);
    match from_utf8(name) {
        Ok(text) => Some(text),
        Err(_) => None,
    }
}

// The name of a file.
fn octets_of_name<'a>(files: &[File<'a>], number: usize) -> &'a [u8]
    requires { number < length files.now }
    ensures { name_of_file files.now number ≡ Some result.now }
{
    files[number].name
}

// Compiles the file `idl`, beside an attribute configuration file if one is named.
#[tactic(auto, using(crate::proofs::Files::compiled_is, crate::proofs::Files::compile_refused))]
fn compile_named(
    alloc: Global,
    files: &[File<'_>],
    idl: IdlFile<'_>,
    acf: Option<&str>,
    interface: &mut Handle,
    fault: &mut Handle,
) -> u32
    ensures known { result ≤ REFUSED }
    ensures not_empty { result ≡ EMPTY → ⊥ }
    ensures not_short { result ≡ SHORT → ⊥ }
    ensures compiled { result ≡ OK → IsSomeAnd (interface_in interface.new.value)
        (λ i. IsCompile files.now (seen_idl idl.entry) (option_map (λ a. a.now) acf.entry) i) }
    ensures refused { result ≡ REFUSED → IsSomeAnd (refusal_in fault.new.value)
        (λ e. IsCompileRefusal files.now (seen_idl idl.entry) (option_map (λ a. a.now) acf.entry) e) }
    ensures argument { result ≡ ARGUMENT → HasBadName files.now }
    ensures named { result ≡ OK → HasBadName files.now → ⊥ }
    ensures interface_kept { (result ≡ OK → ⊥) → interface.new.value ≡ interface.old.value }
    ensures fault_kept { (result ≡ REFUSED → ⊥) → fault.new.value ≡ fault.old.value }
{
    match compile_files(alloc, files, idl, acf) {
        Ok(compiled) => fill_compiled(alloc, compiled, interface),
        Err(CompileFault::BadName) => ARGUMENT,
        Err(CompileFault::Refused(refusal)) => refuse(alloc, fault, refusal),
    }
}

// Fills a handle with an interface.
fn fill_compiled(alloc: Global, compiled: Compiled, interface: &mut Handle) -> u32
    ensures known { result ≤ MEMORY }
    ensures not_empty { result ≡ EMPTY → ⊥ }
    ensures not_argument { result ≡ ARGUMENT → ⊥ }
    ensures not_short { result ≡ SHORT → ⊥ }
    ensures not_refused { result ≡ REFUSED → ⊥ }
    ensures filled { result ≡ OK → interface_in interface.new.value ≡ Some compiled }
    ensures kept { (result ≡ OK → ⊥) → interface.new.value ≡ interface.old.value }
{
    match Rc::new(alloc, compiled) {
        Ok(shared) => fill(alloc, interface, Held::Interface(shared)),
        Err(_) => MEMORY,
    }
}

/// Fills a handle with an interface that others have too. Takes memory for a box where the handle is empty.
pub fn share(alloc: Global, compiled: &Rc<Compiled>, again: &mut Handle) -> u32
    ensures known { result ≤ MEMORY }
    ensures not_empty { result ≡ EMPTY → ⊥ }
    ensures not_argument { result ≡ ARGUMENT → ⊥ }
    ensures filled { result ≡ OK → interface_in again.new.value ≡ Some compiled.now.value }
    ensures kept { (result ≡ OK → ⊥) → again.new.value ≡ again.old.value }
{
    match compiled.clone() {
        Ok(shared) => fill(alloc, again, Held::Interface(shared)),
        Err(_) => MEMORY,
    }
}

/// Lets go of what a handle holds. Takes no memory.
pub fn free(alloc: Global, handle: &mut Handle)
    ensures { handle.new.value ≡ None }
{
    if let Some(held) = handle.take(alloc) {
        drop(held);
    }
}

/// The number of the operation of a name. Takes no memory.
pub fn find_operation(compiled: &Compiled, name: &[u8], operation: &mut u32) -> u32
    ensures known { result ≤ ABSENT }
    ensures not_empty { result ≡ EMPTY → ⊥ }
    ensures not_memory { result ≡ MEMORY → ⊥ }
    ensures not_short { result ≡ SHORT → ⊥ }
    ensures not_refused { result ≡ REFUSED → ⊥ }
    ensures found { result ≡ OK → operation_named compiled.now.operations name.now ≡ Some operation.new }
    ensures absent { result ≡ ABSENT → operation_named compiled.now.operations name.now ≡ None }
    ensures argument { result ≡ ARGUMENT → IsUtf8 name.now → ⊥ }
    ensures utf8 { (result ≡ ARGUMENT → ⊥) → IsUtf8 name.now }
    ensures operation_kept { (result ≡ OK → ⊥) → operation.new ≡ operation.old }
{
    let name = match from_utf8(name) {
        Ok(name) => name,
        Err(_) => return ARGUMENT,
    };
    match compiled.interface().operation(name) {
        Some(number) => {
            *operation = number;
            OK
        }
        None => ABSENT,
    }
}

/// Writes the name of an operation. Takes no memory.
pub fn write_name(compiled: &Compiled, operation: u32, out: &mut [u8], len: &mut usize) -> u32
    ensures known { result ≤ SHORT }
    ensures not_empty { result ≡ EMPTY → ⊥ }
    ensures not_memory { result ≡ MEMORY → ⊥ }
    ensures written { result ≡ OK → IsSomeAnd (slice_get compiled.now.operations operation) (λ o. take len.new out.new ≡ o.name) }
    ensures rest { result ≡ OK → drop len.new out.new ≡ drop len.new out.old }
    ensures room { result ≡ OK → len.new ≤ length out.old }
    ensures argument { result ≡ ARGUMENT → slice_get compiled.now.operations operation ≡ None }
    ensures short { result ≡ SHORT → IsSomeAnd (slice_get compiled.now.operations operation)
        (λ o. (len.new ≡ length o.name) × (length out.old < len.new)) }
    ensures kept { (result ≡ OK → ⊥) → out.new ≡ out.old }
    ensures len_kept { (result ≡ OK → ⊥) → (result ≡ SHORT → ⊥) → len.new ≡ len.old }
{
    match compiled.interface().operations.get(operation as usize) {
        Some(found) => lay_out(found.name.as_slice(), out, len),
        None => ARGUMENT,
    }
}
