// Interfaces.
ghost use Rattle.std.specs.Prelude.{◌≡◌, ◌≤◌, ◌<◌, length, take, drop, Some, None, true, is_some, IsSomeAnd, IsUtf8};
ghost use Rattle.std.specs.List.{slice_get};
ghost use Rattle.nd_types.specs.Roots.{operation_named};
ghost use Rattle.idl_grammar.specs.declared.language.Language.TheVariants.{C706 as InC706, Windows as InWindows};
ghost use Rattle.library_interface.specs.Named.{HasBadName};
ghost use Rattle.library_answers.specs.Answers.{interface_in, refusal_in};
ghost use Rattle.library_answers.specs.Compiling.{IsFilesCompile, IsFilesRefusal};

use idl_grammar::Language;
use library_answers::{
    ABSENT, ARGUMENT, EMPTY, MEMORY, OK, REFUSED, SHORT, compile, find_operation, free, share,
    write_name,
};
use library_handles::{Handle, Held};
use library_interface::File;
use std::alloc::Global;

/// The version of the library, 0.1.0: an octet each for the major, minor and patch number.
#[unsafe(no_mangle)]
pub extern "C" fn dceidl_version() -> u32
    ensures { result ≡ 256 }
{
    256
}

/// Compiles the first file with what it imports, beside the attribute configuration file of the number `acf`, if that is not 0.
#[unsafe(no_mangle)]
pub extern "C" fn dceidl_compile(
    alloc: Global,
    files: &[File<'_>],
    acf: usize,
    interface: &mut Handle,
    fault: &mut Handle,
) -> u32
    ensures known { result ≤ REFUSED }
    ensures not_empty { result ≡ EMPTY → ⊥ }
    ensures not_short { result ≡ SHORT → ⊥ }
    ensures compiled { result ≡ OK → IsSomeAnd (interface_in interface.new.value) (λ i. IsFilesCompile InC706 files.now acf i) }
    ensures refused { result ≡ REFUSED → IsSomeAnd (refusal_in fault.new.value) (λ e. IsFilesRefusal InC706 files.now acf e) }
    ensures argument { result ≡ ARGUMENT → acf < length files.now → HasBadName files.now }
    ensures there { (result ≡ ARGUMENT → ⊥) → acf < length files.now }
    ensures named { (result ≡ ARGUMENT → ⊥) → HasBadName files.now → ⊥ }
    ensures interface_kept { (result ≡ OK → ⊥) → interface.new.value ≡ interface.old.value }
    ensures fault_kept { (result ≡ REFUSED → ⊥) → fault.new.value ≡ fault.old.value }
{
    compile(alloc, Language::C706, files, acf, interface, fault)
}

/// The same in a language: 0 is that of C706, 1 the windows language.
#[unsafe(no_mangle)]
pub extern "C" fn dceidl_compile_language(
    alloc: Global,
    language: u32,
    files: &[File<'_>],
    acf: usize,
    interface: &mut Handle,
    fault: &mut Handle,
) -> u32
    ensures known { result ≤ REFUSED }
    ensures not_empty { result ≡ EMPTY → ⊥ }
    ensures not_short { result ≡ SHORT → ⊥ }
    ensures c706 { language ≡ 0 → result ≡ OK → IsSomeAnd (interface_in interface.new.value) (λ i. IsFilesCompile InC706 files.now acf i) }
    ensures windows { language ≡ 1 → result ≡ OK → IsSomeAnd (interface_in interface.new.value) (λ i. IsFilesCompile InWindows files.now acf i) }
    ensures c706_refused { language ≡ 0 → result ≡ REFUSED → IsSomeAnd (refusal_in fault.new.value) (λ e. IsFilesRefusal InC706 files.now acf e) }
    ensures windows_refused { language ≡ 1 → result ≡ REFUSED
        → IsSomeAnd (refusal_in fault.new.value) (λ e. IsFilesRefusal InWindows files.now acf e) }
    ensures other { 2 ≤ language → result ≡ ARGUMENT }
    ensures argument { language < 2 → result ≡ ARGUMENT → acf < length files.now → HasBadName files.now }
    ensures there { (result ≡ ARGUMENT → ⊥) → acf < length files.now }
    ensures named { (result ≡ ARGUMENT → ⊥) → HasBadName files.now → ⊥ }
    ensures interface_kept { (result ≡ OK → ⊥) → interface.new.value ≡ interface.old.value }
    ensures fault_kept { (result ≡ REFUSED → ⊥) → fault.new.value ≡ fault.old.value }
{
    if language == 0 {
        return compile(alloc, Language::C706, files, acf, interface, fault);
    }
    if language == 1 {
        return compile(alloc, Language::Windows, files, acf, interface, fault);
    }
    ARGUMENT
}

/// Fills another handle with the same interface.
#[unsafe(no_mangle)]
pub extern "C" fn dceidl_interface_again(
    alloc: Global,
    interface: &mut Handle,
    again: &mut Handle,
) -> u32
    ensures known { result ≤ MEMORY }
    ensures not_argument { result ≡ ARGUMENT → ⊥ }
    ensures same { interface.new.value ≡ interface.old.value }
    ensures filled { result ≡ OK → IsSomeAnd (interface_in interface.old.value) (λ i. interface_in again.new.value ≡ Some i) }
    ensures empty { result ≡ EMPTY → interface_in interface.old.value ≡ None }
    ensures memory { result ≡ MEMORY → is_some (interface_in interface.old.value) ≡ true }
    ensures kept { (result ≡ OK → ⊥) → again.new.value ≡ again.old.value }
{
    let Some(held) = interface.take(alloc) else {
        return EMPTY;
    };
    let status = match &*held {
        Held::Interface(compiled) => share(alloc, compiled, again),
        _ => EMPTY,
    };
    interface.put(alloc, held);
    status
}

/// Lets go of an interface.
#[unsafe(no_mangle)]
pub extern "C" fn dceidl_interface_free(alloc: Global, interface: &mut Handle)
    ensures { interface.new.value ≡ None }
{
    free(alloc, interface);
}

/// The number of operations.
#[unsafe(no_mangle)]
pub extern "C" fn dceidl_operation_count(
    alloc: Global,
    interface: &mut Handle,
    count: &mut usize,
) -> u32
    ensures known { result ≤ EMPTY }
    ensures same { interface.new.value ≡ interface.old.value }
    ensures count { result ≡ OK → IsSomeAnd (interface_in interface.old.value) (λ i. count.new ≡ length i.operations) }
    ensures empty { result ≡ EMPTY → interface_in interface.old.value ≡ None }
    ensures count_kept { (result ≡ OK → ⊥) → count.new ≡ count.old }
{
    let Some(held) = interface.take(alloc) else {
        return EMPTY;
    };
    let status = match &*held {
        Held::Interface(compiled) => {
            *count = compiled.interface().operations.len();
            OK
        }
        _ => EMPTY,
    };
    interface.put(alloc, held);
    status
}

/// The number of the operation of a name.
#[unsafe(no_mangle)]
pub extern "C" fn dceidl_operation_number(
    alloc: Global,
    interface: &mut Handle,
    name: &[u8],
    operation: &mut u32,
) -> u32
    ensures known { result ≤ ABSENT }
    ensures not_memory { result ≡ MEMORY → ⊥ }
    ensures not_short { result ≡ SHORT → ⊥ }
    ensures not_refused { result ≡ REFUSED → ⊥ }
    ensures same { interface.new.value ≡ interface.old.value }
    ensures found { result ≡ OK → IsSomeAnd (interface_in interface.old.value) (λ i. operation_named i.operations name.now ≡ Some operation.new) }
    ensures absent { result ≡ ABSENT → IsSomeAnd (interface_in interface.old.value) (λ i. operation_named i.operations name.now ≡ None) }
    ensures empty { result ≡ EMPTY → interface_in interface.old.value ≡ None }
    ensures argument { result ≡ ARGUMENT → IsSomeAnd (interface_in interface.old.value) (λ _. IsUtf8 name.now → ⊥) }
    ensures utf8 { (result ≡ EMPTY → ⊥) → (result ≡ ARGUMENT → ⊥) → IsUtf8 name.now }
    ensures operation_kept { (result ≡ OK → ⊥) → operation.new ≡ operation.old }
{
    let Some(held) = interface.take(alloc) else {
        return EMPTY;
    };
    let status = match &*held {
        Held::Interface(compiled) => find_operation(compiled, name, operation),
        _ => EMPTY,
    };
    interface.put(alloc, held);
    status
}

/// Writes the name of an operation.
#[unsafe(no_mangle)]
pub extern "C" fn dceidl_operation_name(
    alloc: Global,
    interface: &mut Handle,
    operation: u32,
    out: &mut [u8],
    len: &mut usize,
) -> u32
    ensures known { result ≤ SHORT }
    ensures not_memory { result ≡ MEMORY → ⊥ }
    ensures same { interface.new.value ≡ interface.old.value }
    ensures written { result ≡ OK → IsSomeAnd (interface_in interface.old.value)
        (λ i. IsSomeAnd (slice_get i.operations operation) (λ o. take len.new out.new ≡ o.name)) }
    ensures rest { result ≡ OK → drop len.new out.new ≡ drop len.new out.old }
    ensures room { result ≡ OK → len.new ≤ length out.old }
    ensures argument { result ≡ ARGUMENT → IsSomeAnd (interface_in interface.old.value) (λ i. slice_get i.operations operation ≡ None) }
    ensures short { result ≡ SHORT → IsSomeAnd (interface_in interface.old.value)
        (λ i. IsSomeAnd (slice_get i.operations operation) (λ o. (len.new ≡ length o.name) × (length out.old < len.new))) }
    ensures empty { result ≡ EMPTY → interface_in interface.old.value ≡ None }
    ensures kept { (result ≡ OK → ⊥) → out.new ≡ out.old }
    ensures len_kept { (result ≡ OK → ⊥) → (result ≡ SHORT → ⊥) → len.new ≡ len.old }
{
    let Some(held) = interface.take(alloc) else {
        return EMPTY;
    };
    let status = match &*held {
        Held::Interface(compiled) => write_name(compiled, operation, out, len),
        _ => EMPTY,
    };
    interface.put(alloc, held);
    status
}
