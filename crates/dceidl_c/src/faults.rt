// Faults.
ghost use Rattle.std.specs.Prelude.{◌≡◌, ◌≤◌, ◌<◌, [], length, take, drop, None, true, is_some, IsSomeAnd};
ghost use Rattle.command_refusals.specs.Lines.{line_of};
ghost use Rattle.library_calls.specs.Causes.{IsCauseOf};
ghost use Rattle.library_calls.specs.Names.{file_of, name_of};
ghost use Rattle.library_calls.specs.Words.{word_of};
ghost use Rattle.library_answers.specs.Answers.{refusal_in};

use library_answers::{ARGUMENT, EMPTY, MEMORY, OK, SHORT, free, lay_out, write_line};
use library_calls::{Cause, cause_of, file, name, reason_word};
use library_handles::{Handle, Held};
use std::alloc::Global;

/// Why a call was refused, in numbers.
#[unsafe(no_mangle)]
pub extern "C" fn dceidl_fault_cause(alloc: Global, fault: &mut Handle, cause: &mut Cause) -> u32
    ensures known { result ≤ EMPTY }
    ensures same { fault.new.value ≡ fault.old.value }
    ensures cause { result ≡ OK → IsSomeAnd (refusal_in fault.old.value) (λ r. IsCauseOf r cause.new) }
    ensures empty { result ≡ EMPTY → refusal_in fault.old.value ≡ None }
    ensures cause_kept { (result ≡ OK → ⊥) → cause.new ≡ cause.old }
{
    let Some(held) = fault.take(alloc) else {
        return EMPTY;
    };
    let status = match &*held {
        Held::Refusal(refusal) => {
            *cause = cause_of(refusal);
            OK
        }
        _ => EMPTY,
    };
    fault.put(alloc, held);
    status
}

/// Writes the name of the file that is refused or absent.
#[unsafe(no_mangle)]
pub extern "C" fn dceidl_fault_file(
    alloc: Global,
    fault: &mut Handle,
    out: &mut [u8],
    len: &mut usize,
) -> u32
    ensures known { result ≤ SHORT }
    ensures not_argument { result ≡ ARGUMENT → ⊥ }
    ensures not_memory { result ≡ MEMORY → ⊥ }
    ensures same { fault.new.value ≡ fault.old.value }
    ensures written { result ≡ OK → IsSomeAnd (refusal_in fault.old.value) (λ r. take len.new out.new ≡ file_of r) }
    ensures rest { result ≡ OK → drop len.new out.new ≡ drop len.new out.old }
    ensures room { result ≡ OK → len.new ≤ length out.old }
    ensures short { result ≡ SHORT → IsSomeAnd (refusal_in fault.old.value) (λ r. (len.new ≡ length (file_of r)) × (length out.old < len.new)) }
    ensures empty { result ≡ EMPTY → refusal_in fault.old.value ≡ None }
    ensures kept { (result ≡ OK → ⊥) → out.new ≡ out.old }
    ensures len_kept { (result ≡ OK → ⊥) → (result ≡ SHORT → ⊥) → len.new ≡ len.old }
{
    let Some(held) = fault.take(alloc) else {
        return EMPTY;
    };
    let status = match &*held {
        Held::Refusal(refusal) => lay_out(file(refusal), out, len),
        _ => EMPTY,
    };
    fault.put(alloc, held);
    status
}

/// Writes the word, name or path that is refused.
#[unsafe(no_mangle)]
pub extern "C" fn dceidl_fault_name(
    alloc: Global,
    fault: &mut Handle,
    out: &mut [u8],
    len: &mut usize,
) -> u32
    ensures known { result ≤ SHORT }
    ensures not_argument { result ≡ ARGUMENT → ⊥ }
    ensures not_memory { result ≡ MEMORY → ⊥ }
    ensures same { fault.new.value ≡ fault.old.value }
    ensures written { result ≡ OK → IsSomeAnd (refusal_in fault.old.value) (λ r. take len.new out.new ≡ name_of r) }
    ensures rest { result ≡ OK → drop len.new out.new ≡ drop len.new out.old }
    ensures room { result ≡ OK → len.new ≤ length out.old }
    ensures short { result ≡ SHORT → IsSomeAnd (refusal_in fault.old.value) (λ r. (len.new ≡ length (name_of r)) × (length out.old < len.new)) }
    ensures empty { result ≡ EMPTY → refusal_in fault.old.value ≡ None }
    ensures kept { (result ≡ OK → ⊥) → out.new ≡ out.old }
    ensures len_kept { (result ≡ OK → ⊥) → (result ≡ SHORT → ⊥) → len.new ≡ len.old }
{
    let Some(held) = fault.take(alloc) else {
        return EMPTY;
    };
    let status = match &*held {
        Held::Refusal(refusal) => lay_out(name(refusal), out, len),
        _ => EMPTY,
    };
    fault.put(alloc, held);
    status
}

/// Writes the word of the reason.
#[unsafe(no_mangle)]
pub extern "C" fn dceidl_fault_reason(
    alloc: Global,
    fault: &mut Handle,
    out: &mut [u8],
    len: &mut usize,
) -> u32
    ensures known { result ≤ SHORT }
    ensures not_argument { result ≡ ARGUMENT → ⊥ }
    ensures not_memory { result ≡ MEMORY → ⊥ }
    ensures same { fault.new.value ≡ fault.old.value }
    ensures written { result ≡ OK → IsSomeAnd (refusal_in fault.old.value) (λ r. take len.new out.new ≡ word_of r) }
    ensures rest { result ≡ OK → drop len.new out.new ≡ drop len.new out.old }
    ensures room { result ≡ OK → len.new ≤ length out.old }
    ensures short { result ≡ SHORT → IsSomeAnd (refusal_in fault.old.value) (λ r. (len.new ≡ length (word_of r)) × (length out.old < len.new)) }
    ensures empty { result ≡ EMPTY → refusal_in fault.old.value ≡ None }
    ensures kept { (result ≡ OK → ⊥) → out.new ≡ out.old }
    ensures len_kept { (result ≡ OK → ⊥) → (result ≡ SHORT → ⊥) → len.new ≡ len.old }
{
    let Some(held) = fault.take(alloc) else {
        return EMPTY;
    };
    let status = match &*held {
        Held::Refusal(refusal) => lay_out(reason_word(refusal), out, len),
        _ => EMPTY,
    };
    fault.put(alloc, held);
    status
}

/// Writes the line that reports a fault.
#[unsafe(no_mangle)]
pub extern "C" fn dceidl_fault_line(
    alloc: Global,
    fault: &mut Handle,
    out: &mut [u8],
    len: &mut usize,
) -> u32
    ensures known { result ≤ SHORT }
    ensures not_argument { result ≡ ARGUMENT → ⊥ }
    ensures same { fault.new.value ≡ fault.old.value }
    ensures written { result ≡ OK → IsSomeAnd (refusal_in fault.old.value) (λ r. take len.new out.new ≡ line_of [] [] r) }
    ensures rest { result ≡ OK → drop len.new out.new ≡ drop len.new out.old }
    ensures room { result ≡ OK → len.new ≤ length out.old }
    ensures short { result ≡ SHORT → IsSomeAnd (refusal_in fault.old.value)
        (λ r. (len.new ≡ length (line_of [] [] r)) × (length out.old < len.new)) }
    ensures empty { result ≡ EMPTY → refusal_in fault.old.value ≡ None }
    ensures memory { result ≡ MEMORY → is_some (refusal_in fault.old.value) ≡ true }
    ensures kept { (result ≡ OK → ⊥) → out.new ≡ out.old }
    ensures len_kept { (result ≡ OK → ⊥) → (result ≡ SHORT → ⊥) → len.new ≡ len.old }
{
    let Some(held) = fault.take(alloc) else {
        return EMPTY;
    };
    let status = match &*held {
        Held::Refusal(refusal) => write_line(alloc, refusal, out, len),
        _ => EMPTY,
    };
    fault.put(alloc, held);
    status
}

/// Lets go of a fault.
#[unsafe(no_mangle)]
pub extern "C" fn dceidl_fault_free(alloc: Global, fault: &mut Handle)
    ensures { fault.new.value ≡ None }
{
    free(alloc, fault);
}
