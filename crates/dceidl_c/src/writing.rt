// Values as a text and as octets.
ghost use Rattle.std.specs.Prelude.{◌≡◌, ◌≤◌, ◌<◌, length, take, drop, None, true, false, is_some, IsSomeAnd};
ghost use Rattle.library_answers.specs.Answers.{values_in, refusal_in, number_of_side, is_layout};
ghost use Rattle.library_answers.specs.Octets.{IsEncode, IsNoRoom, IsEncodeRefusal};
ghost use Rattle.library_answers.specs.Texts.{IsTextOf, HasTextLength};

use library_answers::{
    ARGUMENT, EMPTY, MEMORY, OK, REFUSED, SHORT, encode, free, number_of, write_text,
};
use library_handles::{Handle, Held};
use std::alloc::Global;

/// The operation and the side that values are of.
#[unsafe(no_mangle)]
pub extern "C" fn dceidl_values_of(
    alloc: Global,
    values: &mut Handle,
    operation: &mut u32,
    side: &mut u32,
) -> u32
    ensures known { result ≤ EMPTY }
    ensures same { values.new.value ≡ values.old.value }
    ensures of { result ≡ OK → IsSomeAnd (values_in values.old.value) (λ v. (operation.new ≡ v.op) × (side.new ≡ number_of_side v.side)) }
    ensures empty { result ≡ EMPTY → values_in values.old.value ≡ None }
    ensures operation_kept { (result ≡ OK → ⊥) → operation.new ≡ operation.old }
    ensures side_kept { (result ≡ OK → ⊥) → side.new ≡ side.old }
{
    let Some(held) = values.take(alloc) else {
        return EMPTY;
    };
    let status = match &*held {
        Held::Values(held_values) => {
            *operation = held_values.op();
            *side = number_of(held_values.side());
            OK
        }
        _ => EMPTY,
    };
    values.put(alloc, held);
    status
}

/// Writes the text of values.
#[unsafe(no_mangle)]
pub extern "C" fn dceidl_text(
    alloc: Global,
    values: &mut Handle,
    out: &mut [u8],
    len: &mut usize,
) -> u32
    ensures known { result ≤ SHORT }
    ensures not_argument { result ≡ ARGUMENT → ⊥ }
    ensures same { values.new.value ≡ values.old.value }
    ensures written { result ≡ OK → IsSomeAnd (values_in values.old.value) (λ v. IsTextOf v (take len.new out.new)) }
    ensures rest { result ≡ OK → drop len.new out.new ≡ drop len.new out.old }
    ensures room { result ≡ OK → len.new ≤ length out.old }
    ensures short { result ≡ SHORT → IsSomeAnd (values_in values.old.value) (λ v. HasTextLength v len.new × (length out.old < len.new)) }
    ensures empty { result ≡ EMPTY → values_in values.old.value ≡ None }
    ensures memory { result ≡ MEMORY → is_some (values_in values.old.value) ≡ true }
    ensures kept { (result ≡ OK → ⊥) → out.new ≡ out.old }
    ensures len_kept { (result ≡ OK → ⊥) → (result ≡ SHORT → ⊥) → len.new ≡ len.old }
{
    let Some(held) = values.take(alloc) else {
        return EMPTY;
    };
    let status = match &*held {
        Held::Values(held_values) => write_text(alloc, held_values, out, len),
        _ => EMPTY,
    };
    values.put(alloc, held);
    status
}

/// Writes the octets of values.
#[unsafe(no_mangle)]
pub extern "C" fn dceidl_encode(
    alloc: Global,
    values: &mut Handle,
    order: u32,
    chunk: u32,
    out: &mut [u8],
    len: &mut usize,
    fault: &mut Handle,
) -> u32
    ensures known { result ≤ REFUSED }
    ensures same { values.new.value ≡ values.old.value }
    ensures encoded { result ≡ OK → IsSomeAnd (values_in values.old.value) (λ v. IsEncode v order chunk out.old out.new len.new) }
    ensures short { result ≡ SHORT → IsSomeAnd (values_in values.old.value) (λ v. IsNoRoom v chunk out.old out.new len.new) }
    ensures refused { result ≡ REFUSED → IsSomeAnd (values_in values.old.value)
        (λ v. IsSomeAnd (refusal_in fault.new.value) (λ e. IsEncodeRefusal v chunk e)) }
    ensures argument { result ≡ ARGUMENT → IsSomeAnd (values_in values.old.value) (λ _. is_layout order chunk ≡ false) }
    ensures range { (result ≡ EMPTY → ⊥) → (result ≡ ARGUMENT → ⊥) → is_layout order chunk ≡ true }
    ensures kept { (result ≡ OK → ⊥) → out.new ≡ out.old }
    ensures len_kept { (result ≡ OK → ⊥) → (result ≡ SHORT → ⊥) → len.new ≡ len.old }
    ensures empty { result ≡ EMPTY → values_in values.old.value ≡ None }
    ensures memory { result ≡ MEMORY → is_some (values_in values.old.value) ≡ true }
    ensures fault_kept { (result ≡ REFUSED → ⊥) → fault.new.value ≡ fault.old.value }
{
    let Some(held) = values.take(alloc) else {
        return EMPTY;
    };
    let status = match &*held {
        Held::Values(held_values) => { encode(alloc, held_values, order, chunk, out, len, fault) }
        _ => EMPTY,
    };
    values.put(alloc, held);
    status
}

/// Lets go of values.
#[unsafe(no_mangle)]
pub extern "C" fn dceidl_values_free(alloc: Global, values: &mut Handle)
    ensures { values.new.value ≡ None }
{
    free(alloc, values);
}
