// Who an interface is.
ghost use Rattle.std.specs.Prelude.{◌≡◌, ◌≤◌, ◌<◌, length, take, drop, None, true, is_some, IsSomeAnd};
ghost use Rattle.nd_types.specs.Meant.{meant_by};
ghost use Rattle.idl_listing.specs.Listing.{listing};
ghost use Rattle.library_answers.specs.Answers.{interface_in};
ghost use Rattle.library_answers.specs.Identity.{IsIdentity};

use library_answers::{
    ARGUMENT, EMPTY, Identity, MEMORY, OK, SHORT, identity_of, write_interface_name, write_listing,
};
use library_handles::{Handle, Held};
use std::alloc::Global;

/// Who an interface is.
#[unsafe(no_mangle)]
pub extern "C" fn dceidl_interface_identity(
    alloc: Global,
    interface: &mut Handle,
    identity: &mut Identity,
) -> u32
    ensures known { result ≤ EMPTY }
    ensures same { interface.new.value ≡ interface.old.value }
    ensures identity { result ≡ OK → IsSomeAnd (interface_in interface.old.value) (λ i. IsIdentity i identity.new) }
    ensures empty { result ≡ EMPTY → interface_in interface.old.value ≡ None }
    ensures identity_kept { (result ≡ OK → ⊥) → identity.new ≡ identity.old }
{
    let Some(held) = interface.take(alloc) else {
        return EMPTY;
    };
    let status = match &*held {
        Held::Interface(compiled) => {
            *identity = identity_of(compiled);
            OK
        },
        _ => EMPTY,
    };
    interface.put(alloc, held);
    status
}

/// Writes the name of an interface.
#[unsafe(no_mangle)]
pub extern "C" fn dceidl_interface_name(
    alloc: Global,
    interface: &mut Handle,
    out: &mut [u8],
    len: &mut usize,
) -> u32
    ensures known { result ≤ SHORT }
    ensures not_argument { result ≡ ARGUMENT → ⊥ }
    ensures not_memory { result ≡ MEMORY → ⊥ }
    ensures same { interface.new.value ≡ interface.old.value }
    ensures written { result ≡ OK → IsSomeAnd (interface_in interface.old.value) (λ i. take len.new out.new ≡ i.name) }
    ensures rest { result ≡ OK → drop len.new out.new ≡ drop len.new out.old }
    ensures room { result ≡ OK → len.new ≤ length out.old }
    ensures short { result ≡ SHORT → IsSomeAnd (interface_in interface.old.value)
        (λ i. (len.new ≡ length i.name) × (length out.old < len.new)) }
    ensures empty { result ≡ EMPTY → interface_in interface.old.value ≡ None }
    ensures kept { (result ≡ OK → ⊥) → out.new ≡ out.old }
    ensures len_kept { (result ≡ OK → ⊥) → (result ≡ SHORT → ⊥) → len.new ≡ len.old }
{
    let Some(held) = interface.take(alloc) else {
        return EMPTY;
    };
    let status = match &*held {
        Held::Interface(compiled) => write_interface_name(compiled, out, len),
        _ => EMPTY,
    };
    interface.put(alloc, held);
    status
}

/// Writes the listing of an interface.
#[unsafe(no_mangle)]
pub extern "C" fn dceidl_interface_listing(
    alloc: Global,
    interface: &mut Handle,
    out: &mut [u8],
    len: &mut usize,
) -> u32
    ensures known { result ≤ SHORT }
    ensures not_argument { result ≡ ARGUMENT → ⊥ }
    ensures same { interface.new.value ≡ interface.old.value }
    ensures written { result ≡ OK → IsSomeAnd (interface_in interface.old.value) (λ i. take len.new out.new ≡ listing (meant_by i)) }
    ensures rest { result ≡ OK → drop len.new out.new ≡ drop len.new out.old }
    ensures room { result ≡ OK → len.new ≤ length out.old }
    ensures short { result ≡ SHORT → IsSomeAnd (interface_in interface.old.value)
        (λ i. (len.new ≡ length (listing (meant_by i))) × (length out.old < len.new)) }
    ensures empty { result ≡ EMPTY → interface_in interface.old.value ≡ None }
    ensures memory { result ≡ MEMORY → is_some (interface_in interface.old.value) ≡ true }
    ensures kept { (result ≡ OK → ⊥) → out.new ≡ out.old }
    ensures len_kept { (result ≡ OK → ⊥) → (result ≡ SHORT → ⊥) → len.new ≡ len.old }
{
    let Some(held) = interface.take(alloc) else {
        return EMPTY;
    };
    let status = match &*held {
        Held::Interface(compiled) => write_listing(alloc, compiled, out, len),
        _ => EMPTY,
    };
    interface.put(alloc, held);
    status
}
