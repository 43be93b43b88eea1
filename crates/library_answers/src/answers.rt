// What calls answer, and what they fill.
ghost use Rattle.std.specs.Prelude.{◌≡◌, ◌≤◌, ◌<◌, length, take, drop, Some};
ghost use Rattle.command_refusals.specs.declared.refusal.Refusal.TheVariants.{Memory};
ghost use Rattle.library_handles.specs.declared.held.Held.TheVariants as kept;

use command_refusals::Refusal;
use library_handles::{Handle, Held};
use std::alloc::Global;

/// The call did what it is for.
pub const OK: u32 = 0;

/// A handle holds nothing, or not what the call needs.
pub const EMPTY: u32 = 1;

/// A number is out of range, or a name is not UTF-8.
pub const ARGUMENT: u32 = 2;

/// Out of memory.
pub const MEMORY: u32 = 3;

/// The buffer has too little room.
pub const SHORT: u32 = 4;

/// The files, octets, text or values are refused.
pub const REFUSED: u32 = 5;

/// No operation, root or member has that name.
pub const ABSENT: u32 = 6;

/// A node of a listing is wrong.
pub const WRONG_NODE: u32 = 7;

// Fills a handle. The box of a full one is kept.
#[inline(always)]
pub(crate) fn fill(alloc: Global, handle: &mut Handle, held: Held) -> u32
    ensures known { result ≤ MEMORY }
    ensures not_empty { result ≡ EMPTY → ⊥ }
    ensures not_argument { result ≡ ARGUMENT → ⊥ }
    ensures not_short { result ≡ SHORT → ⊥ }
    ensures not_refused { result ≡ REFUSED → ⊥ }
    ensures not_absent { result ≡ ABSENT → ⊥ }
    ensures filled { result ≡ OK → handle.new.value ≡ Some held }
    ensures kept { (result ≡ OK → ⊥) → handle.new.value ≡ handle.old.value }
{
    let Some(mut full) = handle.take(alloc) else {
        return fill_empty(alloc, handle, held);
    };
    *full = held;
    handle.put(alloc, full);
    OK
}

// Fills a handle with a box of its own.
#[inline(always)]
fn fill_empty(alloc: Global, handle: &mut Handle, held: Held) -> u32
    ensures known { result ≤ MEMORY }
    ensures not_empty { result ≡ EMPTY → ⊥ }
    ensures not_argument { result ≡ ARGUMENT → ⊥ }
    ensures not_short { result ≡ SHORT → ⊥ }
    ensures not_refused { result ≡ REFUSED → ⊥ }
    ensures not_absent { result ≡ ABSENT → ⊥ }
    ensures filled { result ≡ OK → handle.new.value ≡ Some held }
    ensures kept { (result ≡ OK → ⊥) → handle.new.value ≡ handle.old.value }
{
    match Box::new(alloc, held) {
        Ok(held) => {
            handle.put(alloc, held);
            OK
        }
        Err(_) => MEMORY,
    }
}

// Fills the handle of a fault. That memory was refused is no fault.
#[inline(never)]
pub(crate) fn refuse(alloc: Global, fault: &mut Handle, refusal: Refusal) -> u32
    ensures known { result ≤ REFUSED }
    ensures not_empty { result ≡ EMPTY → ⊥ }
    ensures not_argument { result ≡ ARGUMENT → ⊥ }
    ensures not_short { result ≡ SHORT → ⊥ }
    ensures not_absent { result ≡ ABSENT → ⊥ }
    ensures not_ok { result ≡ OK → ⊥ }
    ensures reason { result ≡ REFUSED → refusal ≡ Memory → ⊥ }
    ensures refused { result ≡ REFUSED → fault.new.value ≡ Some (kept.Refusal refusal) }
    ensures kept { (result ≡ REFUSED → ⊥) → fault.new.value ≡ fault.old.value }
{
    match refusal {
        Refusal::Memory => MEMORY,
        other => match Box::new(alloc, Held::Refusal(other)) {
            Ok(held) => {
                fault.put(alloc, held);
                REFUSED
            }
            Err(_) => MEMORY,
        },
    }
}

/// Lays out octets at the front of a buffer, if it has room for them, and says how many they are. The rest stays as it was. Takes no memory.
#[tactic(auto, using(crate::proofs::Buffers::rest_kept))]
pub fn lay_out(octets: &[u8], out: &mut [u8], len: &mut usize) -> u32
    ensures known { result ≤ SHORT }
    ensures not_empty { result ≡ EMPTY → ⊥ }
    ensures not_argument { result ≡ ARGUMENT → ⊥ }
    ensures not_memory { result ≡ MEMORY → ⊥ }
    ensures not_refused { result ≡ REFUSED → ⊥ }
    ensures len { len.new ≡ length octets.now }
    ensures done { result ≡ OK → take len.new out.new ≡ octets.now }
    ensures rest { result ≡ OK → drop len.new out.new ≡ drop len.new out.old }
    ensures room { result ≡ OK → len.new ≤ length out.old }
    ensures short { result ≡ SHORT → length out.old < len.new }
    ensures len_kept { (result ≡ OK → ⊥) → (result ≡ SHORT → ⊥) → len.new ≡ len.old }
    ensures kept { (result ≡ OK → ⊥) → out.new ≡ out.old }
{
    *len = octets.len();
    if octets.len() > out.len() {
        return SHORT;
    }
    out[..octets.len()].copy_from_slice(octets);
    OK
}
