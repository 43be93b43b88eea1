// Values as a text and as octets.
ghost use Rattle.std.specs.Prelude.{◌≡◌, ◌≤◌, ◌<◌, length, take, drop, true, false, IsSomeAnd};
ghost use Rattle.library_answers.specs.Answers.{refusal_in, is_layout};
ghost use Rattle.library_answers.specs.Octets.{IsEncode, IsNoRoom, IsEncodeRefusal};
ghost use Rattle.library_answers.specs.Texts.{IsTextOf, HasTextLength};

use crate::answers::{ARGUMENT, EMPTY, MEMORY, OK, REFUSED, SHORT, lay_out, refuse};
use crate::numbers::order_of;
use library_handles::Handle;
use library_values::{Encoded, Values};
use std::alloc::Global;

/// Writes the text of values. Takes memory for the text.
#[tactic(auto, using(crate::proofs::Texts::text_is, crate::proofs::Texts::text_length))]
pub fn write_text(alloc: Global, values: &Values, out: &mut [u8], len: &mut usize) -> u32
    ensures known { result ≤ SHORT }
    ensures not_empty { result ≡ EMPTY → ⊥ }
    ensures not_argument { result ≡ ARGUMENT → ⊥ }
    ensures written { result ≡ OK → IsTextOf values.now (take len.new out.new) }
    ensures rest { result ≡ OK → drop len.new out.new ≡ drop len.new out.old }
    ensures room { result ≡ OK → len.new ≤ length out.old }
    ensures short { result ≡ SHORT → HasTextLength values.now len.new × (length out.old < len.new) }
    ensures kept { (result ≡ OK → ⊥) → out.new ≡ out.old }
    ensures len_kept { (result ≡ OK → ⊥) → (result ≡ SHORT → ⊥) → len.new ≡ len.old }
{
    match values.text(alloc) {
        Ok(text) => lay_out(text.as_slice(), out, len),
        Err(_) => MEMORY,
    }
}

/// Writes the octets of values (C706, chapter 14), where there is room for them, or fills the fault. Takes memory for 12 octets for each root and
/// cell and 4 for each cell, and gives it back.
#[tactic(auto, using(crate::proofs::Numbered::layouts, crate::proofs::Octets::encode_is, crate::proofs::Octets::encode_refused))]
pub fn encode(
    alloc: Global,
    values: &Values,
    order: u32,
    chunk: u32,
    out: &mut [u8],
    len: &mut usize,
    fault: &mut Handle,
) -> u32
    ensures known { result ≤ REFUSED }
    ensures not_empty { result ≡ EMPTY → ⊥ }
    ensures encoded { result ≡ OK → IsEncode values.now order chunk out.old out.new len.new }
    ensures short { result ≡ SHORT → IsNoRoom values.now chunk out.old out.new len.new }
    ensures refused { result ≡ REFUSED → IsSomeAnd (refusal_in fault.new.value) (λ e. IsEncodeRefusal values.now chunk e) }
    ensures argument { result ≡ ARGUMENT → is_layout order chunk ≡ false }
    ensures range { (result ≡ ARGUMENT → ⊥) → is_layout order chunk ≡ true }
    ensures kept { (result ≡ OK → ⊥) → out.new ≡ out.old }
    ensures len_kept { (result ≡ OK → ⊥) → (result ≡ SHORT → ⊥) → len.new ≡ len.old }
    ensures fault_kept { (result ≡ REFUSED → ⊥) → fault.new.value ≡ fault.old.value }
{
    let Some(order) = order_of(order) else {
        return ARGUMENT;
    };
    if chunk == 0 {
        return ARGUMENT;
    }
    match values.encode(alloc, order, chunk, out) {
        Ok(Encoded::Written { length }) => {
            *len = length as usize;
            OK
        }
        Ok(Encoded::Short { length }) => {
            *len = length as usize;
            SHORT
        }
        Err(refusal) => refuse(alloc, fault, refusal),
    }
}
