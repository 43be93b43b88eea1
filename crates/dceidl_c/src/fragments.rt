// Fragments of requests and responses, and format labels.
ghost use Rattle.std.specs.Prelude.{◌≡◌, ◌≤◌, ◌<◌, length, take, drop, None, true, false, IsSomeAnd};
ghost use Rattle.library_answers.specs.Answers.{refusal_in, side_numbered};
ghost use Rattle.library_answers.specs.Fragments.{IsJoin, HasStub, IsJoinRefusal, IsSplit, HasPieces, can_split};
ghost use Rattle.library_answers.specs.Fragments.{IsLabelOrder, IsLabelRefusal};

use library_answers::{
    ARGUMENT, Call, EMPTY, OK, REFUSED, SHORT, join_fragments, label_order, split_stub,
};
use library_handles::Handle;
use std::alloc::Global;

/// Writes the stub data of the fragments of a request or response that octets begin with.
#[unsafe(no_mangle)]
pub extern "C" fn dceidl_join(
    alloc: Global,
    side: u32,
    octets: &[u8],
    out: &mut [u8],
    len: &mut usize,
    call: &mut Call,
    fault: &mut Handle,
) -> u32
    ensures known { result ≤ REFUSED }
    ensures not_empty { result ≡ EMPTY → ⊥ }
    ensures joined { result ≡ OK → IsJoin side octets.now call.new (take len.new out.new) }
    ensures rest { result ≡ OK → drop len.new out.new ≡ drop len.new out.old }
    ensures room { result ≡ OK → len.new ≤ length out.old }
    ensures short { result ≡ SHORT → HasStub side octets.now len.new × (length out.old < len.new) }
    ensures refused { result ≡ REFUSED → IsSomeAnd (refusal_in fault.new.value) (λ e. IsJoinRefusal side octets.now e) }
    ensures argument { result ≡ ARGUMENT → side_numbered side ≡ None }
    ensures kept { (result ≡ OK → ⊥) → out.new ≡ out.old }
    ensures len_kept { (result ≡ OK → ⊥) → (result ≡ SHORT → ⊥) → len.new ≡ len.old }
    ensures call_kept { (result ≡ OK → ⊥) → call.new ≡ call.old }
    ensures fault_kept { (result ≡ REFUSED → ⊥) → fault.new.value ≡ fault.old.value }
{
    join_fragments(alloc, side, octets, out, len, call, fault)
}

/// Writes the fragments that stub data are split into.
#[unsafe(no_mangle)]
pub extern "C" fn dceidl_split(
    alloc: Global,
    side: u32,
    operation: u32,
    order: u32,
    call: u32,
    most: u32,
    stub: &[u8],
    out: &mut [u8],
    len: &mut usize,
) -> u32
    ensures known { result ≤ SHORT }
    ensures not_empty { result ≡ EMPTY → ⊥ }
    ensures not_refused { result ≡ REFUSED → ⊥ }
    ensures written { result ≡ OK → IsSplit side operation order call most stub.now (take len.new out.new) }
    ensures rest { result ≡ OK → drop len.new out.new ≡ drop len.new out.old }
    ensures room { result ≡ OK → len.new ≤ length out.old }
    ensures short { result ≡ SHORT → HasPieces side operation order call most stub.now len.new × (length out.old < len.new) }
    ensures argument { result ≡ ARGUMENT → can_split side operation order most (length stub.now) ≡ false }
    ensures range { (result ≡ ARGUMENT → ⊥) → can_split side operation order most (length stub.now) ≡ true }
    ensures kept { (result ≡ OK → ⊥) → out.new ≡ out.old }
    ensures len_kept { (result ≡ OK → ⊥) → (result ≡ SHORT → ⊥) → len.new ≡ len.old }
{
    split_stub(alloc, side, operation, order, call, most, stub, out, len)
}

/// The order of octets that the format label states which octets begin with.
#[unsafe(no_mangle)]
pub extern "C" fn dceidl_label_order(
    alloc: Global,
    octets: &[u8],
    order: &mut u32,
    fault: &mut Handle,
) -> u32
    ensures known { result ≤ REFUSED }
    ensures not_empty { result ≡ EMPTY → ⊥ }
    ensures not_argument { result ≡ ARGUMENT → ⊥ }
    ensures not_short { result ≡ SHORT → ⊥ }
    ensures stated { result ≡ OK → IsLabelOrder octets.now order.new }
    ensures refused { result ≡ REFUSED → IsSomeAnd (refusal_in fault.new.value) (λ e. IsLabelRefusal octets.now e) }
    ensures fault_kept { (result ≡ REFUSED → ⊥) → fault.new.value ≡ fault.old.value }
    ensures order_kept { (result ≡ OK → ⊥) → order.new ≡ order.old }
{
    label_order(alloc, octets, order, fault)
}
