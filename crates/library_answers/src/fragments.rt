// Fragments of requests and responses, and format labels.
ghost use Rattle.std.specs.Prelude.{◌≡◌, ◌≤◌, ◌<◌, ℕ, List, length, take, drop, None, true, false, IsSomeAnd};
ghost use Rattle.nd_base.specs.declared.TheConstants.{STREAM_LIMIT};
ghost use Rattle.library_answers.specs.Answers.{refusal_in, side_numbered};
ghost use Rattle.library_answers.specs.Fragments.{IsJoin, HasStub, IsJoinRefusal, AreStated, IsSplit, IsSplitOf, HasPieces, can_split};
ghost use Rattle.library_answers.specs.Fragments.{head_numbered, operation_number, wanted_of, IsLabelOrder, IsLabelRefusal};

use crate::answers::{ARGUMENT, EMPTY, MEMORY, OK, REFUSED, SHORT, lay_out, refuse};
use crate::numbers::{number_of_order, order_of, side_of};
use library_calls::{join_lent, order_stated};
use library_handles::Handle;
use nd_base::{Order, STREAM_LIMIT as MOST_OCTETS};
use nd_types::Side;
use rpc_pdu::{Head, Joined, Wanted, split};
use std::alloc::Global;

/// What the fragments of a call state for all of it.
#[repr(C)]
#[derive(Clone, Copy, Debug, PartialEq, Eq)]
pub struct Call {
    /// The number of the order of octets.
    pub order: u32,
    /// The call id.
    pub call: u32,
    /// The number of the operation of a request; 0 for a response.
    pub operation: u32,
    /// How many octets the fragments have.
    pub taken: u32,
}

/// Writes the stub data of the fragments of a request or response that octets begin with (C706, chapter 12), where there is room for them, and what
/// these state, or fills the fault. Takes memory for the stub data.
#[tactic(auto, using(crate::proofs::Calls::join_is, crate::proofs::Calls::stub_is, crate::proofs::Calls::join_refused))]
pub fn join_fragments(
    alloc: Global,
    side: u32,
    octets: &[u8],
    out: &mut [u8],
    len: &mut usize,
    call: &mut Call,
    fault: &mut Handle,
) -> u32
    ensures known { result ≤ REFUSED }
    ensures not_empty { result ≡ EMPTY → ⊥ }
    ensures joined { result ≡ OK → IsJoin side octets.now call.new (take len.new out.new) }
    ensures rest { result ≡ OK → drop len.new out.new ≡ drop len.new out.old }
    ensures room { result ≡ OK → len.new ≤ length out.old }
    ensures short { result ≡ SHORT → HasStub side octets.now len.new × (length out.old < len.new) }
    ensures refused { result ≡ REFUSED → IsSomeAnd (refusal_in fault.new.value) (λ e. IsJoinRefusal side octets.now e) }
    ensures argument { result ≡ ARGUMENT → side_numbered side ≡ None }
    ensures kept { (result ≡ OK → ⊥) → out.new ≡ out.old }
    ensures len_kept { (result ≡ OK → ⊥) → (result ≡ SHORT → ⊥) → len.new ≡ len.old }
    ensures call_kept { (result ≡ OK → ⊥) → call.new ≡ call.old }
    ensures fault_kept { (result ≡ REFUSED → ⊥) → fault.new.value ≡ fault.old.value }
{
    let Some(side) = side_of(side) else {
        return ARGUMENT;
    };
    match join_lent(alloc, wanted(side), octets) {
        Ok(joined) => write_joined(joined, out, len, call),
        Err(refusal) => refuse(alloc, fault, refusal),
    }
}

// Which fragments have the values of a side.
fn wanted(side: Side) -> Wanted
    ensures { result ≡ wanted_of side }
{
    match side {
        Side::In => Wanted::Request,
        Side::Out => Wanted::Response,
    }
}

// Writes what was joined.
fn write_joined(joined: Joined, out: &mut [u8], len: &mut usize, call: &mut Call) -> u32
    ensures known { result ≤ SHORT }
    ensures not_empty { result ≡ EMPTY → ⊥ }
    ensures not_argument { result ≡ ARGUMENT → ⊥ }
    ensures not_refused { result ≡ REFUSED → ⊥ }
    ensures stated { result ≡ OK → AreStated joined call.new }
    ensures len { len.new ≡ length joined.stub }
    ensures written { result ≡ OK → take len.new out.new ≡ joined.stub }
    ensures rest { result ≡ OK → drop len.new out.new ≡ drop len.new out.old }
    ensures room { result ≡ OK → len.new ≤ length out.old }
    ensures short { result ≡ SHORT → length out.old < len.new }
    ensures kept { (result ≡ OK → ⊥) → out.new ≡ out.old }
    ensures len_kept { (result ≡ OK → ⊥) → (result ≡ SHORT → ⊥) → len.new ≡ len.old }
    ensures call_kept { (result ≡ OK → ⊥) → call.new ≡ call.old }
{
    let status = lay_out(joined.stub.as_slice(), out, len);
    if status != OK {
        return status;
    }
    *call = Call {
        order: number_of_order(joined.order),
        call: joined.call,
        operation: number_or_zero(joined.opnum),
        taken: joined.taken,
    };
    OK
}

// The number of an operation, or 0 for none.
fn number_or_zero(opnum: Option<u16>) -> u32
    ensures { result ≡ operation_number opnum }
{
    match opnum {
        Some(number) => u32::from(number),
        None => 0,
    }
}

/// Writes the fragments that stub data are split into (C706, chapter 12), each of at most `most` octets, where there is room for them. Takes memory
/// for the fragments.
#[tactic(auto, using(crate::proofs::Calls::splitting))]
pub fn split_stub(
    alloc: Global,
    side: u32,
    operation: u32,
    order: u32,
    call: u32,
    most: u32,
    stub: &[u8],
    out: &mut [u8],
    len: &mut usize,
) -> u32
    ensures known { result ≤ SHORT }
    ensures not_empty { result ≡ EMPTY → ⊥ }
    ensures not_refused { result ≡ REFUSED → ⊥ }
    ensures written { result ≡ OK → IsSplit side operation order call most stub.now (take len.new out.new) }
    ensures rest { result ≡ OK → drop len.new out.new ≡ drop len.new out.old }
    ensures room { result ≡ OK → len.new ≤ length out.old }
    ensures short { result ≡ SHORT → HasPieces side operation order call most stub.now len.new × (length out.old < len.new) }
    ensures argument { result ≡ ARGUMENT → can_split side operation order most (length stub.now) ≡ false }
    ensures range { (result ≡ ARGUMENT → ⊥) → can_split side operation order most (length stub.now) ≡ true }
    ensures kept { (result ≡ OK → ⊥) → out.new ≡ out.old }
    ensures len_kept { (result ≡ OK → ⊥) → (result ≡ SHORT → ⊥) → len.new ≡ len.old }
{
    let Some(head) = head_of(side, operation) else {
        return ARGUMENT;
    };
    let Some(octet_order) = order_of(order) else {
        return ARGUMENT;
    };
    if most < 1024 {
        return ARGUMENT;
    }
    if most > 65_535 {
        return ARGUMENT;
    }
    if stub.len() > MOST_OCTETS as usize {
        return ARGUMENT;
    }
    write_fragments(alloc, octet_order, head, call, most as u16, stub, out, len)
}

// What the fragments of an operation begin with, if these are the numbers of a side and of an operation that a fragment can state.
fn head_of(side: u32, operation: u32) -> Option<Head>
    ensures { result ≡ head_numbered side operation }
{
    if side == 0 {
        if operation > 65_535 {
            None
        } else {
            Some(Head::Request {
                opnum: operation as u16,
            })
        }
    } else if side == 1 {
        Some(Head::Response)
    } else {
        None
    }
}

// Writes the fragments of stub data.
#[tactic(auto, using(crate::proofs::Calls::split_of))]
fn write_fragments(
    alloc: Global,
    order: Order,
    head: Head,
    call: u32,
    most: u16,
    stub: &[u8],
    out: &mut [u8],
    len: &mut usize,
) -> u32
    requires wide { 1024 ≤ most }
    requires room { length stub.now ≤ STREAM_LIMIT }
    ensures known { result ≤ SHORT }
    ensures not_empty { result ≡ EMPTY → ⊥ }
    ensures not_argument { result ≡ ARGUMENT → ⊥ }
    ensures not_refused { result ≡ REFUSED → ⊥ }
    ensures written { result ≡ OK → IsSplitOf order head call most stub.now (take len.new out.new) }
    ensures rest { result ≡ OK → drop len.new out.new ≡ drop len.new out.old }
    ensures room { result ≡ OK → len.new ≤ length out.old }
    ensures short { result ≡ SHORT → (octets : List ℕ) × IsSplitOf order head call most stub.now octets × (len.new ≡ length octets) }
    ensures narrow { result ≡ SHORT → length out.old < len.new }
    ensures kept { (result ≡ OK → ⊥) → out.new ≡ out.old }
    ensures len_kept { (result ≡ OK → ⊥) → (result ≡ SHORT → ⊥) → len.new ≡ len.old }
{
    match split(alloc, order, head, call, most, stub) {
        Ok(octets) => lay_out(octets.as_slice(), out, len),
        Err(_) => MEMORY,
    }
}

/// The order of octets that the format label states which octets begin with, or the fault. Takes memory for a fault alone.
#[tactic(auto, using(crate::proofs::Calls::label_is, crate::proofs::Calls::label_refused))]
pub fn label_order(alloc: Global, octets: &[u8], order: &mut u32, fault: &mut Handle) -> u32
    ensures known { result ≤ REFUSED }
    ensures not_empty { result ≡ EMPTY → ⊥ }
    ensures not_argument { result ≡ ARGUMENT → ⊥ }
    ensures not_short { result ≡ SHORT → ⊥ }
    ensures stated { result ≡ OK → IsLabelOrder octets.now order.new }
    ensures refused { result ≡ REFUSED → IsSomeAnd (refusal_in fault.new.value) (λ e. IsLabelRefusal octets.now e) }
    ensures fault_kept { (result ≡ REFUSED → ⊥) → fault.new.value ≡ fault.old.value }
    ensures order_kept { (result ≡ OK → ⊥) → order.new ≡ order.old }
{
    match order_stated(octets) {
        Ok(stated) => {
            *order = number_of_order(stated);
            OK
        }
        Err(refusal) => refuse(alloc, fault, refusal),
    }
}
