// Values of octets and of texts.
ghost use Rattle.std.specs.Prelude.{◌≡◌, ◌≤◌, Some, true, false, is_some, IsSomeAnd};
ghost use Rattle.nd_types.specs.declared.types.Side.TheVariants.{In, Out};
ghost use Rattle.library_answers.specs.Answers.{values_in, refusal_in, order_numbered, is_side, is_stream};
ghost use Rattle.library_answers.specs.Octets.{IsDecode, IsDecodeRefusal, IsResponse, IsResponseRefusal};
ghost use Rattle.library_answers.specs.Texts.{IsRead, IsReadRefusal, IsReply, IsReplyRefusal};

use crate::answers::{ABSENT, ARGUMENT, EMPTY, MEMORY, OK, REFUSED, SHORT, fill, refuse};
use crate::numbers::{order_of, side_of};
use library_handles::{Handle, Held};
use library_interface::Compiled;
use library_values::Values;
use nd_types::Side;
use std::alloc::Global;
use std::rc::Rc;

/// Fills `values` with those of a side of an operation that octets begin with (C706, chapter 14), or the fault. Takes memory for the values.
#[tactic(auto, using(crate::proofs::Numbered::no_stream, crate::proofs::Octets::decode_is, crate::proofs::Octets::decode_refused))]
pub fn decode(
    alloc: Global,
    compiled: &Rc<Compiled>,
    operation: u32,
    side: u32,
    order: u32,
    octets: &[u8],
    values: &mut Handle,
    taken: &mut usize,
    fault: &mut Handle,
) -> u32
    ensures known { result ≤ REFUSED }
    ensures not_empty { result ≡ EMPTY → ⊥ }
    ensures not_short { result ≡ SHORT → ⊥ }
    ensures decoded { result ≡ OK → IsSomeAnd (values_in values.new.value)
        (λ v. IsDecode compiled.now.value operation side order octets.now taken.new v) }
    ensures refused { result ≡ REFUSED → IsSomeAnd (refusal_in fault.new.value)
        (λ e. IsDecodeRefusal compiled.now.value operation side order octets.now e) }
    ensures argument { result ≡ ARGUMENT → is_stream compiled.now.value operation side order ≡ false }
    ensures range { (result ≡ ARGUMENT → ⊥) → is_stream compiled.now.value operation side order ≡ true }
    ensures values_kept { (result ≡ OK → ⊥) → values.new.value ≡ values.old.value }
    ensures taken_kept { (result ≡ OK → ⊥) → taken.new ≡ taken.old }
    ensures fault_kept { (result ≡ REFUSED → ⊥) → fault.new.value ≡ fault.old.value }
{
    let Some(side) = side_of(side) else {
        return ARGUMENT;
    };
    let Some(order) = order_of(order) else {
        return ARGUMENT;
    };
    if operation as usize >= compiled.interface().operations.len() {
        return ARGUMENT;
    }
    match Values::decode(alloc, compiled, operation, side, order, octets) {
        Ok(made) => fill_taken(alloc, made, values, taken),
        Err(refusal) => refuse(alloc, fault, refusal),
    }
}

// Fills a handle with values, and says how many octets they took.
#[inline(always)]
pub(crate) fn fill_taken(
    alloc: Global,
    made: (Values, u32),
    values: &mut Handle,
    taken: &mut usize,
) -> u32
    ensures known { result ≤ MEMORY }
    ensures not_empty { result ≡ EMPTY → ⊥ }
    ensures not_argument { result ≡ ARGUMENT → ⊥ }
    ensures not_short { result ≡ SHORT → ⊥ }
    ensures not_refused { result ≡ REFUSED → ⊥ }
    ensures filled { result ≡ OK → values_in values.new.value ≡ Some made.0 }
    ensures taken { result ≡ OK → taken.new ≡ made.1 }
    ensures kept { (result ≡ OK → ⊥) → values.new.value ≡ values.old.value }
    ensures taken_kept { (result ≡ OK → ⊥) → taken.new ≡ taken.old }
{
    let (held, count) = made;
    let status = fill(alloc, values, Held::Values(held));
    if status != OK {
        return status;
    }
    *taken = count as usize;
    OK
}

/// The same with the response to a request.
#[tactic(auto, using(crate::proofs::Numbered::order_is, crate::proofs::Octets::response_is, crate::proofs::Octets::response_refused))]
pub fn decode_response(
    alloc: Global,
    given: &Values,
    order: u32,
    octets: &[u8],
    values: &mut Handle,
    taken: &mut usize,
    fault: &mut Handle,
) -> u32
    ensures known { result ≤ REFUSED }
    ensures not_empty { result ≡ EMPTY → ⊥ }
    ensures not_short { result ≡ SHORT → ⊥ }
    ensures decoded { result ≡ OK → IsSomeAnd (values_in values.new.value) (λ v. IsResponse given.now order octets.now taken.new v) }
    ensures refused { result ≡ REFUSED → IsSomeAnd (refusal_in fault.new.value) (λ e. IsResponseRefusal given.now order octets.now e) }
    ensures argument { result ≡ ARGUMENT → is_some (order_numbered order) ≡ true → given.now.side ≡ Out }
    ensures order { (result ≡ ARGUMENT → ⊥) → is_some (order_numbered order) ≡ true }
    ensures request { (result ≡ ARGUMENT → ⊥) → given.now.side ≡ In }
    ensures values_kept { (result ≡ OK → ⊥) → values.new.value ≡ values.old.value }
    ensures taken_kept { (result ≡ OK → ⊥) → taken.new ≡ taken.old }
    ensures fault_kept { (result ≡ REFUSED → ⊥) → fault.new.value ≡ fault.old.value }
{
    let Some(order) = order_of(order) else {
        return ARGUMENT;
    };
    if !is_request(given) {
        return ARGUMENT;
    }
    match Values::decode_response(alloc, given, order, octets) {
        Ok(made) => fill_taken(alloc, made, values, taken),
        Err(refusal) => refuse(alloc, fault, refusal),
    }
}

// Whether values are of a request.
pub(crate) fn is_request(values: &Values) -> bool
    ensures yes { result ≡ true → values.now.side ≡ In }
    ensures no { result ≡ false → values.now.side ≡ Out }
{
    match values.side() {
        Side::In => true,
        Side::Out => false,
    }
}

/// Fills `values` with those of a side of an operation that a text is read as, or the fault. Takes memory for the values.
#[tactic(auto, using(crate::proofs::Numbered::no_values, crate::proofs::Texts::read_is, crate::proofs::Texts::read_refused))]
pub fn read(
    alloc: Global,
    compiled: &Rc<Compiled>,
    operation: u32,
    side: u32,
    text: &[u8],
    values: &mut Handle,
    fault: &mut Handle,
) -> u32
    ensures known { result ≤ REFUSED }
    ensures not_empty { result ≡ EMPTY → ⊥ }
    ensures not_short { result ≡ SHORT → ⊥ }
    ensures read { result ≡ OK → IsSomeAnd (values_in values.new.value) (λ v. IsRead compiled.now.value operation side text.now v) }
    ensures refused { result ≡ REFUSED → IsSomeAnd (refusal_in fault.new.value)
        (λ e. IsReadRefusal compiled.now.value operation side text.now e) }
    ensures argument { result ≡ ARGUMENT → is_side compiled.now.value operation side ≡ false }
    ensures range { (result ≡ ARGUMENT → ⊥) → is_side compiled.now.value operation side ≡ true }
    ensures values_kept { (result ≡ OK → ⊥) → values.new.value ≡ values.old.value }
    ensures fault_kept { (result ≡ REFUSED → ⊥) → fault.new.value ≡ fault.old.value }
{
    let Some(side) = side_of(side) else {
        return ARGUMENT;
    };
    if operation as usize >= compiled.interface().operations.len() {
        return ARGUMENT;
    }
    match Values::read(alloc, compiled, operation, side, text) {
        Ok(made) => fill_values(alloc, made, values),
        Err(refusal) => refuse(alloc, fault, refusal),
    }
}

// Fills a handle with values.
pub(crate) fn fill_values(alloc: Global, made: Values, values: &mut Handle) -> u32
    ensures known { result ≤ MEMORY }
    ensures not_empty { result ≡ EMPTY → ⊥ }
    ensures not_argument { result ≡ ARGUMENT → ⊥ }
    ensures not_short { result ≡ SHORT → ⊥ }
    ensures not_refused { result ≡ REFUSED → ⊥ }
    ensures not_absent { result ≡ ABSENT → ⊥ }
    ensures filled { result ≡ OK → values_in values.new.value ≡ Some made }
    ensures kept { (result ≡ OK → ⊥) → values.new.value ≡ values.old.value }
{
    fill(alloc, values, Held::Values(made))
}

/// The same with the response to a request.
#[tactic(auto, using(crate::proofs::Texts::reply_is, crate::proofs::Texts::reply_refused))]
pub fn read_response(
    alloc: Global,
    given: &Values,
    text: &[u8],
    values: &mut Handle,
    fault: &mut Handle,
) -> u32
    ensures known { result ≤ REFUSED }
    ensures not_empty { result ≡ EMPTY → ⊥ }
    ensures not_short { result ≡ SHORT → ⊥ }
    ensures read { result ≡ OK → IsSomeAnd (values_in values.new.value) (λ v. IsReply given.now text.now v) }
    ensures refused { result ≡ REFUSED → IsSomeAnd (refusal_in fault.new.value) (λ e. IsReplyRefusal given.now text.now e) }
    ensures argument { result ≡ ARGUMENT → given.now.side ≡ Out }
    ensures request { (result ≡ ARGUMENT → ⊥) → given.now.side ≡ In }
    ensures values_kept { (result ≡ OK → ⊥) → values.new.value ≡ values.old.value }
    ensures fault_kept { (result ≡ REFUSED → ⊥) → fault.new.value ≡ fault.old.value }
{
    if !is_request(given) {
        return ARGUMENT;
    }
    match Values::read_response(alloc, given, text) {
        Ok(made) => fill_values(alloc, made, values),
        Err(refusal) => refuse(alloc, fault, refusal),
    }
}
