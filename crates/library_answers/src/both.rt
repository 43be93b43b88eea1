// Values of octets, with the items of the octets.
ghost use Rattle.std.specs.Prelude.{◌≡◌, ◌≤◌, Some, true, false, is_some, IsSomeAnd};
ghost use Rattle.nd_types.specs.declared.types.Side.TheVariants.{In, Out};
ghost use Rattle.library_answers.specs.Answers.{values_in, refusal_in, order_numbered, is_stream};
ghost use Rattle.library_answers.specs.Items.{items_in, IsItems, IsResponseItems};
ghost use Rattle.library_answers.specs.Octets.{IsDecode, IsDecodeRefusal, IsResponse, IsResponseRefusal};

use crate::answers::{ARGUMENT, EMPTY, MEMORY, OK, REFUSED, SHORT, refuse};
use crate::numbers::{order_of, side_of};
use crate::reading::{fill_taken, is_request};
use library_handles::{Handle, Held};
use library_interface::Compiled;
use library_values::Values;
use nd_value::ItemLog;
use std::alloc::Global;
use std::rc::Rc;

/// Fills `values` with those of a side of an operation that octets begin with (C706, chapter 14), and `items` with their items, or the fault. Takes
/// memory for the values and the items.
#[tactic(auto, using(crate::proofs::Octets::decodes_both))]
pub fn decode_items(
    alloc: Global,
    compiled: &Rc<Compiled>,
    operation: u32,
    side: u32,
    order: u32,
    octets: &[u8],
    values: &mut Handle,
    items: &mut Handle,
    taken: &mut usize,
    fault: &mut Handle,
) -> u32
    ensures known { result ≤ REFUSED }
    ensures not_empty { result ≡ EMPTY → ⊥ }
    ensures not_short { result ≡ SHORT → ⊥ }
    ensures decoded { result ≡ OK → IsSomeAnd (values_in values.new.value)
        (λ v. IsDecode compiled.now.value operation side order octets.now taken.new v) }
    ensures logged { result ≡ OK → IsSomeAnd (items_in items.new.value) (IsItems compiled.now.value operation side order octets.now) }
    ensures refused { result ≡ REFUSED → IsSomeAnd (refusal_in fault.new.value)
        (λ e. IsDecodeRefusal compiled.now.value operation side order octets.now e) }
    ensures argument { result ≡ ARGUMENT → is_stream compiled.now.value operation side order ≡ false }
    ensures range { (result ≡ ARGUMENT → ⊥) → is_stream compiled.now.value operation side order ≡ true }
    ensures values_kept { (result ≡ OK → ⊥) → values.new.value ≡ values.old.value }
    ensures items_kept { (result ≡ OK → ⊥) → items.new.value ≡ items.old.value }
    ensures taken_kept { (result ≡ OK → ⊥) → taken.new ≡ taken.old }
    ensures fault_kept { (result ≡ REFUSED → ⊥) → fault.new.value ≡ fault.old.value }
{
    let Some(side) = side_of(side) else {
        return ARGUMENT;
    };
    let Some(order) = order_of(order) else {
        return ARGUMENT;
    };
    if operation as usize >= compiled.interface().operations.len() {
        return ARGUMENT;
    }
    match Values::decode_with_items(alloc, compiled, operation, side, order, octets) {
        Ok(both) => fill_both(alloc, both, values, items, taken),
        Err(refusal) => refuse(alloc, fault, refusal),
    }
}

/// The same with the response to a request.
#[tactic(auto, using(crate::proofs::Octets::responses_both))]
pub fn decode_response_items(
    alloc: Global,
    given: &Values,
    order: u32,
    octets: &[u8],
    values: &mut Handle,
    items: &mut Handle,
    taken: &mut usize,
    fault: &mut Handle,
) -> u32
    ensures known { result ≤ REFUSED }
    ensures not_empty { result ≡ EMPTY → ⊥ }
    ensures not_short { result ≡ SHORT → ⊥ }
    ensures decoded { result ≡ OK → IsSomeAnd (values_in values.new.value) (λ v. IsResponse given.now order octets.now taken.new v) }
    ensures logged { result ≡ OK → IsSomeAnd (items_in items.new.value) (IsResponseItems given.now order octets.now) }
    ensures refused { result ≡ REFUSED → IsSomeAnd (refusal_in fault.new.value) (λ e. IsResponseRefusal given.now order octets.now e) }
    ensures argument { result ≡ ARGUMENT → is_some (order_numbered order) ≡ true → given.now.side ≡ Out }
    ensures order { (result ≡ ARGUMENT → ⊥) → is_some (order_numbered order) ≡ true }
    ensures request { (result ≡ ARGUMENT → ⊥) → given.now.side ≡ In }
    ensures values_kept { (result ≡ OK → ⊥) → values.new.value ≡ values.old.value }
    ensures items_kept { (result ≡ OK → ⊥) → items.new.value ≡ items.old.value }
    ensures taken_kept { (result ≡ OK → ⊥) → taken.new ≡ taken.old }
    ensures fault_kept { (result ≡ REFUSED → ⊥) → fault.new.value ≡ fault.old.value }
{
    let Some(order) = order_of(order) else {
        return ARGUMENT;
    };
    if !is_request(given) {
        return ARGUMENT;
    }
    match Values::decode_response_with_items(alloc, given, order, octets) {
        Ok(both) => fill_both(alloc, both, values, items, taken),
        Err(refusal) => refuse(alloc, fault, refusal),
    }
}

// Fills one handle with values and another with items, and says how many octets they took; or changes none of these.
fn fill_both(
    alloc: Global,
    both: ((Values, u32), ItemLog),
    values: &mut Handle,
    items: &mut Handle,
    taken: &mut usize,
) -> u32
    ensures known { result ≤ MEMORY }
    ensures not_empty { result ≡ EMPTY → ⊥ }
    ensures not_argument { result ≡ ARGUMENT → ⊥ }
    ensures not_short { result ≡ SHORT → ⊥ }
    ensures not_refused { result ≡ REFUSED → ⊥ }
    ensures filled { result ≡ OK → values_in values.new.value ≡ Some both.0.0 }
    ensures taken { result ≡ OK → taken.new ≡ both.0.1 }
    ensures items { result ≡ OK → items_in items.new.value ≡ Some both.1.items }
    ensures kept { (result ≡ OK → ⊥) → values.new.value ≡ values.old.value }
    ensures items_kept { (result ≡ OK → ⊥) → items.new.value ≡ items.old.value }
    ensures taken_kept { (result ≡ OK → ⊥) → taken.new ≡ taken.old }
{
    let (made, log) = both;
    let Ok(held) = Box::new(alloc, Held::Items(log)) else {
        return MEMORY;
    };
    let status = fill_taken(alloc, made, values, taken);
    if status != OK {
        return status;
    }
    items.put(alloc, held);
    OK
}
