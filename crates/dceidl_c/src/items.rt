// Items of octets.
ghost use Rattle.std.specs.Prelude.{◌≡◌, ◌≤◌, length, None, true, false, is_some, IsSomeAnd};
ghost use Rattle.std.specs.List.{slice_get};
ghost use Rattle.nd_types.specs.declared.types.Side.TheVariants.{In, Out};
ghost use Rattle.library_answers.specs.Answers.{interface_in, values_in, refusal_in, order_numbered, is_stream};
ghost use Rattle.library_answers.specs.Octets.{IsDecode, IsDecodeRefusal, IsResponse, IsResponseRefusal};
ghost use Rattle.library_answers.specs.Items.{items_in, IsItems, IsResponseItems, item_described};

use library_answers::{
    ARGUMENT, EMPTY, ItemDescription, MEMORY, OK, REFUSED, SHORT, decode_items,
    decode_response_items, describe_item, free, log_items, log_response,
};
use library_handles::{Handle, Held};
use std::alloc::Global;

/// Fills `items` with those of the values of a side of an operation that octets begin with.
#[unsafe(no_mangle)]
pub extern "C" fn dceidl_items_of(
    alloc: Global,
    interface: &mut Handle,
    operation: u32,
    side: u32,
    order: u32,
    octets: &[u8],
    items: &mut Handle,
    fault: &mut Handle,
) -> u32
    ensures known { result ≤ REFUSED }
    ensures not_short { result ≡ SHORT → ⊥ }
    ensures same { interface.new.value ≡ interface.old.value }
    ensures logged { result ≡ OK → IsSomeAnd (interface_in interface.old.value)
        (λ i. IsSomeAnd (items_in items.new.value) (IsItems i operation side order octets.now)) }
    ensures refused { result ≡ REFUSED → IsSomeAnd (interface_in interface.old.value)
        (λ i. IsSomeAnd (refusal_in fault.new.value) (λ e. IsDecodeRefusal i operation side order octets.now e)) }
    ensures argument { result ≡ ARGUMENT → IsSomeAnd (interface_in interface.old.value) (λ i. is_stream i operation side order ≡ false) }
    ensures range { (result ≡ EMPTY → ⊥) → (result ≡ ARGUMENT → ⊥) → IsSomeAnd (interface_in interface.old.value)
        (λ i. is_stream i operation side order ≡ true) }
    ensures empty { result ≡ EMPTY → interface_in interface.old.value ≡ None }
    ensures memory { result ≡ MEMORY → is_some (interface_in interface.old.value) ≡ true }
    ensures items_kept { (result ≡ OK → ⊥) → items.new.value ≡ items.old.value }
    ensures fault_kept { (result ≡ REFUSED → ⊥) → fault.new.value ≡ fault.old.value }
{
    let Some(held) = interface.take(alloc) else {
        return EMPTY;
    };
    let status = match &*held {
        Held::Interface(compiled) => log_items(
            alloc, compiled, operation, side, order, octets, items, fault,
        ),
        _ => EMPTY,
    };
    interface.put(alloc, held);
    status
}

/// Fills `items` with those of the response to a request that octets begin with.
#[unsafe(no_mangle)]
pub extern "C" fn dceidl_items_of_response(
    alloc: Global,
    request: &mut Handle,
    order: u32,
    octets: &[u8],
    items: &mut Handle,
    fault: &mut Handle,
) -> u32
    ensures known { result ≤ REFUSED }
    ensures not_short { result ≡ SHORT → ⊥ }
    ensures same { request.new.value ≡ request.old.value }
    ensures logged { result ≡ OK → IsSomeAnd (values_in request.old.value)
        (λ q. IsSomeAnd (items_in items.new.value) (IsResponseItems q order octets.now)) }
    ensures refused { result ≡ REFUSED → IsSomeAnd (values_in request.old.value)
        (λ q. IsSomeAnd (refusal_in fault.new.value) (λ e. IsResponseRefusal q order octets.now e)) }
    ensures argument { result ≡ ARGUMENT → IsSomeAnd (values_in request.old.value) (λ q. is_some (order_numbered order) ≡ true → q.side ≡ Out) }
    ensures order { (result ≡ EMPTY → ⊥) → (result ≡ ARGUMENT → ⊥) → is_some (order_numbered order) ≡ true }
    ensures request { (result ≡ EMPTY → ⊥) → (result ≡ ARGUMENT → ⊥) → IsSomeAnd (values_in request.old.value) (λ q. q.side ≡ In) }
    ensures empty { result ≡ EMPTY → values_in request.old.value ≡ None }
    ensures items_kept { (result ≡ OK → ⊥) → items.new.value ≡ items.old.value }
    ensures fault_kept { (result ≡ REFUSED → ⊥) → fault.new.value ≡ fault.old.value }
{
    let Some(held) = request.take(alloc) else {
        return EMPTY;
    };
    let status = match &*held {
        Held::Values(given) => log_response(alloc, given, order, octets, items, fault),
        _ => EMPTY,
    };
    request.put(alloc, held);
    status
}

/// Fills `values` with those of a side of an operation that octets begin with, and `items` with their items.
#[unsafe(no_mangle)]
pub extern "C" fn dceidl_decode_items(
    alloc: Global,
    interface: &mut Handle,
    operation: u32,
    side: u32,
    order: u32,
    octets: &[u8],
    values: &mut Handle,
    items: &mut Handle,
    taken: &mut usize,
    fault: &mut Handle,
) -> u32
    ensures known { result ≤ REFUSED }
    ensures not_short { result ≡ SHORT → ⊥ }
    ensures same { interface.new.value ≡ interface.old.value }
    ensures decoded { result ≡ OK → IsSomeAnd (interface_in interface.old.value)
        (λ i. IsSomeAnd (values_in values.new.value) (λ v. IsDecode i operation side order octets.now taken.new v)) }
    ensures logged { result ≡ OK → IsSomeAnd (interface_in interface.old.value)
        (λ i. IsSomeAnd (items_in items.new.value) (IsItems i operation side order octets.now)) }
    ensures refused { result ≡ REFUSED → IsSomeAnd (interface_in interface.old.value)
        (λ i. IsSomeAnd (refusal_in fault.new.value) (λ e. IsDecodeRefusal i operation side order octets.now e)) }
    ensures argument { result ≡ ARGUMENT → IsSomeAnd (interface_in interface.old.value) (λ i. is_stream i operation side order ≡ false) }
    ensures range { (result ≡ EMPTY → ⊥) → (result ≡ ARGUMENT → ⊥) → IsSomeAnd (interface_in interface.old.value)
        (λ i. is_stream i operation side order ≡ true) }
    ensures empty { result ≡ EMPTY → interface_in interface.old.value ≡ None }
    ensures memory { result ≡ MEMORY → is_some (interface_in interface.old.value) ≡ true }
    ensures values_kept { (result ≡ OK → ⊥) → values.new.value ≡ values.old.value }
    ensures items_kept { (result ≡ OK → ⊥) → items.new.value ≡ items.old.value }
    ensures taken_kept { (result ≡ OK → ⊥) → taken.new ≡ taken.old }
    ensures fault_kept { (result ≡ REFUSED → ⊥) → fault.new.value ≡ fault.old.value }
{
    let Some(held) = interface.take(alloc) else {
        return EMPTY;
    };
    let status = match &*held {
        Held::Interface(compiled) => decode_items(
            alloc, compiled, operation, side, order, octets, values, items, taken, fault,
        ),
        _ => EMPTY,
    };
    interface.put(alloc, held);
    status
}

/// Fills `values` with those of the response to a request that octets begin with, and `items` with their items.
#[unsafe(no_mangle)]
pub extern "C" fn dceidl_decode_response_items(
    alloc: Global,
    request: &mut Handle,
    order: u32,
    octets: &[u8],
    values: &mut Handle,
    items: &mut Handle,
    taken: &mut usize,
    fault: &mut Handle,
) -> u32
    ensures known { result ≤ REFUSED }
    ensures not_short { result ≡ SHORT → ⊥ }
    ensures same { request.new.value ≡ request.old.value }
    ensures decoded { result ≡ OK → IsSomeAnd (values_in request.old.value)
        (λ q. IsSomeAnd (values_in values.new.value) (λ v. IsResponse q order octets.now taken.new v)) }
    ensures logged { result ≡ OK → IsSomeAnd (values_in request.old.value)
        (λ q. IsSomeAnd (items_in items.new.value) (IsResponseItems q order octets.now)) }
    ensures refused { result ≡ REFUSED → IsSomeAnd (values_in request.old.value)
        (λ q. IsSomeAnd (refusal_in fault.new.value) (λ e. IsResponseRefusal q order octets.now e)) }
    ensures argument { result ≡ ARGUMENT → IsSomeAnd (values_in request.old.value) (λ q. is_some (order_numbered order) ≡ true → q.side ≡ Out) }
    ensures order { (result ≡ EMPTY → ⊥) → (result ≡ ARGUMENT → ⊥) → is_some (order_numbered order) ≡ true }
    ensures request { (result ≡ EMPTY → ⊥) → (result ≡ ARGUMENT → ⊥) → IsSomeAnd (values_in request.old.value) (λ q. q.side ≡ In) }
    ensures empty { result ≡ EMPTY → values_in request.old.value ≡ None }
    ensures values_kept { (result ≡ OK → ⊥) → values.new.value ≡ values.old.value }
    ensures items_kept { (result ≡ OK → ⊥) → items.new.value ≡ items.old.value }
    ensures taken_kept { (result ≡ OK → ⊥) → taken.new ≡ taken.old }
    ensures fault_kept { (result ≡ REFUSED → ⊥) → fault.new.value ≡ fault.old.value }
{
    let Some(held) = request.take(alloc) else {
        return EMPTY;
    };
    let status = match &*held {
        Held::Values(given) => decode_response_items(
            alloc, given, order, octets, values, items, taken, fault,
        ),
        _ => EMPTY,
    };
    request.put(alloc, held);
    status
}

/// The number of items.
#[unsafe(no_mangle)]
pub extern "C" fn dceidl_item_count(alloc: Global, items: &mut Handle, count: &mut usize) -> u32
    ensures known { result ≤ EMPTY }
    ensures same { items.new.value ≡ items.old.value }
    ensures count { result ≡ OK → IsSomeAnd (items_in items.old.value) (λ xs. count.new ≡ length xs) }
    ensures empty { result ≡ EMPTY → items_in items.old.value ≡ None }
    ensures count_kept { (result ≡ OK → ⊥) → count.new ≡ count.old }
{
    let Some(held) = items.take(alloc) else {
        return EMPTY;
    };
    let status = match &*held {
        Held::Items(log) => {
            *count = log.len();
            OK
        }
        _ => EMPTY,
    };
    items.put(alloc, held);
    status
}

/// An item by its place.
#[unsafe(no_mangle)]
pub extern "C" fn dceidl_item_at(
    alloc: Global,
    items: &mut Handle,
    index: usize,
    item: &mut ItemDescription,
) -> u32
    ensures known { result ≤ ARGUMENT }
    ensures same { items.new.value ≡ items.old.value }
    ensures described { result ≡ OK → IsSomeAnd (items_in items.old.value)
        (λ xs. IsSomeAnd (slice_get xs index) (λ x. item.new ≡ item_described x)) }
    ensures argument { result ≡ ARGUMENT → IsSomeAnd (items_in items.old.value) (λ xs. slice_get xs index ≡ None) }
    ensures empty { result ≡ EMPTY → items_in items.old.value ≡ None }
    ensures item_kept { (result ≡ OK → ⊥) → item.new ≡ item.old }
{
    let Some(held) = items.take(alloc) else {
        return EMPTY;
    };
    let status = match &*held {
        Held::Items(log) => describe_item(log, index, item),
        _ => EMPTY,
    };
    items.put(alloc, held);
    status
}

/// Lets go of items.
#[unsafe(no_mangle)]
pub extern "C" fn dceidl_items_free(alloc: Global, items: &mut Handle)
    ensures { items.new.value ≡ None }
{
    free(alloc, items);
}
