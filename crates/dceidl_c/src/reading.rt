// Values of octets and of texts.
ghost use Rattle.std.specs.Prelude.{◌≡◌, ◌≤◌, None, true, false, is_some, IsSomeAnd};
ghost use Rattle.nd_types.specs.declared.types.Side.TheVariants.{In, Out};
ghost use Rattle.library_answers.specs.Answers.{interface_in, values_in, refusal_in, order_numbered, is_side, is_stream};
ghost use Rattle.library_answers.specs.Octets.{IsDecode, IsDecodeRefusal, IsResponse, IsResponseRefusal};
ghost use Rattle.library_answers.specs.Texts.{IsRead, IsReadRefusal, IsReply, IsReplyRefusal};

use library_answers::{
    ARGUMENT, EMPTY, MEMORY, OK, REFUSED, SHORT, decode, decode_response, read, read_response,
};
use library_handles::{Handle, Held};
use std::alloc::Global;

/// Fills `values` with those of a side of an operation that octets begin with.
#[unsafe(no_mangle)]
pub extern "C" fn dceidl_decode(
    alloc: Global,
    interface: &mut Handle,
    operation: u32,
    side: u32,
    order: u32,
    octets: &[u8],
    values: &mut Handle,
    taken: &mut usize,
    fault: &mut Handle,
) -> u32
    ensures known { result ≤ REFUSED }
    ensures not_short { result ≡ SHORT → ⊥ }
    ensures same { interface.new.value ≡ interface.old.value }
    ensures decoded { result ≡ OK → IsSomeAnd (interface_in interface.old.value)
        (λ i. IsSomeAnd (values_in values.new.value) (λ v. IsDecode i operation side order octets.now taken.new v)) }
    ensures refused { result ≡ REFUSED → IsSomeAnd (interface_in interface.old.value)
        (λ i. IsSomeAnd (refusal_in fault.new.value) (λ e. IsDecodeRefusal i operation side order octets.now e)) }
    ensures argument { result ≡ ARGUMENT → IsSomeAnd (interface_in interface.old.value) (λ i. is_stream i operation side order ≡ false) }
    ensures range { (result ≡ EMPTY → ⊥) → (result ≡ ARGUMENT → ⊥) → IsSomeAnd (interface_in interface.old.value)
        (λ i. is_stream i operation side order ≡ true) }
    ensures empty { result ≡ EMPTY → interface_in interface.old.value ≡ None }
    ensures memory { result ≡ MEMORY → is_some (interface_in interface.old.value) ≡ true }
    ensures values_kept { (result ≡ OK → ⊥) → values.new.value ≡ values.old.value }
    ensures taken_kept { (result ≡ OK → ⊥) → taken.new ≡ taken.old }
    ensures fault_kept { (result ≡ REFUSED → ⊥) → fault.new.value ≡ fault.old.value }
{
    let Some(held) = interface.take(alloc) else {
        return EMPTY;
    };
    let status = match &*held {
        Held::Interface(compiled) => decode(
            alloc, compiled, operation, side, order, octets, values, taken, fault,
        ),
        _ => EMPTY,
    };
    interface.put(alloc, held);
    status
}

/// Fills `values` with those of the response to a request that octets begin with.
#[unsafe(no_mangle)]
pub extern "C" fn dceidl_decode_response(
    alloc: Global,
    request: &mut Handle,
    order: u32,
    octets: &[u8],
    values: &mut Handle,
    taken: &mut usize,
    fault: &mut Handle,
) -> u32
    ensures known { result ≤ REFUSED }
    ensures not_short { result ≡ SHORT → ⊥ }
    ensures same { request.new.value ≡ request.old.value }
    ensures decoded { result ≡ OK → IsSomeAnd (values_in request.old.value)
        (λ q. IsSomeAnd (values_in values.new.value) (λ v. IsResponse q order octets.now taken.new v)) }
    ensures refused { result ≡ REFUSED → IsSomeAnd (values_in request.old.value)
        (λ q. IsSomeAnd (refusal_in fault.new.value) (λ e. IsResponseRefusal q order octets.now e)) }
    ensures argument { result ≡ ARGUMENT → IsSomeAnd (values_in request.old.value) (λ q. is_some (order_numbered order) ≡ true → q.side ≡ Out) }
    ensures order { (result ≡ EMPTY → ⊥) → (result ≡ ARGUMENT → ⊥) → is_some (order_numbered order) ≡ true }
    ensures request { (result ≡ EMPTY → ⊥) → (result ≡ ARGUMENT → ⊥) → IsSomeAnd (values_in request.old.value) (λ q. q.side ≡ In) }
    ensures empty { result ≡ EMPTY → values_in request.old.value ≡ None }
    ensures values_kept { (result ≡ OK → ⊥) → values.new.value ≡ values.old.value }
    ensures taken_kept { (result ≡ OK → ⊥) → taken.new ≡ taken.old }
    ensures fault_kept { (result ≡ REFUSED → ⊥) → fault.new.value ≡ fault.old.value }
{
    let Some(held) = request.take(alloc) else {
        return EMPTY;
    };
    let status = match &*held {
        Held::Values(given) => {
            decode_response(alloc, given, order, octets, values, taken, fault)
        }
        _ => EMPTY,
    };
    request.put(alloc, held);
    status
}

/// Fills `values` with those of a side of an operation that a text is read as.
#[unsafe(no_mangle)]
pub extern "C" fn dceidl_read(
    alloc: Global,
    interface: &mut Handle,
    operation: u32,
    side: u32,
    text: &[u8],
    values: &mut Handle,
    fault: &mut Handle,
) -> u32
    ensures known { result ≤ REFUSED }
    ensures not_short { result ≡ SHORT → ⊥ }
    ensures same { interface.new.value ≡ interface.old.value }
    ensures read { result ≡ OK → IsSomeAnd (interface_in interface.old.value)
        (λ i. IsSomeAnd (values_in values.new.value) (λ v. IsRead i operation side text.now v)) }
    ensures refused { result ≡ REFUSED → IsSomeAnd (interface_in interface.old.value)
        (λ i. IsSomeAnd (refusal_in fault.new.value) (λ e. IsReadRefusal i operation side text.now e)) }
    ensures argument { result ≡ ARGUMENT → IsSomeAnd (interface_in interface.old.value) (λ i. is_side i operation side ≡ false) }
    ensures range { (result ≡ EMPTY → ⊥) → (result ≡ ARGUMENT → ⊥) → IsSomeAnd (interface_in interface.old.value)
        (λ i. is_side i operation side ≡ true) }
    ensures empty { result ≡ EMPTY → interface_in interface.old.value ≡ None }
    ensures memory { result ≡ MEMORY → is_some (interface_in interface.old.value) ≡ true }
    ensures values_kept { (result ≡ OK → ⊥) → values.new.value ≡ values.old.value }
    ensures fault_kept { (result ≡ REFUSED → ⊥) → fault.new.value ≡ fault.old.value }
{
    let Some(held) = interface.take(alloc) else {
        return EMPTY;
    };
    let status = match &*held {
        Held::Interface(compiled) => { read(alloc, compiled, operation, side, text, values, fault) }
        _ => EMPTY,
    };
    interface.put(alloc, held);
    status
}

/// Fills `values` with those of the response to a request that a text is read as.
#[unsafe(no_mangle)]
pub extern "C" fn dceidl_read_response(
    alloc: Global,
    request: &mut Handle,
    text: &[u8],
    values: &mut Handle,
    fault: &mut Handle,
) -> u32
    ensures known { result ≤ REFUSED }
    ensures not_short { result ≡ SHORT → ⊥ }
    ensures same { request.new.value ≡ request.old.value }
    ensures read { result ≡ OK → IsSomeAnd (values_in request.old.value)
        (λ q. IsSomeAnd (values_in values.new.value) (λ v. IsReply q text.now v)) }
    ensures refused { result ≡ REFUSED → IsSomeAnd (values_in request.old.value)
        (λ q. IsSomeAnd (refusal_in fault.new.value) (λ e. IsReplyRefusal q text.now e)) }
    ensures argument { result ≡ ARGUMENT → IsSomeAnd (values_in request.old.value) (λ q. q.side ≡ Out) }
    ensures request { (result ≡ EMPTY → ⊥) → (result ≡ ARGUMENT → ⊥) → IsSomeAnd (values_in request.old.value) (λ q. q.side ≡ In) }
    ensures empty { result ≡ EMPTY → values_in request.old.value ≡ None }
    ensures values_kept { (result ≡ OK → ⊥) → values.new.value ≡ values.old.value }
    ensures fault_kept { (result ≡ REFUSED → ⊥) → fault.new.value ≡ fault.old.value }
{
    let Some(held) = request.take(alloc) else {
        return EMPTY;
    };
    let status = match &*held {
        Held::Values(given) => read_response(alloc, given, text, values, fault),
        _ => EMPTY,
    };
    request.put(alloc, held);
    status
}
