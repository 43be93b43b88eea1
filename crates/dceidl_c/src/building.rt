// Values of listings.
ghost use Rattle.std.specs.Prelude.{◌≡◌, ◌≤◌, None, true, false, is_some, IsSomeAnd};
ghost use Rattle.nd_types.specs.declared.types.Side.TheVariants.{In};
ghost use Rattle.library_nodes.specs.Built.{has_too_many};
ghost use Rattle.library_answers.specs.Answers.{interface_in, values_in, refusal_in, is_side};
ghost use Rattle.library_answers.specs.Building.{IsBuild, IsBuildRefusal, IsWrongNode, IsBuiltReply, IsBuiltReplyRefusal, IsWrongReplyNode};
ghost use Rattle.library_answers.specs.Building.{IsCellType, has_cell};

use library_answers::{
    ABSENT, ARGUMENT, EMPTY, MEMORY, OK, REFUSED, SHORT, WRONG_NODE, build_reply, build_values,
    set_cell_type,
};
use library_handles::{Handle, Held};
use library_nodes::Listing;
use std::alloc::Global;

/// Fills `values` with those of a side of an operation that a listing says.
#[unsafe(no_mangle)]
pub extern "C" fn dceidl_build(
    alloc: Global,
    interface: &mut Handle,
    operation: u32,
    side: u32,
    listing: &Listing<'_>,
    values: &mut Handle,
    node: &mut usize,
    fault: &mut Handle,
) -> u32
    ensures known { result ≤ WRONG_NODE }
    ensures not_short { result ≡ SHORT → ⊥ }
    ensures not_absent { result ≡ ABSENT → ⊥ }
    ensures same { interface.new.value ≡ interface.old.value }
    ensures built { result ≡ OK → IsSomeAnd (interface_in interface.old.value)
        (λ i. IsSomeAnd (values_in values.new.value) (λ v. IsBuild i operation side listing.now v)) }
    ensures few { (result ≡ EMPTY → ⊥) → (result ≡ ARGUMENT → ⊥) → has_too_many listing.now ≡ false }
    ensures refused { result ≡ REFUSED → IsSomeAnd (interface_in interface.old.value)
        (λ i. IsSomeAnd (refusal_in fault.new.value) (λ e. IsBuildRefusal i operation side listing.now e)) }
    ensures wrong { result ≡ WRONG_NODE → IsSomeAnd (interface_in interface.old.value) (λ i. IsWrongNode i operation side listing.now node.new) }
    ensures argument { result ≡ ARGUMENT → IsSomeAnd (interface_in interface.old.value)
        (λ i. is_side i operation side ≡ true → has_too_many listing.now ≡ true) }
    ensures range { (result ≡ EMPTY → ⊥) → (result ≡ ARGUMENT → ⊥) → IsSomeAnd (interface_in interface.old.value)
        (λ i. is_side i operation side ≡ true) }
    ensures empty { result ≡ EMPTY → interface_in interface.old.value ≡ None }
    ensures memory { result ≡ MEMORY → is_some (interface_in interface.old.value) ≡ true }
    ensures values_kept { (result ≡ OK → ⊥) → values.new.value ≡ values.old.value }
    ensures node_kept { (result ≡ WRONG_NODE → ⊥) → node.new ≡ node.old }
    ensures fault_kept { (result ≡ REFUSED → ⊥) → fault.new.value ≡ fault.old.value }
{
    let Some(held) = interface.take(alloc) else {
        return EMPTY;
    };
    let status = match &*held {
        Held::Interface(compiled) => build_values(
            alloc, compiled, operation, side, listing, values, node, fault,
        ),
        _ => EMPTY,
    };
    interface.put(alloc, held);
    status
}

/// Fills `values` with those of the response to a request that a listing says.
#[unsafe(no_mangle)]
pub extern "C" fn dceidl_build_response(
    alloc: Global,
    request: &mut Handle,
    listing: &Listing<'_>,
    values: &mut Handle,
    node: &mut usize,
    fault: &mut Handle,
) -> u32
    ensures known { result ≤ WRONG_NODE }
    ensures not_short { result ≡ SHORT → ⊥ }
    ensures not_absent { result ≡ ABSENT → ⊥ }
    ensures same { request.new.value ≡ request.old.value }
    ensures built { result ≡ OK → IsSomeAnd (values_in request.old.value)
        (λ q. IsSomeAnd (values_in values.new.value) (λ v. IsBuiltReply q listing.now v)) }
    ensures few { (result ≡ EMPTY → ⊥) → (result ≡ ARGUMENT → ⊥) → has_too_many listing.now ≡ false }
    ensures refused { result ≡ REFUSED → IsSomeAnd (values_in request.old.value)
        (λ q. IsSomeAnd (refusal_in fault.new.value) (λ e. IsBuiltReplyRefusal q listing.now e)) }
    ensures wrong { result ≡ WRONG_NODE → IsSomeAnd (values_in request.old.value) (λ q. IsWrongReplyNode q listing.now node.new) }
    ensures argument { result ≡ ARGUMENT → IsSomeAnd (values_in request.old.value) (λ q. q.side ≡ In → has_too_many listing.now ≡ true) }
    ensures request { (result ≡ EMPTY → ⊥) → (result ≡ ARGUMENT → ⊥) → IsSomeAnd (values_in request.old.value) (λ q. q.side ≡ In) }
    ensures empty { result ≡ EMPTY → values_in request.old.value ≡ None }
    ensures values_kept { (result ≡ OK → ⊥) → values.new.value ≡ values.old.value }
    ensures node_kept { (result ≡ WRONG_NODE → ⊥) → node.new ≡ node.old }
    ensures fault_kept { (result ≡ REFUSED → ⊥) → fault.new.value ≡ fault.old.value }
{
    let Some(held) = request.take(alloc) else {
        return EMPTY;
    };
    let status = match &*held {
        Held::Values(given) => build_reply(alloc, given, listing, values, node, fault),
        _ => EMPTY,
    };
    request.put(alloc, held);
    status
}

/// The type of a cell.
#[unsafe(no_mangle)]
pub extern "C" fn dceidl_cell_type(
    alloc: Global,
    values: &mut Handle,
    cell: u32,
    of: &mut u32,
) -> u32
    ensures known { result ≤ ARGUMENT }
    ensures same { values.new.value ≡ values.old.value }
    ensures found { result ≡ OK → IsSomeAnd (values_in values.old.value) (λ v. IsCellType v.graph cell of.new) }
    ensures argument { result ≡ ARGUMENT → IsSomeAnd (values_in values.old.value) (λ v. has_cell v.graph cell ≡ false) }
    ensures empty { result ≡ EMPTY → values_in values.old.value ≡ None }
    ensures of_kept { (result ≡ OK → ⊥) → of.new ≡ of.old }
{
    let Some(held) = values.take(alloc) else {
        return EMPTY;
    };
    let status = match &*held {
        Held::Values(held_values) => set_cell_type(held_values, cell, of),
        _ => EMPTY,
    };
    values.put(alloc, held);
    status
}
