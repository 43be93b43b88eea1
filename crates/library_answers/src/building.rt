// Values of listings.
ghost use Rattle.std.specs.Prelude.{◌≡◌, ◌≤◌, true, false, IsSomeAnd};
ghost use Rattle.nd_types.specs.declared.types.Side.TheVariants.{In};
ghost use Rattle.library_nodes.specs.Built.{has_too_many};
ghost use Rattle.library_answers.specs.Answers.{values_in, refusal_in, is_side};
ghost use Rattle.library_answers.specs.Building.{IsBuild, IsBuildRefusal, IsWrongNode, IsBuiltReply, IsBuiltReplyRefusal, IsWrongReplyNode};
ghost use Rattle.library_answers.specs.Building.{IsCellType, has_cell};

use crate::answers::{ABSENT, ARGUMENT, EMPTY, OK, REFUSED, SHORT, WRONG_NODE, refuse};
use crate::numbers::side_of;
use crate::reading::{fill_values, is_request};
use library_handles::Handle;
use library_interface::Compiled;
use library_nodes::{BuildFault, Listing, build, build_response, has_too_many};
use library_values::Values;
use std::alloc::Global;
use std::rc::Rc;

/// Fills `values` with those of a side of an operation that a listing says, or the fault, or sets the number of the first node that is wrong. Takes
/// memory for the values.
#[tactic(auto, using(crate::proofs::Listings::builds))]
pub fn build_values(
    alloc: Global,
    compiled: &Rc<Compiled>,
    operation: u32,
    side: u32,
    listing: &Listing<'_>,
    values: &mut Handle,
    node: &mut usize,
    fault: &mut Handle,
) -> u32
    ensures known { result ≤ WRONG_NODE }
    ensures not_empty { result ≡ EMPTY → ⊥ }
    ensures not_short { result ≡ SHORT → ⊥ }
    ensures not_absent { result ≡ ABSENT → ⊥ }
    ensures built { result ≡ OK → IsSomeAnd (values_in values.new.value)
        (λ v. IsBuild compiled.now.value operation side listing.now v) }
    ensures few { (result ≡ ARGUMENT → ⊥) → has_too_many listing.now ≡ false }
    ensures refused { result ≡ REFUSED → IsSomeAnd (refusal_in fault.new.value)
        (λ e. IsBuildRefusal compiled.now.value operation side listing.now e) }
    ensures wrong { result ≡ WRONG_NODE → IsWrongNode compiled.now.value operation side listing.now node.new }
    ensures argument { result ≡ ARGUMENT → is_side compiled.now.value operation side ≡ true → has_too_many listing.now ≡ true }
    ensures range { (result ≡ ARGUMENT → ⊥) → is_side compiled.now.value operation side ≡ true }
    ensures values_kept { (result ≡ OK → ⊥) → values.new.value ≡ values.old.value }
    ensures node_kept { (result ≡ WRONG_NODE → ⊥) → node.new ≡ node.old }
    ensures fault_kept { (result ≡ REFUSED → ⊥) → fault.new.value ≡ fault.old.value }
{
    let Some(side) = side_of(side) else {
        return ARGUMENT;
    };
    if operation as usize >= compiled.interface().operations.len() {
        return ARGUMENT;
    }
    if has_too_many(listing) {
        return ARGUMENT;
    }
    match build(alloc, compiled, operation, side, listing) {
        Ok(made) => fill_values(alloc, made, values),
        Err(BuildFault::TooMany) => ARGUMENT,
        Err(BuildFault::WrongNode(wrong)) => {
            *node = wrong;
            WRONG_NODE
        }
        Err(BuildFault::Refused(refusal)) => refuse(alloc, fault, refusal),
    }
}

/// The same with the response to a request.
#[tactic(auto, using(crate::proofs::Listings::replies))]
pub fn build_reply(
    alloc: Global,
    given: &Values,
    listing: &Listing<'_>,
    values: &mut Handle,
    node: &mut usize,
    fault: &mut Handle,
) -> u32
    ensures known { result ≤ WRONG_NODE }
    ensures not_empty { result ≡ EMPTY → ⊥ }
    ensures not_short { result ≡ SHORT → ⊥ }
    ensures not_absent { result ≡ ABSENT → ⊥ }
    ensures built { result ≡ OK → IsSomeAnd (values_in values.new.value) (λ v. IsBuiltReply given.now listing.now v) }
    ensures few { (result ≡ ARGUMENT → ⊥) → has_too_many listing.now ≡ false }
    ensures refused { result ≡ REFUSED → IsSomeAnd (refusal_in fault.new.value) (λ e. IsBuiltReplyRefusal given.now listing.now e) }
    ensures wrong { result ≡ WRONG_NODE → IsWrongReplyNode given.now listing.now node.new }
    ensures argument { result ≡ ARGUMENT → given.now.side ≡ In → has_too_many listing.now ≡ true }
    ensures request { (result ≡ ARGUMENT → ⊥) → given.now.side ≡ In }
    ensures values_kept { (result ≡ OK → ⊥) → values.new.value ≡ values.old.value }
    ensures node_kept { (result ≡ WRONG_NODE → ⊥) → node.new ≡ node.old }
    ensures fault_kept { (result ≡ REFUSED → ⊥) → fault.new.value ≡ fault.old.value }
{
    if !is_request(given) {
        return ARGUMENT;
    }
    if has_too_many(listing) {
        return ARGUMENT;
    }
    // A fit is of an operation of its interface.
    let _conforming = given.fit().flat();
    match build_response(alloc, given, listing) {
        Ok(made) => fill_values(alloc, made, values),
        Err(BuildFault::TooMany) => ARGUMENT,
        Err(BuildFault::WrongNode(wrong)) => {
            *node = wrong;
            WRONG_NODE
        }
        Err(BuildFault::Refused(refusal)) => refuse(alloc, fault, refusal),
    }
}

/// The type of a cell, of which the first has the number 1. Takes no memory.
#[tactic(auto, using(crate::proofs::Listings::no_cell, crate::proofs::Listings::past_cells))]
pub fn set_cell_type(values: &Values, cell: u32, of: &mut u32) -> u32
    ensures known { result ≤ ARGUMENT }
    ensures not_empty { result ≡ EMPTY → ⊥ }
    ensures found { result ≡ OK → IsCellType values.now.graph cell of.new }
    ensures argument { result ≡ ARGUMENT → has_cell values.now.graph cell ≡ false }
    ensures of_kept { (result ≡ OK → ⊥) → of.new ≡ of.old }
{
    if cell == 0 {
        return ARGUMENT;
    }
    let graph = values.fit().flat();
    if cell as usize > graph.cell_count() {
        return ARGUMENT;
    }
    *of = graph.cell_type(cell as usize - 1).0;
    OK
}
