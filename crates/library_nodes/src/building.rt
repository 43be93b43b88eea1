// Values are built of a listing.
ghost use Rattle.std.specs.Prelude.{◌≡◌, ◌<◌, length, Some, None, false, option_map, IfOk, IfErr};
ghost use Rattle.std.specs.List.{slice_get};
ghost use Rattle.nd_types.specs.declared.types.Operation.{Operation};
ghost use Rattle.nd_types.specs.declared.types.Side.TheVariants.{In, Out};
ghost use Rattle.nd_value.specs.Fitting.{setting_beside};
ghost use Rattle.nd_value.specs.Request.{IsRequestOf};
ghost use Rattle.command_refusals.specs.declared.refusal.Refusal.TheVariants as refusal;
ghost use Rattle.library_values.specs.Decoded.{IsOf};
ghost use Rattle.library_nodes.specs.Built.{Says, IsBuildCause, has_too_many};
ghost use Rattle.library_nodes.specs.declared.fault.BuildFault.TheVariants as fault;

use crate::fault::BuildFault;
use crate::homes::graph_of;
use crate::listing::Listing;
use command_encode::fit_graph;
use library_interface::Compiled;
use library_values::Values;
use nd_graph::Fit;
use nd_types::{Interface, Side};
use std::alloc::Global;
use std::rc::Rc;

/// The values of a side of an operation that a listing says. `op` must be the number of an operation. A response is judged without a request.
///
/// # Errors
/// TooMany; WrongNode, the first node that is wrong, where the listing says no graph of the side; Refused by BadValue, the path of the first misfit
/// of the graph that it says, or by Memory where memory was refused.
///
/// Takes memory for the values. The time is in proportion to the listing.
pub fn build(
    alloc: Global,
    compiled: &Rc<Compiled>,
    op: u32,
    side: Side,
    listing: &Listing<'_>,
) -> Result<Values, BuildFault>
    requires known { op < length compiled.now.value.operations }
    ensures built { (o : Operation) → slice_get compiled.now.value.operations op ≡ Some o
        → IfOk result (λ v. Says (setting_beside compiled.now.value o side None) listing.now v.graph) }
    ensures of { IfOk result (λ v. IsOf compiled.now.value op side None v) }
    ensures few { IfOk result (λ _. has_too_many listing.now ≡ false) }
    ensures refused { (o : Operation) → slice_get compiled.now.value.operations op ≡ Some o
        → IfErr result (IsBuildCause (setting_beside compiled.now.value o side None) listing.now) }
{
    build_beside(alloc, compiled, op, side, None, listing)
}

/// The values of the response to a request that a listing says, judged with the request. The request must be the values of an input side.
///
/// # Errors
/// As those of [`build`].
///
/// Takes memory for the values. The time is in proportion to the listing.
pub fn build_response(
    alloc: Global,
    request: &Values,
    listing: &Listing<'_>,
) -> Result<Values, BuildFault>
    requires request { request.now.side ≡ In }
    ensures built { (o : Operation) → slice_get request.now.interface.operations request.now.op ≡ Some o
        → IfOk result (λ v. Says (setting_beside request.now.interface o Out (Some request.now.graph)) listing.now v.graph) }
    ensures of { IfOk result (λ v. IsOf request.now.interface request.now.op Out (Some request.now.graph) v) }
    ensures few { IfOk result (λ _. has_too_many listing.now ≡ false) }
    ensures refused { (o : Operation) → slice_get request.now.interface.operations request.now.op ≡ Some o
        → IfErr result (IsBuildCause (setting_beside request.now.interface o Out (Some request.now.graph)) listing.now) }
{
    build_given(alloc, request.shared(), request.fit(), listing)
}

// The values of the response to a request.
fn build_given(
    alloc: Global,
    compiled: &Rc<Compiled>,
    request: &Fit,
    listing: &Listing<'_>,
) -> Result<Values, BuildFault>
    requires tied { compiled.now.value ≡ request.now.interface }
    requires request { request.now.side ≡ In }
    ensures built { (o : Operation) → slice_get request.now.interface.operations request.now.op ≡ Some o
        → IfOk result (λ v. Says (setting_beside request.now.interface o Out (Some request.now.graph)) listing.now v.graph) }
    ensures of { IfOk result (λ v. IsOf request.now.interface request.now.op Out (Some request.now.graph) v) }
    ensures few { IfOk result (λ _. has_too_many listing.now ≡ false) }
    ensures refused { (o : Operation) → slice_get request.now.interface.operations request.now.op ≡ Some o
        → IfErr result (IsBuildCause (setting_beside request.now.interface o Out (Some request.now.graph)) listing.now) }
{
    // A fit is of an operation of its interface.
    let _conforming = request.flat();
    let op = request.op();
    build_beside(alloc, compiled, op, Side::Out, Some(request), listing)
}

// The values that a listing says, with a request or without one.
fn build_beside(
    alloc: Global,
    compiled: &Rc<Compiled>,
    op: u32,
    side: Side,
    given: Option<&Fit>,
    listing: &Listing<'_>,
) -> Result<Values, BuildFault>
    requires known { op < length compiled.now.value.operations }
    requires request { IsRequestOf compiled.now.value op side (option_map (λ f. f.now) given) }
    ensures built { (o : Operation) → slice_get compiled.now.value.operations op ≡ Some o
        → IfOk result (λ v. Says (setting_beside compiled.now.value o side (option_map (λ f. f.now.graph) given.entry)) listing.now v.graph) }
    ensures of { IfOk result (λ v. IsOf compiled.now.value op side (option_map (λ f. f.now.graph) given.entry) v) }
    ensures few { IfOk result (λ _. has_too_many listing.now ≡ false) }
    ensures refused { (o : Operation) → slice_get compiled.now.value.operations op ≡ Some o
        → IfErr result (IsBuildCause (setting_beside compiled.now.value o side (option_map (λ f. f.now.graph) given.entry)) listing.now) }
{
    let interface = interface_of(compiled);
    match fit_listing(alloc, interface, op, side, given, listing) {
        Ok(fit) => held(compiled, fit),
        Err(fault) => Err(fault),
    }
}

// The interface that is shared.
fn interface_of(compiled: &Rc<Compiled>) -> &Interface
    ensures { result.now ≡ compiled.now.value }
{
    compiled.interface()
}

// A fit with its interface.
fn held(compiled: &Rc<Compiled>, fit: Fit) -> Result<Values, BuildFault>
    requires { fit.interface ≡ compiled.now.value }
    ensures ok { IfOk result (λ v. v ≡ fit) }
    ensures err { IfErr result (λ e. e ≡ fault.Refused refusal.Memory) }
{
    match Values::of(compiled, fit) {
        Ok(values) => Ok(values),
        Err(refusal) => Err(BuildFault::Refused(refusal)),
    }
}

// The graph that a listing says, if it conforms.
fn fit_listing(
    alloc: Global,
    interface: &Interface,
    op: u32,
    side: Side,
    given: Option<&Fit>,
    listing: &Listing<'_>,
) -> Result<Fit, BuildFault>
    requires known { op < length interface.now.operations }
    requires request { IsRequestOf interface.now op side (option_map (λ f. f.now) given) }
    ensures tied { IfOk result (λ f. f.interface ≡ interface.now) }
    ensures number { IfOk result (λ f. f.op ≡ op) }
    ensures side { IfOk result (λ f. f.side ≡ side) }
    ensures beside { IfOk result (λ f. f.given ≡ option_map (λ f. f.now.graph) given.entry) }
    ensures built { (o : Operation) → slice_get interface.now.operations op ≡ Some o
        → IfOk result (λ f. Says (setting_beside interface.now o side (option_map (λ f. f.now.graph) given.entry)) listing.now f.graph) }
    ensures few { IfOk result (λ _. has_too_many listing.now ≡ false) }
    ensures refused { (o : Operation) → slice_get interface.now.operations op ≡ Some o
        → IfErr result (IsBuildCause (setting_beside interface.now o side (option_map (λ f. f.now.graph) given.entry)) listing.now) }
{
    let graph = graph_of(alloc, interface, op, side, listing)?;
    match fit_graph(alloc, interface, op, side, given, graph) {
        Ok(fit) => Ok(fit),
        Err(refusal) => Err(BuildFault::Refused(refusal)),
    }
}
