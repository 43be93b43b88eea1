// Values of octets in memory, with the items of the octets.
ghost use Rattle.std.specs.Prelude.{◌≡◌, ◌<◌, length, Some, None, option_map, IfOk, IfErr};
ghost use Rattle.std.specs.List.{slice_get};
ghost use Rattle.nd_types.specs.declared.types.Operation.{Operation};
ghost use Rattle.nd_types.specs.declared.types.Side.TheVariants.{In, Out};
ghost use Rattle.nd_value.specs.Fitting.{setting_beside};
ghost use Rattle.nd_value.specs.Request.{IsRequestOf};
ghost use Rattle.library_values.specs.Decoded.{IsDecodedOf, IsOctetsCause, IsOf};
ghost use Rattle.library_values.specs.Logged.{IsLoggedOf};

use crate::decoding::decode_beside;
use crate::values::Values;
use command_refusals::Refusal;
use library_interface::Compiled;
use nd_base::Order;
use nd_graph::{Fit, ItemLog};
use nd_types::Side;
use std::alloc::Global;
use std::rc::Rc;

impl Values {
    /// What `decode` gives, and the items of the octets, in one reading.
    ///
    /// # Errors
    /// As those of `decode`.
    ///
    /// Takes memory for the values and for the items. The time is in proportion to the octets that the values take.
    pub fn decode_with_items(
        alloc: Global,
        compiled: &Rc<Compiled>,
        op: u32,
        side: Side,
        order: Order,
        octets: &[u8],
    ) -> Result<((Values, u32), ItemLog), Refusal>
        requires known { op < length compiled.now.value.operations }
        ensures decoded { (o : Operation) → slice_get compiled.now.value.operations op ≡ Some o
            → IfOk result (λ d. IsDecodedOf (setting_beside compiled.now.value o side None) order octets.now d.0.1 d.0.0.graph) }
        ensures of { IfOk result (λ d. IsOf compiled.now.value op side None d.0.0) }
        ensures logged { (o : Operation) → slice_get compiled.now.value.operations op ≡ Some o
            → IfOk result (λ d. IsLoggedOf (setting_beside compiled.now.value o side None) order octets.now d.1.items) }
        ensures refused { (o : Operation) → slice_get compiled.now.value.operations op ≡ Some o
            → IfErr result (IsOctetsCause (setting_beside compiled.now.value o side None) order octets.now) }
    {
        both_beside(alloc, compiled, op, side, None, order, octets)
    }

    /// What `decode_response` gives, and the items of the octets, in one reading.
    ///
    /// # Errors
    /// As those of `decode_response`.
    ///
    /// Takes memory for the values and for the items. The time is in proportion to the octets that the values take.
    pub fn decode_response_with_items(
        alloc: Global,
        request: &Values,
        order: Order,
        octets: &[u8],
    ) -> Result<((Values, u32), ItemLog), Refusal>
        requires request { request.now.side ≡ In }
        ensures decoded { (o : Operation) → slice_get request.now.interface.operations request.now.op ≡ Some o
            → IfOk result
            (λ d. IsDecodedOf (setting_beside request.now.interface o Out (Some request.now.graph)) order octets.now d.0.1 d.0.0.graph) }
        ensures of { IfOk result (λ d. IsOf request.now.interface request.now.op Out (Some request.now.graph) d.0.0) }
        ensures logged { (o : Operation) → slice_get request.now.interface.operations request.now.op ≡ Some o
            → IfOk result (λ d. IsLoggedOf (setting_beside request.now.interface o Out (Some request.now.graph)) order octets.now d.1.items) }
        ensures refused { (o : Operation) → slice_get request.now.interface.operations request.now.op ≡ Some o
            → IfErr result (IsOctetsCause (setting_beside request.now.interface o Out (Some request.now.graph)) order octets.now) }
    {
        both_given(alloc, &request.compiled, &request.fit, order, octets)
    }
}

// The values of the response to a request, with the items.
fn both_given(
    alloc: Global,
    compiled: &Rc<Compiled>,
    request: &Fit,
    order: Order,
    octets: &[u8],
) -> Result<((Values, u32), ItemLog), Refusal>
    requires tied { compiled.now.value ≡ request.now.interface }
    requires request { request.now.side ≡ In }
    ensures decoded { (o : Operation) → slice_get request.now.interface.operations request.now.op ≡ Some o
        → IfOk result (λ d. IsDecodedOf (setting_beside request.now.interface o Out (Some request.now.graph)) order octets.now d.0.1 d.0.0.graph) }
    ensures of { IfOk result (λ d. IsOf request.now.interface request.now.op Out (Some request.now.graph) d.0.0) }
    ensures logged { (o : Operation) → slice_get request.now.interface.operations request.now.op ≡ Some o
        → IfOk result (λ d. IsLoggedOf (setting_beside request.now.interface o Out (Some request.now.graph)) order octets.now d.1.items) }
    ensures refused { (o : Operation) → slice_get request.now.interface.operations request.now.op ≡ Some o
        → IfErr result (IsOctetsCause (setting_beside request.now.interface o Out (Some request.now.graph)) order octets.now) }
{
    // A fit is of an operation of its interface.
    let _conforming = request.flat();
    let op = request.op();
    both_beside(alloc, compiled, op, Side::Out, Some(request), order, octets)
}

// The values that octets begin with, with a request or without one, and the items.
fn both_beside(
    alloc: Global,
    compiled: &Rc<Compiled>,
    op: u32,
    side: Side,
    given: Option<&Fit>,
    order: Order,
    octets: &[u8],
) -> Result<((Values, u32), ItemLog), Refusal>
    requires known { op < length compiled.now.value.operations }
    requires request { IsRequestOf compiled.now.value op side (option_map (λ f. f.now) given) }
    ensures decoded { (o : Operation) → slice_get compiled.now.value.operations op ≡ Some o
        → IfOk result
        (λ d. IsDecodedOf (setting_beside compiled.now.value o side (option_map (λ f. f.now.graph) given.entry)) order octets.now d.0.1 d.0.0.graph) }
    ensures of { IfOk result (λ d. IsOf compiled.now.value op side (option_map (λ f. f.now.graph) given.entry) d.0.0) }
    ensures logged { (o : Operation) → slice_get compiled.now.value.operations op ≡ Some o
        → IfOk result
        (λ d. IsLoggedOf (setting_beside compiled.now.value o side (option_map (λ f. f.now.graph) given.entry)) order octets.now d.1.items) }
    ensures refused { (o : Operation) → slice_get compiled.now.value.operations op ≡ Some o
        → IfErr result
        (IsOctetsCause (setting_beside compiled.now.value o side (option_map (λ f. f.now.graph) given.entry)) order octets.now) }
{
    let mut items = ItemLog::keeping(alloc);
    match decode_beside(alloc, compiled, op, side, given, order, octets, &mut items) {
        Ok(made) => Ok((made, items)),
        Err(refusal) => Err(refusal),
    }
}
