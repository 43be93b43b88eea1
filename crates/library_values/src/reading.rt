// Values of texts.
ghost use Rattle.std.specs.Prelude.{◌≡◌, ◌<◌, length, Some, None, option_map, IfOk, IfErr};
ghost use Rattle.std.specs.List.{slice_get};
ghost use Rattle.nd_types.specs.declared.types.Operation.{Operation};
ghost use Rattle.nd_types.specs.declared.types.Side.TheVariants.{In, Out};
ghost use Rattle.nd_value.specs.Fitting.{setting_beside};
ghost use Rattle.nd_value.specs.Request.{IsRequestOf};
ghost use Rattle.text_grammar.specs.Reads.{ReadsAs};
ghost use Rattle.command_encode.specs.Encoded.{IsTextCause};
ghost use Rattle.library_values.specs.Decoded.{IsOf};

use crate::values::{Values, interface_of};
use command_encode::fit_text;
use command_refusals::Refusal;
use library_interface::Compiled;
use nd_graph::Fit;
use nd_types::Side;
use std::alloc::Global;
use std::rc::Rc;

impl Values {
    /// The values of a side of an operation that a text is read as. `op` must be the number of an operation. A response is judged without a
    /// request.
    ///
    /// # Errors
    /// BadText, the first place at which the text goes on as no text of the side; BadValue, the path of the first misfit of the values that it is
    /// read as; Memory where memory was refused.
    ///
    /// Takes memory for the values. The time is in proportion to the text.
    pub fn read(
        alloc: Global,
        compiled: &Rc<Compiled>,
        op: u32,
        side: Side,
        text: &[u8],
    ) -> Result<Values, Refusal>
        requires known { op < length compiled.now.value.operations }
        ensures read { (o : Operation) → slice_get compiled.now.value.operations op ≡ Some o
            → IfOk result (λ v. ReadsAs (setting_beside compiled.now.value o side None) text.now v.graph) }
        ensures of { IfOk result (λ v. IsOf compiled.now.value op side None v) }
        ensures refused { (o : Operation) → slice_get compiled.now.value.operations op ≡ Some o
            → IfErr result (IsTextCause (setting_beside compiled.now.value o side None) text.now) }
    {
        read_beside(alloc, compiled, op, side, None, text)
    }

    /// The values of the response to a request that a text is read as, judged with the request. The request must be one, the values of an input
    /// side.
    ///
    /// # Errors
    /// BadText, the first place at which the text goes on as no text of the side; BadValue, the path of the first misfit of the values that it is
    /// read as; Memory where memory was refused.
    ///
    /// Takes memory for the values. The time is in proportion to the text.
    pub fn read_response(alloc: Global, request: &Values, text: &[u8]) -> Result<Values, Refusal>
        requires request { request.now.side ≡ In }
        ensures read { (o : Operation) → slice_get request.now.interface.operations request.now.op ≡ Some o
            → IfOk result (λ v. ReadsAs (setting_beside request.now.interface o Out (Some request.now.graph)) text.now v.graph) }
        ensures of { IfOk result (λ v. IsOf request.now.interface request.now.op Out (Some request.now.graph) v) }
        ensures refused { (o : Operation) → slice_get request.now.interface.operations request.now.op ≡ Some o
            → IfErr result (IsTextCause (setting_beside request.now.interface o Out (Some request.now.graph)) text.now) }
    {
        read_given(alloc, &request.compiled, &request.fit, text)
    }
}

// The values of the response to a request.
fn read_given(
    alloc: Global,
    compiled: &Rc<Compiled>,
    request: &Fit,
    text: &[u8],
) -> Result<Values, Refusal>
    requires tied { compiled.now.value ≡ request.now.interface }
    requires request { request.now.side ≡ In }
    ensures read { (o : Operation) → slice_get request.now.interface.operations request.now.op ≡ Some o
        → IfOk result (λ v. ReadsAs (setting_beside request.now.interface o Out (Some request.now.graph)) text.now v.graph) }
    ensures of { IfOk result (λ v. IsOf request.now.interface request.now.op Out (Some request.now.graph) v) }
    ensures refused { (o : Operation) → slice_get request.now.interface.operations request.now.op ≡ Some o
        → IfErr result (IsTextCause (setting_beside request.now.interface o Out (Some request.now.graph)) text.now) }
{
    // A fit is of an operation of its interface.
    let _conforming = request.flat();
    let op = request.op();
    read_beside(alloc, compiled, op, Side::Out, Some(request), text)
}

// The values that a text is read as, with a request or without one.
fn read_beside(
    alloc: Global,
    compiled: &Rc<Compiled>,
    op: u32,
    side: Side,
    given: Option<&Fit>,
    text: &[u8],
) -> Result<Values, Refusal>
    requires known { op < length compiled.now.value.operations }
    requires request { IsRequestOf compiled.now.value op side (option_map (λ f. f.now) given) }
    ensures read { (o : Operation) → slice_get compiled.now.value.operations op ≡ Some o
        → IfOk result (λ v. ReadsAs (setting_beside compiled.now.value o side (option_map (λ f. f.now.graph) given.entry)) text.now v.graph) }
    ensures of { IfOk result (λ v. IsOf compiled.now.value op side (option_map (λ f. f.now.graph) given.entry) v) }
    ensures refused { (o : Operation) → slice_get compiled.now.value.operations op ≡ Some o
        → IfErr result (IsTextCause (setting_beside compiled.now.value o side (option_map (λ f. f.now.graph) given.entry)) text.now) }
{
    let interface = interface_of(compiled);
    match fit_text(alloc, interface, op, side, given, text) {
        Ok(fit) => Values::of(compiled, fit),
        Err(refusal) => Err(refusal),
    }
}
