// What is made of a text: the text of the input is read, its values are fitted to the operation, and encoded or printed.
ghost use Rattle.std.specs.Prelude.{◌≡◌, ◌<◌, ◌≤◌, ◌++◌, length, Some, option_map, IfOk, IfErr};
ghost use Rattle.std.specs.List.{slice_get};
ghost use Rattle.nd_types.specs.declared.types.Operation.{Operation};
ghost use Rattle.nd_value.specs.Fitting.{setting_beside};
ghost use Rattle.nd_value.specs.Request.{IsRequestOf};
ghost use Rattle.command_encode.specs.Encoded.{IsTextCause};
ghost use Rattle.dceidl.specs.Input.{IsEncoding, IsLabelledEncoding, IsEncodingCause, IsMigration, label_for};

use crate::ready::Ready;
use command_encode::{fit_text, write_octets};
use command_line::OrderWord;
use command_refusals::Refusal;
use nd_base::{Memory, Octets, Order};
use nd_graph::Fit;
use std::alloc::Global;
use value_text::print;

// The octets of the values that a text states, judged beside a request if one is given: after a format label, if the command asks for one.
pub(crate) fn encode(
    alloc: Global,
    ready: &Ready,
    given: Option<&Fit>,
    order: OrderWord,
    chunk: u32,
    text: &[u8],
) -> Result<Octets, Refusal>
    requires known { ready.now.number < length ready.now.interface.operations }
    requires request { IsRequestOf ready.now.interface ready.now.number ready.now.side (option_map (λ f. f.now) given) }
    requires chunk { 1 ≤ chunk }
    ensures done { (o : Operation) → slice_get ready.now.interface.operations ready.now.number ≡ Some o
        → IfOk result
        (IsLabelledEncoding
        (setting_beside ready.now.interface o ready.now.side (option_map (λ f. f.now.graph) given.entry)) order chunk text.now) }
    ensures refused { (o : Operation) → slice_get ready.now.interface.operations ready.now.number ≡ Some o
        → IfErr result
        (IsEncodingCause (setting_beside ready.now.interface o ready.now.side (option_map (λ f. f.now.graph) given.entry)) chunk text.now) }
{
    let octets = encode_values(alloc, ready, given, order.order(), chunk, text)?;
    Ok(labelled(alloc, order, octets)?)
}

// Octets, after a format label if the command asks for one.
fn labelled(alloc: Global, order: OrderWord, octets: Octets) -> Result<Octets, Memory>
    ensures { IfOk result (λ made. made ≡ label_for order ++ octets) }
{
    match order {
        OrderWord::Fixed(_) => Ok(octets),
        OrderWord::Label => {
            let mut made = Octets::copy(alloc, b"\x10\0\0\0")?;
            made.append(octets.as_slice())?;
            Ok(made)
        }
    }
}

// The octets of the values that a text states, judged beside a request if one is given.
fn encode_values(
    alloc: Global,
    ready: &Ready,
    given: Option<&Fit>,
    order: Order,
    chunk: u32,
    text: &[u8],
) -> Result<Octets, Refusal>
    requires known { ready.now.number < length ready.now.interface.operations }
    requires request { IsRequestOf ready.now.interface ready.now.number ready.now.side (option_map (λ f. f.now) given) }
    requires chunk { 1 ≤ chunk }
    ensures done { (o : Operation) → slice_get ready.now.interface.operations ready.now.number ≡ Some o
        → IfOk result
        (IsEncoding (setting_beside ready.now.interface o ready.now.side (option_map (λ f. f.now.graph) given.entry)) order chunk text.now) }
    ensures refused { (o : Operation) → slice_get ready.now.interface.operations ready.now.number ≡ Some o
        → IfErr result
        (IsEncodingCause (setting_beside ready.now.interface o ready.now.side (option_map (λ f. f.now.graph) given.entry)) chunk text.now) }
{
    let fit = fit_text(
        alloc,
        &ready.interface,
        ready.number,
        ready.side,
        given,
        text,
    )?;
    // A fit's graph conforms.
    let _conforming = fit.flat();
    let octets = write_octets(alloc, &ready.interface, &fit, order, chunk)?;
    Ok(octets)
}

// The text that is printed of the values that a text states, judged beside a request if one is given.
pub(crate) fn migrate(
    alloc: Global,
    ready: &Ready,
    given: Option<&Fit>,
    text: &[u8],
) -> Result<Octets, Refusal>
    requires known { ready.now.number < length ready.now.interface.operations }
    requires request { IsRequestOf ready.now.interface ready.now.number ready.now.side (option_map (λ f. f.now) given) }
    ensures done { (o : Operation) → slice_get ready.now.interface.operations ready.now.number ≡ Some o
        → IfOk result (IsMigration (setting_beside ready.now.interface o ready.now.side (option_map (λ f. f.now.graph) given.entry)) text.now) }
    ensures refused { (o : Operation) → slice_get ready.now.interface.operations ready.now.number ≡ Some o
        → IfErr result (IsTextCause (setting_beside ready.now.interface o ready.now.side (option_map (λ f. f.now.graph) given.entry)) text.now) }
{
    let fit = fit_text(
        alloc,
        &ready.interface,
        ready.number,
        ready.side,
        given,
        text,
    )?;
    // A fit's graph conforms.
    let _conforming = fit.flat();
    let printed = print(alloc, &ready.interface, &fit)?;
    Ok(printed)
}
