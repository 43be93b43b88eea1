// A work is prepared for the values of a fit, and their octets are written by it.
ghost use Rattle.std.specs.Prelude.{◌≡◌, ◌≤◌, length, Some, IfOk, IfErr};
ghost use Rattle.std.specs.List.{slice_get};
ghost use Rattle.nd_types.specs.declared.types.Operation.{Operation};
ghost use Rattle.nd_value.specs.Fitting.{setting_beside};
ghost use Rattle.ndr_encode.specs.Work.{IsWorkFor};
ghost use Rattle.command_encode.specs.Encoded.{IsWritten, IsWritingCause};
ghost use Rattle.command_encode.specs.Prepared.{IsUnprepared};

use command_refusals::Refusal;
use nd_base::{Octets, Order};
use nd_graph::Fit;
use nd_types::Interface;
use ndr_code::Plan;
use ndr_encode::{EncodeFault, Work, encode_with};
use ndr_plan::make;
use std::alloc::Global;

/// The octets of the values of a fit, in NDR (C706, chapter 14): those of their one stream in which gaps are zero, TRUE is 1, the number of each
/// pointer is the number of its cell in the order of the stream, and each chunk of a pipe has `chunk` elements, at least one, except the last, which
/// may have fewer. The interface must be the one that the fit is tied to.
///
/// # Errors
/// TooLong, exactly where the octets are more than a stream may have: so many. Memory where memory was refused.
///
/// Takes memory for the plan of the interface, for 12 octets for each root and cell and 4 for each cell, and for the octets. The time is in
/// proportion to the plan, the values and the octets.
pub fn write_octets(
    alloc: Global,
    interface: &Interface,
    fit: &Fit,
    order: Order,
    chunk: u32,
) -> Result<Octets, Refusal>
    requires tied { fit.now.interface ≡ interface.now }
    requires some { 1 ≤ chunk }
    ensures written { (o : Operation) → slice_get interface.now.operations fit.now.op ≡ Some o
        → IfOk result (IsWritten (setting_beside interface.now o fit.now.side fit.now.given) order chunk fit.now.graph) }
    ensures refused { (o : Operation) → slice_get interface.now.operations fit.now.op ≡ Some o
        → IfErr result (IsWritingCause (setting_beside interface.now o fit.now.side fit.now.given) chunk fit.now.graph) }
{
    let plan = make(alloc, interface)?;
    let mut work = prepare(alloc, &plan, fit, chunk)?;
    let Ok(mut octets) = vec![in alloc; 0u8; work.length() as usize] else {
        return Err(Refusal::Memory);
    };
    encode_with(&mut work, &plan, fit, order, &mut octets);
    Ok(Octets::adopt(octets))
}

// The work for a fit.
fn prepare(alloc: Global, plan: &Plan, fit: &Fit, chunk: u32) -> Result<Work, Refusal>
    requires tied { plan.now.tie ≡ fit.now.interface }
    requires some { 1 ≤ chunk }
    ensures made { IfOk result (IsWorkFor fit.now chunk) }
    ensures refused { IfErr result (IsUnprepared fit.now chunk) }
{
    match Work::for_graph(alloc, plan, fit, chunk) {
        Ok(work) => Ok(work),
        Err(EncodeFault::Memory) => Err(Refusal::Memory),
        Err(EncodeFault::TooLong { length }) => Err(Refusal::TooLong { length }),
    }
}
