// The values of a fit are written to a buffer.
ghost use Rattle.std.specs.Prelude.{◌≡◌, ◌≤◌, length, IfOk, IfErr, OnErr};
ghost use Rattle.ndr_encode.specs.Work.{HasLength, IsWorkFor};
ghost use Rattle.library_values.specs.Encoded.{IsEncoded, IsEncodeCause};

use command_refusals::Refusal;
use nd_base::Order;
use nd_graph::Fit;
use ndr_code::Plan;
use ndr_encode::{EncodeFault, Work, encode_with};
use std::alloc::Global;

/// What a buffer got.
#[derive(Clone, Copy, Debug, PartialEq, Eq)]
pub enum Encoded {
    /// All octets, so many.
    Written { length: u32 },
    /// Nothing: it has less room than the octets need, which are so many.
    Short { length: u32 },
}

// Writes the octets of a fit to the front of a buffer, if they have room there.
pub(crate) fn encode_fit(
    alloc: Global,
    plan: &Plan,
    fit: &Fit,
    order: Order,
    chunk: u32,
    out: &mut [u8],
) -> Result<Encoded, Refusal>
    requires tied { plan.now.tie ≡ fit.now.interface }
    requires some { 1 ≤ chunk }
    ensures encoded { IfOk result (IsEncoded fit.now order chunk out.old out.new) }
    ensures refused { IfErr result (IsEncodeCause fit.now chunk) }
    ensures kept { OnErr result (out.new ≡ out.old) }
    ensures wide { length out.new ≡ length out.old }
{
    match Work::for_graph(alloc, plan, fit, chunk) {
        Ok(work) => Ok(write(work, plan, fit, order, chunk, out)),
        Err(EncodeFault::Memory) => Err(Refusal::Memory),
        Err(EncodeFault::TooLong { length }) => Err(Refusal::TooLong { length }),
    }
}

// Writes the octets of a fit by its work, if they have room.
#[tactic(auto, using(crate::proofs::Encodes::written_is, crate::proofs::Encodes::short_is))]
fn write(
    mut work: Work,
    plan: &Plan,
    fit: &Fit,
    order: Order,
    chunk: u32,
    out: &mut [u8],
) -> Encoded
    requires tied { plan.now.tie ≡ fit.now.interface }
    requires made { IsWorkFor fit.now chunk work }
    requires long { HasLength fit.now chunk work.length }
    ensures encoded { IsEncoded fit.now order chunk out.old out.new result }
    ensures wide { length out.new ≡ length out.old }
{
    let length = work.length();
    let count = length as usize;
    if count > out.len() {
        return Encoded::Short { length };
    }
    encode_with(&mut work, plan, fit, order, &mut out[..count]);
    Encoded::Written { length }
}
