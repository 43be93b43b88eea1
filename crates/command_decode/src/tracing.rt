// The octets of a source are read, and then traced.
ghost use Rattle.std.specs.Prelude.{◌≡◌, ◌<◌, length, Some, None, option_map, IfOk, IfErr};
ghost use Rattle.std.specs.List.{slice_get};
ghost use Rattle.nd_base.specs.Over.{source_over};
ghost use Rattle.nd_types.specs.declared.types.Operation.{Operation};
ghost use Rattle.nd_value.specs.Fitting.{setting_beside};
ghost use Rattle.nd_value.specs.Request.{IsRequestOf};
ghost use Rattle.command_decode.specs.Decoded.{IsMadeOf, IsStopped, IsTracedWhole};

use crate::held::{Traced, trace_held};
use command_refusals::Refusal;
use command_streams::read_input;
use nd_base::{Memory, Octets, Order, STREAM_LIMIT, Source};
use nd_graph::Fit;
use nd_types::{Interface, Side};
use std::alloc::Global;

/// Why octets are not explained to their end.
#[derive(Drop)]
pub struct Stopped {
    pub refusal: Refusal,
    /// Where the octets are refused: a line for each item before the fault, and the line `PLACE fault REASON PATH`, where PATH is that of the value
    /// that is refused or lacks octets. At a failed agreement the path of the variable that states the number follows. Of an octet that follows the
    /// values the line is `PLACE fault Trailing`. The line that counts the gaps that are not zero is the last.
    pub lines: Option<Octets>,
}

/// The same as [`explain_octets`](crate::explain_octets), but the source is read first, to its end or to one octet past the limit of a
/// stream, [`STREAM_LIMIT`](nd_base::STREAM_LIMIT); and where the octets are refused, the items before the fault are explained, and the fault is
/// shown with the path of what is refused. So a source that fails after a fault answers ReadFault.
///
/// A gap whose octets are not all zero shows them, in hexadecimal digits: `6 2 gap x"00a1"`. If there are such gaps, the last line is
/// `gaps that are not zero: N`.
///
/// `op` must be the number of an operation of the interface. A request that is given must be one of that operation, and then the side is that of its
/// outputs: the values are judged beside it.
///
/// # Errors
/// BadOctets, the first place at which the octets are refused: that of an octet which follows the values, if one does. ReadFault, where the source
/// failed. Memory where memory was refused. Lines are beside BadOctets, and beside no other.
///
/// Takes memory for the octets, the plan of the interface, the values, the items and the text. The time is in proportion to these.
pub fn trace_octets<S: Source>(
    alloc: Global,
    interface: &Interface,
    op: u32,
    side: Side,
    given: Option<&Fit>,
    order: Order,
    input: &mut S,
) -> Result<Octets, Stopped>
    requires known { op < length interface.now.operations }
    requires request { IsRequestOf interface.now op side (option_map (λ f. f.now) given) }
    ensures explained { (o : Operation) → slice_get interface.now.operations op ≡ Some o
        → IfOk result
        (IsTracedWhole (source_over S.seen input.old input.new)
        (setting_beside interface.now o side (option_map (λ f. f.now.graph) given.entry)) order) }
    ensures stopped { (o : Operation) → slice_get interface.now.operations op ≡ Some o
        → IfErr result
        (IsStopped (source_over S.seen input.old input.new)
        (setting_beside interface.now o side (option_map (λ f. f.now.graph) given.entry)) order) }
{
    let octets = match read_input(alloc, input, STREAM_LIMIT) {
        Ok(octets) => octets,
        Err(refusal) => {
            return Err(Stopped {
                refusal,
                lines: None,
            });
        }
    };
    answer(trace_held(alloc, interface, op, side, given, order, octets.as_slice()))
}

// What octets in memory come to, as a text or a refusal.
fn answer(traced: Result<Traced, Memory>) -> Result<Octets, Stopped>
    ensures { IsMadeOf traced result }
{
    match traced {
        Ok(Traced::Whole(text)) => Ok(text),
        Ok(Traced::Refused { lines, place, why }) => Err(Stopped {
            refusal: Refusal::BadOctets { place, why },
            lines: Some(lines),
        }),
        Err(Memory) => Err(Stopped {
            refusal: Refusal::Memory,
            lines: None,
        }),
    }
}
