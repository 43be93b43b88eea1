// Fragments in memory.
ghost use Rattle.std.specs.Prelude.{◌≡◌, IfOk, IfErr};
ghost use Rattle.library_calls.specs.Fragments.{IsJoinedOf, IsFragmentsCause};
ghost use Rattle.rpc_pdu.specs.Fragments.{HasNumber};

use command_refusals::{FragmentsFault, Refusal};
use nd_base::LentSource;
use rpc_pdu::{Joined, PduFault, Wanted, join};
use std::alloc::Global;

/// Joins the fragments of a request or response (C706, section 12.6) that octets begin with. More octets may follow them.
///
/// # Errors
/// BadPdu, at the place and for the reason of the first check that fails. Memory where memory was refused.
///
/// Takes memory for the stub data and for one fragment. The time is in proportion to the fragments.
pub fn join_lent(alloc: Global, want: Wanted, octets: &[u8]) -> Result<Joined, Refusal>
    ensures joined { IfOk result (IsJoinedOf want octets.now) }
    ensures number { IfOk result (λ j. HasNumber want j.opnum) }
    ensures refused { IfErr result (IsFragmentsCause want octets.now) }
{
    let mut source = LentSource::new(octets);
    match join(alloc, want, &mut source) {
        Ok(joined) => Ok(joined),
        Err(PduFault::Memory) => Err(Refusal::Memory),
        Err(PduFault::ReadFault) => unreachable!(),
        Err(PduFault::Bad { place, reason }) => Err(Refusal::BadPdu {
            place,
            why: FragmentsFault::Refused(reason),
        }),
    }
}
