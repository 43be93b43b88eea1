// The fragments of a call are fetched from a source, and their stub data are joined.
ghost use Rattle.std.specs.Prelude.{◌≡◌, ℕ, ◌+◌, ◌-◌, ◌*◌, ◌≤◌, ◌<◌, ◌^◌, [], ◌++◌, length, List, Option, Some, None, true, false, IfOk, IfErr, OnOk};
ghost use Rattle.std.specs.Io.KnownBytes.{Consumes};
ghost use Rattle.nd_base.specs.Over.{source_over};
ghost use Rattle.nd_base.specs.declared.TheConstants.{STREAM_LIMIT};
ghost use Rattle.rpc_pdu.specs.Checks.{before};
ghost use Rattle.rpc_pdu.specs.Fragments.{HasNumber, IsJoined, IsJoinCause, IsTaken, IsTakeCause, IsWholeFragment, IsFragmentCause};

use crate::header::{check_common_fields, check_whole_header};
use crate::pdu::{Joined, Opening, PduFault, PduReason, Wanted};
use nd_base::{Intake, IntakeFault, Octets, Source};
use std::alloc::Global;

// What is known after a fragment: what the first states, how many octets the fragments have so far, and whether it was the last.
#[derive(Clone, Copy)]
struct Taken {
    opening: Opening,
    at: u32,
    last: bool,
}

/// Fetches the fragments of a request or response and joins their stub data (C706 sections 12.6.4.9 and 12.6.4.10). It asks for no octet after the
/// last fragment, and none after the header that is refused.
///
/// # Errors
/// `Bad` if the octets are refused: the place, in octets from the first that was fetched, and the reason of the first check that fails, in the first
/// fragment in which one does. `ReadFault` if the source failed, and the octets before it are not refused. `Memory` if memory ran out: it takes
/// memory for the stub data and for one fragment, a piece at a time, before each piece is fetched. What a header claims takes none.
pub fn join<S: Source>(alloc: Global, want: Wanted, source: &mut S) -> Result<Joined, PduFault>
    ensures joined { IfOk result (IsJoined want (source_over S.Source.seen source.old source.new)) }
    ensures number { IfOk result (λ j. HasNumber want j.opnum) }
    ensures refused { IfErr result (IsJoinCause want (source_over S.Source.seen source.old source.new)) }
    ensures later { (S.Source.seen source.old).faults ≤ (S.Source.seen source.new).faults }
{
    let Ok(mut intake) = Intake::new(alloc) else {
        return Err(PduFault::Memory);
    };
    let mut stub = Octets::new(alloc);
    let mut opening = None;
    let mut at = 0;
    loop {
        let taken = take_fragment(want, opening, at, &mut stub, &mut intake, source)?;
        if taken.last {
            let Opening { order, call, opnum } = taken.opening;
            return Ok(Joined {
                order,
                call,
                opnum,
                stub,
                taken: taken.at,
            });
        }
        opening = Some(taken.opening);
        at = taken.at;
    }
}

// Fetches the next fragment and adds its stub data.
fn take_fragment<S: Source>(
    want: Wanted,
    opening: Option<Opening>,
    at: u32,
    stub: &mut Octets,
    intake: &mut Intake,
    source: &mut S,
) -> Result<Taken, PduFault>
    requires few { at ≤ 41 * length stub.old }
    requires room { length stub.old ≤ STREAM_LIMIT }
    ensures taken { IfOk result (λ t. IsWholeFragment want (before opening at stub.old)
        (source_over S.Source.seen source.old source.new) (before (Some t.opening) t.at stub.new) t.last) }
    ensures refused { IfErr result (IsFragmentCause want (before opening at stub.old)
        (source_over S.Source.seen source.old source.new)) }
    ensures later { (S.Source.seen source.old).faults ≤ (S.Source.seen source.new).faults }
{
    take(intake, source, at, 16)?;
    let common = check_common_fields(want, opening, at, intake.octets())?;
    take(intake, source, at + 16, common.header_length - 16)?;
    let stated = check_whole_header(
        want,
        opening,
        at,
        stub.as_slice().len(),
        common,
        intake.octets(),
    )?;
    take(
        intake,
        source,
        at + common.header_length,
        common.fragment_length - common.header_length,
    )?;
    add(stub, intake.octets())?;
    Ok(Taken {
        opening: stated,
        at: at + common.fragment_length,
        last: common.last,
    })
}

// Adds stub data.
fn add(stub: &mut Octets, part: &[u8]) -> Result<(), PduFault>
    ensures ok { OnOk result (stub.new ≡ stub.old ++ part.now) }
    ensures err { IfErr result (λ e. e ≡ PduFault.Memory) }
{
    match stub.append(part) {
        Ok(()) => Ok(()),
        Err(_) => Err(PduFault::Memory),
    }
}

// Fetches so many octets.
fn take<S: Source>(intake: &mut Intake, source: &mut S, at: u32, count: u32) -> Result<(), PduFault>
    requires small { at + count < 2 ^ 32 }
    ensures taken { IfOk result (λ _. IsTaken (source_over S.Source.seen source.old source.new) count intake.new) }
    ensures fault { IfErr result (IsTakeCause (source_over S.Source.seen source.old source.new) at count) }
    ensures later { (S.Source.seen source.old).faults ≤ (S.Source.seen source.new).faults }
{
    match intake.gap(source, at, count) {
        Ok(()) => Ok(()),
        Err(IntakeFault::Memory) => Err(PduFault::Memory),
        Err(IntakeFault::ReadFault) => Err(PduFault::ReadFault),
        Err(IntakeFault::TooLong) => unreachable!(),
        Err(IntakeFault::Truncated { place }) => Err(PduFault::Bad {
            place,
            reason: PduReason::Short,
        }),
    }
}
