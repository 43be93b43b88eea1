// The line of fragments that are refused.
ghost use Rattle.std.specs.Prelude.{◌≡◌, [], ◌∷◌, codes, decimal, IfOk};
ghost use Rattle.nd_base.specs.Text.{joined};
ghost use Rattle.command_refusals.specs.declared.refusal.Refusal.TheVariants.{BadPdu};
ghost use Rattle.command_refusals.specs.Lines.{line_of, fragments_fault_text, no_operation_text, pdu_reason_name as name_of_pdu_reason};

use crate::refusal::FragmentsFault;
use itoa::Buffer;
use nd_base::text::join;
use nd_base::{Memory, Octets};
use rpc_pdu::PduReason;
use std::alloc::Global;

// Fragments that are refused at a place.
pub(crate) fn fragments_line(
    alloc: Global,
    place: u32,
    why: FragmentsFault,
) -> Result<Octets, Memory>
    ensures { IfOk result (λ line. line ≡ line_of [] [] (BadPdu place why)) }
{
    let why = why_refused(alloc, why)?;
    let mut digits = Buffer::new();
    let place = digits.format(place).as_bytes();
    join(
        alloc,
        &[b"refused: pdu at ", place, b": ", why.as_slice(), b"\n"],
    )
}

// Why fragments are refused, as a line reports it.
fn why_refused(alloc: Global, why: FragmentsFault) -> Result<Octets, Memory>
    ensures { IfOk result (λ text. text ≡ fragments_fault_text why) }
{
    match why {
        FragmentsFault::Refused(reason) => Octets::copy(alloc, pdu_reason_name(reason).as_bytes()),
        FragmentsFault::Trailing => Octets::copy(alloc, b"Trailing"),
        FragmentsFault::NoOperation(number) => no_operation(alloc, number),
    }
}

// An operation number that the interface does not have.
fn no_operation(alloc: Global, number: u16) -> Result<Octets, Memory>
    ensures { IfOk result (λ text. text ≡ no_operation_text number) }
{
    let mut digits = Buffer::new();
    join(alloc, &[b"NoOperation ", digits.format(number).as_bytes()])
}

// The name of a reason why fragments are refused.
fn pdu_reason_name(reason: PduReason) -> &'static str
    ensures { result.now ≡ name_of_pdu_reason reason }
{
    match reason {
        PduReason::Short => "Short",
        PduReason::Version => "Version",
        PduReason::Kind => "Kind",
        PduReason::Flags => "Flags",
        PduReason::Label => "Label",
        PduReason::OtherOrder => "OtherOrder",
        PduReason::Length => "Length",
        PduReason::Auth => "Auth",
        PduReason::OtherCall => "OtherCall",
        PduReason::OtherOperation => "OtherOperation",
        PduReason::EmptyPiece => "EmptyPiece",
        PduReason::StubLong => "StubLong",
    }
}
