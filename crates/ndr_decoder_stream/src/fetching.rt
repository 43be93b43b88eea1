// The octets of the gap and of the count of a chunk.
ghost use Rattle.std.specs.Prelude.{◌≡◌, ◌≤◌};
ghost use Rattle.std.specs.Io.KnownBytes.{Consumes};
ghost use Rattle.nd_base.specs.Over.{source_over};
ghost use Rattle.nd_base.specs.declared.TheConstants.{STREAM_LIMIT};
ghost use Rattle.nd_types.specs.Number.{AreOctets};
ghost use Rattle.ndr_decoder_stream.specs.Fetched.{CountCame, GapCame, stream_answer};

use nd_base::{Intake, IntakeFault, STREAM_LIMIT as LIMIT, Source};
use nd_grammar::Reason;
use ndr_decoder_state::{DecodeFault, gap_before};

// Fetches the gap before a count.
pub(crate) fn fetch_gap<S: Source>(
    at: u32,
    intake: &mut Intake,
    source: &mut S,
) -> Result<(), DecodeFault>
    requires near { at ≤ STREAM_LIMIT }
    ensures came { GapCame at (source_over S.Source.seen source.old source.new) intake.new result }
    ensures octets { AreOctets intake.new }
    ensures left { Consumes (S.Source.seen source.old).left (S.Source.seen source.new).left intake.new }
    ensures later { (S.Source.seen source.old).faults ≤ (S.Source.seen source.new).faults }
{
    let came = intake.gap(source, at, gap_before(at, 4));
    are_octets(intake.octets());
    fetched(came)
}

// Fetches a count.
pub(crate) fn fetch_count<S: Source>(
    at: u32,
    intake: &mut Intake,
    source: &mut S,
) -> Result<(), DecodeFault>
    requires near { at ≤ STREAM_LIMIT }
    ensures came { CountCame at (source_over S.Source.seen source.old source.new) intake.new result }
    ensures octets { AreOctets intake.new }
    ensures left { Consumes (S.Source.seen source.old).left (S.Source.seen source.new).left intake.new }
    ensures later { (S.Source.seen source.old).faults ≤ (S.Source.seen source.new).faults }
{
    let came = intake.item(source, at, 4);
    are_octets(intake.octets());
    fetched(came)
}

// Octets are numbers below 256.
fn are_octets(octets: &[u8])
    ensures { AreOctets octets.now }
{}

// What a fault of the intake says of a stream.
fn fetched(answer: Result<(), IntakeFault>) -> Result<(), DecodeFault>
    ensures { result ≡ stream_answer answer }
{
    match answer {
        Ok(()) => Ok(()),
        Err(IntakeFault::Memory) => Err(DecodeFault::Memory),
        Err(IntakeFault::ReadFault) => Err(DecodeFault::ReadFault),
        Err(IntakeFault::TooLong) => Err(DecodeFault::Bad {
            place: LIMIT,
            reason: Reason::TooLong,
        }),
        Err(IntakeFault::Truncated { place }) => Err(DecodeFault::Bad {
            place,
            reason: Reason::Truncated,
        }),
    }
}
