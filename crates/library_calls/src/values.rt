// The numbers that are wanted and found.
ghost use Rattle.std.specs.Prelude.{◌≡◌};
ghost use Rattle.library_calls.specs.Causes.{wanted_of, found_of};
ghost use Rattle.library_calls.specs.Halves.{joined_halves};

use crate::Wide;
use command_refusals::{CompatFault, OctetsFault, Refusal};
use nd_base::STREAM_LIMIT;
use nd_grammar::Reason;
use nd_value::MisfitReason;

// The number that is wanted; 0 if the fault has none.
pub(crate) fn wanted(refusal: &Refusal) -> Wide
    ensures { joined_halves result ≡ wanted_of refusal.now }
{
    match refusal {
        Refusal::BadOctets {
            why: OctetsFault::Refused(Reason::Disagrees { wanted, .. }),
            ..
        }
        | Refusal::BadValue {
            reason: MisfitReason::Disagrees { wanted, .. },
            ..
        } => Wide::of(*wanted),
        Refusal::TooLong { .. } => Wide::of_unsigned(u128::from(STREAM_LIMIT)),
        Refusal::NotCompatible(CompatFault::OtherMajor { old, .. })
        | Refusal::NotCompatible(CompatFault::OlderMinor { old, .. }) => {
            Wide::of_unsigned(u128::from(*old))
        }
        Refusal::NotCompatible(CompatFault::Fewer { old, .. }) => {
            Wide::of_unsigned(u128::from(*old))
        }
        _ => Wide::of_unsigned(0),
    }
}

// The number that was found; 0 if the fault has none.
pub(crate) fn found(refusal: &Refusal) -> Wide
    ensures { joined_halves result ≡ found_of refusal.now }
{
    match refusal {
        Refusal::BadOctets {
            why: OctetsFault::Refused(Reason::Disagrees { found, .. }),
            ..
        }
        | Refusal::BadValue {
            reason: MisfitReason::Disagrees { found, .. },
            ..
        } => Wide::of(*found),
        Refusal::TooLong { length } => Wide::of_unsigned(*length),
        Refusal::NotCompatible(CompatFault::OtherMajor { new, .. })
        | Refusal::NotCompatible(CompatFault::OlderMinor { new, .. }) => {
            Wide::of_unsigned(u128::from(*new))
        }
        Refusal::NotCompatible(CompatFault::Fewer { new, .. }) => {
            Wide::of_unsigned(u128::from(*new))
        }
        _ => Wide::of_unsigned(0),
    }
}
