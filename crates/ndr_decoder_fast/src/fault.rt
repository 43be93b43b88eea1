// Why steps that are taken in one go fail.
ghost use Rattle.std.specs.Prelude.{◌≡◌};

use nd_base::Memory;
use nd_grammar::Reason;
use ndr_decoder_state::DecodeFault;

/// Why steps that are taken in one go fail. It is small, and a `DecodeFault` is made of it where decoding ends.
#[derive(Clone, Copy, Debug, PartialEq, Eq)]
pub enum LeapFault {
    /// An allocation failed.
    Memory,
    /// The octets of a string are refused. `place` is counted from 0 at the beginning of the stream.
    Bad { place: u32, why: TextReason },
}

/// Why octets of a string are refused: the reasons of `Reason` with these names.
#[derive(Clone, Copy, Debug, PartialEq, Eq)]
pub enum TextReason {
    PastBound,
    TextOffset,
    TextEmpty,
    TextUnended,
    TextZero,
}

impl From<Memory> for LeapFault {
    ghost use Rattle.std.specs.Prelude.{◌≡◌};
    ghost use Rattle.ndr_decoder_fast.specs.declared.fault.LeapFault.TheVariants as leap;

    ghost from_gives = { λ _ e. e ≡ leap.Memory };

    fn from(_: Memory) -> LeapFault {
        LeapFault::Memory
    }
}

impl From<LeapFault> for DecodeFault {
    ghost use Rattle.std.specs.Prelude.{◌≡◌};
    ghost use Rattle.ndr_decoder_fast.specs.Faults.{fault_of};

    ghost from_gives = { λ f e. e ≡ fault_of f };

    #[inline(never)]
    fn from(fault: LeapFault) -> DecodeFault {
        match fault {
            LeapFault::Memory => DecodeFault::Memory,
            LeapFault::Bad { place, why } => DecodeFault::Bad {
                place,
                reason: reason_of(why),
            },
        }
    }
}

// The reason of this name.
pub fn reason_of(why: TextReason) -> Reason
    ensures { result ≡ reason_by why }
{
    match why {
        TextReason::PastBound => Reason::PastBound,
        TextReason::TextOffset => Reason::TextOffset,
        TextReason::TextEmpty => Reason::TextEmpty,
        TextReason::TextUnended => Reason::TextUnended,
        TextReason::TextZero => Reason::TextZero,
    }
}

ghost use Rattle.ndr_decoder_fast.specs.Faults.{reason_of as reason_by};
