// Why a stream is not drained.
ghost use Rattle.std.specs.Prelude.{◌≡◌};
ghost use Rattle.ndr_drain.specs.Faults.{fault_of};

use nd_grammar::Reason;
use ndr_drain_reader::DecodeFault;

/// Why a stream is not drained.
#[derive(Clone, Copy, Debug, PartialEq, Eq)]
pub enum DrainFault {
    /// Out of memory.
    Memory,
    /// The source failed.
    ReadFault,
    /// The octets are refused at this place, for this reason.
    Bad { place: u32, reason: Reason },
    /// The end of this number, from 0, failed: it is the end of the pipe that was being read.
    EndFailed { which: u32 },
    /// The side has more pipes than there are ends.
    TooFewEnds { wanted: u32, found: u32 },
}

// Why lines are not given whole.
#[derive(Clone, Copy, Debug, PartialEq, Eq)]
pub(crate) enum GiveFault {
    // Out of memory.
    Memory,
    // The end failed.
    End,
}

// The fault of an intake, as a drain answers it.
pub(crate) fn drain_fault(fault: DecodeFault) -> DrainFault
    ensures { result ≡ fault_of fault }
{
    match fault {
        DecodeFault::Memory => DrainFault::Memory,
        DecodeFault::ReadFault => DrainFault::ReadFault,
        DecodeFault::Bad { place, reason } => DrainFault::Bad { place, reason },
    }
}
