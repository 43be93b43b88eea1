// What a step comes to.
ghost use Rattle.std.specs.Prelude.{◌≡◌};

use nd_base::Memory;
use nd_grammar::Reason;
use thiserror::Error;

/// Why a stream was not decoded.
#[derive(Clone, Copy, Debug, PartialEq, Eq, Error)]
pub enum DecodeFault {
    /// An allocation failed.
    #[error("out of memory")]
    Memory,
    /// The source failed.
    #[error("read failed")]
    ReadFault,
    /// No stream of the operation's values begins the octets. `place` is counted from 0 at the beginning of the stream.
    #[error("refused at {place}")]
    Bad { place: u32, reason: Reason },
}

impl From<Memory> for DecodeFault {
    ghost use Rattle.std.specs.Prelude.{◌≡◌};
    ghost use Rattle.ndr_decoder_state.specs.declared.fault.DecodeFault.TheVariants as fault;

    ghost from_gives = { λ _ e. e ≡ fault.Memory };

    fn from(_: Memory) -> DecodeFault {
        DecodeFault::Memory
    }
}

/// What a step that was not refused comes to.
#[derive(Clone, Copy, Debug, PartialEq, Eq)]
pub enum Progress {
    /// There is more of the value.
    More,
    /// The value of the home is whole.
    Whole,
}
