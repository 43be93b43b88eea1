// What is prepared for the encoding of a graph.
ghost use Rattle.std.specs.Prelude.{◌≡◌};

use nd_base::Memory;
use ndr_encoder_value::Turn;
use std::marker::Model;
use thiserror::Error;

/// Why no work is made.
#[derive(Clone, Copy, Debug, PartialEq, Eq, Error)]
pub enum EncodeFault {
    /// Out of memory.
    #[error("out of memory")]
    Memory,
    /// The octets would be more than a stream may have: so many.
    #[error("the stream would have {length} octets")]
    TooLong { length: u128 },
}

impl From<Memory> for EncodeFault {
    ghost use Rattle.std.specs.Prelude.{◌≡◌};
    ghost use Rattle.ndr_encode.specs.declared.work.EncodeFault.TheVariants as faults;

    ghost from_gives = { λ _ e. e ≡ faults.Memory };

    fn from(_: Memory) -> EncodeFault {
        EncodeFault::Memory
    }
}

/// What is prepared for the encoding of a graph: the homes in the order of the stream, the numbers of the cells, the length of the octets, and the
/// greatest count of a chunk. It can be used as often as needed, in either order of octets.
#[derive(Drop)]
pub struct Work {
    pub(crate) turns: Vec<Turn>,
    pub(crate) numbers: Vec<u32>,
    pub(crate) length: u32,
    pub(crate) chunk: u32,
}

impl Model for Work {
    ghost use Rattle.ndr_encode.specs.Work.{WorkSeen, work_code};

    ghost Value = { WorkSeen };

    ghost coded = { work_code };

    ghost view = { λ w. record { turns = w.turns.items; numbers = w.numbers.items; length = w.length; chunk = w.chunk } };
}

impl Work {
    /// The number of octets that `encode_with` writes. Takes no memory.
    pub fn length(&self) -> u32
        ensures { result ≡ self.now.length }
    {
        self.length
    }
}
