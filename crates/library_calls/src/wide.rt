// Numbers of 128 bits in two halves.
ghost use Rattle.std.specs.Prelude.{◌≡◌};
ghost use Rattle.std.specs.Int.{w128, cast_signed, cast_unsigned};
ghost use Rattle.library_calls.specs.Halves.{joined_halves};

/// A number of 128 bits in two's complement: `low` has its lower 64 bits, and `high` its upper ones.
#[repr(C)]
#[derive(Clone, Copy, Debug, PartialEq, Eq)]
pub struct Wide {
    pub low: u64,
    pub high: u64,
}

impl Wide {
    /// An unsigned number. Takes no memory.
    pub fn of_unsigned(number: u128) -> Wide
        ensures { joined_halves result ≡ number }
    {
        Wide {
            low: (number % (1 << 64)) as u64,
            high: (number / (1 << 64)) as u64,
        }
    }

    /// A signed number. Takes no memory.
    pub fn of(number: i128) -> Wide
        ensures { joined_halves result ≡ cast_unsigned w128 number }
    {
        Wide::of_unsigned(number.cast_unsigned())
    }

    /// The signed number. Takes no memory.
    pub fn number(self) -> i128
        ensures { result ≡ cast_signed w128 (joined_halves self) }
    {
        let bits = u128::from(self.low) + (u128::from(self.high) << 64);
        bits.cast_signed()
    }
}
