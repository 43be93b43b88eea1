// Where reading stops.
use nd_base::Memory;
use text_grammar::TextReason;

/// Why a text was not read on.
#[derive(Clone, Copy, Debug)]
pub enum Stop {
    /// Out of memory.
    Memory,
    /// What comes there is wrong, and with it only so many octets are left.
    At { left: usize, reason: TextReason },
}

impl From<Memory> for Stop {
    ghost use Rattle.std.specs.Prelude.{◌≡◌};
    ghost use Rattle.text_parser.specs.declared.stop.Stop.TheVariants as stop;

    ghost from_gives = { λ _ e. e ≡ stop.Memory };

    fn from(_: Memory) -> Stop {
        Stop::Memory
    }
}
