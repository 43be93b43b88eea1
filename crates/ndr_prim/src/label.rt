// The format label (C706 section 14.1).
ghost use Rattle.std.specs.Prelude.{◌≡◌};
ghost use Rattle.ndr_prim.specs.Label.{order_of_label};

use nd_base::Order;
use thiserror::Error;

/// Why a format label is refused.
#[derive(Clone, Copy, Debug, PartialEq, Eq, Error)]
pub enum LabelFault {
    /// The integer representation is neither big endian nor little endian.
    #[error("the label has no known integer representation")]
    BadOrder,
    /// The character representation is EBCDIC.
    #[error("the label asks for EBCDIC")]
    Ebcdic,
    /// The character representation is neither ASCII nor EBCDIC.
    #[error("the label has no known character representation")]
    BadCharset,
}

/// The order of octets that a format label states (C706 section 14.1). Only its octet 0 counts: the high half is
/// the integer representation, 0 for big endian and 1 for little endian, and the low half the character
/// representation, which must be 0, ASCII. A bad integer representation is answered first. Takes no memory.
pub fn read_label(label: &[u8; 4]) -> Result<Order, LabelFault>
    ensures { result ≡ order_of_label label.now }
{
    let [first, ..] = *label;
    let order = match first >> 4 {
        0 => Order::Big,
        1 => Order::Little,
        _ => return Err(LabelFault::BadOrder),
    };
    match first & 0x0f {
        0 => Ok(order),
        1 => Err(LabelFault::Ebcdic),
        _ => Err(LabelFault::BadCharset),
    }
}
