// Which PDUs are read or made, what is joined, and why fragments are refused.

use nd_base::{Octets, Order};
use thiserror::Error;

/// Which PDUs are read: those of a request or those of a response (C706 sections 12.6.4.9 and 12.6.4.10).
#[derive(Clone, Copy, Debug, PartialEq, Eq)]
pub enum Wanted {
    /// PDUs of type 0.
    Request,
    /// PDUs of type 2.
    Response,
}

/// Why fragments are refused. The first that applies along the octets is reported.
#[derive(Clone, Copy, Debug, PartialEq, Eq)]
pub enum PduReason {
    /// The octets end before the next fragment is whole.
    Short,
    /// The major version is not 5.
    Version,
    /// The PDU type is not the wanted one.
    Kind,
    /// The flag of a first fragment is missing on the first fragment, or is on a later one.
    Flags,
    /// The format label is refused (C706 section 14.1).
    Label,
    /// The format label states another order of octets than that of the first fragment.
    OtherOrder,
    /// The fragment length is less than that of the header.
    Length,
    /// The authentication length is not 0.
    Auth,
    /// The call id is not that of the first fragment.
    OtherCall,
    /// The operation number is not that of the first fragment.
    OtherOperation,
    /// A fragment that is not the last has no stub data.
    EmptyPiece,
    /// The stub data would be longer than a stream may be.
    StubLong,
}

/// Why fragments were not joined.
#[derive(Clone, Copy, Debug, PartialEq, Eq, Error)]
pub enum PduFault {
    /// An allocation failed.
    #[error("out of memory")]
    Memory,
    /// The source failed.
    #[error("read failed")]
    ReadFault,
    /// The octets are refused at this place.
    #[error("a PDU is refused at {place}")]
    Bad { place: u32, reason: PduReason },
}

/// What the first fragment of a call states for all of them.
#[derive(Clone, Copy, Debug, PartialEq, Eq)]
pub(crate) struct Opening {
    pub(crate) order: Order,
    pub(crate) call: u32,
    pub(crate) opnum: Option<u16>,
}

/// The fragments of a call, joined.
#[derive(Debug, Drop)]
pub struct Joined {
    /// The order of octets that the format label of the first fragment states.
    pub order: Order,
    /// The call id.
    pub call: u32,
    /// The operation number of a request, and none for a response.
    pub opnum: Option<u16>,
    /// The stub data of the fragments, end to end.
    pub stub: Octets,
    /// How many octets the fragments have.
    pub taken: u32,
}

/// Which PDUs stub data are split into.
#[derive(Clone, Copy, Debug, PartialEq, Eq)]
pub enum Head {
    /// Those of a request to the operation of this number.
    Request { opnum: u16 },
    /// Those of a response.
    Response,
}
