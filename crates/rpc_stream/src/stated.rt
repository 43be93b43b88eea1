// What octets begin with.

/// Why octets are not a PDU. Nothing then says where the next PDU begins.
#[derive(Clone, Copy, Debug, PartialEq, Eq)]
pub enum StreamReason {
    /// The major version is not 5.
    Version,
    /// The format label is refused (C706 section 14.1).
    Label,
    /// The fragment length is less than the 16 octets of the header that all PDUs have.
    Length,
}

/// What octets begin with (C706 section 12.6.3.1).
#[derive(Clone, Copy, Debug, PartialEq, Eq)]
pub enum First {
    /// A part of a PDU, or nothing.
    Waiting,
    /// A PDU of this many octets.
    Whole { length: u32 },
    /// No PDU: why, and the place, in octets from the first.
    Wrong { place: u32, reason: StreamReason },
}
