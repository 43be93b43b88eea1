// Why octets are refused.

/// Why octets are no stream of the operation's values. The first that applies along the stream is reported.
#[derive(Clone, Copy, Debug, PartialEq, Eq)]
pub enum Reason {
    /// The octets end before the next gap or primitive is whole.
    Truncated,
    /// The next primitive would end past the limit of a stream.
    TooLong,
    /// An enumerated value or tag is none of the enumerators.
    EnumValue,
    /// Offset and actual count end past the maximum count.
    PastBound,
    /// The offset of a string is not 0.
    TextOffset,
    /// The actual count of a string is 0.
    TextEmpty,
    /// The last element of a string is not zero.
    TextUnended,
    /// An earlier element of a string is zero.
    TextZero,
    /// A tag selects no arm, and there is no default.
    NoArm,
    /// A full pointer's number already names a referent of another type.
    OtherType,
    /// An attribute states another number than was found.
    Disagrees { wanted: i128, found: i128 },
}
