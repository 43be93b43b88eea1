// What a comparison of two interfaces comes to.
use crate::TypePairs;

/// What a comparison of an old interface with a new one comes to.
#[derive(Drop)]
pub enum Compared {
    /// The streams of the old operations are the streams of the new ones.
    Yes {
        /// Each type that an old operation reaches, with its partner.
        pairs: TypePairs,
    },
    /// The UUIDs differ, or one interface has none.
    OtherUuid,
    /// The major versions differ.
    OtherMajor {
        old: u16,
        new: u16,
    },
    /// The new minor version is less than the old one.
    OlderMinor {
        old: u16,
        new: u16,
    },
    /// The new interface has fewer operations.
    Fewer {
        old: u32,
        new: u32,
    },
    /// The old operation of this number is the first that differs from the new one.
    Differs {
        op: u32,
    },
}
