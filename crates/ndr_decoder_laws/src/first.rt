// Members of structs that are open.

/// What the agreements of a struct find in the first node of a member. `place` is where its actual count or its tag is in the stream, if it has one;
/// an offset comes four octets before an actual count.
#[derive(Clone, Copy, Debug, PartialEq, Eq)]
pub enum First {
    /// A number: a primitive, or an enumerated value.
    Number(i128),
    /// A pointer: the agreements speak of its referent.
    Pointer,
    /// An array or a string: its maximum count, offset and actual count, of a string with the terminator.
    Counted {
        max: u32,
        offset: u32,
        actual: u32,
        place: Option<u32>,
    },
    /// A union: its tag.
    Tag {
        tag: i128,
        place: Option<u32>,
    },
    /// Any other: no agreement speaks of it.
    Other,
}

/// A member that was read or is being read: the number of its first node, and how many referents were pending before it.
#[derive(Clone, Copy, Debug, PartialEq, Eq)]
pub struct Member {
    pub node: u32,
    pub pending: usize,
}
