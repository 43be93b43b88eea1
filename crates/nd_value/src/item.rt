// Places in a graph, and the items of a stream.
use crate::CellId;

/// Where a value is as a whole: as a root, by its index from 0, or as the referent of pointers.
#[derive(Clone, Copy, Debug, PartialEq, Eq)]
pub enum Home {
    Root(u32),
    Cell(CellId),
}

/// What an item of a stream is.
#[derive(Clone, Copy, Debug, PartialEq, Eq)]
pub enum ItemKind {
    /// Octets of any value before an aligned primitive.
    Gap,
    /// The maximum count of a conformant array or string.
    Max,
    /// The offset of a varying array or string.
    Offset,
    /// The actual count of a varying array or string.
    Actual,
    /// The number of a pointer.
    Number,
    /// The tag of a union.
    Tag,
    /// A primitive or enumerated value.
    Num,
    /// The elements of a string, with its terminator.
    Text,
    /// A context handle.
    Context,
    /// The count of a pipe's chunk.
    Chunk,
}

/// An item of a stream: the octets from `at` on, `len` of them, and what they hold.
#[derive(Clone, Copy, Debug, PartialEq, Eq)]
pub struct Item {
    pub at: u32,
    pub len: u32,
    pub kind: ItemKind,
    /// The home that the item belongs to.
    pub home: Home,
    /// The node of that home, counted depth first from 0. A maximum count in front, a gap and a chunk's count have node 0.
    pub node: u32,
    /// The number that the octets hold: of a text its actual count, of a gap and a context handle 0.
    pub value: i128,
}
