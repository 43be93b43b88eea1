// Nodes that are read by their numbers.
use nd_value::CellId;
use uuid::Uuid;

/// The elements of an array or a pipe: `count` of them, of which the first `numbers` are numbers, in the list of numbers from the place `from` on.
/// The others are nodes.
#[derive(Clone, Copy, PartialEq, Drop)]
pub struct Elements {
    pub count: u32,
    pub numbers: u32,
    pub from: usize,
}

/// A node of a value. The nodes that are its parts follow it, depth first. A number is its low 64 bits in two's complement.
#[derive(Clone, Copy, PartialEq, Drop)]
pub enum Node {
    /// A number: a primitive, or an enumerated value.
    Number(u64),
    /// A struct, by its number of members.
    Struct(u32),
    /// An array: its maximum count, its offset and its elements.
    Array {
        max: u32,
        offset: u32,
        elements: Elements,
    },
    /// A string: its maximum count, and its octets without the terminator, which begin at the place `from` in the list of octets.
    Text {
        max: u32,
        from: usize,
        len: usize,
    },
    /// A union: its tag, and whether the selected arm has a value.
    Union {
        tag: u64,
        armed: bool,
    },
    /// A pointer: null, or the cell of its referent.
    Pointer(Option<CellId>),
    /// A context handle.
    Context {
        attributes: u32,
        id: Uuid,
    },
    /// The elements of a pipe.
    Pipe(Elements),
}
