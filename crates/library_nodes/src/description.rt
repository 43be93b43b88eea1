// What nodes say of themselves, in numbers that cross to C.
ghost use Rattle.std.specs.Prelude.{◌≡◌};
ghost use Rattle.library_nodes.specs.Described.{described, plain, with_elements, with_octets, cell_in};

use crate::node::{Elements, Node};
use nd_value::CellId;

/// What a node says of itself. What does not apply to its kind is 0.
#[repr(C)]
#[derive(Clone, Copy, PartialEq, Drop)]
pub struct Description {
    /// 1 for a number, 2 for a struct, 3 for an array, 4 for a string, 5 for a union, 6 for a pointer, 7 for a context handle, 8 for a pipe.
    pub kind: u32,
    /// How many parts are nodes.
    pub parts: u32,
    /// How many elements an array or a pipe has.
    pub count: u32,
    /// How many of these are numbers, which are no nodes.
    pub numbers: u32,
    /// The maximum count of an array or a string.
    pub max: u32,
    /// The offset of an array.
    pub offset: u32,
    /// A number, the tag of a union, the cell of a pointer, or the attributes of a context handle.
    pub number: u64,
    /// How many octets a string or an identifier has.
    pub length: usize,
}

// A node of a kind, which has so many parts and a number.
fn plain(kind: u32, parts: u32, number: u64) -> Description
    ensures { result ≡ plain kind parts number }
{
    Description {
        kind,
        parts,
        count: 0,
        numbers: 0,
        max: 0,
        offset: 0,
        number,
        length: 0,
    }
}

// An array or a pipe.
fn with_elements(kind: u32, max: u32, offset: u32, elements: &Elements) -> Description
    ensures { result ≡ with_elements kind max offset elements.now }
{
    Description {
        kind,
        parts: elements.count.saturating_sub(elements.numbers),
        count: elements.count,
        numbers: elements.numbers,
        max,
        offset,
        number: 0,
        length: 0,
    }
}

// A node that has octets.
fn with_octets(kind: u32, max: u32, number: u64, length: usize) -> Description
    ensures { result ≡ with_octets kind max number length }
{
    Description {
        kind,
        parts: 0,
        count: 0,
        numbers: 0,
        max,
        offset: 0,
        number,
        length,
    }
}

// The number of a cell; 0 of none.
fn cell_of(cell: Option<CellId>) -> u64
    ensures { result ≡ cell_in cell }
{
    match cell {
        Some(cell) => u64::from(cell.0),
        None => 0,
    }
}

impl Node {
    /// What the node says of itself. Takes no memory.
    pub fn describe(&self) -> Description
        ensures { result ≡ described self.now }
    {
        match self {
            Node::Number(number) => plain(1, 0, *number),
            Node::Struct(count) => plain(2, *count, 0),
            Node::Array {
                max,
                offset,
                elements,
            } => with_elements(3, *max, *offset, elements),
            Node::Text { max, len, .. } => with_octets(4, *max, 0, *len),
            Node::Union { tag, .. } => plain(5, self.part_count(), *tag),
            Node::Pointer(cell) => plain(6, 0, cell_of(*cell)),
            Node::Context { attributes, .. } => with_octets(7, 0, u64::from(*attributes), 16),
            Node::Pipe(elements) => with_elements(8, 0, 0, elements),
        }
    }
}
