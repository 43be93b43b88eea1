// What the items of a node say of it.
ghost use Rattle.std.specs.Prelude.{◌≡◌, ◌<◌, ◌^◌};
ghost use Rattle.nd_flat.specs.FlatForm.{flat_seen};
ghost use Rattle.ndr_trace_value.specs.Walking.{flat_shape};

use nd_flat::Seen;
use nd_value::CellId;

/// What the items of a node say of it, as far as its children go by it.
#[derive(Clone, Copy, Drop)]
pub enum Shape {
    /// A number: a primitive, or an enumerated value.
    Num(i128),
    /// A struct, whose members are known by its type.
    Rec,
    /// An array: its maximum count, its offset and its number of elements.
    Arr { max: u32, offset: u32, count: u32 },
    /// A union: its tag, and whether the selected arm has a value, which follows.
    Union { tag: i128, armed: bool },
    /// A pointer: null, or the cell of its referent.
    Ptr(Option<CellId>),
    /// A string or a context handle, which has no children.
    Leaf,
}

/// The node of a shape, as an explanation walks over it: of a string or a context handle it is one without children.
pub(crate) fn as_seen<'n>(shape: Shape) -> Seen<'n>
    ensures is { flat_seen result ≡ flat_shape shape }
    ensures few { (flat_shape shape).1 < 2 ^ 32 }
{
    match shape {
        Shape::Num(value) => Seen::Num(value),
        Shape::Rec => Seen::Rec(0),
        Shape::Arr { max, offset, count } => Seen::Arr { max, offset, count },
        Shape::Union { tag, armed } => Seen::Union { tag, armed },
        Shape::Ptr(cell) => Seen::Ptr(cell),
        Shape::Leaf => Seen::Ptr(None),
    }
}
