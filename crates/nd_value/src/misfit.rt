// Why a graph does not conform.
use crate::Home;
use nd_base::Memory;
use thiserror::Error;

/// Why a graph does not conform at a place.
#[derive(Clone, Copy, Debug, PartialEq, Eq)]
pub enum MisfitReason {
    /// The value has not the form of its type (the variant, a struct's number of members, whether a union's arm is there), its
    /// cell's type is none of the interface, or there are too few or too many roots.
    Shape,
    /// A number or tag is no value of its type.
    Range,
    /// A reference pointer is null.
    NullRef,
    /// A pointer names a cell that is not there.
    NoCell,
    /// A pointer names a cell of another type than its referent's.
    CellType,
    /// Maximum count, offset or number of elements have not the form of the type, or end past the maximum count.
    Bound,
    /// A text holds a zero octet.
    Zero,
    /// A union's tag selects no arm.
    NoArm,
    /// A pointer names a cell that an earlier pointer names, and not both are full.
    Shared,
    /// No root and no cell that is reached names the cell.
    Unreached,
    /// An attribute states another number than is there.
    Disagrees { wanted: i128, found: i128 },
}

/// Why a graph is no fit.
#[derive(Clone, Copy, Debug, PartialEq, Eq, Error)]
pub enum Misfit {
    /// Out of memory.
    #[error("out of memory")]
    Memory,
    /// The graph does not conform, and this is its first misfit: the home and its node, counted depth first from 0, and why.
    #[error("{reason:?} at node {node} of {home:?}")]
    At {
        home: Home,
        node: u32,
        reason: MisfitReason,
    },
}

impl From<Memory> for Misfit {
    ghost use Rattle.std.specs.Prelude.{◌≡◌};
    ghost use Rattle.nd_value.specs.declared.misfit.Misfit.TheVariants as answer;

    ghost from_gives = { λ _ e. e ≡ answer.Memory };

    fn from(_: Memory) -> Misfit {
        Misfit::Memory
    }
}

/// A misfit in a home: the number of its node, counted depth first from 0, and why.
#[derive(Clone, Copy, Debug, PartialEq, Eq)]
pub struct NodeMisfit {
    pub node: u32,
    pub reason: MisfitReason,
}
