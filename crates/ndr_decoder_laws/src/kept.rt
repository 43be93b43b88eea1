// What is kept of the homes that were read.
use crate::First;
use nd_value::CellId;

/// What is kept of a home for the agreements that are about it: its first node, and the place of the maximum count before it, if it has one.
#[derive(Clone, Copy, Debug, PartialEq, Eq)]
pub struct Kept {
    pub first: First,
    pub max_at: Option<u32>,
}

/// What is kept of a root: of its own value, and the cell that it names, if it is a pointer.
#[derive(Clone, Copy, Debug, PartialEq, Eq)]
pub struct KeptRoot {
    pub own: Kept,
    pub cell: Option<CellId>,
}

impl Default for KeptRoot {
    fn default() -> KeptRoot {
        KeptRoot {
            own: Kept {
                first: First::Other,
                max_at: None,
            },
            cell: None,
        }
    }
}
