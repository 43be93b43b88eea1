// Why values are not read on.

/// Why values are not read on.
#[derive(Clone, Copy, Debug)]
pub(crate) enum Stop {
    /// Out of memory.
    Memory,
    /// The next node is wrong, and so many nodes are left with it.
    At { left: usize },
}
