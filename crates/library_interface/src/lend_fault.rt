// Why files are not taken.
use thiserror::Error;

/// Why files are not taken.
#[derive(Clone, Copy, Debug, PartialEq, Eq, Error)]
pub enum LendFault {
    /// Out of memory.
    #[error("out of memory")]
    Memory,
    /// The name of a file is not UTF-8.
    #[error("the name of a file is not UTF-8")]
    BadName,
}
