// Why a value text cannot be read.
use thiserror::Error;

/// Why a text is that of no graph.
#[derive(Clone, Copy, Debug, PartialEq, Eq)]
pub enum TextReason {
    /// The text has more than 536,870,912 octets. It is tried first, and reported at line 1, column 1.
    TooLong,
    /// No token begins there.
    BadToken,
    /// The grammar has another token there, or goes on where the text ends.
    Expected,
    /// A name other than that of the operation, side, root or member that is due.
    OtherName,
    /// The line of a cell that has not the next number.
    OutOfOrder,
    /// The line of a cell that no pointer before it names.
    Unnamed,
}

/// Why a text was not read.
#[derive(Debug, Drop, Error)]
pub enum TextFault {
    /// Out of memory.
    #[error("out of memory")]
    Memory,
    /// The first token with which the text begins that of no graph, or the end if the text ends too early: its line and its column,
    /// both from 1. Columns count octets, and only a line feed ends a line.
    #[error("{reason:?} at {line}:{column}")]
    At {
        line: u32,
        column: u32,
        reason: TextReason,
    },
}
