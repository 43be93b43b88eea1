// What names stand for.

/// What a name stands for (C706, sections 4.2.6 to 4.2.11).
#[derive(Clone, Copy, Debug, PartialEq, Eq)]
pub enum Meaning {
    /// A type.
    Type,
    /// A constant with a number, or an enumerator.
    Number(i128),
    /// A constant that is a string or `NULL`, or an operation.
    Other,
}
