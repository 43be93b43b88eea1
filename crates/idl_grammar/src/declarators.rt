// Declarators and the values of constants (C706, sections 4.2.7 and 4.2.8).
use crate::expressions::Expr;
use crate::words::{Identifier, Spelling};

/// What is between the square brackets of a dimension.
#[derive(Debug, Drop)]
pub enum Bound {
    /// `*`
    Star,
    /// The number of elements.
    Count(Expr),
    /// The least index, and `*`.
    From(Expr),
    /// The least index and the greatest.
    Between(Expr, Expr),
}

/// A name with its stars and dimensions.
#[derive(Debug, Drop)]
pub struct Declarator {
    /// The octet of each `*`.
    pub stars: Vec<u32>,
    /// The name.
    pub name: Identifier,
    /// The dimensions, from the outermost one; without a bound where the brackets are empty.
    pub dimensions: Vec<Option<Bound>>,
}

/// The value of a constant.
#[derive(Debug, Drop)]
pub enum Init {
    /// A string with its quotes.
    Text(Spelling),
    /// `NULL`, and the octet where it begins.
    Null(u32),
    /// An expression.
    Value(Expr),
}
