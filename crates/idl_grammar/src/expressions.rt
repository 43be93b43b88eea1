// Expressions (C706, section 4.2.7).
use crate::words::{Identifier, Spelling};

/// A binary operator. Each level binds tighter than the one before it, and groups to the left.
#[derive(Clone, Copy, Debug, PartialEq, Eq)]
pub enum BinaryOperator {
    /// `||`
    LogicalOr,
    /// `&&`
    LogicalAnd,
    /// `|`
    Or,
    /// `^`
    ExclusiveOr,
    /// `&`
    And,
    /// `==`
    Equal,
    /// `!=`
    NotEqual,
    /// `<`
    Less,
    /// `>`
    Greater,
    /// `<=`
    LessEqual,
    /// `>=`
    GreaterEqual,
    /// `<<`
    ShiftLeft,
    /// `>>`
    ShiftRight,
    /// `+`
    Add,
    /// `-`
    Subtract,
    /// `*`
    Multiply,
    /// `/`
    Divide,
    /// `%`
    Remainder,
}

/// A unary operator.
#[derive(Clone, Copy, Debug, PartialEq, Eq)]
pub enum UnaryOperator {
    /// `+`
    Plus,
    /// `-`
    Minus,
    /// `~`
    Complement,
    /// `!`
    Not,
}

/// An operand of one token.
#[derive(Debug, Drop)]
pub enum Operand {
    /// A number.
    Number(Spelling),
    /// A character between its quotes.
    Character(Spelling),
    /// The name of a constant.
    Name(Identifier),
    /// `TRUE`, and the octet where it begins.
    True(u32),
    /// `FALSE`, and the octet where it begins.
    False(u32),
}

/// An expression. The octet `at` is the one where the operator or the bracket begins.
#[derive(Debug, Drop)]
pub enum Expr {
    /// One token.
    Leaf(Operand),
    /// An expression in round brackets.
    Round {
        at: u32,
        inner: Box<Expr>,
    },
    /// A unary operator and its operand.
    Unary {
        at: u32,
        operator: UnaryOperator,
        operand: Box<Expr>,
    },
    /// A binary operator between its operands.
    Binary {
        left: Box<Expr>,
        at: u32,
        operator: BinaryOperator,
        right: Box<Expr>,
    },
    /// `?:`, and the octet of the `?`.
    Conditional {
        condition: Box<Expr>,
        at: u32,
        then: Box<Expr>,
        otherwise: Box<Expr>,
    },
}
