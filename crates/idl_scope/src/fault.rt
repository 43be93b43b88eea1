// Why an expression has no value.
use thiserror::Error;

/// Why a constant expression has no value (C706, section 4.2.7).
#[derive(Clone, Copy, Debug, PartialEq, Eq, Error)]
pub enum ConstFault {
    /// The value of an operator is below -2^63 or above 2^64 - 1, or a shift is by less than 0 or more than 63 places;
    /// or a number is no token of IDL, as in no tree of a text.
    #[error("out of range")]
    OutOfRange,
    /// A divisor is 0.
    #[error("division by zero")]
    ZeroDivisor,
    /// A name stands for no number.
    #[error("not a constant")]
    NotConst,
}

/// Why a constant expression has no value, and where that shows.
#[derive(Clone, Copy, Debug, PartialEq, Eq, Error)]
#[error("{fault} at octet {at}")]
pub struct ValueFault {
    /// The octet where the operator or the name begins.
    pub at: u32,
    /// The reason.
    pub fault: ConstFault,
}

/// Why an expression is refused.
#[derive(Clone, Copy, Debug, PartialEq, Eq, Error)]
pub enum ExpressionFault {
    /// A name is not known, evaluated or not.
    #[error("unknown name at octet {at}")]
    Unknown { at: u32 },
    /// It has no value.
    #[error("{0}")]
    Const(ValueFault),
}
