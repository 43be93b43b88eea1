// What operators give, in whole numbers (C706, section 4.2.7).
ghost use Rattle.std.specs.Prelude.{◌≡◌, ◌≤◌, ◌^◌, pos};
ghost use Rattle.idl_scope.specs.Value as operators;
ghost use Rattle.idl_scope.specs.Checked.{checked, places_of};

use crate::whole::{
    are_equal, bits_in_both, bits_in_either, bits_in_one, complement, is_in_range, is_zero, truth,
};
use crate::{ConstFault, ValueFault};
use idl_grammar::{BinaryOperator, UnaryOperator};

/// The greatest number of places of a shift.
const SHIFT_LIMIT: i128 = 63;

fn out_of_range(at: u32) -> ValueFault
    ensures { result ≡ operators.fault_at ConstFault.OutOfRange at }
{
    ValueFault {
        at,
        fault: ConstFault::OutOfRange,
    }
}

/// An operator's value, which has to be in range. None is a value that 128 bits do not hold.
pub(crate) fn in_range(at: u32, value: Option<i128>) -> Result<i128, ValueFault>
    ensures { result ≡ checked at value }
{
    match value {
        Some(value) if is_in_range(value) => Ok(value),
        _ => Err(out_of_range(at)),
    }
}

/// The value of the unary operator at an octet.
pub(crate) fn unary_value(
    at: u32,
    operator: UnaryOperator,
    operand: i128,
) -> Result<i128, ValueFault>
    ensures { result ≡ operators.in_range at (operators.unary_value operator operand) }
{
    match operator {
        UnaryOperator::Plus => in_range(at, Some(operand)),
        UnaryOperator::Minus => in_range(at, operand.checked_neg()),
        UnaryOperator::Complement => in_range(at, Some(complement(operand))),
        UnaryOperator::Not => in_range(at, Some(truth(is_zero(operand)))),
    }
}

/// How many places a shift is by, where it is by 0 to 63.
fn places(count: i128) -> Option<u32>
    ensures { result ≡ places_of count }
{
    if count < 0 || count > SHIFT_LIMIT {
        return None;
    }
    Some(count as u32)
}

/// 2 to a power.
fn power_of_two(places: u32) -> i128
    requires { places ≤ 63 }
    ensures { result ≡ pos (2 ^ places) }
{
    1 << places
}

fn shift_left(at: u32, value: i128, count: i128) -> Result<i128, ValueFault>
    ensures { result ≡ operators.binary_value at BinaryOperator.ShiftLeft value count }
{
    match places(count) {
        Some(places) => in_range(at, value.checked_mul(power_of_two(places))),
        None => Err(out_of_range(at)),
    }
}

fn shift_right(at: u32, value: i128, count: i128) -> Result<i128, ValueFault>
    ensures { result ≡ operators.binary_value at BinaryOperator.ShiftRight value count }
{
    match places(count) {
        Some(places) => in_range(at, Some(value >> places)),
        None => Err(out_of_range(at)),
    }
}

fn divide(at: u32, dividend: i128, divisor: i128) -> Result<i128, ValueFault>
    ensures { result ≡ operators.binary_value at BinaryOperator.Divide dividend divisor }
{
    if is_zero(divisor) {
        return Err(ValueFault {
            at,
            fault: ConstFault::ZeroDivisor,
        });
    }
    in_range(at, dividend.checked_div(divisor))
}

fn remainder(at: u32, dividend: i128, divisor: i128) -> Result<i128, ValueFault>
    ensures { result ≡ operators.binary_value at BinaryOperator.Remainder dividend divisor }
{
    if is_zero(divisor) {
        return Err(ValueFault {
            at,
            fault: ConstFault::ZeroDivisor,
        });
    }
    in_range(at, Some(dividend.wrapping_rem(divisor)))
}

/// The value of the binary operator at an octet, both of whose operands are evaluated.
pub(crate) fn binary_value(
    at: u32,
    operator: BinaryOperator,
    left: i128,
    right: i128,
) -> Result<i128, ValueFault>
    ensures { result ≡ operators.binary_value at operator left right }
{
    match operator {
        BinaryOperator::LogicalOr => Ok(truth(!is_zero(left) || !is_zero(right))),
        BinaryOperator::LogicalAnd => Ok(truth(!is_zero(left) && !is_zero(right))),
        BinaryOperator::Or => in_range(at, Some(bits_in_either(left, right))),
        BinaryOperator::ExclusiveOr => in_range(at, Some(bits_in_one(left, right))),
        BinaryOperator::And => in_range(at, Some(bits_in_both(left, right))),
        BinaryOperator::Equal => Ok(truth(are_equal(left, right))),
        BinaryOperator::NotEqual => Ok(truth(!are_equal(left, right))),
        BinaryOperator::Less => Ok(truth(left < right)),
        BinaryOperator::Greater => Ok(truth(left > right)),
        BinaryOperator::LessEqual => Ok(truth(left <= right)),
        BinaryOperator::GreaterEqual => Ok(truth(left >= right)),
        BinaryOperator::ShiftLeft => shift_left(at, left, right),
        BinaryOperator::ShiftRight => shift_right(at, left, right),
        BinaryOperator::Add => in_range(at, left.checked_add(right)),
        BinaryOperator::Subtract => in_range(at, left.checked_sub(right)),
        BinaryOperator::Multiply => in_range(at, left.checked_mul(right)),
        BinaryOperator::Divide => divide(at, left, right),
        BinaryOperator::Remainder => remainder(at, left, right),
    }
}

/// Whether the left operand decides alone, so that the right one is not evaluated.
pub(crate) fn is_decided(operator: BinaryOperator, left: i128) -> bool
    ensures { result ≡ operators.is_decided operator left }
{
    match operator {
        BinaryOperator::LogicalOr => !is_zero(left),
        BinaryOperator::LogicalAnd => is_zero(left),
        _ => false,
    }
}
