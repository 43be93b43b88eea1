// Whole numbers in constant expressions (C706, section 4.2.7).
ghost use Rattle.std.specs.Prelude.{◌≡◌};
ghost use Rattle.idl_scope.specs.Value as whole;

/// The least value of an operator.
const LEAST: i128 = -0x8000_0000_0000_0000;

/// The greatest value of an operator.
const GREATEST: i128 = 0xFFFF_FFFF_FFFF_FFFF;

pub(crate) fn is_in_range(value: i128) -> bool
    ensures { result ≡ whole.is_in_range value }
{
    value >= LEAST && value <= GREATEST
}

pub(crate) fn is_zero(value: i128) -> bool
    ensures { result ≡ whole.is_zero value }
{
    value == 0
}

pub(crate) fn truth(holds: bool) -> i128
    ensures { result ≡ whole.truth holds }
{
    i128::from(holds)
}

pub(crate) fn are_equal(left: i128, right: i128) -> bool
    ensures { result ≡ whole.are_equal left right }
{
    left == right
}

/// The bits of a number, each the other way.
pub(crate) fn complement(value: i128) -> i128
    ensures { result ≡ whole.complement value }
{
    !value
}

/// The bits that stand in both numbers.
#[tactic(auto, using(crate::proofs::Bits::both_is))]
pub(crate) fn bits_in_both(left: i128, right: i128) -> i128
    ensures { result ≡ whole.bits_in_both left right }
{
    left & right
}

/// The bits that stand in one of the numbers, or in both.
#[tactic(auto, using(crate::proofs::Bits::either_is))]
pub(crate) fn bits_in_either(left: i128, right: i128) -> i128
    ensures { result ≡ whole.bits_in_either left right }
{
    left | right
}

/// The bits that stand in one of the numbers alone.
#[tactic(auto, using(crate::proofs::Bits::one_is))]
pub(crate) fn bits_in_one(left: i128, right: i128) -> i128
    ensures { result ≡ whole.bits_in_one left right }
{
    left ^ right
}
