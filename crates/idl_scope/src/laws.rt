//! Laws over the definitions.

ghost use Rattle.std.specs.Prelude.{◌≡◌, ℕ, ◌+◌, ◌-◌, ◌%◌, min, max, ℤ, List, Option, Ok, true};
ghost use Rattle.idl_grammar.specs.declared.expressions.BinaryOperator.{BinaryOperator};
ghost use Rattle.idl_grammar.specs.declared.expressions.UnaryOperator.{UnaryOperator};
ghost use Rattle.idl_grammar.specs.Tree.{Expr, Unary, Binary, Conditional};
ghost use Rattle.idl_scope.specs.Value.{bit, complement, bits_in_both, bits_in_either, bits_in_one, is_in_range, value};
ghost use Rattle.idl_scope.specs.declared.meaning.Meaning.{Meaning};

/// The operators on bits work on two's complement of unlimited width, bit by bit, and meanings with the same bits are
/// the same.
#[tactic(auto, using(crate::proofs::Bits::bitwise))]
pub fn bits_are_those_of_twos_complement()
    ensures complement { (a : ℤ) (k : ℕ) → bit (complement a) k ≡ 1 - bit a k }
    ensures both { (a b : ℤ) (k : ℕ) → bit (bits_in_both a b) k ≡ min (bit a k) (bit b k) }
    ensures either { (a b : ℤ) (k : ℕ) → bit (bits_in_either a b) k ≡ max (bit a k) (bit b k) }
    ensures one { (a b : ℤ) (k : ℕ) → bit (bits_in_one a b) k ≡ (bit a k + bit b k) % 2 }
    ensures alone { (a b : ℤ) → ((k : ℕ) → bit a k ≡ bit b k) → a ≡ b }
{}

/// The value of an operator is from -2^63 to 2^64 - 1, whatever its operands are.
#[tactic(auto, using(crate::proofs::Ranges::unary_in_range, crate::proofs::Ranges::binary_in_range, crate::proofs::Ranges::conditional_in_range))]
pub fn operators_stay_in_range()
    ensures unary { (meanings : List ℕ → Option Meaning) (at : ℕ) (s : UnaryOperator) (e : Expr) (z : ℤ) → value meanings (Unary at s e) ≡ Ok z
        → is_in_range z ≡ true }
    ensures binary { (meanings : List ℕ → Option Meaning) (l : Expr) (at : ℕ) (s : BinaryOperator) (r : Expr) (z : ℤ)
        → value meanings (Binary l at s r) ≡ Ok z → is_in_range z ≡ true }
    ensures conditional { (meanings : List ℕ → Option Meaning) (c : Expr) (at : ℕ) (a b : Expr) (z : ℤ)
        → value meanings (Conditional c at a b) ≡ Ok z → is_in_range z ≡ true }
{}
