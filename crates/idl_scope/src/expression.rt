// The value of a constant expression (C706, section 4.2.7).
ghost use Rattle.std.specs.Prelude.{◌≡◌, ℕ, true, List, Option, IfOk, IfSome};
ghost use Rattle.idl_grammar.specs.Seen.{seen_expr};
ghost use Rattle.idl_lexer.specs.Pieces.{number_of as number_of_octets};
ghost use Rattle.idl_scope.specs.Small.{is_below};
ghost use Rattle.idl_scope.specs.Value as values;

use crate::operators::{binary_value, in_range, is_decided, unary_value};
use crate::whole::{is_zero, truth};
use crate::{ConstFault, ExpressionFault, Meaning, ValueFault};
use idl_grammar::{Expr, Identifier, Operand, Spelling};
use idl_lexer::number_of;

/// What is known of names.
pub trait Names {
    ghost use Rattle.idl_scope.specs.declared.meaning.Meaning.{Meaning};
    ghost use Rattle.idl_scope.specs.Small.{is_small};

    /// What each name that is known stands for.
    ghost meanings: { Self → List ℕ → Option Meaning };

    /// The numbers of names are below 2^64 and so many more.
    ghost more: { Self → ℕ };

    /// What a name stands for, or None where it is not known.
    fn meaning(&self, name: &[u8]) -> Option<Meaning>
        ensures meant { result ≡ meanings self.now name.now }
        ensures small { IfSome result (λ m. is_small (more self.now) m ≡ true) };
}

/// What an escape stands for.
pub fn escaped(octet: u8) -> u8
    ensures { result ≡ values.escaped octet }
{
    match octet {
        b'a' => 7,
        b'b' => 8,
        b'f' => 12,
        b'n' => 10,
        b'r' => 13,
        b't' => 9,
        b'v' => 11,
        _ => octet,
    }
}

/// The value of a character between its quotes.
fn character_value(octets: &[u8]) -> u8
    ensures { result ≡ values.character_value octets.now }
{
    match octets {
        [_, b'\\', escape, ..] => escaped(*escape),
        [_, octet, _, ..] => *octet,
        _ => 0,
    }
}

fn number_value(spelling: &Spelling) -> Result<i128, ValueFault>
    ensures { result ≡ values.number_or_fault spelling.now.at (number_of_octets spelling.now.octets) }
{
    match number_of(spelling.octets.as_slice()) {
        Some(number) => Ok(i128::from(number)),
        None => Err(ValueFault {
            at: spelling.at,
            fault: ConstFault::OutOfRange,
        }),
    }
}

fn name_value<N: Names>(names: &N, name: &Identifier) -> Result<i128, ValueFault>
    ensures value { result ≡ values.name_value name.now.at (N.meanings names.now name.now.octets) }
    ensures small { IfOk result (λ z. is_below (N.more names.now) z ≡ true) }
{
    match names.meaning(name.as_slice()) {
        Some(Meaning::Number(number)) => Ok(number),
        _ => Err(ValueFault {
            at: name.at(),
            fault: ConstFault::NotConst,
        }),
    }
}

fn operand_value<N: Names>(names: &N, operand: &Operand) -> Result<i128, ValueFault>
    ensures value { result ≡ values.operand_value (N.meanings names.now) operand.now }
    ensures small { IfOk result (λ z. is_below (N.more names.now) z ≡ true) }
{
    match operand {
        Operand::Number(spelling) => number_value(spelling),
        Operand::Character(spelling) => {
            Ok(i128::from(character_value(spelling.octets.as_slice())))
        }
        Operand::Name(spelling) => name_value(names, spelling),
        Operand::True(_) => Ok(1),
        Operand::False(_) => Ok(0),
    }
}

/// The value of an expression, or its first fault and where it is, operands from left to right. `&&`, `||` and `?:`
/// leave the operand unevaluated that C leaves so. A name that is not known stands for no number. A number that is
/// no token of IDL, which no tree of a text holds, is out of range. Takes no memory.
pub fn value<N: Names>(names: &N, expression: &Expr) -> Result<i128, ValueFault>
    ensures value { result ≡ values.value (N.meanings names.now) (seen_expr expression.now) }
    ensures small { IfOk result (λ z. is_below (N.more names.now) z ≡ true) }
{
    match expression {
        Expr::Leaf(operand) => operand_value(names, operand),
        Expr::Round { inner, .. } => value(names, inner),
        Expr::Unary {
            at,
            operator,
            operand,
        } => unary_value(*at, *operator, value(names, operand)?),
        Expr::Binary {
            left,
            at,
            operator,
            right,
        } => {
            let first = value(names, left)?;
            if is_decided(*operator, first) {
                return Ok(truth(!is_zero(first)));
            }
            binary_value(*at, *operator, first, value(names, right)?)
        }
        Expr::Conditional {
            condition,
            at,
            then,
            otherwise,
        } => {
            let chosen = if is_zero(value(names, condition)?) {
                otherwise
            } else {
                then
            };
            in_range(*at, Some(value(names, chosen)?))
        }
    }
}

/// The value of an expression, or the reason of its first fault, as `value` has them. Takes no memory.
pub fn value_of<N: Names>(names: &N, expression: &Expr) -> Result<i128, ConstFault>
    ensures { result ≡ values.constant (values.value (N.meanings names.now) (seen_expr expression.now)) }
{
    value(names, expression).map_err(|fault| fault.fault)
}

/// The octet of a name that is not known.
fn unknown_operand<N: Names>(names: &N, operand: &Operand) -> Option<u32>
    ensures { result ≡ values.unknown_operand (N.meanings names.now) operand.now }
{
    match operand {
        Operand::Name(name) if names.meaning(name.as_slice()).is_none() => Some(name.at()),
        _ => None,
    }
}

/// The octet of the first name of an expression that is not known, evaluated or not.
fn first_unknown<N: Names>(names: &N, expression: &Expr) -> Option<u32>
    ensures { result ≡ values.first_unknown (N.meanings names.now) (seen_expr expression.now) }
{
    match expression {
        Expr::Leaf(operand) => unknown_operand(names, operand),
        Expr::Round { inner, .. } => first_unknown(names, inner),
        Expr::Unary { operand, .. } => first_unknown(names, operand),
        Expr::Binary { left, right, .. } => {
            let first = first_unknown(names, left);
            first.or(first_unknown(names, right))
        }
        Expr::Conditional {
            condition,
            then,
            otherwise,
            ..
        } => {
            let first = first_unknown(names, condition).or(first_unknown(names, then));
            first.or(first_unknown(names, otherwise))
        }
    }
}

/// The value of an expression all of whose names are known; else the fault that stands first in the text: a name
/// that is not known, evaluated or not, or the fault of the value. Takes no memory.
pub fn evaluate<N: Names>(names: &N, expression: &Expr) -> Result<i128, ExpressionFault>
    ensures value { result ≡ values.evaluated (N.meanings names.now) (seen_expr expression.now) }
    ensures small { IfOk result (λ z. is_below (N.more names.now) z ≡ true) }
{
    match (first_unknown(names, expression), value(names, expression)) {
        (None, Ok(value)) => Ok(value),
        (None, Err(fault)) => Err(ExpressionFault::Const(fault)),
        (Some(at), Err(fault)) if fault.at < at => Err(ExpressionFault::Const(fault)),
        (Some(at), _) => Err(ExpressionFault::Unknown { at }),
    }
}
