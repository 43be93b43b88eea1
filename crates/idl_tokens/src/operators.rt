// Operators of expressions (C706, section 4.2.7).
ghost use Rattle.std.specs.Prelude.{◌≡◌, ◌≤◌, ◌<◌, length, IfOk, eqb, false};
ghost use Rattle.idl_grammar.specs.Text.{symbol_at};
ghost use Rattle.idl_grammar.specs.Gives.{Gives};
ghost use Rattle.idl_grammar.specs.Expressions.{level as level_of, symbol_level as level_of_symbol, binary_operators, unary_operators};
ghost use Rattle.idl_grammar.specs.Expressions.{is_unary as is_unary_symbol, is_operator as is_operator_symbol, operators, many_operators};
ghost use Rattle.idl_grammar.specs.ReadExpressions.{unary_sign_read, binary_sign_read, question_read};
ghost use Rattle.idl_tokens.specs.Found.{found};

use crate::parser::Parser;
use crate::symbol;
use idl_grammar::{BinaryOperator, Refusal, UnaryOperator};

/// How many operators an outermost expression may have.
const OPERATOR_LIMIT: usize = 64;

/// The binary operator that a mark stands for.
#[tactic(auto, unfolding(idl_grammar::specs::Expressions::binary_operators))]
fn binary_of(symbol: u8) -> Option<BinaryOperator>
    ensures { result ≡ found binary_operators symbol }
{
    match symbol {
        symbol::OR_OR => Some(BinaryOperator::LogicalOr),
        symbol::AND_AND => Some(BinaryOperator::LogicalAnd),
        symbol::BAR => Some(BinaryOperator::Or),
        symbol::CARET => Some(BinaryOperator::ExclusiveOr),
        symbol::AMPERSAND => Some(BinaryOperator::And),
        symbol::EQUALS_EQUALS => Some(BinaryOperator::Equal),
        symbol::NOT_EQUALS => Some(BinaryOperator::NotEqual),
        symbol::LESS => Some(BinaryOperator::Less),
        symbol::GREATER => Some(BinaryOperator::Greater),
        symbol::LESS_EQUALS => Some(BinaryOperator::LessEqual),
        symbol::GREATER_EQUALS => Some(BinaryOperator::GreaterEqual),
        symbol::SHIFT_LEFT => Some(BinaryOperator::ShiftLeft),
        symbol::SHIFT_RIGHT => Some(BinaryOperator::ShiftRight),
        symbol::PLUS => Some(BinaryOperator::Add),
        symbol::MINUS => Some(BinaryOperator::Subtract),
        symbol::STAR => Some(BinaryOperator::Multiply),
        symbol::SLASH => Some(BinaryOperator::Divide),
        symbol::PERCENT => Some(BinaryOperator::Remainder),
        _ => None,
    }
}

/// The unary operator that a mark stands for.
#[tactic(auto, unfolding(idl_grammar::specs::Expressions::unary_operators))]
fn unary_of(symbol: u8) -> Option<UnaryOperator>
    ensures { result ≡ found unary_operators symbol }
{
    match symbol {
        symbol::PLUS => Some(UnaryOperator::Plus),
        symbol::MINUS => Some(UnaryOperator::Minus),
        symbol::TILDE => Some(UnaryOperator::Complement),
        symbol::EXCLAMATION => Some(UnaryOperator::Not),
        _ => None,
    }
}

/// The level of a binary operator, from the loosest.
fn level(operator: BinaryOperator) -> usize
    ensures { result ≡ level_of operator }
{
    match operator {
        BinaryOperator::LogicalOr => 1,
        BinaryOperator::LogicalAnd => 2,
        BinaryOperator::Or => 3,
        BinaryOperator::ExclusiveOr => 4,
        BinaryOperator::And => 5,
        BinaryOperator::Equal | BinaryOperator::NotEqual => 6,
        BinaryOperator::Less
        | BinaryOperator::Greater
        | BinaryOperator::LessEqual
        | BinaryOperator::GreaterEqual => 7,
        BinaryOperator::ShiftLeft | BinaryOperator::ShiftRight => 8,
        BinaryOperator::Add | BinaryOperator::Subtract => 9,
        BinaryOperator::Multiply | BinaryOperator::Divide | BinaryOperator::Remainder => 10,
    }
}

/// The level of a symbol, and 0 of what is no binary operator.
#[tactic(auto, using(crate::proofs::Signs::level_found, crate::proofs::Signs::level_none))]
pub(crate) fn symbol_level(symbol: u8) -> usize
    ensures { result ≡ level_of_symbol symbol }
{
    match binary_of(symbol) {
        Some(operator) => level(operator),
        None => 0,
    }
}

/// Whether a symbol is a unary operator.
#[tactic(auto, using(crate::proofs::Signs::unary_found, crate::proofs::Signs::unary_none))]
pub(crate) fn is_unary(symbol: u8) -> bool
    ensures { result ≡ is_unary_symbol symbol }
{
    match unary_of(symbol) {
        Some(_) => true,
        None => false,
    }
}

/// Whether a symbol is an operator where an expression has it.
#[tactic(auto, unfolding(idl_grammar::specs::Expressions::is_operator))]
fn is_operator(symbol: u8) -> bool
    ensures { result ≡ is_operator_symbol symbol }
{
    symbol_level(symbol) >= 1 || (is_unary(symbol) || symbol == symbol::QUESTION)
}

/// Whether an operator at a place would be the 65th of the expression that begins at `start`.
#[tactic(auto, unfolding(idl_grammar::specs::Expressions::many_operators))]
fn is_full(parser: &Parser<'_>, start: usize, at: usize) -> bool
    requires based { start ≤ at }
    requires within { at ≤ length parser.now }
    ensures { result ≡ many_operators start parser.now at }
{
    let mut count = 0_usize;
    for place in start..at {
        if is_operator(parser.symbol(place)) {
            count += 1;
        }
    }
    count >= OPERATOR_LIMIT
}

/// A unary operator of the expression that begins at `start`, and its octet.
#[tactic(auto, using(crate::proofs::Signs::unary_signs))]
pub(crate) fn unary_sign(
    parser: &Parser<'_>,
    start: usize,
    at: usize,
) -> Result<((u32, UnaryOperator), usize), Refusal>
    requires based { start ≤ at }
    requires within { at ≤ length parser.now }
    ensures gives { Gives (λ x. x) result (unary_sign_read start parser.now at) }
    ensures within { IfOk result (λ x. (at < x.1) × (x.1 ≤ length parser.now)) }
{
    let Some(operator) = unary_of(parser.symbol(at)) else {
        return Err(Refusal::Syntax(at));
    };
    if is_full(parser, start, at) {
        return Err(Refusal::Deep(at));
    }
    Ok(((parser.octet(at), operator), parser.past(at)))
}

/// A binary operator of a level of the expression that begins at `start`, and its octet.
#[tactic(auto, using(crate::proofs::Signs::binary_signs))]
pub(crate) fn binary_sign(
    parser: &Parser<'_>,
    wanted: usize,
    start: usize,
    at: usize,
) -> Result<((u32, BinaryOperator), usize), Refusal>
    requires low { 1 ≤ wanted }
    requires based { start ≤ at }
    requires within { at ≤ length parser.now }
    ensures gives { Gives (λ x. x) result (binary_sign_read wanted start parser.now at) }
    ensures within { IfOk result (λ x. (at < x.1) × (x.1 ≤ length parser.now)) }
{
    let Some(operator) = binary_of(parser.symbol(at)) else {
        return Err(Refusal::Syntax(at));
    };
    if level(operator) != wanted {
        return Err(Refusal::Syntax(at));
    }
    if is_full(parser, start, at) {
        return Err(Refusal::Deep(at));
    }
    Ok(((parser.octet(at), operator), parser.past(at)))
}

/// The `?` of the expression that begins at `start`: its octet.
#[tactic(auto, using(idl_grammar::proofs::Within::mark_within))]
pub(crate) fn question(
    parser: &Parser<'_>,
    start: usize,
    at: usize,
) -> Result<(u32, usize), Refusal>
    requires based { start ≤ at }
    requires within { at ≤ length parser.now }
    ensures gives { Gives (λ x. x) result (question_read start parser.now at) }
    ensures within { IfOk result (λ x. (at < x.1) × (x.1 ≤ length parser.now)) }
{
    if !parser.stands(symbol::QUESTION, at) {
        return Err(Refusal::Syntax(at));
    }
    if is_full(parser, start, at) {
        return Err(Refusal::Deep(at));
    }
    Ok((parser.octet(at), parser.past(at)))
}
