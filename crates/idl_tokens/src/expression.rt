// Expressions (C706, section 4.2.7), by recursive descent. `inside` tells whether attribute brackets are open,
// `start` is where the outermost expression begins, `depth` is the number of brackets that are open, and `nesting`
// the number of levels that may still nest.
ghost use Rattle.std.specs.Prelude.{◌≡◌, ℕ, ◌+◌, ◌-◌, ◌≤◌, ◌<◌, length, true, false, IfOk};
ghost use Rattle.idl_grammar.specs.Text.{lexeme_at, symbol_at, is, is_in};
ghost use Rattle.idl_grammar.specs.Gives.{Gives};
ghost use Rattle.idl_grammar.specs.ReadExpressions.{is_operand as is_operand_symbol, operand_of, leaf_read, level_read, operation_read};
ghost use Rattle.idl_grammar.specs.ReadExpressions.{choice_of_two_read, round_read, expr_read, outer_read};
ghost use Rattle.idl_grammar.specs.Seen.{seen_expr};
ghost use Rattle.idl_tokens.specs.Views.{seen_operation, seen_branches};

use crate::operators::{binary_sign, is_unary, question, symbol_level, unary_sign};
use crate::parser::Parser;
use crate::symbol;
use idl_grammar::{BinaryOperator, Expr, Operand, Refusal};

/// A binary operator, its octet, and its right operand.
#[derive(Drop)]
pub(crate) struct Operation {
    at: u32,
    operator: BinaryOperator,
    right: Expr,
}

/// What stands after the condition of `?:`, and the octet of the `?`.
#[derive(Drop)]
pub(crate) struct Branches {
    at: u32,
    then: Expr,
    otherwise: Expr,
}

/// A number, a character, a name, `TRUE` or `FALSE`.
#[tactic(auto, using(crate::proofs::Basics::operands), unfolding(crate::proofs::Basics::is_operand, crate::proofs::Basics::operand_of))]
fn operand(parser: &Parser<'_>, inside: bool, at: usize) -> Result<(Operand, usize), Refusal>
    requires within { at ≤ length parser.now }
    ensures gives { Gives (λ x. x) result (leaf_read inside parser.now at) }
    ensures within { IfOk result (λ x. (at < x.1) × (x.1 ≤ length parser.now)) }
{
    if parser.stands(symbol::NUMBER, at) {
        return Ok((Operand::Number(parser.copied(at)?), parser.past(at)));
    }
    if parser.stands(symbol::CHARACTER, at) {
        return Ok((Operand::Character(parser.copied(at)?), parser.past(at)));
    }
    if parser.stands(symbol::TRUE, at) {
        return Ok((Operand::True(parser.octet(at)), parser.past(at)));
    }
    if parser.stands(symbol::FALSE, at) {
        return Ok((Operand::False(parser.octet(at)), parser.past(at)));
    }
    let (name, next) = parser.ident(inside, at)?;
    Ok((Operand::Name(name), next))
}

/// An expression of any level.
#[cycle(expression)]
#[tactic(auto, using(crate::proofs::Unfolds::conditional_is))]
fn expression(
    parser: &Parser<'_>,
    nesting: usize,
    inside: bool,
    start: usize,
    depth: usize,
    at: usize,
) -> Result<(Expr, usize), Refusal>
    requires based { start ≤ at }
    requires within { at ≤ length parser.now }
    requires shallow { depth ≤ 64 }
    ensures gives { Gives seen_expr result (expr_read nesting inside start parser.now true depth at) }
    ensures within { IfOk result (λ x. (at < x.1) × (x.1 ≤ length parser.now)) }
{
    if nesting == 0 {
        return Err(Refusal::Deep(at));
    }
    let (condition, next) = binary(parser, nesting, inside, start, depth, 10, at)?;
    if !parser.stands(symbol::QUESTION, next) {
        return Ok((condition, next));
    }
    let (branches, next) = choice_of_two(parser, nesting - 1, inside, start, depth, next)?;
    let condition = Box::new(parser.alloc(), condition)?;
    let then = Box::new(parser.alloc(), branches.then)?;
    let otherwise = Box::new(parser.alloc(), branches.otherwise)?;
    Ok((
        Expr::Conditional {
            condition,
            at: branches.at,
            then,
            otherwise,
        },
        next,
    ))
}

/// `?`, an expression, `:` and an expression.
#[cycle(expression)]
fn choice_of_two(
    parser: &Parser<'_>,
    nesting: usize,
    inside: bool,
    start: usize,
    depth: usize,
    at: usize,
) -> Result<(Branches, usize), Refusal>
    requires based { start ≤ at }
    requires within { at ≤ length parser.now }
    requires shallow { depth ≤ 64 }
    ensures gives { Gives seen_branches result (choice_of_two_read start parser.now (expr_read nesting inside start parser.now true depth) at) }
    ensures within { IfOk result (λ x. (at < x.1) × (x.1 ≤ length parser.now)) }
{
    let (octet, next) = question(parser, start, at)?;
    let (then, next) = expression(parser, nesting, inside, start, depth, next)?;
    let next = parser.mark(symbol::COLON, next)?;
    let (otherwise, next) = expression(parser, nesting, inside, start, depth, next)?;
    Ok((
        Branches {
            at: octet,
            then,
            otherwise,
        },
        next,
    ))
}

/// An expression of a rank: 0 is that of the unary operators, 1 to 10 are those of the binary ones from the
/// tightest on.
#[cycle(expression)]
fn binary(
    parser: &Parser<'_>,
    nesting: usize,
    inside: bool,
    start: usize,
    depth: usize,
    rank: usize,
    at: usize,
) -> Result<(Expr, usize), Refusal>
    requires based { start ≤ at }
    requires within { at ≤ length parser.now }
    requires shallow { depth ≤ 64 }
    requires rank { rank ≤ 10 }
    ensures gives { Gives seen_expr result (level_read start parser.now (expr_read nesting inside start parser.now false depth) rank at) }
    ensures within { IfOk result (λ x. (at < x.1) × (x.1 ≤ length parser.now)) }
{
    if rank == 0 {
        return unary(parser, nesting, inside, start, depth, at);
    }
    let (mut left, mut here) = binary(parser, nesting, inside, start, depth, rank - 1, at)?;
    while symbol_level(parser.symbol(here)) == 11 - rank {
        let (operation, next) = next_operation(parser, nesting, inside, start, depth, rank, here)?;
        left = Expr::Binary {
            left: Box::new(parser.alloc(), left)?,
            at: operation.at,
            operator: operation.operator,
            right: Box::new(parser.alloc(), operation.right)?,
        };
        here = next;
    }
    Ok((left, here))
}

/// A binary operator of a rank, and its right operand.
#[cycle(expression)]
fn next_operation(
    parser: &Parser<'_>,
    nesting: usize,
    inside: bool,
    start: usize,
    depth: usize,
    rank: usize,
    at: usize,
) -> Result<(Operation, usize), Refusal>
    requires based { start ≤ at }
    requires within { at ≤ length parser.now }
    requires shallow { depth ≤ 64 }
    requires some { 1 ≤ rank }
    requires rank { rank ≤ 10 }
    ensures gives { Gives seen_operation result
        (operation_read (11 - rank) start parser.now
        (level_read start parser.now (expr_read nesting inside start parser.now false depth) (rank - 1)) at) }
    ensures within { IfOk result (λ x. (at < x.1) × (x.1 ≤ length parser.now)) }
{
    let ((octet, operator), next) = binary_sign(parser, 11 - rank, start, at)?;
    let (right, next) = binary(parser, nesting, inside, start, depth, rank - 1, next)?;
    Ok((
        Operation {
            at: octet,
            operator,
            right,
        },
        next,
    ))
}

/// An expression with a unary operator before it, one in brackets, or one token.
#[cycle(expression)]
#[tactic(auto, using(crate::proofs::Unfolds::unary_is))]
fn unary(
    parser: &Parser<'_>,
    nesting: usize,
    inside: bool,
    start: usize,
    depth: usize,
    at: usize,
) -> Result<(Expr, usize), Refusal>
    requires based { start ≤ at }
    requires within { at ≤ length parser.now }
    requires shallow { depth ≤ 64 }
    ensures gives { Gives seen_expr result (expr_read nesting inside start parser.now false depth at) }
    ensures within { IfOk result (λ x. (at < x.1) × (x.1 ≤ length parser.now)) }
{
    if nesting == 0 {
        return Err(Refusal::Deep(at));
    }
    if is_unary(parser.symbol(at)) {
        let ((octet, operator), next) = unary_sign(parser, start, at)?;
        let (operand, next) = unary(parser, nesting - 1, inside, start, depth, next)?;
        let operand = Box::new(parser.alloc(), operand)?;
        return Ok((
            Expr::Unary {
                at: octet,
                operator,
                operand,
            },
            next,
        ));
    }
    if parser.stands(symbol::OPEN_ROUND, at) {
        let ((octet, inner), next) = round(parser, nesting - 1, inside, start, depth, at)?;
        let inner = Box::new(parser.alloc(), inner)?;
        return Ok((Expr::Round { at: octet, inner }, next));
    }
    let (operand, next) = operand(parser, inside, at)?;
    Ok((Expr::Leaf(operand), next))
}

/// The octet of a bracket, and the expression in it.
#[cycle(expression)]
fn round(
    parser: &Parser<'_>,
    nesting: usize,
    inside: bool,
    start: usize,
    depth: usize,
    at: usize,
) -> Result<((u32, Expr), usize), Refusal>
    requires based { start ≤ at }
    requires within { at ≤ length parser.now }
    requires shallow { depth ≤ 64 }
    ensures gives { Gives (λ x. (x.0, seen_expr x.1)) result (round_read depth parser.now (expr_read nesting inside start parser.now true) at) }
    ensures within { IfOk result (λ x. (at < x.1) × (x.1 ≤ length parser.now)) }
{
    let (octet, next) = parser.opening(depth, symbol::OPEN_ROUND, at)?;
    let (inner, next) = expression(parser, nesting, inside, start, depth + 1, next)?;
    let next = parser.mark(symbol::CLOSE_ROUND, next)?;
    Ok(((octet, inner), next))
}

/// An outermost expression.
#[tactic(auto, unfolding(idl_grammar::specs::ReadExpressions::outer_read))]
pub fn outer(
    parser: &Parser<'_>,
    nesting: usize,
    inside: bool,
    depth: usize,
    at: usize,
) -> Result<(Expr, usize), Refusal>
    requires within { at ≤ length parser.now }
    requires shallow { depth ≤ 64 }
    ensures gives { Gives seen_expr result (outer_read nesting inside parser.now depth at) }
    ensures within { IfOk result (λ x. (at < x.1) × (x.1 ≤ length parser.now)) }
{
    expression(parser, nesting, inside, at, depth, at)
}
