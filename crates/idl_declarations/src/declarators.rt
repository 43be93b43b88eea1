// Declarators (C706, section 4.2.8), and the values of constants.
ghost use Rattle.std.specs.Prelude.{◌≡◌, ◌+◌, ◌≤◌, ◌<◌, [], ◌∷◌, length, map, option_map, IfOk};
ghost use Rattle.idl_grammar.specs.ReadPhrases.{behind_read, list_read};
ghost use Rattle.idl_grammar.specs.Gives.{Gives};
ghost use Rattle.idl_grammar.specs.Symbols as symbols;
ghost use Rattle.idl_grammar.specs.ReadExpressions.{placed_read};
ghost use Rattle.idl_grammar.specs.Reading.{unless_read, commas_read, upper_read, range_read, bound_read, dimension_read, declarator_read};
ghost use Rattle.idl_grammar.specs.Reading.{declarators_read, init_read};
ghost use Rattle.idl_grammar.specs.Seen.{seen_expr, seen_bound, seen_declarator, seen_init};

use idl_grammar::{Bound, Declarator, Expr, Init, Refusal};
use idl_tokens::parser::Parser;
use idl_tokens::{outer, symbol};

/// The greatest index of a dimension, nothing for `*`.
#[tactic(auto, unfolding(idl_grammar::specs::Reading::upper_read))]
fn upper(
    parser: &Parser<'_>,
    nesting: usize,
    depth: usize,
    at: usize,
) -> Result<(Option<Expr>, usize), Refusal>
    requires within { at ≤ length parser.now }
    requires shallow { depth ≤ 64 }
    ensures gives { Gives (option_map seen_expr) result (upper_read nesting parser.now depth at) }
    ensures within { IfOk result (λ x. (at < x.1) × (x.1 ≤ length parser.now)) }
{
    if parser.stands(symbol::STAR, at) {
        let next = parser.mark(symbol::STAR, at)?;
        return Ok((None, next));
    }
    let (greatest, next) = outer(parser, nesting, false, depth, at)?;
    Ok((Some(greatest), next))
}

/// A bound that begins with an expression.
#[tactic(auto, unfolding(idl_grammar::specs::Reading::range_read))]
fn range(
    parser: &Parser<'_>,
    nesting: usize,
    depth: usize,
    at: usize,
) -> Result<(Bound, usize), Refusal>
    requires within { at ≤ length parser.now }
    requires shallow { depth ≤ 64 }
    ensures gives { Gives (seen_bound) result (range_read nesting parser.now depth at) }
    ensures within { IfOk result (λ x. (at < x.1) × (x.1 ≤ length parser.now)) }
{
    let (least, next) = outer(parser, nesting, false, depth, at)?;
    if !parser.stands(symbol::DOT_DOT, next) {
        return Ok((Bound::Count(least), next));
    }
    let next = parser.mark(symbol::DOT_DOT, next)?;
    let (upper, next) = upper(parser, nesting, depth, next)?;
    match upper {
        None => Ok((Bound::From(least), next)),
        Some(greatest) => Ok((Bound::Between(least, greatest), next)),
    }
}

/// The bound of a dimension.
#[tactic(auto, unfolding(idl_grammar::specs::Reading::bound_read))]
fn bound(
    parser: &Parser<'_>,
    nesting: usize,
    depth: usize,
    at: usize,
) -> Result<(Bound, usize), Refusal>
    requires within { at ≤ length parser.now }
    requires shallow { depth ≤ 64 }
    ensures gives { Gives (seen_bound) result (bound_read nesting parser.now depth at) }
    ensures within { IfOk result (λ x. (at < x.1) × (x.1 ≤ length parser.now)) }
{
    if parser.stands(symbol::STAR, at) {
        let next = parser.mark(symbol::STAR, at)?;
        return Ok((Bound::Star, next));
    }
    range(parser, nesting, depth, at)
}

/// The bound of a dimension, where one stands.
fn maybe_bound(
    parser: &Parser<'_>,
    nesting: usize,
    depth: usize,
    at: usize,
) -> Result<(Option<Bound>, usize), Refusal>
    requires within { at ≤ length parser.now }
    requires shallow { depth ≤ 64 }
    ensures gives { Gives (option_map seen_bound) result (unless_read symbols.CloseSquare parser.now (bound_read nesting parser.now depth) at) }
    ensures within { IfOk result (λ x. (at ≤ x.1) × (x.1 ≤ length parser.now)) }
{
    if parser.stands(symbol::CLOSE_SQUARE, at) {
        return Ok((None, at));
    }
    let (bound, next) = bound(parser, nesting, depth, at)?;
    Ok((Some(bound), next))
}

/// A dimension in square brackets.
#[tactic(auto, unfolding(idl_grammar::specs::Reading::dimension_read))]
fn dimension(
    parser: &Parser<'_>,
    nesting: usize,
    depth: usize,
    at: usize,
) -> Result<(Option<Bound>, usize), Refusal>
    requires within { at ≤ length parser.now }
    requires shallow { depth ≤ 64 }
    ensures gives { Gives (option_map seen_bound) result (dimension_read nesting parser.now depth at) }
    ensures within { IfOk result (λ x. (at < x.1) × (x.1 ≤ length parser.now)) }
{
    let next = parser.open(depth, symbol::OPEN_SQUARE, at)?;
    let (bound, next) = maybe_bound(parser, nesting, depth + 1, next)?;
    let next = parser.mark(symbol::CLOSE_SQUARE, next)?;
    Ok((bound, next))
}

/// The octets of the stars.
fn stars(parser: &Parser<'_>, at: usize) -> Result<(Vec<u32>, usize), Refusal>
    requires within { at ≤ length parser.now }
    ensures gives { Gives (λ v. v.items) result (list_read (symbols.Star ∷ []) parser.now (placed_read symbols.Star parser.now) at) }
    ensures within { IfOk result (λ x. (at ≤ x.1) × (x.1 ≤ length parser.now)) }
{
    let mut list = Vec::new(parser.alloc());
    let mut here = at;
    while parser.stands(symbol::STAR, here) {
        let (next, past) = parser.placed(symbol::STAR, here)?;
        list.push(next)?;
        here = past;
    }
    Ok((list, here))
}

/// The dimensions of an array.
fn dimensions(
    parser: &Parser<'_>,
    nesting: usize,
    depth: usize,
    at: usize,
) -> Result<(Vec<Option<Bound>>, usize), Refusal>
    requires within { at ≤ length parser.now }
    requires shallow { depth ≤ 64 }
    ensures gives { Gives (λ v. map (option_map seen_bound) v.items) result
        (list_read (symbols.OpenSquare ∷ []) parser.now (dimension_read nesting parser.now depth) at) }
    ensures within { IfOk result (λ x. (at ≤ x.1) × (x.1 ≤ length parser.now)) }
{
    let mut list = Vec::new(parser.alloc());
    let mut here = at;
    while parser.stands(symbol::OPEN_SQUARE, here) {
        let (next, past) = dimension(parser, nesting, depth, here)?;
        list.push(next)?;
        here = past;
    }
    Ok((list, here))
}

/// A name with its stars and dimensions.
#[tactic(auto, unfolding(idl_grammar::specs::Reading::declarator_read))]
pub fn declarator(
    parser: &Parser<'_>,
    nesting: usize,
    depth: usize,
    at: usize,
) -> Result<(Declarator, usize), Refusal>
    requires within { at ≤ length parser.now }
    requires shallow { depth ≤ 64 }
    ensures gives { Gives (seen_declarator) result (declarator_read nesting parser.now depth at) }
    ensures within { IfOk result (λ x. (at < x.1) × (x.1 ≤ length parser.now)) }
{
    let (stars, next) = stars(parser, at)?;
    let (name, next) = parser.ident(false, next)?;
    let (dimensions, next) = dimensions(parser, nesting, depth, next)?;
    Ok((
        Declarator {
            stars,
            name,
            dimensions,
        },
        next,
    ))
}

/// A declarator after a comma.
fn next_declarator(
    parser: &Parser<'_>,
    nesting: usize,
    depth: usize,
    at: usize,
) -> Result<(Declarator, usize), Refusal>
    requires within { at ≤ length parser.now }
    requires shallow { depth ≤ 64 }
    ensures gives { Gives (seen_declarator) result (behind_read symbols.Comma parser.now (declarator_read nesting parser.now depth) at) }
    ensures within { IfOk result (λ x. (at < x.1) × (x.1 ≤ length parser.now)) }
{
    let next = parser.mark(symbol::COMMA, at)?;
    let (item, next) = declarator(parser, nesting, depth, next)?;
    Ok((item, next))
}

/// Declarators with commas between.
fn declarator_list(
    parser: &Parser<'_>,
    nesting: usize,
    depth: usize,
    at: usize,
) -> Result<(Vec<Declarator>, usize), Refusal>
    requires within { at ≤ length parser.now }
    requires shallow { depth ≤ 64 }
    ensures gives { Gives (λ v. map seen_declarator v.items) result (commas_read parser.now (declarator_read nesting parser.now depth) at) }
    ensures within { IfOk result (λ x. (at < x.1) × (x.1 ≤ length parser.now)) }
{
    let (first, mut here) = declarator(parser, nesting, depth, at)?;
    let mut list = Vec::new(parser.alloc());
    list.push(first)?;
    while parser.stands(symbol::COMMA, here) {
        let (next, past) = next_declarator(parser, nesting, depth, here)?;
        list.push(next)?;
        here = past;
    }
    Ok((list, here))
}

/// Declarators with commas between.
#[tactic(auto, unfolding(idl_grammar::specs::Reading::declarators_read))]
pub fn declarators(
    parser: &Parser<'_>,
    nesting: usize,
    depth: usize,
    at: usize,
) -> Result<(Vec<Declarator>, usize), Refusal>
    requires within { at ≤ length parser.now }
    requires shallow { depth ≤ 64 }
    ensures gives { Gives (λ v. map seen_declarator v.items) result (declarators_read nesting parser.now depth at) }
    ensures within { IfOk result (λ x. (at < x.1) × (x.1 ≤ length parser.now)) }
{
    declarator_list(parser, nesting, depth, at)
}

/// The value of a constant.
#[tactic(auto, unfolding(idl_grammar::specs::Reading::init_read))]
pub fn init(
    parser: &Parser<'_>,
    nesting: usize,
    depth: usize,
    at: usize,
) -> Result<(Init, usize), Refusal>
    requires within { at ≤ length parser.now }
    requires shallow { depth ≤ 64 }
    ensures gives { Gives (seen_init) result (init_read nesting parser.now depth at) }
    ensures within { IfOk result (λ x. (at < x.1) × (x.1 ≤ length parser.now)) }
{
    if parser.stands(symbol::QUOTED, at) {
        let (text, next) = parser.spelled(symbol::QUOTED, at)?;
        return Ok((Init::Text(text), next));
    }
    if parser.stands(symbol::NULL, at) {
        let (octet, next) = parser.placed(symbol::NULL, at)?;
        return Ok((Init::Null(octet), next));
    }
    let (value, next) = outer(parser, nesting, false, depth, at)?;
    Ok((Init::Value(value), next))
}
