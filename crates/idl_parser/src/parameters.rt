// Parameters of operations (C706, sections 4.2.12 and 4.2.13).
ghost use Rattle.std.specs.Prelude.{◌≡◌, ◌+◌, ◌≤◌, ◌<◌, [], ◌∷◌, length, map, IfOk};
ghost use Rattle.idl_grammar.specs.ReadPhrases.{turned, behind_read};
ghost use Rattle.idl_grammar.specs.Gives.{Gives};
ghost use Rattle.idl_grammar.specs.Symbols as symbols;
ghost use Rattle.idl_grammar.specs.Reading.{commas_read, parameter_read, more_parameters_read, void_parameters_read, parameters_read};
ghost use Rattle.idl_grammar.specs.Seen.{seen_parameter, seen_parameters};

use crate::types::type_spec;
use idl_declarations::attributes::maybe_attributes;
use idl_declarations::declarators::declarator;
use idl_grammar::{Parameter, Parameters, Refusal, SimpleType, TypeSpec};
use idl_tokens::parser::Parser;
use idl_tokens::symbol;

/// A parameter.
#[tactic(auto, unfolding(idl_grammar::specs::Reading::parameter_read))]
fn parameter(
    parser: &Parser<'_>,
    fuel: usize,
    nesting: usize,
    depth: usize,
    at: usize,
) -> Result<(Parameter, usize), Refusal>
    requires within { at ≤ length parser.now }
    requires shallow { depth ≤ 64 }
    ensures gives { Gives (seen_parameter) result (parameter_read fuel nesting parser.now depth at) }
    ensures within { IfOk result (λ x. (at < x.1) × (x.1 ≤ length parser.now)) }
{
    let (attributes, next) = maybe_attributes(parser, nesting, depth, at)?;
    let (of, next) = type_spec(parser, fuel, nesting, depth, next)?;
    let (declarator, next) = declarator(parser, nesting, depth, next)?;
    let octet = parser.octet(at);
    Ok((
        Parameter {
            at: octet,
            attributes,
            of,
            declarator,
        },
        next,
    ))
}

/// A parameter after a comma.
fn next_parameter(
    parser: &Parser<'_>,
    fuel: usize,
    nesting: usize,
    depth: usize,
    at: usize,
) -> Result<(Parameter, usize), Refusal>
    requires within { at ≤ length parser.now }
    requires shallow { depth ≤ 64 }
    ensures gives { Gives (seen_parameter) result (behind_read symbols.Comma parser.now (parameter_read fuel nesting parser.now depth) at) }
    ensures within { IfOk result (λ x. (at < x.1) × (x.1 ≤ length parser.now)) }
{
    let next = parser.mark(symbol::COMMA, at)?;
    let (parameter, next) = parameter(parser, fuel, nesting, depth, next)?;
    Ok((parameter, next))
}

/// A first parameter, and those after it.
#[tactic(auto, unfolding(idl_grammar::specs::Reading::more_parameters_read))]
fn parameters_from(
    parser: &Parser<'_>,
    fuel: usize,
    nesting: usize,
    depth: usize,
    first: Parameter,
    at: usize,
) -> Result<(Vec<Parameter>, usize), Refusal>
    requires within { at ≤ length parser.now }
    requires shallow { depth ≤ 64 }
    ensures gives { Gives (λ v. map seen_parameter v.items) result
        (turned (λ l. seen_parameter first ∷ l) (more_parameters_read fuel nesting parser.now depth at)) }
    ensures within { IfOk result (λ x. (at ≤ x.1) × (x.1 ≤ length parser.now)) }
{
    let mut list = Vec::new(parser.alloc());
    list.push(first)?;
    let mut here = at;
    while parser.stands(symbol::COMMA, here) {
        let (next, past) = next_parameter(parser, fuel, nesting, depth, here)?;
        list.push(next)?;
        here = past;
    }
    Ok((list, here))
}

/// A first parameter of the type void that begins at an octet, and those after it.
#[tactic(auto, unfolding(idl_grammar::specs::Reading::void_parameters_read))]
fn void_parameters(
    parser: &Parser<'_>,
    fuel: usize,
    nesting: usize,
    depth: usize,
    octet: u32,
    at: usize,
) -> Result<(Parameters, usize), Refusal>
    requires within { at ≤ length parser.now }
    requires shallow { depth ≤ 64 }
    ensures gives { Gives (seen_parameters) result (void_parameters_read fuel nesting parser.now depth octet at) }
    ensures within { IfOk result (λ x. (at < x.1) × (x.1 ≤ length parser.now)) }
{
    let (declarator, next) = declarator(parser, nesting, depth, at)?;
    let first = Parameter {
        at: octet,
        attributes: None,
        of: TypeSpec::Simple(SimpleType::Void),
        declarator,
    };
    let (list, next) = parameters_from(parser, fuel, nesting, depth, first, next)?;
    Ok((Parameters::List(list), next))
}

/// Parameters with commas between.
#[tactic(auto, using(idl_tokens::proofs::Lists::first_and_others), unfolding(idl_grammar::specs::Reading::more_parameters_read))]
fn parameter_list(
    parser: &Parser<'_>,
    fuel: usize,
    nesting: usize,
    depth: usize,
    at: usize,
) -> Result<(Vec<Parameter>, usize), Refusal>
    requires within { at ≤ length parser.now }
    requires shallow { depth ≤ 64 }
    ensures gives { Gives (λ v. map seen_parameter v.items) result (commas_read parser.now (parameter_read fuel nesting parser.now depth) at) }
    ensures within { IfOk result (λ x. (at < x.1) × (x.1 ≤ length parser.now)) }
{
    let (first, next) = parameter(parser, fuel, nesting, depth, at)?;
    parameters_from(parser, fuel, nesting, depth, first, next)
}

/// What is between the brackets of an operation.
#[tactic(auto, unfolding(idl_grammar::specs::Reading::parameters_read))]
pub(crate) fn parameters(
    parser: &Parser<'_>,
    fuel: usize,
    nesting: usize,
    depth: usize,
    at: usize,
) -> Result<(Parameters, usize), Refusal>
    requires within { at ≤ length parser.now }
    requires shallow { depth ≤ 64 }
    ensures gives { Gives (seen_parameters) result (parameters_read fuel nesting parser.now depth at) }
    ensures within { IfOk result (λ x. (at ≤ x.1) × (x.1 ≤ length parser.now)) }
{
    if parser.stands(symbol::CLOSE_ROUND, at) {
        return Ok((Parameters::Absent, at));
    }
    if parser.stands(symbol::VOID, at) {
        let (octet, next) = parser.placed(symbol::VOID, at)?;
        if parser.stands(symbol::CLOSE_ROUND, next) {
            return Ok((Parameters::Void, next));
        }
        return void_parameters(parser, fuel, nesting, depth, octet, next);
    }
    let (list, next) = parameter_list(parser, fuel, nesting, depth, at)?;
    Ok((Parameters::List(list), next))
}
