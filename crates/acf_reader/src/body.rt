// The body, and whole files.
ghost use Rattle.std.specs.Prelude.{◌≡◌, ◌+◌, ◌≤◌, ◌<◌, length, map, IfOk, false};
ghost use Rattle.idl_grammar.specs.Text.{symbol_at, is_in};
ghost use Rattle.idl_grammar.specs.ReadPhrases.{behind_read};
ghost use Rattle.idl_grammar.specs.Gives.{Gives};
ghost use Rattle.idl_grammar.specs.Symbols as symbols;
ghost use Rattle.idl_grammar.specs.ReadExpressions.{spelled_read};
ghost use Rattle.idl_grammar.specs.Reading.{commas_read};
ghost use Rattle.acf_reader.specs.Symbols.{Include};
ghost use Rattle.acf_reader.specs.Seen.{seen_parameter, seen_element, seen_acf};
ghost use Rattle.acf_reader.specs.Reading.{ident_read, parameter_read, parameters_read, signature_read, types_read, include_read, operation_read};
ghost use Rattle.acf_reader.specs.Reading.{element_read, element_firsts, body_read, acf_read};

use crate::attributes::{attributes, ident, is_name, maybe_attributes};
use crate::tree::{Acf, BodyElement, Parameter};
use crate::words;
use idl_grammar::{Identifier, Refusal, Spelling};
use idl_tokens::parser::Parser;
use idl_tokens::symbol;

/// A parameter.
#[tactic(auto, unfolding(crate::specs::Reading::parameter_read))]
fn parameter(parser: &Parser<'_>, depth: usize, at: usize) -> Result<(Parameter, usize), Refusal>
    requires { at ≤ length parser.now }
    ensures gives { Gives seen_parameter result (parameter_read parser.now depth at) }
    ensures within { IfOk result (λ x. (at < x.1) × (x.1 ≤ length parser.now)) }
{
    let octet = parser.octet(at);
    let (attributes, next) = maybe_attributes(parser, depth, at)?;
    let (name, next) = ident(parser, false, next)?;
    Ok((
        Parameter {
            at: octet,
            attributes,
            name,
        },
        next,
    ))
}

/// A parameter after a comma.
fn next_parameter(
    parser: &Parser<'_>,
    depth: usize,
    at: usize,
) -> Result<(Parameter, usize), Refusal>
    requires { at ≤ length parser.now }
    ensures gives { Gives seen_parameter result (behind_read symbols.Comma parser.now (parameter_read parser.now depth) at) }
    ensures within { IfOk result (λ x. (at < x.1) × (x.1 ≤ length parser.now)) }
{
    let next = parser.mark(symbol::COMMA, at)?;
    let (item, next) = parameter(parser, depth, next)?;
    Ok((item, next))
}

/// Parameters with commas between.
fn parameter_list(
    parser: &Parser<'_>,
    depth: usize,
    at: usize,
) -> Result<(Vec<Parameter>, usize), Refusal>
    requires within { at ≤ length parser.now }
    ensures gives { Gives (λ v. map seen_parameter v.items) result (commas_read parser.now (parameter_read parser.now depth) at) }
    ensures within { IfOk result (λ x. (at < x.1) × (x.1 ≤ length parser.now)) }
{
    let (first, mut here) = parameter(parser, depth, at)?;
    let mut list = Vec::new(parser.alloc());
    list.push(first)?;
    while parser.stands(symbol::COMMA, here) {
        let (next, past) = next_parameter(parser, depth, here)?;
        list.push(next)?;
        here = past;
    }
    Ok((list, here))
}

/// The parameters of an operation, if any.
#[tactic(auto, unfolding(crate::specs::Reading::parameters_read))]
fn parameters(
    parser: &Parser<'_>,
    depth: usize,
    at: usize,
) -> Result<(Vec<Parameter>, usize), Refusal>
    requires { at ≤ length parser.now }
    ensures gives { Gives (λ v. map seen_parameter v.items) result (parameters_read parser.now depth at) }
    ensures within { IfOk result (λ x. (at ≤ x.1) × (x.1 ≤ length parser.now)) }
{
    if parser.stands(symbol::CLOSE_ROUND, at) {
        return Ok((Vec::new(parser.alloc()), at));
    }
    parameter_list(parser, depth, at)
}

/// Parameters in brackets, and `;`.
#[tactic(auto, unfolding(crate::specs::Reading::signature_read))]
fn signature(
    parser: &Parser<'_>,
    depth: usize,
    at: usize,
) -> Result<(Vec<Parameter>, usize), Refusal>
    requires { at ≤ length parser.now }
    ensures gives { Gives (λ v. map seen_parameter v.items) result (signature_read parser.now depth at) }
    ensures within { IfOk result (λ x. (at < x.1) × (x.1 ≤ length parser.now)) }
{
    let next = parser.open(depth, symbol::OPEN_ROUND, at)?;
    let (parameters, next) = parameters(parser, depth + 1, next)?;
    let next = parser.mark(symbol::CLOSE_ROUND, next)?;
    let next = parser.mark(symbol::SEMICOLON, next)?;
    Ok((parameters, next))
}

/// A name after a comma.
fn next_name(parser: &Parser<'_>, at: usize) -> Result<(Identifier, usize), Refusal>
    requires { at ≤ length parser.now }
    ensures gives { Gives (λ x. x) result (behind_read symbols.Comma parser.now (ident_read false parser.now) at) }
    ensures within { IfOk result (λ x. (at < x.1) × (x.1 ≤ length parser.now)) }
{
    let next = parser.mark(symbol::COMMA, at)?;
    let (item, next) = ident(parser, false, next)?;
    Ok((item, next))
}

/// Names with commas between.
fn name_list(parser: &Parser<'_>, at: usize) -> Result<(Vec<Identifier>, usize), Refusal>
    requires within { at ≤ length parser.now }
    ensures gives { Gives (λ v. v.items) result (commas_read parser.now (ident_read false parser.now) at) }
    ensures within { IfOk result (λ x. (at < x.1) × (x.1 ≤ length parser.now)) }
{
    let (first, mut here) = ident(parser, false, at)?;
    let mut list = Vec::new(parser.alloc());
    list.push(first)?;
    while parser.stands(symbol::COMMA, here) {
        let (next, past) = next_name(parser, here)?;
        list.push(next)?;
        here = past;
    }
    Ok((list, here))
}

/// Attributes of types, which begin at an octet, from `typedef` on.
#[tactic(auto, unfolding(crate::specs::Reading::types_read))]
fn types(
    parser: &Parser<'_>,
    depth: usize,
    octet: u32,
    at: usize,
) -> Result<(BodyElement, usize), Refusal>
    requires { at ≤ length parser.now }
    ensures gives { Gives seen_element result (types_read parser.now depth octet at) }
    ensures within { IfOk result (λ x. (at < x.1) × (x.1 ≤ length parser.now)) }
{
    let next = parser.mark(symbol::TYPEDEF, at)?;
    let (attributes, next) = attributes(parser, depth, next)?;
    let (names, next) = name_list(parser, next)?;
    let next = parser.mark(symbol::SEMICOLON, next)?;
    Ok((
        BodyElement::Types {
            at: octet,
            attributes,
            names,
        },
        next,
    ))
}

/// The word `include`, which is also a name.
#[tactic(auto, using(idl_grammar::proofs::Within::mark_within, crate::proofs::Within::include_is_word))]
fn include_word(parser: &Parser<'_>, at: usize) -> Result<(Identifier, usize), Refusal>
    requires { at ≤ length parser.now }
    ensures gives { Gives (λ x. x) result (spelled_read Include parser.now at) }
    ensures within { IfOk result (λ x. (at < x.1) × (x.1 ≤ length parser.now)) }
{
    if !parser.stands(words::INCLUDE, at) {
        return Err(Refusal::Syntax(at));
    }
    Ok((parser.word(at)?, parser.past(at)))
}

/// What begins with `include` at an octet: strings where one follows, else an operation of that name.
#[tactic(auto, unfolding(crate::specs::Reading::include_read))]
fn include(
    parser: &Parser<'_>,
    depth: usize,
    octet: u32,
    at: usize,
) -> Result<(BodyElement, usize), Refusal>
    requires { at ≤ length parser.now }
    ensures gives { Gives seen_element result (include_read parser.now depth octet at) }
    ensures within { IfOk result (λ x. (at < x.1) × (x.1 ≤ length parser.now)) }
{
    let (name, next) = include_word(parser, at)?;
    if parser.stands(symbol::QUOTED, next) {
        let (files, next) = parser.strings(next)?;
        let next = parser.mark(symbol::SEMICOLON, next)?;
        return Ok((BodyElement::Include { at: octet, files }, next));
    }
    let (parameters, next) = signature(parser, depth, next)?;
    Ok((
        BodyElement::Operation {
            at: octet,
            attributes: None,
            name,
            parameters,
        },
        next,
    ))
}

/// Attributes of an operation and its parameters, which begin at an octet.
#[tactic(auto, unfolding(crate::specs::Reading::operation_read))]
fn operation(
    parser: &Parser<'_>,
    depth: usize,
    octet: u32,
    at: usize,
) -> Result<(BodyElement, usize), Refusal>
    requires { at ≤ length parser.now }
    ensures gives { Gives seen_element result (operation_read parser.now depth octet at) }
    ensures within { IfOk result (λ x. (at < x.1) × (x.1 ≤ length parser.now)) }
{
    let (attributes, next) = maybe_attributes(parser, depth, at)?;
    let (name, next) = ident(parser, false, next)?;
    let (parameters, next) = signature(parser, depth, next)?;
    Ok((
        BodyElement::Operation {
            at: octet,
            attributes,
            name,
            parameters,
        },
        next,
    ))
}

/// An element of the body.
#[tactic(auto, unfolding(crate::specs::Reading::element_read))]
fn element(parser: &Parser<'_>, depth: usize, at: usize) -> Result<(BodyElement, usize), Refusal>
    requires { at ≤ length parser.now }
    ensures gives { Gives seen_element result (element_read parser.now depth at) }
    ensures within { IfOk result (λ x. (at < x.1) × (x.1 ≤ length parser.now)) }
{
    let octet = parser.octet(at);
    if parser.stands(symbol::TYPEDEF, at) {
        return types(parser, depth, octet, at);
    }
    if parser.stands(words::INCLUDE, at) {
        return include(parser, depth, octet, at);
    }
    operation(parser, depth, octet, at)
}

/// Whether an element of the body begins at a place.
#[tactic(auto, unfolding(crate::specs::Reading::element_firsts))]
fn begins_element(parser: &Parser<'_>, at: usize) -> bool
    ensures { result ≡ is_in element_firsts (symbol_at parser.now at) }
{
    parser.stands(symbol::TYPEDEF, at)
        || (parser.stands(symbol::OPEN_SQUARE, at) || is_name(parser, false, at))
}

/// The elements of the body.
#[tactic(auto, unfolding(crate::specs::Reading::body_read))]
fn body(parser: &Parser<'_>, depth: usize, at: usize) -> Result<(Vec<BodyElement>, usize), Refusal>
    requires within { at ≤ length parser.now }
    ensures gives { Gives (λ v. map seen_element v.items) result (body_read parser.now depth at) }
    ensures within { IfOk result (λ x. (at ≤ x.1) × (x.1 ≤ length parser.now)) }
{
    let mut list = Vec::new(parser.alloc());
    let mut here = at;
    while begins_element(parser, here) {
        let (next, past) = element(parser, depth, here)?;
        list.push(next)?;
        here = past;
    }
    Ok((list, here))
}

/// A file.
#[tactic(auto, unfolding(crate::specs::Reading::acf_read))]
pub(crate) fn acf(parser: &Parser<'_>, at: usize) -> Result<(Acf, usize), Refusal>
    requires { at ≤ length parser.now }
    ensures gives { Gives seen_acf result (acf_read parser.now at) }
    ensures within { IfOk result (λ x. (at < x.1) × (x.1 ≤ length parser.now)) }
{
    let octet = parser.octet(at);
    let (attributes, next) = maybe_attributes(parser, 0, at)?;
    let next = parser.mark(symbol::INTERFACE, next)?;
    let (name, next) = ident(parser, false, next)?;
    let next = parser.open(0, symbol::OPEN_CURLY, next)?;
    let (body, next) = body(parser, 1, next)?;
    let next = parser.mark(symbol::CLOSE_CURLY, next)?;
    Ok((
        Acf {
            at: octet,
            attributes,
            name,
            body,
        },
        next,
    ))
}
