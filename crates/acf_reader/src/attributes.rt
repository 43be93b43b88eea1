// Names and attributes.
ghost use Rattle.std.specs.Prelude.{◌≡◌, ◌+◌, ◌≤◌, ◌<◌, length, map, option_map, IfOk, true};
ghost use Rattle.idl_grammar.specs.Text.{symbol_at, is_in};
ghost use Rattle.idl_grammar.specs.ReadPhrases.{behind_read};
ghost use Rattle.idl_grammar.specs.Gives.{Gives, GivesPlace};
ghost use Rattle.idl_grammar.specs.Symbols as symbols;
ghost use Rattle.idl_grammar.specs.Reading.{one_of_read, commas_read};
ghost use Rattle.idl_tokens.specs.Found.{found};
ghost use Rattle.acf_reader.specs.declared.tree.AttributeKind.TheVariants as kinds;
ghost use Rattle.acf_reader.specs.Symbols.{names};
ghost use Rattle.acf_reader.specs.Seen.{seen_attributes};
ghost use Rattle.acf_reader.specs.Reading.{ident_read, handle_type_read, variable_read, implicit_handle_read, one_word_attributes, code_read};
ghost use Rattle.acf_reader.specs.Reading.{attribute_kind_read, attribute_read, attributes_read, maybe_attributes_read};

use crate::tree::{Attribute, AttributeKind, Attributes, HandleType};
use crate::words;
use idl_grammar::{Identifier, Refusal};
use idl_tokens::parser::Parser;
use idl_tokens::symbol;

/// The symbols of names inside attribute brackets.
static NAMES_INSIDE: [u8; 3] = [symbol::NAME, symbol::BANNED_ATTRIBUTE, words::INCLUDE];

/// The symbols of names elsewhere.
static NAMES_OUTSIDE: [u8; 14] = [
    symbol::NAME,
    symbol::BANNED_ATTRIBUTE,
    words::INCLUDE,
    words::AUTO_HANDLE,
    words::EXPLICIT_HANDLE,
    words::IMPLICIT_HANDLE,
    words::CODE,
    words::NOCODE,
    words::IN_LINE,
    words::OUT_OF_LINE,
    words::ENABLE_ALLOCATE,
    words::HEAP,
    words::COMM_STATUS,
    words::FAULT_STATUS,
];

/// The symbols of the attributes of one word, but for `code`.
static ONE_WORD_ATTRIBUTES: [u8; 9] = [
    words::AUTO_HANDLE,
    words::EXPLICIT_HANDLE,
    words::NOCODE,
    words::IN_LINE,
    words::OUT_OF_LINE,
    words::ENABLE_ALLOCATE,
    words::HEAP,
    words::COMM_STATUS,
    words::FAULT_STATUS,
];

/// `code`, and the words that are banned where an attribute begins.
static CODE_WORDS: [u8; 2] = [words::CODE, symbol::BANNED_ATTRIBUTE];

/// The attribute of one word that a word stands for.
fn one_word_of(symbol: u8) -> Option<AttributeKind>
    ensures { result ≡ found one_word_attributes symbol }
{
    match symbol {
        words::AUTO_HANDLE => Some(AttributeKind::AutoHandle),
        words::EXPLICIT_HANDLE => Some(AttributeKind::ExplicitHandle),
        words::NOCODE => Some(AttributeKind::NoCode),
        words::IN_LINE => Some(AttributeKind::InLine),
        words::OUT_OF_LINE => Some(AttributeKind::OutOfLine),
        words::ENABLE_ALLOCATE => Some(AttributeKind::EnableAllocate),
        words::HEAP => Some(AttributeKind::Heap),
        words::COMM_STATUS => Some(AttributeKind::CommStatus),
        words::FAULT_STATUS => Some(AttributeKind::FaultStatus),
        _ => None,
    }
}

/// Whether a name is at a place, inside attribute brackets or outside.
#[tactic(auto, unfolding(crate::specs::Symbols::names))]
pub(crate) fn is_name(parser: &Parser<'_>, inside: bool, at: usize) -> bool
    ensures { result ≡ is_in (names inside) (symbol_at parser.now at) }
{
    if inside {
        parser.begins(&NAMES_INSIDE, at)
    } else {
        parser.begins(&NAMES_OUTSIDE, at)
    }
}

/// A name, inside attribute brackets or outside.
#[tactic(auto, using(crate::proofs::Within::name_within, crate::proofs::Within::name_is_word))]
pub(crate) fn ident(
    parser: &Parser<'_>,
    inside: bool,
    at: usize,
) -> Result<(Identifier, usize), Refusal>
    requires within { at ≤ length parser.now }
    ensures gives { Gives (λ x. x) result (ident_read inside parser.now at) }
    ensures within { IfOk result (λ x. (at < x.1) × (x.1 ≤ length parser.now)) }
{
    if !is_name(parser, inside, at) {
        return Err(Refusal::Syntax(at));
    }
    Ok((parser.word(at)?, parser.past(at)))
}

/// `handle_t` or the name of a type.
#[tactic(auto, unfolding(crate::specs::Reading::handle_type_read))]
fn handle_type(parser: &Parser<'_>, at: usize) -> Result<(HandleType, usize), Refusal>
    requires { at ≤ length parser.now }
    ensures gives { Gives (λ x. x) result (handle_type_read parser.now at) }
    ensures within { IfOk result (λ x. (at < x.1) × (x.1 ≤ length parser.now)) }
{
    if parser.stands(symbol::HANDLE_T, at) {
        let next = parser.mark(symbol::HANDLE_T, at)?;
        return Ok((HandleType::Handle, next));
    }
    let (name, next) = ident(parser, true, at)?;
    Ok((HandleType::Name(name), next))
}

/// The type and the name of a variable.
#[tactic(auto, unfolding(crate::specs::Reading::variable_read))]
fn variable(parser: &Parser<'_>, at: usize) -> Result<((HandleType, Identifier), usize), Refusal>
    requires { at ≤ length parser.now }
    ensures gives { Gives (λ x. x) result (variable_read parser.now at) }
    ensures within { IfOk result (λ x. (at < x.1) × (x.1 ≤ length parser.now)) }
{
    let (of, next) = handle_type(parser, at)?;
    let (name, next) = ident(parser, true, next)?;
    Ok(((of, name), next))
}

/// `implicit_handle` and its variable in brackets.
#[tactic(auto, unfolding(crate::specs::Reading::implicit_handle_read))]
fn implicit_handle(
    parser: &Parser<'_>,
    depth: usize,
    at: usize,
) -> Result<((HandleType, Identifier), usize), Refusal>
    requires { at ≤ length parser.now }
    ensures gives { Gives (λ x. x) result (implicit_handle_read parser.now depth at) }
    ensures within { IfOk result (λ x. (at < x.1) × (x.1 ≤ length parser.now)) }
{
    let next = parser.mark(words::IMPLICIT_HANDLE, at)?;
    let next = parser.open(depth, symbol::OPEN_ROUND, next)?;
    let (variable, next) = variable(parser, next)?;
    let next = parser.mark(symbol::CLOSE_ROUND, next)?;
    Ok((variable, next))
}

/// An attribute of one word.
#[tactic(auto, using(idl_tokens::proofs::Basics::one_of_found, idl_tokens::proofs::Basics::one_of_none, idl_tokens::proofs::Basics::found_within))]
fn one_word_attribute(parser: &Parser<'_>, at: usize) -> Result<(AttributeKind, usize), Refusal>
    requires { at ≤ length parser.now }
    ensures gives { Gives (λ x. x) result (one_of_read kinds.Heap one_word_attributes parser.now at) }
    ensures within { IfOk result (λ x. (at < x.1) × (x.1 ≤ length parser.now)) }
{
    match one_word_of(parser.symbol(at)) {
        Some(kind) => Ok((kind, parser.past(at))),
        None => Err(Refusal::Syntax(at)),
    }
}

/// `code`. Of the other attributes of one word, some are banned.
#[tactic(auto, using(crate::proofs::Within::banned_here, crate::proofs::Within::not_banned))]
fn code(parser: &Parser<'_>, at: usize) -> Result<usize, Refusal>
    requires { at ≤ length parser.now }
    ensures gives { GivesPlace result (code_read parser.now at) }
    ensures within { IfOk result (λ x. (at < x) × (x ≤ length parser.now)) }
{
    if parser.stands(symbol::BANNED_ATTRIBUTE, at) {
        return Err(Refusal::Banned(at));
    }
    parser.mark(words::CODE, at)
}

/// What an attribute says.
#[tactic(auto, unfolding(crate::specs::Reading::attribute_kind_read))]
fn attribute_kind(
    parser: &Parser<'_>,
    depth: usize,
    at: usize,
) -> Result<(AttributeKind, usize), Refusal>
    requires { at ≤ length parser.now }
    ensures gives { Gives (λ x. x) result (attribute_kind_read parser.now depth at) }
    ensures within { IfOk result (λ x. (at < x.1) × (x.1 ≤ length parser.now)) }
{
    if parser.begins(&ONE_WORD_ATTRIBUTES, at) {
        return one_word_attribute(parser, at);
    }
    if parser.begins(&CODE_WORDS, at) {
        let next = code(parser, at)?;
        return Ok((AttributeKind::Code, next));
    }
    let ((of, name), next) = implicit_handle(parser, depth, at)?;
    Ok((AttributeKind::ImplicitHandle { of, name }, next))
}

/// An attribute.
#[tactic(auto, unfolding(crate::specs::Reading::attribute_read))]
fn attribute(parser: &Parser<'_>, depth: usize, at: usize) -> Result<(Attribute, usize), Refusal>
    requires { at ≤ length parser.now }
    ensures gives { Gives (λ x. x) result (attribute_read parser.now depth at) }
    ensures within { IfOk result (λ x. (at < x.1) × (x.1 ≤ length parser.now)) }
{
    let (kind, next) = attribute_kind(parser, depth, at)?;
    let octet = parser.octet(at);
    Ok((Attribute { at: octet, kind }, next))
}

/// An attribute after a comma.
fn next_attribute(
    parser: &Parser<'_>,
    depth: usize,
    at: usize,
) -> Result<(Attribute, usize), Refusal>
    requires { at ≤ length parser.now }
    ensures gives { Gives (λ x. x) result (behind_read symbols.Comma parser.now (attribute_read parser.now depth) at) }
    ensures within { IfOk result (λ x. (at < x.1) × (x.1 ≤ length parser.now)) }
{
    let next = parser.mark(symbol::COMMA, at)?;
    let (item, next) = attribute(parser, depth, next)?;
    Ok((item, next))
}

/// Attributes with commas between.
fn attribute_list(
    parser: &Parser<'_>,
    depth: usize,
    at: usize,
) -> Result<(Vec<Attribute>, usize), Refusal>
    requires within { at ≤ length parser.now }
    ensures gives { Gives (λ v. v.items) result (commas_read parser.now (attribute_read parser.now depth) at) }
    ensures within { IfOk result (λ x. (at < x.1) × (x.1 ≤ length parser.now)) }
{
    let (first, mut here) = attribute(parser, depth, at)?;
    let mut list = Vec::new(parser.alloc());
    list.push(first)?;
    while parser.stands(symbol::COMMA, here) {
        let (next, past) = next_attribute(parser, depth, here)?;
        list.push(next)?;
        here = past;
    }
    Ok((list, here))
}

/// A list of attributes in square brackets.
#[tactic(auto, unfolding(crate::specs::Reading::attributes_read))]
pub(crate) fn attributes(
    parser: &Parser<'_>,
    depth: usize,
    at: usize,
) -> Result<(Attributes, usize), Refusal>
    requires { at ≤ length parser.now }
    ensures gives { Gives seen_attributes result (attributes_read parser.now depth at) }
    ensures within { IfOk result (λ x. (at < x.1) × (x.1 ≤ length parser.now)) }
{
    let next = parser.open(depth, symbol::OPEN_SQUARE, at)?;
    let (list, next) = attribute_list(parser, depth + 1, next)?;
    let next = parser.mark(symbol::CLOSE_SQUARE, next)?;
    let octet = parser.octet(at);
    Ok((Attributes { at: octet, list }, next))
}

/// A list of attributes in square brackets, where one begins.
#[tactic(auto, unfolding(crate::specs::Reading::maybe_attributes_read))]
pub(crate) fn maybe_attributes(
    parser: &Parser<'_>,
    depth: usize,
    at: usize,
) -> Result<(Option<Attributes>, usize), Refusal>
    requires { at ≤ length parser.now }
    ensures gives { Gives (option_map seen_attributes) result (maybe_attributes_read parser.now depth at) }
    ensures within { IfOk result (λ x. (at ≤ x.1) × (x.1 ≤ length parser.now)) }
{
    if !parser.stands(symbol::OPEN_SQUARE, at) {
        return Ok((None, at));
    }
    let (attributes, next) = attributes(parser, depth, at)?;
    Ok((Some(attributes), next))
}
