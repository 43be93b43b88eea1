// Attributes (C706, sections 4.2.4, 4.2.9 and 4.2.12 to 4.2.14).
ghost use Rattle.std.specs.Prelude.{◌≡◌, ◌+◌, ◌≤◌, ◌<◌, length, map, option_map, IfOk, true};
ghost use Rattle.idl_grammar.specs.Text.{symbol_at, is_in};
ghost use Rattle.idl_grammar.specs.ReadPhrases.{behind_read};
ghost use Rattle.idl_grammar.specs.Gives.{Gives, GivesPlace};
ghost use Rattle.idl_grammar.specs.Symbols as symbols;
ghost use Rattle.idl_grammar.specs.Tree as tree;
ghost use Rattle.idl_grammar.specs.Grammar.{class_words, variable_words};
ghost use Rattle.idl_grammar.specs.ReadExpressions.{spelled_read, outer_read};
ghost use Rattle.idl_grammar.specs.Reading.{one_of_read, commas_read, pointer_class_read, variable_word_read, variable_name_read, plain_words};
ghost use Rattle.idl_grammar.specs.Reading.{local_read, uuid_read, version_numbers_read, version_read, endpoint_read, pointer_default_read};
ghost use Rattle.idl_grammar.specs.Reading.{variable_read, switch_attribute_read, case_attribute_read, bracket_attribute_read, attribute_kind_read};
ghost use Rattle.idl_grammar.specs.Reading.{attribute_read, attributes_read, maybe_attributes_read};
ghost use Rattle.idl_grammar.specs.Seen.{seen_expr, seen_kind, seen_attribute, seen_attributes};
ghost use Rattle.idl_tokens.specs.Found.{found};

use idl_grammar::{
    Attribute, AttributeKind, Attributes, Expr, PointerClass, Refusal, Spelling, SwitchType,
    UuidText, Variable, VariableWord,
};
use idl_tokens::parser::Parser;
use idl_tokens::{outer, symbol};

/// The class that a word stands for.
fn class_of(symbol: u8) -> Option<PointerClass>
    ensures { result ≡ found class_words symbol }
{
    match symbol {
        symbol::REF => Some(PointerClass::Reference),
        symbol::UNIQUE => Some(PointerClass::Unique),
        symbol::PTR => Some(PointerClass::Full),
        _ => None,
    }
}

/// What a word that names a variable stands for.
fn variable_word_of(symbol: u8) -> Option<VariableWord>
    ensures { result ≡ found variable_words symbol }
{
    match symbol {
        symbol::SIZE_IS => Some(VariableWord::SizeIs),
        symbol::MAX_IS => Some(VariableWord::MaxIs),
        symbol::LENGTH_IS => Some(VariableWord::LengthIs),
        symbol::FIRST_IS => Some(VariableWord::FirstIs),
        symbol::LAST_IS => Some(VariableWord::LastIs),
        symbol::SWITCH_IS => Some(VariableWord::SwitchIs),
        _ => None,
    }
}

/// The attribute of one word that a word stands for.
fn plain_of(symbol: u8) -> Option<AttributeKind>
    ensures { option_map seen_kind result ≡ found plain_words symbol }
{
    match symbol {
        symbol::IN => Some(AttributeKind::In),
        symbol::OUT => Some(AttributeKind::Out),
        symbol::STRING => Some(AttributeKind::String),
        symbol::CONTEXT_HANDLE => Some(AttributeKind::ContextHandle),
        symbol::DEFAULT => Some(AttributeKind::Default),
        symbol::IDEMPOTENT => Some(AttributeKind::Idempotent),
        symbol::BROADCAST => Some(AttributeKind::Broadcast),
        symbol::MAYBE => Some(AttributeKind::Maybe),
        symbol::ANY_SIZE => Some(AttributeKind::AnySize),
        symbol::ANY_LENGTH => Some(AttributeKind::AnyLength),
        _ => None,
    }
}

/// The symbols of the attributes of one word.
static PLAIN_WORDS: [u8; 10] = [
    symbol::IN,
    symbol::OUT,
    symbol::STRING,
    symbol::CONTEXT_HANDLE,
    symbol::DEFAULT,
    symbol::IDEMPOTENT,
    symbol::BROADCAST,
    symbol::MAYBE,
    symbol::ANY_SIZE,
    symbol::ANY_LENGTH,
];

/// The symbols of the classes of pointers.
static CLASS_WORDS: [u8; 3] = [symbol::REF, symbol::UNIQUE, symbol::PTR];

/// `local`, and the words that are banned where an attribute begins.
static LOCAL_WORDS: [u8; 2] = [symbol::LOCAL, symbol::BANNED_ATTRIBUTE];

/// The symbols of the attributes that name a variable.
static VARIABLE_WORDS: [u8; 6] = [
    symbol::SIZE_IS,
    symbol::MAX_IS,
    symbol::LENGTH_IS,
    symbol::FIRST_IS,
    symbol::LAST_IS,
    symbol::SWITCH_IS,
];

/// The class of a pointer.
#[tactic(auto, using(idl_tokens::proofs::Basics::words_read), unfolding(idl_grammar::specs::Reading::pointer_class_read))]
fn pointer_class(parser: &Parser<'_>, at: usize) -> Result<(PointerClass, usize), Refusal>
    requires { at ≤ length parser.now }
    ensures gives { Gives (λ x. x) result (pointer_class_read parser.now at) }
    ensures within { IfOk result (λ x. (at < x.1) × (x.1 ≤ length parser.now)) }
{
    match class_of(parser.symbol(at)) {
        Some(class) => Ok((class, parser.past(at))),
        None => Err(Refusal::Syntax(at)),
    }
}

/// The word of an attribute that names a variable.
#[tactic(auto, using(idl_tokens::proofs::Basics::words_read), unfolding(idl_grammar::specs::Reading::variable_word_read))]
fn variable_word(parser: &Parser<'_>, at: usize) -> Result<(VariableWord, usize), Refusal>
    requires { at ≤ length parser.now }
    ensures gives { Gives (λ x. x) result (variable_word_read parser.now at) }
    ensures within { IfOk result (λ x. (at < x.1) × (x.1 ≤ length parser.now)) }
{
    match variable_word_of(parser.symbol(at)) {
        Some(word) => Ok((word, parser.past(at))),
        None => Err(Refusal::Syntax(at)),
    }
}

/// A name, perhaps after `*`.
#[tactic(auto, unfolding(idl_grammar::specs::Reading::variable_name_read))]
fn variable_name(parser: &Parser<'_>, at: usize) -> Result<(Variable, usize), Refusal>
    requires { at ≤ length parser.now }
    ensures gives { Gives (λ x. x) result (variable_name_read parser.now at) }
    ensures within { IfOk result (λ x. (at < x.1) × (x.1 ≤ length parser.now)) }
{
    let (star, next) = parser.flag(symbol::STAR, at);
    let (name, next) = parser.ident(true, next)?;
    Ok((Variable { star, name }, next))
}

/// An attribute of one word.
#[tactic(auto, using(crate::proofs::Plain::plain_found, crate::proofs::Plain::plain_none, crate::proofs::Plain::plain_within))]
fn plain_attribute(parser: &Parser<'_>, at: usize) -> Result<(AttributeKind, usize), Refusal>
    requires { at ≤ length parser.now }
    ensures gives { Gives seen_kind result (one_of_read tree.Maybe plain_words parser.now at) }
    ensures within { IfOk result (λ x. (at < x.1) × (x.1 ≤ length parser.now)) }
{
    match plain_of(parser.symbol(at)) {
        Some(kind) => Ok((kind, parser.past(at))),
        None => Err(Refusal::Syntax(at)),
    }
}

/// `local`. Of the other attributes of one word, some are banned.
#[tactic(auto, using(crate::proofs::Plain::banned_here, crate::proofs::Plain::not_banned))]
fn local(parser: &Parser<'_>, at: usize) -> Result<usize, Refusal>
    requires { at ≤ length parser.now }
    ensures gives { GivesPlace result (local_read parser.now at) }
    ensures within { IfOk result (λ x. (at < x) × (x ≤ length parser.now)) }
{
    if parser.stands(symbol::BANNED_ATTRIBUTE, at) {
        return Err(Refusal::Banned(at));
    }
    parser.mark(symbol::LOCAL, at)
}

/// `uuid` and a UUID in brackets.
#[tactic(auto, unfolding(idl_grammar::specs::Reading::uuid_read))]
fn uuid(parser: &Parser<'_>, depth: usize, at: usize) -> Result<(UuidText, usize), Refusal>
    requires { at ≤ length parser.now }
    ensures gives { Gives (λ x. x) result (uuid_read parser.now depth at) }
    ensures within { IfOk result (λ x. (at < x.1) × (x.1 ≤ length parser.now)) }
{
    let next = parser.mark(symbol::UUID, at)?;
    let next = parser.open(depth, symbol::OPEN_ROUND, next)?;
    let (uuid, next) = parser.uuid_text(next)?;
    let next = parser.mark(symbol::CLOSE_ROUND, next)?;
    Ok((uuid, next))
}

/// A major version, and a minor one after a dot where it stands.
#[tactic(auto, unfolding(idl_grammar::specs::Reading::version_numbers_read))]
fn version_numbers(
    parser: &Parser<'_>,
    at: usize,
) -> Result<((Spelling, Option<Spelling>), usize), Refusal>
    requires { at ≤ length parser.now }
    ensures gives { Gives (λ x. x) result (version_numbers_read parser.now at) }
    ensures within { IfOk result (λ x. (at < x.1) × (x.1 ≤ length parser.now)) }
{
    let (major, next) = parser.spelled(symbol::NUMBER, at)?;
    if !parser.stands(symbol::DOT, next) {
        return Ok(((major, None), next));
    }
    let next = parser.mark(symbol::DOT, next)?;
    let (minor, next) = parser.spelled(symbol::NUMBER, next)?;
    Ok(((major, Some(minor)), next))
}

/// `version` and its numbers in brackets.
#[tactic(auto, unfolding(idl_grammar::specs::Reading::version_read))]
fn version(
    parser: &Parser<'_>,
    depth: usize,
    at: usize,
) -> Result<((Spelling, Option<Spelling>), usize), Refusal>
    requires { at ≤ length parser.now }
    ensures gives { Gives (λ x. x) result (version_read parser.now depth at) }
    ensures within { IfOk result (λ x. (at < x.1) × (x.1 ≤ length parser.now)) }
{
    let next = parser.mark(symbol::VERSION, at)?;
    let next = parser.open(depth, symbol::OPEN_ROUND, next)?;
    let (numbers, next) = version_numbers(parser, next)?;
    let next = parser.mark(symbol::CLOSE_ROUND, next)?;
    Ok((numbers, next))
}

/// `endpoint` and its strings in brackets.
#[tactic(auto, unfolding(idl_grammar::specs::Reading::endpoint_read))]
fn endpoint(parser: &Parser<'_>, depth: usize, at: usize) -> Result<(Vec<Spelling>, usize), Refusal>
    requires { at ≤ length parser.now }
    ensures gives { Gives (λ v. v.items) result (endpoint_read parser.now depth at) }
    ensures within { IfOk result (λ x. (at < x.1) × (x.1 ≤ length parser.now)) }
{
    let next = parser.mark(symbol::ENDPOINT, at)?;
    let next = parser.open(depth, symbol::OPEN_ROUND, next)?;
    let (endpoints, next) = parser.strings(next)?;
    let next = parser.mark(symbol::CLOSE_ROUND, next)?;
    Ok((endpoints, next))
}

/// `pointer_default` and a class in brackets.
#[tactic(auto, unfolding(idl_grammar::specs::Reading::pointer_default_read))]
fn pointer_default(
    parser: &Parser<'_>,
    depth: usize,
    at: usize,
) -> Result<(PointerClass, usize), Refusal>
    requires { at ≤ length parser.now }
    ensures gives { Gives (λ x. x) result (pointer_default_read parser.now depth at) }
    ensures within { IfOk result (λ x. (at < x.1) × (x.1 ≤ length parser.now)) }
{
    let next = parser.mark(symbol::POINTER_DEFAULT, at)?;
    let next = parser.open(depth, symbol::OPEN_ROUND, next)?;
    let (class, next) = pointer_class(parser, next)?;
    let next = parser.mark(symbol::CLOSE_ROUND, next)?;
    Ok((class, next))
}

/// A word that names a variable, and the variable in brackets.
#[tactic(auto, unfolding(idl_grammar::specs::Reading::variable_read))]
fn variable(
    parser: &Parser<'_>,
    depth: usize,
    at: usize,
) -> Result<((VariableWord, Variable), usize), Refusal>
    requires { at ≤ length parser.now }
    ensures gives { Gives (λ x. x) result (variable_read parser.now depth at) }
    ensures within { IfOk result (λ x. (at < x.1) × (x.1 ≤ length parser.now)) }
{
    let (word, next) = variable_word(parser, at)?;
    let next = parser.open(depth, symbol::OPEN_ROUND, next)?;
    let (variable, next) = variable_name(parser, next)?;
    let next = parser.mark(symbol::CLOSE_ROUND, next)?;
    Ok(((word, variable), next))
}

/// `switch_type` and a type in brackets.
#[tactic(auto, unfolding(idl_grammar::specs::Reading::switch_attribute_read))]
fn switch_attribute(
    parser: &Parser<'_>,
    depth: usize,
    at: usize,
) -> Result<(SwitchType, usize), Refusal>
    requires { at ≤ length parser.now }
    ensures gives { Gives (λ x. x) result (switch_attribute_read parser.now depth at) }
    ensures within { IfOk result (λ x. (at < x.1) × (x.1 ≤ length parser.now)) }
{
    let next = parser.mark(symbol::SWITCH_TYPE, at)?;
    let next = parser.open(depth, symbol::OPEN_ROUND, next)?;
    let (of, next) = parser.switch_type(true, next)?;
    let next = parser.mark(symbol::CLOSE_ROUND, next)?;
    Ok((of, next))
}

/// An expression after a comma, inside attribute brackets.
fn next_value(
    parser: &Parser<'_>,
    nesting: usize,
    depth: usize,
    at: usize,
) -> Result<(Expr, usize), Refusal>
    requires within { at ≤ length parser.now }
    requires shallow { depth ≤ 64 }
    ensures gives { Gives (seen_expr) result (behind_read symbols.Comma parser.now (outer_read nesting true parser.now depth) at) }
    ensures within { IfOk result (λ x. (at < x.1) × (x.1 ≤ length parser.now)) }
{
    let next = parser.mark(symbol::COMMA, at)?;
    let (item, next) = outer(parser, nesting, true, depth, next)?;
    Ok((item, next))
}

/// Expressions with commas between, inside attribute brackets.
fn values(
    parser: &Parser<'_>,
    nesting: usize,
    depth: usize,
    at: usize,
) -> Result<(Vec<Expr>, usize), Refusal>
    requires within { at ≤ length parser.now }
    requires shallow { depth ≤ 64 }
    ensures gives { Gives (λ v. map seen_expr v.items) result (commas_read parser.now (outer_read nesting true parser.now depth) at) }
    ensures within { IfOk result (λ x. (at < x.1) × (x.1 ≤ length parser.now)) }
{
    let (first, mut here) = outer(parser, nesting, true, depth, at)?;
    let mut list = Vec::new(parser.alloc());
    list.push(first)?;
    while parser.stands(symbol::COMMA, here) {
        let (next, past) = next_value(parser, nesting, depth, here)?;
        list.push(next)?;
        here = past;
    }
    Ok((list, here))
}

/// `case` and its values in brackets.
#[tactic(auto, unfolding(idl_grammar::specs::Reading::case_attribute_read))]
fn case_attribute(
    parser: &Parser<'_>,
    nesting: usize,
    depth: usize,
    at: usize,
) -> Result<(Vec<Expr>, usize), Refusal>
    requires { at ≤ length parser.now }
    ensures gives { Gives (λ v. map seen_expr v.items) result (case_attribute_read nesting parser.now depth at) }
    ensures within { IfOk result (λ x. (at < x.1) × (x.1 ≤ length parser.now)) }
{
    let next = parser.mark(symbol::CASE, at)?;
    let next = parser.open(depth, symbol::OPEN_ROUND, next)?;
    let (values, next) = values(parser, nesting, depth + 1, next)?;
    let next = parser.mark(symbol::CLOSE_ROUND, next)?;
    Ok((values, next))
}

/// An attribute with brackets after its word.
#[tactic(auto, unfolding(idl_grammar::specs::Reading::bracket_attribute_read))]
fn bracket_attribute(
    parser: &Parser<'_>,
    nesting: usize,
    depth: usize,
    at: usize,
) -> Result<(AttributeKind, usize), Refusal>
    requires { at ≤ length parser.now }
    ensures gives { Gives seen_kind result (bracket_attribute_read nesting parser.now depth at) }
    ensures within { IfOk result (λ x. (at < x.1) × (x.1 ≤ length parser.now)) }
{
    if parser.stands(symbol::UUID, at) {
        let (uuid, next) = uuid(parser, depth, at)?;
        return Ok((AttributeKind::Uuid(uuid), next));
    }
    if parser.stands(symbol::VERSION, at) {
        let ((major, minor), next) = version(parser, depth, at)?;
        return Ok((AttributeKind::Version { major, minor }, next));
    }
    if parser.stands(symbol::ENDPOINT, at) {
        let (endpoints, next) = endpoint(parser, depth, at)?;
        return Ok((AttributeKind::Endpoint(endpoints), next));
    }
    if parser.stands(symbol::POINTER_DEFAULT, at) {
        let (class, next) = pointer_default(parser, depth, at)?;
        return Ok((AttributeKind::PointerDefault(class), next));
    }
    if parser.begins(&VARIABLE_WORDS, at) {
        let ((word, variable), next) = variable(parser, depth, at)?;
        return Ok((AttributeKind::Of(word, variable), next));
    }
    if parser.stands(symbol::SWITCH_TYPE, at) {
        let (of, next) = switch_attribute(parser, depth, at)?;
        return Ok((AttributeKind::SwitchTypeIs(of), next));
    }
    let (values, next) = case_attribute(parser, nesting, depth, at)?;
    Ok((AttributeKind::Case(values), next))
}

/// What an attribute says.
#[tactic(auto, unfolding(idl_grammar::specs::Reading::attribute_kind_read))]
fn attribute_kind(
    parser: &Parser<'_>,
    nesting: usize,
    depth: usize,
    at: usize,
) -> Result<(AttributeKind, usize), Refusal>
    requires { at ≤ length parser.now }
    ensures gives { Gives seen_kind result (attribute_kind_read nesting parser.now depth at) }
    ensures within { IfOk result (λ x. (at < x.1) × (x.1 ≤ length parser.now)) }
{
    if parser.begins(&PLAIN_WORDS, at) {
        return plain_attribute(parser, at);
    }
    if parser.begins(&CLASS_WORDS, at) {
        let (class, next) = pointer_class(parser, at)?;
        return Ok((AttributeKind::Class(class), next));
    }
    if parser.begins(&LOCAL_WORDS, at) {
        let next = local(parser, at)?;
        return Ok((AttributeKind::Local, next));
    }
    bracket_attribute(parser, nesting, depth, at)
}

/// An attribute.
#[tactic(auto, unfolding(idl_grammar::specs::Reading::attribute_read))]
fn attribute(
    parser: &Parser<'_>,
    nesting: usize,
    depth: usize,
    at: usize,
) -> Result<(Attribute, usize), Refusal>
    requires { at ≤ length parser.now }
    ensures gives { Gives seen_attribute result (attribute_read nesting parser.now depth at) }
    ensures within { IfOk result (λ x. (at < x.1) × (x.1 ≤ length parser.now)) }
{
    let (kind, next) = attribute_kind(parser, nesting, depth, at)?;
    let octet = parser.octet(at);
    Ok((Attribute { at: octet, kind }, next))
}

/// An attribute after a comma.
fn next_attribute(
    parser: &Parser<'_>,
    nesting: usize,
    depth: usize,
    at: usize,
) -> Result<(Attribute, usize), Refusal>
    requires within { at ≤ length parser.now }
    ensures gives { Gives (seen_attribute) result (behind_read symbols.Comma parser.now (attribute_read nesting parser.now depth) at) }
    ensures within { IfOk result (λ x. (at < x.1) × (x.1 ≤ length parser.now)) }
{
    let next = parser.mark(symbol::COMMA, at)?;
    let (item, next) = attribute(parser, nesting, depth, next)?;
    Ok((item, next))
}

/// Attributes with commas between.
fn attribute_list(
    parser: &Parser<'_>,
    nesting: usize,
    depth: usize,
    at: usize,
) -> Result<(Vec<Attribute>, usize), Refusal>
    requires within { at ≤ length parser.now }
    ensures gives { Gives (λ v. map seen_attribute v.items) result (commas_read parser.now (attribute_read nesting parser.now depth) at) }
    ensures within { IfOk result (λ x. (at < x.1) × (x.1 ≤ length parser.now)) }
{
    let (first, mut here) = attribute(parser, nesting, depth, at)?;
    let mut list = Vec::new(parser.alloc());
    list.push(first)?;
    while parser.stands(symbol::COMMA, here) {
        let (next, past) = next_attribute(parser, nesting, depth, here)?;
        list.push(next)?;
        here = past;
    }
    Ok((list, here))
}

/// A list of attributes in square brackets.
#[tactic(auto, unfolding(idl_grammar::specs::Reading::attributes_read))]
pub fn attributes(
    parser: &Parser<'_>,
    nesting: usize,
    depth: usize,
    at: usize,
) -> Result<(Attributes, usize), Refusal>
    requires { at ≤ length parser.now }
    ensures gives { Gives seen_attributes result (attributes_read nesting parser.now depth at) }
    ensures within { IfOk result (λ x. (at < x.1) × (x.1 ≤ length parser.now)) }
{
    let next = parser.open(depth, symbol::OPEN_SQUARE, at)?;
    let (list, next) = attribute_list(parser, nesting, depth + 1, next)?;
    let next = parser.mark(symbol::CLOSE_SQUARE, next)?;
    let octet = parser.octet(at);
    Ok((Attributes { at: octet, list }, next))
}

/// A list of attributes in square brackets, where one begins.
#[tactic(auto, unfolding(idl_grammar::specs::Reading::maybe_attributes_read))]
pub fn maybe_attributes(
    parser: &Parser<'_>,
    nesting: usize,
    depth: usize,
    at: usize,
) -> Result<(Option<Attributes>, usize), Refusal>
    requires { at ≤ length parser.now }
    ensures gives { Gives (option_map seen_attributes) result (maybe_attributes_read nesting parser.now depth at) }
    ensures within { IfOk result (λ x. (at ≤ x.1) × (x.1 ≤ length parser.now)) }
{
    if !parser.stands(symbol::OPEN_SQUARE, at) {
        return Ok((None, at));
    }
    let (attributes, next) = attributes(parser, nesting, depth, at)?;
    Ok((Some(attributes), next))
}
