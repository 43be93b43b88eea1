// Enumerations, and what a union has beside its arms (C706, sections 4.2.9 and 4.2.11).
ghost use Rattle.std.specs.Prelude.{◌≡◌, ℕ, ◌+◌, ◌≤◌, ◌<◌, [], ◌∷◌, length, map, option_map, IfOk};
ghost use Rattle.idl_grammar.specs.Text.{symbol_at, is_in};
ghost use Rattle.idl_grammar.specs.ReadPhrases.{behind_read, turned};
ghost use Rattle.idl_grammar.specs.Gives.{Gives};
ghost use Rattle.idl_grammar.specs.Symbols as symbols;
ghost use Rattle.idl_grammar.specs.Tree as tree;
ghost use Rattle.idl_grammar.specs.Reading.{commas_read, enumerator_read, enumerators_read, label_firsts, label_read, labels_read, discriminant_read};
ghost use Rattle.idl_grammar.specs.Reading.{maybe_name_read, union_switch_read, enum_read};
ghost use Rattle.idl_grammar.specs.Seen.{seen_expr, seen_enumerator, seen_label, seen_type};

use idl_grammar::{Discriminant, Enumerator, Identifier, Label, Refusal, TagKind, TypeSpec};
use idl_tokens::parser::Parser;
use idl_tokens::{outer, symbol};

/// The symbols with which a label begins.
static LABEL_FIRSTS: [u8; 2] = [symbol::CASE, symbol::DEFAULT];

/// A name of an enumeration, and its value where one stands.
#[tactic(auto, unfolding(idl_grammar::specs::Reading::enumerator_read))]
fn enumerator(
    parser: &Parser<'_>,
    nesting: usize,
    depth: usize,
    at: usize,
) -> Result<(Enumerator, usize), Refusal>
    requires within { at ≤ length parser.now }
    requires shallow { depth ≤ 64 }
    ensures gives { Gives (seen_enumerator) result (enumerator_read nesting parser.now depth at) }
    ensures within { IfOk result (λ x. (at < x.1) × (x.1 ≤ length parser.now)) }
{
    let (name, next) = parser.ident(false, at)?;
    if !parser.stands(symbol::EQUALS, next) {
        return Ok((Enumerator { name, value: None }, next));
    }
    let next = parser.mark(symbol::EQUALS, next)?;
    let (value, next) = outer(parser, nesting, false, depth, next)?;
    let value = Some(value);
    Ok((Enumerator { name, value }, next))
}

/// An enumerator after a comma.
fn next_enumerator(
    parser: &Parser<'_>,
    nesting: usize,
    depth: usize,
    at: usize,
) -> Result<(Enumerator, usize), Refusal>
    requires within { at ≤ length parser.now }
    requires shallow { depth ≤ 64 }
    ensures gives { Gives (seen_enumerator) result (behind_read symbols.Comma parser.now (enumerator_read nesting parser.now depth) at) }
    ensures within { IfOk result (λ x. (at < x.1) × (x.1 ≤ length parser.now)) }
{
    let next = parser.mark(symbol::COMMA, at)?;
    let (item, next) = enumerator(parser, nesting, depth, next)?;
    Ok((item, next))
}

/// Enumerators with commas between.
fn enumerator_list(
    parser: &Parser<'_>,
    nesting: usize,
    depth: usize,
    at: usize,
) -> Result<(Vec<Enumerator>, usize), Refusal>
    requires within { at ≤ length parser.now }
    requires shallow { depth ≤ 64 }
    ensures gives { Gives (λ v. map seen_enumerator v.items) result (commas_read parser.now (enumerator_read nesting parser.now depth) at) }
    ensures within { IfOk result (λ x. (at < x.1) × (x.1 ≤ length parser.now)) }
{
    let (first, mut here) = enumerator(parser, nesting, depth, at)?;
    let mut list = Vec::new(parser.alloc());
    list.push(first)?;
    while parser.stands(symbol::COMMA, here) {
        let (next, past) = next_enumerator(parser, nesting, depth, here)?;
        list.push(next)?;
        here = past;
    }
    Ok((list, here))
}

/// Enumerators in curly brackets.
#[tactic(auto, unfolding(idl_grammar::specs::Reading::enumerators_read))]
fn enumerators(
    parser: &Parser<'_>,
    nesting: usize,
    depth: usize,
    at: usize,
) -> Result<(Vec<Enumerator>, usize), Refusal>
    requires within { at ≤ length parser.now }
    requires shallow { depth ≤ 64 }
    ensures gives { Gives (λ v. map seen_enumerator v.items) result (enumerators_read nesting parser.now depth at) }
    ensures within { IfOk result (λ x. (at < x.1) × (x.1 ≤ length parser.now)) }
{
    let next = parser.open(depth, symbol::OPEN_CURLY, at)?;
    let (enumerators, next) = enumerator_list(parser, nesting, depth + 1, next)?;
    let next = parser.mark(symbol::CLOSE_CURLY, next)?;
    Ok((enumerators, next))
}

/// The enumerators of a type, after its tag where it has one.
fn enum_body(
    parser: &Parser<'_>,
    nesting: usize,
    depth: usize,
    octet: u32,
    tag: Option<Identifier>,
    at: usize,
) -> Result<(TypeSpec, usize), Refusal>
    requires within { at ≤ length parser.now }
    requires shallow { depth ≤ 64 }
    ensures gives { Gives (seen_type) result (turned (λ es. tree.Enum octet tag es) (enumerators_read nesting parser.now depth at)) }
    ensures within { IfOk result (λ x. (at < x.1) × (x.1 ≤ length parser.now)) }
{
    let (enumerators, next) = enumerators(parser, nesting, depth, at)?;
    Ok((
        TypeSpec::Enum {
            at: octet,
            tag,
            enumerators,
        },
        next,
    ))
}

/// What stands after `enum`, which begins at an octet.
#[tactic(auto, unfolding(idl_grammar::specs::Reading::enum_read))]
pub fn enumeration(
    parser: &Parser<'_>,
    nesting: usize,
    depth: usize,
    octet: u32,
    at: usize,
) -> Result<(TypeSpec, usize), Refusal>
    requires within { at ≤ length parser.now }
    requires shallow { depth ≤ 64 }
    ensures gives { Gives (seen_type) result (enum_read nesting parser.now depth octet at) }
    ensures within { IfOk result (λ x. (at < x.1) × (x.1 ≤ length parser.now)) }
{
    if parser.is_name(false, at) {
        let (tag, next) = parser.ident(false, at)?;
        if !parser.stands(symbol::OPEN_CURLY, next) {
            let kind = TagKind::Enum;
            return Ok((
                TypeSpec::Tag {
                    at: octet,
                    kind,
                    tag,
                },
                next,
            ));
        }
        return enum_body(parser, nesting, depth, octet, Some(tag), next);
    }
    enum_body(parser, nesting, depth, octet, None, at)
}

/// A label of a case.
#[tactic(auto, unfolding(idl_grammar::specs::Reading::label_read))]
fn label(
    parser: &Parser<'_>,
    nesting: usize,
    depth: usize,
    at: usize,
) -> Result<(Label, usize), Refusal>
    requires within { at ≤ length parser.now }
    requires shallow { depth ≤ 64 }
    ensures gives { Gives (seen_label) result (label_read nesting parser.now depth at) }
    ensures within { IfOk result (λ x. (at < x.1) × (x.1 ≤ length parser.now)) }
{
    if parser.stands(symbol::CASE, at) {
        let (octet, next) = parser.placed(symbol::CASE, at)?;
        let (value, next) = outer(parser, nesting, false, depth, next)?;
        let next = parser.mark(symbol::COLON, next)?;
        return Ok((Label::Value { at: octet, value }, next));
    }
    let (octet, next) = parser.placed(symbol::DEFAULT, at)?;
    let next = parser.mark(symbol::COLON, next)?;
    Ok((Label::Default { at: octet }, next))
}

/// Whether a label begins at a place.
pub fn begins_label(parser: &Parser<'_>, at: usize) -> bool
    ensures { result ≡ is_in label_firsts (symbol_at parser.now at) }
{
    parser.begins(&LABEL_FIRSTS, at)
}

/// Labels, at least one.
#[tactic(auto, unfolding(idl_grammar::specs::Reading::labels_read))]
pub fn labels(
    parser: &Parser<'_>,
    nesting: usize,
    depth: usize,
    at: usize,
) -> Result<(Vec<Label>, usize), Refusal>
    requires within { at ≤ length parser.now }
    requires shallow { depth ≤ 64 }
    ensures gives { Gives (λ v. map seen_label v.items) result (labels_read nesting parser.now depth at) }
    ensures within { IfOk result (λ x. (at < x.1) × (x.1 ≤ length parser.now)) }
{
    let (first, mut here) = label(parser, nesting, depth, at)?;
    let mut list = Vec::new(parser.alloc());
    list.push(first)?;
    while begins_label(parser, here) {
        let (next, past) = label(parser, nesting, depth, here)?;
        list.push(next)?;
        here = past;
    }
    Ok((list, here))
}

/// The discriminant of an encapsulated union.
#[tactic(auto, unfolding(idl_grammar::specs::Reading::discriminant_read))]
fn discriminant(parser: &Parser<'_>, at: usize) -> Result<(Discriminant, usize), Refusal>
    requires within { at ≤ length parser.now }
    ensures gives { Gives (λ x. x) result (discriminant_read parser.now at) }
    ensures within { IfOk result (λ x. (at < x.1) × (x.1 ≤ length parser.now)) }
{
    let (of, next) = parser.switch_type(false, at)?;
    let (name, next) = parser.ident(false, next)?;
    Ok((Discriminant { of, name }, next))
}

/// A name, where one stands.
#[tactic(auto, unfolding(idl_grammar::specs::Reading::maybe_name_read))]
fn maybe_name(parser: &Parser<'_>, at: usize) -> Result<(Option<Identifier>, usize), Refusal>
    requires within { at ≤ length parser.now }
    ensures gives { Gives (λ x. x) result (maybe_name_read parser.now at) }
    ensures within { IfOk result (λ x. (at ≤ x.1) × (x.1 ≤ length parser.now)) }
{
    if !parser.is_name(false, at) {
        return Ok((None, at));
    }
    let (name, next) = parser.ident(false, at)?;
    Ok((Some(name), next))
}

/// `switch`, the discriminant in brackets, and the name of the union where it has one.
#[tactic(auto, unfolding(idl_grammar::specs::Reading::union_switch_read))]
pub fn union_switch(
    parser: &Parser<'_>,
    depth: usize,
    at: usize,
) -> Result<((Discriminant, Option<Identifier>), usize), Refusal>
    requires within { at ≤ length parser.now }
    ensures gives { Gives (λ x. x) result (union_switch_read parser.now depth at) }
    ensures within { IfOk result (λ x. (at < x.1) × (x.1 ≤ length parser.now)) }
{
    let next = parser.mark(symbol::SWITCH, at)?;
    let next = parser.open(depth, symbol::OPEN_ROUND, next)?;
    let (discriminant, next) = discriminant(parser, next)?;
    let next = parser.mark(symbol::CLOSE_ROUND, next)?;
    let (name, next) = maybe_name(parser, next)?;
    Ok(((discriminant, name), next))
}
