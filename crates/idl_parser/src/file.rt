// Declarations and files (C706, sections 4.2.3 to 4.2.8 and 4.2.13).
ghost use Rattle.std.specs.Prelude.{◌≡◌, ◌+◌, ◌≤◌, ◌<◌, [], ◌∷◌, length, map, option_map, IfOk};
ghost use Rattle.idl_grammar.specs.Text.{symbol_at, is_in};
ghost use Rattle.idl_grammar.specs.Gives.{Gives};
ghost use Rattle.idl_grammar.specs.Reading.{export_firsts, typedef_read, const_read, signature_read, declared_read, export_read, import_read};
ghost use Rattle.idl_grammar.specs.Reading.{imports_read, exports_read, file_read};
ghost use Rattle.idl_grammar.specs.Seen.{seen_parameters, seen_export, seen_import, seen_tree};

use crate::parameters::parameters;
use crate::types::{begins_type, type_spec};
use idl_declarations::attributes::{attributes, maybe_attributes};
use idl_declarations::declarators::{declarators, init};
use idl_grammar::{Export, Identifier, Import, Parameters, Refusal, Tree};
use idl_tokens::parser::Parser;
use idl_tokens::symbol;

/// Whether a declaration begins at a place.
#[tactic(auto, unfolding(idl_grammar::specs::Reading::export_firsts))]
fn begins_export(parser: &Parser<'_>, at: usize) -> bool
    ensures { result ≡ is_in export_firsts (symbol_at parser.now at) }
{
    parser.stands(symbol::TYPEDEF, at)
        || (parser.stands(symbol::CONST, at)
            || (parser.stands(symbol::OPEN_SQUARE, at) || begins_type(parser, at)))
}

/// A definition of types, which begins at an octet, from `typedef` on.
#[tactic(auto, unfolding(idl_grammar::specs::Reading::typedef_read))]
fn typedef(
    parser: &Parser<'_>,
    fuel: usize,
    nesting: usize,
    depth: usize,
    octet: u32,
    at: usize,
) -> Result<(Export, usize), Refusal>
    requires within { at ≤ length parser.now }
    requires shallow { depth ≤ 64 }
    ensures gives { Gives (seen_export) result (typedef_read fuel nesting parser.now depth octet at) }
    ensures within { IfOk result (λ x. (at < x.1) × (x.1 ≤ length parser.now)) }
{
    let next = parser.mark(symbol::TYPEDEF, at)?;
    let (attributes, next) = maybe_attributes(parser, nesting, depth, next)?;
    let (pipe, next) = parser.flag(symbol::PIPE, next);
    let (of, next) = type_spec(parser, fuel, nesting, depth, next)?;
    let (declarators, next) = declarators(parser, nesting, depth, next)?;
    let next = parser.mark(symbol::SEMICOLON, next)?;
    Ok((
        Export::Typedef {
            at: octet,
            attributes,
            pipe,
            of,
            declarators,
        },
        next,
    ))
}

/// A constant, which begins at an octet, from `const` on.
#[tactic(auto, unfolding(idl_grammar::specs::Reading::const_read))]
fn constant(
    parser: &Parser<'_>,
    nesting: usize,
    depth: usize,
    octet: u32,
    at: usize,
) -> Result<(Export, usize), Refusal>
    requires within { at ≤ length parser.now }
    requires shallow { depth ≤ 64 }
    ensures gives { Gives (seen_export) result (const_read nesting parser.now depth octet at) }
    ensures within { IfOk result (λ x. (at < x.1) × (x.1 ≤ length parser.now)) }
{
    let next = parser.mark(symbol::CONST, at)?;
    let (of, next) = parser.simple(next)?;
    let (star, next) = parser.flag(symbol::STAR, next);
    let (name, next) = parser.ident(false, next)?;
    let next = parser.mark(symbol::EQUALS, next)?;
    let (value, next) = init(parser, nesting, depth, next)?;
    let next = parser.mark(symbol::SEMICOLON, next)?;
    Ok((
        Export::Const {
            at: octet,
            of,
            star,
            name,
            value,
        },
        next,
    ))
}

/// The name of an operation, and its parameters.
#[tactic(auto, unfolding(idl_grammar::specs::Reading::signature_read))]
fn signature(
    parser: &Parser<'_>,
    fuel: usize,
    nesting: usize,
    depth: usize,
    at: usize,
) -> Result<((Identifier, Parameters), usize), Refusal>
    requires within { at ≤ length parser.now }
    requires shallow { depth ≤ 64 }
    ensures gives { Gives (λ x. (x.0, seen_parameters x.1)) result (signature_read fuel nesting parser.now depth at) }
    ensures within { IfOk result (λ x. (at < x.1) × (x.1 ≤ length parser.now)) }
{
    let (name, next) = parser.ident(false, at)?;
    let next = parser.open(depth, symbol::OPEN_ROUND, next)?;
    let (parameters, next) = parameters(parser, fuel, nesting, depth + 1, next)?;
    let next = parser.mark(symbol::CLOSE_ROUND, next)?;
    let next = parser.mark(symbol::SEMICOLON, next)?;
    Ok(((name, parameters), next))
}

/// A type alone or an operation, which begins at an octet.
#[tactic(auto, unfolding(idl_grammar::specs::Reading::declared_read))]
fn declared(
    parser: &Parser<'_>,
    fuel: usize,
    nesting: usize,
    depth: usize,
    octet: u32,
    at: usize,
) -> Result<(Export, usize), Refusal>
    requires within { at ≤ length parser.now }
    requires shallow { depth ≤ 64 }
    ensures gives { Gives (seen_export) result (declared_read fuel nesting parser.now depth octet at) }
    ensures within { IfOk result (λ x. (at < x.1) × (x.1 ≤ length parser.now)) }
{
    let (attributes, next) = maybe_attributes(parser, nesting, depth, at)?;
    let (of, next) = type_spec(parser, fuel, nesting, depth, next)?;
    if parser.stands(symbol::SEMICOLON, next) {
        let next = parser.mark(symbol::SEMICOLON, next)?;
        return Ok((
            Export::Tagged {
                at: octet,
                attributes,
                of,
            },
            next,
        ));
    }
    let ((name, parameters), next) = signature(parser, fuel, nesting, depth, next)?;
    Ok((
        Export::Operation {
            at: octet,
            attributes,
            result: of,
            name,
            parameters,
        },
        next,
    ))
}

/// A declaration.
#[tactic(auto, unfolding(idl_grammar::specs::Reading::export_read))]
fn export(
    parser: &Parser<'_>,
    fuel: usize,
    nesting: usize,
    depth: usize,
    at: usize,
) -> Result<(Export, usize), Refusal>
    requires within { at ≤ length parser.now }
    requires shallow { depth ≤ 64 }
    ensures gives { Gives (seen_export) result (export_read fuel nesting parser.now depth at) }
    ensures within { IfOk result (λ x. (at < x.1) × (x.1 ≤ length parser.now)) }
{
    let octet = parser.octet(at);
    if parser.stands(symbol::TYPEDEF, at) {
        return typedef(parser, fuel, nesting, depth, octet, at);
    }
    if parser.stands(symbol::CONST, at) {
        return constant(parser, nesting, depth, octet, at);
    }
    declared(parser, fuel, nesting, depth, octet, at)
}

/// The files of one `import`.
#[tactic(auto, unfolding(idl_grammar::specs::Reading::import_read))]
fn import(parser: &Parser<'_>, at: usize) -> Result<(Import, usize), Refusal>
    requires within { at ≤ length parser.now }
    ensures gives { Gives (seen_import) result (import_read parser.now at) }
    ensures within { IfOk result (λ x. (at < x.1) × (x.1 ≤ length parser.now)) }
{
    let next = parser.mark(symbol::IMPORT, at)?;
    let (files, next) = parser.strings(next)?;
    let next = parser.mark(symbol::SEMICOLON, next)?;
    Ok((Import { files }, next))
}

/// The imports.
#[tactic(auto, unfolding(idl_grammar::specs::Reading::imports_read))]
fn imports(parser: &Parser<'_>, at: usize) -> Result<(Vec<Import>, usize), Refusal>
    requires within { at ≤ length parser.now }
    ensures gives { Gives (λ v. map seen_import v.items) result (imports_read parser.now at) }
    ensures within { IfOk result (λ x. (at ≤ x.1) × (x.1 ≤ length parser.now)) }
{
    let mut list = Vec::new(parser.alloc());
    let mut here = at;
    while parser.stands(symbol::IMPORT, here) {
        let (next, past) = import(parser, here)?;
        list.push(next)?;
        here = past;
    }
    Ok((list, here))
}

/// The declarations.
#[tactic(auto, unfolding(idl_grammar::specs::Reading::exports_read))]
fn exports(
    parser: &Parser<'_>,
    fuel: usize,
    nesting: usize,
    depth: usize,
    at: usize,
) -> Result<(Vec<Export>, usize), Refusal>
    requires within { at ≤ length parser.now }
    requires shallow { depth ≤ 64 }
    ensures gives { Gives (λ v. map seen_export v.items) result (exports_read fuel nesting parser.now depth at) }
    ensures within { IfOk result (λ x. (at ≤ x.1) × (x.1 ≤ length parser.now)) }
{
    let mut list = Vec::new(parser.alloc());
    let mut here = at;
    while begins_export(parser, here) {
        let (next, past) = export(parser, fuel, nesting, depth, here)?;
        list.push(next)?;
        here = past;
    }
    Ok((list, here))
}

/// A file.
#[tactic(auto, unfolding(idl_grammar::specs::Reading::file_read))]
pub(crate) fn file(
    parser: &Parser<'_>,
    fuel: usize,
    nesting: usize,
    at: usize,
) -> Result<(Tree, usize), Refusal>
    requires within { at ≤ length parser.now }
    ensures gives { Gives (seen_tree) result (file_read fuel nesting parser.now at) }
    ensures within { IfOk result (λ x. (at < x.1) × (x.1 ≤ length parser.now)) }
{
    let (attributes, next) = attributes(parser, nesting, 0, at)?;
    let next = parser.mark(symbol::INTERFACE, next)?;
    let (name, next) = parser.ident(false, next)?;
    let next = parser.open(0, symbol::OPEN_CURLY, next)?;
    let (imports, next) = imports(parser, next)?;
    let (exports, next) = exports(parser, fuel, nesting, 1, next)?;
    let next = parser.mark(symbol::CLOSE_CURLY, next)?;
    Ok((
        Tree {
            attributes,
            name,
            imports,
            exports,
        },
        next,
    ))
}
