// The types of declarators.
ghost use Rattle.std.specs.Prelude.{◌≡◌, ◌^◌, ◌<◌, ◌+ℤ◌, pos, true, length, map, option_map, IfOk};
ghost use Rattle.idl_grammar.specs.Seen.{seen_expr, seen_bound, seen_attribute, seen_declarator};
ghost use Rattle.idl_scope.specs.Seen.{known_in};
ghost use Rattle.idl_scope.specs.Small.{is_below};
ghost use Rattle.idl_rule_definitions.specs.Nodes.{value_in};
ghost use Rattle.idl_rule_definitions.specs.Types as types;
ghost use Rattle.idl_rule_definitions.specs.Types.{Pointer};
ghost use Rattle.idl_declared_types.specs.Kinds.{seen_class, type_at, Stands, Keeps};
ghost use Rattle.idl_declared_types.specs.SeenNames.{seen_names, are_within};
ghost use Rattle.idl_constructs.specs.SeenNodes.{seen_position, seen_construct, seen_declared};

use crate::kinds::{Class, Kind, Kinds};
use crate::written::written;
use idl_constructs::attributes::class_in;
use idl_constructs::nodes::{Construct, Declared, Position};
use idl_constructs::words::{Word, has, has_length, has_size};
use idl_grammar::{Attribute, Bound, Declarator, Expr, PointerClass};
use idl_scope::{Scope, Table, value};
use nd_base::Memory;

/// The value of an expression. Each expression of files that are resolved has one.
pub fn number(scope: &Scope, expression: &Expr) -> i128
    ensures value { result ≡ value_in (known_in scope.now) (seen_expr expression.now) }
    ensures small { is_below (2 ^ 64) result ≡ true }
{
    match value(scope, expression) {
        Ok(number) => number,
        Err(_) => 0,
    }
}

/// One more than the greatest index.
fn count_through(scope: &Scope, greatest: &Expr) -> i128
    ensures { result ≡ value_in (known_in scope.now) (seen_expr greatest.now) +ℤ pos 1 }
{
    number(scope, greatest) + 1
}

/// The count of a dimension.
fn count_of(scope: &Scope, bound: &Option<Bound>) -> Option<i128>
    ensures { result ≡ types.count_of (known_in scope.now) (option_map seen_bound bound.now) }
{
    match bound {
        None => None,
        Some(Bound::Star) => None,
        Some(Bound::Count(expression)) => Some(number(scope, expression)),
        Some(Bound::From(_)) => None,
        Some(Bound::Between(_, greatest)) => Some(count_through(scope, greatest)),
    }
}

/// A type with so many stars, from the innermost one: the outermost pointer has a class of its own.
fn with_stars(
    kinds: &mut Kinds,
    default: Class,
    outermost: Class,
    of: usize,
    stars: &[u32],
) -> Result<usize, Memory>
    requires { of < length kinds.old }
    ensures stands { IfOk result
        (λ n. Stands kinds.new n (types.with_stars (seen_class default) (seen_class outermost) (type_at kinds.old of) stars.now)) }
    ensures keeps { Keeps kinds.old kinds.new }
{
    let mut to = of;
    let Some(last) = stars.len().checked_sub(1) else {
        return Ok(to);
    };
    for index in 0..last {
        to = kinds.add(Kind::Pointer { class: default, to })?;
    }
    let number = kinds.add(Kind::Pointer {
        class: outermost,
        to,
    })?;
    Ok(number)
}

/// A type with dimensions, which stand from the outermost one on.
fn with_dimensions(
    scope: &Scope,
    kinds: &mut Kinds,
    of: usize,
    dimensions: &[Option<Bound>],
) -> Result<usize, Memory>
    requires { of < length kinds.old }
    ensures stands { IfOk result
        (λ n. Stands kinds.new n (types.with_dimensions (known_in scope.now) (type_at kinds.old of) (map (option_map seen_bound) dimensions.now))) }
    ensures keeps { Keeps kinds.old kinds.new }
{
    let mut element = of;
    for done in 0..dimensions.len() {
        let count = count_of(scope, &dimensions[dimensions.len() - 1 - done]);
        element = kinds.add(Kind::Array {
            element,
            count,
            varying: false,
        })?;
    }
    Ok(element)
}

/// The class that a pointer has by its position.
fn class_by_position(position: Position, default: Option<PointerClass>) -> Option<PointerClass>
    ensures { result ≡ types.class_by_position (seen_position position) default }
{
    match position {
        Position::Parameter => Some(PointerClass::Reference),
        _ => default,
    }
}

/// The class of a declarator's outermost star.
fn outermost_class(construct: &Construct, dimensions: &[Option<Bound>]) -> Option<PointerClass>
    ensures { result ≡ types.outermost_class (seen_construct construct.now) (map (option_map seen_bound) dimensions.now) }
{
    if !dimensions.is_empty() {
        return construct.default;
    }
    match class_in(construct.attributes) {
        Some(class) => Some(class),
        None => class_by_position(construct.position, construct.default),
    }
}

/// A type with the stars and dimensions of a declarator.
fn with_declarator(
    scope: &Scope,
    kinds: &mut Kinds,
    construct: &Construct,
    declarator: &Declarator,
    of: usize,
) -> Result<usize, Memory>
    requires { of < length kinds.old }
    ensures stands { IfOk result
        (λ n. Stands kinds.new n
        (types.with_declarator (known_in scope.now) (seen_construct construct.now) (seen_declarator declarator.now) (type_at kinds.old of))) }
    ensures keeps { Keeps kinds.old kinds.new }
{
    let default = Class::new(construct.default);
    let outermost = Class::new(outermost_class(construct, &declarator.dimensions));
    let of = with_stars(kinds, default, outermost, of, &declarator.stars)?;
    let number = with_dimensions(scope, kinds, of, &declarator.dimensions)?;
    Ok(number)
}

/// Whether a declarator is one pointer to `void`, with context_handle.
fn is_context_handle(kinds: &Kinds, declared: &Declared, of: usize) -> bool
    ensures { result ≡ types.is_context_handle (seen_declared declared.now) (type_at kinds.now of) }
{
    has(declared.construct.attributes, Word::ContextHandle)
        && declared.declarator.stars.len() == 1
        && declared.declarator.dimensions.is_empty()
        && is_void(kinds, of)
}

fn is_void(kinds: &Kinds, of: usize) -> bool
    ensures { result ≡ types.is_void (type_at kinds.now of) }
{
    match kinds.kind(of) {
        Kind::Void => true,
        _ => false,
    }
}

/// The type before a declarator.
fn type_before(
    scope: &Scope,
    kinds: &mut Kinds,
    names: &Table<usize>,
    declared: &Declared,
) -> Result<usize, Memory>
    requires { are_within (length kinds.old) names.now ≡ true }
    ensures stands { IfOk result
        (λ n. Stands kinds.new n (types.type_before (known_in scope.now) (seen_names kinds.old names.now) (seen_declared declared.now))) }
    ensures keeps { Keeps kinds.old kinds.new }
{
    let element = written(scope, kinds, names, declared.construct.file, declared.of)?;
    if !declared.pipe {
        return Ok(element);
    }
    let number = kinds.add(Kind::Pipe { element })?;
    Ok(number)
}

/// The type of a declarator, but for attributes other than a class.
pub fn declared_type(
    scope: &Scope,
    kinds: &mut Kinds,
    names: &Table<usize>,
    declared: &Declared,
) -> Result<usize, Memory>
    requires { are_within (length kinds.old) names.now ≡ true }
    ensures stands { IfOk result
        (λ n. Stands kinds.new n (types.declared_type (known_in scope.now) (seen_names kinds.old names.now) (seen_declared declared.now))) }
    ensures keeps { Keeps kinds.old kinds.new }
{
    let before = type_before(scope, kinds, names, declared)?;
    if is_context_handle(kinds, declared, before) {
        let number = kinds.add(Kind::ContextHandle)?;
        return Ok(number);
    }
    let Declared {
        construct,
        declarator,
        ..
    } = declared;
    let number = with_declarator(scope, kinds, construct, declarator, before)?;
    Ok(number)
}

/// What a pointer with `string` points to.
fn text_of(kinds: &mut Kinds, of: usize) -> Result<usize, Memory>
    requires { of < length kinds.old }
    ensures stands { IfOk result (λ n. Stands kinds.new n (types.text_of (type_at kinds.old of))) }
    ensures keeps { Keeps kinds.old kinds.new }
{
    if let Kind::Text { count: None, .. } = kinds.kind(of) {
        return Ok(of);
    }
    let number = kinds.add(Kind::Text {
        element: of,
        count: None,
    })?;
    Ok(number)
}

/// What a pointer with size_is or max_is points to.
fn sized(kinds: &mut Kinds, varying: bool, of: usize) -> Result<usize, Memory>
    requires { of < length kinds.old }
    ensures stands { IfOk result (λ n. Stands kinds.new n (types.sized varying (type_at kinds.old of))) }
    ensures keeps { Keeps kinds.old kinds.new }
{
    let element = match kinds.kind(of) {
        Kind::Text { count: None, .. } => return Ok(of),
        Kind::Array {
            element,
            count: None,
            ..
        } => element,
        _ => of,
    };
    let number = kinds.add(Kind::Array {
        element,
        count: None,
        varying,
    })?;
    Ok(number)
}

/// What a pointer with attributes points to.
fn pointee_with(kinds: &mut Kinds, attributes: &[Attribute], of: usize) -> Result<usize, Memory>
    requires { of < length kinds.old }
    ensures stands { IfOk result (λ n. Stands kinds.new n (types.pointee_with (map seen_attribute attributes.now) (type_at kinds.old of))) }
    ensures keeps { Keeps kinds.old kinds.new }
{
    if has(attributes, Word::String) {
        return text_of(kinds, of);
    }
    if has_size(attributes) {
        return sized(kinds, has_length(attributes), of);
    }
    Ok(of)
}

/// An array with attributes.
fn array_with(
    kinds: &mut Kinds,
    attributes: &[Attribute],
    element: usize,
    count: Option<i128>,
    varying: bool,
) -> Result<usize, Memory>
    requires { element < length kinds.old }
    ensures stands { IfOk result
        (λ n. Stands kinds.new n (types.array_with (map seen_attribute attributes.now) (type_at kinds.old element) count varying)) }
    ensures keeps { Keeps kinds.old kinds.new }
{
    if has(attributes, Word::String) {
        let number = kinds.add(Kind::Text { element, count })?;
        return Ok(number);
    }
    let number = kinds.add(Kind::Array {
        element,
        count,
        varying: varying || has_length(attributes),
    })?;
    Ok(number)
}

fn class_or(class: Option<PointerClass>, other: Class) -> Class
    ensures { seen_class result ≡ types.class_or class (seen_class other) }
{
    match class {
        Some(_) => Class::new(class),
        None => other,
    }
}

/// A pointer with attributes.
fn pointer_with(
    kinds: &mut Kinds,
    attributes: &[Attribute],
    class: Class,
    to: usize,
) -> Result<usize, Memory>
    requires { to < length kinds.old }
    ensures stands { IfOk result
        (λ n. Stands kinds.new n (types.with_attributes (map seen_attribute attributes.now) (Pointer (seen_class class) (type_at kinds.old to)))) }
    ensures keeps { Keeps kinds.old kinds.new }
{
    let class = class_or(class_in(attributes), class);
    let to = pointee_with(kinds, attributes, to)?;
    let number = kinds.add(Kind::Pointer { class, to })?;
    Ok(number)
}

/// A type with the attributes of its declarator.
pub fn with_attributes(
    kinds: &mut Kinds,
    attributes: &[Attribute],
    of: usize,
) -> Result<usize, Memory>
    requires { of < length kinds.old }
    ensures stands { IfOk result (λ n. Stands kinds.new n (types.with_attributes (map seen_attribute attributes.now) (type_at kinds.old of))) }
    ensures keeps { Keeps kinds.old kinds.new }
{
    match kinds.kind(of) {
        Kind::Pointer { class, to } => pointer_with(kinds, attributes, class, to),
        Kind::Array {
            element,
            count,
            varying,
        } => array_with(kinds, attributes, element, count, varying),
        _ => Ok(of),
    }
}
