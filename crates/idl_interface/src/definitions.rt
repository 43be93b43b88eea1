// The types of an interface.
ghost use Rattle.std.specs.Prelude.{◌≡◌, ◌<◌, ◌^◌, true, [], None, length, map, option_map, slice_get, List, MatchOption, IfOk};
ghost use Rattle.std.specs.List.{list_all};
ghost use Rattle.nd_types.specs.declared.types.TypeDef.TheVariants as def;
ghost use Rattle.nd_types.specs.Legal.{has_small_bound, has_named_parts};
ghost use Rattle.idl_grammar.specs.Seen.{seen_type, seen_enumerator};
ghost use Rattle.idl_scope.specs.Seen.{known_in};
ghost use Rattle.idl_rule_definitions.specs.Nodes as world;
ghost use Rattle.idl_rule_definitions.specs.Types.{IdlType, Struct, Union, Enum};
ghost use Rattle.idl_rule_definitions.specs.Meaning as meaning;
ghost use Rattle.idl_rule_definitions.specs.Nodes.{arms_of};
ghost use Rattle.idl_rule_definitions.specs.Scene.{body_of, parts_declared};
ghost use Rattle.idl_declared_types.specs.Kinds.{type_by, type_at, basic_in, seen_class};
ghost use Rattle.idl_constructs.specs.SeenNodes.{seen_construct};
ghost use Rattle.idl_declared_types.specs.SeenNumbers.{number_at};
ghost use Rattle.idl_interface.specs.Made as made;
ghost use Rattle.idl_interface.specs.Made.{id, ids_of, tag_id, field_with, each_with, valued, arms_with, default_with, basic_made, is_narrow};
ghost use Rattle.idl_interface.specs.Made.{has_few_parts, IsFound, IsProgram, scene_in};

use crate::arms::{default_arm, labelled_arms, valued_arms};
use crate::members::{fields, numbered};
use idl_constructs::nodes::{Construct, Node, Nodes};
use idl_constructs::parts::parts;
use idl_declared_types::kinds::{Class, Kind};
use idl_declared_types::numbering::Numbers;
use idl_declared_types::types::{BodyTypes, Types};
use idl_grammar::{Enumerator, TypeSpec};
use idl_scope::{Meaning, Names, Scope};
use nd_base::{Memory, Place};
use nd_types as nd;
use nd_types::{HANDLE, TypeDef, TypeId};
use std::alloc::Global;

/// Files, their nodes, and what is noted of these.
#[derive(Clone, Copy)]
pub struct Program<'s, 't> {
    pub scope: &'s Scope,
    pub nodes: &'s Nodes<'t>,
    pub types: &'s Types,
    pub numbers: &'s Numbers,
}

/// A struct, union or enum with its body, and what is noted of it.
#[derive(Clone, Copy)]
struct FoundBody<'s, 't> {
    construct: &'s Construct<'t>,
    body: &'t TypeSpec,
    noted: &'s BodyTypes,
}

/// A number of a type, as the table has it.
fn narrow(number: usize) -> TypeId
    requires { number < 2 ^ 32 }
    ensures { result ≡ id number }
{
    let Ok(number) = u32::try_from(number) else {
        unreachable!();
    };
    TypeId(number)
}

/// The number of a type.
pub(crate) fn number_of(program: &Program<'_, '_>, of: usize) -> TypeId
    requires { IsProgram program.now }
    ensures { result ≡ id (number_at program.now.types.now.kinds program.now.numbers.now of) }
{
    narrow(program.numbers.number(&program.types.kinds, of))
}

/// What is noted of a body, by its number.
fn noted_at(types: &Types, number: usize) -> Option<&BodyTypes>
    ensures { option_map (λ b. b.now) result ≡ slice_get types.now.bodies.items number }
{
    types.bodies.get(number)
}

/// A node, by its number.
pub(crate) fn node_at<'s, 't>(nodes: &'s Nodes<'t>, number: usize) -> Option<&'s Node<'t>>
    ensures { option_map (λ n. n.now) result ≡ slice_get nodes.now.items.items number }
{
    nodes.items.get(number)
}

/// The body of a place.
fn body_at<'s, 't>(program: &Program<'s, 't>, place: Place) -> Option<FoundBody<'s, 't>>
    requires { IsProgram program.now }
    ensures { MatchOption result (body_of (scene_in program.now) place ≡ None) (IsFound (scene_in program.now) program.now.types.now.kinds place) }
{
    let Some(number) = program.types.body_of(place) else {
        return None;
    };
    let Some(noted) = noted_at(program.types, number) else {
        return None;
    };
    let Some(node) = node_at(program.nodes, noted.node) else {
        unreachable!();
    };
    let Node::Body { construct, body } = node else {
        unreachable!();
    };
    Some(FoundBody {
        construct,
        body,
        noted,
    })
}

/// An enumerated type without values.
fn nothing(alloc: Global) -> TypeDef
    ensures { result ≡ def.Enum [] }
{
    TypeDef::Enum {
        values: nd::Numbers::new(alloc),
    }
}

/// A struct.
fn struct_of(
    alloc: Global,
    program: &Program<'_, '_>,
    found: &FoundBody<'_, '_>,
) -> Result<TypeDef, Memory>
    requires program { IsProgram program.now }
    requires few { length (parts_declared (seen_construct found.now.construct.now) (seen_type found.now.body.now)) < 2 ^ 32 }
    ensures made { IfOk result (λ d. d ≡ meaning.struct_of (each_with
        (field_with (parts_declared (seen_construct found.now.construct.now) (seen_type found.now.body.now)))
        (parts_declared (seen_construct found.now.construct.now) (seen_type found.now.body.now))
        (ids_of program.now.types.now.kinds program.now.numbers.now found.now.noted.now.parts.items))) }
    ensures named { IfOk result (λ d. has_named_parts d ≡ true) }
{
    let list = parts(alloc, found.construct, found.body)?;
    let ids = numbered(alloc, program, found.noted.parts.as_slice())?;
    let members = fields(alloc, list.as_slice(), ids.as_slice())?;
    if members.len() == 0 {
        return Ok(nothing(alloc));
    }
    Ok(TypeDef::Struct { members })
}

/// The number of the type of a union's tag.
fn tag_number(program: &Program<'_, '_>, tag: Option<usize>) -> TypeId
    requires { IsProgram program.now }
    ensures { result ≡ tag_id program.now.types.now.kinds program.now.numbers.now tag }
{
    match tag {
        Some(of) => number_of(program, of),
        None => HANDLE,
    }
}

/// A union.
fn union_of(
    alloc: Global,
    program: &Program<'_, '_>,
    encapsulated: bool,
    found: &FoundBody<'_, '_>,
) -> Result<TypeDef, Memory>
    requires { IsProgram program.now }
    ensures made { IfOk result (λ d. d ≡ def.Union
        (tag_id program.now.types.now.kinds program.now.numbers.now found.now.noted.now.tag)
        encapsulated
        (arms_with (map (valued (known_in program.now.scope.now)) (arms_of (seen_type found.now.body.now)))
        (ids_of program.now.types.now.kinds program.now.numbers.now found.now.noted.now.parts.items))
        (default_with (map (valued (known_in program.now.scope.now)) (arms_of (seen_type found.now.body.now)))
        (ids_of program.now.types.now.kinds program.now.numbers.now found.now.noted.now.parts.items))) }
    ensures named { IfOk result (λ d. has_named_parts d ≡ true) }
{
    let list = valued_arms(alloc, program.scope, found.body)?;
    let ids = numbered(alloc, program, found.noted.parts.as_slice())?;
    let arms = labelled_arms(alloc, list.as_slice(), ids.as_slice())?;
    let default = default_arm(alloc, list.as_slice(), ids.as_slice())?;
    Ok(TypeDef::Union {
        tag: tag_number(program, found.noted.tag),
        encapsulated,
        arms,
        default,
    })
}

/// The number that a name stands for, or 0.
fn value_of(scope: &Scope, name: &[u8]) -> i128
    ensures { result ≡ meaning.or_zero (world.number_of (known_in scope.now) name.now) }
{
    match scope.meaning(name) {
        Some(Meaning::Number(number)) => number,
        Some(Meaning::Type) => 0,
        Some(Meaning::Other) => 0,
        None => 0,
    }
}

/// An enumerated type.
fn enum_of(alloc: Global, scope: &Scope, enumerators: &[Enumerator]) -> Result<TypeDef, Memory>
    ensures { IfOk result (λ d. d ≡ def.Enum
        (map (λ e. meaning.or_zero (world.number_of (known_in scope.now) e.name.octets)) (map seen_enumerator enumerators.now))) }
{
    let mut values = nd::Numbers::new(alloc);
    for enumerator in enumerators {
        let value = value_of(scope, enumerator.name.as_slice());
        match values.push(value) {
            Ok(()) => {}
            Err(_) => return Err(Memory),
        }
    }
    Ok(TypeDef::Enum { values })
}

/// Whether a body is a struct's.
fn is_struct(body: &TypeSpec) -> bool
    ensures { result ≡ meaning.is_struct (seen_type body.now) }
{
    match body {
        TypeSpec::Struct { .. } => true,
        _ => false,
    }
}

/// Whether a body is a union's.
fn is_union(body: &TypeSpec) -> bool
    ensures { result ≡ meaning.is_union (seen_type body.now) }
{
    match body {
        TypeSpec::EncapsulatedUnion { .. } => true,
        TypeSpec::NonEncapsulatedUnion { .. } => true,
        _ => false,
    }
}

/// Whether a body is that of a union that has its discriminant with it.
fn is_encapsulated(body: &TypeSpec) -> bool
    ensures { result ≡ made.is_encapsulated (seen_type body.now) }
{
    match body {
        TypeSpec::EncapsulatedUnion { .. } => true,
        _ => false,
    }
}

/// What a place is as a struct. In files that are resolved its body is a struct; another is as none.
fn struct_at(alloc: Global, program: &Program<'_, '_>, place: Place) -> Result<TypeDef, Memory>
    requires program { IsProgram program.now }
    requires few { has_few_parts (meaning.definition (scene_in program.now) (Struct place)) ≡ true }
    ensures made { IfOk result (λ d. d ≡ meaning.definition (scene_in program.now) (Struct place)) }
    ensures named { IfOk result (λ d. has_named_parts d ≡ true) }
{
    let Some(found) = body_at(program, place) else {
        return Ok(nothing(alloc));
    };
    if is_struct(found.body) {
        return struct_of(alloc, program, &found);
    }
    Ok(nothing(alloc))
}

/// What a place is as a union. In files that are resolved its body is a union; another is as none.
fn union_at(alloc: Global, program: &Program<'_, '_>, place: Place) -> Result<TypeDef, Memory>
    requires { IsProgram program.now }
    ensures made { IfOk result (λ d. d ≡ meaning.definition (scene_in program.now) (Union place)) }
    ensures named { IfOk result (λ d. has_named_parts d ≡ true) }
{
    let Some(found) = body_at(program, place) else {
        return Ok(nothing(alloc));
    };
    if is_union(found.body) {
        return union_of(alloc, program, is_encapsulated(found.body), &found);
    }
    Ok(nothing(alloc))
}

/// What a place is as an enumerated type. In files that are resolved its body is an enum; another is as none.
fn enum_at(alloc: Global, program: &Program<'_, '_>, place: Place) -> Result<TypeDef, Memory>
    requires { IsProgram program.now }
    ensures made { IfOk result (λ d. d ≡ meaning.definition (scene_in program.now) (Enum place)) }
    ensures named { IfOk result (λ d. has_named_parts d ≡ true) }
{
    let Some(found) = body_at(program, place) else {
        return Ok(nothing(alloc));
    };
    let TypeSpec::Enum { enumerators, .. } = found.body else {
        return Ok(nothing(alloc));
    };
    enum_of(alloc, program.scope, enumerators.as_slice())
}

/// A bound, where there is one.
fn bound(count: Option<i128>) -> Option<u32>
    requires { is_narrow (meaning.bound count) ≡ true }
    ensures { result ≡ meaning.bound count }
{
    let Some(count) = count else {
        return None;
    };
    if count < 0 {
        return Some(0);
    }
    let Ok(count) = u32::try_from(count) else {
        unreachable!();
    };
    Some(count)
}

/// An array.
fn array(program: &Program<'_, '_>, element: usize, count: Option<i128>, varying: bool) -> TypeDef
    requires program { IsProgram program.now }
    requires bound { is_narrow (meaning.bound count) ≡ true }
    ensures { result ≡ def.Array (id (number_at program.now.types.now.kinds program.now.numbers.now element)) (meaning.bound count) varying }
{
    TypeDef::Array {
        elem: number_of(program, element),
        bound: bound(count),
        varying,
    }
}

/// A text.
fn text(program: &Program<'_, '_>, element: usize, count: Option<i128>) -> TypeDef
    requires program { IsProgram program.now }
    requires bound { is_narrow (meaning.bound count) ≡ true }
    ensures { result ≡ def.Text (id (number_at program.now.types.now.kinds program.now.numbers.now element)) (meaning.bound count) }
{
    TypeDef::Text {
        elem: number_of(program, element),
        bound: bound(count),
    }
}

/// The class of a pointer, which each has by now.
fn class_of(class: Class) -> nd::Class
    ensures { result ≡ meaning.pointer_class (seen_class class) }
{
    match class {
        Class::Reference => nd::Class::Ref,
        Class::Full => nd::Class::Full,
        Class::Unique | Class::Absent => nd::Class::Unique,
    }
}

/// A primitive type, or a context handle.
fn basic(kind: Kind) -> TypeDef
    ensures made { (types : List IdlType) → result ≡ basic_made (basic_in (type_by types kind)) }
    ensures named { has_named_parts result ≡ true }
{
    match kind.primitive() {
        Some(primitive) => TypeDef::Prim(primitive),
        None => TypeDef::Context,
    }
}

/// What a type is in the table. Takes memory for it.
fn definition(alloc: Global, program: &Program<'_, '_>, of: usize) -> Result<TypeDef, Memory>
    requires program { IsProgram program.now }
    requires bound { has_small_bound (meaning.definition (scene_in program.now) (type_at program.now.types.now.kinds of)) ≡ true }
    requires few { has_few_parts (meaning.definition (scene_in program.now) (type_at program.now.types.now.kinds of)) ≡ true }
    ensures made { IfOk result (λ d. d ≡ meaning.definition (scene_in program.now) (type_at program.now.types.now.kinds of)) }
    ensures named { IfOk result (λ d. has_named_parts d ≡ true) }
{
    match program.types.kinds.kind(of) {
        Kind::Struct { file, at } => struct_at(alloc, program, Place { file, at }),
        Kind::Union { file, at } => union_at(alloc, program, Place { file, at }),
        Kind::Enum { file, at } => enum_at(alloc, program, Place { file, at }),
        Kind::Array {
            element,
            count,
            varying,
        } => Ok(array(program, element, count, varying)),
        Kind::Text { element, count } => Ok(text(program, element, count)),
        Kind::Pointer { class, to } => Ok(TypeDef::Pointer {
            class: class_of(class),
            to: number_of(program, to),
        }),
        Kind::Pipe { element } => Ok(TypeDef::Pipe {
            elem: number_of(program, element),
        }),
        other => Ok(basic(other)),
    }
}

/// The types of the interface. Takes memory for them.
pub(crate) fn type_table(alloc: Global, program: &Program<'_, '_>) -> Result<nd::Types, Memory>
    requires program { IsProgram program.now }
    requires bounds { list_all has_small_bound (meaning.types_of (scene_in program.now)) ≡ true }
    requires few { list_all has_few_parts (meaning.types_of (scene_in program.now)) ≡ true }
    ensures made { IfOk result (λ t. t ≡ meaning.types_of (scene_in program.now)) }
    ensures named { IfOk result (λ t. list_all has_named_parts t ≡ true) }
{
    let mut table = nd::Types::basic(alloc)?;
    for own in &program.numbers.own {
        let definition = definition(alloc, program, own.kind)?;
        match table.push(definition) {
            Ok(()) => {}
            Err(_) => return Err(Memory),
        }
    }
    Ok(table)
}
