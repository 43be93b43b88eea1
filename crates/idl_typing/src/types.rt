// The types of all nodes.
ghost use Rattle.std.specs.Prelude.{◌≡◌, ℕ, ◌<◌, ◌+◌, true, false, [], ◌∷◌, ◌++◌, List, length, map, option_map, IfOk, OnOk};
ghost use Rattle.idl_grammar.specs.Seen.{seen_type};
ghost use Rattle.idl_rule_definitions.specs.Types as types;
ghost use Rattle.idl_rule_definitions.specs.Types.{IdlType, Names};
ghost use Rattle.idl_typing.specs.Lookups.{AreTables};
ghost use Rattle.idl_typing.specs.ReadTypes.{and_place, is_tag_below, NamesRead, BodiesRead, TagsRead, OperationsRead, AreRead};
ghost use Rattle.idl_declared_types.specs.SeenOperations.{HasTags, HasOperations};
ghost use Rattle.idl_rule_definitions.specs.Scene.{place_of_type, is_nonencapsulated_body, parts_declared, enumerators_in, tag_written, tag_type};
ghost use Rattle.idl_rule_definitions.specs.Scene.{type_of_body, use_of};
ghost use Rattle.idl_declared_types.specs.LabelValues.{Holds, values_of};
ghost use Rattle.idl_declared_types.specs.Kinds.{type_by, type_at, is_inside, Keeps};
ghost use Rattle.idl_declared_types.specs.SeenNames.{are_below, seen_names, are_within, and_name, declared_in, names_with};
ghost use Rattle.idl_constructs.specs.SeenNodes.{seen_position, seen_construct, seen_declared, seen_result, list_at};
ghost use Rattle.idl_declared_types.specs.SeenTypes.{scene_seen, bare, IsTypedUse, tag_seen, IsTyped, AreTypedWithin, IsTypes};
ghost use Rattle.idl_scope.specs.Seen.{known_in};

use crate::variables::{
    Slot, has_no_variable, has_wrong_switch_variable, has_wrong_variable, tables,
};
use idl_constructs::attributes::switch_type_in;
use idl_constructs::nodes::{Construct, Declared, Node, Nodes, Position, Returned};
use idl_constructs::parts::parts;
use idl_declared_types::enum_values::enum_values;
use idl_declared_types::kinds::{Kind, Kinds};
use idl_declared_types::places::Places;
use idl_declared_types::types::{BodyTypes, OperationTypes, Typed, Types};
use idl_declared_types::typing::{declared_type, with_attributes};
use idl_declared_types::value_set::ValueSet;
use idl_declared_types::written::{place_of_body, switch, tag, tagged_kind, written};
use idl_grammar::{Identifier, SwitchType, TagKind, TypeSpec};
use idl_scope::{Scope, Table};
use nd_base::{Memory, Place};
use std::alloc::Global;

/// By which place a struct, union or enum is reported.
fn place_of(construct: &Construct, body: &TypeSpec) -> Place
    ensures { result ≡ place_of_type construct.now.file (seen_type body.now) }
{
    let file = construct.file;
    match body {
        TypeSpec::Struct { at, tag, .. } => place_of_body(file, *at, tag),
        TypeSpec::EncapsulatedUnion { at, tag, .. } => place_of_body(file, *at, tag),
        TypeSpec::NonEncapsulatedUnion { at, tag, .. } => place_of_body(file, *at, tag),
        TypeSpec::Enum { at, tag, .. } => place_of_body(file, *at, tag),
        _ => Place { file, at: 0 },
    }
}

/// What a body defines.
fn body_kind(construct: &Construct, body: &TypeSpec) -> Kind
    ensures seen { (names : Names) (ts : List IdlType)
        → type_by ts result ≡ type_of_body (record { construct = seen_construct construct.now; names = names; body = seen_type body.now }) }
    ensures inside { (n : ℕ) → is_inside n result ≡ true }
{
    let place = place_of(construct, body);
    match body {
        TypeSpec::Struct { .. } => tagged_kind(TagKind::Struct, place),
        TypeSpec::Enum { .. } => tagged_kind(TagKind::Enum, place),
        _ => tagged_kind(TagKind::Union, place),
    }
}

/// The type of a union's tag, where it is said.
fn tag_said<'t>(construct: &Construct<'t>, body: &'t TypeSpec) -> Option<&'t SwitchType>
    ensures { option_map (λ s. s.now) result ≡ tag_written (seen_construct construct.now) (seen_type body.now) }
{
    match (body, construct.position) {
        (TypeSpec::EncapsulatedUnion { discriminant, .. }, _) => Some(&discriminant.of),
        (TypeSpec::NonEncapsulatedUnion { .. }, Position::Typedef | Position::TaggedType) => {
            switch_type_in(construct.attributes)
        }
        _ => None,
    }
}

/// What is noted of a node that is no declarator.
fn note(of: usize) -> Typed
    ensures { result
        ≡ record { declared_as = of; of = of; has_tag = false; no_variable = false; wrong_variable = false; wrong_switch_variable = false } }
{
    Typed {
        declared_as: of,
        of,
        has_tag: false,
        no_variable: false,
        wrong_variable: false,
        wrong_switch_variable: false,
    }
}

/// What is noted of the type of a declarator.
pub(crate) fn note_declared(
    scope: &Scope,
    kinds: &mut Kinds,
    names: &Table<usize>,
    it: &Declared,
) -> Result<Typed, Memory>
    requires { are_within (length kinds.old) names.now ≡ true }
    ensures declared_as { IfOk result
        (λ t. type_at kinds.new t.declared_as ≡ types.declared_type (known_in scope.now) (seen_names kinds.old names.now) (seen_declared it.now)) }
    ensures of { IfOk result
        (λ t. type_at kinds.new t.of ≡ types.type_of (known_in scope.now) (seen_names kinds.old names.now) (seen_declared it.now)) }
    ensures within { IfOk result (AreTypedWithin (length kinds.new)) }
    ensures keeps { Keeps kinds.old kinds.new }
{
    let declared_as = declared_type(scope, kinds, names, it)?;
    let of = with_attributes(kinds, it.construct.attributes, declared_as)?;
    Ok(Typed {
        declared_as,
        of,
        has_tag: false,
        no_variable: false,
        wrong_variable: false,
        wrong_switch_variable: false,
    })
}

/// What is noted of a declarator with its list.
fn note_listed(
    scope: &Scope,
    kinds: &mut Kinds,
    names: &Table<usize>,
    nodes: &Nodes,
    tables: &[Table<usize>],
    slot: Slot,
    it: &Declared,
) -> Result<Typed, Memory>
    requires within { are_within (length kinds.old) names.now ≡ true }
    requires tables { AreTables tables.now nodes.now.lists.items }
    ensures typed { IfOk result
        (λ t. IsTypedUse (bare (known_in scope.now)) kinds.new
        (use_of (known_in scope.now) (seen_names kinds.old names.now) (list_at nodes.now.lists.items slot.list) slot.index
        (seen_declared it.now)) t) }
    ensures within { IfOk result (AreTypedWithin (length kinds.new)) }
    ensures keeps { Keeps kinds.old kinds.new }
{
    let no_variable = has_no_variable(nodes, tables, slot, it);
    let wrong_variable = has_wrong_variable(scope, kinds, names, nodes, tables, slot, it)?;
    let wrong_switch_variable = has_wrong_switch_variable(
        scope, kinds, names, nodes, tables, slot, it,
    )?;
    let noted = note_declared(scope, kinds, names, it)?;
    Ok(Typed {
        declared_as: noted.declared_as,
        of: noted.of,
        has_tag: false,
        no_variable,
        wrong_variable,
        wrong_switch_variable,
    })
}

/// What is noted of the result of an operation.
fn note_result(
    scope: &Scope,
    kinds: &mut Kinds,
    names: &Table<usize>,
    it: &Returned,
) -> Result<Typed, Memory>
    requires { are_within (length kinds.old) names.now ≡ true }
    ensures typed { IfOk result
        (λ t. IsTypedUse (bare (known_in scope.now)) kinds.new
        (use_of (known_in scope.now) (seen_names kinds.old names.now) [] 0 (seen_result it.now)) t) }
    ensures within { IfOk result (AreTypedWithin (length kinds.new)) }
    ensures keeps { Keeps kinds.old kinds.new }
{
    let of = written(scope, kinds, names, it.construct.file, it.of)?;
    Ok(note(of))
}

/// What is noted of labels.
fn note_labels(
    kinds: &mut Kinds,
    names: &Table<usize>,
    construct: &Construct,
    body: &TypeSpec,
) -> Result<Typed, Memory>
    requires { are_within (length kinds.old) names.now ≡ true }
    ensures typed { IfOk result
        (λ t. tag_seen kinds.new t ≡ tag_type (seen_construct construct.now) (seen_names kinds.old names.now) (seen_type body.now)) }
    ensures within { IfOk result (AreTypedWithin (length kinds.new)) }
    ensures keeps { Keeps kinds.old kinds.new }
{
    let Some(said) = tag_said(construct, body) else {
        let of = kinds.add(Kind::Void)?;
        return Ok(note(of));
    };
    let of = switch(kinds, names, said)?;
    Ok(Typed {
        declared_as: of,
        of,
        has_tag: true,
        no_variable: false,
        wrong_variable: false,
        wrong_switch_variable: false,
    })
}

/// What is noted of a node before which these names stand.
fn noted(
    scope: &Scope,
    kinds: &mut Kinds,
    names: &Table<usize>,
    nodes: &Nodes,
    tables: &[Table<usize>],
    node: &Node,
) -> Result<Typed, Memory>
    requires within { are_within (length kinds.old) names.now ≡ true }
    requires tables { AreTables tables.now nodes.now.lists.items }
    ensures typed { IfOk result (IsTyped (bare (known_in scope.now)) (seen_names kinds.old names.now) kinds.new nodes.now.lists.items node.now) }
    ensures within { IfOk result (AreTypedWithin (length kinds.new)) }
    ensures keeps { Keeps kinds.old kinds.new }
{
    match node {
        Node::Declarator { list, index, it } => {
            let slot = Slot {
                list: *list,
                index: *index,
            };
            note_listed(scope, kinds, names, nodes, tables, slot, it)
        }
        Node::Result { it } => note_result(scope, kinds, names, it),
        Node::Switch { of, .. } => note_switch(kinds, names, of),
        Node::Tag {
            construct,
            kind,
            tag,
        } => { note_tag(scope, kinds, construct.file, *kind, tag) }
        Node::Body { construct, body } => note_body(kinds, construct, body),
        Node::Labels { construct, body } => note_labels(kinds, names, construct, body),
        _ => note_nothing(kinds),
    }
}

/// What is noted of a node that has no type.
fn note_nothing(kinds: &mut Kinds) -> Result<Typed, Memory>
    ensures within { IfOk result (AreTypedWithin (length kinds.new)) }
    ensures keeps { Keeps kinds.old kinds.new }
{
    let of = kinds.add(Kind::Void)?;
    Ok(note(of))
}

/// What is noted of a type that is to tell the arms of a union apart.
fn note_switch(kinds: &mut Kinds, names: &Table<usize>, of: &SwitchType) -> Result<Typed, Memory>
    requires { are_within (length kinds.old) names.now ≡ true }
    ensures typed { IfOk result (λ t. type_at kinds.new t.of ≡ types.switch_type (seen_names kinds.old names.now) of.now) }
    ensures within { IfOk result (AreTypedWithin (length kinds.new)) }
    ensures keeps { Keeps kinds.old kinds.new }
{
    let of = switch(kinds, names, of)?;
    Ok(note(of))
}

/// What is noted of a tag without its body.
fn note_tag(
    scope: &Scope,
    kinds: &mut Kinds,
    file: u16,
    kind: TagKind,
    name: &Identifier,
) -> Result<Typed, Memory>
    ensures typed { IfOk result (λ t. type_at kinds.new t.of ≡ types.type_of_tag (known_in scope.now) file kind name.now) }
    ensures within { IfOk result (AreTypedWithin (length kinds.new)) }
    ensures keeps { Keeps kinds.old kinds.new }
{
    let of = tag(scope, kinds, file, kind, name)?;
    Ok(note(of))
}

/// What is noted of a body.
fn note_body(kinds: &mut Kinds, construct: &Construct, body: &TypeSpec) -> Result<Typed, Memory>
    ensures typed { IfOk result
        (λ t. (names : Names)
        → type_at kinds.new t.of ≡ type_of_body (record { construct = seen_construct construct.now; names = names; body = seen_type body.now })) }
    ensures within { IfOk result (AreTypedWithin (length kinds.new)) }
    ensures keeps { Keeps kinds.old kinds.new }
{
    let of = kinds.add(body_kind(construct, body))?;
    Ok(note(of))
}

/// Gives a name its type, unless it is there already.
pub(crate) fn put_first(
    names: &mut Table<usize>,
    name: &Identifier,
    of: usize,
) -> Result<(), Memory>
    ensures { OnOk result (names.new ≡ and_name names.old name.now.octets of) }
{
    let name = name.as_slice();
    match names.get(name) {
        Some(_) => Ok(()),
        None => names.put(name, of),
    }
}

/// Gives a typedef's name its type.
fn declare(
    names: &mut Table<usize>,
    position: Position,
    name: &Identifier,
    of: usize,
) -> Result<(), Memory>
    ensures { OnOk result (names.new ≡ declared_in names.old (seen_position position) name.now.octets of) }
{
    match position {
        Position::Typedef => put_first(names, name, of),
        _ => Ok(()),
    }
}

/// Gives the name of a node its type, where the node is a typedef's.
fn declare_node(names: &mut Table<usize>, node: &Node, of: usize) -> Result<(), Memory>
    ensures { OnOk result (names.new ≡ names_with names.old node.now of) }
{
    match node {
        Node::Declarator { it, .. } => declare(
            names,
            it.construct.position,
            &it.declarator.name,
            of,
        ),
        Node::Result { it } => declare(names, it.construct.position, it.name, of),
        _ => Ok(()),
    }
}

/// The types of parts of a body.
fn part_types(
    alloc: Global,
    scope: &Scope,
    kinds: &mut Kinds,
    names: &Table<usize>,
    parts: &[Declared],
) -> Result<Vec<usize>, Memory>
    requires { are_within (length kinds.old) names.now ≡ true }
    ensures types { IfOk result
        (λ v. map (type_at kinds.new) v.items
        ≡ map (types.type_of (known_in scope.now) (seen_names kinds.old names.now)) (map seen_declared parts.now)) }
    ensures within { IfOk result (λ v. are_below (length kinds.new) v.items ≡ true) }
    ensures keeps { Keeps kinds.old kinds.new }
{
    let mut numbers = Vec::new(alloc);
    for part in parts {
        let noted = note_declared(scope, kinds, names, part)?;
        let Ok(()) = numbers.push(noted.of) else {
            return Err(Memory);
        };
    }
    Ok(numbers)
}

fn is_nonencapsulated(body: &TypeSpec) -> bool
    ensures { result ≡ is_nonencapsulated_body (seen_type body.now) }
{
    match body {
        TypeSpec::NonEncapsulatedUnion { .. } => true,
        _ => false,
    }
}

/// The number of the type of a union's tag, where it is said.
fn tag_number(
    kinds: &mut Kinds,
    names: &Table<usize>,
    construct: &Construct,
    body: &TypeSpec,
) -> Result<Option<usize>, Memory>
    requires { are_within (length kinds.old) names.now ≡ true }
    ensures tag { IfOk result
        (λ o. option_map (type_at kinds.new) o ≡ tag_type (seen_construct construct.now) (seen_names kinds.old names.now) (seen_type body.now)) }
    ensures within { IfOk result (λ o. is_tag_below (length kinds.new) o ≡ true) }
    ensures keeps { Keeps kinds.old kinds.new }
{
    let Some(said) = tag_said(construct, body) else {
        return Ok(None);
    };
    let number = switch(kinds, names, said)?;
    Ok(Some(number))
}

/// What is noted of a body, which is this node.
fn body_types(
    alloc: Global,
    scope: &Scope,
    kinds: &mut Kinds,
    names: &Table<usize>,
    node: usize,
    construct: &Construct,
    body: &TypeSpec,
) -> Result<BodyTypes, Memory>
    requires { are_within (length kinds.old) names.now ≡ true }
    ensures place { IfOk result (λ b. b.place ≡ place_of_type construct.now.file (seen_type body.now)) }
    ensures nonencapsulated { IfOk result (λ b. b.nonencapsulated ≡ is_nonencapsulated_body (seen_type body.now)) }
    ensures node { IfOk result (λ b. b.node ≡ node) }
    ensures parts { IfOk result (λ b. map (type_at kinds.new) b.parts.items
        ≡ map (types.type_of (known_in scope.now) (seen_names kinds.old names.now))
        (parts_declared (seen_construct construct.now) (seen_type body.now))) }
    ensures within { IfOk result (λ b. are_below (length kinds.new) b.parts.items ≡ true) }
    ensures tag { IfOk result
        (λ b. option_map (type_at kinds.new) b.tag ≡ tag_type (seen_construct construct.now) (seen_names kinds.old names.now) (seen_type body.now)) }
    ensures tag_within { IfOk result (λ b. is_tag_below (length kinds.new) b.tag ≡ true) }
    ensures values { IfOk result (λ b. Holds b.values (values_of (known_in scope.now) (enumerators_in (seen_type body.now)))) }
    ensures keeps { Keeps kinds.old kinds.new }
{
    let tag = tag_number(kinds, names, construct, body)?;
    let declared = parts(alloc, construct, body)?;
    let parts = part_types(alloc, scope, kinds, names, &declared)?;
    let values = enum_values(alloc, scope, body)?;
    Ok(BodyTypes {
        place: place_of(construct, body),
        node,
        nonencapsulated: is_nonencapsulated(body),
        parts,
        tag,
        values,
    })
}

/// Keeps what is noted of a body, and its number under its place, unless one is there already.
fn push_body(
    bodies: &mut Vec<BodyTypes>,
    by_place: &mut Places,
    body: BodyTypes,
) -> Result<(), Memory>
    ensures bodies { OnOk result (bodies.new.items ≡ bodies.old.items ++ body ∷ []) }
    ensures places { OnOk result (by_place.new ≡ and_place by_place.old body.place (length bodies.old.items)) }
{
    put_place(by_place, body.place, bodies.len())?;
    let Ok(()) = bodies.push(body) else {
        return Err(Memory);
    };
    Ok(())
}

/// Gives a place a number, unless one is there already.
fn put_place(by_place: &mut Places, place: Place, number: usize) -> Result<(), Memory>
    ensures { OnOk result (by_place.new ≡ and_place by_place.old place number) }
{
    if by_place.get(place).is_some() {
        return Ok(());
    }
    by_place.put(place, number)
}

/// What is noted of the body that a node is.
fn read_body(
    alloc: Global,
    scope: &Scope,
    nodes: &Nodes,
    types: &mut Types,
    names: &Table<usize>,
    index: usize,
) -> Result<(), Memory>
    requires within { index < length nodes.now.items.items }
    requires names { NamesRead (known_in scope.now) nodes.now index types.old.kinds names.now }
    requires bodies { BodiesRead (known_in scope.now) nodes.now index types.old.kinds types.old.bodies.items types.old.by_place }
    requires tags { TagsRead (known_in scope.now) nodes.now index types.old.kinds types.old.bodies.items }
    ensures bodies { OnOk result (BodiesRead (known_in scope.now) nodes.now (index + 1) types.new.kinds types.new.bodies.items types.new.by_place) }
    ensures tags { OnOk result (TagsRead (known_in scope.now) nodes.now (index + 1) types.new.kinds types.new.bodies.items) }
    ensures typed { types.new.typed ≡ types.old.typed }
    ensures operations { types.new.operations ≡ types.old.operations }
    ensures keeps { Keeps types.old.kinds types.new.kinds }
{
    let Node::Body { construct, body } = &nodes.items[index] else {
        return Ok(());
    };
    let noted = body_types(
        alloc,
        scope,
        &mut types.kinds,
        names,
        index,
        construct,
        body,
    )?;
    push_body(&mut types.bodies, &mut types.by_place, noted)
}

/// The types of the parameters of a list; where there is none it is empty.
fn parameter_types(
    alloc: Global,
    scope: &Scope,
    kinds: &mut Kinds,
    names: &Table<usize>,
    nodes: &Nodes,
    list: usize,
) -> Result<Vec<usize>, Memory>
    requires { are_within (length kinds.old) names.now ≡ true }
    ensures types { IfOk result
        (λ v. map (type_at kinds.new) v.items
        ≡ map (types.type_of (known_in scope.now) (seen_names kinds.old names.now)) (list_at nodes.now.lists.items list)) }
    ensures within { IfOk result (λ v. are_below (length kinds.new) v.items ≡ true) }
    ensures keeps { Keeps kinds.old kinds.new }
{
    match nodes.list(list) {
        Some(parameters) => part_types(alloc, scope, kinds, names, parameters),
        None => Ok(Vec::new(alloc)),
    }
}

/// What is noted of the operation that a node is.
fn read_operation(
    alloc: Global,
    scope: &Scope,
    nodes: &Nodes,
    types: &mut Types,
    names: &Table<usize>,
    index: usize,
) -> Result<(), Memory>
    requires within { index < length nodes.now.items.items }
    requires names { NamesRead (known_in scope.now) nodes.now index types.old.kinds names.now }
    requires operations { OperationsRead (known_in scope.now) nodes.now index types.old.kinds types.old.operations.items }
    ensures operations { OnOk result (OperationsRead (known_in scope.now) nodes.now (index + 1) types.new.kinds types.new.operations.items) }
    ensures typed { types.new.typed ≡ types.old.typed }
    ensures bodies { types.new.bodies ≡ types.old.bodies }
    ensures by_place { types.new.by_place ≡ types.old.by_place }
    ensures keeps { Keeps types.old.kinds types.new.kinds }
{
    let Node::Operation {
        it,
        parameters: list,
    } = &nodes.items[index]
    else {
        return Ok(());
    };
    let parameters = parameter_types(alloc, scope, &mut types.kinds, names, nodes, *list)?;
    let result = written(scope, &mut types.kinds, names, it.construct.file, it.of)?;
    let noted = OperationTypes {
        node: index,
        parameters,
        result,
    };
    let Ok(()) = types.operations.push(noted) else {
        return Err(Memory);
    };
    Ok(())
}

/// What is noted of the next node.
fn read_node(
    alloc: Global,
    scope: &Scope,
    nodes: &Nodes,
    tables: &[Table<usize>],
    types: &mut Types,
    names: &mut Table<usize>,
    index: usize,
) -> Result<(), Memory>
    requires within { index < length nodes.now.items.items }
    requires tables { AreTables tables.now nodes.now.lists.items }
    requires read { AreRead (known_in scope.now) nodes.now index types.old names.old }
    ensures { OnOk result (AreRead (known_in scope.now) nodes.now (index + 1) types.new names.new) }
{
    read_body(alloc, scope, nodes, types, names, index)?;
    read_operation(alloc, scope, nodes, types, names, index)?;
    let node = &nodes.items[index];
    let noted = noted(scope, &mut types.kinds, names, nodes, tables, node)?;
    declare_node(names, node, noted.of)?;
    let Ok(()) = types.typed.push(noted) else {
        return Err(Memory);
    };
    Ok(())
}

/// The types of all nodes. Takes memory for each type once, for each value of an enum, and for an entry of each node.
pub fn of_nodes<'t>(alloc: Global, scope: &Scope, nodes: &Nodes<'t>) -> Result<Types, Memory>
    ensures types { IfOk result (IsTypes (scene_seen (known_in scope.now) nodes.now) nodes.now) }
    ensures tags { IfOk result (HasTags (scene_seen (known_in scope.now) nodes.now)) }
    ensures operations { IfOk result (HasOperations (scene_seen (known_in scope.now) nodes.now) nodes.now) }
{
    let tables = tables(alloc, nodes)?;
    let mut names = Table::new(alloc);
    let mut types = Types {
        kinds: Kinds::new(alloc),
        typed: Vec::new(alloc),
        bodies: Vec::new(alloc),
        by_place: Places::new(alloc),
        operations: Vec::new(alloc),
    };
    for index in 0..nodes.items.len() {
        read_node(alloc, scope, nodes, &tables, &mut types, &mut names, index)?;
    }
    Ok(types)
}
