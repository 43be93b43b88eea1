// The walk through trees: their nodes in the order of the text.
ghost use Rattle.std.specs.Prelude.{◌≡◌, ◌<◌, ◌+◌, ◌^◌, [], ◌∷◌, map, length, IfOk, OnOk};
ghost use Rattle.idl_grammar.specs.Reading.{members_of, cases_of, arms_of};
ghost use Rattle.idl_grammar.specs.Seen as seen;
ghost use Rattle.idl_rule_definitions.specs.Nodes as rules;
ghost use Rattle.idl_constructs.specs.SeenNodes.{seen_construct, seen_position, seen_declared};
ghost use Rattle.idl_constructs.specs.Growing.{Adds, AddsOf, member_front, member_rest};

use crate::attributes::switch_type_in;
use crate::nodes::{Construct, Declared, Node, Nodes, Position};
use crate::parts::members_declared;
use idl_grammar::{Arm, Case, Declarator, Enumerator, Member, TypeSpec};
use nd_base::Memory;
use std::alloc::Global;

/// The attributes of a construct.
pub fn attributes<'t>(nodes: &mut Nodes<'t>, construct: &Construct<'t>) -> Result<(), Memory>
    ensures { OnOk result (Adds nodes.old nodes.new (rules.attribute_nodes (seen_construct construct.now))) }
{
    nodes.push(Node::Attributes {
        construct: *construct,
    })
}

/// The type of the `switch_type` of a declaration, where there is one.
pub(crate) fn switch<'t>(nodes: &mut Nodes<'t>, construct: &Construct<'t>) -> Result<(), Memory>
    ensures { OnOk result (Adds nodes.old nodes.new (rules.switch_nodes (seen_construct construct.now))) }
{
    match switch_type_in(construct.attributes) {
        Some(of) => nodes.push(Node::Switch {
            construct: *construct,
            of,
        }),
        None => Ok(()),
    }
}

/// A declarator that is in no list.
pub(crate) fn unlisted<'t>(nodes: &mut Nodes<'t>, it: Declared<'t>) -> Result<(), Memory>
    ensures { OnOk result (Adds nodes.old nodes.new (rules.DeclaratorNode [] 0 (seen_declared it.entry) ∷ [])) }
{
    nodes.push(Node::Declarator {
        list: 0,
        index: 0,
        it,
    })
}

/// A declarator of a list, at this index.
pub(crate) fn listed<'t>(
    nodes: &mut Nodes<'t>,
    list: usize,
    index: usize,
    it: Declared<'t>,
) -> Result<(), Memory>
    ensures { OnOk result (AddsOf nodes.old nodes.new list (λ all. rules.DeclaratorNode all index (seen_declared it.entry) ∷ [])) }
{
    nodes.push(Node::Declarator { list, index, it })
}

/// Declarators of one type in a list, from this index on; gives the next index.
fn declarators<'t>(
    nodes: &mut Nodes<'t>,
    list: usize,
    first: usize,
    construct: &Construct<'t>,
    of: &'t TypeSpec,
    declarators: &'t [Declarator],
) -> Result<usize, Memory>
    requires { first + length declarators.now < 2 ^ 64 }
    ensures next { IfOk result (λ next. next ≡ first + length (map seen.seen_declarator declarators.now)) }
    ensures adds { OnOk result (AddsOf nodes.old nodes.new list
        (λ all. rules.declarator_nodes all first
        (map (rules.declared (seen_construct construct.now) (seen.seen_type of.now)) (map seen.seen_declarator declarators.now)))) }
{
    let mut index = first;
    for declarator in declarators {
        listed(nodes, list, index, construct.declared(of, declarator))?;
        index += 1;
    }
    Ok(index)
}

/// A type, with all that is in it.
#[cycle(walk)]
pub(crate) fn type_spec<'t>(
    alloc: Global,
    nodes: &mut Nodes<'t>,
    construct: &Construct<'t>,
    of: &'t TypeSpec,
) -> Result<(), Memory>
    ensures { OnOk result (Adds nodes.old nodes.new (rules.type_nodes (seen_construct construct.now) (seen.seen_type of.now))) }
{
    match of {
        TypeSpec::Simple(_) | TypeSpec::Name(_) => Ok(()),
        TypeSpec::Tag { kind, tag, .. } => nodes.push(Node::Tag {
            construct: *construct,
            kind: *kind,
            tag,
        }),
        TypeSpec::Struct { members: list, .. } => {
            body(nodes, construct, of)?;
            members(alloc, nodes, construct, list)
        }
        TypeSpec::EncapsulatedUnion {
            discriminant,
            cases: list,
            ..
        } => {
            body(nodes, construct, of)?;
            nodes.push(Node::Switch {
                construct: *construct,
                of: &discriminant.of,
            })?;
            labels(nodes, construct, of)?;
            cases(alloc, nodes, construct, list)
        }
        TypeSpec::NonEncapsulatedUnion { arms: list, .. } => {
            body(nodes, construct, of)?;
            labels(nodes, construct, of)?;
            arms(alloc, nodes, construct, list)
        }
        TypeSpec::Enum {
            enumerators: list,
            ..
        } => {
            body(nodes, construct, of)?;
            enumerators(nodes, construct, list.as_slice())
        }
    }
}

/// A struct, union or enum with its body.
fn body<'t>(
    nodes: &mut Nodes<'t>,
    construct: &Construct<'t>,
    body: &'t TypeSpec,
) -> Result<(), Memory>
    ensures { OnOk result (Adds nodes.old nodes.new (rules.BodyNode (seen_construct construct.now) (seen.seen_type body.now) ∷ [])) }
{
    nodes.push(Node::Body {
        construct: *construct,
        body,
    })
}

/// The labels of a union.
fn labels<'t>(
    nodes: &mut Nodes<'t>,
    construct: &Construct<'t>,
    body: &'t TypeSpec,
) -> Result<(), Memory>
    ensures { OnOk result (Adds nodes.old nodes.new
        (rules.label_nodes (seen_construct construct.now) (seen.seen_type body.now) [] (rules.labels_of (seen.seen_type body.now)))) }
{
    nodes.push(Node::Labels {
        construct: *construct,
        body,
    })
}

/// The enumerators of an enum.
fn enumerators<'t>(
    nodes: &mut Nodes<'t>,
    construct: &Construct<'t>,
    list: &'t [Enumerator],
) -> Result<(), Memory>
    ensures { OnOk result
        (Adds nodes.old nodes.new (map (λ e. rules.EnumeratorNode (seen_construct construct.now) e.name) (map seen.seen_enumerator list.now))) }
{
    nodes.push(Node::Enumerators {
        construct: *construct,
        list,
    })
}

/// The attributes and the type of members of one type.
#[cycle(walk)]
fn member<'t>(
    alloc: Global,
    nodes: &mut Nodes<'t>,
    construct: &Construct<'t>,
    member: &'t Member,
) -> Result<(), Memory>
    ensures { OnOk result (Adds nodes.old nodes.new (member_front (seen_construct construct.now) (seen.seen_member member.now))) }
{
    let inner = construct.inside(Position::Member, member.at, &member.attributes);
    attributes(nodes, &inner)?;
    type_spec(alloc, nodes, &inner, &member.of)
}

/// The declarators of members of one type, from this index of their list on; gives the next index.
fn member_declarators<'t>(
    nodes: &mut Nodes<'t>,
    construct: &Construct<'t>,
    list: usize,
    first: usize,
    member: &'t Member,
) -> Result<usize, Memory>
    requires { first + length member.now.declarators.items < 2 ^ 64 }
    ensures next { IfOk result (λ next. next ≡ first + length (map seen.seen_declarator member.now.declarators.items)) }
    ensures adds { OnOk result (AddsOf nodes.old nodes.new list (member_rest (seen_construct construct.now) first (seen.seen_member member.now))) }
{
    let inner = construct.inside(Position::Member, member.at, &member.attributes);
    declarators(
        nodes,
        list,
        first,
        &inner,
        &member.of,
        member.declarators.as_slice(),
    )
}

/// The members of a struct.
#[cycle(walk)]
fn members<'t>(
    alloc: Global,
    nodes: &mut Nodes<'t>,
    construct: &Construct<'t>,
    list: &'t Vec<Member>,
) -> Result<(), Memory>
    ensures { OnOk result (Adds nodes.old nodes.new (rules.member_nodes (seen_construct construct.now)
        (rules.declared_members (seen_construct construct.now) (members_of (map seen.seen_member list.now.items))) 0
        (members_of (map seen.seen_member list.now.items)))) }
{
    let declared = members_declared(alloc, construct, list)?;
    let number = nodes.push_list(declared)?;
    let mut index = 0;
    for one in list {
        member(alloc, nodes, construct, one)?;
        index = member_declarators(nodes, construct, number, index, one)?;
    }
    Ok(())
}

/// The cases of a union with its discriminant.
#[cycle(walk)]
fn cases<'t>(
    alloc: Global,
    nodes: &mut Nodes<'t>,
    construct: &Construct<'t>,
    list: &'t Vec<Case>,
) -> Result<(), Memory>
    ensures { OnOk result
        (Adds nodes.old nodes.new (rules.case_nodes (seen_construct construct.now) (cases_of (map seen.seen_case list.now.items)))) }
{
    for one in list {
        arm(alloc, nodes, construct, Position::Arm, &one.arm)?;
    }
    Ok(())
}

/// The arms of a union whose discriminant is elsewhere.
#[cycle(walk)]
fn arms<'t>(
    alloc: Global,
    nodes: &mut Nodes<'t>,
    construct: &Construct<'t>,
    list: &'t Vec<Arm>,
) -> Result<(), Memory>
    ensures { OnOk result (Adds nodes.old nodes.new (rules.arms_nodes (seen_construct construct.now) (arms_of (map seen.seen_arm list.now.items)))) }
{
    for one in list {
        arm(alloc, nodes, construct, Position::CasedArm, one)?;
    }
    Ok(())
}

/// An arm of a union.
#[cycle(walk)]
fn arm<'t>(
    alloc: Global,
    nodes: &mut Nodes<'t>,
    construct: &Construct<'t>,
    position: Position,
    arm: &'t Arm,
) -> Result<(), Memory>
    ensures { OnOk result
        (Adds nodes.old nodes.new (rules.arm_nodes (seen_construct construct.now) (seen_position position) (seen.seen_arm arm.now))) }
{
    match arm {
        Arm::Empty {
            at,
            attributes: list,
        } => {
            let inner = construct.inside(position, *at, list);
            attributes(nodes, &inner)?;
            nodes.push(Node::EmptyArm { construct: inner })
        }
        Arm::Typed {
            at,
            attributes: list,
            of,
            declarator,
        } => {
            let inner = construct.inside(position, *at, list);
            attributes(nodes, &inner)?;
            type_spec(alloc, nodes, &inner, of)?;
            unlisted(nodes, inner.declared(of, declarator))
        }
    }
}
