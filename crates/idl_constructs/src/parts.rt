// What is declared in a struct, a union or an operation, as lists.
ghost use Rattle.std.specs.Prelude.{◌≡◌, ◌++◌, [], ◌∷◌, map, IfOk, OnOk};
ghost use Rattle.std.specs.List.{flat_map};
ghost use Rattle.idl_grammar.specs.Reading.{members_of, cases_of, arms_of};
ghost use Rattle.idl_grammar.specs.Seen as seen;
ghost use Rattle.idl_rule_definitions.specs.Nodes.{declared, declared_members, declared_parameters, arms_of_cases, arms_of_arms};
ghost use Rattle.idl_rule_definitions.specs.Scene.{arm_declared, parts_declared};
ghost use Rattle.idl_constructs.specs.SeenNodes.{seen_construct, seen_position, seen_declared};

use crate::nodes::{Construct, Declared, Position};
use idl_grammar::{Arm, Case, Declarator, Member, Parameter, TypeSpec};
use nd_base::Memory;
use std::alloc::Global;

/// Adds a declarator.
fn add<'t>(list: &mut Vec<Declared<'t>>, it: Declared<'t>) -> Result<(), Memory>
    ensures { OnOk result (map seen_declared list.new.items ≡ map seen_declared list.old.items ++ seen_declared it.entry ∷ []) }
{
    match list.push(it) {
        Ok(()) => Ok(()),
        Err(_) => Err(Memory),
    }
}

/// Adds declarators of one type.
fn add_each<'t>(
    list: &mut Vec<Declared<'t>>,
    construct: &Construct<'t>,
    of: &'t TypeSpec,
    declarators: &'t [Declarator],
) -> Result<(), Memory>
    ensures { OnOk result (map seen_declared list.new.items
        ≡ map seen_declared list.old.items
        ++ map (declared (seen_construct construct.now) (seen.seen_type of.now)) (map seen.seen_declarator declarators.now)) }
{
    for declarator in declarators {
        add(list, construct.declared(of, declarator))?;
    }
    Ok(())
}

/// The members of a struct. Takes memory for the list.
pub fn members_declared<'t>(
    alloc: Global,
    construct: &Construct<'t>,
    members: &'t Vec<Member>,
) -> Result<Vec<Declared<'t>>, Memory>
    ensures { IfOk result
        (λ v. map seen_declared v.items ≡ declared_members (seen_construct construct.now) (members_of (map seen.seen_member members.now.items))) }
{
    let mut list = Vec::new(alloc);
    for member in members {
        let inner = construct.inside(Position::Member, member.at, &member.attributes);
        add_each(&mut list, &inner, &member.of, member.declarators.as_slice())?;
    }
    Ok(list)
}

/// The parameters of an operation. Takes memory for the list.
pub fn parameters_declared<'t>(
    alloc: Global,
    construct: &Construct<'t>,
    parameters: &'t [Parameter],
) -> Result<Vec<Declared<'t>>, Memory>
    ensures { IfOk result
        (λ v. map seen_declared v.items ≡ declared_parameters (seen_construct construct.now) (map seen.seen_parameter parameters.now)) }
{
    let mut list = Vec::new(alloc);
    for parameter in parameters {
        let inner = construct.inside(Position::Parameter, parameter.at, &parameter.attributes);
        add(
            &mut list,
            inner.declared(&parameter.of, &parameter.declarator),
        )?;
    }
    Ok(list)
}

/// Adds an arm that is not empty.
fn add_arm<'t>(
    list: &mut Vec<Declared<'t>>,
    construct: &Construct<'t>,
    position: Position,
    arm: &'t Arm,
) -> Result<(), Memory>
    ensures { OnOk result (map seen_declared list.new.items
        ≡ map seen_declared list.old.items ++ arm_declared (seen_construct construct.now) (seen_position position) (seen.seen_arm arm.now)) }
{
    match arm {
        Arm::Empty { .. } => Ok(()),
        Arm::Typed {
            at,
            attributes,
            of,
            declarator,
        } => {
            let inner = construct.inside(position, *at, attributes);
            add(list, inner.declared(of, declarator))
        }
    }
}

/// The arms of a union that has its discriminant with it.
fn cases_declared<'t>(
    alloc: Global,
    construct: &Construct<'t>,
    cases: &'t Vec<Case>,
) -> Result<Vec<Declared<'t>>, Memory>
    ensures { IfOk result (λ v. map seen_declared v.items
        ≡ flat_map (λ a. arm_declared (seen_construct construct.now) a.position a.arm)
        (arms_of_cases (cases_of (map seen.seen_case cases.now.items)))) }
{
    let mut list = Vec::new(alloc);
    for case in cases {
        add_arm(&mut list, construct, Position::Arm, &case.arm)?;
    }
    Ok(list)
}

/// The arms of a union whose discriminant is elsewhere.
fn arms_declared<'t>(
    alloc: Global,
    construct: &Construct<'t>,
    arms: &'t Vec<Arm>,
) -> Result<Vec<Declared<'t>>, Memory>
    ensures { IfOk result (λ v. map seen_declared v.items
        ≡ flat_map (λ a. arm_declared (seen_construct construct.now) a.position a.arm) (arms_of_arms (arms_of (map seen.seen_arm arms.now.items)))) }
{
    let mut list = Vec::new(alloc);
    for arm in arms {
        add_arm(&mut list, construct, Position::CasedArm, arm)?;
    }
    Ok(list)
}

/// The members of a struct, or the arms of a union that are not empty. Takes memory for the list.
pub fn parts<'t>(
    alloc: Global,
    construct: &Construct<'t>,
    body: &'t TypeSpec,
) -> Result<Vec<Declared<'t>>, Memory>
    ensures { IfOk result (λ v. map seen_declared v.items ≡ parts_declared (seen_construct construct.now) (seen.seen_type body.now)) }
{
    match body {
        TypeSpec::Struct { members, .. } => members_declared(alloc, construct, members),
        TypeSpec::EncapsulatedUnion { cases, .. } => cases_declared(alloc, construct, cases),
        TypeSpec::NonEncapsulatedUnion { arms, .. } => arms_declared(alloc, construct, arms),
        _ => Ok(Vec::new(alloc)),
    }
}
