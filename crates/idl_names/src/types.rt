// Types, step by step.
ghost use Rattle.std.specs.Prelude.{◌≡◌, ◌++◌, [], ◌∷◌, map, None, OnOk, option_map};
ghost use Rattle.std.specs.List.{list_all, flat_map};
ghost use Rattle.idl_grammar.specs.Seen as seen;
ghost use Rattle.idl_grammar.specs.Reading.{members_of, cases_of, arms_of};
ghost use Rattle.idl_scope.specs.Known.{walked};
ghost use Rattle.idl_scope.specs.Kept.{listed, IsRight};
ghost use Rattle.idl_scope.specs.Steps.{optional_attribute_steps, label_steps, tag_steps, enumerator_steps, enlisted_steps, is_pointer};
ghost use Rattle.idl_scope.specs.Steps.{declared_name, type_steps, member_steps, case_steps, arms_steps, arm_steps};

use crate::walk::{dimensions, labels, listed_declarator, optional_attributes, switch_type};
use idl_grammar::{Arm, Case, Declarator, Enumerator, Identifier, Member, TagKind, TypeSpec};
use idl_scope::{NameFault, NameTables, Table};
use std::alloc::Global;

/// A tag before its body, where there is one.
fn tag(
    names: &mut NameTables,
    file: u16,
    kind: TagKind,
    tag: &Option<Identifier>,
) -> Result<(), NameFault>
    ensures { IsRight names.new result (walked file names.old (tag_steps kind tag.now)) }
{
    match tag {
        Some(tag) => names.define_tag(file, kind, tag),
        None => Ok(()),
    }
}

/// A name of an enumeration, after the one before it.
fn enumerator(
    names: &mut NameTables,
    file: u16,
    previous: Option<&Identifier>,
    one: &Enumerator,
) -> Result<(), NameFault>
    ensures { IsRight names.new result
        (walked file names.old (enumerator_steps (option_map (λ s. s.now) previous.entry) (seen.seen_enumerator one.now ∷ []))) }
{
    match &one.value {
        Some(value) => {
            names.declare(file, &one.name)?;
            names.know_value(file, &one.name, value)
        }
        None => names.declare_next(file, &one.name, previous),
    }
}

/// The names of an enumeration.
fn enumerators(names: &mut NameTables, file: u16, list: &Vec<Enumerator>) -> Result<(), NameFault>
    ensures { IsRight names.new result (walked file names.old (enumerator_steps None (map seen.seen_enumerator list.now.items))) }
{
    let mut previous = None;
    for one in list {
        enumerator(names, file, previous, one)?;
        previous = Some(&one.name);
    }
    Ok(())
}

/// Whether a name is a pointer's.
pub(crate) fn is_pointer(declarator: &Declarator) -> bool
    ensures { result ≡ is_pointer (seen.seen_declarator declarator.now) }
{
    !declarator.stars.is_empty()
}

/// Whether all these are pointers.
pub(crate) fn are_pointers(declarators: &[Declarator]) -> bool
    ensures { result ≡ list_all is_pointer (map seen.seen_declarator declarators.now) }
{
    declarators.iter().all(is_pointer)
}

/// Members of one type, after those of their list.
fn listed_declarators(
    names: &NameTables,
    file: u16,
    list: &mut Table<u32>,
    declarators: &[Declarator],
) -> Result<(), NameFault>
    ensures right { IsRight names.now result (walked file names.now (enlisted_steps (listed list.old) (map seen.seen_declarator declarators.now))) }
    ensures more { OnOk result (listed list.new ≡ listed list.old ++ map declared_name (map seen.seen_declarator declarators.now)) }
{
    for declarator in declarators {
        listed_declarator(names, file, list, declarator)?;
    }
    Ok(())
}

/// A type.
#[cycle(types)]
pub(crate) fn type_spec(
    alloc: Global,
    names: &mut NameTables,
    file: u16,
    of: &TypeSpec,
    behind_pointers: bool,
) -> Result<(), NameFault>
    ensures { IsRight names.new result (walked file names.old (type_steps behind_pointers (seen.seen_type of.now))) }
{
    match of {
        TypeSpec::Simple(_) => Ok(()),
        TypeSpec::Name(name) => names.use_type(file, name),
        TypeSpec::Tag { kind, tag, .. } => names.use_tag(file, *kind, tag, behind_pointers),
        TypeSpec::Struct {
            tag: name,
            members: list,
            ..
        } => {
            tag(names, file, TagKind::Struct, name)?;
            members(alloc, names, file, list)
        }
        TypeSpec::EncapsulatedUnion {
            tag: name,
            discriminant,
            cases: list,
            ..
        } => {
            tag(names, file, TagKind::Union, name)?;
            switch_type(names, file, &discriminant.of)?;
            cases(alloc, names, file, list)
        }
        TypeSpec::NonEncapsulatedUnion {
            tag: name,
            arms: list,
            ..
        } => {
            tag(names, file, TagKind::Union, name)?;
            arms(alloc, names, file, list)
        }
        TypeSpec::Enum {
            tag: name,
            enumerators: list,
            ..
        } => {
            tag(names, file, TagKind::Enum, name)?;
            enumerators(names, file, list)
        }
    }
}

/// Members of one type, after those of their struct.
#[cycle(types)]
fn member(
    alloc: Global,
    names: &mut NameTables,
    file: u16,
    list: &mut Table<u32>,
    member: &Member,
) -> Result<(), NameFault>
    ensures right { IsRight names.new result
        (walked file names.old
        (optional_attribute_steps (option_map seen.seen_attributes member.now.attributes)
        ++ type_steps (list_all is_pointer (map seen.seen_declarator member.now.declarators.items)) (seen.seen_type member.now.of)
        ++ enlisted_steps (listed list.old) (map seen.seen_declarator member.now.declarators.items))) }
    ensures more { OnOk result (listed list.new ≡ listed list.old ++ map declared_name (map seen.seen_declarator member.now.declarators.items)) }
{
    optional_attributes(names, file, &member.attributes)?;
    let behind_pointers = are_pointers(member.declarators.as_slice());
    type_spec(alloc, names, file, &member.of, behind_pointers)?;
    listed_declarators(names, file, list, member.declarators.as_slice())
}

/// The members of a struct.
#[cycle(types)]
fn members(
    alloc: Global,
    names: &mut NameTables,
    file: u16,
    list: &Vec<Member>,
) -> Result<(), NameFault>
    ensures { IsRight names.new result (walked file names.old (member_steps [] (members_of (map seen.seen_member list.now.items)))) }
{
    let mut before = Table::new(alloc);
    for one in list {
        member(alloc, names, file, &mut before, one)?;
    }
    Ok(())
}

/// A case of a union.
#[cycle(types)]
fn case(alloc: Global, names: &mut NameTables, file: u16, case: &Case) -> Result<(), NameFault>
    ensures { IsRight names.new result
        (walked file names.old (flat_map label_steps (map seen.seen_label case.now.labels.items) ++ arm_steps (seen.seen_arm case.now.arm))) }
{
    labels(names, file, &case.labels)?;
    arm(alloc, names, file, &case.arm)
}

/// The cases of a union with its discriminant.
#[cycle(types)]
fn cases(
    alloc: Global,
    names: &mut NameTables,
    file: u16,
    list: &Vec<Case>,
) -> Result<(), NameFault>
    ensures { IsRight names.new result (walked file names.old (case_steps (cases_of (map seen.seen_case list.now.items)))) }
{
    for one in list {
        case(alloc, names, file, one)?;
    }
    Ok(())
}

/// The arms of a union whose discriminant is elsewhere.
#[cycle(types)]
fn arms(alloc: Global, names: &mut NameTables, file: u16, list: &Vec<Arm>) -> Result<(), NameFault>
    ensures { IsRight names.new result (walked file names.old (arms_steps (arms_of (map seen.seen_arm list.now.items)))) }
{
    for one in list {
        arm(alloc, names, file, one)?;
    }
    Ok(())
}

/// An arm of a union.
#[cycle(types)]
fn arm(alloc: Global, names: &mut NameTables, file: u16, arm: &Arm) -> Result<(), NameFault>
    ensures { IsRight names.new result (walked file names.old (arm_steps (seen.seen_arm arm.now))) }
{
    match arm {
        Arm::Empty { attributes, .. } => optional_attributes(names, file, attributes),
        Arm::Typed {
            attributes,
            of,
            declarator,
            ..
        } => {
            optional_attributes(names, file, attributes)?;
            let behind_pointers = is_pointer(declarator);
            type_spec(alloc, names, file, of, behind_pointers)?;
            dimensions(names, file, declarator)
        }
    }
}
