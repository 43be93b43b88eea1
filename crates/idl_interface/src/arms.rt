// The arms of a union as an interface has them.
ghost use Rattle.std.specs.Prelude.{◌≡◌, ◌++◌, ◌∷◌, [], true, Some, map, option_map, is_none, IfOk, OnOk};
ghost use Rattle.std.specs.List.{flat_map, list_all, list_any};
ghost use Rattle.nd_types.specs.Legal.{is_named, is_named_default};
ghost use Rattle.idl_grammar.specs.Reading as reading;
ghost use Rattle.idl_grammar.specs.Seen.{seen_expr, seen_attribute, seen_kind, seen_label, seen_arm, seen_case, seen_type};
ghost use Rattle.idl_scope.specs.Seen.{known_in};
ghost use Rattle.idl_rule_definitions.specs.Nodes.{value_in};
ghost use Rattle.idl_rule_definitions.specs.DeclarationRules as values;
ghost use Rattle.idl_rule_definitions.specs.Nodes as rules;
ghost use Rattle.idl_rule_definitions.specs.Meaning as meaning;
ghost use Rattle.idl_interface.specs.Made as made;
ghost use Rattle.idl_interface.specs.Made.{seen_valued, valued, value_said, arm_with, arms_with, default_with};

use crate::members::name_of;
use idl_declared_types::labels::arm_attributes;
use idl_declared_types::typing::number;
use idl_grammar::{Arm, Attribute, AttributeKind, Case, Expr, Identifier, Label, TypeSpec};
use idl_scope::Scope;
use nd_base::{Memory, Name};
use nd_types as nd;
use nd_types::{Arms, TypeId};
use std::alloc::Global;

/// An arm of a union with the values of its labels.
#[derive(Drop)]
pub struct ValuedArm<'t> {
    /// The name that it declares; an empty arm has none.
    pub name: Option<&'t Identifier>,
    /// The values of its labels; a default has none.
    pub labels: Vec<Option<i128>>,
}

/// Adds a label.
fn add_label(labels: &mut Vec<Option<i128>>, label: Option<i128>) -> Result<(), Memory>
    ensures { OnOk result (labels.new.items ≡ labels.old.items ++ label ∷ []) }
{
    match labels.push(label) {
        Ok(()) => Ok(()),
        Err(_) => Err(Memory),
    }
}

/// Adds values as labels.
fn add_values(labels: &mut Vec<Option<i128>>, scope: &Scope, values: &[Expr]) -> Result<(), Memory>
    ensures { OnOk result (labels.new.items ≡ labels.old.items ++ map (λ e. Some (value_in (known_in scope.now) e)) (map seen_expr values.now)) }
{
    for value in values {
        add_label(labels, Some(number(scope, value)))?;
    }
    Ok(())
}

/// Adds the labels that an attribute gives.
fn add_said(
    labels: &mut Vec<Option<i128>>,
    scope: &Scope,
    attribute: &Attribute,
) -> Result<(), Memory>
    ensures { OnOk result (labels.new.items ≡ labels.old.items
        ++ map (values.label_value (known_in scope.now)) (rules.labels_said attribute.now.at (seen_kind attribute.now.kind))) }
{
    match &attribute.kind {
        AttributeKind::Case(values) => add_values(labels, scope, values.as_slice()),
        AttributeKind::Default => add_label(labels, None),
        _ => Ok(()),
    }
}

/// The labels that attributes give. Takes memory for them.
fn labels_in(
    alloc: Global,
    scope: &Scope,
    attributes: &[Attribute],
) -> Result<Vec<Option<i128>>, Memory>
    ensures { IfOk result (λ v. v.items ≡ map (values.label_value (known_in scope.now)) (rules.labels_in (map seen_attribute attributes.now))) }
{
    let mut labels = Vec::new(alloc);
    for attribute in attributes {
        add_said(&mut labels, scope, attribute)?;
    }
    Ok(labels)
}

/// The value of a label.
fn label_value(scope: &Scope, label: &Label) -> Option<i128>
    ensures { result ≡ value_said (known_in scope.now) (seen_label label.now) }
{
    match label {
        Label::Value { value, .. } => Some(number(scope, value)),
        Label::Default { .. } => None,
    }
}

/// The labels of a case. Takes memory for them.
fn labels_of(alloc: Global, scope: &Scope, labels: &[Label]) -> Result<Vec<Option<i128>>, Memory>
    ensures { IfOk result (λ v. v.items ≡ map (values.label_value (known_in scope.now)) (map rules.arm_label (map seen_label labels.now))) }
{
    let mut values = Vec::new(alloc);
    for label in labels {
        add_label(&mut values, label_value(scope, label))?;
    }
    Ok(values)
}

/// The name that an arm declares.
fn name_in(arm: &Arm) -> Option<&Identifier>
    ensures { option_map (λ s. s.now.octets) result ≡ meaning.name_of_arm (seen_arm arm.now) }
{
    match arm {
        Arm::Empty { .. } => None,
        Arm::Typed { declarator, .. } => Some(&declarator.name),
    }
}

/// Adds an arm.
fn add<'t>(
    list: &mut Vec<ValuedArm<'t>>,
    name: Option<&'t Identifier>,
    labels: Vec<Option<i128>>,
) -> Result<(), Memory>
    ensures { OnOk result (map seen_valued list.new.items ≡ map seen_valued list.old.items
        ++ record { name = option_map (λ s. s.now.octets) name.entry; labels = labels.items } ∷ []) }
{
    match list.push(ValuedArm { name, labels }) {
        Ok(()) => Ok(()),
        Err(_) => Err(Memory),
    }
}

/// The arms of a union that has its discriminant with it.
fn valued_cases<'t>(
    alloc: Global,
    scope: &Scope,
    cases: &'t Vec<Case>,
) -> Result<Vec<ValuedArm<'t>>, Memory>
    ensures { IfOk result (λ v. map seen_valued v.items
        ≡ map (valued (known_in scope.now)) (rules.arms_of_cases (reading.cases_of (map seen_case cases.now.items)))) }
{
    let mut list = Vec::new(alloc);
    for case in cases {
        let labels = labels_of(alloc, scope, case.labels.as_slice())?;
        add(&mut list, name_in(&case.arm), labels)?;
    }
    Ok(list)
}

/// The arms of a union whose discriminant is elsewhere.
fn valued_each<'t>(
    alloc: Global,
    scope: &Scope,
    arms: &'t Vec<Arm>,
) -> Result<Vec<ValuedArm<'t>>, Memory>
    ensures { IfOk result (λ v. map seen_valued v.items
        ≡ map (valued (known_in scope.now)) (rules.arms_of_arms (reading.arms_of (map seen_arm arms.now.items)))) }
{
    let mut list = Vec::new(alloc);
    for arm in arms {
        let labels = labels_in(alloc, scope, arm_attributes(arm))?;
        add(&mut list, name_in(arm), labels)?;
    }
    Ok(list)
}

/// The arms of a union. Takes memory for them.
pub(crate) fn valued_arms<'t>(
    alloc: Global,
    scope: &Scope,
    body: &'t TypeSpec,
) -> Result<Vec<ValuedArm<'t>>, Memory>
    ensures { IfOk result (λ v. map seen_valued v.items ≡ map (valued (known_in scope.now)) (rules.arms_of (seen_type body.now))) }
{
    match body {
        TypeSpec::EncapsulatedUnion { cases, .. } => valued_cases(alloc, scope, cases),
        TypeSpec::NonEncapsulatedUnion { arms, .. } => valued_each(alloc, scope, arms),
        _ => Ok(Vec::new(alloc)),
    }
}

/// The first of these types, where the arm is not empty.
fn type_for(name: Option<&Identifier>, types: &[TypeId]) -> Option<TypeId>
    ensures { result ≡ made.type_for (option_map (λ s. s.now.octets) name.entry) types.now }
{
    match (name, types) {
        (Some(_), [first, ..]) => Some(*first),
        _ => None,
    }
}

/// The types of the arms after this one.
fn types_past<'s>(name: Option<&Identifier>, types: &'s [TypeId]) -> &'s [TypeId]
    ensures { result.now ≡ made.types_past (option_map (λ s. s.now.octets) name.entry) types.now }
{
    match (name, types) {
        (Some(_), [_, rest @ ..]) => rest,
        _ => types,
    }
}

/// The name of an arm. Takes memory for it.
fn arm_name(alloc: Global, name: Option<&Identifier>) -> Result<Option<Name>, Memory>
    ensures made { IfOk result (λ n. n ≡ option_map (λ s. s.now.octets) name.entry) }
    ensures named { IfOk result (λ n. is_named n ≡ true) }
{
    match name {
        Some(name) => Ok(Some(name_of(alloc, name)?)),
        None => Ok(None),
    }
}

/// An arm for a label. Takes memory for its name.
fn arm_for(
    alloc: Global,
    name: Option<&Identifier>,
    of: Option<TypeId>,
    label: i128,
) -> Result<nd::Arm, Memory>
    ensures made { IfOk result (λ a. a ≡ meaning.arm_for (option_map (λ s. s.now.octets) name.entry) of label) }
    ensures named { IfOk result (λ a. is_named a.name ≡ true) }
{
    let name = arm_name(alloc, name)?;
    Ok(nd::Arm { label, name, of })
}

/// Adds an arm for a label that is no default.
fn add_arm(
    alloc: Global,
    arms: &mut Arms,
    name: Option<&Identifier>,
    of: Option<TypeId>,
    label: Option<i128>,
) -> Result<(), Memory>
    ensures made { OnOk result (arms.new ≡ arms.old ++ arm_with (option_map (λ s. s.now.octets) name.entry) of label) }
    ensures named { list_all (λ a. is_named a.name) arms.old ≡ true → OnOk result (list_all (λ a. is_named a.name) arms.new ≡ true) }
{
    let Some(label) = label else {
        return Ok(());
    };
    let arm = arm_for(alloc, name, of, label)?;
    match arms.push(arm) {
        Ok(()) => Ok(()),
        Err(_) => Err(Memory),
    }
}

/// Adds an arm for each label that is no default.
fn add_arms(
    alloc: Global,
    arms: &mut Arms,
    name: Option<&Identifier>,
    of: Option<TypeId>,
    labels: &[Option<i128>],
) -> Result<(), Memory>
    ensures made { OnOk result (arms.new ≡ arms.old ++ flat_map (arm_with (option_map (λ s. s.now.octets) name.entry) of) labels.now) }
    ensures named { list_all (λ a. is_named a.name) arms.old ≡ true → OnOk result (list_all (λ a. is_named a.name) arms.new ≡ true) }
{
    for label in labels {
        add_arm(alloc, arms, name, of, *label)?;
    }
    Ok(())
}

/// The arms of a union, one for each label that is no default. Takes memory for them.
pub(crate) fn labelled_arms(
    alloc: Global,
    list: &[ValuedArm<'_>],
    types: &[TypeId],
) -> Result<Arms, Memory>
    ensures made { IfOk result (λ v. v ≡ arms_with (map seen_valued list.now) types.now) }
    ensures named { IfOk result (λ v. list_all (λ a. is_named a.name) v ≡ true) }
{
    let mut arms = Arms::new(alloc);
    let mut rest = types;
    for arm in list {
        add_arms(
            alloc,
            &mut arms,
            arm.name,
            type_for(arm.name, rest),
            arm.labels.as_slice(),
        )?;
        rest = types_past(arm.name, rest);
    }
    Ok(arms)
}

/// Whether a label is a default.
fn is_default(labels: &[Option<i128>]) -> bool
    ensures { result ≡ list_any is_none labels.now }
{
    for label in labels {
        if label.is_none() {
            return true;
        }
    }
    false
}

/// The default of a union, where it has one. Takes memory for its name.
pub(crate) fn default_arm(
    alloc: Global,
    list: &[ValuedArm<'_>],
    types: &[TypeId],
) -> Result<Option<nd::Arm>, Memory>
    ensures made { IfOk result (λ a. a ≡ default_with (map seen_valued list.now) types.now) }
    ensures named { IfOk result (λ a. is_named_default a ≡ true) }
{
    let mut rest = types;
    for arm in list {
        if is_default(arm.labels.as_slice()) {
            return Ok(Some(arm_for(alloc, arm.name, type_for(arm.name, rest), 0)?));
        }
        rest = types_past(arm.name, rest);
    }
    Ok(None)
}
