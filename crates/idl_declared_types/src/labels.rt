// The labels of a union, with their values.
ghost use Rattle.std.specs.Prelude.{◌≡◌, [], ◌∷◌, ◌++◌, map, Some, IfOk, OnOk};
ghost use Rattle.std.specs.List.{flat_map};
ghost use Rattle.idl_grammar.specs.Reading.{cases_of, arms_of};
ghost use Rattle.idl_grammar.specs.Seen.{seen_expr, seen_label, seen_attribute, seen_kind, seen_arm, seen_case, seen_type};
ghost use Rattle.idl_scope.specs.Seen.{known_in};
ghost use Rattle.idl_rule_definitions.specs.Nodes as rules;
ghost use Rattle.idl_declared_types.specs.LabelValues.{valued};

use crate::typing::number;
use idl_constructs::attributes::attribute_list;
use idl_grammar::{Arm, Attribute, AttributeKind, Case, Expr, Label, TypeSpec};
use idl_scope::Scope;
use nd_base::Memory;
use std::alloc::Global;

/// A label, and the octet where it is reported. A default has no value.
#[derive(Clone, Copy, Debug, PartialEq, Eq)]
pub struct Valued {
    pub at: u32,
    pub value: Option<i128>,
}

/// Adds a label.
fn add(list: &mut Vec<Valued>, at: u32, value: Option<i128>) -> Result<(), Memory>
    ensures { OnOk result (list.new.items ≡ list.old.items ++ record { at = at; value = value } ∷ []) }
{
    match list.push(Valued { at, value }) {
        Ok(()) => Ok(()),
        Err(_) => Err(Memory),
    }
}

/// Adds a label of a case.
fn add_label(scope: &Scope, list: &mut Vec<Valued>, label: &Label) -> Result<(), Memory>
    ensures { OnOk result (list.new.items ≡ list.old.items ++ valued (known_in scope.now) (rules.arm_label (seen_label label.now)) ∷ []) }
{
    match label {
        Label::Value { at, value } => add(list, *at, Some(number(scope, value))),
        Label::Default { at } => add(list, *at, None),
    }
}

/// Adds the labels of a case.
fn add_labels(scope: &Scope, list: &mut Vec<Valued>, labels: &[Label]) -> Result<(), Memory>
    ensures { OnOk result (list.new.items ≡ list.old.items ++ map (valued (known_in scope.now)) (map rules.arm_label (map seen_label labels.now))) }
{
    for label in labels {
        add_label(scope, list, label)?;
    }
    Ok(())
}

/// Adds a value of `case` in a list of attributes.
fn add_value(scope: &Scope, list: &mut Vec<Valued>, at: u32, value: &Expr) -> Result<(), Memory>
    ensures { OnOk result
        (list.new.items ≡ list.old.items ++ valued (known_in scope.now) (record { at = at; value = Some (seen_expr value.now) }) ∷ []) }
{
    add(list, at, Some(number(scope, value)))
}

/// Adds the values of `case` in a list of attributes.
fn add_values(scope: &Scope, list: &mut Vec<Valued>, at: u32, values: &[Expr]) -> Result<(), Memory>
    ensures { OnOk result
        (list.new.items ≡ list.old.items
        ++ map (valued (known_in scope.now)) (map (λ e. record { at = at; value = Some e }) (map seen_expr values.now))) }
{
    for value in values {
        add_value(scope, list, at, value)?;
    }
    Ok(())
}

/// Adds the labels that an attribute gives.
fn add_said(scope: &Scope, list: &mut Vec<Valued>, attribute: &Attribute) -> Result<(), Memory>
    ensures { OnOk result
        (list.new.items ≡ list.old.items ++ map (valued (known_in scope.now)) (rules.labels_said attribute.now.at (seen_kind attribute.now.kind))) }
{
    match &attribute.kind {
        AttributeKind::Case(values) => add_values(scope, list, attribute.at, values.as_slice()),
        AttributeKind::Default => add(list, attribute.at, None),
        _ => Ok(()),
    }
}

/// Adds the labels that attributes give.
fn add_all_said(
    scope: &Scope,
    list: &mut Vec<Valued>,
    attributes: &[Attribute],
) -> Result<(), Memory>
    ensures { OnOk result
        (list.new.items ≡ list.old.items ++ map (valued (known_in scope.now)) (rules.labels_in (map seen_attribute attributes.now))) }
{
    for attribute in attributes {
        add_said(scope, list, attribute)?;
    }
    Ok(())
}

/// The attributes of an arm.
pub fn arm_attributes(arm: &Arm) -> &[Attribute]
    ensures { map seen_attribute result.now ≡ rules.arm_attributes (seen_arm arm.now) }
{
    match arm {
        Arm::Empty { attributes, .. } => attribute_list(attributes),
        Arm::Typed { attributes, .. } => attribute_list(attributes),
    }
}

/// The labels of the cases of a union that has its discriminant with it.
fn labels_of_cases(alloc: Global, scope: &Scope, cases: &Vec<Case>) -> Result<Vec<Valued>, Memory>
    ensures { IfOk result
        (λ v. v.items
        ≡ map (valued (known_in scope.now)) (flat_map (λ a. a.labels) (rules.arms_of_cases (cases_of (map seen_case cases.now.items))))) }
{
    let mut list = Vec::new(alloc);
    for case in cases {
        add_labels(scope, &mut list, case.labels.as_slice())?;
    }
    Ok(list)
}

/// The labels of the arms of a union whose discriminant is elsewhere.
fn labels_of_arms(alloc: Global, scope: &Scope, arms: &Vec<Arm>) -> Result<Vec<Valued>, Memory>
    ensures { IfOk result
        (λ v. v.items ≡ map (valued (known_in scope.now)) (flat_map (λ a. a.labels) (rules.arms_of_arms (arms_of (map seen_arm arms.now.items))))) }
{
    let mut list = Vec::new(alloc);
    for arm in arms {
        add_all_said(scope, &mut list, arm_attributes(arm))?;
    }
    Ok(list)
}

/// The labels of a union, in the order of the text. Takes memory for the list.
pub fn labels_of(alloc: Global, scope: &Scope, body: &TypeSpec) -> Result<Vec<Valued>, Memory>
    ensures { IfOk result (λ v. v.items ≡ map (valued (known_in scope.now)) (rules.labels_of (seen_type body.now))) }
{
    match body {
        TypeSpec::EncapsulatedUnion { cases, .. } => labels_of_cases(alloc, scope, cases),
        TypeSpec::NonEncapsulatedUnion { arms, .. } => labels_of_arms(alloc, scope, arms),
        _ => Ok(Vec::new(alloc)),
    }
}
