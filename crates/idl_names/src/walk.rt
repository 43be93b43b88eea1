// Attributes, declarators and lists of names, step by step.
ghost use Rattle.std.specs.Prelude.{◌≡◌, ◌++◌, [], ◌∷◌, map, OnOk, option_map};
ghost use Rattle.std.specs.List.{flat_map};
ghost use Rattle.idl_grammar.specs.Seen as seen;
ghost use Rattle.idl_scope.specs.Known.{walked};
ghost use Rattle.idl_scope.specs.Kept.{listed, IsRight};
ghost use Rattle.idl_scope.specs.Steps.{value_steps, switch_steps, kind_steps, optional_attribute_steps, attribute_steps, bound_steps};
ghost use Rattle.idl_scope.specs.Steps.{dimension_steps, label_steps, listed_steps};

use idl_grammar::{AttributeKind, Attributes, Bound, Declarator, Expr, Label, SwitchType};
use idl_scope::{NameFault, NameTables, Table, enlist};

/// The type of a switch.
pub(crate) fn switch_type(names: &NameTables, file: u16, of: &SwitchType) -> Result<(), NameFault>
    ensures { IsRight names.now result (walked file names.now (switch_steps of.now)) }
{
    match of {
        SwitchType::Simple(_) => Ok(()),
        SwitchType::Name(name) => names.use_type(file, name),
    }
}

/// Expressions in order.
fn values(names: &NameTables, file: u16, expressions: &Vec<Expr>) -> Result<(), NameFault>
    ensures { IsRight names.now result (walked file names.now (flat_map value_steps (map seen.seen_expr expressions.now.items))) }
{
    for expression in expressions {
        names.check_value(file, expression)?;
    }
    Ok(())
}

/// An attribute. The variable that it names is looked up by other rules.
fn attribute(names: &NameTables, file: u16, kind: &AttributeKind) -> Result<(), NameFault>
    ensures { IsRight names.now result (walked file names.now (kind_steps (seen.seen_kind kind.now))) }
{
    match kind {
        AttributeKind::SwitchTypeIs(of) => switch_type(names, file, of),
        AttributeKind::Case(expressions) => values(names, file, expressions),
        _ => Ok(()),
    }
}

/// A list of attributes.
pub(crate) fn attributes(names: &NameTables, file: u16, list: &Attributes) -> Result<(), NameFault>
    ensures { IsRight names.now result (walked file names.now (attribute_steps (seen.seen_attributes list.now))) }
{
    for one in &list.list {
        attribute(names, file, &one.kind)?;
    }
    Ok(())
}

/// A list of attributes, where there is one.
pub(crate) fn optional_attributes(
    names: &NameTables,
    file: u16,
    list: &Option<Attributes>,
) -> Result<(), NameFault>
    ensures { IsRight names.now result (walked file names.now (optional_attribute_steps (option_map seen.seen_attributes list.now))) }
{
    match list {
        Some(list) => attributes(names, file, list),
        None => Ok(()),
    }
}

/// What is between the brackets of a dimension.
fn bound(names: &NameTables, file: u16, bound: &Option<Bound>) -> Result<(), NameFault>
    ensures { IsRight names.now result (walked file names.now (bound_steps (option_map seen.seen_bound bound.now))) }
{
    match bound {
        None | Some(Bound::Star) => Ok(()),
        Some(Bound::Count(count)) => names.check_value(file, count),
        Some(Bound::From(least)) => names.check_value(file, least),
        Some(Bound::Between(least, greatest)) => {
            names.check_value(file, least)?;
            names.check_value(file, greatest)
        }
    }
}

/// The dimensions of a declarator.
pub(crate) fn dimensions(
    names: &NameTables,
    file: u16,
    declarator: &Declarator,
) -> Result<(), NameFault>
    ensures { IsRight names.now result (walked file names.now (dimension_steps (seen.seen_declarator declarator.now))) }
{
    for one in &declarator.dimensions {
        bound(names, file, one)?;
    }
    Ok(())
}

/// A label of a case.
fn label(names: &NameTables, file: u16, label: &Label) -> Result<(), NameFault>
    ensures { IsRight names.now result (walked file names.now (label_steps (seen.seen_label label.now))) }
{
    match label {
        Label::Value { value, .. } => names.check_value(file, value),
        Label::Default { .. } => Ok(()),
    }
}

/// Labels of a case.
pub(crate) fn labels(names: &NameTables, file: u16, list: &Vec<Label>) -> Result<(), NameFault>
    ensures { IsRight names.now result (walked file names.now (flat_map label_steps (map seen.seen_label list.now.items))) }
{
    for one in list {
        label(names, file, one)?;
    }
    Ok(())
}

/// A member or parameter after those of its list, and its dimensions.
pub(crate) fn listed_declarator(
    names: &NameTables,
    file: u16,
    list: &mut Table<u32>,
    declarator: &Declarator,
) -> Result<(), NameFault>
    ensures told { IsRight names.now result (walked file names.now (listed_steps (listed list.old) (seen.seen_declarator declarator.now))) }
    ensures more { OnOk result (listed list.new ≡ listed list.old ++ declarator.now.name ∷ []) }
{
    enlist(file, list, &declarator.name)?;
    dimensions(names, file, declarator)
}
