// The names of an attribute configuration file, which are names of the IDL (C706, section 4.3).
ghost use Rattle.std.specs.Prelude.{◌≡◌, suc, ◌∷◌, List, map, option_map, slice_get, IfOk, OnOk};
ghost use Rattle.std.specs.Str.{bytes_eq};
ghost use Rattle.idl_grammar.specs.Tree as idl;
ghost use Rattle.std.specs.List.{list_any};
ghost use Rattle.idl_grammar.specs.Seen.{seen_parameter, seen_parameters, seen_export};
ghost use Rattle.idl_scope.specs.Seen.{known_in};
ghost use Rattle.idl_scope.specs.Steps.{parameters_of};
ghost use Rattle.idl_check.specs.AcfRules.{is_no_type, handle_is_no_type, has_unknown_handle, is_no_parameter, parameters_found, parameters_in};
ghost use Rattle.idl_check.specs.AcfRules.{operation_name, AreOperations};

use acf_reader::{Attribute, AttributeKind, HandleType};
use idl_grammar::{Export, Identifier, Parameter, Parameters};
use idl_scope::{Meaning, Names, Scope, Table};
use nd_base::Memory;
use std::alloc::Global;

/// Whether a name is none of a type.
fn is_no_type(scope: &Scope, name: &Identifier) -> bool
    ensures { result ≡ is_no_type (known_in scope.now) name.now }
{
    !matches!(scope.meaning(name.as_slice()), Some(Meaning::Type))
}

/// Whether one of these names is none of a type.
pub(crate) fn any_is_no_type(scope: &Scope, names: &[Identifier]) -> bool
    ensures { result ≡ list_any (is_no_type (known_in scope.now)) names.now }
{
    for name in names {
        if is_no_type(scope, name) {
            return true;
        }
    }
    false
}

/// Whether the type of an implicit handle is none of the IDL.
fn handle_is_no_type(scope: &Scope, of: &HandleType) -> bool
    ensures { result ≡ handle_is_no_type (known_in scope.now) of.now }
{
    match of {
        HandleType::Handle => false,
        HandleType::Name(name) => is_no_type(scope, name),
    }
}

/// Whether an attribute is an implicit handle of a type that is none of the IDL.
fn has_unknown_handle(scope: &Scope, kind: &AttributeKind) -> bool
    ensures { result ≡ has_unknown_handle (known_in scope.now) kind.now }
{
    match kind {
        AttributeKind::ImplicitHandle { of, .. } => handle_is_no_type(scope, of),
        _ => false,
    }
}

/// Whether one of these attributes is such a handle.
pub(crate) fn any_unknown_handle(scope: &Scope, attributes: &[Attribute]) -> bool
    ensures { result ≡ list_any (λ a. has_unknown_handle (known_in scope.now) a.kind) attributes.now }
{
    for attribute in attributes {
        if has_unknown_handle(scope, &attribute.kind) {
            return true;
        }
    }
    false
}

/// Whether a parameter has a name.
fn is_named(parameter: &Parameter, name: &Identifier) -> bool
    ensures { result ≡ bytes_eq name.now.octets (seen_parameter parameter.now).declarator.name.octets }
{
    name.as_slice() == parameter.declarator.name.as_slice()
}

/// Whether one of these parameters has a name.
fn is_listed(parameters: &[Parameter], name: &Identifier) -> bool
    ensures { result ≡ list_any (λ q. bytes_eq name.now.octets q.declarator.name.octets) (map seen_parameter parameters.now) }
{
    for parameter in parameters {
        if is_named(parameter, name) {
            return true;
        }
    }
    false
}

/// Whether a name is none of these parameters'.
pub(crate) fn is_no_parameter(parameters: &[Parameter], name: &Identifier) -> bool
    ensures { result ≡ is_no_parameter (map seen_parameter parameters.now) name.now }
{
    !is_listed(parameters, name)
}

/// The parameters that an operation lists.
fn listed(parameters: &Parameters) -> &[Parameter]
    ensures { map seen_parameter result.now ≡ parameters_of (seen_parameters parameters.now) }
{
    match parameters {
        Parameters::List(list) => list.as_slice(),
        Parameters::Absent | Parameters::Void => &[],
    }
}

/// The declaration of a number.
fn export_at(exports: &[Export], at: usize) -> Option<&Export>
    ensures { option_map (λ e. seen_export e.now) result ≡ slice_get (map seen_export exports.now) at }
{
    exports.get(at)
}

/// The parameters of a declaration, if it is an operation.
fn parameters_in(export: Option<&Export>) -> Option<&[Parameter]>
    ensures { option_map (λ ps. map seen_parameter ps.now) result ≡ parameters_in (option_map (λ e. seen_export e.now) export.entry) }
{
    match export {
        Some(Export::Operation { parameters, .. }) => Some(listed(parameters)),
        _ => None,
    }
}

/// The operations of a file by their names.
#[derive(Drop)]
pub struct NamedOperations<'t> {
    exports: &'t [Export],
    numbers: Table<usize>,
    ghost operations: { AreOperations 0 (map seen_export exports.now) numbers },
}

impl<'t> NamedOperations<'t> {
    /// The parameters of the operation of a name, if there is one.
    pub(crate) fn parameters(&self, name: &Identifier) -> Option<&'t [Parameter]>
        ensures { option_map (λ ps. map seen_parameter ps.now) result ≡ parameters_found name.now (map seen_export self.now.exports.now) }
    {
        let number = self.numbers.get(name.as_slice())?;
        parameters_in(export_at(self.exports, number))
    }
}

/// The name of a declaration, if it is an operation.
fn operation_name(export: &Export) -> Option<&Identifier>
    ensures { option_map (λ n. n.now) result ≡ operation_name (seen_export export.now) }
{
    match export {
        Export::Operation { name, .. } => Some(name),
        _ => None,
    }
}

/// Gives the name of a declaration its number, if it is an operation. Takes memory for the name.
fn add_operation(numbers: &mut Table<usize>, export: &Export, number: usize) -> Result<(), Memory>
    ensures { (left : List idl.Export) → AreOperations (suc number) left numbers.old
        → OnOk result (AreOperations number (seen_export export.now ∷ left) numbers.new) }
{
    match operation_name(export) {
        Some(name) => numbers.put(name.as_slice(), number),
        None => Ok(()),
    }
}

/// The operations of a file, of which the first of a name counts. Takes memory for their names.
pub(crate) fn operations_of<'t>(
    alloc: Global,
    exports: &'t [Export],
) -> Result<NamedOperations<'t>, Memory>
    ensures { IfOk result (λ o. o.exports.now ≡ exports.now) }
{
    let mut numbers = Table::new(alloc);
    for at in (0..exports.len()).rev() {
        add_operation(&mut numbers, &exports[at], at)?;
    }
    Ok(NamedOperations { exports, numbers })
}
