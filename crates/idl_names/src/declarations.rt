// Declarations, step by step.
ghost use Rattle.std.specs.Prelude.{◌≡◌, ◌++◌, [], ◌∷◌, map, not, ◌&&◌, OnOk, option_map};
ghost use Rattle.idl_grammar.specs.Seen as seen;
ghost use Rattle.idl_scope.specs.Known.{walked};
ghost use Rattle.idl_scope.specs.Kept.{listed, IsRight};
ghost use Rattle.idl_scope.specs.Steps.{is_pointer, typedef_steps, init_step, one_parameter_steps, parameter_steps, parameters_of, operation_steps};
ghost use Rattle.idl_scope.specs.Steps.{export_steps};
ghost use Rattle.std.specs.List.{flat_map, list_all};

use crate::types::{are_pointers, is_pointer, type_spec};
use crate::walk::{dimensions, listed_declarator, optional_attributes};
use idl_grammar::{
    Attributes, Declarator, Export, Identifier, Init, Parameter, Parameters, TypeSpec,
};
use idl_scope::{Meaning, NameFault, NameTables, Table};
use std::alloc::Global;

/// A name for a type.
fn typedef(names: &mut NameTables, file: u16, declarator: &Declarator) -> Result<(), NameFault>
    ensures { IsRight names.new result (walked file names.old (typedef_steps (seen.seen_declarator declarator.now))) }
{
    names.declare(file, &declarator.name)?;
    dimensions(names, file, declarator)?;
    names.know(file, &declarator.name, Meaning::Type)
}

/// Names for a type.
fn typedefs(
    names: &mut NameTables,
    file: u16,
    declarators: &Vec<Declarator>,
) -> Result<(), NameFault>
    ensures { IsRight names.new result (walked file names.old (flat_map typedef_steps (map seen.seen_declarator declarators.now.items))) }
{
    for declarator in declarators {
        typedef(names, file, declarator)?;
    }
    Ok(())
}

/// The value of a constant.
fn init(names: &mut NameTables, file: u16, name: &Identifier, value: &Init) -> Result<(), NameFault>
    ensures { IsRight names.new result (walked file names.old (init_step name.now (seen.seen_init value.now) ∷ [])) }
{
    match value {
        Init::Text(_) | Init::Null(_) => names.know(file, name, Meaning::Other),
        Init::Value(value) => names.know_value(file, name, value),
    }
}

/// A parameter after those of its list.
fn parameter(
    alloc: Global,
    names: &mut NameTables,
    file: u16,
    list: &mut Table<u32>,
    parameter: &Parameter,
) -> Result<(), NameFault>
    ensures right { IsRight names.new result (walked file names.old (one_parameter_steps (listed list.old) (seen.seen_parameter parameter.now))) }
    ensures more { OnOk result (listed list.new ≡ listed list.old ++ parameter.now.declarator.name ∷ []) }
{
    optional_attributes(names, file, &parameter.attributes)?;
    let behind_pointers = is_pointer(&parameter.declarator);
    type_spec(alloc, names, file, &parameter.of, behind_pointers)?;
    listed_declarator(names, file, list, &parameter.declarator)
}

/// Parameters in order.
fn parameter_list(
    alloc: Global,
    names: &mut NameTables,
    file: u16,
    list: &Vec<Parameter>,
) -> Result<(), NameFault>
    ensures { IsRight names.new result (walked file names.old (parameter_steps [] (map seen.seen_parameter list.now.items))) }
{
    let mut before = Table::new(alloc);
    for one in list {
        parameter(alloc, names, file, &mut before, one)?;
    }
    Ok(())
}

/// The parameters of an operation.
fn parameters(
    alloc: Global,
    names: &mut NameTables,
    file: u16,
    parameters: &Parameters,
) -> Result<(), NameFault>
    ensures { IsRight names.new result (walked file names.old (parameter_steps [] (parameters_of (seen.seen_parameters parameters.now)))) }
{
    match parameters {
        Parameters::Absent | Parameters::Void => Ok(()),
        Parameters::List(list) => parameter_list(alloc, names, file, list),
    }
}

/// An operation.
fn operation(
    alloc: Global,
    names: &mut NameTables,
    file: u16,
    list: &Option<Attributes>,
    of: &TypeSpec,
    name: &Identifier,
    taken: &Parameters,
) -> Result<(), NameFault>
    ensures { IsRight names.new result
        (walked file names.old
        (operation_steps (option_map seen.seen_attributes list.now) (seen.seen_type of.now) name.now (seen.seen_parameters taken.now))) }
{
    optional_attributes(names, file, list)?;
    type_spec(alloc, names, file, of, false)?;
    names.declare(file, name)?;
    parameters(alloc, names, file, taken)?;
    names.know(file, name, Meaning::Other)
}

/// Whether each name of a typedef is a pointer to its type.
fn is_behind_pointers(pipe: bool, declarators: &[Declarator]) -> bool
    ensures { result ≡ (not pipe && list_all is_pointer (map seen.seen_declarator declarators.now)) }
{
    !pipe && are_pointers(declarators)
}

/// A declaration.
fn export(
    alloc: Global,
    names: &mut NameTables,
    file: u16,
    is_main: bool,
    export: &Export,
) -> Result<(), NameFault>
    ensures { IsRight names.new result (walked file names.old (export_steps is_main (seen.seen_export export.now))) }
{
    match export {
        Export::Typedef {
            attributes,
            pipe,
            of,
            declarators,
            ..
        } => {
            optional_attributes(names, file, attributes)?;
            let behind_pointers = is_behind_pointers(*pipe, declarators.as_slice());
            type_spec(alloc, names, file, of, behind_pointers)?;
            typedefs(names, file, declarators)
        }
        Export::Const { name, value, .. } => {
            names.declare(file, name)?;
            init(names, file, name, value)
        }
        Export::Tagged { attributes, of, .. } => {
            optional_attributes(names, file, attributes)?;
            type_spec(alloc, names, file, of, false)
        }
        Export::Operation {
            attributes,
            result,
            name,
            parameters,
            ..
        } => {
            if !is_main {
                return Ok(());
            }
            operation(alloc, names, file, attributes, result, name, parameters)
        }
    }
}

/// The declarations of a file.
pub(crate) fn exports(
    alloc: Global,
    names: &mut NameTables,
    file: u16,
    is_main: bool,
    list: &Vec<Export>,
) -> Result<(), NameFault>
    ensures { IsRight names.new result (walked file names.old (flat_map (export_steps is_main) (map seen.seen_export list.now.items))) }
{
    for one in list {
        export(alloc, names, file, is_main, one)?;
    }
    Ok(())
}
