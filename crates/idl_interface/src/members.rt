// Members and parameters as an interface has them.
ghost use Rattle.std.specs.Prelude.{◌≡◌, ◌<◌, ◌^◌, ◌++◌, ◌∷◌, [], length, map, option_map, IfOk, OnOk, true};
ghost use Rattle.std.specs.List.{list_all};
ghost use Rattle.nd_base.specs.Text.{is_identifier};
ghost use Rattle.idl_grammar.specs.Seen.{seen_kind, seen_attribute};
ghost use Rattle.idl_scope.specs.Known.{found};
ghost use Rattle.idl_rule_definitions.specs.Attributes as attributes_of;
ghost use Rattle.idl_rule_definitions.specs.Attributes.{variable_word, in_word, out_word};
ghost use Rattle.idl_rule_definitions.specs.VariableRules.{variable_if};
ghost use Rattle.idl_rule_definitions.specs.Meaning.{way_by};
ghost use Rattle.idl_constructs.specs.SeenNodes.{seen_declared};
ghost use Rattle.idl_interface.specs.Made.{ids_of, IsProgram, index_or, listed_if, attr_var_by, vars_by, size_vars_by, range_vars_by, field_vars_by};
ghost use Rattle.idl_interface.specs.Made.{field_by, field_with, parameter_by, parameter_with, each_with};

use crate::definitions::{Program, number_of};
use crate::listed::indexes;
use idl_constructs::nodes::Declared;
use idl_constructs::words::{Word, has};
use idl_grammar::{Attribute, AttributeKind, Identifier, Variable, VariableWord};
use idl_scope::Table;
use nd_base::{Memory, Name};
use nd_types::{Attr, AttrVar, AttrVars, Field, Fields, Param, Params, TypeId, Way};
use std::alloc::Global;

/// A copy of a name, which is an identifier. Takes memory for it.
pub(crate) fn name_of(alloc: Global, name: &Identifier) -> Result<Name, Memory>
    ensures same { IfOk result (λ n. n ≡ name.now.octets) }
    ensures named { is_identifier name.now.octets ≡ true }
{
    name.to_name(alloc)
}

/// The numbers of types. Takes memory for them.
pub(crate) fn numbered(
    alloc: Global,
    program: &Program<'_, '_>,
    types: &[usize],
) -> Result<Vec<TypeId>, Memory>
    requires { IsProgram program.now }
    ensures { IfOk result (λ v. v.items ≡ ids_of program.now.types.now.kinds program.now.numbers.now types.now) }
{
    let mut ids = Vec::new(alloc);
    for of in types {
        match ids.push(number_of(program, *of)) {
            Ok(()) => {}
            Err(_) => return Err(Memory),
        }
    }
    Ok(ids)
}

/// The index of a name. Where no rule is broken the list has each name that an attribute says.
fn index_of(table: &Table<u32>, name: &[u8]) -> u32
    ensures { result ≡ index_or (found name.now table.now) }
{
    match table.get(name) {
        Some(index) => index,
        None => 0,
    }
}

/// An attribute with its variable.
fn variable(table: &Table<u32>, attr: Attr, variable: &Variable) -> AttrVar
    ensures { result ≡ attr_var_by table.now attr variable.now }
{
    AttrVar {
        attr,
        var: index_of(table, variable.name.as_slice()),
        star: variable.star,
    }
}

/// The variable of an attribute, where it has this word.
fn variable_said(kind: &AttributeKind, word: VariableWord) -> Option<&Variable>
    ensures { listed_if (option_map (λ v. v.now) result) ≡ variable_if (variable_word word ∷ []) (attributes_of.variable_said (seen_kind kind.now)) }
{
    match kind {
        AttributeKind::Of(said, variable) => { if *said == word { Some(variable) } else { None } }
        _ => None,
    }
}

/// Adds the variable of an attribute, where it has this word.
fn add_variable(
    variables: &mut AttrVars,
    table: &Table<u32>,
    kind: &AttributeKind,
    word: VariableWord,
    attr: Attr,
) -> Result<(), Memory>
    ensures { OnOk result (variables.new ≡ variables.old
        ++ map (attr_var_by table.now attr) (variable_if (variable_word word ∷ []) (attributes_of.variable_said (seen_kind kind.now)))) }
{
    let Some(said) = variable_said(kind, word) else {
        return Ok(());
    };
    match variables.push(variable(table, attr, said)) {
        Ok(()) => Ok(()),
        Err(_) => Err(Memory),
    }
}

/// Adds the variables of the attributes of a word.
fn add_variables(
    variables: &mut AttrVars,
    table: &Table<u32>,
    attributes: &[Attribute],
    word: VariableWord,
    attr: Attr,
) -> Result<(), Memory>
    ensures { OnOk result (variables.new ≡ variables.old ++ vars_by table.now (map seen_attribute attributes.now) (variable_word word) attr) }
{
    for attribute in attributes {
        add_variable(variables, table, &attribute.kind, word, attr)?;
    }
    Ok(())
}

/// Adds the variables that say how many elements there may be.
fn add_sizes(
    variables: &mut AttrVars,
    table: &Table<u32>,
    attributes: &[Attribute],
) -> Result<(), Memory>
    ensures { OnOk result (variables.new ≡ variables.old ++ size_vars_by table.now (map seen_attribute attributes.now)) }
{
    add_variables(
        variables,
        table,
        attributes,
        VariableWord::SizeIs,
        Attr::Size,
    )?;
    add_variables(variables, table, attributes, VariableWord::MaxIs, Attr::Max)
}

/// Adds the variables that say which of the elements are sent.
fn add_range(
    variables: &mut AttrVars,
    table: &Table<u32>,
    attributes: &[Attribute],
) -> Result<(), Memory>
    ensures { OnOk result (variables.new ≡ variables.old ++ range_vars_by table.now (map seen_attribute attributes.now)) }
{
    add_variables(
        variables,
        table,
        attributes,
        VariableWord::FirstIs,
        Attr::First,
    )?;
    add_variables(
        variables,
        table,
        attributes,
        VariableWord::LengthIs,
        Attr::Length,
    )?;
    add_variables(
        variables,
        table,
        attributes,
        VariableWord::LastIs,
        Attr::Last,
    )
}

/// The variables of attributes, in the order in which they are checked. Takes memory for them.
fn all_variables(
    alloc: Global,
    table: &Table<u32>,
    attributes: &[Attribute],
) -> Result<AttrVars, Memory>
    ensures { IfOk result (λ v. v ≡ field_vars_by table.now (map seen_attribute attributes.now)) }
{
    let mut variables = AttrVars::new(alloc);
    add_sizes(&mut variables, table, attributes)?;
    add_range(&mut variables, table, attributes)?;
    add_variables(
        &mut variables,
        table,
        attributes,
        VariableWord::SwitchIs,
        Attr::Switch,
    )?;
    Ok(variables)
}

/// A member or parameter of a list, with its type. Takes memory for its name and variables.
fn field(alloc: Global, table: &Table<u32>, it: &Declared<'_>, of: TypeId) -> Result<Field, Memory>
    ensures made { IfOk result (λ f. f ≡ field_by table.now (seen_declared it.now) of) }
    ensures named { IfOk result (λ f. is_identifier f.name ≡ true) }
{
    let name = name_of(alloc, &it.declarator.name)?;
    let vars = all_variables(alloc, table, it.construct.attributes)?;
    Ok(Field { name, of, vars })
}

/// The members of a list with these types, by the list's table. Takes memory for them.
fn fields_by(
    alloc: Global,
    table: &Table<u32>,
    list: &[Declared<'_>],
    types: &[TypeId],
) -> Result<Fields, Memory>
    ensures made { IfOk result (λ v. v ≡ each_with (field_by table.now) (map seen_declared list.now) types.now) }
    ensures named { IfOk result (λ v. list_all (λ f. is_identifier f.name) v ≡ true) }
{
    let mut fields = Fields::new(alloc);
    for index in 0..list.len() {
        let Some(of) = types.get(index) else {
            return Ok(fields);
        };
        let field = field(alloc, table, &list[index], *of)?;
        match fields.push(field) {
            Ok(()) => {}
            Err(_) => return Err(Memory),
        }
    }
    Ok(fields)
}

/// The members of a list with these types, of which there are as many. Takes memory for them.
pub(crate) fn fields(
    alloc: Global,
    list: &[Declared<'_>],
    types: &[TypeId],
) -> Result<Fields, Memory>
    requires { length list.now < 2 ^ 32 }
    ensures made { IfOk result (λ v. v ≡ each_with (field_with (map seen_declared list.now)) (map seen_declared list.now) types.now) }
    ensures named { IfOk result (λ v. list_all (λ f. is_identifier f.name) v ≡ true) }
{
    let table = indexes(alloc, list)?;
    let fields = fields_by(alloc, &table, list, types)?;
    Ok(fields)
}

/// The directions of a parameter.
fn way(attributes: &[Attribute]) -> Way
    ensures { result
        ≡ way_by (attributes_of.has in_word (map seen_attribute attributes.now)) (attributes_of.has out_word (map seen_attribute attributes.now)) }
{
    match (has(attributes, Word::In), has(attributes, Word::Out)) {
        (true, true) => Way::InOut,
        (true, false) => Way::In,
        (false, _) => Way::Out,
    }
}

/// A parameter of a list, with its type. Takes memory for its name and variables.
fn parameter(
    alloc: Global,
    table: &Table<u32>,
    it: &Declared<'_>,
    of: TypeId,
) -> Result<Param, Memory>
    ensures made { IfOk result (λ p. p ≡ parameter_by table.now (seen_declared it.now) of) }
    ensures named { IfOk result (λ p. is_identifier p.field.name ≡ true) }
{
    let field = field(alloc, table, it, of)?;
    Ok(Param {
        field,
        way: way(it.construct.attributes),
    })
}

/// The parameters of a list with these types, by the list's table. Takes memory for them.
fn parameters_by(
    alloc: Global,
    table: &Table<u32>,
    list: &[Declared<'_>],
    types: &[TypeId],
) -> Result<Params, Memory>
    ensures made { IfOk result (λ v. v ≡ each_with (parameter_by table.now) (map seen_declared list.now) types.now) }
    ensures named { IfOk result (λ v. list_all (λ p. is_identifier p.field.name) v ≡ true) }
{
    let mut parameters = Params::new(alloc);
    for index in 0..list.len() {
        let Some(of) = types.get(index) else {
            return Ok(parameters);
        };
        let parameter = parameter(alloc, table, &list[index], *of)?;
        match parameters.push(parameter) {
            Ok(()) => {}
            Err(_) => return Err(Memory),
        }
    }
    Ok(parameters)
}

/// The parameters of a list with these types, of which there are as many. Takes memory for them.
pub(crate) fn parameters(
    alloc: Global,
    list: &[Declared<'_>],
    types: &[TypeId],
) -> Result<Params, Memory>
    requires { length list.now < 2 ^ 32 }
    ensures made { IfOk result (λ v. v ≡ each_with (parameter_with (map seen_declared list.now)) (map seen_declared list.now) types.now) }
    ensures named { IfOk result (λ v. list_all (λ p. is_identifier p.field.name) v ≡ true) }
{
    let table = indexes(alloc, list)?;
    let parameters = parameters_by(alloc, &table, list, types)?;
    Ok(parameters)
}
