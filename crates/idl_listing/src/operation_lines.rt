// The lines of an operation: its name, and the roots of its request and of its response.
ghost use Rattle.std.specs.Prelude.{◌≡◌, ◌++◌, ◌∷◌, [], Some, slice_get, OnOk, codes, decimal};
ghost use Rattle.std.specs.List.{flat_map, enumerate_from};
ghost use Rattle.nd_types.specs.declared.types.Operation.{Operation as OperationValue};
ghost use Rattle.nd_types.specs.Fields.{param_fields};
ghost use Rattle.nd_types.specs.Roots.{root_value};
ghost use Rattle.idl_listing.specs.Listing.{line, behind, attrs_words, side_lines, operation_lines, field_name};
ghost use Rattle.idl_listing.specs.Worded.{vars_at, named_line};

use crate::attribute_words::attribute;
use crate::{number, side_word, word};
use nd_base::{Memory, Octets};
use nd_types::{AttrVars, Interface, Operation, RootDef, Side};

/// The name of a parameter, by its index.
fn param_name(operation: &Operation, index: u32) -> &[u8]
    ensures { result.now ≡ field_name (slice_get (param_fields operation.now) index) }
{
    match operation.params.get(index as usize) {
        Some(param) => param.field.name.as_slice(),
        None => &[],
    }
}

/// The attributes of a parameter.
fn attributes(text: &mut Octets, operation: &Operation, vars: &AttrVars) -> Result<(), Memory>
    ensures { OnOk result (text.new ≡ text.old ++ behind (attrs_words (param_fields operation.now) vars.now)) }
{
    for at in 0..vars.len() {
        let Some(var) = vars.get(at) else {
            unreachable!()
        };
        attribute(text, *var, param_name(operation, var.var))?;
    }
    Ok(())
}

/// The attributes of a root. The result has none.
fn root_attributes(
    text: &mut Octets,
    operation: &Operation,
    param: Option<u32>,
) -> Result<(), Memory>
    ensures { OnOk result (text.new ≡ text.old ++ behind (attrs_words (param_fields operation.now) (vars_at operation.now param))) }
{
    let Some(index) = param else {
        return Ok(());
    };
    match operation.params.get(index as usize) {
        Some(param) => attributes(text, operation, &param.field.vars),
        None => Ok(()),
    }
}

/// The line of a root: its side, its name, its type and its attributes.
fn root_line(
    text: &mut Octets,
    operation: &Operation,
    side: Side,
    root: &RootDef<'_>,
) -> Result<(), Memory>
    ensures { OnOk result (text.new ≡ text.old ++ named_line operation.now side (root_value root.now)) }
{
    text.append(side_word(side))?;
    word(text, root.name)?;
    number(text, root.of.0)?;
    root_attributes(text, operation, root.param)?;
    text.append(b"\n")?;
    Ok(())
}

/// The lines of the roots of a side.
fn side_lines(
    text: &mut Octets,
    interface: &Interface,
    number: u32,
    operation: &Operation,
    side: Side,
) -> Result<(), Memory>
    requires { slice_get interface.now.operations number ≡ Some operation.now }
    ensures { OnOk result (text.new ≡ text.old ++ side_lines interface.now.types operation.now side) }
{
    for root in interface.params(number, side) {
        root_line(text, operation, side, &root)?;
    }
    Ok(())
}

/// The line of an operation's name.
fn name_line(text: &mut Octets, index: u32, operation: &Operation) -> Result<(), Memory>
    ensures { OnOk result (text.new ≡ text.old ++ line (codes "op" ∷ decimal index ∷ operation.now.name ∷ [])) }
{
    text.append(b"op")?;
    number(text, index)?;
    word(text, operation.name.as_slice())?;
    text.append(b"\n")?;
    Ok(())
}

/// The lines of an operation.
fn operation_lines(
    text: &mut Octets,
    interface: &Interface,
    index: u32,
    operation: &Operation,
) -> Result<(), Memory>
    requires { slice_get interface.now.operations index ≡ Some operation.now }
    ensures { OnOk result (text.new ≡ text.old ++ operation_lines interface.now.types (index, operation.now)) }
{
    name_line(text, index, operation)?;
    side_lines(text, interface, index, operation, Side::In)?;
    side_lines(text, interface, index, operation, Side::Out)?;
    Ok(())
}

/// The lines of all operations of an interface.
pub(crate) fn all_operations(text: &mut Octets, interface: &Interface) -> Result<(), Memory>
    ensures { OnOk result (text.new ≡ text.old ++ flat_map (operation_lines interface.now.types) (enumerate_from 0 interface.now.operations)) }
{
    for at in 0..interface.operations.len() {
        let Some(operation) = interface.operations.get(at) else {
            unreachable!()
        };
        operation_lines(text, interface, at as u32, operation)?;
    }
    Ok(())
}
