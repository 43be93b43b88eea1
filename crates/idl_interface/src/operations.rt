// The operations of an interface.
ghost use Rattle.std.specs.Prelude.{◌≡◌, ◌<◌, ◌^◌, true, length, map, option_map, slice_get, IfOk};
ghost use Rattle.std.specs.List.{list_all};
ghost use Rattle.nd_types.specs.Legal.{has_names};
ghost use Rattle.idl_rule_definitions.specs.Meaning.{operations_of, result_number};
ghost use Rattle.idl_declared_types.specs.Kinds.{type_at};
ghost use Rattle.idl_constructs.specs.SeenNodes as seen;
ghost use Rattle.idl_constructs.specs.SeenNodes.{seen_declared};
ghost use Rattle.idl_declared_types.specs.SeenOperations.{IsOperation, is_operation_node};
ghost use Rattle.idl_declared_types.specs.SeenOperations as operations_seen;
ghost use Rattle.idl_interface.specs.Made.{ids_of, each_with, parameter_with, parameters_at, has_few_parameters, IsProgram, scene_in, operation_made};

use crate::definitions::{Program, node_at, number_of};
use crate::members::{name_of, numbered, parameters};
use idl_constructs::nodes::{Declared, Node, Returned};
use idl_declared_types::kinds::Kind;
use idl_declared_types::types::OperationTypes;
use nd_base::Memory;
use nd_types::{Operation, Operations, TypeId};
use std::alloc::Global;

/// The number of the type of a result, where it is not void.
fn result_number(program: &Program<'_, '_>, of: usize) -> Option<TypeId>
    requires { IsProgram program.now }
    ensures { result ≡ result_number (scene_in program.now) (type_at program.now.types.now.kinds of) }
{
    match program.types.kinds.kind(of) {
        Kind::Void => None,
        _ => Some(number_of(program, of)),
    }
}

/// A list, or the empty one.
fn or_empty<'s, 't>(list: Option<&'s [Declared<'t>]>) -> &'s [Declared<'t>]
    ensures { map seen_declared result.now ≡ seen.or_empty (option_map (λ l. map seen_declared l.now) list.entry) }
{
    match list {
        Some(list) => list,
        None => &[],
    }
}

/// An operation. Takes memory for it.
fn operation_of(
    alloc: Global,
    program: &Program<'_, '_>,
    it: &Returned<'_>,
    list: &[Declared<'_>],
    noted: &OperationTypes,
) -> Result<Operation, Memory>
    requires program { IsProgram program.now }
    requires few { length list.now < 2 ^ 32 }
    ensures made { IfOk result (λ o. o ≡ record {
      name = it.now.name.now.octets;
      params = each_with (parameter_with (map seen_declared list.now)) (map seen_declared list.now)
          (ids_of program.now.types.now.kinds program.now.numbers.now noted.now.parameters.items);
      result = result_number (scene_in program.now) (type_at program.now.types.now.kinds noted.now.result);
    }) }
    ensures named { IfOk result (λ o. has_names o ≡ true) }
{
    let name = name_of(alloc, it.name)?;
    let ids = numbered(alloc, program, noted.parameters.as_slice())?;
    let params = parameters(alloc, list, ids.as_slice())?;
    Ok(Operation {
        name,
        params,
        result: result_number(program, noted.result),
    })
}

/// The operation of a node.
fn operation(
    alloc: Global,
    program: &Program<'_, '_>,
    noted: &OperationTypes,
) -> Result<Operation, Memory>
    requires program { IsProgram program.now }
    requires noted { is_operation_node (slice_get program.now.nodes.now.items.items noted.now.node) ≡ true }
    requires few { length (parameters_at program.now.nodes.now.lists.items (slice_get program.now.nodes.now.items.items noted.now.node)) < 2 ^ 32 }
    ensures made { (o : operations_seen.Called) → IsOperation (scene_in program.now) program.now.nodes.now program.now.types.now.kinds o noted.now
        → IfOk result (λ made. made ≡ operation_made (scene_in program.now) o) }
    ensures named { IfOk result (λ o. has_names o ≡ true) }
{
    let Some(node) = node_at(program.nodes, noted.node) else {
        unreachable!();
    };
    let Node::Operation { it, parameters } = node else {
        unreachable!();
    };
    let list = or_empty(program.nodes.list(*parameters));
    operation_of(alloc, program, it, list, noted)
}

/// The operations of the main file, in their order. Takes memory for them.
pub(crate) fn all_operations(alloc: Global, program: &Program<'_, '_>) -> Result<Operations, Memory>
    requires program { IsProgram program.now }
    requires few { list_all has_few_parameters (operations_of (scene_in program.now)) ≡ true }
    ensures made { IfOk result (λ o. o ≡ operations_of (scene_in program.now)) }
    ensures named { IfOk result (λ v. list_all has_names v ≡ true) }
{
    let mut operations = Operations::new(alloc);
    for noted in &program.types.operations {
        let operation = operation(alloc, program, noted)?;
        match operations.push(operation) {
            Ok(()) => {}
            Err(_) => return Err(Memory),
        }
    }
    Ok(operations)
}
