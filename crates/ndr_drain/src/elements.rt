// The types of the elements of the pipes of a side.
ghost use Rattle.std.specs.Prelude.{◌≡◌, ◌<◌, Some, Option, length, map, IfOk};
ghost use Rattle.std.specs.List.{slice_get};
ghost use Rattle.nd_types.specs.declared.types.Operation.{Operation};
ghost use Rattle.nd_types.specs.Table.{type_at};
ghost use Rattle.nd_types.specs.Roots.{named_roots};
ghost use Rattle.ndr_drain_laws.specs.parts.Parts.{elem_by};
ghost use Rattle.ndr_drain.specs.Drained.{pipe_elements};

use nd_base::Memory;
use nd_types::{Interface, Side, TypeDef, TypeId, Types};
use std::alloc::Global;

// The types of the elements of the pipes of a side of an operation, in their order.
pub(crate) fn element_types(
    alloc: Global,
    interface: &Interface,
    op: u32,
    side: Side,
) -> Result<Vec<TypeId>, Memory>
    requires known { op < length interface.now.operations }
    ensures { IfOk result (λ types. (o : Operation) → slice_get interface.now.operations op ≡ Some o
        → map (λ t. t.0) types.items ≡ pipe_elements interface.now.types (named_roots interface.now.types side o)) }
{
    let mut types = Vec::new(alloc);
    for root in interface.params(op, side) {
        if !root.pipe {
            continue;
        }
        let Ok(()) = types.push(element_type(&interface.types, root.of)) else {
            return Err(Memory);
        };
    }
    Ok(types)
}

// The type of the elements of a pipe; of what is no pipe the first type.
fn element_type(types: &Types, of: TypeId) -> TypeId
    ensures { result.0 ≡ elem_by (type_at types.now of.0) }
{
    match types.get(of.0 as usize) {
        Some(TypeDef::Pipe { elem }) => *elem,
        _ => TypeId(0),
    }
}
