// The roots of a side of an operation by their places.
ghost use Rattle.std.specs.Prelude.{◌≡◌, ◌<◌, length, Some, None, IfSome, IfNone};
ghost use Rattle.std.specs.List.{slice_get};
ghost use Rattle.nd_types.specs.Roots.{named_roots, root_value};
ghost use Rattle.nd_types.specs.declared.types.Operation.{Operation as OperationValue};
ghost use Rattle.library_types.specs.Rooted.{root_described, way_of, way_number};

use crate::description::bit;
use nd_types::{Interface, Operation, RootDef, Side, Way};

/// The root of a side of an operation at a place, from 0. `op` must be the number of an operation. Takes no memory, and time in proportion to the
/// parameters.
pub fn root_at(interface: &Interface, op: u32, side: Side, at: usize) -> Option<RootDef<'_>>
    requires { op < length interface.now.operations }
    ensures some { IfSome result (λ r. (o : OperationValue) → slice_get interface.now.operations op ≡ Some o
        → slice_get (named_roots interface.now.types side o) at ≡ Some (root_value r)) }
    ensures none { IfNone result ((o : OperationValue) → slice_get interface.now.operations op ≡ Some o
        → slice_get (named_roots interface.now.types side o) at ≡ None) }
{
    let mut number = 0;
    for root in interface.params(op, side) {
        if number == at {
            return Some(root);
        }
        number += 1;
    }
    None
}

/// How many roots a side of an operation has. `op` must be the number of an operation. Takes no memory, and time in proportion to the parameters.
pub fn root_count(interface: &Interface, op: u32, side: Side) -> usize
    requires { op < length interface.now.operations }
    ensures { (o : OperationValue) → slice_get interface.now.operations op ≡ Some o → result ≡ length (named_roots interface.now.types side o) }
{
    let mut number = 0;
    for _root in interface.params(op, side) {
        number += 1;
    }
    number
}

/// A root, as programs in C see it.
#[repr(C)]
#[derive(Clone, Copy, PartialEq, Drop)]
pub struct RootDescription {
    /// Its type. For a reference pointer to a pipe it is the pipe.
    pub of: u32,
    /// Its direction: 1 for in, 2 for out, 3 for both.
    pub way: u32,
    /// 1 for the result.
    pub is_result: u32,
    /// 1 for a pipe.
    pub is_pipe: u32,
}

/// A root of an operation, as programs in C see it. Takes no memory.
pub fn describe_root(operation: &Operation, root: &RootDef<'_>) -> RootDescription
    ensures { result ≡ root_described operation.now (root_value root.now) }
{
    RootDescription {
        of: root.of.0,
        way: way(operation, root.param),
        is_result: bit(root.param.is_none()),
        is_pipe: bit(root.pipe),
    }
}

// The number of the direction of a parameter by its place; the result is sent with the response.
fn way(operation: &Operation, param: Option<u32>) -> u32
    ensures { result ≡ way_of operation.now param }
{
    match param {
        Some(at) => match operation.params.get(at as usize) {
            Some(found) => number_of_way(found.way),
            None => 0,
        },
        None => 2,
    }
}

// The number of a direction.
fn number_of_way(way: Way) -> u32
    ensures { result ≡ way_number way }
{
    match way {
        Way::In => 1,
        Way::Out => 2,
        Way::InOut => 3,
    }
}
