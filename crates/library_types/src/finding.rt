// Roots and members by name.
ghost use Rattle.std.specs.Prelude.{◌≡◌, ◌<◌, length, Some, None, option_map, IfSome, IfNone};
ghost use Rattle.std.specs.List.{slice_get};
ghost use Rattle.nd_types.specs.Table.{type_at};
ghost use Rattle.nd_types.specs.Roots.{named_roots};
ghost use Rattle.nd_types.specs.declared.types.Operation.{Operation};
ghost use Rattle.library_types.specs.Finding.{IsRootNamed, HasNoRoot, IsMemberNamed, HasNoMember, element_of};

use nd_types::{Fields, Interface, Side, TypeDef, TypeId, Types};

/// A root or a member: its place, from 0, and its type.
#[derive(Clone, Copy, PartialEq, Drop)]
pub struct Named {
    pub at: usize,
    pub of: TypeId,
}

/// The first root of that name of a side of an operation: a parameter may be named `return` next to a result. `op` must be the number of an
/// operation. Takes no memory.
pub fn root_named(interface: &Interface, op: u32, side: Side, name: &[u8]) -> Option<Named>
    requires { op < length interface.now.operations }
    ensures some { IfSome result (λ r. (o : Operation) → slice_get interface.now.operations op ≡ Some o
        → IsRootNamed (named_roots interface.now.types side o) name.now r) }
    ensures none { IfNone result ((o : Operation) → slice_get interface.now.operations op ≡ Some o
        → HasNoRoot (named_roots interface.now.types side o) name.now) }
{
    let mut at = 0;
    for root in interface.params(op, side) {
        if root.name == name {
            return Some(Named { at, of: root.of });
        }
        at += 1;
    }
    None
}

/// The first member of that name of a struct. Takes no memory.
pub fn member_named(members: &Fields, name: &[u8]) -> Option<Named>
    ensures some { IfSome result (IsMemberNamed members.now name.now) }
    ensures none { IfNone result (HasNoMember members.now name.now) }
{
    for at in 0..members.len() {
        let Some(field) = members.get(at) else {
            unreachable!()
        };
        if field.name.as_slice() == name {
            return Some(Named { at, of: field.of });
        }
    }
    None
}

/// The type of the elements of an array or a pipe, or of what a pointer points to. Takes no memory.
pub fn element_type(types: &Types, of: TypeId) -> Option<TypeId>
    ensures { option_map (λ t. t.0) result ≡ element_of (type_at types.now of.0) }
{
    match types.get(of.0 as usize) {
        Some(TypeDef::Array { elem, .. } | TypeDef::Pipe { elem }) => Some(*elem),
        Some(TypeDef::Pointer { to, .. }) => Some(*to),
        _ => None,
    }
}
