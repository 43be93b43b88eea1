// Simple types: those of values of one node, and structs of members of one node that have no attributes. The later passes need not go
// through simple values: no attribute governs a node of one except the first, and where types of pointers are not simple no node of
// one is a pointer.
ghost use Rattle.std.specs.Prelude.{◌≡◌, ◌+◌, ◌*◌, ◌<◌, ◌^◌, Some};
ghost use Rattle.std.specs.List.{list_all};
ghost use Rattle.nd_types.specs.Table.{type_at};
ghost use Rattle.nd_misfits.specs.Simple.{is_single, is_simple_member, simple_struct, simple_nodes};

use nd_types::{Field, Fields, TypeDef, TypeId, Types};

// How many nodes are below the own one of a value of a type, if the type is simple. `pointers` says whether types of pointers are.
pub(crate) fn simple_nodes(types: &Types, of: TypeId, pointers: bool) -> Option<usize>
    ensures { result ≡ simple_nodes pointers types.now (type_at types.now of.0) }
{
    match types.get(of.0 as usize) {
        Some(def) => nodes_below(types, def, pointers),
        None => None,
    }
}

// The number after the nodes of so many values, which are numbered from `node` on and of which each has so many nodes below its own.
pub(crate) fn after_values(count: usize, inside: usize, node: u32) -> u32
    requires { node + (count + count * inside) < 2 ^ 32 }
    ensures { result ≡ node + (count + count * inside) }
{
    node + (count + count * inside) as u32
}

// How many nodes are below the own one of a value of this type, if it is simple.
fn nodes_below(types: &Types, def: &TypeDef, pointers: bool) -> Option<usize>
    ensures { result ≡ simple_nodes pointers types.now (Some def.now) }
{
    match def {
        TypeDef::Prim(_) | TypeDef::Enum { .. } | TypeDef::Text { .. } | TypeDef::Context => Some(
            0,
        ),
        TypeDef::Pointer { .. } => {
            if pointers {
                return Some(0);
            }
            None
        }
        TypeDef::Struct { members } => members_below(types, members, pointers),
        TypeDef::Array { .. } | TypeDef::Union { .. } | TypeDef::Pipe { .. } => None,
    }
}

// The same of a struct of these members.
fn members_below(types: &Types, members: &Fields, pointers: bool) -> Option<usize>
    ensures { result ≡ simple_struct pointers types.now members.now }
{
    if are_simple(types, members, pointers) {
        return Some(members.len());
    }
    None
}

// Whether each of these members is of one node and has no attributes.
fn are_simple(types: &Types, members: &Fields, pointers: bool) -> bool
    ensures { result ≡ list_all (is_simple_member pointers types.now) members.now }
{
    for at in 0..members.len() {
        let Some(member) = members.get(at) else {
            unreachable!()
        };
        if !is_simple_member(types, member, pointers) {
            return false;
        }
    }
    true
}

// The same of one member.
fn is_simple_member(types: &Types, member: &Field, pointers: bool) -> bool
    ensures { result ≡ is_simple_member pointers types.now member.now }
{
    member.vars.len() == 0 && is_single(types, member.of, pointers)
}

// Whether the values of a type are of one node.
fn is_single(types: &Types, of: TypeId, pointers: bool) -> bool
    ensures { result ≡ is_single pointers (type_at types.now of.0) }
{
    match types.get(of.0 as usize) {
        Some(def) => has_one_node(def, pointers),
        None => false,
    }
}

// The same of a type that is there.
fn has_one_node(def: &TypeDef, pointers: bool) -> bool
    ensures { result ≡ is_single pointers (Some def.now) }
{
    match def {
        TypeDef::Prim(_) | TypeDef::Enum { .. } | TypeDef::Text { .. } | TypeDef::Context => true,
        TypeDef::Pointer { .. } => pointers,
        TypeDef::Struct { .. }
        | TypeDef::Array { .. }
        | TypeDef::Union { .. }
        | TypeDef::Pipe { .. } => false,
    }
}
