// [local] interface sample { typedef struct node { long v; [ptr] struct node *left; [ptr] struct node *right; } node;
// void take([in, ptr] node *root); }
ghost use Rattle.std.specs.Prelude.{◌≡◌, ◌≤◌, ◌∷◌, [], length, IfOk};
ghost use Rattle.command_sample.specs.Interface.{member, node, sample_types, take};

use nd_base::{Memory, Name};
use nd_types::{
    AttrVars, Class, Field, Fields, Interface, Operation, Operations, Param, Params, TypeDef,
    TypeId, Types, Way,
};
use std::alloc::Global;

/// The interface of the sample. Takes memory for it; out of memory is the only refusal.
#[tactic(auto, using(crate::proofs::Legal::legal))]
pub fn interface(alloc: Global) -> Result<Interface, Memory>
    ensures types { IfOk result (λ i. i.types ≡ sample_types) }
    ensures operations { IfOk result (λ i. i.operations ≡ take ∷ []) }
{
    let types = types(alloc)?;
    let operations = operations(alloc)?;
    let layouts = types.layouts(alloc)?;
    Ok(Interface {
        name: Name::copy(alloc, b"sample")?,
        uuid: None,
        major: 0,
        minor: 0,
        types,
        layouts,
        operations,
    })
}

// A member, or what a parameter has in common with one.
fn field(alloc: Global, name: &[u8], of: u32) -> Result<Field, Memory>
    requires some { 1 ≤ length name.now }
    requires few { length name.now ≤ 31 }
    ensures { IfOk result (λ f. f ≡ member name.now of) }
{
    Ok(Field {
        name: Name::copy(alloc, name)?,
        of: TypeId(of),
        vars: AttrVars::new(alloc),
    })
}

// struct node { long v; [ptr] struct node *left; [ptr] struct node *right; }
fn node_type(alloc: Global) -> Result<TypeDef, Memory>
    ensures { IfOk result (λ d. d ≡ node) }
{
    let value = field(alloc, b"v", 7)?;
    let left = field(alloc, b"left", 13)?;
    let right = field(alloc, b"right", 13)?;
    let mut members = Fields::new(alloc);
    if members.push(value).is_err() || members.push(left).is_err() || members.push(right).is_err() {
        return Err(Memory);
    }
    Ok(TypeDef::Struct { members })
}

// The primitives, the node and the pointer to it.
fn types(alloc: Global) -> Result<Types, Memory>
    ensures { IfOk result (λ ts. ts ≡ sample_types) }
{
    let node = node_type(alloc)?;
    let pointer = TypeDef::Pointer {
        class: Class::Full,
        to: TypeId(12),
    };
    let mut types = Types::basic(alloc)?;
    if types.push(node).is_err() || types.push(pointer).is_err() {
        return Err(Memory);
    }
    Ok(types)
}

// void take([in, ptr] node *root);
fn operations(alloc: Global) -> Result<Operations, Memory>
    ensures { IfOk result (λ os. os ≡ take ∷ []) }
{
    let root = Param {
        field: field(alloc, b"root", 13)?,
        way: Way::In,
    };
    let mut params = Params::new(alloc);
    let Ok(()) = params.push(root) else {
        return Err(Memory);
    };
    let operation = Operation {
        name: Name::copy(alloc, b"take")?,
        params,
        result: None,
    };
    let mut operations = Operations::new(alloc);
    let Ok(()) = operations.push(operation) else {
        return Err(Memory);
    };
    Ok(operations)
}
