// interface t { typedef struct node { long value; [unique] struct node *next; } node; void take([in, unique] node *head);
// typedef [ptr] long *leaf; void point([in] unsigned long n, [in, size_is(n)] leaf a[*]); }
ghost use Rattle.std.specs.Prelude.{◌≡◌, ◌≤◌, ◌∷◌, [], length, IfOk};
ghost use Rattle.bench_graph.specs.List.{member, node, list_types, take, point, list_operations};

use nd_base::{Memory, Name};
use nd_types::{
    Attr, AttrVar, AttrVars, Class, Field, Fields, Interface, Operation, Operations, Param, Params,
    TypeDef, TypeId, Types, Way,
};
use std::alloc::Global;

// The interface of the list that is measured.
#[tactic(auto, using(crate::proofs::ListNodes::legal))]
pub(crate) fn list_interface(alloc: Global) -> Result<Interface, Memory>
    ensures types { IfOk result (λ i. i.types ≡ list_types) }
    ensures operations { IfOk result (λ i. i.operations ≡ list_operations) }
{
    let types = types(alloc)?;
    let operations = operations(alloc)?;
    let layouts = types.layouts(alloc)?;
    Ok(Interface {
        name: Name::copy(alloc, b"t")?,
        uuid: None,
        major: 0,
        minor: 0,
        types,
        layouts,
        operations,
    })
}

fn field(alloc: Global, name: &[u8], of: u32) -> Result<Field, Memory>
    requires some { 1 ≤ length name.now }
    requires few { length name.now ≤ 31 }
    ensures { IfOk result (λ f. f ≡ member name.now of) }
{
    Ok(Field {
        name: Name::copy(alloc, name)?,
        of: TypeId(of),
        vars: AttrVars::new(alloc),
    })
}

fn node_type(alloc: Global) -> Result<TypeDef, Memory>
    ensures { IfOk result (λ d. d ≡ node) }
{
    let value = field(alloc, b"value", 7)?;
    let next = field(alloc, b"next", 13)?;
    let mut members = Fields::new(alloc);
    if members.push(value).is_err() || members.push(next).is_err() {
        return Err(Memory);
    }
    Ok(TypeDef::Struct { members })
}

fn types(alloc: Global) -> Result<Types, Memory>
    ensures { IfOk result (λ ts. ts ≡ list_types) }
{
    let node = node_type(alloc)?;
    let pointer = TypeDef::Pointer {
        class: Class::Unique,
        to: TypeId(12),
    };
    let leaf = TypeDef::Pointer {
        class: Class::Full,
        to: TypeId(7),
    };
    let leaves = TypeDef::Array {
        elem: TypeId(14),
        bound: None,
        varying: false,
    };
    let mut types = Types::basic(alloc)?;
    if types.push(node).is_err()
        || types.push(pointer).is_err()
        || types.push(leaf).is_err()
        || types.push(leaves).is_err()
    {
        return Err(Memory);
    }
    Ok(types)
}

// void take([in, unique] node *head);
fn take_operation(alloc: Global) -> Result<Operation, Memory>
    ensures { IfOk result (λ o. o ≡ take) }
{
    let head = Param {
        field: field(alloc, b"head", 13)?,
        way: Way::In,
    };
    let mut params = Params::new(alloc);
    let Ok(()) = params.push(head) else {
        return Err(Memory);
    };
    Ok(Operation {
        name: Name::copy(alloc, b"take")?,
        params,
        result: None,
    })
}

// void point([in] unsigned long n, [in, size_is(n)] leaf a[*]);
fn point_operation(alloc: Global) -> Result<Operation, Memory>
    ensures { IfOk result (λ o. o ≡ point) }
{
    let size = AttrVar {
        attr: Attr::Size,
        var: 0,
        star: false,
    };
    let mut vars = AttrVars::new(alloc);
    let Ok(()) = vars.push(size) else {
        return Err(Memory);
    };
    let n = Param {
        field: field(alloc, b"n", 8)?,
        way: Way::In,
    };
    let a = Param {
        field: Field {
            name: Name::copy(alloc, b"a")?,
            of: TypeId(15),
            vars,
        },
        way: Way::In,
    };
    let mut params = Params::new(alloc);
    if params.push(n).is_err() || params.push(a).is_err() {
        return Err(Memory);
    }
    Ok(Operation {
        name: Name::copy(alloc, b"point")?,
        params,
        result: None,
    })
}

fn operations(alloc: Global) -> Result<Operations, Memory>
    ensures { IfOk result (λ os. os ≡ list_operations) }
{
    let take = take_operation(alloc)?;
    let point = point_operation(alloc)?;
    let mut operations = Operations::new(alloc);
    if operations.push(take).is_err() || operations.push(point).is_err() {
        return Err(Memory);
    }
    Ok(operations)
}
