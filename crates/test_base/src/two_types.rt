// An interface of two operations.
ghost use Rattle.std.specs.Prelude.{◌≡◌, ◌≤◌, [], ◌∷◌, None, length, IfOk};
ghost use Rattle.nd_types.specs.Kinds.{basic_types};
ghost use Rattle.nd_types.specs.Plain.{plain_param};
ghost use Rattle.test_base.specs.Two as rows;

use nd_base::{Memory, Name};
use nd_types::{
    AttrVars, Field, Interface, Operation, Operations, Param, Params, TypeId, Types, Way,
};
use std::alloc::Global;

fn param(alloc: Global, name: &[u8], of: u32) -> Result<Param, Memory>
    requires some { 1 ≤ length name.now }
    requires few { length name.now ≤ 31 }
    ensures { IfOk result (λ p. p ≡ plain_param name.now of) }
{
    let name = Name::copy(alloc, name)?;
    Ok(Param {
        field: Field {
            name,
            of: TypeId(of),
            vars: AttrVars::new(alloc),
        },
        way: Way::In,
    })
}

fn both(alloc: Global, first: Param, second: Param) -> Result<Params, Memory>
    ensures { IfOk result (λ ps. ps ≡ first ∷ second ∷ []) }
{
    let mut params = Params::new(alloc);
    if params.push(first).is_err() || params.push(second).is_err() {
        return Err(Memory);
    }
    Ok(params)
}

fn operation(alloc: Global, name: &[u8], params: Params) -> Result<Operation, Memory>
    requires some { 1 ≤ length name.now }
    requires few { length name.now ≤ 31 }
    ensures { IfOk result (λ o. o ≡ record { name = name.now; params = params; result = None }) }
{
    let name = Name::copy(alloc, name)?;
    Ok(Operation {
        name,
        params,
        result: None,
    })
}

// void put([in] long n, [in] hyper value);
fn put(alloc: Global) -> Result<Operation, Memory>
    ensures { IfOk result (λ o. o ≡ rows.put) }
{
    let n = param(alloc, b"n", 7)?;
    let value = param(alloc, b"value", 9)?;
    operation(alloc, b"put", both(alloc, n, value)?)
}

// void take([in] small which, [in] short more);
fn take(alloc: Global) -> Result<Operation, Memory>
    ensures { IfOk result (λ o. o ≡ rows.take) }
{
    let which = param(alloc, b"which", 3)?;
    let more = param(alloc, b"more", 5)?;
    operation(alloc, b"take", both(alloc, which, more)?)
}

fn operations(alloc: Global) -> Result<Operations, Memory>
    ensures { IfOk result (λ os. os ≡ rows.two_operations) }
{
    let put = put(alloc)?;
    let take = take(alloc)?;
    let mut operations = Operations::new(alloc);
    if operations.push(put).is_err() || operations.push(take).is_err() {
        return Err(Memory);
    }
    Ok(operations)
}

// The interface `two` of both.
#[tactic(auto, using(crate::proofs::Legal::legal))]
pub(crate) fn interface(alloc: Global) -> Result<Interface, Memory>
    ensures types { IfOk result (λ i. i.types ≡ basic_types) }
    ensures operations { IfOk result (λ i. i.operations ≡ rows.two_operations) }
{
    let types = Types::basic(alloc)?;
    let operations = operations(alloc)?;
    let layouts = types.layouts(alloc)?;
    let name = Name::copy(alloc, b"two")?;
    Ok(Interface {
        name,
        uuid: None,
        major: 1,
        minor: 0,
        types,
        layouts,
        operations,
    })
}
