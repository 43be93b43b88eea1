// The interface of three numbers, and the numbers 1, 2 and 3.
ghost use Rattle.std.specs.Prelude.{◌≡◌, ◌≤◌, [], ◌∷◌, length, IfOk};
ghost use Rattle.nd_types.specs.Kinds.{basic_types};
ghost use Rattle.nd_types.specs.Plain.{plain_param};
ghost use Rattle.nd_value.specs.WorkedFit.{add_params, add};

use nd_base::{Memory, Name};
use nd_flat::{Builder, Fit, Seen};
use nd_types::{
    AttrVars, Field, Interface, Operation, Operations, Param, Params, Side, TypeId, Types, Way,
};
use std::alloc::Global;

fn param(alloc: Global, name: &[u8], of: u32) -> Result<Param, Memory>
    requires some { 1 ≤ length name.now }
    requires few { length name.now ≤ 31 }
    ensures { IfOk result (λ p. p ≡ plain_param name.now of) }
{
    Ok(Param {
        field: Field {
            name: Name::copy(alloc, name)?,
            of: TypeId(of),
            vars: AttrVars::new(alloc),
        },
        way: Way::In,
    })
}

fn params(alloc: Global) -> Result<Params, Memory>
    ensures { IfOk result (λ ps. ps ≡ add_params) }
{
    let a = param(alloc, b"a", 7)?;
    let b = param(alloc, b"b", 5)?;
    let c = param(alloc, b"c", 9)?;
    let mut params = Params::new(alloc);
    if params.push(a).is_err() || params.push(b).is_err() || params.push(c).is_err() {
        return Err(Memory);
    }
    Ok(params)
}

fn operations(alloc: Global) -> Result<Operations, Memory>
    ensures { IfOk result (λ os. os ≡ add ∷ []) }
{
    let operation = Operation {
        name: Name::copy(alloc, b"add")?,
        params: params(alloc)?,
        result: None,
    };
    let mut operations = Operations::new(alloc);
    if operations.push(operation).is_err() {
        return Err(Memory);
    }
    Ok(operations)
}

// interface t { void add([in] long a, [in] short b, [in] hyper c); }
#[tactic(auto, using(nd_value::proofs::WorkedFit::legal))]
pub(crate) fn interface(alloc: Global) -> Result<Interface, Memory>
    ensures types { IfOk result (λ i. i.types ≡ basic_types) }
    ensures operations { IfOk result (λ i. i.operations ≡ add ∷ []) }
{
    let types = Types::basic(alloc)?;
    let operations = operations(alloc)?;
    let layouts = types.layouts(alloc)?;
    Ok(Interface {
        name: Name::copy(alloc, b"t")?,
        uuid: None,
        major: 0,
        minor: 0,
        types,
        layouts,
        operations,
    })
}

// The numbers 1, 2 and 3 of its request.
#[tactic(auto, using(nd_value::proofs::WorkedFit::fits))]
pub(crate) fn fit(alloc: Global, interface: &Interface) -> Result<Fit, Memory>
    requires types { interface.now.types ≡ basic_types }
    requires operations { interface.now.operations ≡ add ∷ [] }
    ensures tied { IfOk result (λ f. f.interface ≡ interface.now) }
    ensures first { IfOk result (λ f. f.op ≡ 0) }
{
    let mut builder = Builder::begin(alloc, interface.tie(), 0, Side::In, None);
    builder.root()?;
    builder.add(&Seen::Num(1))?;
    builder.root()?;
    builder.add(&Seen::Num(2))?;
    builder.root()?;
    builder.add(&Seen::Num(3))?;
    Ok(builder.finish())
}
