// The path of a value, with ample memory.
ghost use Rattle.std.specs.Prelude.{◌≡◌, ◌≤◌, [], ◌∷◌, length, IfOk};
ghost use Rattle.test_text.specs.Worked.{in_param, put_range, put_params, put, put_types};

use nd_base::{Memory, Name};
use nd_types::{
    Attr, AttrVar, AttrVars, Field, Interface, Operation, Operations, Param, Params, Side, TypeDef,
    TypeId, Types, Way,
};
use nd_value::{Cells, Graph, Home, Val, Vals};
use std::alloc::Global;
use std::test::Fail;
use text_printer::path;

fn param(alloc: Global, name: &[u8], of: u32, vars: AttrVars) -> Result<Param, Memory>
    requires some { 1 ≤ length name.now }
    requires few { length name.now ≤ 31 }
    ensures { IfOk result (λ p. p ≡ in_param name.now of vars) }
{
    Ok(Param {
        field: Field {
            name: Name::copy(alloc, name)?,
            of: TypeId(of),
            vars,
        },
        way: Way::In,
    })
}

fn range(alloc: Global) -> Result<AttrVars, Memory>
    ensures { IfOk result (λ vars. vars ≡ put_range) }
{
    let first = AttrVar {
        attr: Attr::First,
        var: 0,
        star: false,
    };
    let length = AttrVar {
        attr: Attr::Length,
        var: 1,
        star: false,
    };
    let mut vars = AttrVars::new(alloc);
    if vars.push(first).is_err() || vars.push(length).is_err() {
        return Err(Memory);
    }
    Ok(vars)
}

fn params(alloc: Global) -> Result<Params, Memory>
    ensures { IfOk result (λ ps. ps ≡ put_params) }
{
    let f = param(alloc, b"f", 7, AttrVars::new(alloc))?;
    let n = param(alloc, b"n", 7, AttrVars::new(alloc))?;
    let a = param(alloc, b"a", 12, range(alloc)?)?;
    let mut params = Params::new(alloc);
    if params.push(f).is_err() || params.push(n).is_err() || params.push(a).is_err() {
        return Err(Memory);
    }
    Ok(params)
}

fn operations(alloc: Global) -> Result<Operations, Memory>
    ensures { IfOk result (λ os. os ≡ put ∷ []) }
{
    let operation = Operation {
        name: Name::copy(alloc, b"put")?,
        params: params(alloc)?,
        result: None,
    };
    let mut operations = Operations::new(alloc);
    if operations.push(operation).is_err() {
        return Err(Memory);
    }
    Ok(operations)
}

fn types(alloc: Global) -> Result<Types, Memory>
    ensures { IfOk result (λ ts. ts ≡ put_types) }
{
    let longs = TypeDef::Array {
        elem: TypeId(7),
        bound: Some(8),
        varying: true,
    };
    let mut types = Types::basic(alloc)?;
    if types.push(longs).is_err() {
        return Err(Memory);
    }
    Ok(types)
}

// interface t { void put([in] long f, [in] long n, [in, first_is(f), length_is(n)] long a[8]); }
#[tactic(auto, using(crate::proofs::Worked::legal))]
fn interface(alloc: Global) -> Result<Interface, Memory>
    ensures { IfOk result (λ i. i.operations ≡ put ∷ []) }
{
    let types = types(alloc)?;
    let operations = operations(alloc)?;
    let layouts = types.layouts(alloc)?;
    Ok(Interface {
        name: Name::copy(alloc, b"t")?,
        uuid: None,
        major: 0,
        minor: 0,
        types,
        layouts,
        operations,
    })
}

// f = 3, n = 2, and a has 1 and 2,147,483,648 from its index 3 on: the second of these is no long.
fn graph(alloc: Global) -> Result<Graph, Memory> {
    let mut items = Vals::new(alloc);
    if items.push(Val::Num(1)).is_err() || items.push(Val::Num(2_147_483_648)).is_err() {
        return Err(Memory);
    }
    let array = Val::Arr {
        max: 8,
        offset: 3,
        items,
    };
    let mut roots = Vals::new(alloc);
    if roots.push(Val::Num(3)).is_err()
        || roots.push(Val::Num(2)).is_err()
        || roots.push(array).is_err()
    {
        return Err(Memory);
    }
    Ok(Graph {
        roots,
        cells: Cells::new(alloc),
    })
}

#[test]
fn an_element_has_its_index_from_the_offset(rt: HostRuntime) -> Result<(), Fail> {
    let interface = interface(rt.alloc())?;
    let graph = graph(rt.alloc())?;
    let text = path(
        rt.alloc(),
        &interface,
        0,
        Side::In,
        &graph,
        Home::Root(2),
        2,
    )?;
    assert_eq!(rt; text.as_slice(), b"a[4]".as_slice());
    Ok(())
}
