// An array of structs that are kept side by side. It conforms to no operation.
ghost use Rattle.std.specs.Prelude.{◌≡◌, [], ◌∷◌, length, IfOk};
ghost use Rattle.nd_types.specs.declared.types.Primitive.TheVariants as prim;
ghost use Rattle.nd_flat.specs.Records.{IsMembers, members_of};

use crate::basic_interface::tie;
use crate::home_building::add_root;
use nd_base::{Memory, Order};
use nd_flat::{Builder, FlatGraph, Members, Records, Seen, Walk};
use nd_types::{Prim, Side, Tie};
use nd_value::Home;
use std::alloc::Global;
use std::test::Fail;

const OCTETS: &[u8] =
    b"\x01.......\x02\x00\x00\x00\x00\x00\x00\x00\x03\x00......\x04.......\x05\x00\x00\x00\x00\x00\x00\x00\x06\x00......\
    \x07.......\x08\x00\x00\x00\x00\x00\x00\x00\x09\x00";

const ARRAY: Seen<'static> = Seen::Arr {
    max: 3,
    offset: 0,
    count: 3,
};

// A byte, a hyper and a short.
fn members() -> Members
    ensures members { members_of result ≡ prim.Byte ∷ prim.Hyper ∷ prim.Short ∷ [] }
    ensures whole { IsMembers result }
{
    Members::none()
        .with(Prim::Byte)
        .with(Prim::Hyper)
        .with(Prim::Short)
}

// Three structs of these, little-endian, with gaps.
fn structs(alloc: Global, tie: Tie) -> Result<FlatGraph, Memory>
    ensures roots { IfOk result (λ g. length g.roots ≡ 1) }
{
    let members = members();
    let mut builder = Builder::begin(alloc, tie, 0, Side::In, None);
    add_root(&mut builder, &ARRAY)?;
    builder.records(&Records {
        order: Order::Little,
        members,
        count: 3,
        octets: OCTETS,
    })?;
    Ok(builder.into_graph())
}

// Whether a walk gives a struct of these three numbers next.
fn gives(walk: &mut Walk<'_>, first: i128, second: i128, third: i128) -> bool {
    walk.step() == Some(Seen::Rec(3))
        && walk.step() == Some(Seen::Num(first))
        && walk.step() == Some(Seen::Num(second))
        && walk.step() == Some(Seen::Num(third))
}

// Whether structs come next in a walk, and the first of them is given by itself.
fn gives_one(walk: &mut Walk<'_>) -> bool {
    let Some(records) = walk.records(1) else {
        return false;
    };
    records.count == 1 && records.octets.len() == 18
}

// Whether a walk gives the array, its second struct by itself.
fn gives_array(walk: Walk<'_>) -> bool {
    let mut walk = walk;
    walk.records(9).is_none()
        && walk.step() == Some(ARRAY)
        && gives(&mut walk, 1, 2, 3)
        && gives_one(&mut walk)
        && gives(&mut walk, 7, 8, 9)
        && walk.step().is_none()
}

// Whether no structs come from within a struct.
fn gives_none_within(walk: Walk<'_>) -> bool {
    let mut walk = walk;
    walk.step() == Some(ARRAY) && walk.step() == Some(Seen::Rec(3)) && walk.records(9).is_none()
}

// Whether a graph is the array.
fn is_array(graph: &FlatGraph) -> bool
    requires { length graph.now.roots ≡ 1 }
{
    gives_array(graph.walk(Home::Root(0))) && gives_none_within(graph.walk(Home::Root(0)))
}

#[test]
fn structs_are_given(rt: HostRuntime) -> Result<(), Fail> {
    let tie = tie(rt.alloc())?;
    let graph = structs(rt.alloc(), tie)?;
    assert!(rt; is_array(&graph));
    Ok(())
}
