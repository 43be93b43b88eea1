// A pipe of shorts that are kept as a row, and a cell. They conform to no operation.
ghost use Rattle.std.specs.Prelude.{◌≡◌, ◌<◌, ◌≤◌, length, IfOk, OnOk};
ghost use Rattle.nd_value.specs.Tree as tree;
ghost use Rattle.nd_flat.specs.Building.{CanClose};
ghost use Rattle.nd_flat.specs.FlatForm.{IsKeepable};
ghost use Rattle.test_graph.specs.Steps.{with_long, with_shorts, filled};

use crate::basic_interface::tie;
use crate::home_building::add_root;
use nd_base::{Counted, Memory, Order, Steps};
use nd_flat::{Builder, FlatGraph, Row, Seen, Walk};
use nd_types::{Prim, Side, Tie, TypeId};
use nd_value::{CellId, Home};
use std::alloc::Global;
use std::test::Fail;

// The shorts -1 and 258, big-endian.
const SHORTS: Row<'static> = Row {
    order: Order::Big,
    of: Prim::Short,
    count: 2,
    octets: b"\xff\xff\x01\x02",
};

// A builder with one cell, of a long.
fn numbered(alloc: Global, tie: Tie) -> Result<Builder, Memory>
    ensures { IfOk result (λ b. b ≡ with_long tie) }
{
    let mut steps = Steps::new(Counted::new());
    let mut builder = Builder::begin(alloc, tie, 0, Side::In, None);
    builder.reserve(TypeId(7), &mut steps)?;
    Ok(builder)
}

// The next root is a pipe of the shorts.
fn add_shorts(builder: &mut Builder) -> Result<(), Memory>
    requires whole { CanClose builder.old }
    ensures { OnOk result (builder.new ≡ with_shorts builder.old) }
{
    builder.root()?;
    builder.add(&Seen::Pipe(0))?;
    builder.chunk(2);
    builder.row(&SHORTS)?;
    Ok(())
}

// A cell is a number.
fn fill_number(builder: &mut Builder, cell: u32, number: i128) -> Result<(), Memory>
    requires whole { CanClose builder.old }
    requires least { 0 < cell }
    requires there { cell ≤ length builder.old.graph.cells }
    requires kept { IsKeepable (tree.Num number) }
    ensures { OnOk result (builder.new ≡ filled cell number builder.old) }
{
    builder.fill(CellId(cell));
    builder.add(&Seen::Num(number))?;
    Ok(())
}

// A pipe of the shorts, and a pointer to the number 7.
fn piped(alloc: Global, tie: Tie) -> Result<FlatGraph, Memory>
    ensures roots { IfOk result (λ g. length g.roots ≡ 2) }
    ensures cells { IfOk result (λ g. length g.cells ≡ 1) }
{
    let mut builder = numbered(alloc, tie)?;
    add_shorts(&mut builder)?;
    add_root(&mut builder, &Seen::Ptr(Some(CellId(1))))?;
    fill_number(&mut builder, 1, 7)?;
    Ok(builder.into_graph())
}

// Whether a walk gives the pipe, with its first short as a row.
fn gives_pipe(walk: Walk<'_>) -> bool {
    let mut walk = walk;
    if walk.row(9).is_some() || walk.step() != Some(Seen::Pipe(2)) {
        return false;
    }
    let Some(row) = walk.row(1) else {
        return false;
    };
    row.count == 1 && row.octets.len() == 2 && walk.step() == Some(Seen::Num(258))
}

// Whether this is the next node of a walk.
fn gives(walk: Walk<'_>, node: &Seen<'_>) -> bool {
    let mut walk = walk;
    let Some(seen) = walk.step() else {
        return false;
    };
    seen == *node
}

// Whether a graph is the pipe, and the pointer with its cell.
fn is_whole(graph: &FlatGraph) -> bool
    requires roots { length graph.now.roots ≡ 2 }
    requires cells { length graph.now.cells ≡ 1 }
{
    gives_pipe(graph.walk(Home::Root(0)))
        && gives(graph.walk(Home::Root(1)), &Seen::Ptr(Some(CellId(1))))
        && gives(graph.walk(Home::Cell(CellId(1))), &Seen::Num(7))
        && graph.cell_type(0) == TypeId(7)
}

#[test]
fn rows_are_given(rt: HostRuntime) -> Result<(), Fail> {
    let tie = tie(rt.alloc())?;
    let graph = piped(rt.alloc(), tie)?;
    assert!(rt; is_whole(&graph));
    Ok(())
}
