// The homes of a graph.
ghost use Rattle.std.specs.Prelude.{◌≡◌, ◌+◌, ◌<◌, ◌^◌, length, map, slice_get, Some, IfOk};
ghost use Rattle.nd_types.specs.declared.types.Operation.{Operation};
ghost use Rattle.nd_types.specs.Roots.{named_roots};
ghost use Rattle.nd_value.specs.Seen.{cell_of};
ghost use Rattle.nd_misfits.specs.HomeList.{home_tree, root_homes, home_of_cell};

use nd_base::Memory;
use nd_types::{Interface, Side, TypeId};
use nd_value::{Cell, CellId, Graph, Home, Val};
use std::alloc::Global;

// A home with its type, the parameter that it is, if it is one, and its value.
#[derive(Clone, Copy)]
pub(crate) struct HomeValue<'a> {
    pub(crate) home: Home,
    pub(crate) of: TypeId,
    pub(crate) param: Option<u32>,
    pub(crate) val: &'a Val,
}

// The roots of a graph that has as many of them as the side.
pub(crate) fn roots<'a>(
    alloc: Global,
    interface: &Interface,
    op: u32,
    side: Side,
    graph: &'a Graph,
) -> Result<Vec<HomeValue<'a>>, Memory>
    requires known { op < length interface.now.operations }
    ensures { IfOk result (λ homes. (o : Operation) → slice_get interface.now.operations op ≡ Some o
        → map home_tree homes.items ≡ root_homes 0 (named_roots interface.now.types side o) graph.now.roots) }
{
    let mut homes = Vec::new(alloc);
    let mut at: u32 = 0;
    for root in interface.params(op, side) {
        let Some(val) = graph.roots.get(at as usize) else {
            return Ok(homes);
        };
        let home = HomeValue {
            home: Home::Root(at),
            of: root.of,
            param: root.param,
            val,
        };
        match homes.push(home) {
            Ok(()) => {}
            Err(_) => return Err(Memory),
        }
        at += 1;
    }
    Ok(homes)
}

// The cell at a place, from 0, as a home.
#[inline]
pub(crate) fn cell_home(at: usize, cell: &Cell) -> HomeValue<'_>
    requires { at + 1 < 2 ^ 32 }
    ensures { home_tree result ≡ home_of_cell (at + 1) (cell_of cell.now) }
{
    HomeValue {
        home: Home::Cell(CellId(at as u32 + 1)),
        of: cell.of,
        param: None,
        val: &cell.val,
    }
}
