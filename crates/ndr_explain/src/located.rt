// Nodes of the homes of a graph, looked for one after the other.
ghost use Rattle.std.specs.Prelude.{◌≡◌, ◌≤◌, true, IfOk, IfSome};
ghost use Rattle.nd_types.specs.declared.interface.Interface.{Interface as InterfaceValue};
ghost use Rattle.nd_value.specs.declared.value.Graph.{Graph};
ghost use Rattle.nd_value.specs.declared.item.Home.TheVariants as homes;
ghost use Rattle.nd_value.specs.Setting.{Setting};
ghost use Rattle.ndr_explain.specs.Cursors.{IsSettingOf, IsIn, IsLast, IsFound, IsBegun};

use crate::cursor::{Cursor, begin, reach};
use crate::names::{HomeName, home_name};
use nd_base::Memory;
use nd_flat::Fit;
use nd_types::{Interface, Types};
use nd_value::{CellId, Home};
use std::alloc::Global;
use text_printer::root_at;

/// A node of a home of a graph.
#[derive(Drop)]
pub(crate) struct Located<'a> {
    pub(crate) home: Home,
    pub(crate) name: HomeName<'a>,
    pub(crate) cursor: Cursor<'a>,
}

/// The node of this number of a home, or None where there is no such node. If it comes after the one that was looked for last, or is that one,
/// the walk goes on from there; else it begins anew.
pub(crate) fn locate<'a>(
    alloc: Global,
    interface: &'a Interface,
    fit: &'a Fit,
    last: Option<Located<'a>>,
    home: Home,
    node: u32,
) -> Result<Option<Located<'a>>, Memory>
    requires tied { fit.now.interface ≡ interface.now }
    ensures { (w : Setting) → IsSettingOf interface.now fit.now w → IsLast w fit.now.graph last.entry
        → IfOk result (IsFound w fit.now.graph home node) }
{
    match resumed(last, home, node) {
        Some(found) => go_on(&interface.types, found, node),
        None => start_over(alloc, interface, fit, home, node),
    }
}

// The last place, if this node of this home does not come before it.
fn resumed<'a>(last: Option<Located<'a>>, home: Home, node: u32) -> Option<Located<'a>>
    ensures within { IfSome result (λ f. f.cursor.node ≤ node) }
    ensures same { IfSome result (λ f. f.home ≡ home) }
    ensures is { IfSome result (λ f. last.entry ≡ Some f) }
{
    let Some(found) = last else {
        return None;
    };
    if same_home(found.home, home) && found.cursor.node <= node {
        return Some(found);
    }
    None
}

// Whether two homes are one.
fn same_home(first: Home, second: Home) -> bool
    ensures { result ≡ true → first ≡ second }
{
    match first {
        Home::Root(at) => is_root(second, at),
        Home::Cell(cell) => is_cell(second, cell),
    }
}

fn is_root(home: Home, at: u32) -> bool
    ensures { result ≡ true → homes.Root at ≡ home }
{
    match home {
        Home::Root(other) => at == other,
        Home::Cell(_) => false,
    }
}

fn is_cell(home: Home, cell: CellId) -> bool
    ensures { result ≡ true → homes.Cell cell ≡ home }
{
    match home {
        Home::Root(_) => false,
        Home::Cell(other) => cell.0 == other.0,
    }
}

// From a node on to a later one of the same home.
fn go_on<'a>(types: &'a Types, found: Located<'a>, node: u32) -> Result<Option<Located<'a>>, Memory>
    requires { found.cursor.node ≤ node }
    ensures { (w : Setting) → w.table ≡ types.now → (g : Graph) → IsIn w g found.entry → IfOk result (IsFound w g found.entry.home node) }
{
    let Located { home, name, cursor } = found;
    let Some(cursor) = reach(types, cursor, node)? else {
        return Ok(None);
    };
    Ok(Some(Located { home, name, cursor }))
}

// From the first node of a home on to this one.
fn start_over<'a>(
    alloc: Global,
    interface: &'a Interface,
    fit: &'a Fit,
    home: Home,
    node: u32,
) -> Result<Option<Located<'a>>, Memory>
    requires tied { fit.now.interface ≡ interface.now }
    ensures { (w : Setting) → IsSettingOf interface.now fit.now w → IfOk result (IsFound w fit.now.graph home node) }
{
    let Some(cursor) = first_node(alloc, interface, fit, home) else {
        return Ok(None);
    };
    let name = home_name(interface, fit, home);
    go_on(&interface.types, Located { home, name, cursor }, node)
}

// The first node of a home, or None where the home is not there.
fn first_node<'a>(
    alloc: Global,
    interface: &'a Interface,
    fit: &'a Fit,
    home: Home,
) -> Option<Cursor<'a>>
    requires tied { fit.now.interface ≡ interface.now }
    ensures is { (w : Setting) → IsSettingOf interface.now fit.now w → IsBegun w fit.now.graph home result }
    ensures first { IfSome result (λ c. c.node ≡ 0) }
{
    match home {
        Home::Root(at) => first_of_root(alloc, interface, fit, at),
        Home::Cell(cell) => first_of_cell(alloc, fit, cell),
    }
}

// The first node of a root.
fn first_of_root<'a>(
    alloc: Global,
    interface: &'a Interface,
    fit: &'a Fit,
    at: u32,
) -> Option<Cursor<'a>>
    requires tied { fit.now.interface ≡ interface.now }
    ensures is { (w : Setting) → IsSettingOf interface.now fit.now w → IsBegun w fit.now.graph (homes.Root at) result }
    ensures first { IfSome result (λ c. c.node ≡ 0) }
{
    let graph = fit.flat();
    if at as usize >= graph.root_count() {
        return None;
    }
    let Some(root) = root_at(interface, fit.op(), fit.side(), at) else {
        return None;
    };
    begin(alloc, root.of, graph.root_walk(at as usize))
}

// The first node of a cell.
fn first_of_cell<'a>(alloc: Global, fit: &'a Fit, cell: CellId) -> Option<Cursor<'a>>
    ensures is { (i : InterfaceValue) → fit.now.interface ≡ i → (w : Setting) → IsSettingOf i fit.now w
        → IsBegun w fit.now.graph (homes.Cell cell) result }
    ensures first { IfSome result (λ c. c.node ≡ 0) }
{
    let graph = fit.flat();
    if cell.0 == 0 || cell.0 as usize > graph.cell_count() {
        return None;
    }
    let at = cell.0 as usize - 1;
    begin(alloc, graph.cell_type(at), graph.cell_walk(at))
}
