// Values made anew from their nodes.
ghost use Rattle.std.specs.Prelude.{◌≡◌, ◌≤◌, ◌<◌, suc, length, slice_get, OnOk, IfOk};
ghost use Rattle.nd_value.specs.Tree.{node, trees, count, take_trees, drop_trees};
ghost use Rattle.nd_value.specs.Seen.{tree_of, cell_of};
ghost use Rattle.nd_value.specs.Setting.{root_at, cell_at};
ghost use Rattle.nd_flat.specs.Building.{referent_type};
ghost use Rattle.nd_flat.specs.Forest.{first_tree};
ghost use Rattle.nd_flat.specs.FlatForm.{flat_seen, armed_count};

use crate::{FlatGraph, Seen, Walk};
use nd_base::{Memory, Octets};
use nd_value::{ArmVal, Cell, Cells, Val, Vals};
use std::alloc::Global;

// The values of all roots.
pub(crate) fn roots(alloc: Global, graph: &FlatGraph) -> Result<Vals, Memory>
    ensures { IfOk result (λ vs. vs ≡ graph.now.roots) }
{
    let mut vals = Vals::new(alloc);
    for at in 0..graph.root_count() {
        let val = root(alloc, graph, at)?;
        let Ok(()) = vals.push(val) else {
            return Err(Memory);
        };
    }
    Ok(vals)
}

// All cells.
pub(crate) fn cells(alloc: Global, graph: &FlatGraph) -> Result<Cells, Memory>
    ensures { IfOk result (λ cs. cs ≡ graph.now.cells) }
{
    let mut cells = Cells::new(alloc);
    for at in 0..graph.cell_count() {
        let made = cell(alloc, graph, at)?;
        let Ok(()) = cells.push(made) else {
            return Err(Memory);
        };
    }
    Ok(cells)
}

// The value of a root by its place.
fn root(alloc: Global, graph: &FlatGraph, at: usize) -> Result<Val, Memory>
    requires { at < length graph.now.roots }
    ensures { IfOk result (λ v. tree_of v ≡ root_at graph.now at) }
{
    let mut walk = graph.root_walk(at);
    value(alloc, &mut walk)
}

// A cell by its place.
fn cell(alloc: Global, graph: &FlatGraph, at: usize) -> Result<Cell, Memory>
    requires { at < length graph.now.cells }
    ensures { IfOk result (λ c. cell_of c ≡ record { of = referent_type (slice_get graph.now.cells at); val = cell_at graph.now (suc at) }) }
{
    let mut walk = graph.cell_walk(at);
    let val = value(alloc, &mut walk)?;
    Ok(Cell {
        of: graph.cell_type(at),
        val,
    })
}

// The next value of a walk.
#[cycle(rebuilt)]
fn value(alloc: Global, walk: &mut Walk<'_>) -> Result<Val, Memory>
    requires some { 1 ≤ count walk.old }
    ensures rest { OnOk result (walk.new ≡ drop_trees 1 walk.old) }
    ensures value { IfOk result (λ v. tree_of v ≡ first_tree walk.old) }
{
    let Some(seen) = walk.step() else {
        unreachable!()
    };
    by_form(alloc, &seen, walk)
}

// The value of a node whose children come next.
#[cycle(rebuilt)]
fn by_form(alloc: Global, seen: &Seen<'_>, walk: &mut Walk<'_>) -> Result<Val, Memory>
    requires some { (flat_seen seen.now).1 ≤ count walk.old }
    ensures rest { OnOk result (walk.new ≡ drop_trees (flat_seen seen.now).1 walk.old) }
    ensures value { IfOk result (λ v. tree_of v ≡ node (flat_seen seen.now).0 (take_trees (flat_seen seen.now).1 walk.old)) }
{
    match seen {
        Seen::Num(number) => Ok(Val::Num(*number)),
        Seen::Rec(count) => Ok(Val::Rec(values(alloc, *count, walk)?)),
        Seen::Arr { max, offset, count } => {
            let items = values(alloc, *count, walk)?;
            Ok(Val::Arr {
                max: *max,
                offset: *offset,
                items,
            })
        }
        Seen::Text { max, octets } => Ok(Val::Text {
            max: *max,
            octets: Octets::copy(alloc, octets)?,
        }),
        Seen::Union { tag, armed } => {
            let arm = arm(alloc, *armed, walk)?;
            Ok(Val::Union { tag: *tag, arm })
        }
        Seen::Ptr(cell) => Ok(Val::Ptr(*cell)),
        Seen::Context { attributes, id } => Ok(Val::Context {
            attributes: *attributes,
            id: *id,
        }),
        Seen::Pipe(count) => Ok(Val::Pipe(values(alloc, *count, walk)?)),
    }
}

/// So many of the next values of a walk, made anew. As many must be left. It takes memory for them; out of memory is the only refusal.
#[cycle(rebuilt)]
pub fn values(alloc: Global, number: u32, walk: &mut Walk<'_>) -> Result<Vals, Memory>
    requires some { number ≤ count walk.old }
    ensures rest { OnOk result (walk.new ≡ drop_trees number walk.old) }
    ensures values { IfOk result (λ vs. trees vs ≡ take_trees number walk.old) }
{
    let mut vals = Vals::new(alloc);
    for _at in 0..number {
        let val = value(alloc, walk)?;
        let Ok(()) = vals.push(val) else {
            return Err(Memory);
        };
    }
    Ok(vals)
}

// The value of an arm, where it has one.
#[cycle(rebuilt)]
fn arm(alloc: Global, armed: bool, walk: &mut Walk<'_>) -> Result<ArmVal, Memory>
    requires some { armed_count armed ≤ count walk.old }
    ensures rest { OnOk result (walk.new ≡ drop_trees (armed_count armed) walk.old) }
    ensures arm { IfOk result (λ a. trees a ≡ take_trees (armed_count armed) walk.old) }
{
    if armed {
        let val = value(alloc, walk)?;
        let Ok(val) = Box::new(alloc, val) else {
            return Err(Memory);
        };
        return Ok(ArmVal::of(val));
    }
    Ok(ArmVal::none())
}
