// The second pass: cells that pointers share although not all of these are full.
ghost use Rattle.std.specs.Prelude.{◌≡◌, ◌++◌, ◌∷◌, ◌<◌, ◌+◌, ◌^◌, List, [], length, map, replicate, slice_get, Option, Some, None, OnOk, IfOk};
ghost use Rattle.std.specs.Prelude.{IfErr};
ghost use Rattle.std.specs.List.{AllByRecursion};
ghost use Rattle.nd_types.specs.declared.types.Operation.{Operation};
ghost use Rattle.nd_value.specs.declared.value.Graph.{Graph as GraphValue};
ghost use Rattle.nd_misfits.specs.declared.pointers.CellPointer.{CellPointer as CellPointerValue};
ghost use Rattle.nd_value.specs.Conforms.{all_pointers, HasFewNodes, first_local, first_shared};
ghost use Rattle.nd_misfits.specs.HomeList.{home_tree, cell_homes};
ghost use Rattle.nd_value.specs.Fitting.{setting_beside};
ghost use Rattle.nd_value.specs.Passes.{Tells};
ghost use Rattle.nd_misfits.specs.Pointers.{NamesBelow, IsWalkable, pointers_at, pointers_of_homes, first_clash, is_clash, naming_by};

use crate::homes::{HomeValue, cell_home, roots};
use crate::pointers::{CellPointer, cell_pointers};
use nd_base::Memory;
use nd_types::{Class, Interface, Side, Types};
use nd_value::{Graph, Misfit, MisfitReason};
use std::alloc::Global;

// How the pointers so far name a cell.
#[derive(Clone, Copy, Debug, PartialEq, Eq)]
enum Naming {
    NotYet,
    ByFull,
    ByOther,
}

/// The first pointer that names a cell which an earlier pointer names, unless both are full, as the misfit Shared, if there is one. It
/// looks at each node once, and takes memory for a list of the roots, for how each cell is named, and for the pointers of one home at a
/// time.
pub fn shared_cell(
    alloc: Global,
    interface: &Interface,
    op: u32,
    side: Side,
    graph: &Graph,
) -> Result<(), Misfit>
    requires known { op < length interface.now.operations }
    requires few_cells { length graph.now.cells < 2 ^ 32 }
    requires few_nodes { HasFewNodes graph.now }
    requires local { (o : Operation) (q : Option GraphValue) → slice_get interface.now.operations op ≡ Some o
        → first_local (setting_beside interface.now o side q) graph.now ≡ None }
    ensures none { OnOk result ((o : Operation) (q : Option GraphValue) → slice_get interface.now.operations op ≡ Some o
        → first_shared [] (all_pointers (setting_beside interface.now o side q) graph.now) ≡ None) }
    ensures first { IfErr result (λ e. (o : Operation) (q : Option GraphValue) → slice_get interface.now.operations op ≡ Some o
        → Tells (first_shared [] (all_pointers (setting_beside interface.now o side q) graph.now)) e) }
{
    let roots = roots(alloc, interface, op, side, graph)?;
    let mut names = unnamed(alloc, graph.cells.len() + 1)?;
    let mut found = Vec::new(alloc);
    among(&interface.types, roots.as_slice(), &mut found, &mut names)?;
    among_cells(&interface.types, graph, &mut found, &mut names)
}

// No cell is named yet.
fn unnamed(alloc: Global, count: usize) -> Result<Vec<Naming>, Memory>
    ensures { IfOk result (λ names. names.items ≡ replicate count Naming.NotYet) }
{
    Ok(vec![in alloc; Naming::NotYet; count]?)
}

// The same of some homes, where cells are named so already. Where no pointer of theirs clashes, their cells are named by these.
// `found` is a list that is filled anew for each home.
fn among(
    types: &Types,
    homes: &[HomeValue<'_>],
    found: &mut Vec<CellPointer>,
    names: &mut Vec<Naming>,
) -> Result<(), Misfit>
    requires walkable { AllByRecursion (IsWalkable types.now (length names.old.items)) (map home_tree homes.now) }
    ensures length { length names.new.items ≡ length names.old.items }
    ensures none { OnOk result ((rest : List CellPointerValue)
        → first_clash names.old.items (pointers_of_homes types.now (map home_tree homes.now) ++ rest) ≡ first_clash names.new.items rest) }
    ensures first { IfErr result (λ e. (rest : List CellPointerValue)
        → Tells (first_clash names.old.items (pointers_of_homes types.now (map home_tree homes.now) ++ rest)) e) }
{
    for at in 0..homes.len() {
        in_home(types, homes[at], found, names)?;
    }
    Ok(())
}

// The same of the cells.
fn among_cells(
    types: &Types,
    graph: &Graph,
    found: &mut Vec<CellPointer>,
    names: &mut Vec<Naming>,
) -> Result<(), Misfit>
    requires few { length graph.now.cells < 2 ^ 32 }
    requires walkable { AllByRecursion (IsWalkable types.now (length names.old.items)) (cell_homes 1 graph.now.cells) }
    ensures none { OnOk result (first_clash names.old.items (pointers_of_homes types.now (cell_homes 1 graph.now.cells)) ≡ None) }
    ensures first { IfErr result (λ e. Tells (first_clash names.old.items (pointers_of_homes types.now (cell_homes 1 graph.now.cells))) e) }
{
    for at in 0..graph.cells.len() {
        let Some(cell) = graph.cells.get(at) else {
            unreachable!()
        };
        in_home(types, cell_home(at, cell), found, names)?;
    }
    Ok(())
}

// The same of one home.
fn in_home(
    types: &Types,
    home: HomeValue<'_>,
    found: &mut Vec<CellPointer>,
    names: &mut Vec<Naming>,
) -> Result<(), Misfit>
    requires walkable { IsWalkable types.now (length names.old.items) (home_tree home) }
    ensures length { length names.new.items ≡ length names.old.items }
    ensures none { OnOk result ((rest : List CellPointerValue)
        → first_clash names.old.items (pointers_at types.now (home_tree home.entry) ++ rest) ≡ first_clash names.new.items rest) }
    ensures first { IfErr result (λ e. (rest : List CellPointerValue)
        → Tells (first_clash names.old.items (pointers_at types.now (home_tree home.entry) ++ rest)) e) }
{
    cell_pointers(types, home, found)?;
    note(found.as_slice(), names)
}

// The same of some pointers. Where none of them clashes, their cells are named by them.
fn note(found: &[CellPointer], names: &mut Vec<Naming>) -> Result<(), Misfit>
    requires within { AllByRecursion (NamesBelow (length names.old.items)) found.now }
    ensures length { length names.new.items ≡ length names.old.items }
    ensures none { OnOk result ((rest : List CellPointerValue)
        → first_clash names.old.items (found.now ++ rest) ≡ first_clash names.new.items rest) }
    ensures first { IfErr result (λ e. (rest : List CellPointerValue) → Tells (first_clash names.old.items (found.now ++ rest)) e) }
{
    for at in 0..found.len() {
        note_one(found[at], names)?;
    }
    Ok(())
}

// The same of one pointer.
fn note_one(pointer: CellPointer, names: &mut Vec<Naming>) -> Result<(), Misfit>
    requires within { pointer.cell.0 < length names.old.items }
    ensures length { length names.new.items ≡ length names.old.items }
    ensures none { OnOk result ((rest : List CellPointerValue)
        → first_clash names.old.items (pointer ∷ rest) ≡ first_clash names.new.items rest) }
    ensures first { IfErr result (λ e. (rest : List CellPointerValue) → Tells (first_clash names.old.items (pointer ∷ rest)) e) }
{
    let cell = pointer.cell.0 as usize;
    if is_clash(names[cell], pointer.class) {
        return Err(Misfit::At {
            home: pointer.home,
            node: pointer.node,
            reason: MisfitReason::Shared,
        });
    }
    names[cell] = by_class(pointer.class);
    Ok(())
}

// How a cell is named once a pointer of a class names it.
fn by_class(class: Class) -> Naming
    ensures { result ≡ naming_by class }
{
    match class {
        Class::Full => Naming::ByFull,
        Class::Ref | Class::Unique => Naming::ByOther,
    }
}

// Whether a pointer of a class may not name a cell that is named so already.
fn is_clash(named: Naming, class: Class) -> bool
    ensures { result ≡ is_clash named class }
{
    match named {
        Naming::NotYet => false,
        Naming::ByFull => class != Class::Full,
        Naming::ByOther => true,
    }
}
