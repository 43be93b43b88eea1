// Homes, one after the other: roots with their referents, and pipes.
ghost use Rattle.std.specs.Prelude.{◌≡◌, ◌<◌, ◌≤◌, ◌^◌, ◌++◌, ◌∷◌, [], drop, length, reverse, take, ℕ, List, IfOk, IsErrOf, None, Some};
ghost use Rattle.std.specs.List.{slice_get};
ghost use Rattle.nd_types.specs.declared.types.Class.TheVariants.{Ref};
ghost use Rattle.nd_types.specs.declared.types.TypeDef.TheVariants as def;
ghost use Rattle.nd_types.specs.Roots.{Root};
ghost use Rattle.nd_types.specs.Table.{type_at};
ghost use Rattle.nd_value.specs.Setting.{root_list};
ghost use Rattle.nd_value.specs.Tree.{more, none};
ghost use Rattle.nd_value.specs.Deferral.{Due, Placed_cells, due_root};
ghost use Rattle.nd_grammar.specs.Entry.{Entry};
ghost use Rattle.text_grammar.specs.Paths.{home_value};
ghost use Rattle.ndr_trace_value.specs.Walking.{IsPaid, values_due};
ghost use Rattle.ndr_trace_value.specs.declared.progress.Halt.TheVariants as halts;
ghost use Rattle.ndr_trace.specs.Homes.{HasHome, HasPassed, IsAwaiting, IsFront, IsNext, IsRoot, IsPart, direct_of, home_due};
ghost use Rattle.ndr_trace_value.specs.Naming.{IsNaming, names_in};
ghost use Rattle.ndr_trace_value.specs.Tracing.{IsEnded, IsFrom, IsGround, IsTracing, Known};

use nd_base::Octets;
use nd_types::{Class, Interface, RootDef, TypeDef, TypeId};
use nd_value::Home;
use ndr_explain::{HomeName, Level};
use ndr_trace_value::{
    Ground, Halt, Pending, PointerSpot, RootSeen, Spot, Walker, at_end, close, come_to, count, gap,
    new_cell, note_direct, walk_level,
};

/// Walks over a root and the referents that it makes due.
pub(crate) fn walk_root<'a>(
    ground: &Ground<'a>,
    walker: &mut Walker<'a>,
    at: u32,
    root: RootDef<'a>,
) -> Result<(), Halt>
    ensures goes { (k : Known) → IsGround k ground.now → IsPart k → IsRoot k at root.entry
        → (due : List Due) (rest : List Entry) (names : Placed_cells)
        → walker.old.cells.pending.items ≡ [] → IsAwaiting k walker.old (due_root at ∷ due) rest names
        → IfOk result (λ _. (walker.new.cells.pending.items ≡ []) × IsAwaiting k walker.new due rest names) }
    ensures ends { (k : Known) → IsGround k ground.now → IsPart k → IsRoot k at root.entry
        → (due : List Due) (rest : List Entry) (names : Placed_cells)
        → walker.old.cells.pending.items ≡ [] → IsAwaiting k walker.old (due_root at ∷ due) rest names
        → IsErrOf result halts.Here → IsEnded k walker.new.progress }
{
    let Ok(()) = walker.search.roots.push(RootSeen::of(root.param)) else {
        return Err(Halt::Memory);
    };
    walk_own(ground, walker, at, root)?;
    walk_referents(ground, walker)?;
    Ok(())
}

// Walks over the value of a root, or over that of the cell that a top-level reference pointer names, which is in the pointer's place.
fn walk_own<'a>(
    ground: &Ground<'a>,
    walker: &mut Walker<'a>,
    at: u32,
    root: RootDef<'a>,
) -> Result<(), Halt>
    ensures goes { (k : Known) → IsGround k ground.now → IsPart k → IsRoot k at root.entry
        → (due : List Due) (rest : List Entry) (names : Placed_cells)
        → walker.old.cells.pending.items ≡ [] → IsAwaiting k walker.old (due_root at ∷ due) rest names
        → IfOk result (λ _. IsAwaiting k walker.new due rest names) }
    ensures ends { (k : Known) → IsGround k ground.now → IsPart k → IsRoot k at root.entry
        → (due : List Due) (rest : List Entry) (names : Placed_cells)
        → walker.old.cells.pending.items ≡ [] → IsAwaiting k walker.old (due_root at ∷ due) rest names
        → IsErrOf result halts.Here → IsEnded k walker.new.progress }
{
    match direct_referent(ground.interface, root.of) {
        Some(to) => walk_direct(ground, walker, at, to),
        None => walk_plain(ground, walker, at, root),
    }
}

// Walks over the value of a root that is no reference pointer.
fn walk_plain<'a>(
    ground: &Ground<'a>,
    walker: &mut Walker<'a>,
    at: u32,
    root: RootDef<'a>,
) -> Result<(), Halt>
    ensures goes { (k : Known) → IsGround k ground.now → IsPart k → IsRoot k at root.entry
        → direct_of (type_at k.setting.table root.entry.of.0) ≡ None
        → (due : List Due) (rest : List Entry) (names : Placed_cells)
        → walker.old.cells.pending.items ≡ [] → IsAwaiting k walker.old (due_root at ∷ due) rest names
        → IfOk result (λ _. IsAwaiting k walker.new due rest names) }
    ensures ends { (k : Known) → IsGround k ground.now → IsPart k → IsRoot k at root.entry
        → direct_of (type_at k.setting.table root.entry.of.0) ≡ None
        → (due : List Due) (rest : List Entry) (names : Placed_cells)
        → walker.old.cells.pending.items ≡ [] → IsAwaiting k walker.old (due_root at ∷ due) rest names
        → IsErrOf result halts.Here → IsEnded k walker.new.progress }
{
    let home = Home::Root(at);
    let from = None;
    walk_home(
        ground,
        walker,
        home,
        HomeName::Word(root.name),
        root.of,
        &from,
    )?;
    Ok(())
}

// What a top-level reference pointer refers to.
fn direct_referent(interface: &Interface, of: TypeId) -> Option<TypeId>
    ensures { result ≡ direct_of (type_at interface.now.types of.0) }
{
    match interface.types.get(of.0 as usize) {
        Some(
            TypeDef::Pointer {
                class: Class::Ref,
                to,
            },
        ) => Some(*to),
        _ => None,
    }
}

// Walks over the referent of a top-level reference pointer.
fn walk_direct<'a>(
    ground: &Ground<'a>,
    walker: &mut Walker<'a>,
    at: u32,
    to: TypeId,
) -> Result<(), Halt>
    ensures goes { (k : Known) → IsGround k ground.now → IsPart k → (root : Root) → slice_get (root_list k.setting) at ≡ Some root
        → type_at k.setting.table root.of ≡ Some (def.Pointer Ref to) → (due : List Due) (rest : List Entry) (names : Placed_cells)
        → walker.old.cells.pending.items ≡ [] → IsAwaiting k walker.old (due_root at ∷ due) rest names
        → IfOk result (λ _. IsAwaiting k walker.new due rest names) }
    ensures ends { (k : Known) → IsGround k ground.now → IsPart k → (root : Root) → slice_get (root_list k.setting) at ≡ Some root
        → type_at k.setting.table root.of ≡ Some (def.Pointer Ref to) → (due : List Due) (rest : List Entry) (names : Placed_cells)
        → walker.old.cells.pending.items ≡ [] → IsAwaiting k walker.old (due_root at ∷ due) rest names
        → IsErrOf result halts.Here → IsEnded k walker.new.progress }
{
    at_end(ground, &walker.progress)?;
    let cell = new_cell(&mut walker.cells);
    come_to(&mut walker.cells, cell)?;
    note_direct(&mut walker.search, cell);
    let from = Some(PointerSpot {
        home: Home::Root(at),
        node: 0,
        variable: Octets::new(ground.alloc),
    });
    walk_home(
        ground,
        walker,
        Home::Cell(cell),
        HomeName::Cell(cell),
        to,
        &from,
    )?;
    Ok(())
}

// Walks over the value of a home. The pointers that it has are then pending, the first of them as the last.
fn walk_home<'a>(
    ground: &Ground<'a>,
    walker: &mut Walker<'a>,
    home: Home,
    name: HomeName<'a>,
    of: TypeId,
    from: &Option<PointerSpot>,
) -> Result<(), Halt>
    ensures goes { (k : Known) → IsGround k ground.now → HasHome k home name.entry of.0 → IsFrom k home from.now
        → (rest : List Entry) (names : Placed_cells) → IsTracing k walker.old.progress (home_due k home of.0 ++ rest)
        → IsNaming k walker.old.cells (names_in (home_due k home of.0) ++ names)
        → IfOk result (λ _. IsTracing k walker.new.progress rest × HasPassed k walker.old.cells walker.new.cells (home_due k home of.0) names) }
    ensures ends { (k : Known) → IsGround k ground.now → HasHome k home name.entry of.0 → IsFrom k home from.now
        → (rest : List Entry) (names : Placed_cells) → IsTracing k walker.old.progress (home_due k home of.0 ++ rest)
        → IsNaming k walker.old.cells (names_in (home_due k home of.0) ++ names)
        → IsErrOf result halts.Here → IsEnded k walker.new.progress }
    ensures paid { IfOk result (λ _. IsPaid walker.old walker.new) }
{
    let before = walker.cells.pending.len();
    let max = front(ground, walker, home, name, of, from)?;
    walk_level(ground, walker, home, name, max, from, Level::Whole { of })?;
    close(ground, &mut walker.search, 0)?;
    turn(&mut walker.cells.pending, before);
    Ok(())
}

// The maximum count in front of a home's value, or 0 where none is there.
fn front<'a>(
    ground: &Ground<'a>,
    walker: &mut Walker<'a>,
    home: Home,
    name: HomeName<'a>,
    of: TypeId,
    from: &Option<PointerSpot>,
) -> Result<u32, Halt>
    ensures goes { (k : Known) → IsGround k ground.now → HasHome k home name.entry of.0 → IsFrom k home from.now → (rest : List Entry)
        → IsTracing k walker.old.progress (home_due k home of.0 ++ rest)
        → IfOk result (λ max. IsTracing k walker.new.progress (values_due k home (of.0 ∷ []) 0 (more (home_value k.graph home) none) ++ rest)
        × IsFront k home of.0 max) }
    ensures ends { (k : Known) → IsGround k ground.now → HasHome k home name.entry of.0 → IsFrom k home from.now → (rest : List Entry)
        → IsTracing k walker.old.progress (home_due k home of.0 ++ rest) → IsErrOf result halts.Here → IsEnded k walker.new.progress }
    ensures cells { walker.new.cells ≡ walker.old.cells }
    ensures later { IfOk result (λ _. walker.old.progress.next ≤ walker.new.progress.next) }
{
    if !ground.interface.hoists(of) {
        return Ok(0);
    }
    at_end(ground, &walker.progress)?;
    let below = Vec::new(ground.alloc);
    let spot = Spot {
        home,
        name,
        top: Level::Whole { of },
        below: &below,
        from,
    };
    gap(ground, &mut walker.progress, 4, &spot)?;
    let max = count(ground, &mut walker.progress, &spot)?;
    Ok(max)
}

// Turns the order of the pointers from a place on.
fn turn(pending: &mut Vec<Pending>, from: usize)
    ensures turned { from ≤ length pending.old.items → pending.new.items ≡ take from pending.old.items ++ reverse (drop from pending.old.items) }
    ensures same { length pending.new.items ≡ length pending.old.items }
{
    if from <= pending.len() {
        pending.as_mut_slice()[from..].reverse();
    }
}

// Walks over the referents that are pending, each followed by those that it makes due.
fn walk_referents<'a>(ground: &Ground<'a>, walker: &mut Walker<'a>) -> Result<(), Halt>
    ensures goes { (k : Known) → IsGround k ground.now → IsPart k → (due : List Due) (rest : List Entry) (names : Placed_cells)
        → IsAwaiting k walker.old due rest names
        → IfOk result (λ _. (walker.new.cells.pending.items ≡ []) × IsAwaiting k walker.new due rest names) }
    ensures ends { (k : Known) → IsGround k ground.now → IsPart k → (due : List Due) (rest : List Entry) (names : Placed_cells)
        → IsAwaiting k walker.old due rest names → IsErrOf result halts.Here → IsEnded k walker.new.progress }
{
    while let Some(next) = walker.cells.pending.pop() {
        walk_referent(ground, walker, next)?;
        has_64_bits(walker.progress.next);
    }
    Ok(())
}

// A number of items is below 2^64.
fn has_64_bits(items: usize)
    ensures { items < 2 ^ 64 }
{}

// Walks over the referent of a pointer, unless it was come to before.
fn walk_referent<'a>(
    ground: &Ground<'a>,
    walker: &mut Walker<'a>,
    next: Pending,
) -> Result<(), Halt>
    ensures goes { (k : Known) → IsGround k ground.now → IsPart k → (due : List Due) (rest : List Entry) (names : Placed_cells)
        → IsNext k walker.old next due rest names → IfOk result (λ _. IsAwaiting k walker.new due rest names) }
    ensures ends { (k : Known) → IsGround k ground.now → IsPart k → (due : List Due) (rest : List Entry) (names : Placed_cells)
        → IsNext k walker.old next due rest names → IsErrOf result halts.Here → IsEnded k walker.new.progress }
    ensures paid { IfOk result (λ _. IsPaid walker.old walker.new) }
{
    let first = come_to(&mut walker.cells, next.cell)?;
    if !first {
        return Ok(());
    }
    walk_home(
        ground,
        walker,
        Home::Cell(next.cell),
        HomeName::Cell(next.cell),
        next.to,
        &next.from,
    )?;
    Ok(())
}
