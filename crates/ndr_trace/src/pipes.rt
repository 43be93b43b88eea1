// Pipes, chunk by chunk.
ghost use Rattle.std.specs.Prelude.{◌≡◌, ◌≤◌, ◌+◌, ◌*◌, ◌++◌, ℕ, List, option_map, IfOk, IsErrOf};
ghost use Rattle.nd_types.specs.Table.{type_at};
ghost use Rattle.nd_value.specs.declared.item.Home.TheVariants as homes;
ghost use Rattle.nd_value.specs.Deferral.{Placed_cells};
ghost use Rattle.nd_value.specs.Setting.{root_at};
ghost use Rattle.nd_value.specs.Tree.{count as count_of};
ghost use Rattle.nd_grammar.specs.Entry.{Entry};
ghost use Rattle.nd_grammar.specs.Stream.{Cuts, kids_of, pipe_entries};
ghost use Rattle.ndr_explain.specs.Cursors.{pipe_element};
ghost use Rattle.ndr_trace_value.specs.Untested.{untested};
ghost use Rattle.ndr_trace_value.specs.declared.progress.Halt.TheVariants as halts;
ghost use Rattle.ndr_trace.specs.Homes.{IsRoot, IsPart};
ghost use Rattle.ndr_trace.specs.Chunks.{AfterChunk, IsAtChunk};
ghost use Rattle.ndr_trace_value.specs.Left.{least_items};
ghost use Rattle.ndr_trace_value.specs.Naming.{IsNaming, names_in};
ghost use Rattle.ndr_trace_value.specs.Tracing.{IsEnded, IsGround, IsTracing, Known};

use nd_types::{Interface, RootDef, TypeDef, TypeId};
use nd_value::Home;
use ndr_explain::{HomeName, Level};
use ndr_trace_value::{Ground, Halt, Spot, Walker, at_end, count, gap, walk_level};

/// Walks over the chunks of a pipe.
pub(crate) fn walk_pipe<'a>(
    ground: &Ground<'a>,
    walker: &mut Walker<'a>,
    at: u32,
    root: RootDef<'a>,
) -> Result<(), Halt>
    ensures goes { (k : Known) → IsGround k ground.now → IsPart k → IsRoot k at root.entry → (cut : List ℕ)
        → Cuts (count_of (kids_of (root_at k.graph at))) cut → (rest : List Entry) (names : Placed_cells)
        → let due : List Entry = untested (pipe_entries k.setting.table (homes.Root at) (type_at k.setting.table root.entry.of.0) cut
        (root_at k.graph at)) in
        IsTracing k walker.old.progress (due ++ rest) → IsNaming k walker.old.cells (names_in due ++ names)
        → IfOk result (λ _. IsTracing k walker.new.progress rest × IsNaming k walker.new.cells names) }
    ensures ends { (k : Known) → IsGround k ground.now → IsPart k → IsRoot k at root.entry → (cut : List ℕ)
        → Cuts (count_of (kids_of (root_at k.graph at))) cut → (rest : List Entry) (names : Placed_cells)
        → let due : List Entry = untested (pipe_entries k.setting.table (homes.Root at) (type_at k.setting.table root.entry.of.0) cut
        (root_at k.graph at)) in
        IsTracing k walker.old.progress (due ++ rest) → IsNaming k walker.old.cells (names_in due ++ names)
        → IsErrOf result halts.Here → IsEnded k walker.new.progress }
{
    at_end(ground, &walker.progress)?;
    let Some(elem) = pipe_elem(ground.interface, root.of) else {
        return Ok(());
    };
    let mut before = 0u32;
    // Each chunk but the last one has an element, and each element an item.
    for _chunk in 0..u64::MAX {
        let size = walk_chunk(ground, walker, at, root, elem, before)?;
        if size == 0 {
            return Ok(());
        }
        let Some(next) = before.checked_add(size) else {
            return Err(Halt::Here);
        };
        before = next;
    }
    unreachable!()
}

// The type of the elements of a pipe.
fn pipe_elem(interface: &Interface, of: TypeId) -> Option<TypeId>
    ensures { option_map (λ t. t.0) result ≡ pipe_element (type_at interface.now.types of.0) }
{
    match interface.types.get(of.0 as usize) {
        Some(TypeDef::Pipe { elem }) => Some(*elem),
        _ => None,
    }
}

// Walks over the next chunk of a pipe, which has so many elements before it. Gives how many it has, 0 at the pipe's end.
fn walk_chunk<'a>(
    ground: &Ground<'a>,
    walker: &mut Walker<'a>,
    at: u32,
    root: RootDef<'a>,
    elem: TypeId,
    before: u32,
) -> Result<u32, Halt>
    ensures goes { (k : Known) → IsGround k ground.now → (rest : List Entry) (names : Placed_cells)
        → (g : IsAtChunk k (homes.Root at) root.entry.name.now elem.0 before rest names walker.old)
        → IfOk result (λ size. AfterChunk k (homes.Root at) root.entry.name.now elem.0 before rest names walker.new size) }
    ensures ends { (k : Known) → IsGround k ground.now → (rest : List Entry) (names : Placed_cells)
        → (g : IsAtChunk k (homes.Root at) root.entry.name.now elem.0 before rest names walker.old)
        → IsErrOf result halts.Here → IsEnded k walker.new.progress }
    ensures taken { IfOk result (λ size. size * least_items ground.now.interface.now.types elem.0 + walker.old.progress.next
        ≤ walker.new.progress.next) }
{
    let home = Home::Root(at);
    let name = HomeName::Word(root.name);
    let below = Vec::new(ground.alloc);
    let from = None;
    let spot = Spot {
        home,
        name,
        top: Level::Whole { of: root.of },
        below: &below,
        from: &from,
    };
    gap(ground, &mut walker.progress, 4, &spot)?;
    let size = count(ground, &mut walker.progress, &spot)?;
    if size == 0 {
        return Ok(0);
    }
    let elements = Level::Elements {
        of: elem,
        offset: before,
        at: 0,
        size,
    };
    walk_level(ground, walker, home, name, 0, &from, elements)?;
    Ok(size)
}
