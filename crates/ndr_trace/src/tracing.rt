// The trace of octets that are refused.
ghost use Rattle.std.specs.Prelude.{◌≡◌, ◌<◌, ◌++◌, ℕ, List, codes, length, Some, option_map, IfOk, None};
ghost use Rattle.std.specs.List.{slice_get};
ghost use Rattle.nd_types.specs.declared.types.Operation.{Operation};
ghost use Rattle.nd_types.specs.Number.{AreOctets};
ghost use Rattle.nd_value.specs.Fitting.{setting_beside};
ghost use Rattle.nd_value.specs.Request.{IsRequestOf};
ghost use Rattle.nd_value.specs.Setting.{Setting};
ghost use Rattle.nd_grammar.specs.Refusal.{Bad};
ghost use Rattle.nd_grammar.specs.Items.{items as items_of};
ghost use Rattle.nd_grammar.specs.LegalSide.{IsLegalSide};
ghost use Rattle.ndr_decoder_laws.specs.verdict.InOrder.{HasOwnNumbers};
ghost use Rattle.ndr_trace.specs.Homes.{IsPart};
ghost use Rattle.ndr_trace.specs.Sides.{IsBeginning, IsFinished, IsSide, IsStream};
ghost use Rattle.ndr_trace_value.specs.Attributes.{IsKeptName, IsOwnName, IsPointedName, IsPointedPath};
ghost use Rattle.ndr_trace_value.specs.Traces.{IsTraceOf};
ghost use Rattle.ndr_trace_value.specs.Tracing.{IsEnded, IsGround, Known};

use crate::sides::walk_side;
use nd_base::{Memory, Octets, Order};
use nd_flat::Fit;
use nd_grammar::Reason;
use nd_types::{Interface, Side};
use nd_value::ItemLog;
use ndr_refs::Referents;
use ndr_trace_value::{
    Cells, Ground, Halt, PointerSpot, Progress, Search, Sought, Walker, find_agreement,
    variable_path,
};
use std::alloc::Global;

/// The trace of octets that are refused.
#[derive(Drop)]
pub struct Traced {
    /// A line for each item before the fault, as an explanation has it; a gap whose octets are not all zero shows them, as in `6 2 gap x"00a1"`.
    pub lines: Octets,
    /// The path of the value that is refused or lacks octets. At a failed agreement that of the value that disagrees, a blank, and the path of the
    /// variable that states the number.
    pub path: Octets,
}

/// Traces octets that are refused at a place, for a reason (C706, chapter 14). The octets must begin with those that `decode` fetched, and the items
/// be those that it logged.
///
/// It takes memory for the lines and the path, for the levels of the types that are open, and for the pointers whose referents were not read yet;
/// out of memory is the only error. The time is in proportion to the items and the lines.
pub fn trace(
    alloc: Global,
    interface: &Interface,
    op: u32,
    side: Side,
    given: Option<&Fit>,
    order: Order,
    octets: &[u8],
    items: &ItemLog,
    place: u32,
    why: Reason,
) -> Result<Traced, Memory>
    requires known { op < length interface.now.operations }
    requires request { IsRequestOf interface.now op side (option_map (λ f. f.now) given) }
    ensures { IfOk result (λ t. (o : Operation) → slice_get interface.now.operations op ≡ Some o
        → let w : Setting = setting_beside interface.now o side (option_map (λ f. f.now.graph) given.entry) in IsLegalSide w
        → (fetched more : List ℕ) → octets.now ≡ fetched ++ more → (bad : Bad w order fetched place why) → HasOwnNumbers bad.partial bad.entries
        → items.now.items ≡ items_of order fetched bad.earlier → IsTraceOf w order fetched place why bad t.lines t.path) }
{
    are_octets(octets);
    let sought = find_agreement(items, place, why);
    let ground = Ground {
        alloc,
        interface,
        op,
        side,
        given,
        order,
        octets,
        items,
        sought,
    };
    let walker = walk(&ground)?;
    let traced = finish(&ground, walker)?;
    Ok(traced)
}

// Octets are numbers below 256.
fn are_octets(octets: &[u8])
    ensures { AreOctets octets.now }
{}

// A walk over the items to their end.
fn walk<'a>(ground: &Ground<'a>) -> Result<Walker<'a>, Memory>
    requires known { ground.now.op < length ground.now.interface.now.operations }
    ensures { (k : Known) → IsGround k ground.now → IsPart k → IsSide k ground.now → IsStream k → IfOk result (λ w. IsEnded k w.progress) }
{
    let mut walker = begin(ground.alloc);
    match walk_side(ground, &mut walker) {
        Ok(()) => Ok(walker),
        Err(Halt::Here) => Ok(walker),
        Err(Halt::Memory) => Err(Memory),
    }
}

// A walk at its beginning.
fn begin<'a>(alloc: Global) -> Walker<'a>
    ensures { IsBeginning result }
{
    Walker {
        progress: Progress {
            next: 0,
            at: 0,
            lines: Octets::new(alloc),
            path: Octets::new(alloc),
            variable: Octets::new(alloc),
            from: None,
        },
        cells: Cells {
            count: 0,
            numbers: Referents::new(alloc),
            pending: Vec::new(alloc),
            stands: Vec::new(alloc),
        },
        search: Search {
            stated: Vec::new(alloc),
            open: Vec::new(alloc),
            roots: Vec::new(alloc),
            cell_numbers: Vec::new(alloc),
        },
    }
}

// The lines, and the path at which the walk ended; where an agreement fails, a blank and the path of the variable follow.
fn finish<'a>(ground: &Ground<'a>, walker: Walker<'a>) -> Result<Traced, Memory>
    ensures lines { IfOk result (λ t. t.lines ≡ walker.entry.progress.lines) }
    ensures path { IfOk result (λ t. IsFinished ground.now ground.now.sought walker.entry.progress t.path) }
{
    let Walker {
        progress,
        search,
        ..
    } = walker;
    let Progress {
        lines,
        path,
        variable,
        from,
        ..
    } = progress;
    match ground.sought {
        Some(sought) => finish_at(ground, &search, sought, lines, path, &variable, &from),
        None => Ok(Traced { lines, path }),
    }
}

// The same where an agreement fails.
fn finish_at(
    ground: &Ground<'_>,
    search: &Search<'_>,
    sought: Sought,
    lines: Octets,
    path: Octets,
    kept: &Octets,
    from: &Option<PointerSpot>,
) -> Result<Traced, Memory>
    ensures lines { IfOk result (λ t. t.lines ≡ lines) }
    ensures path { IfOk result (λ t. (variable : List ℕ) × IsOwnName ground.now sought variable × IsKeptName ground.now sought kept.now variable
        × IsPointedName ground.now sought from.now kept.now variable × IsPointedPath ground.now sought from.now kept.now variable
        × (t.path ≡ path ++ (codes " " ++ variable))) }
{
    let variable = variable_path(ground, search, sought, kept, from)?;
    let mut path = path;
    path.append(b" ")?;
    path.append(variable.as_slice())?;
    Ok(Traced { lines, path })
}
