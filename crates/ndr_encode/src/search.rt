// The homes of a graph in the order of the stream, with the octets that they have.
ghost use Rattle.std.specs.Prelude.{◌≡◌, ◌+◌, ◌<◌, ◌≤◌, ◌^◌, [], ◌∷◌, true, false, length, replicate, set, OnOk, IfOk, IfSome, IfNone};
ghost use Rattle.std.specs.List.{AllByRecursion, slice_get};
ghost use Rattle.nd_value.specs.Seen.{cell_number};
ghost use Rattle.nd_value.specs.declared.item.Home.TheVariants as home;
ghost use Rattle.nd_flat.specs.Building.{HasHome};
ghost use Rattle.ndr_encoder_laws.specs.turns.Turned.{root_due, direct_due};
ghost use Rattle.ndr_encoder_laws.specs.chosen.Written.{value_at};
ghost use Rattle.ndr_encode.specs.Search.{IsFresh, IsTaken, CanTake, CanSearch, StillSearched, CanRoot, RootTaken, CanItem, ItemTaken, called_run};
ghost use Rattle.ndr_encode.specs.Search.{direct_run, unplaced, pending_names, unmarked, first_cell};

use crate::numbering::{number, settle};
use nd_base::{Memory, push};
use nd_flat::Fit;
use nd_value::{CellId, Home};
use ndr_code::Instr;
use ndr_encoder_laws::Frames;
use ndr_encoder_output::{Count, Known, Named};
use ndr_encoder_value::{Turn, write_home};
use std::alloc::Global;

// How far the search has come: the turns so far, the numbers of the cells that are named and how many these are, the cells that have their turn, and
// the octets so far. The names that are kept with these are the referents that are pending, the next one last.
#[derive(Drop)]
pub(crate) struct Search {
    pub(crate) turns: Vec<Turn>,
    pub(crate) numbers: Vec<u32>,
    pub(crate) named: u32,
    pub(crate) placed: Vec<bool>,
    pub(crate) known: Known,
    pub(crate) frames: Frames,
    pub(crate) count: Count,
}

// No home has its turn, and no cell is named.
pub(crate) fn begin(alloc: Global, cells: usize, roots: usize) -> Result<Search, Memory>
    requires { cells < 2 ^ 32 }
    ensures { IfOk result (λ s. IsFresh cells s) }
{
    Ok(Search {
        turns: Vec::with_capacity(alloc, cells.saturating_add(roots))?,
        numbers: vec![in alloc; 0; cells + 1]?,
        named: 0,
        placed: vec![in alloc; false; cells + 1]?,
        known: Known::new(),
        frames: Frames::new(),
        count: Count {
            at: 0,
            names: Vec::new(alloc),
        },
    })
}

// A home takes its turn: its octets are counted, the cells that its pointers name have their numbers, and are pending before the others.
#[inline(always)]
pub(crate) fn take_turn(
    search: &mut Search,
    code: &[Instr],
    chunk: u32,
    fit: &Fit,
    turn: Turn,
) -> Result<(), Memory>
    requires { CanTake code.now chunk fit.now.graph turn search.old }
    ensures { OnOk result (IsTaken code.now chunk fit.now.graph turn search.old search.new) }
{
    let Ok(()) = push(&mut search.turns, turn) else {
        return Err(Memory);
    };
    let before = search.count.names.len();
    write_home(
        code,
        0,
        chunk,
        turn,
        fit,
        &mut search.known,
        &mut search.frames,
        &mut search.count,
    )?;
    settle(
        before,
        &mut search.count.names,
        &mut search.numbers,
        &mut search.named,
    );
    Ok(())
}

// A cell has its turn.
#[inline(always)]
fn mark(cell: CellId, placed: &mut Vec<bool>)
    requires { cell.0 < length placed.old.items }
    ensures { placed.new.items ≡ set placed.old.items cell.0 true }
{
    placed[cell.0 as usize] = true;
}

// Takes pending referents up to the first that has no turn yet, if there is one.
#[inline(always)]
fn next_unplaced(placed: &[bool], pending: &mut Vec<Named>) -> Option<Named>
    requires { AllByRecursion (λ x. x.0 < length placed.now) (pending_names pending.old.items) }
    ensures some { IfSome result (λ d. unplaced placed.now (pending_names pending.old.items) ≡ (d.cell.0, d.run) ∷ pending_names pending.new.items) }
    ensures none { IfNone result (unplaced placed.now (pending_names pending.old.items) ≡ []) }
    ensures over { IfNone result (pending.new.items ≡ []) }
{
    while let Some(named) = pending.pop() {
        if !placed[named.cell.0 as usize] {
            return Some(named);
        }
    }
    None
}

// The next pending referent that has no turn yet takes its turn; whether there was one.
#[inline(always)]
fn next_referent(search: &mut Search, code: &[Instr], chunk: u32, fit: &Fit) -> Result<bool, Memory>
    requires { CanSearch code.now chunk fit.now.graph search.old }
    ensures searched { OnOk result (StillSearched code.now chunk fit.now.graph search.old search.new) }
    ensures more { IfOk result (λ more. more ≡ true → unmarked search.new.placed.items < unmarked search.old.placed.items) }
    ensures over { IfOk result
        (λ more. more ≡ false → (search.new.count.names.items ≡ []) × (unmarked search.new.placed.items ≤ unmarked search.old.placed.items)) }
{
    let Some(named) = next_unplaced(search.placed.as_slice(), &mut search.count.names) else {
        return Ok(false);
    };
    mark(named.cell, &mut search.placed);
    let turn = Turn {
        home: Home::Cell(named.cell),
        start: named.run,
    };
    take_turn(search, code, chunk, fit, turn)?;
    Ok(true)
}

// The pending referents take their turns, and those that they make pending.
pub(crate) fn referents(
    search: &mut Search,
    code: &[Instr],
    chunk: u32,
    fit: &Fit,
) -> Result<(), Memory>
    requires { CanSearch code.now chunk fit.now.graph search.old }
    ensures searched { OnOk result (StillSearched code.now chunk fit.now.graph search.old search.new) }
    ensures over { OnOk result (search.new.count.names.items ≡ []) }
{
    let mut more = true;
    while more {
        more = next_referent(search, code, chunk, fit)?;
    }
    Ok(())
}

// The cell that a root names.
fn direct_cell(fit: &Fit, root: u32) -> Option<CellId>
    requires { HasHome fit.now.graph (home.Root root) }
    ensures { cell_number result ≡ first_cell (value_at fit.now.graph (home.Root root)) }
{
    let mut walk = fit.walk(Home::Root(root));
    match walk.step() {
        Some(seen) => seen.named_cell(),
        None => None,
    }
}

// The instruction at an address, if there is one.
fn instr_at(code: &[Instr], at: usize) -> Option<Instr>
    ensures { result ≡ slice_get code.now at }
{
    code.get(at).copied()
}

// The run of a root that is written as it is, by the first instruction of its own run.
fn called(instr: &Option<Instr>) -> Option<u32>
    ensures { result ≡ called_run instr.now }
{
    match instr {
        Some(Instr::Call { run }) => Some(*run),
        _ => None,
    }
}

// The run of a root whose referent is written in its place.
fn directed(instr: &Option<Instr>) -> Option<u32>
    ensures { result ≡ direct_run instr.now }
{
    match instr {
        Some(Instr::Direct { to: _to, run }) => Some(*run),
        _ => None,
    }
}

// A root takes its turn. No referent is pending.
fn own_root(
    search: &mut Search,
    code: &[Instr],
    chunk: u32,
    fit: &Fit,
    root: u32,
    run: u32,
) -> Result<(), Memory>
    requires { CanItem code.now chunk fit.now.graph (root_due root run) search.old }
    ensures { OnOk result (ItemTaken code.now chunk fit.now.graph (root_due root run) search.old search.new) }
{
    let turn = Turn {
        home: Home::Root(root),
        start: run,
    };
    take_turn(search, code, chunk, fit, turn)?;
    Ok(())
}

// The referent that a root names takes its turn. No referent is pending.
fn direct_root(
    search: &mut Search,
    code: &[Instr],
    chunk: u32,
    fit: &Fit,
    root: u32,
    run: u32,
) -> Result<(), Memory>
    requires { CanItem code.now chunk fit.now.graph (direct_due root run) search.old }
    ensures { OnOk result (ItemTaken code.now chunk fit.now.graph (direct_due root run) search.old search.new) }
{
    let Some(cell) = direct_cell(fit, root) else {
        unreachable!()
    };
    number(cell, &mut search.numbers, &mut search.named);
    mark(cell, &mut search.placed);
    let turn = Turn {
        home: Home::Cell(cell),
        start: run,
    };
    take_turn(search, code, chunk, fit, turn)?;
    Ok(())
}

// A root that is no pipe takes its turn by the first instruction of its run: as it is, or the referent that it names in its place. No referent is
// pending.
pub(crate) fn root(
    search: &mut Search,
    code: &[Instr],
    chunk: u32,
    fit: &Fit,
    root: u32,
    at: u32,
) -> Result<(), Memory>
    requires { CanRoot code.now chunk fit.now.graph root (slice_get code.now at) search.old }
    ensures { OnOk result (RootTaken code.now chunk fit.now.graph root (slice_get code.now at) search.old search.new) }
{
    let first = instr_at(code, at as usize);
    if let Some(run) = called(&first) {
        own_root(search, code, chunk, fit, root, run)?;
        return Ok(());
    }
    let Some(direct) = directed(&first) else {
        unreachable!()
    };
    direct_root(search, code, chunk, fit, root, direct)?;
    Ok(())
}
