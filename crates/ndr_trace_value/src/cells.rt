// The cells that pointers name.
ghost use Rattle.std.specs.Prelude.{◌≡◌, ◌≤◌, ◌+◌, ◌^◌, ◌-◌, ◌++◌, ◌∷◌, [], ℕ, List, Option, not, true, min, length, option_map, IfErr, IfOk, OnOk};
ghost use Rattle.nd_types.specs.declared.types.Class.TheVariants as classes;
ghost use Rattle.nd_value.specs.Deferral.{Placed_cells};
ghost use Rattle.nd_grammar.specs.Entry.{Entry, Number};
ghost use Rattle.nd_grammar.specs.Stream.{IsNumber};
ghost use Rattle.ndr_trace_value.specs.declared.progress.Halt.TheVariants as halts;
ghost use Rattle.ndr_trace_value.specs.Naming.{HasNamed, IsFine, IsNaming, named_by, names_of, only_spot, stands_at};
ghost use Rattle.ndr_trace_value.specs.Tracing.{Known};

use crate::pointers::PointerSpot;
use crate::progress::Halt;
use nd_base::Memory;
use nd_types::{Class, TypeId};
use nd_value::CellId;
use ndr_refs::{RefFault, Referents};

/// A pointer whose referent was not come to yet.
#[derive(Drop)]
pub struct Pending {
    pub cell: CellId,
    pub to: TypeId,
    /// Where the pointer is, if it is the only one that names the cell.
    pub from: Option<PointerSpot>,
}

/// The cells that are named so far.
#[derive(Drop)]
pub struct Cells {
    pub count: u32,
    pub numbers: Referents,
    pub pending: Vec<Pending>,
    /// Whether the value of each cell was come to, by the cells' numbers; past the end none was.
    pub stands: Vec<bool>,
}

/// A cell more.
pub fn new_cell(cells: &mut Cells) -> CellId
    ensures count { cells.new.count ≡ result.0 }
    ensures next { result.0 ≡ min (cells.old.count + 1) (2 ^ 32 - 1) }
    ensures numbers { cells.new.numbers ≡ cells.old.numbers }
    ensures pending { cells.new.pending ≡ cells.old.pending }
    ensures stands { cells.new.stands ≡ cells.old.stands }
{
    cells.count = cells.count.saturating_add(1);
    CellId(cells.count)
}

/// Notes that the value of a cell is come to. Whether it was not before.
pub fn come_to(cells: &mut Cells, cell: CellId) -> Result<bool, Memory>
    ensures first { IfOk result (λ first. first ≡ not (stands_at cells.old.stands.items cell.0)) }
    ensures stands { OnOk result (stands_at cells.new.stands.items cell.0 ≡ true) }
    ensures others { OnOk result ((c : ℕ) → (c ≡ cell.0 → ⊥) → stands_at cells.new.stands.items c ≡ stands_at cells.old.stands.items c) }
    ensures count { OnOk result (cells.new.count ≡ cells.old.count) }
    ensures numbers { OnOk result (cells.new.numbers ≡ cells.old.numbers) }
    ensures pending { OnOk result (cells.new.pending ≡ cells.old.pending) }
{
    let at = cell.0 as usize;
    reach_to(&mut cells.stands, at)?;
    Ok(mark(&mut cells.stands, at))
}

// Makes room up to a place.
fn reach_to(stands: &mut Vec<bool>, at: usize) -> Result<(), Memory>
    ensures room { OnOk result (at + 1 ≤ length stands.new.items) }
    ensures same { OnOk result ((c : ℕ) → stands_at stands.new.items c ≡ stands_at stands.old.items c) }
{
    while stands.len() <= at {
        let Ok(()) = stands.push(false) else {
            return Err(Memory);
        };
    }
    Ok(())
}

// Sets the mark at a place. Whether it was not set.
fn mark(stands: &mut Vec<bool>, at: usize) -> bool
    requires { at + 1 ≤ length stands.old.items }
    ensures first { result ≡ not (stands_at stands.old.items at) }
    ensures set { stands_at stands.new.items at ≡ true }
    ensures others { (c : ℕ) → (c ≡ at → ⊥) → stands_at stands.new.items c ≡ stands_at stands.old.items c }
{
    let stood = stands[at];
    stands[at] = true;
    !stood
}

/// The cell that a pointer's number names; its referent is then pending.
pub fn name_cell(
    cells: &mut Cells,
    class: Class,
    to: TypeId,
    number: u32,
    from: Option<PointerSpot>,
) -> Result<Option<CellId>, Halt>
    ensures names { (k : Known) (x : Option ℕ) (m : Entry) (names : Placed_cells) → m.kind ≡ Number class to.0 x
        → from ≡ only_spot k class m.home m.node → IsNaming k cells.old (named_by m.kind ++ names)
        → IsNumber k.numbering class x number → IsFine k.graph class to.0 x
        → IfOk result (λ r. (option_map (λ c. c.0) r ≡ x) × HasNamed k cells.old cells.new (m ∷ []) names) }
    ensures paid { OnOk result (length cells.new.pending.items ≤ length cells.old.pending.items + 1) }
    ensures memory { IfErr result (λ e. e ≡ halts.Memory) }
{
    let named = named(cells, class, to, number)?;
    let Some(cell) = named else {
        return Ok(None);
    };
    let Ok(()) = cells.pending.push(Pending { cell, to, from }) else {
        return Err(Halt::Memory);
    };
    Ok(named)
}

// The cell that a pointer's number names.
fn named(cells: &mut Cells, class: Class, to: TypeId, number: u32) -> Result<Option<CellId>, Halt>
    ensures names { (k : Known) (x : Option ℕ) (names : Placed_cells) → IsNaming k cells.old (names_of class x ++ names)
        → IsNumber k.numbering class x number
        → IsFine k.graph class to.0 x → IfOk result (λ r. (option_map (λ c. c.0) r ≡ x) × IsNaming k cells.new names) }
    ensures memory { IfErr result (λ e. e ≡ halts.Memory) }
    ensures pending { cells.new.pending ≡ cells.old.pending }
    ensures stands { cells.new.stands ≡ cells.old.stands }
{
    match class {
        Class::Ref => Ok(Some(new_cell(cells))),
        Class::Unique => Ok(unique_cell(cells, number)),
        Class::Full => full_cell(cells, to, number),
    }
}

// The cell of a unique pointer's number.
fn unique_cell(cells: &mut Cells, number: u32) -> Option<CellId>
    ensures names { (k : Known) (x : Option ℕ) (names : Placed_cells) → IsNaming k cells.old (names_of classes.Unique x ++ names)
        → IsNumber k.numbering classes.Unique x number → (option_map (λ c. c.0) result ≡ x) × IsNaming k cells.new names }
    ensures pending { cells.new.pending ≡ cells.old.pending }
    ensures stands { cells.new.stands ≡ cells.old.stands }
{
    if number == 0 {
        return None;
    }
    Some(new_cell(cells))
}

// The cell of a full pointer's number.
fn full_cell(cells: &mut Cells, to: TypeId, number: u32) -> Result<Option<CellId>, Halt>
    ensures names { (k : Known) (x : Option ℕ) (names : Placed_cells) → IsNaming k cells.old (names_of classes.Full x ++ names)
        → IsNumber k.numbering classes.Full x number → IsFine k.graph classes.Full to.0 x
        → IfOk result (λ r. (option_map (λ c. c.0) r ≡ x) × IsNaming k cells.new names) }
    ensures memory { IfErr result (λ e. e ≡ halts.Memory) }
    ensures pending { cells.new.pending ≡ cells.old.pending }
    ensures stands { cells.new.stands ≡ cells.old.stands }
{
    if number == 0 {
        return Ok(None);
    }
    let next = CellId(cells.count.saturating_add(1));
    match cells.numbers.meet(number, to, next) {
        Ok(cell) => {
            cells.count = cells.count.max(cell.0);
            Ok(Some(cell))
        }
        Err(RefFault::Memory) => Err(Halt::Memory),
        Err(RefFault::OtherType { .. }) => Ok(None),
    }
}
