// What is kept of homes.
ghost use Rattle.std.specs.Prelude.{◌≡◌, ◌<◌, List, None, map, OnOk, IfSome, true};
ghost use Rattle.nd_value.specs.Seen.{cell_number};
ghost use Rattle.ndr_decoder_state.specs.Seen.{owed_of};
ghost use Rattle.ndr_decoder_state.specs.declared.machine.Wanted.{Wanted};
ghost use Rattle.ndr_decoder_laws.specs.stream.Between.{CellKept, kept_at, named_by};
ghost use Rattle.ndr_decoder_stream.specs.Entries.{counts_kept, plain};
ghost use Rattle.ndr_decoder_stream.specs.Seen.{HasOwn, KeepsOthers};

use crate::Stream;
use crate::cells::{Counts, counts_of};
use nd_base::Memory;
use nd_value::CellId;
use ndr_decoder_laws::{First, Kept};
use ndr_decoder_state::{Machine, Owed};

// What is kept of the home that was read.
#[inline(always)]
pub(crate) fn kept_home(machine: &Machine) -> Kept
    ensures { HasOwn machine.now result }
{
    let first = match machine.own {
        Some(first) => first,
        None => First::Other,
    };
    Kept {
        first,
        max_at: machine.max_at,
    }
}

// Whether no agreement can speak of the first node of the home that was read, and no maximum count is before it.
#[inline(always)]
pub(crate) fn is_plain_home(machine: &Machine) -> bool
    ensures { result ≡ true → HasOwn machine.now plain }
{
    match machine.own {
        Some(First::Other) => machine.max_at.is_none(),
        _ => false,
    }
}

// The counts of the home that was read, if they are side by side.
#[inline(always)]
pub(crate) fn home_counts(machine: &Machine) -> Option<Counts>
    ensures { IfSome result (λ n. HasOwn machine.now (counts_kept n)) }
{
    match machine.own {
        Some(first) => counts_of(first, machine.max_at),
        None => None,
    }
}

// The cell that a home names whose first node this is: if that is a pointer, it is the first of those that the home makes due.
#[inline(always)]
pub(crate) fn named_cell(first: First, fresh: &[Owed]) -> Option<CellId>
    ensures { (ws : List Wanted) → cell_number result ≡ named_by first (map (owed_of ws) fresh.now) }
{
    let First::Pointer = first else {
        return None;
    };
    match fresh.first() {
        Some(owed) => owed.cell,
        None => None,
    }
}

impl Stream {
    /// What is kept of a cell; none if it was not read. Takes no memory.
    #[inline(always)]
    pub fn kept_cell(&self, cell: CellId) -> Option<Kept>
        ensures { result ≡ kept_at self.now.cells.items cell.0 }
    {
        if cell.0 == 0 {
            return None;
        }
        self.cells.get(cell.0 as usize - 1)
    }

    /// Keeps what is needed of a cell that was read now. It takes memory, and out of memory is the only refusal.
    pub fn keep_cell(&mut self, cell: CellId, kept: Kept) -> Result<(), Memory>
        requires there { 0 < cell.0 }
        requires unread { kept_at self.old.cells.items cell.0 ≡ None }
        ensures kept { OnOk result (CellKept cell.0 kept self.old.cells.items self.new.cells.items) }
        ensures others { KeepsOthers self.old self.new }
    {
        self.cells.keep(cell, kept)
    }
}
