// An output that counts octets, and keeps what pointers name.
ghost use Rattle.std.specs.Prelude.{◌≡◌, ◌<◌, ◌*◌, ◌++◌, OnOk};
ghost use Rattle.nd_value.specs.Seen.{cell_number};
ghost use Rattle.ndr_encoder_laws.specs.pieces.Pieces.{named_cell};
ghost use Rattle.ndr_encoder_output.specs.Counting.{names_of};
ghost use Rattle.nd_types.specs.Table.{width};
ghost use Rattle.nd_grammar.specs.Entry.{gap};

use crate::output::Output;
use nd_base::{Memory, push};
use nd_flat::Row;
use nd_types::Prim;
use nd_value::CellId;
use ndr_prim::width_of;
use uuid::Uuid;

/// What a pointer that is not null names: its cell, and the address of the whole run of its referent's type.
#[derive(Clone, Copy)]
pub struct Named {
    pub cell: CellId,
    pub run: u32,
}

/// A count of octets, and what the pointers among them name, in their order. Null pointers are left out.
#[derive(Drop)]
pub struct Count {
    pub at: u128,
    pub names: Vec<Named>,
}

// The length of the gap up to the next multiple; of a multiple of a number that alignments have no division is needed.
#[inline(always)]
fn gap_of(at: u128, to: u8) -> u128
    requires { 0 < to }
    ensures { result ≡ gap at to }
{
    match to {
        1 => 0,
        2 => (2 - at % 2) % 2,
        4 => (4 - at % 4) % 4,
        8 => (8 - at % 8) % 8,
        _ => {
            let to = u128::from(to);
            (to - at % to) % to
        }
    }
}

// The length of a row after its gap.
fn row_length(prim: Prim, count: u32) -> u128
    ensures { result ≡ count * width prim }
{
    u128::from(count) * width_of(prim) as u128
}

// What a pointer names, after what others named.
#[inline(always)]
fn keep(names: &mut Vec<Named>, cell: Option<CellId>, run: u32) -> Result<(), Memory>
    ensures { OnOk result (names_of names.new.items ≡ names_of names.old.items ++ named_cell (cell_number cell) run) }
{
    let Some(cell) = cell else {
        return Ok(());
    };
    let Ok(()) = push(names, Named { cell, run }) else {
        return Err(Memory);
    };
    Ok(())
}

impl Output for Count {
    ghost use Rattle.std.specs.Prelude.{true};
    ghost use Rattle.ndr_encoder_output.specs.Counting.{count_whole, CountCan, names_of};

    ghost can = { λ s ps. CountCan s.at ps };

    ghost whole = { λ s ps. count_whole s.at (names_of s.names.items) ps };

    ghost may_fail = { true };

    #[inline(always)]
    fn gap(&mut self, to: u8) {
        let size = gap_of(self.at, to);
        if size == 0 {
            return;
        }
        self.at = self.at + size;
    }

    #[inline(always)]
    fn figure(&mut self, prim: Prim, value: i128) {
        let _ = value;
        self.at = self.at + width_of(prim) as u128;
    }

    #[inline(always)]
    fn four(&mut self, value: u32) {
        let _ = value;
        self.at = self.at + 4;
    }

    fn text(&mut self, octets: &[u8]) {
        self.at = self.at + 4 + (octets.len() as u128 + 1);
    }

    fn row(&mut self, prim: Prim, row: &Row<'_>) {
        let start = self.at + gap_of(self.at, width_of(prim) as u8);
        self.at = start + row_length(prim, row.count);
    }

    fn handle(&mut self, attributes: u32, id: Uuid) {
        let _ = attributes;
        let _ = id;
        self.at = self.at + 20;
    }

    #[inline(always)]
    fn name(&mut self, cell: Option<CellId>, run: u32) -> Result<(), Memory> {
        keep(&mut self.names, cell, run)?;
        self.at = self.at + 4;
        Ok(())
    }
}
