// What the agreements of parameters are tried with.
ghost use Rattle.std.specs.Prelude.{◌≡◌, slice_get};
ghost use Rattle.nd_value.specs.Seen.{cell_number};
ghost use Rattle.ndr_decoder_laws.specs.steps.Steps.{is_owing};
ghost use Rattle.ndr_decoder_laws.specs.stream.Parameters.{kept_named, kept_number, root_number as number_of_root, root_subject};

use crate::Stream;
use nd_value::CellId;
use ndr_decoder_laws::{First, Kept};

impl Stream {
    /// The number that a root is, or with a star that in the cell that it names; none if it is no number, or is not read. Takes no memory.
    pub fn root_number(&self, root: u32, star: bool) -> Option<i128>
        ensures { result ≡ number_of_root self.now.cells.items star (slice_get self.now.roots.items root) }
    {
        let Some(kept) = self.roots.as_slice().get(root as usize) else {
            return None;
        };
        if star {
            let cell = kept.cell;
            return number_in(self.kept_named(cell));
        }
        let own = kept.own;
        number_in(Some(own))
    }

    /// What the agreements of a root are about: of a pointer its referent, of a null pointer nothing. Takes no memory.
    pub fn subject(&self, root: u32) -> Option<Kept>
        ensures { result ≡ root_subject self.now.cells.items (slice_get self.now.roots.items root) }
    {
        let Some(kept) = self.roots.as_slice().get(root as usize) else {
            return None;
        };
        let own = kept.own;
        if is_pointer(own.first) {
            let cell = kept.cell;
            return self.kept_named(cell);
        }
        Some(own)
    }

    // What is kept of the cell that a root names.
    fn kept_named(&self, cell: Option<CellId>) -> Option<Kept>
        ensures { result ≡ kept_named self.now.cells.items (cell_number cell) }
    {
        match cell {
            Some(cell) => self.kept_cell(cell),
            None => None,
        }
    }
}

fn is_pointer(first: First) -> bool
    ensures { result ≡ is_owing first }
{
    match first {
        First::Pointer => true,
        First::Number(_)
        | First::Counted {
            max: _,
            offset: _,
            actual: _,
            place: _,
        }
        | First::Tag { tag: _, place: _ }
        | First::Other => false,
    }
}

fn number_in(kept: Option<Kept>) -> Option<i128>
    ensures { result ≡ kept_number kept }
{
    let Some(kept) = kept else {
        return None;
    };
    match kept.first {
        First::Number(number) => Some(number),
        First::Pointer
        | First::Counted {
            max: _,
            offset: _,
            actual: _,
            place: _,
        }
        | First::Tag { tag: _, place: _ }
        | First::Other => None,
    }
}
