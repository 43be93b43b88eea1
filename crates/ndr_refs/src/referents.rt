// Cells by the numbers of full pointers.
ghost use Rattle.std.specs.Prelude.{◌≡◌, ◌<◌, [], not, length};
ghost use Rattle.ndr_refs.specs.Known.{IsKnown, IsMet, IsTurn};

use indexmap::IndexMap;
use nd_types::TypeId;
use nd_value::CellId;
use std::alloc::Global;
use std::marker::Model;
use thiserror::Error;

/// What is known of a number: the cell that it names, the cell's type, and whether the referent was represented.
#[derive(Clone, Copy, Debug, PartialEq, Eq, Drop)]
pub struct Known {
    pub cell: CellId,
    pub of: TypeId,
    pub represented: bool,
}

/// Why a number names no cell.
#[derive(Clone, Copy, Debug, PartialEq, Eq, Error)]
pub enum RefFault {
    /// An allocation failed.
    #[error("out of memory")]
    Memory,
    /// The number already stands for a referent of another type: `first` is the earlier type, `second` the later.
    #[error("a pointer's number stands for a referent of another type")]
    OtherType { first: TypeId, second: TypeId },
}

/// The cells that the numbers of full pointers name (C706, 14.3.11): two full pointers with one number name one object, which is
/// represented once. Contracts see a list of the numbers in the order in which they were first met, each once, with what is known of
/// each. Each call takes constant time, amortised.
#[derive(Drop)]
pub struct Referents {
    entries: IndexMap<u32, Known>,
}

impl Model for Referents {
    ghost use Rattle.std.specs.Prelude.{List, ℕ};
    ghost use Rattle.ndr_refs.specs.declared.referents.Known.{Known};

    ghost Value = { List (ℕ × Known) };

    ghost view = { λ r. r.entries.entries };
}

impl Referents {
    /// No numbers. It allocates nothing.
    pub fn new(alloc: Global) -> Referents
        ensures { result ≡ [] }
    {
        Referents {
            entries: IndexMap::new(alloc),
        }
    }

    /// How many numbers were met. Takes no memory.
    pub fn len(&self) -> usize
        ensures { result ≡ length self.now }
    {
        self.entries.len()
    }

    /// The cell of a full pointer's number, which must not be 0, for a referent of a type. A number that is not known yet is kept with
    /// the cell `next`, as not represented; a known number of the same type has its cell. `OtherType` is answered exactly if the number
    /// is known with another type. A new number takes memory; `Memory` is answered only for a new number. After an error nothing has
    /// changed.
    pub fn meet(&mut self, number: u32, of: TypeId, next: CellId) -> Result<CellId, RefFault>
        requires not_null { 0 < number }
        ensures { IsMet number of next self.old result self.new }
    {
        match self.entries.get(&number).copied() {
            Some(known) => match_type(known, of),
            None => self.keep(number, of, next),
        }
    }

    /// Whether this is the first turn of a known number: true exactly if its referent was not represented yet. From then on it is
    /// represented. Takes no memory.
    pub fn turn(&mut self, number: u32) -> bool
        requires known { IsKnown number self.old }
        ensures { IsTurn number self.old result self.new }
    {
        let Some(at) = self.entries.get_index_of(&number) else {
            unreachable!();
        };
        let (_, known) = self.entries.pair_mut(at);
        let first = !known.represented;
        known.represented = true;
        first
    }

    // Keeps a number that is not known.
    fn keep(&mut self, number: u32, of: TypeId, next: CellId) -> Result<CellId, RefFault>
        requires { IsNew number self.old }
        ensures { IsKept number of next self.old result self.new }
    {
        let known = Known {
            cell: next,
            of,
            represented: false,
        };
        let Ok(_) = self.entries.insert(number, known) else {
            return Err(RefFault::Memory);
        };
        Ok(next)
    }
}

ghost use Rattle.ndr_refs.specs.Known.{IsNew, IsKept, Matches};

// The cell of a known number, if it is of this type.
fn match_type(known: Known, of: TypeId) -> Result<CellId, RefFault>
    ensures { Matches known of result }
{
    if known.of == of {
        Ok(known.cell)
    } else {
        Err(RefFault::OtherType {
            first: known.of,
            second: of,
        })
    }
}
