// Numbers by places.
ghost use Rattle.std.specs.Prelude.{◌≡◌, [], ◌∷◌, ◌++◌, Some, None, OnOk};
ghost use Rattle.idl_declared_types.specs.Places.{found_place};

use indexmap::IndexMap;
use nd_base::{Memory, Place};
use std::alloc::Global;
use std::marker::Model;

/// A place as a key.
#[derive(Clone, Copy, Debug, PartialEq, Eq, Hash)]
struct Spot {
    file: u16,
    at: u32,
}

/// Numbers by places, in the order in which the places came. Contracts see it as that list.
#[derive(Drop)]
pub struct Places {
    entries: IndexMap<Spot, usize>,
}

impl Model for Places {
    ghost use Rattle.std.specs.Prelude.{List, ℕ};
    ghost use Rattle.nd_base.specs.declared.octets.Place.{Place};
    ghost use Rattle.idl_declared_types.specs.Places.{numbered};

    ghost Value = { List (Place × ℕ) };

    ghost view = { λ p. numbered p.entries.entries };
}

impl Places {
    /// No places. It allocates nothing.
    pub fn new(alloc: Global) -> Places
        ensures { result ≡ [] }
    {
        Places {
            entries: IndexMap::new(alloc),
        }
    }

    /// The number of a place, if it is there.
    pub fn get(&self, place: Place) -> Option<usize>
        ensures { result ≡ found_place place self.now }
    {
        let spot = Spot {
            file: place.file,
            at: place.at,
        };
        self.entries.get(&spot).copied()
    }

    /// Gives a place that is not there its number. Takes memory for it.
    pub fn put(&mut self, place: Place, number: usize) -> Result<(), Memory>
        requires { found_place place self.old ≡ None }
        ensures { OnOk result (self.new ≡ self.old ++ (place, number) ∷ []) }
    {
        let spot = Spot {
            file: place.file,
            at: place.at,
        };
        let Ok(_) = self.entries.insert(spot, number) else {
            return Err(Memory);
        };
        Ok(())
    }
}
