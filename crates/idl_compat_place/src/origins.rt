// How pairs of types were come to. Contracts see a list of origins as a list.
ghost use Rattle.std.specs.Prelude.{◌≡◌, ◌++◌, [], ◌∷◌, length, slice_get, Some, None, OnOk, OnErr, IfSome, IfNone};

use crate::Step;
use nd_base::Memory;
use std::alloc::Global;
use std::marker::Model;

// How a pair of types was come to.
#[derive(Clone, Copy, Debug, PartialEq, Eq)]
pub(crate) enum Origin {
    // The types are those of a part of an operation.
    Part { op: usize, part: usize },
    // A step leads to them from the types of the pair of this number.
    Step { from: usize, step: Step },
}

// The origins of pairs, by the pairs' numbers.
#[derive(Drop)]
pub(crate) struct Origins {
    items: Vec<Origin>,
}

impl Model for Origins {
    ghost use Rattle.std.specs.Prelude.{List};
    ghost use Rattle.idl_compat_place.specs.declared.origins.Origin.{Origin};

    ghost Value = { List Origin };

    ghost view = { λ o. o.items.items };
}

impl Origins {
    // An empty list. It allocates nothing.
    pub(crate) fn new(alloc: Global) -> Origins
        ensures { result ≡ [] }
    {
        Origins {
            items: Vec::new(alloc),
        }
    }

    // Appends an origin, which may take memory.
    pub(crate) fn push(&mut self, origin: Origin) -> Result<(), Memory>
        ensures { OnOk result (self.new ≡ self.old ++ origin ∷ []) }
    {
        match self.items.push(origin) {
            Ok(()) => Ok(()),
            Err(_) => Err(Memory),
        }
    }

    // The number of origins.
    pub(crate) fn len(&self) -> usize
        ensures { result ≡ length self.now }
    {
        self.items.len()
    }

    // The origin at a place, from 0, or None past the last.
    pub(crate) fn get(&self, at: usize) -> Option<&Origin>
        ensures some { IfSome result (λ origin. slice_get self.now at ≡ Some origin.now) }
        ensures none { IfNone result (slice_get self.now at ≡ None) }
    {
        self.items.get(at)
    }
}
