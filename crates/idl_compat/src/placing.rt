// Pairs of types, placed one after the other.
ghost use Rattle.std.specs.Prelude.{◌≡◌, ◌⊎◌, ◌<◌, ℕ, List, Option, Some, None, true, false, length, slice_index_or, IfOk};
ghost use Rattle.idl_compat.specs.Placing.{IsPaired, IsPlacing, IsEmptyPairing};
ghost use Rattle.idl_compat.specs.Matching.{Meets};
ghost use Rattle.idl_compat.specs.Asking.{Includes};

use crate::partners::Partners;
use crate::{TypePair, TypePairs};
use nd_base::Memory;
use nd_types::{BASIC_TYPES, Interface, TypeId};
use std::alloc::Global;

/// The pairs of types that are placed so far, and by them the partners of the old types and of the new ones.
#[derive(Drop)]
pub struct Pairing {
    /// The pairs, in the order in which they were placed.
    pub pairs: TypePairs,
    /// The partners of the old types.
    pub forward: Partners,
    /// The partners of the new types.
    pub backward: Partners,
}

/// What placing a pair comes to.
#[derive(Clone, Copy, Debug, PartialEq, Eq)]
pub enum Placing {
    /// One of the types has another partner, or may have none but itself.
    Clash,
    /// The pair was placed before.
    Already,
    /// The pair was added.
    Added,
}

// Whether one of two types may have no partner but itself, and they differ.
fn are_other_basic(old: TypeId, new: TypeId) -> bool
    ensures other { result ≡ true → ((old.0 < 12) ⊎ (new.0 < 12)) × (old.0 ≡ new.0 → ⊥) }
    ensures same { result ≡ false → (old.0 < 12) ⊎ (new.0 < 12) → old.0 ≡ new.0 }
{
    old.0 != new.0 && (old.0 < BASIC_TYPES || new.0 < BASIC_TYPES)
}

impl Pairing {
    /// No pairs yet of the types of two interfaces. Running out of memory is the only refusal.
    pub fn new(alloc: Global, old: &Interface, new: &Interface) -> Result<Pairing, Memory>
        ensures { IfOk result (IsEmptyPairing old.now new.now) }
    {
        Ok(Pairing {
            pairs: TypePairs::new(alloc),
            forward: Partners::none(alloc, old.types.len())?,
            backward: Partners::none(alloc, new.types.len())?,
        })
    }

    // A pair of two types of which the old one has no partner yet.
    fn place_first(&mut self, pair: TypePair) -> Result<Placing, Memory>
        ensures { IsPaired self.old → slice_index_or self.old.forward pair.old.0 None ≡ None
            → IfOk result (IsPlacing self.old self.new pair.old.0 pair.new.0) }
    {
        if pair.old.0 as usize >= self.forward.len() || pair.new.0 as usize >= self.backward.len() {
            return Ok(Placing::Clash);
        }
        if are_other_basic(pair.old, pair.new) {
            return Ok(Placing::Clash);
        }
        if self.backward.of(pair.new).is_some() {
            return Ok(Placing::Clash);
        }
        let Ok(()) = self.pairs.push(pair) else {
            return Err(Memory);
        };
        self.forward.set(pair.old, pair.new);
        self.backward.set(pair.new, pair.old);
        Ok(Placing::Added)
    }

    /// Places a pair of two types, which may take memory. Running out of memory is the only refusal.
    pub fn place(&mut self, pair: TypePair) -> Result<Placing, Memory>
        ensures { IsPaired self.old → IfOk result (IsPlacing self.old self.new pair.old.0 pair.new.0) }
    {
        match self.forward.of(pair.old) {
            Some(partner) => {
                if partner == pair.new.0 {
                    Ok(Placing::Already)
                } else {
                    Ok(Placing::Clash)
                }
            }
            None => self.place_first(pair),
        }
    }

    // All pairs that are wanted, or false where they clash.
    pub(crate) fn place_all(&mut self, wanted: &TypePairs) -> Result<bool, Memory>
        ensures { IsPaired self.old → IfOk result (Meets (λ m. Includes m wanted.now) self.old self.new) }
    {
        for at in 0..wanted.len() {
            let Some(pair) = wanted.get(at) else {
                return Ok(false);
            };
            if self.place(*pair)? == Placing::Clash {
                return Ok(false);
            }
        }
        Ok(true)
    }
}
