// Pairs of types that are placed one after the other, each with how it was come to.
ghost use Rattle.std.specs.Prelude.{◌≡◌, ◌≤◌, ℕ, true, false, IfOk, Some, length, slice_get};
ghost use Rattle.nd_types.specs.declared.interface.Interface.{Interface as TheInterface};
ghost use Rattle.idl_compat.specs.declared.pairs.TypePair.{TypePair as Pair};
ghost use Rattle.idl_compat.specs.Comparison.{IsPair};
ghost use Rattle.idl_compat_place.specs.declared.origins.Origin.{Origin as TheOrigin};
ghost use Rattle.idl_compat_place.specs.declared.origins.Origin.TheVariants as origins;
ghost use Rattle.idl_compat_place.specs.Differences.{AreClashing};
ghost use Rattle.idl_compat_place.specs.Trails.{IsTrail, IsOrigin, AreOtherBasic, IsOther, IsPlaced, IsPath, Walks, IsWalkedTo};
ghost use Rattle.idl_compat_place.specs.Trails.{IsOriginBefore, AreBefore, ComesTo};

use crate::origins::{Origin, Origins};
use crate::{Place, Steps};
use idl_compat::{Pairing, Placing, TypePair};
use nd_base::Memory;
use nd_types::{BASIC_TYPES, Interface};
use std::alloc::Global;

// The pairs of types that are placed so far, and the origin of each by its number.
#[derive(Drop)]
pub(crate) struct Trail {
    pub(crate) pairing: Pairing,
    pub(crate) origins: Origins,
}

// Where a walk ends: two types that cannot be partners, how they were come to, and the pair with which theirs clashes, or None where they differ by
// themselves.
#[derive(Clone, Copy, Debug, PartialEq, Eq)]
pub(crate) struct End {
    pub(crate) pair: TypePair,
    pub(crate) origin: Origin,
    pub(crate) other: Option<usize>,
}

// What is found at a part of two operations.
#[derive(Clone, Copy, Debug, PartialEq, Eq)]
pub(crate) enum Found {
    // The numbers of parameters differ.
    Counts,
    // The parts differ, whatever types are paired.
    Parts,
    // The walk from the types of the parts ends.
    Ends(End),
}

// A part of two operations, with what is found at it.
#[derive(Clone, Copy, Debug, PartialEq, Eq)]
pub(crate) struct Finding {
    pub(crate) op: usize,
    pub(crate) part: usize,
    pub(crate) found: Found,
}

// Whether two pairs share one of their types and not the other.
fn are_clashing(pair: TypePair, other: TypePair) -> bool
    ensures clashing { result ≡ true → AreClashing pair other }
    ensures not { result ≡ false → AreClashing pair other → ⊥ }
{
    (pair.old.0 == other.old.0) != (pair.new.0 == other.new.0)
}

// Whether two types differ of which one has no partner but itself.
fn are_other_basic(pair: TypePair) -> bool
    ensures { result ≡ true → AreOtherBasic pair }
{
    pair.old.0 != pair.new.0 && (pair.old.0 < BASIC_TYPES || pair.new.0 < BASIC_TYPES)
}

impl Trail {
    // No pairs yet of the types of two interfaces. Running out of memory is the only refusal.
    pub(crate) fn new(alloc: Global, old: &Interface, new: &Interface) -> Result<Trail, Memory>
        ensures { IfOk result (IsWalkedTo old.now new.now 0 0) }
    {
        Ok(Trail {
            pairing: Pairing::new(alloc, old, new)?,
            origins: Origins::new(alloc),
        })
    }

    // The first pair that shares one of its types with this one and not the other. None also where these types differ by themselves, as one of them
    // has no partner but itself.
    fn other(&self, pair: TypePair) -> Option<usize>
        ensures { IsOther self.now.pairing.pairs pair result }
    {
        if are_other_basic(pair) {
            return None;
        }
        for at in 0..self.pairing.pairs.len() {
            let Some(other) = self.pairing.pairs.get(at) else {
                return None;
            };
            if are_clashing(pair, *other) {
                return Some(at);
            }
        }
        None
    }

    // Places a pair. None where it is placed now, or was before; else where the walk ends.
    pub(crate) fn place(&mut self, pair: TypePair, origin: Origin) -> Result<Option<End>, Memory>
        ensures walks { (old new : TheInterface) (k n base : ℕ) → IsTrail old new k n base self.old → base ≤ length self.old.pairing.pairs
            → IsOrigin old new k n base self.old.pairing.pairs (length self.old.pairing.pairs) pair origin
            → IfOk result (Walks old new k n base (λ m. IsPair m pair.old.0 pair.new.0) self.old self.new) }
        ensures order { (base : ℕ) (next : TheOrigin) → AreBefore base self.old.origins origin → IsOriginBefore origin next
            → IfOk result (ComesTo base self.new.origins next) }
    {
        match self.pairing.place(pair)? {
            Placing::Already => Ok(None),
            Placing::Added => {
                self.origins.push(origin)?;
                Ok(None)
            }
            Placing::Clash => Ok(Some(End {
                pair,
                origin,
                other: self.other(pair),
            })),
        }
    }

    // The origin of the pair of a number.
    pub(crate) fn origin(&self, number: usize) -> Origin
        ensures { (g : TheOrigin) → slice_get self.now.origins number ≡ Some g → result ≡ g }
    {
        match self.origins.get(number) {
            Some(origin) => *origin,
            None => Origin::Part { op: 0, part: 0 },
        }
    }

    // The place of a pair with its origin: steps back to the part of an operation from which it was come to. Each pair was come to from an
    // earlier one, so there are at most as many steps as pairs.
    pub(crate) fn place_of(&self, alloc: Global, origin: Origin) -> Result<Place, Memory>
        ensures { (old new : TheInterface) (k n base before : ℕ) (pair : Pair) → IsTrail old new k n base self.now
            → before ≤ length self.now.pairing.pairs → IsOrigin old new k n base self.now.pairing.pairs before pair origin
            → IfOk result (λ place. IsPlaced old new k n base before place pair
            × IsPath self.now.origins origin place.op place.part place.steps) }
    {
        let mut steps = Steps::new(alloc);
        let mut origin = origin;
        for _turn in 0..self.origins.len() {
            match origin {
                Origin::Part { op, part } => return Ok(Place { op, part, steps }),
                Origin::Step { from, step } => {
                    steps.push(step)?;
                    origin = self.origin(from);
                }
            }
        }
        Ok(placed(origin, steps))
    }
}

// The place of steps from a part.
fn placed(origin: Origin, steps: Steps) -> Place
    ensures { (op part : ℕ) → origin ≡ origins.Part op part → result ≡ record { op = op; part = part; steps = steps } }
{
    match origin {
        Origin::Part { op, part } => Place { op, part, steps },
        Origin::Step { .. } => Place {
            op: 0,
            part: 0,
            steps,
        },
    }
}
