// Two interfaces are walked, part by part, up to the first part that differs.
ghost use Rattle.std.specs.Prelude.{◌≡◌, ◌+◌, ◌≤◌, ◌<◌, ℕ, length, Some, None, slice_get, IfOk};
ghost use Rattle.nd_types.specs.declared.interface.Interface.{Interface as TheInterface};
ghost use Rattle.nd_types.specs.Table.{type_at};
ghost use Rattle.idl_compat.specs.declared.pairs.TypePair.{TypePair as Pair};
ghost use Rattle.idl_compat.specs.Comparison.{AlikeTypes, AllAlike, IsPair};
ghost use Rattle.idl_compat.specs.Matching.{AreExpanded};
ghost use Rattle.idl_compat_place.specs.Trails.{IsChildPaired, ArePartsPaired, AreChildrenPaired, IsTrail, IsOrigin, IsEnd, IsWalkedTo, Walks};
ghost use Rattle.idl_compat_place.specs.Trails.{WalksFrom, WalksPart, WalksParams, WalksOperation, WalksAll};
ghost use Rattle.idl_compat_place.specs.Trails.{IsOriginBefore, AreBefore, AreInOrder, ComesTo};
ghost use Rattle.idl_compat_place.specs.declared.origins.Origin.{Origin as TheOrigin};
ghost use Rattle.idl_compat_place.specs.declared.origins.Origin.TheVariants as origins;
ghost use Rattle.idl_compat_place.specs.declared.steps.Step.TheVariants as steps;
ghost use Rattle.idl_compat_place.specs.Differences.{AreUnlike};

use crate::Step;
use crate::children::{child, part_count};
use crate::origins::Origin;
use crate::trail::{End, Finding, Found, Trail};
use crate::wanted::{Wanted, are_other_types, wanted_parts};
use idl_compat::TypePair;
use nd_base::Memory;
use nd_types::{Interface, TypeDef};
use std::alloc::Global;

impl Trail {
    // Places the pair of the types to which a step leads from those of the pair of a number, where it leads to types.
    fn walk_child(
        &mut self,
        from: usize,
        step: Step,
        older: &TypeDef,
        newer: &TypeDef,
    ) -> Result<Option<End>, Memory>
        ensures walks { (i j : TheInterface) (k n base : ℕ) (pair : Pair) → IsTrail i j k n base self.old → base ≤ from
            → slice_get self.old.pairing.pairs from ≡ Some pair
            → type_at i.types pair.old.0 ≡ Some older.now → type_at j.types pair.new.0 ≡ Some newer.now
            → IfOk result (Walks i j k n base (IsChildPaired older.now newer.now step) self.old self.new) }
        ensures order { (base : ℕ) (next : TheOrigin) → AreBefore base self.old.origins (origins.Step from step)
            → IsOriginBefore (origins.Step from step) next → IfOk result (ComesTo base self.new.origins next) }
    {
        let Some(to) = child(older, step) else {
            return Ok(None);
        };
        let Some(other) = child(newer, step) else {
            return Ok(None);
        };
        let pair = TypePair {
            old: to,
            new: other,
        };
        let end = self.place(pair, Origin::Step { from, step })?;
        Ok(end)
    }

    // The same of all parts.
    fn walk_parts(
        &mut self,
        from: usize,
        older: &TypeDef,
        newer: &TypeDef,
    ) -> Result<Option<End>, Memory>
        ensures walks { (i j : TheInterface) (k n base : ℕ) (pair : Pair) → IsTrail i j k n base self.old → base ≤ from
            → slice_get self.old.pairing.pairs from ≡ Some pair
            → type_at i.types pair.old.0 ≡ Some older.now → type_at j.types pair.new.0 ≡ Some newer.now
            → IfOk result (Walks i j k n base (ArePartsPaired older.now newer.now) self.old self.new) }
        ensures order { (base : ℕ) → AreBefore base self.old.origins (origins.Step from (steps.Nth 0))
            → IfOk result (ComesTo base self.new.origins (origins.Step from steps.Default)) }
    {
        for number in 0..part_count(older) {
            if let Some(end) = self.walk_child(from, Step::Nth(number), older, newer)? {
                return Ok(Some(end));
            }
        }
        Ok(None)
    }

    // The same of all types that the two types name.
    fn walk_children(
        &mut self,
        from: usize,
        older: &TypeDef,
        newer: &TypeDef,
    ) -> Result<Option<End>, Memory>
        ensures walks { (i j : TheInterface) (k n base : ℕ) (pair : Pair) → IsTrail i j k n base self.old → base ≤ from
            → slice_get self.old.pairing.pairs from ≡ Some pair
            → type_at i.types pair.old.0 ≡ Some older.now → type_at j.types pair.new.0 ≡ Some newer.now
            → IfOk result (Walks i j k n base (AreChildrenPaired older.now newer.now) self.old self.new) }
        ensures order { (base : ℕ) → AreBefore base self.old.origins (origins.Step from (steps.Nth 0))
            → IfOk result (ComesTo base self.new.origins (origins.Step (from + 1) (steps.Nth 0))) }
    {
        if let Some(end) = self.walk_parts(from, older, newer)? {
            return Ok(Some(end));
        }
        if let Some(end) = self.walk_child(from, Step::Default, older, newer)? {
            return Ok(Some(end));
        }
        let end = self.walk_child(from, Step::Tag, older, newer)?;
        Ok(end)
    }

    // Where a walk ends at the types of the pair of a number.
    fn end_at(&self, number: usize, pair: TypePair) -> End
        ensures ends { (old new : TheInterface) (k n base : ℕ) → IsTrail old new k n base self.now → base ≤ number
            → slice_get self.now.pairing.pairs number ≡ Some pair → AreUnlike old new pair → IsEnd old new k n base self.now result }
        ensures alone { result.other ≡ None }
    {
        End {
            pair,
            origin: self.origin(number),
            other: None,
        }
    }

    // Places the pairs that the types of the pair of a number ask for.
    fn walk_pair(
        &mut self,
        alloc: Global,
        number: usize,
        pair: TypePair,
        older: &Interface,
        newer: &Interface,
    ) -> Result<Option<End>, Memory>
        ensures walks { (k n base : ℕ) → IsTrail older.now newer.now k n base self.old → base ≤ number
            → slice_get self.old.pairing.pairs number ≡ Some pair
            → IfOk result (Walks older.now newer.now k n base
            (λ m. AlikeTypes (IsPair m) (type_at older.now.types pair.old.0) (type_at newer.now.types pair.new.0)) self.old self.new) }
        ensures order { (base : ℕ) → AreBefore base self.old.origins (origins.Step number (steps.Nth 0))
            → IfOk result (ComesTo base self.new.origins (origins.Step (number + 1) (steps.Nth 0))) }
    {
        let Some(definition) = older.types.get(pair.old.0 as usize) else {
            return Ok(Some(self.end_at(number, pair)));
        };
        let Some(other) = newer.types.get(pair.new.0 as usize) else {
            return Ok(Some(self.end_at(number, pair)));
        };
        if are_other_types(alloc, definition, other)? {
            return Ok(Some(self.end_at(number, pair)));
        }
        let end = self.walk_children(number, definition, other)?;
        Ok(end)
    }

    // Walks the types of all pairs from a number on, with those that are added for them. There are at most as many pairs as old types.
    fn walk_types(
        &mut self,
        alloc: Global,
        from: usize,
        older: &Interface,
        newer: &Interface,
    ) -> Result<Option<End>, Memory>
        ensures walks { (k n base : ℕ) → IsTrail older.now newer.now k n base self.old → base ≤ from
            → AreExpanded older.now.types newer.now.types self.old.pairing.pairs from
            → IfOk result (Walks older.now newer.now k n base (AllAlike older.now.types newer.now.types) self.old self.new) }
        ensures order { (base : ℕ) → AreBefore base self.old.origins (origins.Step from (steps.Nth 0))
            → IfOk result (AreInOrder base self.new.origins) }
    {
        for at in from..older.types.len() {
            let Some(pair) = self.pairing.pairs.get(at) else {
                return Ok(None);
            };
            let pair = *pair;
            if let Some(end) = self.walk_pair(alloc, at, pair, older, newer)? {
                return Ok(Some(end));
            }
        }
        Ok(None)
    }

    // Walks from the types of a part.
    fn walk_from(
        &mut self,
        alloc: Global,
        pair: TypePair,
        origin: Origin,
        older: &Interface,
        newer: &Interface,
    ) -> Result<Option<Found>, Memory>
        ensures { (k n : ℕ) → IsTrail older.now newer.now k n (length self.old.pairing.pairs) self.old
            → AllAlike older.now.types newer.now.types self.old.pairing.pairs
            → IsOrigin older.now newer.now k n (length self.old.pairing.pairs) self.old.pairing.pairs (length self.old.pairing.pairs) pair origin
            → IfOk result (WalksFrom older.now newer.now k n pair self.old self.new) }
    {
        let from = self.pairing.pairs.len();
        if let Some(end) = self.place(pair, origin)? {
            return Ok(Some(Found::Ends(end)));
        }
        match self.walk_types(alloc, from, older, newer)? {
            Some(end) => Ok(Some(Found::Ends(end))),
            None => Ok(None),
        }
    }

    // Walks one part of two operations of a number.
    fn walk_part(
        &mut self,
        alloc: Global,
        op: usize,
        part: usize,
        older: &Interface,
        newer: &Interface,
    ) -> Result<Option<Found>, Memory>
        ensures { IsWalkedTo older.now newer.now op part self.old → IfOk result (WalksPart older.now newer.now op part self.new) }
    {
        let Some(operation) = older.operations.get(op) else {
            return Ok(Some(Found::Parts));
        };
        let Some(other) = newer.operations.get(op) else {
            return Ok(Some(Found::Parts));
        };
        match wanted_parts(alloc, operation, other, part)? {
            Wanted::Other => Ok(Some(Found::Parts)),
            Wanted::Nothing => Ok(None),
            Wanted::Types(pair) => {
                self.walk_from(alloc, pair, Origin::Part { op, part }, older, newer)
            }
        }
    }

    // Walks the parameters of two operations of a number that have so many each.
    fn walk_params(
        &mut self,
        alloc: Global,
        op: usize,
        count: usize,
        older: &Interface,
        newer: &Interface,
    ) -> Result<Option<Finding>, Memory>
        ensures { op < length older.now.operations → IsWalkedTo older.now newer.now op 0 self.old
            → IfOk result (WalksParams older.now newer.now op count self.new) }
    {
        for part in 0..count {
            if let Some(found) = self.walk_part(alloc, op, part, older, newer)? {
                return Ok(Some(Finding { op, part, found }));
            }
        }
        Ok(None)
    }

    // Walks the parameters of two operations of a number, and then their results.
    fn walk_operation(
        &mut self,
        alloc: Global,
        op: usize,
        older: &Interface,
        newer: &Interface,
    ) -> Result<Option<Finding>, Memory>
        ensures { op < length older.now.operations → IsWalkedTo older.now newer.now op 0 self.old
            → IfOk result (WalksOperation older.now newer.now op self.new) }
    {
        let counts = Finding {
            op,
            part: 0,
            found: Found::Counts,
        };
        let Some(operation) = older.operations.get(op) else {
            return Ok(Some(counts));
        };
        let Some(other) = newer.operations.get(op) else {
            return Ok(Some(counts));
        };
        let count = operation.params.len();
        if other.params.len() != count {
            return Ok(Some(counts));
        }
        if let Some(finding) = self.walk_params(alloc, op, count, older, newer)? {
            return Ok(Some(finding));
        }
        match self.walk_part(alloc, op, count, older, newer)? {
            Some(found) => Ok(Some(Finding {
                op,
                part: count,
                found,
            })),
            None => Ok(None),
        }
    }

    // Walks all operations of an old interface.
    pub(crate) fn walk(
        &mut self,
        alloc: Global,
        older: &Interface,
        newer: &Interface,
    ) -> Result<Option<Finding>, Memory>
        ensures { IsWalkedTo older.now newer.now 0 0 self.old → IfOk result (WalksAll older.now newer.now self.new) }
    {
        for op in 0..older.operations.len() {
            if let Some(finding) = self.walk_operation(alloc, op, older, newer)? {
                return Ok(Some(finding));
            }
        }
        Ok(None)
    }
}
