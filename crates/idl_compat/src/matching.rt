// The types and operations of two interfaces, matched with one another.
ghost use Rattle.std.specs.Prelude.{◌≡◌, ◌≤◌, ℕ, List, Some, None, true, false, length, slice_get, IfOk};
ghost use Rattle.nd_types.specs.Table.{type_at};
ghost use Rattle.idl_compat.specs.Comparison.{AlikeTypes, AllAlike, AlikeFound, IsPair};
ghost use Rattle.idl_compat.specs.Placing.{IsPaired};
ghost use Rattle.idl_compat.specs.Matching.{Meets, AreExpanded, IsMatched, MatchesOne, MatchesAll};

use crate::forms::ask_types;
use crate::operations::ask_operation;
use crate::placing::Pairing;
use crate::{TypePair, TypePairs};
use nd_base::Memory;
use nd_types::{Interface, Operation, Types};
use std::alloc::Global;

impl Pairing {
    // Places the pairs that the types of a pair ask for, or answers false where they cannot be alike.
    fn match_pair(
        &mut self,
        alloc: Global,
        pair: TypePair,
        types: &Types,
        others: &Types,
    ) -> Result<bool, Memory>
        ensures { IsPaired self.old → IfOk result (Meets
            (λ m. AlikeTypes (IsPair m) (type_at types.now pair.old.0) (type_at others.now pair.new.0)) self.old self.new) }
    {
        let Some(old) = types.get(pair.old.0 as usize) else {
            return Ok(false);
        };
        let Some(new) = others.get(pair.new.0 as usize) else {
            return Ok(false);
        };
        let mut wanted = TypePairs::new(alloc);
        if !ask_types(&mut wanted, old, new)? {
            return Ok(false);
        }
        let ok = self.place_all(&wanted)?;
        Ok(ok)
    }

    // Matches the types of all pairs from a place on, with those that are added for them. There are at most as many pairs as old types.
    fn match_types(
        &mut self,
        alloc: Global,
        from: usize,
        types: &Types,
        others: &Types,
    ) -> Result<bool, Memory>
        ensures { IsPaired self.old → length self.old.forward ≡ length types.now → AreExpanded types.now others.now self.old.pairs from
            → IfOk result (Meets (AllAlike types.now others.now) self.old self.new) }
    {
        for at in from..types.len() {
            let Some(pair) = self.pairs.get(at) else {
                return Ok(true);
            };
            let pair = *pair;
            if !self.match_pair(alloc, pair, types, others)? {
                return Ok(false);
            }
        }
        Ok(true)
    }

    // Places the pairs that two operations ask for, or answers false where they cannot be alike.
    fn place_operation(
        &mut self,
        alloc: Global,
        old: &Operation,
        new: &Operation,
    ) -> Result<bool, Memory>
        ensures { IsPaired self.old → IfOk result (Meets (λ m. AlikeFound (IsPair m) (Some old.now) (Some new.now)) self.old self.new) }
    {
        let mut wanted = TypePairs::new(alloc);
        if !ask_operation(&mut wanted, old, new)? {
            return Ok(false);
        }
        let ok = self.place_all(&wanted)?;
        Ok(ok)
    }

    // Matches the operations of a number, where those before it are matched.
    fn match_operation(
        &mut self,
        alloc: Global,
        at: usize,
        old: &Interface,
        new: &Interface,
    ) -> Result<bool, Memory>
        ensures { IsMatched old.now new.now at self.old → IfOk result (MatchesOne old.now new.now at self.new) }
    {
        let Some(operation) = old.operations.get(at) else {
            return Ok(false);
        };
        let Some(other) = new.operations.get(at) else {
            return Ok(false);
        };
        let from = self.pairs.len();
        if !self.place_operation(alloc, operation, other)? {
            return Ok(false);
        }
        let ok = self.match_types(alloc, from, &old.types, &new.types)?;
        Ok(ok)
    }

    // The number of the first old operation that cannot be matched, or None where all are.
    pub(crate) fn match_operations(
        &mut self,
        alloc: Global,
        interface: &Interface,
        other: &Interface,
    ) -> Result<Option<u32>, Memory>
        ensures { IsMatched interface.now other.now 0 self.old → IfOk result (MatchesAll interface.now other.now self.new) }
    {
        for at in 0..interface.operations.len() {
            if !self.match_operation(alloc, at, interface, other)? {
                return Ok(Some(at as u32));
            }
        }
        Ok(None)
    }
}
