// The first difference of two interfaces.
ghost use Rattle.std.specs.Prelude.{ℕ, IfOk};
ghost use Rattle.nd_types.specs.declared.interface.Interface.{Interface as TheInterface};
ghost use Rattle.idl_compat_place.specs.Differences.{IsFirstDifference, IsFound};
ghost use Rattle.idl_compat_place.specs.Trails.{IsFinding, IsEnd, IsEndInOrder, IsDifferenceAt};

use crate::Difference;
use crate::trail::{End, Finding, Found, Trail};
use nd_base::Memory;
use nd_types::Interface;
use std::alloc::Global;

/// The first difference of an interface from an older one, or None where all operations of the older one are alike in it. It takes memory for two
/// tables of the interfaces' types, for a pair with its origin of each type that an old operation reaches, for the types that one type names, and for
/// the steps of two places; in time that grows with the types, members, arms and parameters: each is looked at a bounded number of times. Running
/// out of memory is the only refusal.
pub fn first_difference(
    alloc: Global,
    old: &Interface,
    new: &Interface,
) -> Result<Option<Difference>, Memory>
    ensures { IfOk result (IsFound old.now new.now) }
{
    let mut trail = Trail::new(alloc, old, new)?;
    match trail.walk(alloc, old, new)? {
        Some(finding) => {
            let difference = trail.difference(alloc, finding)?;
            Ok(Some(difference))
        }
        None => Ok(None),
    }
}

impl Trail {
    // What is found, with its place.
    fn difference(&self, alloc: Global, finding: Finding) -> Result<Difference, Memory>
        ensures { (old new : TheInterface) → IsFinding old new self.now finding → IfOk result (IsFirstDifference old new) }
    {
        match finding.found {
            Found::Counts => Ok(Difference::Counts { op: finding.op }),
            Found::Parts => Ok(Difference::Parts {
                op: finding.op,
                part: finding.part,
            }),
            Found::Ends(end) => self.end_difference(alloc, end),
        }
    }

    // Where a walk ends, with its place.
    fn end_difference(&self, alloc: Global, end: End) -> Result<Difference, Memory>
        ensures { (old new : TheInterface) (k n base : ℕ) → IsEnd old new k n base self.now end → IsEndInOrder base self.now.origins end
            → IfOk result (IsDifferenceAt old new k n) }
    {
        let place = self.place_of(alloc, end.origin)?;
        let Some(number) = end.other else {
            return Ok(Difference::Types {
                place,
                types: end.pair,
            });
        };
        let Some(other) = self.pairing.pairs.get(number) else {
            return Ok(Difference::Types {
                place,
                types: end.pair,
            });
        };
        let others = *other;
        let earlier = self.place_of(alloc, self.origin(number))?;
        Ok(Difference::Clash {
            place,
            types: end.pair,
            earlier,
            others,
        })
    }
}
