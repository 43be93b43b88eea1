// The comparison of two interfaces.
ghost use Rattle.std.specs.Prelude.{◌≡◌, ◌<◌, ℕ, List, Some, true, slice_get, IfOk};
ghost use Rattle.idl_compat.specs.Comparison.{IsCompared, IsOneUuid, HasAll, HasPartners};
ghost use Rattle.idl_compat.specs.Matching.{IsMatched};
ghost use Rattle.idl_compat.specs.Streams.{CarriesStreams};

use crate::Compared;
use crate::placing::Pairing;
use nd_base::Memory;
use nd_types::Interface;
use std::alloc::Global;

// Whether two UUIDs are there and equal.
fn are_equal(old: Option<u128>, new: Option<u128>) -> bool
    ensures equal { result ≡ true → IsOneUuid old new }
    ensures other { IsOneUuid old new → result ≡ true }
{
    match old {
        Some(old) => match new {
            Some(new) => old == new,
            None => false,
        },
        None => false,
    }
}

/// What a comparison of an old interface with a new one comes to. It takes memory for two tables of the interfaces' types, for a pair of
/// each type that an old operation reaches and for the types that one type names, in time that grows with the types, members, arms
/// and parameters: each is looked at once. Running out of memory is the only refusal.
pub fn compare(alloc: Global, old: &Interface, new: &Interface) -> Result<Compared, Memory>
    // Each answer exactly where its condition holds: they exclude one another.
    ensures compared { IfOk result (IsCompared old.now new.now) }
    // After Yes octets represent a graph that conforms to a side of an old operation exactly if they represent the carried graph, and it
    // conforms, under the new one.
    ensures streams { IfOk result (CarriesStreams old.now new.now) }
    // After Yes each type that an old operation reaches has a partner.
    ensures partners { IfOk result (HasPartners old.now) }
{
    if !are_equal(old.uuid, new.uuid) {
        return Ok(Compared::OtherUuid);
    }
    if old.major != new.major {
        return Ok(Compared::OtherMajor {
            old: old.major,
            new: new.major,
        });
    }
    if new.minor < old.minor {
        return Ok(Compared::OlderMinor {
            old: old.minor,
            new: new.minor,
        });
    }
    if new.operations.len() < old.operations.len() {
        return Ok(Compared::Fewer {
            old: old.operations.len() as u32,
            new: new.operations.len() as u32,
        });
    }
    let compared = compare_operations(alloc, old, new)?;
    Ok(compared)
}

// The same for two interfaces of which the new one is a later version with as many operations.
fn compare_operations(alloc: Global, old: &Interface, new: &Interface) -> Result<Compared, Memory>
    ensures { HasAll old.now new.now → IfOk result (IsCompared old.now new.now) }
{
    let mut pairing = Pairing::new(alloc, old, new)?;
    let first = pairing.match_operations(alloc, old, new)?;
    match first {
        Some(op) => Ok(Compared::Differs { op }),
        None => Ok(Compared::Yes {
            pairs: pairing.pairs,
        }),
    }
}
