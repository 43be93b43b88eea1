// A store that is full.
ghost use Rattle.std.specs.Prelude.{◌≡◌, ◌<◌, ◌≤◌, ◌+◌, IfOk};
ghost use Rattle.ctx_store.specs.InMemory.{mem_resource_seen};
ghost use Rattle.ctx_store.specs.Live.{AreLive};
ghost use Rattle.ctx_store.specs.Seen.{store_seen, store_spare};

use ctx_store::{LIVE_LIMIT, MemResource, OpenFault, Resource, StoreOf};
use nd_base::Memory;
use std::alloc::Global;
use std::test::Fail;
use uuid::Uuid;

// Opens so many resources, each under the next identifier from 1.
fn open_many(store: &mut StoreOf<MemResource>, alloc: Global, count: u32) -> Result<(), Memory>
    requires live { AreLive (store_seen mem_resource_seen store.old) }
    requires room { count + 1 ≤ store_spare store.old }
    ensures live { IfOk result (λ _. AreLive (store_seen mem_resource_seen store.new)) }
    ensures room { IfOk result (λ _. 0 < store_spare store.new) }
{
    for at in 0..count {
        let resource = MemResource::new(alloc, 0, &[])?;
        if store
            .open(1, Uuid::from_u128(at as u128 + 1), resource)
            .is_err()
        {
            return Err(Memory);
        }
    }
    Ok(())
}

#[test]
fn the_last_of_4097_is_handed_back(rt: HostRuntime) -> Result<(), Fail> {
    let mut store = StoreOf::new(rt.alloc());
    store.reserve(4_097)?;
    open_many(&mut store, rt.alloc(), 4_096)?;
    let last = MemResource::new(rt.alloc(), 0, &[])?;
    match store.open(1, Uuid::from_u128(5_000), last) {
        Ok(()) => assert!(rt; false),
        Err((fault, back)) => {
            assert!(rt; fault == OpenFault::Full && !back.ended());
        }
    }
    assert!(rt; store.fault_of(Uuid::from_u128(4_096)) == Some(OpenFault::Twice));
    assert!(rt; store.fault_of(Uuid::from_u128(0)) == Some(OpenFault::NullId));
    assert!(rt; LIVE_LIMIT == 4_096);
    Ok(())
}
