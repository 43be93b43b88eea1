// What is measured.
ghost use Rattle.std.specs.Prelude.{◌≡◌, ◌<◌, ◌≤◌, ◌+◌, OnOk};
ghost use Rattle.ctx_store.specs.Live.{AreLive};
ghost use Rattle.ctx_store.specs.Seen.{store_seen, store_spare};
ghost use Rattle.bench_store.specs.Counter.{counter_seen};

use crate::counter::Counter;
use ctx_store::StoreOf;
use nd_base::Memory;
use std::io;
use std::time::Instant;
use uuid::Uuid;

// How often the store is used.
const USES: u32 = 1_000_000;

// How often a resource is closed and the next one opened.
const REOPENINGS: u32 = 100_000;

// Measures a store with so many live resources.
pub(crate) fn measured(rt: &HostRuntime, count: u32) -> io::Result<()>
    requires least { 1 ≤ count }
    requires most { count ≤ 4096 }
{
    let mut store = StoreOf::new(rt.alloc());
    if store.reserve(count).is_err() || open_many(&mut store, count).is_err() {
        return Err(io::Error::from(io::ErrorKind::OutOfMemory));
    }
    let start = Instant::now(rt)?;
    let done = use_many(&mut store, count);
    let spent = start.elapsed(rt)?;
    println!(rt;
        "{count} handles: {done} uses, {} ns a use",
        spent.as_nanos() / u128::from(USES)
    )?;
    let start = Instant::now(rt)?;
    let done = reopen_many(&mut store, count);
    let spent = start.elapsed(rt)?;
    println!(rt;
        "{count} handles: {done} closes, {} ns a close with an open",
        spent.as_nanos() / u128::from(REOPENINGS)
    )
}

// The identifier of this number, none of which is nil.
fn identifier(number: u32) -> Uuid {
    Uuid::from_u128(
        (u128::from(number) + 1).wrapping_mul(0x9e37_79b9_7f4a_7c15_f39c_c060_5ced_c835),
    )
}

// A number below a count, scattered over all of them.
fn scattered(at: u32, count: u32) -> u32
    requires { 1 ≤ count }
{
    (u64::from(at) * 2_654_435_761 % u64::from(count)) as u32
}

// Opens so many resources.
fn open_many(store: &mut StoreOf<Counter>, count: u32) -> Result<(), Memory>
    requires live { AreLive (store_seen counter_seen store.old) }
    requires room { count ≤ store_spare store.old }
    ensures { OnOk result (AreLive (store_seen counter_seen store.new)) }
{
    for at in 0..count {
        if store.open(1, identifier(at), Counter::new()).is_err() {
            return Err(Memory);
        }
    }
    Ok(())
}

// Uses the store, and counts the uses that were done.
fn use_many(store: &mut StoreOf<Counter>, count: u32) -> u32
    requires live { AreLive (store_seen counter_seen store.old) }
    requires least { 1 ≤ count }
    ensures { AreLive (store_seen counter_seen store.new) }
{
    let mut done = 0u32;
    for at in 0..USES {
        if store
            .apply(identifier(scattered(at, count)), b"line")
            .is_ok()
        {
            done = done.saturating_add(1);
        }
    }
    done
}

// Closes a resource and opens another under its identifier, again and again, and counts how often both were done.
fn reopen_many(store: &mut StoreOf<Counter>, count: u32) -> u32
    requires live { AreLive (store_seen counter_seen store.old) }
    requires least { 1 ≤ count }
{
    let mut done = 0u32;
    for at in 0..REOPENINGS {
        let id = identifier(scattered(at, count));
        if store.close(id).is_err() || store.reserve(1).is_err() {
            return done;
        }
        if store.open(1, id, Counter::new()).is_ok() {
            done = done.saturating_add(1);
        }
    }
    done
}
