// A store of live resources, in the order of opening. A resource is live from when it is opened until it is ended.
ghost use Rattle.std.specs.Prelude.{◌≡◌, ◌+◌, ◌<◌, ◌≤◌, ◌++◌, [], ◌∷◌, length, ◌==◌, false, Some, None, map, remove, position};
ghost use Rattle.std.specs.Prelude.{IfOk, IfErr, OnOk, OnErr, MatchResult, MatchOption, option_map};
ghost use Rattle.std.specs.List.{slice_get};
ghost use Rattle.ctx_store.specs.Resource.{HasApplied, HasEndedSo};
ghost use Rattle.ctx_store.specs.Live.{AreLive, place_of, first_of};
ghost use Rattle.ctx_store.specs.Calls.{open_fault, Uses, Closes, IsUnknown, RunsDown, HasNone};

use crate::handles::Handles;
use crate::{Resource, ResourceFailed};
use nd_base::Memory;
use std::alloc::Global;
use thiserror::Error;
use uuid::Uuid;

/// Why a resource is not opened, in the order in which these are tried.
#[derive(Clone, Copy, Debug, PartialEq, Eq, Error)]
pub enum OpenFault {
    /// The identifier is the nil one, which no context handle has while it is open.
    #[error("null identifier")]
    NullId,
    /// The identifier is live.
    #[error("identifier is live")]
    Twice,
    /// `LIVE_LIMIT` resources are live.
    #[error("too many live resources")]
    Full,
}

/// Why a line is not applied.
#[derive(Clone, Copy, Debug, PartialEq, Eq, Error)]
pub enum UseFault {
    /// The identifier is not live.
    #[error("unknown identifier")]
    Unknown,
    /// The resource failed.
    #[error("resource failed")]
    Failed,
}

/// The identifier is not live.
#[derive(Clone, Copy, Debug, PartialEq, Eq, Error)]
#[error("unknown identifier")]
pub struct Unknown;

/// A resource that was ended and has left its store, and whether it failed at its end.
#[derive(Drop)]
pub struct SpentOf<R: Drop> {
    pub resource: R,
    pub failed: bool,
}

/// A boxed resource that was ended and has left its store.
pub type Spent = SpentOf<Box<dyn Resource>>;

// A live resource with its identifier and its client.
#[derive(Drop)]
struct Entry<R: Drop> {
    id: Uuid,
    client: u32,
    resource: R,
}

/// A store of resources of one type, each opened for a client under the identifier of its context handle (C706 section 6.1.6). It keeps them in the
/// order of opening, and finds one by a table of the identifiers, in a time that does not grow with their number.
#[derive(Drop)]
pub struct StoreOf<R: Drop> {
    handles: Handles,
    entries: Vec<Entry<R>>,
    ghost aligned: { handles.ids ≡ map (λ e. e.id) entries.items },
}

/// A store of boxed resources.
pub type Store = StoreOf<Box<dyn Resource>>;

/// The greatest number of live resources in a store.
pub const LIVE_LIMIT: usize = 4_096;

impl<R: Resource> Entry<R> {
    ghost use Rattle.ctx_store.specs.Seen.{live_of};

    fn apply(&mut self, line: &[u8]) -> Result<(), ResourceFailed>
        requires { (R.shows self.old.resource).ended ≡ false }
        ensures id { self.new.id ≡ self.old.id }
        ensures client { self.new.client ≡ self.old.client }
        ensures applied { HasApplied (R.shows self.old.resource) (R.shows self.new.resource) line.now result }
    {
        self.resource.apply(line)
    }

    fn client(&self) -> u32
        ensures { result ≡ self.now.client }
    {
        self.client
    }

    fn is_of(&self, client: u32) -> bool
        ensures { result ≡ (self.now.client == client) }
    {
        self.client == client
    }

    // Ends the resource.
    fn end(self) -> SpentOf<R>
        requires { (R.shows self.resource).ended ≡ false }
        ensures { HasEndedSo (R.shows self.resource) (R.shows result.resource) result.failed }
    {
        let Entry { mut resource, .. } = self;
        let failed = resource.end().is_err();
        SpentOf { resource, failed }
    }
}

impl<R: Resource> StoreOf<R> {
    ghost use Rattle.ctx_store.specs.Seen.{store_seen, store_spare, live_of};

    /// An empty store. Takes no memory.
    pub fn new(alloc: Global) -> StoreOf<R>
        ensures { store_seen R.shows result ≡ [] }
    {
        StoreOf {
            handles: Handles::new(alloc),
            entries: Vec::new(alloc),
        }
    }

    /// Makes room for so many more, which can then be opened without memory. Running out of memory is the only refusal, and changes nothing but the
    /// room.
    pub fn reserve(&mut self, more: u32) -> Result<(), Memory>
        ensures same { store_seen R.shows self.new ≡ store_seen R.shows self.old }
        ensures room { OnOk result (more ≤ store_spare self.new) }
        ensures spare { store_spare self.old ≤ store_spare self.new }
    {
        self.handles.reserve(more as usize)?;
        match self.entries.try_reserve(more as usize) {
            Ok(()) => Ok(()),
            Err(_) => Err(Memory),
        }
    }

    /// Why nothing can be opened under this identifier now, or None if it can. Takes no memory.
    pub fn fault_of(&self, id: Uuid) -> Option<OpenFault>
        ensures { result ≡ open_fault (store_seen R.shows self.now) id }
    {
        if id.is_nil() {
            return Some(OpenFault::NullId);
        }
        if self.handles.find(id).is_some() {
            return Some(OpenFault::Twice);
        }
        if self.entries.len() >= LIVE_LIMIT {
            return Some(OpenFault::Full);
        }
        None
    }

    /// Opens a resource, which was never ended, under an identifier, for a client. There must be room. A refusal hands the resource back and changes
    /// nothing. Takes no memory.
    pub fn open(&mut self, client: u32, id: Uuid, resource: R) -> Result<(), (OpenFault, R)>
        requires spare { 0 < store_spare self.old }
        requires live { AreLive (store_seen R.shows self.old) }
        requires fresh { (R.shows resource).ended ≡ false }
        ensures opened { OnOk result (store_seen R.shows self.new
            ≡ store_seen R.shows self.old ++ record { id = id; client = client; resource = R.shows resource } ∷ []) }
        ensures same { OnErr result (store_seen R.shows self.new ≡ store_seen R.shows self.old) }
        ensures fault { MatchResult result (λ _. open_fault (store_seen R.shows self.old) id ≡ None)
            (λ e. open_fault (store_seen R.shows self.old) id ≡ Some e.0) }
        ensures back { IfErr result (λ e. e.1 ≡ resource) }
        ensures live { AreLive (store_seen R.shows self.new) }
        ensures spare { store_spare self.old ≤ store_spare self.new + 1 }
        ensures spare_stays { OnErr result (store_spare self.old ≤ store_spare self.new) }
    {
        if let Some(fault) = self.fault_of(id) {
            return Err((fault, resource));
        }
        match self.entries.push(Entry {
            id,
            client,
            resource,
        }) {
            Ok(()) => {
                self.handles.push(id);
                Ok(())
            }
            // There was room, so this does not happen.
            Err(failed) => {
                let Entry { resource, .. } = failed.value;
                Err((OpenFault::Full, resource))
            }
        }
    }

    /// Applies a line to the resource of an identifier. `Unknown` comes exactly where the identifier is not live, and `Failed` only where the
    /// resource's count of faults rose. Takes no memory but what the resource takes.
    pub fn apply(&mut self, id: Uuid, line: &[u8]) -> Result<(), UseFault>
        requires live { AreLive (store_seen R.shows self.old) }
        ensures does { Uses (store_seen R.shows self.old) (store_seen R.shows self.new) id line.now result }
        ensures live { AreLive (store_seen R.shows self.new) }
        ensures spare { store_spare self.old ≤ store_spare self.new }
    {
        let Some(at) = self.handles.find(id) else {
            return Err(UseFault::Unknown);
        };
        match self.entries[at].apply(line) {
            Ok(()) => Ok(()),
            Err(_) => Err(UseFault::Failed),
        }
    }

    // The place of a client's first resource.
    fn first_of(&self, client: u32) -> Option<usize>
        ensures { result ≡ position (λ e. e.client == client) self.now.entries.items }
    {
        self.entries.iter().position(|entry| entry.is_of(client))
    }

    // Takes out the entry at a place.
    fn take(&mut self, at: usize) -> Entry<R>
        requires { at < length (store_seen R.shows self.old) }
        ensures entry { slice_get (store_seen R.shows self.old) at ≡ Some (live_of R.shows result) }
        ensures left { store_seen R.shows self.new ≡ remove (store_seen R.shows self.old) at }
        ensures spare { store_spare self.old ≤ store_spare self.new }
    {
        self.handles.remove(at);
        self.entries.remove(at)
    }

    /// Ends the resource of an identifier and hands it out; it has then left the store, whether or not it failed. `Unknown` comes exactly where the
    /// identifier is not live. The resources opened later, at most 4,095, are moved. Takes no memory but what the resource takes.
    pub fn close(&mut self, id: Uuid) -> Result<SpentOf<R>, Unknown>
        requires live { AreLive (store_seen R.shows self.old) }
        ensures does { MatchResult result
            (λ s. Closes (store_seen R.shows self.old) (store_seen R.shows self.new) id (R.shows s.resource) s.failed)
            (λ _. IsUnknown (store_seen R.shows self.old) (store_seen R.shows self.new) id) }
        ensures live { AreLive (store_seen R.shows self.new) }
        ensures spare { store_spare self.old ≤ store_spare self.new }
    {
        match self.handles.find(id) {
            Some(at) => Ok(self.take(at).end()),
            None => Err(Unknown),
        }
    }

    /// Ends the first live resource of a client, in the order of opening, and hands it out; it has then left the store, whether or not it failed.
    /// None comes exactly where the client has none. It looks through the resources in order, and moves those opened later. Takes no memory but what
    /// the resource takes.
    pub fn run_down(&mut self, client: u32) -> Option<SpentOf<R>>
        requires live { AreLive (store_seen R.shows self.old) }
        ensures does { MatchOption result (HasNone (store_seen R.shows self.old) (store_seen R.shows self.new) client)
            (λ s. RunsDown (store_seen R.shows self.old) (store_seen R.shows self.new) client (R.shows s.resource) s.failed) }
        ensures live { AreLive (store_seen R.shows self.new) }
        ensures spare { store_spare self.old ≤ store_spare self.new }
    {
        match self.first_of(client) {
            Some(at) => Some(self.take(at).end()),
            None => None,
        }
    }

    /// The client of the first live resource, or None if none is live. Takes no memory.
    pub fn first_client(&self) -> Option<u32>
        ensures { result ≡ option_map (λ e. e.client) (slice_get (store_seen R.shows self.now) 0) }
    {
        match self.entries.get(0) {
            Some(entry) => Some(entry.client()),
            None => None,
        }
    }
}
