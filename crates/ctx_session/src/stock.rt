// The resources that a session may open, and those that it ended.
ghost use Rattle.std.specs.Prelude.{◌≡◌, ◌+◌, ◌<◌, ◌≤◌, ◌++◌, [], ◌∷◌, length, false, OnOk, OnErr, IfErr, IfSome, IfNone, Some, None, MatchOption};
ghost use Rattle.std.specs.Prelude.{◌==◌};
ghost use Rattle.std.specs.List.{slice_get};

use ctx_store::Resource;
use nd_base::Memory;
use std::alloc::Global;
use std::collections::VecDeque;

/// Resources of one type: fresh ones, which a session may open, and spent ones, which it ended, in the order of ending.
#[derive(Drop)]
pub struct StockOf<R: Drop> {
    fresh: VecDeque<R>,
    spent: Vec<R>,
}

/// A stock of boxed resources.
pub type Stock = StockOf<Box<dyn Resource>>;

impl<R: Resource> StockOf<R> {
    ghost use Rattle.ctx_session.specs.Session.{AreFresh};
    ghost use Rattle.ctx_session.specs.Stocked.{fresh_seen, spent_seen, spent_room};

    /// An empty stock. Takes no memory.
    pub fn new(alloc: Global) -> StockOf<R>
        ensures fresh { fresh_seen R.shows result ≡ [] }
        ensures spent { spent_seen R.shows result ≡ [] }
    {
        StockOf {
            fresh: VecDeque::new(alloc),
            spent: Vec::new(alloc),
        }
    }

    /// Appends a fresh resource, which was never ended. When out of memory it is handed back, and nothing has changed.
    pub fn push(&mut self, resource: R) -> Result<(), (Memory, R)>
        requires { (R.shows resource).ended ≡ false }
        ensures ok { OnOk result (fresh_seen R.shows self.new ≡ fresh_seen R.shows self.old ++ R.shows resource ∷ []) }
        ensures err { OnErr result (fresh_seen R.shows self.new ≡ fresh_seen R.shows self.old) }
        ensures spent { spent_seen R.shows self.new ≡ spent_seen R.shows self.old }
        ensures back { IfErr result (λ e. e.1 ≡ resource) }
        ensures kept { AreFresh (fresh_seen R.shows self.old) → AreFresh (fresh_seen R.shows self.new) }
    {
        match self.fresh.push_back(resource) {
            Ok(()) => Ok(()),
            Err(failed) => Err((Memory, failed.value)),
        }
    }

    /// Makes room among the spent ones for all fresh ones. Running out of memory is the only refusal; neither list changes.
    pub fn room(&mut self) -> Result<(), Memory>
        ensures fresh { fresh_seen R.shows self.new ≡ fresh_seen R.shows self.old }
        ensures spent { spent_seen R.shows self.new ≡ spent_seen R.shows self.old }
        ensures room { OnOk result (length (fresh_seen R.shows self.new) ≤ spent_room self.new) }
    {
        match self.spent.try_reserve(self.fresh.len()) {
            Ok(()) => Ok(()),
            Err(_) => Err(Memory),
        }
    }

    /// The fresh resource at a place, or None past the last. Takes no memory.
    pub fn fresh(&self, at: usize) -> Option<&R>
        ensures some { IfSome result (λ r. slice_get (fresh_seen R.shows self.now) at ≡ Some (R.shows r.now)) }
        ensures none { IfNone result (slice_get (fresh_seen R.shows self.now) at ≡ None) }
    {
        self.fresh.get(at)
    }

    /// The spent resource at a place, or None past the last. Takes no memory.
    pub fn spent(&self, at: usize) -> Option<&R>
        ensures some { IfSome result (λ r. slice_get (spent_seen R.shows self.now) at ≡ Some (R.shows r.now)) }
        ensures none { IfNone result (slice_get (spent_seen R.shows self.now) at ≡ None) }
    {
        self.spent.get(at)
    }

    // Whether there is no fresh resource.
    pub(crate) fn is_used_up(&self) -> bool
        ensures { result ≡ (length (fresh_seen R.shows self.now) == 0) }
    {
        self.fresh.is_empty()
    }

    // Takes the first fresh resource. Takes no memory.
    pub(crate) fn take(&mut self) -> Option<R>
        ensures taken { MatchOption result (fresh_seen R.shows self.old ≡ [])
            (λ r. fresh_seen R.shows self.old ≡ R.shows r ∷ fresh_seen R.shows self.new) }
        ensures none { IfNone result (fresh_seen R.shows self.new ≡ []) }
        ensures spent { spent_seen R.shows self.new ≡ spent_seen R.shows self.old }
        ensures room { spent_room self.new ≡ spent_room self.old }
    {
        self.fresh.pop_front()
    }

    // Appends a resource that was ended. There is room.
    pub(crate) fn spend(&mut self, resource: R)
        requires { 0 < spent_room self.old }
        ensures spent { spent_seen R.shows self.new ≡ spent_seen R.shows self.old ++ R.shows resource ∷ [] }
        ensures fresh { fresh_seen R.shows self.new ≡ fresh_seen R.shows self.old }
        ensures room { spent_room self.old ≤ spent_room self.new + 1 }
    {
        // There is room, so this cannot fail.
        let _ = self.spent.push(resource);
    }
}
