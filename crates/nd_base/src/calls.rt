// The calls of an object in memory, some of which are to fail.
ghost use Rattle.std.specs.Prelude.{◌≡◌, ◌≤◌, IfOk, if◌then◌else◌};
ghost use Rattle.nd_base.specs.Over.{next_count};
ghost use Rattle.nd_base.specs.Calls.{failing_calls, calls_done, fails_next, CallMade};

use crate::Memory;
use std::alloc::Global;

// Which calls are to fail, how many there were, and how often the object failed.
#[derive(Debug, Drop)]
pub(crate) struct Calls {
    fails: Vec<u32>,
    done: u64,
    pub(crate) faults: u64,
}

impl Calls {
    pub(crate) fn new(alloc: Global, fails: &[u32]) -> Result<Calls, Memory>
        ensures fails { IfOk result (λ c. failing_calls c ≡ fails.now) }
        ensures done { IfOk result (λ c. calls_done c ≡ 0) }
        ensures faults { IfOk result (λ c. c.faults ≡ 0) }
    {
        Ok(Calls {
            fails: Vec::from_slice(alloc, fails)?,
            done: 0,
            faults: 0,
        })
    }

    // Counts a fault.
    pub(crate) fn fault(&mut self)
        ensures counted { self.new ≡ record self.old { faults = next_count self.old.faults } }
        ensures later { self.old.faults ≤ self.new.faults }
    {
        self.faults = self.faults.saturating_add(1);
    }

    // Begins the next call, and says whether it fails. If so, the fault is counted.
    pub(crate) fn fail(&mut self) -> bool
        ensures fails { result ≡ fails_next self.old }
        ensures made { CallMade self.old self.new }
        ensures faults { self.new.faults ≡ (if result then next_count self.old.faults else self.old.faults) }
        ensures later { self.old.faults ≤ self.new.faults }
    {
        self.done = self.done.saturating_add(1);
        let number = self.done;
        let fails = self.fails.iter().any(|fail| *fail as u64 == number);
        if fails {
            self.fault();
        }
        fails
    }
}
