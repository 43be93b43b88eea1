// A resource that counts its lines, and does no other work.
ghost use Rattle.std.specs.Prelude.{◌≡◌, false};

use ctx_store::{Resource, ResourceFailed};
use nd_ghost::GhostOctets;

#[derive(Drop)]
pub(crate) struct Counter {
    lines: u64,
    applied: GhostOctets,
    ended: bool,
}

impl Counter {
    ghost use Rattle.bench_store.specs.Counter.{counter_seen};

    pub(crate) fn new() -> Counter
        ensures { (counter_seen result).ended ≡ false }
    {
        Counter {
            lines: 0,
            applied: GhostOctets::none(),
            ended: false,
        }
    }
}

impl Resource for Counter {
    ghost use Rattle.bench_store.specs.Counter.{counter_seen};

    ghost shows = { counter_seen };

    fn apply(&mut self, line: &[u8]) -> Result<(), ResourceFailed> {
        self.lines = self.lines.saturating_add(1);
        self.applied.add_line(line);
        Ok(())
    }

    fn end(&mut self) -> Result<(), ResourceFailed> {
        self.ended = true;
        Ok(())
    }

    fn lines(&self) -> Option<&[u8]> {
        None
    }

    fn ended(&self) -> bool {
        self.ended
    }
}
