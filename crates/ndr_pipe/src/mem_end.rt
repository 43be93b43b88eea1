// An end in memory.
ghost use Rattle.std.specs.Prelude.{◌≡◌, [], ◌++◌, false, true, IfOk, is_err, if◌then◌else◌};
ghost use Rattle.nd_base.specs.Calls.{failing_calls, calls_done, CallMade};
ghost use Rattle.nd_base.specs.Over.{next_count};
ghost use Rattle.ndr_pipe.specs.Ends.{HasTaken, HasFinished};

use crate::{EndFailed, PipeEnd};
use nd_base::{MemSink, Memory, Sink};
use std::alloc::Global;

/// An end in memory, which has room for so many octets, and some of whose calls fail.
#[derive(Debug, Drop)]
pub struct MemEnd {
    sink: MemSink,
    finished: bool,
}

impl MemEnd {
    ghost use Rattle.nd_base.specs.InMemory.{written_octets, sink_room, sink_calls, sink_faults};
    ghost use Rattle.ndr_pipe.specs.InMemory.{end_sink, is_finished};

    /// An empty end with room for `room` octets, which it reserves here. `fails` lists the numbers, from 1, of the calls of `take` and `finish`,
    /// counted together, that fail. Running out of memory is the only refusal.
    pub fn new(alloc: Global, room: u32, fails: &[u32]) -> Result<MemEnd, Memory>
        ensures octets { IfOk result (λ e. written_octets (end_sink e) ≡ []) }
        ensures room { IfOk result (λ e. sink_room (end_sink e) ≡ room) }
        ensures fails { IfOk result (λ e. failing_calls (sink_calls (end_sink e)) ≡ fails.now) }
        ensures done { IfOk result (λ e. calls_done (sink_calls (end_sink e)) ≡ 0) }
        ensures faults { IfOk result (λ e. sink_faults (end_sink e) ≡ 0) }
        ensures finished { IfOk result (λ e. is_finished e ≡ false) }
    {
        Ok(MemEnd {
            sink: MemSink::new(alloc, room, fails)?,
            finished: false,
        })
    }
}

impl PipeEnd for MemEnd {
    ghost use Rattle.nd_base.specs.InMemory.{written_octets, sink_room, sink_calls, sink_faults, taken_of, put_fails};
    ghost use Rattle.ndr_pipe.specs.InMemory.{end_sink, is_finished, mem_end_seen};

    ghost seen = { mem_end_seen };

    /// Appends the line, or what the room holds of it, and then fails. A call whose number is in the list fails and takes nothing. Takes no memory.
    fn take(&mut self, line: &[u8]) -> Result<(), EndFailed>
        requires { is_finished self.old ≡ false }
        ensures does { HasTaken (mem_end_seen self.old) (mem_end_seen self.new) line.now result }

        ensures fails { is_err result ≡ put_fails (end_sink self.old) line.now }
        ensures taken { written_octets (end_sink self.new) ≡ written_octets (end_sink self.old) ++ taken_of (end_sink self.old) line.now }
        ensures finished { is_finished self.new ≡ is_err result }
        ensures calls { CallMade (sink_calls (end_sink self.old)) (sink_calls (end_sink self.new)) }
        ensures counted { sink_faults (end_sink self.new)
            ≡ (if is_err result then next_count (sink_faults (end_sink self.old)) else sink_faults (end_sink self.old)) }
        ensures room { sink_room (end_sink self.new) ≡ sink_room (end_sink self.old) }
    {
        match self.sink.put(line) {
            Ok(()) => Ok(()),
            Err(_) => {
                self.finished = true;
                Err(EndFailed)
            }
        }
    }

    /// Finishes the end. A call whose number is in the list fails. Takes no memory.
    fn finish(&mut self) -> Result<(), EndFailed>
        requires { is_finished self.old ≡ false }
        ensures does { HasFinished (mem_end_seen self.old) (mem_end_seen self.new) result }

        ensures fails { is_err result ≡ put_fails (end_sink self.old) [] }
        ensures taken { written_octets (end_sink self.new) ≡ written_octets (end_sink self.old) }
        ensures finished { is_finished self.new ≡ true }
        ensures calls { CallMade (sink_calls (end_sink self.old)) (sink_calls (end_sink self.new)) }
        ensures counted { sink_faults (end_sink self.new)
            ≡ (if is_err result then next_count (sink_faults (end_sink self.old)) else sink_faults (end_sink self.old)) }
        ensures room { sink_room (end_sink self.new) ≡ sink_room (end_sink self.old) }
    {
        self.finished = true;
        match self.sink.put(b"") {
            Ok(()) => Ok(()),
            Err(_) => Err(EndFailed),
        }
    }

    fn shown(&self) -> Option<&[u8]> {
        Some(self.sink.written())
    }

    fn finished(&self) -> bool {
        self.finished
    }
}
