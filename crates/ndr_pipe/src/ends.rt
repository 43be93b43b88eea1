// A list of ends. Contracts see what each of them shows.
ghost use Rattle.std.specs.Prelude.{◌≡◌, ◌++◌, [], ◌∷◌, length, OnOk, OnErr, IfErr, IfSome, IfNone, Some, None};
ghost use Rattle.std.specs.List.{slice_get};
ghost use Rattle.ndr_pipe.specs.Ends.{IsOpenAt, TakesAt, FlushesAt, FinishesAt};

use crate::{EndFailed, PipeEnd};
use nd_base::Memory;
use std::alloc::Global;

/// A list of ends of one type.
#[derive(Drop)]
pub struct Ends<E: Drop> {
    items: Vec<E>,
}

/// An end of any type, in a box.
pub type BoxedEnd = Box<dyn PipeEnd>;

/// A list of boxed ends, one for each pipe of a side, in the order of the pipes.
pub type PipeEnds = Ends<BoxedEnd>;

impl<E: PipeEnd> Ends<E> {
    ghost use Rattle.ndr_pipe.specs.Ends.{ends_seen};

    /// An empty list. Takes no memory.
    pub fn new(alloc: Global) -> Ends<E>
        ensures { ends_seen E.seen result ≡ [] }
    {
        Ends {
            items: Vec::new(alloc),
        }
    }

    /// Appends an end, which may take memory. When out of memory the end is handed back, and nothing has changed.
    pub fn push(&mut self, end: E) -> Result<(), (Memory, E)>
        ensures ok { OnOk result (ends_seen E.seen self.new ≡ ends_seen E.seen self.old ++ E.seen end ∷ []) }
        ensures err { OnErr result (ends_seen E.seen self.new ≡ ends_seen E.seen self.old) }
        ensures back { IfErr result (λ e. e.1 ≡ end) }
    {
        match self.items.push(end) {
            Ok(()) => Ok(()),
            Err(failed) => Err((Memory, failed.value)),
        }
    }

    /// The number of ends. Takes no memory.
    pub fn len(&self) -> usize
        ensures { result ≡ length (ends_seen E.seen self.now) }
    {
        self.items.len()
    }

    /// The end of this number, from 0, or None past the last. Takes no memory.
    pub fn get(&self, at: usize) -> Option<&E>
        ensures some { IfSome result (λ end. slice_get (ends_seen E.seen self.now) at ≡ Some (E.seen end.now)) }
        ensures none { IfNone result (slice_get (ends_seen E.seen self.now) at ≡ None) }
    {
        self.items.get(at)
    }

    /// Gives a line to one end, and leaves the others as they are. `EndFailed` comes only where the count of that end's faults rose. There must be
    /// an end of this number, and it must not be finished. Takes no memory but what the end takes.
    pub fn take(&mut self, at: usize, line: &[u8]) -> Result<(), EndFailed>
        requires { IsOpenAt (ends_seen E.seen self.old) at }
        ensures { TakesAt (ends_seen E.seen self.old) (ends_seen E.seen self.new) at line.now result }
    {
        self.items[at].take(line)
    }

    /// Writes the lines that one end took and holds back, and leaves the others as they are. `EndFailed` comes only where the count of that end's
    /// faults rose. There must be an end of this number, and it must not be finished. Takes no memory but what the end takes.
    pub fn flush(&mut self, at: usize) -> Result<(), EndFailed>
        requires { IsOpenAt (ends_seen E.seen self.old) at }
        ensures { FlushesAt (ends_seen E.seen self.old) (ends_seen E.seen self.new) at result }
    {
        self.items[at].flush()
    }

    /// Finishes one end, and leaves the others as they are. `EndFailed` comes only where the count of that end's faults rose. There must be an end of
    /// this number, and it must not be finished. Takes no memory but what the end takes.
    pub fn finish(&mut self, at: usize) -> Result<(), EndFailed>
        requires { IsOpenAt (ends_seen E.seen self.old) at }
        ensures { FinishesAt (ends_seen E.seen self.old) (ends_seen E.seen self.new) at result }
    {
        self.items[at].finish()
    }
}
