// One side of a connection.
ghost use Rattle.std.specs.Prelude.{◌≡◌, ℕ, ◌≤◌, [], List, None, length, take, ◌++◌, IfOk, OnErr};
ghost use Rattle.rpc_stream.specs.declared.stated.First.TheVariants.{Waiting, Whole};
ghost use Rattle.rpc_stream.specs.Pdus.{first_of};
ghost use Rattle.rpc_side.specs.declared.report.Report.{Report as Report_};
ghost use Rattle.rpc_side.specs.Stream.{Stands, Goes};

use crate::calls::OpenCalls;
use crate::report::{Limits, Report, Reports};
use nd_base::Octets;
use rpc_stream::{Cutter, First, Pdu, Peer};
use std::alloc::{AllocError, Global};

/// One side of a connection: the part of a PDU that has come, and the calls that are open. What a peer claims takes no memory, only octets that came.
#[derive(Drop)]
pub struct Side {
    alloc: Global,
    peer: Peer,
    limits: Limits,
    cutter: Cutter,
    at: u64,
    calls: OpenCalls,
    due: Option<Report>,
}

impl Side {
    /// A side of which nothing has come. Takes no memory.
    pub fn new(alloc: Global, peer: Peer, limits: Limits) -> Side
        ensures peer { result.peer ≡ peer }
        ensures limits { result.limits ≡ limits }
        ensures stands { Stands [] [] result }
    {
        Side {
            alloc,
            peer,
            limits,
            cutter: Cutter::new(alloc),
            at: 0,
            calls: OpenCalls::new(alloc),
            due: None,
        }
    }

    /// Takes octets from the front of a piece: those that are missing from the next PDU, as far as is known, and at least one while it is not whole.
    /// The answer is how many. It never waits. Where a PDU is whole or the stream is refused (`first`), it takes none: `next` takes the PDU. Takes
    /// memory for the octets.
    ///
    /// # Errors
    /// Memory ran out. Then nothing was taken, and the same piece may be given again.
    pub fn feed(&mut self, piece: &[u8]) -> Result<usize, AllocError>
        ensures within { IfOk result (λ n. n ≤ length piece.now) }
        ensures fed { IfOk result (λ n. (stream : List ℕ) (handed : List Report_) → Stands stream handed self.old
            → Stands (stream ++ take n piece.now) handed self.new) }
        ensures moves { IfOk result (λ n. first_of self.old.cutter ≡ Waiting → 1 ≤ length piece.now → 1 ≤ n) }
        ensures kept { OnErr result (self.new ≡ self.old) }
    {
        match self.cutter.first() {
            First::Waiting => self.cutter.take(piece),
            First::Whole { .. } => Ok(0),
            First::Wrong { .. } => Ok(0),
        }
    }

    /// The next report, if one is due. It takes the PDU that is whole, which can give two reports. Takes memory for the fragments of calls that are
    /// open and of those that are reported, and none for what a header claims.
    ///
    /// # Errors
    /// Memory ran out. Then it can be called again.
    pub fn next(&mut self) -> Result<Option<Report>, AllocError>
        ensures next { IfOk result (λ r. (stream : List ℕ) (handed : List Report_) → Stands stream handed self.old
            → Goes stream handed r self.new) }
        ensures kept { OnErr result ((stream : List ℕ) (handed : List Report_) → Stands stream handed self.old → Stands stream handed self.new) }
        ensures peer { self.new.peer ≡ self.old.peer }
        ensures limits { self.new.limits ≡ self.old.limits }
    {
        match self.due.take() {
            Some(report) => Ok(Some(report)),
            None => match self.cutter.first() {
                First::Whole { .. } => self.take_pdu(),
                First::Waiting => Ok(None),
                First::Wrong { .. } => Ok(None),
            },
        }
    }

    /// Whether the octets that are pending are a PDU, a part of one, or refused. Takes no memory.
    pub fn first(&self) -> First
        ensures { result ≡ first_of self.now.cutter }
    {
        self.cutter.first()
    }

    /// Where the octets that are pending begin in the stream, modulo 2^64. Takes no memory.
    pub fn at(&self) -> u64
        ensures { result ≡ self.now.at }
    {
        self.at
    }

    /// How many octets are pending. Takes no memory.
    pub fn pending(&self) -> usize
        ensures { result ≡ length self.now.cutter }
    {
        self.cutter.octets().len()
    }

    // Takes the PDU that is pending.
    fn take_pdu(&mut self) -> Result<Option<Report>, AllocError>
        requires whole { (n : ℕ) × (first_of self.old.cutter ≡ Whole n) }
        requires none_due { self.old.due ≡ None }
        ensures next { IfOk result (λ r. (stream : List ℕ) (handed : List Report_) → Stands stream handed self.old
            → Goes stream handed r self.new) }
        ensures kept { OnErr result ((stream : List ℕ) (handed : List Report_) → Stands stream handed self.old → Stands stream handed self.new) }
        ensures peer { self.new.peer ≡ self.old.peer }
        ensures limits { self.new.limits ≡ self.old.limits }
    {
        let Ok(octets) = Octets::copy(self.alloc, self.cutter.octets()) else {
            return Err(AllocError);
        };
        let count = octets.as_slice().len() as u64;
        let pdu = Pdu {
            at: self.at,
            octets,
        };
        let reports = self.calls.step(self.peer, self.limits, pdu)?;
        self.at = self.at.wrapping_add(count);
        self.cutter.clear();
        match reports {
            Reports::Nothing => Ok(None),
            Reports::One { report } => Ok(Some(report)),
            Reports::Two { report, other } => {
                self.due = Some(other);
                Ok(Some(report))
            }
        }
    }
}
