// Octets that are fetched as they are wanted.
ghost use Rattle.std.specs.Prelude.{◌≡◌, ℕ, ◌+◌, ◌<◌, ◌≤◌, ◌^◌, [], ◌++◌, length, take, true, false, Option, List, IfOk, IfErr, OnOk, OnErr, IsErrOf};
ghost use Rattle.std.specs.Io.KnownBytes.{Consumes, IsAtEnd, Keeps};
ghost use Rattle.nd_base.specs.Over.{source_over, HasRisen};
ghost use Rattle.nd_base.specs.declared.TheConstants.{STREAM_LIMIT};
ghost use Rattle.nd_base.specs.declared.intake.IntakeFault.TheVariants.{TooLong};
ghost use Rattle.nd_base.specs.Intake.{IsItemFault, IsGapFault, IsFailed};

use crate::{Memory, PIECE, ReadFailed, STREAM_LIMIT, Source};
use std::alloc::Global;
use std::marker::Model;
use thiserror::Error;

// For how many octets a buffer has room at the least.
const LEAST_ROOM: usize = 64;

/// Why octets that are wanted are not there.
#[derive(Clone, Copy, Debug, PartialEq, Eq, Error)]
pub enum IntakeFault {
    /// An allocation failed.
    #[error("out of memory")]
    Memory,
    /// The source failed.
    #[error("read failed")]
    ReadFault,
    /// They would end past the limit of a stream. Nothing was fetched.
    #[error("a stream is too long")]
    TooLong,
    /// The source has ended before the last of them, at this place in the stream.
    #[error("a stream ends at {place}")]
    Truncated { place: u32 },
}

/// The octets of the gap or primitive that is due, fetched from a source. Contracts see those that it holds: after any call exactly those that
/// the call fetched. It keeps a buffer, which has room for a piece more than it ever held at most: a claimed count alone takes no more memory than
/// that, and a short stream takes little.
#[derive(Drop)]
pub struct Intake {
    buffer: Vec<u8>,
    // how many of the buffer are held, from its front
    len: usize,
}

impl Model for Intake {
    ghost use Rattle.std.specs.Prelude.{List, ℕ, ◌≤◌, length, take};

    ghost Value = { List ℕ };

    ghost view = { λ i. take i.len i.buffer.items };

    ghost invariant = { λ i. i.len ≤ length i.buffer.items };
}

impl Intake {
    /// An intake that holds nothing. It allocates nothing.
    pub fn new(alloc: Global) -> Result<Intake, Memory>
        ensures { IfOk result (λ i. i ≡ []) }
    {
        Ok(Intake {
            buffer: Vec::new(alloc),
            len: 0,
        })
    }

    /// The octets that it holds. Takes no memory.
    #[inline(always)]
    pub fn octets(&self) -> &[u8]
        ensures { result.now ≡ self.now }
    {
        &self.buffer[..self.len]
    }

    /// Fetches the octets of a gap, which begins at a place of the stream. A gap is never too long. What was held before is gone.
    ///
    /// No octet more is asked for than the gap has. At `Ok` all of them are held; else those that came, fewer than wanted. `Truncated` is answered
    /// only if the source has ended and has nothing left, `ReadFault` only if its count of faults rose, `Memory` only if there was none; then too
    /// nothing that was fetched is lost. It takes memory for the octets, a piece at a time, before each piece is fetched.
    #[inline(always)]
    pub fn gap<S: Source>(&mut self, source: &mut S, at: u32, count: u32) -> Result<(), IntakeFault>
        requires small { at + count < 2 ^ 32 }
        ensures octets { Consumes (S.Source.seen source.old).left (S.Source.seen source.new).left self.new }
        ensures all { IfOk result (λ _. length self.new ≡ count) }
        ensures fault { IfErr result (IsGapFault (source_over S.Source.seen source.old source.new) at count self.new) }
        ensures later { (S.Source.seen source.old).faults ≤ (S.Source.seen source.new).faults }
    {
        self.len = 0;
        self.fetch(source, at, count)
    }

    /// Fetches the octets of a primitive, which begins at a place of the stream, as `gap` does. `TooLong` is answered exactly if they would end
    /// past the limit of a stream, and before anything is fetched.
    #[inline(always)]
    pub fn item<S: Source>(
        &mut self,
        source: &mut S,
        at: u32,
        count: u32,
    ) -> Result<(), IntakeFault>
        requires small { at ≤ STREAM_LIMIT }
        ensures octets { Consumes (S.Source.seen source.old).left (S.Source.seen source.new).left self.new }
        ensures all { IfOk result (λ _. length self.new ≡ count) }
        ensures within { IfOk result (λ _. at + count ≤ STREAM_LIMIT) }
        ensures too_long { STREAM_LIMIT < at + count → IsErrOf result TooLong }
        ensures fault { IfErr result
            (IsItemFault (source_over S.Source.seen source.old source.new) at count self.new) }
        ensures later { (S.Source.seen source.old).faults ≤ (S.Source.seen source.new).faults }
    {
        self.len = 0;
        if STREAM_LIMIT - at < count {
            return Err(IntakeFault::TooLong);
        }
        self.fetch(source, at, count)
    }

    /// Fetches so many octets, a piece at most, if the source has them at hand, and says whether it did. Else nothing is taken. What was held before
    /// is gone; if the octets came, they are held. It takes memory for the octets where there is no room for them yet; where that is refused, it is
    /// as if they were not at hand.
    #[inline(always)]
    pub fn at_hand<S: Source>(&mut self, source: &mut S, count: u32) -> bool
        requires small { count ≤ PIECE }
        ensures octets { result ≡ true → Consumes (S.Source.seen source.old).left (S.Source.seen source.new).left self.new }
        ensures all { result ≡ true → length self.new ≡ count }
        ensures nothing { result ≡ false → (S.Source.seen source.new).left ≡ (S.Source.seen source.old).left }
        ensures ended { result ≡ false → (S.Source.seen source.new).ended ≡ (S.Source.seen source.old).ended }
        ensures faults { (S.Source.seen source.new).faults ≡ (S.Source.seen source.old).faults }
    {
        self.len = 0;
        if make_room(&mut self.buffer, 0, count as usize).is_err() {
            return false;
        }
        if !fill_front(source, &mut self.buffer, count as usize) {
            return false;
        }
        self.len = count as usize;
        true
    }

    // Fetches so many octets, piece by piece.
    #[inline(always)]
    fn fetch<S: Source>(&mut self, source: &mut S, at: u32, count: u32) -> Result<(), IntakeFault>
        requires none { self.old ≡ [] }
        requires small { at + count < 2 ^ 32 }
        ensures octets { Consumes (S.Source.seen source.old).left (S.Source.seen source.new).left self.new }
        ensures all { IfOk result (λ _. length self.new ≡ count) }
        ensures fault { IfErr result (IsGapFault (source_over S.Source.seen source.old source.new) at count self.new) }
        ensures later { (S.Source.seen source.old).faults ≤ (S.Source.seen source.new).faults }
    {
        let mut lacking = count;
        while lacking > 0 {
            let came = self.fetch_some(source, lacking)?;
            if came == 0 {
                return Err(IntakeFault::Truncated {
                    place: at + (count - lacking),
                });
            }
            lacking -= came;
        }
        Ok(())
    }

    // Fetches some octets more, a piece and so many at most: none only if the source has ended.
    #[tactic(auto, using(crate::proofs::Taken::more_taken))]
    #[inline(always)]
    fn fetch_some<S: Source>(&mut self, source: &mut S, most: u32) -> Result<u32, IntakeFault>
        requires some { 0 < most }
        ensures octets { (start : Option (List ℕ)) → Consumes start (S.Source.seen source.old).left self.old
            → Consumes start (S.Source.seen source.new).left self.new }
        ensures count { IfOk result (λ n. length self.new ≡ length self.old + n) }
        ensures bound { IfOk result (λ n. n ≤ most) }
        ensures end { IfOk result (λ n. n ≡ 0 → ((S.Source.seen source.new).ended ≡ true) × IsAtEnd (S.Source.seen source.new).left) }
        ensures fault { IfErr result (IsFailed (source_over S.Source.seen source.old source.new)) }
        ensures same { OnErr result (self.new ≡ self.old) }
        ensures later { (S.Source.seen source.old).faults ≤ (S.Source.seen source.new).faults }
    {
        let room = PIECE.min(most) as usize;
        if make_room(&mut self.buffer, self.len, room).is_err() {
            return Err(IntakeFault::Memory);
        }
        let Ok(came) = fetch_behind(source, &mut self.buffer, self.len, room) else {
            return Err(IntakeFault::ReadFault);
        };
        self.len += came;
        Ok(came as u32)
    }
}

// Makes a buffer so long that it has room for so many octets after the first `len`.
#[inline(always)]
fn make_room(buffer: &mut Vec<u8>, len: usize, room: usize) -> Result<(), Memory>
    requires within { len ≤ length buffer.old.items }
    requires small { room ≤ PIECE }
    ensures front { take len buffer.new.items ≡ take len buffer.old.items }
    ensures room { OnOk result (len + room ≤ length buffer.new.items) }
    ensures longer { length buffer.old.items ≤ length buffer.new.items }
{
    if buffer.len() - len < room {
        buffer.resize((len + room).max(LEAST_ROOM), 0)?;
    }
    Ok(())
}

// Fetches so many octets at most to after the first `len` of a buffer, and reports how many came.
#[inline(always)]
fn fetch_behind<S: Source>(
    source: &mut S,
    buffer: &mut [u8],
    len: usize,
    room: usize,
) -> Result<usize, ReadFailed>
    requires within { len + room ≤ length buffer.old }
    requires some { 0 < room }
    ensures came { IfOk result
        (λ n. (os : List ℕ)
        × ((length os ≡ n)
        × (Consumes (S.Source.seen source.old).left (S.Source.seen source.new).left os × (take (len + n) buffer.new ≡ take len buffer.old ++ os)))) }
    ensures bound { IfOk result (λ n. n ≤ room) }
    ensures end { IfOk result (λ n. n ≡ 0 → ((S.Source.seen source.new).ended ≡ true) × IsAtEnd (S.Source.seen source.new).left) }
    ensures nothing { OnErr result (Keeps (S.Source.seen source.old).left (S.Source.seen source.new).left) }
    ensures same { OnErr result (take len buffer.new ≡ take len buffer.old) }
    ensures failed { OnErr result (HasRisen (source_over S.Source.seen source.old source.new).faults) }
    ensures later { (S.Source.seen source.old).faults ≤ (S.Source.seen source.new).faults }
    ensures wide { length buffer.new ≡ length buffer.old }
{
    match source.fetch(&mut buffer[len..len + room]) {
        Ok(came) => Ok(came),
        Err(failed) => Err(failed),
    }
}

// Fills the front of a buffer with so many octets, if the source has them at hand, and says whether it did.
#[inline(always)]
fn fill_front<S: Source>(source: &mut S, buffer: &mut [u8], count: usize) -> bool
    requires within { count ≤ length buffer.old }
    ensures octets { result ≡ true → Consumes (S.Source.seen source.old).left (S.Source.seen source.new).left (take count buffer.new) }
    ensures nothing { result ≡ false → (S.Source.seen source.new).left ≡ (S.Source.seen source.old).left }
    ensures ended { result ≡ false → (S.Source.seen source.new).ended ≡ (S.Source.seen source.old).ended }
    ensures faults { (S.Source.seen source.new).faults ≡ (S.Source.seen source.old).faults }
    ensures wide { length buffer.new ≡ length buffer.old }
{
    source.fill(&mut buffer[..count])
}
