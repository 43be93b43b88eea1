// A source and a sink that never fail.
ghost use Rattle.std.specs.Prelude.{◌≡◌, ◌≤◌, length, Some, None};

use crate::pieces::give;
use crate::{Octets, ReadFailed, Sink, Source, WriteFailed};

/// A list of octets as a source that never fails. Its count of faults is always 0.
#[derive(Debug, Drop)]
pub struct PlainSource {
    octets: Octets,
    at: usize,
    ghost within: { at ≤ length octets },
}

impl PlainSource {
    ghost use Rattle.nd_base.specs.Plain.{plain_left, plain_octets};

    /// A source of these octets. Takes no memory.
    pub fn new(octets: Octets) -> PlainSource
        ensures left { plain_left result ≡ octets }
        ensures octets { plain_octets result ≡ octets }
    {
        PlainSource { octets, at: 0 }
    }

    /// Gives back the octets that it was made of, with those that were fetched, so that they can be read again without a copy. Takes no memory.
    pub fn into_octets(self) -> Octets
        ensures { result ≡ plain_octets self }
    {
        self.octets
    }
}

impl Source for PlainSource {
    ghost use Rattle.nd_base.specs.Plain.{plain_left, plain_ended};

    ghost seen = { λ s. record { left = Some (plain_left s); ended = plain_ended s; faults = 0 } };

    #[tactic(auto, using(crate::proofs::Lists::piece_left))]
    fn fetch(&mut self, buf: &mut [u8]) -> Result<usize, ReadFailed> {
        let count = give(&self.octets.as_slice()[self.at..], buf, usize::MAX);
        self.at += count;
        Ok(count)
    }

    #[inline(always)]
    fn fill(&mut self, buf: &mut [u8]) -> bool {
        let octets = &self.octets.as_slice()[self.at..];
        if octets.len() < buf.len() {
            return false;
        }
        buf.copy_from_slice(&octets[..buf.len()]);
        self.at += buf.len();
        true
    }

    #[inline(always)]
    fn ahead(&self) -> usize {
        self.octets.as_slice().len() - self.at
    }
}

/// A sink that keeps nothing, shows nothing and never fails. Its count of faults is always 0.
#[derive(Clone, Copy, Debug)]
pub struct PlainSink;

impl PlainSink {
    /// The sink. Takes no memory.
    pub fn new() -> PlainSink
        ensures { (⟦<PlainSink as Sink>⟧.seen result).faults ≡ 0 }
    {
        PlainSink
    }
}

impl Sink for PlainSink {
    ghost seen = { λ _. record { written = None; faults = 0 } };

    fn put(&mut self, _piece: &[u8]) -> Result<(), WriteFailed> {
        Ok(())
    }
}
