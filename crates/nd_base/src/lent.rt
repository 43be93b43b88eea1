// Octets that are lent, as a source: who lends them keeps them, with those that were fetched.
ghost use Rattle.std.specs.Prelude.{◌≡◌, ◌≤◌, length, Some};

use crate::pieces::give;
use crate::{ReadFailed, Source};

/// A slice of octets as a source that never fails. Its count of faults is always 0.
#[derive(Drop)]
pub struct LentSource<'a> {
    octets: &'a [u8],
    at: usize,
    ghost within: { at ≤ length octets.now },
}

impl<'a> LentSource<'a> {
    ghost use Rattle.nd_base.specs.Lent.{lent_left};

    /// A source of these octets. Takes no memory.
    pub fn new(octets: &'a [u8]) -> LentSource<'a>
        ensures left { lent_left result ≡ octets.now }
    {
        LentSource { octets, at: 0 }
    }
}

impl<'a> Source for LentSource<'a> {
    ghost use Rattle.nd_base.specs.Lent.{lent_left, lent_ended};

    ghost seen = { λ s. record { left = Some (lent_left s); ended = lent_ended s; faults = 0 } };

    #[tactic(auto, using(crate::proofs::Lists::piece_left))]
    fn fetch(&mut self, buf: &mut [u8]) -> Result<usize, ReadFailed> {
        let count = give(&self.octets[self.at..], buf, usize::MAX);
        self.at += count;
        Ok(count)
    }

    #[inline(always)]
    fn fill(&mut self, buf: &mut [u8]) -> bool {
        let octets = &self.octets[self.at..];
        if octets.len() < buf.len() {
            return false;
        }
        buf.copy_from_slice(&octets[..buf.len()]);
        self.at += buf.len();
        true
    }

    #[inline(always)]
    fn ahead(&self) -> usize {
        self.octets.len() - self.at
    }
}
