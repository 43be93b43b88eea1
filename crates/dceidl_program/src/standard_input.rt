// Standard input as a source. What the operating system does is trusted: its streams show nothing.
ghost use Rattle.std.specs.Prelude.{◌≡◌, ◌≤◌, ◌<◌, None, false, length, IfOk};

use nd_base::{Memory, ReadFailed, Source};
use std::alloc::Global;
use std::io::{BufRead, Read, StdinLock};
use std::rt::Stdin;
use std::{io, mem};

/// Standard input as a source. If the system can move its position, as that of a file, it is read in blocks of 4,096 octets, of which at most two
/// are kept, and the octets of these that were not fetched are at hand; when the source is dropped, the position is moved back to where the octets
/// that were fetched end. From a pipe or a terminal it takes no more than it is asked for. It shows nothing of what it has left, and fails where the
/// system does, at an interruption too.
#[derive(Drop)]
pub struct StandardInput {
    // Each lock holds what is left of a block, and gives it back to the system when it is dropped. The block of `first` comes first, and it is
    // fetched whole before that of `second`: no lock holds octets unless `first` does.
    first: Box<StdinLock<'static>>,
    second: Box<StdinLock<'static>>,
    // how many octets of each block were not fetched
    in_first: usize,
    in_second: usize,
    // whether it is read in blocks: until a block was of one octet, as each block of a pipe
    blocks: bool,
    ended: bool,
    faults: u64,
}

impl StandardInput {
    /// The standard input of the runtime. It takes memory for two blocks; out of memory is the only error.
    pub fn new(alloc: Global, stdin: Stdin) -> Result<StandardInput, Memory>
        ensures faults { IfOk result (λ s. (⟦<StandardInput as Source>⟧.seen s).faults ≡ 0) }
        ensures ended { IfOk result (λ s. (⟦<StandardInput as Source>⟧.seen s).ended ≡ false) }
    {
        Ok(StandardInput {
            first: locked(alloc, stdin)?,
            second: locked(alloc, stdin)?,
            in_first: 0,
            in_second: 0,
            blocks: true,
            ended: false,
            faults: 0,
        })
    }

    // Moves the first octets that are left to the front of a buffer, those of one block at most, and says how many. Where none is at hand a block
    // is read.
    fn take(&mut self, buf: &mut [u8]) -> io::Result<usize>
        ensures bound { IfOk result (λ count. count ≤ length buf.new) }
        ensures wide { length buf.new ≡ length buf.old }
        ensures ended { self.new.ended ≡ self.old.ended }
        ensures faults { self.new.faults ≡ self.old.faults }
    {
        if !self.blocks {
            return self.first.read(buf);
        }
        let begun = self.in_first > 0;
        let octets = self.first.fill_buf()?;
        let all = octets.len();
        let count = all.min(buf.len());
        buf[..count].copy_from_slice(&octets[..count]);
        self.first.consume(count);
        // What is left of a block that was begun may be one octet.
        self.blocks = begun || all > 1;
        self.in_first = all - count;
        self.turn();
        Ok(count)
    }

    // Where the first block was fetched whole, the second one becomes the first.
    #[inline(always)]
    fn turn(&mut self)
        ensures ended { self.new.ended ≡ self.old.ended }
        ensures faults { self.new.faults ≡ self.old.faults }
    {
        if self.in_first == 0 {
            mem::swap(&mut self.first, &mut self.second);
            self.in_first = self.in_second;
            self.in_second = 0;
        }
    }

    // Fills a buffer with the octets that are left of the first block, fewer than it takes, and the first ones of the second, which is read if none
    // of it is kept; says whether so many are there. A failure of the system here is left to a later fetch.
    #[inline(never)]
    fn fill_from_both(&mut self, buf: &mut [u8]) -> bool
        requires { self.old.in_first < length buf.old }
        ensures wide { length buf.new ≡ length buf.old }
        ensures ended { self.new.ended ≡ self.old.ended }
        ensures faults { self.new.faults ≡ self.old.faults }
    {
        let begun = self.in_first;
        if begun == 0 {
            return false;
        }
        let Ok(octets) = self.second.fill_buf() else {
            return false;
        };
        let all = octets.len();
        self.in_second = all;
        let count = buf.len() - begun;
        if all < count {
            return false;
        }
        buf[begun..].copy_from_slice(&octets[..count]);
        if !self.fill_from_first(&mut buf[..begun]) {
            return false;
        }
        self.second.consume(count);
        self.in_second = all - count;
        self.turn();
        true
    }

    // Fills a buffer with the first octets of the first block, and says whether it holds so many.
    #[inline(always)]
    fn fill_from_first(&mut self, buf: &mut [u8]) -> bool
        ensures wide { length buf.new ≡ length buf.old }
        ensures ended { self.new.ended ≡ self.old.ended }
        ensures faults { self.new.faults ≡ self.old.faults }
    {
        let count = buf.len();
        let Ok(octets) = self.first.fill_buf() else {
            return false;
        };
        if octets.len() < count {
            return false;
        }
        buf.copy_from_slice(&octets[..count]);
        self.in_first = octets.len() - count;
        self.first.consume(count);
        true
    }
}

impl Source for StandardInput {
    ghost seen = { λ s. record { left = None; ended = s.ended; faults = s.faults } };

    fn fetch(&mut self, buf: &mut [u8]) -> Result<usize, ReadFailed> {
        if self.ended || buf.is_empty() {
            return Ok(0);
        }
        match self.take(buf) {
            Ok(count) => {
                self.ended = count == 0;
                Ok(count)
            }
            Err(_) => {
                self.faults = self.faults.saturating_add(1);
                Err(ReadFailed)
            }
        }
    }

    #[inline(always)]
    fn fill(&mut self, buf: &mut [u8]) -> bool {
        if self.ended || buf.is_empty() {
            return false;
        }
        if self.in_first < buf.len() {
            return self.fill_from_both(buf);
        }
        self.fill_from_first(buf)
    }

    fn ahead(&self) -> usize {
        self.in_first.saturating_add(self.in_second)
    }
}

// A lock of standard input, which holds no octets yet.
fn locked(alloc: Global, stdin: Stdin) -> Result<Box<StdinLock<'static>>, Memory> {
    match Box::new(alloc, stdin.lock()) {
        Ok(lock) => Ok(lock),
        Err(_) => Err(Memory),
    }
}
