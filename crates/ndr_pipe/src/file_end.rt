// An end that is a file. What the operating system does is trusted: nothing is said of what the file holds.
ghost use Rattle.std.specs.Prelude.{◌≡◌, ◌≤◌, [], false, true, IfOk};
ghost use Rattle.nd_base.specs.Over.{Rose};

use crate::{EndFailed, PipeEnd};
use nd_base::Memory;
use nd_ghost::GhostOctets;
use std::alloc::Global;
use std::io::{BufWriter, Write};
use std::{fs, io, rt};

// How many octets of lines are written at once.
const HELD: usize = 65_536;

// A file that is made, or emptied, when it is first written or flushed.
#[derive(Drop)]
struct LateFile<R: rt::Files + Copy> {
    rt: R,
    name: String,
    file: Option<R::File>,
}

impl<R: rt::Files + Copy> LateFile<R> {
    // Makes the file, or empties it, if this was not done yet.
    fn make(&mut self) -> io::Result<()> {
        if self.file.is_none() {
            self.file = Some(fs::create(&self.rt, self.name.as_str())?);
        }
        Ok(())
    }
}

impl<R: rt::Files + Copy> Write for LateFile<R> {
    fn write(&mut self, buf: &[u8]) -> io::Result<usize> {
        self.make()?;
        match &mut self.file {
            Some(file) => file.write(buf),
            None => Ok(0),
        }
    }

    fn flush(&mut self) -> io::Result<()> {
        self.make()?;
        match &mut self.file {
            Some(file) => file.flush(),
            None => Ok(()),
        }
    }
}

/// An end that writes to a file. It holds up to 64 KiB of lines back, and writes them when there is no more room for the next line, when it is
/// flushed or finished, and when it is dropped; it cannot report that this last write failed. The file is made, or emptied, when something is first
/// written, flushed or finished, so no file is made for an end that is never called. It does not show what it took. A call fails if the file cannot
/// be made or written.
#[derive(Drop)]
pub struct FileEnd<R: rt::Files + Copy> {
    writer: BufWriter<LateFile<R>>,
    // The lines that were given to the writer.
    taken: GhostOctets,
    faults: u64,
    finished: bool,
}

impl<R: rt::Files + Copy> FileEnd<R> {
    /// An end that writes to the file of this name, a path from the current folder. Makes no file yet. Takes memory for the lines that are held back;
    /// running out of memory is the only refusal.
    pub fn new(alloc: Global, rt: R, name: String) -> Result<Self, Memory>
        ensures taken { IfOk result (λ e. (⟦<FileEnd<R> as PipeEnd>⟧.seen e).taken ≡ []) }
        ensures finished { IfOk result (λ e. (⟦<FileEnd<R> as PipeEnd>⟧.seen e).finished ≡ false) }
        ensures faults { IfOk result (λ e. (⟦<FileEnd<R> as PipeEnd>⟧.seen e).faults ≡ 0) }
    {
        let file = LateFile {
            rt,
            name,
            file: None,
        };
        match BufWriter::with_capacity(alloc, HELD, file) {
            Ok(writer) => Ok(FileEnd {
                writer,
                taken: GhostOctets::none(),
                faults: 0,
                finished: false,
            }),
            Err(_) => Err(Memory),
        }
    }

    // A call failed: this is counted, and the end is finished.
    fn fail(&mut self) -> EndFailed
        ensures taken { self.new.taken ≡ self.old.taken }
        ensures finished { self.new.finished ≡ true }
        ensures risen { Rose self.old.faults self.new.faults }
        ensures later { self.old.faults ≤ self.new.faults }
    {
        self.finished = true;
        self.faults = self.faults.saturating_add(1);
        EndFailed
    }
}

impl<R: rt::Files + Copy> PipeEnd for FileEnd<R> {
    ghost use Rattle.ndr_pipe.specs.Ends.{EndSeen};

    ghost seen = { λ e. record { taken = e.taken; is_shown = false; finished = e.finished; faults = e.faults } };

    fn take(&mut self, line: &[u8]) -> Result<(), EndFailed> {
        match self.writer.write_all(line) {
            Ok(()) => {
                self.taken.add(line);
                Ok(())
            }
            Err(_) => Err(self.fail()),
        }
    }

    fn flush(&mut self) -> Result<(), EndFailed> {
        match self.writer.flush() {
            Ok(()) => Ok(()),
            Err(_) => Err(self.fail()),
        }
    }

    fn finish(&mut self) -> Result<(), EndFailed> {
        match self.writer.flush() {
            Ok(()) => {
                self.finished = true;
                Ok(())
            }
            Err(_) => Err(self.fail()),
        }
    }

    fn shown(&self) -> Option<&[u8]> {
        None
    }

    fn finished(&self) -> bool {
        self.finished
    }
}
