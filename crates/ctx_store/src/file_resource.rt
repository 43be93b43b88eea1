// A resource that is a file. What the operating system does is trusted: nothing is said of what the file holds.
ghost use Rattle.std.specs.Prelude.{◌≡◌, [], false};

use crate::{Resource, ResourceFailed};
use nd_base::{OutputSink, Sink};
use nd_ghost::GhostOctets;
use std::fs::OpenOptions;
use std::rt;

/// A resource that appends each line with a line feed to a file. The file is made, or opened at its end, when the first line is applied, and closed
/// when the resource is ended. It does not show its lines. A line fails if the file cannot be opened or written; then a part of it may be in the
/// file.
#[derive(Drop)]
pub struct FileResource<R: rt::Files + Copy> {
    rt: R,
    name: String,
    file: Option<OutputSink<R::File>>,
    // The lines that were applied.
    lines: GhostOctets,
    faults: u64,
    ended: bool,
}

impl<R: rt::Files + Copy> FileResource<R> {
    /// A resource that appends to the file of this name, a path from the current folder. Makes no file yet. Takes no memory.
    pub fn new(rt: R, name: String) -> Self
        ensures lines { (⟦<FileResource<R> as Resource>⟧.shows result).lines ≡ [] }
        ensures ended { (⟦<FileResource<R> as Resource>⟧.shows result).ended ≡ false }
        ensures faults { (⟦<FileResource<R> as Resource>⟧.shows result).faults ≡ 0 }
    {
        FileResource {
            rt,
            name,
            file: None,
            lines: GhostOctets::none(),
            faults: 0,
            ended: false,
        }
    }

    // Opens the file at its end, and makes it if it is not there, unless this was done already.
    fn open(&mut self) -> Result<(), ResourceFailed>
        ensures lines { self.new.lines ≡ self.old.lines }
        ensures ended { self.new.ended ≡ self.old.ended }
        ensures faults { self.new.faults ≡ self.old.faults }
    {
        if self.file.is_none() {
            let mut options = OpenOptions::new();
            options.append(true);
            options.create(true);
            match options.open(&self.rt, self.name.as_str()) {
                Ok(file) => self.file = Some(OutputSink::new(file)),
                Err(_) => return Err(ResourceFailed),
            }
        }
        Ok(())
    }

    // Writes a line and a line feed.
    fn write(&mut self, line: &[u8]) -> Result<(), ResourceFailed>
        ensures lines { self.new.lines ≡ self.old.lines }
        ensures ended { self.new.ended ≡ self.old.ended }
        ensures faults { self.new.faults ≡ self.old.faults }
    {
        self.open()?;
        let Some(file) = &mut self.file else {
            return Err(ResourceFailed);
        };
        if file.put(line).is_err() || file.put(b"\n").is_err() {
            return Err(ResourceFailed);
        }
        Ok(())
    }
}

impl<R: rt::Files + Copy> Resource for FileResource<R> {
    ghost use Rattle.ctx_store.specs.Resource.{ResourceSeen};

    ghost shows = { λ r. record { lines = r.lines; is_shown = false; ended = r.ended; faults = r.faults } };

    fn apply(&mut self, line: &[u8]) -> Result<(), ResourceFailed> {
        if self.write(line).is_err() {
            self.faults = self.faults.saturating_add(1);
            return Err(ResourceFailed);
        }
        self.lines.add_line(line);
        Ok(())
    }

    fn end(&mut self) -> Result<(), ResourceFailed> {
        self.file = None;
        self.ended = true;
        Ok(())
    }

    fn lines(&self) -> Option<&[u8]> {
        None
    }

    fn ended(&self) -> bool {
        self.ended
    }
}
