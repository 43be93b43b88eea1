// Runs of a command in which one call fails.
ghost use Rattle.std.specs.Prelude.{◌≡◌, ◌≤◌, false, IfOk};
ghost use Rattle.ndr_pipe.specs.Ends.{AreOpen, ends_seen};

use crate::commands::{Call, Command, File};
use dceidl::{Status, Words, run};
use nd_base::{MemFiles, MemSink, MemSource, Memory, Octets};
use ndr_pipe::{MemEnd, PipeEnd, PipeEnds};
use std::alloc::Global;

// Which calls fail, by their numbers from 1: 0 fails none. Of an end `take` and `finish` are counted together.
#[derive(Clone, Copy)]
pub(crate) struct Failing {
    pub(crate) load: u32,
    /// The name of a file that is not there.
    pub(crate) absent: &'static str,
    pub(crate) fetch: u32,
    /// A second fetch that fails.
    pub(crate) fetch_again: u32,
    pub(crate) put: u32,
    pub(crate) note: u32,
    pub(crate) ends: [u32; 2],
    /// How many octets the output, the notes and each end hold.
    pub(crate) out_room: u32,
    pub(crate) notes_room: u32,
    pub(crate) end_rooms: [u32; 2],
}

// More octets than an output or an end gets here.
pub(crate) const AMPLE: u32 = 4000;

// No call fails.
pub(crate) const NONE: Failing = Failing {
    load: 0,
    absent: "",
    fetch: 0,
    fetch_again: 0,
    put: 0,
    note: 0,
    ends: [0, 0],
    out_room: AMPLE,
    notes_room: AMPLE,
    end_rooms: [AMPLE, AMPLE],
};

// What a run answers, and what it read and wrote.
#[derive(Drop)]
pub(crate) struct Ran {
    pub(crate) status: Status,
    pub(crate) input: MemSource,
    pub(crate) out: MemSink,
    pub(crate) notes: MemSink,
    pub(crate) ends: PipeEnds,
}

pub(crate) fn run_command(
    alloc: Global,
    command: &Command,
    failing: &Failing,
) -> Result<Ran, Memory> {
    let words = words_of(alloc, command.words)?;
    let mut files = files_of(alloc, command.files, failing)?;
    let piece = command.piece.max(1);
    let mut input = MemSource::new(
        alloc,
        command.input,
        piece,
        &[failing.fetch, failing.fetch_again],
    )?;
    let mut out = MemSink::new(alloc, failing.out_room, &[failing.put])?;
    let mut notes = MemSink::new(alloc, failing.notes_room, &[failing.note])?;
    let mut ends = PipeEnds::new(alloc);
    add(
        &mut ends,
        mem_end(alloc, failing.end_rooms[0], failing.ends[0])?,
    )?;
    add(
        &mut ends,
        mem_end(alloc, failing.end_rooms[1], failing.ends[1])?,
    )?;
    let status = run(
        alloc, &words, &mut files, &mut input, &mut out, &mut notes, &mut ends,
    );
    Ok(Ran {
        status,
        input,
        out,
        notes,
        ends,
    })
}

fn words_of(alloc: Global, given: &[&str]) -> Result<Words, Memory> {
    let mut words = Words::new(alloc);
    for word in given {
        words.push(word)?;
    }
    Ok(words)
}

// The files, without the one that is not there.
fn files_of(alloc: Global, given: &[File], failing: &Failing) -> Result<MemFiles, Memory> {
    let mut files = MemFiles::new(alloc, &[failing.load])?;
    for file in given {
        if file.name != failing.absent {
            files.add(file.name, file.content)?;
        }
    }
    Ok(files)
}

// An end in memory that is not finished.
fn mem_end(alloc: Global, room: u32, fails: u32) -> Result<Box<MemEnd>, Memory>
    ensures { IfOk result (λ b. (⟦<MemEnd as PipeEnd>⟧.seen b.value).finished ≡ false) }
{
    let end = MemEnd::new(alloc, room, &[fails])?;
    match Box::new(alloc, end) {
        Ok(end) => Ok(end),
        Err(_) => Err(Memory),
    }
}

// One more end that is not finished.
#[tactic(auto, using(ndr_pipe::proofs::Open::all_open))]
fn add(ends: &mut PipeEnds, end: Box<dyn PipeEnd>) -> Result<(), Memory>
    requires all { AreOpen (ends_seen seen ends.old) }
    requires one { (seen end).finished ≡ false }
    ensures { IfOk result (λ _. AreOpen (ends_seen seen ends.new)) }
{
    match ends.push(end) {
        Ok(()) => Ok(()),
        Err((memory, _)) => Err(memory),
    }
}

// The lines that these calls give an end.
pub(crate) fn lines_of(alloc: Global, calls: &[Call], which: usize) -> Result<Octets, Memory> {
    let mut lines = Octets::new(alloc);
    for call in calls {
        if call.end == which {
            lines.append(call.line)?;
        }
    }
    Ok(lines)
}

// Whether these calls finish an end.
pub(crate) fn is_finished(calls: &[Call], which: usize) -> bool {
    for call in calls {
        if call.end == which && call.line.is_empty() {
            return true;
        }
    }
    false
}

// The calls that are made once so many octets of the input are read.
pub(crate) fn calls_by(calls: &[Call], read: usize) -> &[Call] {
    for (at, call) in calls.iter().enumerate() {
        if call.read > read {
            return &calls[..at];
        }
    }
    calls
}

// A call of an end by its number, from 1, and the calls before it.
pub(crate) fn call_of(calls: &[Call], which: usize, number: u32) -> Option<(&[Call], &Call)> {
    let mut count = 0u32;
    for (at, call) in calls.iter().enumerate() {
        if call.end == which {
            count = count.saturating_add(1);
            if count == number {
                return Some((&calls[..at], call));
            }
        }
    }
    None
}

// The call of an end whose line is past its room, and the calls before it.
pub(crate) fn call_past(calls: &[Call], which: usize, room: usize) -> Option<(&[Call], &Call)> {
    let mut length = 0usize;
    for (at, call) in calls.iter().enumerate() {
        if call.end == which {
            length = length.saturating_add(call.line.len());
            if length > room {
                return Some((&calls[..at], call));
            }
        }
    }
    None
}
