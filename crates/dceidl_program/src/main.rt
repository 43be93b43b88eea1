//! The program `dceidl`: the words of its command line are done over the standard streams, the files of the current folder, eight ends of pipes and
//! eight resources.
#![tactic(auto)]

mod standard_input;

ghost use Rattle.std.specs.Prelude.{◌≡◌, false, IfOk};
ghost use Rattle.ndr_pipe.specs.Ends.{AreOpen, ends_seen};
ghost use Rattle.ctx_session.specs.Session.{AreFresh};
ghost use Rattle.ctx_session.specs.Stocked.{fresh_seen};

use crate::standard_input::StandardInput;
use ctx_session::Stock;
use ctx_store::{FileResource, Resource};
use dceidl::{Status, Words, run_with};
use nd_base::{FolderFiles, Memory, OutputSink};
use ndr_pipe::{FileEnd, PipeEnd, PipeEnds};
use std::env;
use std::io::ErrorKind;
use std::process::ExitCode;

fn main(rt: HostRuntime) -> ExitCode {
    match start(rt) {
        Ok(status) => ExitCode::from(status),
        Err(Memory) => ExitCode::from(5),
    }
}

// A run over the real streams and files, and over eight ends and eight resources, which are files of the current folder. The boxes are made here: no
// function may make them and hand them out.
fn start(rt: HostRuntime) -> Result<Status, Memory> {
    let mut ends = PipeEnds::new(rt.alloc());
    add(&mut ends, file_end(rt, "pipe0.out")?)?;
    add(&mut ends, file_end(rt, "pipe1.out")?)?;
    add(&mut ends, file_end(rt, "pipe2.out")?)?;
    add(&mut ends, file_end(rt, "pipe3.out")?)?;
    add(&mut ends, file_end(rt, "pipe4.out")?)?;
    add(&mut ends, file_end(rt, "pipe5.out")?)?;
    add(&mut ends, file_end(rt, "pipe6.out")?)?;
    add(&mut ends, file_end(rt, "pipe7.out")?)?;
    let mut stock = Stock::new(rt.alloc());
    supply(&mut stock, file_resource(rt, "res0.out")?)?;
    supply(&mut stock, file_resource(rt, "res1.out")?)?;
    supply(&mut stock, file_resource(rt, "res2.out")?)?;
    supply(&mut stock, file_resource(rt, "res3.out")?)?;
    supply(&mut stock, file_resource(rt, "res4.out")?)?;
    supply(&mut stock, file_resource(rt, "res5.out")?)?;
    supply(&mut stock, file_resource(rt, "res6.out")?)?;
    supply(&mut stock, file_resource(rt, "res7.out")?)?;
    run_over(&rt, &mut ends, &mut stock)
}

// A run over the real streams and files. At the end, whatever the status, the position of a file that is standard input is moved back to where the
// octets that were taken end: `StandardInput` does that when it is dropped.
fn run_over(rt: &HostRuntime, ends: &mut PipeEnds, stock: &mut Stock) -> Result<Status, Memory>
    requires open { AreOpen (ends_seen seen ends.old) }
    requires fresh { AreFresh (fresh_seen shows stock.old) }
{
    let words = words_of(rt)?;
    let mut files = FolderFiles::new(rt);
    let mut input = StandardInput::new(rt.alloc(), rt.stdin())?;
    let mut out = OutputSink::new(rt.stdout());
    let mut notes = OutputSink::new(rt.stderr());
    Ok(run_with(
        rt.alloc(),
        &words,
        &mut files,
        &mut input,
        &mut out,
        &mut notes,
        ends,
        stock,
    ))
}

// An end that is the file of this name. The file is made when the end first writes to it.
fn file_end(rt: HostRuntime, name: &str) -> Result<Box<FileEnd<HostRuntime>>, Memory>
    ensures { IfOk result (λ b. (⟦<FileEnd<HostRuntime> as PipeEnd>⟧.seen b.value).finished ≡ false) }
{
    let name = String::from_str(rt.alloc(), name)?;
    let end = FileEnd::new(rt.alloc(), rt, name)?;
    match Box::new(rt.alloc(), end) {
        Ok(end) => Ok(end),
        Err(_) => Err(Memory),
    }
}

// One more end that is not finished.
#[tactic(auto, using(ndr_pipe::proofs::Open::all_open))]
fn add(ends: &mut PipeEnds, end: Box<dyn PipeEnd>) -> Result<(), Memory>
    requires all { AreOpen (ends_seen seen ends.old) }
    requires one { (seen end).finished ≡ false }
    ensures { IfOk result (λ _. AreOpen (ends_seen seen ends.new)) }
{
    match ends.push(end) {
        Ok(()) => Ok(()),
        Err((memory, _)) => Err(memory),
    }
}

// A resource that appends to the file of this name. The file is made when the first line is applied.
fn file_resource(rt: HostRuntime, name: &str) -> Result<Box<FileResource<HostRuntime>>, Memory>
    ensures { IfOk result (λ b. (⟦<FileResource<HostRuntime> as Resource>⟧.shows b.value).ended ≡ false) }
{
    let name = String::from_str(rt.alloc(), name)?;
    match Box::new(rt.alloc(), FileResource::new(rt, name)) {
        Ok(resource) => Ok(resource),
        Err(_) => Err(Memory),
    }
}

// One more resource that was not ended.
fn supply(stock: &mut Stock, resource: Box<dyn Resource>) -> Result<(), Memory>
    requires all { AreFresh (fresh_seen shows stock.old) }
    requires one { (shows resource).ended ≡ false }
    ensures { IfOk result (λ _. AreFresh (fresh_seen shows stock.new)) }
{
    match stock.push(resource) {
        Ok(()) => Ok(()),
        Err((memory, _)) => Err(memory),
    }
}

// The words of the command line. Where one of them is no text they are one empty word, which is no command.
fn words_of(rt: &HostRuntime) -> Result<Words, Memory> {
    let mut words = Words::new(rt.alloc());
    match env::args(rt) {
        Ok(args) => {
            for arg in args.skip(1) {
                words.push(arg.as_str())?;
            }
        }
        Err(error) => {
            if error.kind() == ErrorKind::OutOfMemory {
                return Err(Memory);
            }
            words.push("")?;
        }
    }
    Ok(words)
}
