// Each call once with ample memory, and each object in memory once with a call that fails.
use nd_base::{
    Counted, FileFault, Files, FolderFiles, InputSource, MemFiles, MemSink, MemSource, Name,
    Octets, OutputSink, PlainSink, PlainSource, ReadFailed, Sink, Source, Steps, Uncounted,
    WriteFailed,
};
use std::alloc::Global;
use std::io::{ErrorKind, Read};
use std::test::Fail;
use std::{fs, io};

#[test]
fn octets_and_names_are_copied(rt: HostRuntime) -> Result<(), Fail> {
    let mut octets = Octets::copy(rt.alloc(), b"ab")?;
    octets.append(b"cd")?;
    assert_eq!(rt; octets.as_slice(), b"abcd".as_slice());
    let name = Name::copy(rt.alloc(), b"node")?;
    assert_eq!(rt; name.as_slice(), b"node".as_slice());
    Ok(())
}

#[test]
fn source_gives_pieces(rt: HostRuntime) -> Result<(), Fail> {
    let mut source = MemSource::new(rt.alloc(), b"abcde", 2, &[2])?;
    let mut buf = [0u8; 4];
    assert_eq!(rt; source.fetch(&mut buf), Ok(2));
    assert_eq!(rt; source.fetch(&mut buf), Err(ReadFailed));
    assert_eq!(rt; source.left(), b"cde".as_slice());
    assert_eq!(rt; source.fetch(&mut buf), Ok(2));
    assert_eq!(rt; source.fetch(&mut buf), Ok(1));
    assert_eq!(rt; buf[0], b'e');
    assert_eq!(rt; source.fetch(&mut buf), Ok(0));
    Ok(())
}

#[test]
fn sink_keeps_its_room(rt: HostRuntime) -> Result<(), Fail> {
    let mut sink = MemSink::new(rt.alloc(), 5, &[1])?;
    assert_eq!(rt; sink.put(b"ab"), Err(WriteFailed));
    assert_eq!(rt; sink.written(), b"".as_slice());
    assert_eq!(rt; sink.put(b"abc"), Ok(()));
    assert_eq!(rt; sink.put(b"def"), Err(WriteFailed));
    assert_eq!(rt; sink.written(), b"abcde".as_slice());
    Ok(())
}

// Whether a file is loaded and has this content.
fn has<F: Files>(files: &mut F, alloc: Global, name: &str, content: &[u8]) -> bool {
    match files.load(alloc, name) {
        Ok(octets) => octets.as_slice() == content,
        Err(_) => false,
    }
}

#[test]
fn files_are_loaded_by_name(rt: HostRuntime) -> Result<(), Fail> {
    let mut files = MemFiles::new(rt.alloc(), &[2])?;
    files.add("t.idl", b"one")?;
    assert!(rt; has(&mut files, rt.alloc(), "t.idl", b"one"));
    let failed = files.load(rt.alloc(), "t.idl").err();
    assert_eq!(rt; failed, Some(FileFault::Failed));
    let absent = files.load(rt.alloc(), "t.acf").err();
    assert_eq!(rt; absent, Some(FileFault::Absent));
    files.add("t.idl", b"two")?;
    assert!(rt; has(&mut files, rt.alloc(), "t.idl", b"two"));
    Ok(())
}

#[test]
fn plain_objects_never_fail(rt: HostRuntime) -> Result<(), Fail> {
    let mut source = PlainSource::new(Octets::copy(rt.alloc(), b"abc")?);
    let mut buf = [0u8; 2];
    assert_eq!(rt; source.fetch(&mut buf), Ok(2));
    assert_eq!(rt; source.fetch(&mut buf), Ok(1));
    assert_eq!(rt; buf, *b"cb");
    assert_eq!(rt; source.fetch(&mut buf), Ok(0));
    assert_eq!(rt; source.into_octets().as_slice(), b"abc".as_slice());
    assert_eq!(rt; PlainSink::new().put(b"abc"), Ok(()));
    Ok(())
}

#[test]
fn steps_are_counted(rt: HostRuntime) {
    let mut steps = Steps::new(Counted::new());
    for _ in 0..3 {
        steps.tick();
    }
    assert_eq!(rt; steps.ledger().count(), 3);
    let mut quiet = Steps::new(Uncounted::new());
    quiet.tick();
}

// A reader that gives one octet and then fails.
#[derive(Drop)]
struct Cut {
    given: bool,
}

impl Read for Cut {
    fn read(&mut self, buf: &mut [u8]) -> io::Result<usize> {
        if self.given || buf.is_empty() {
            return Err(io::Error::from(ErrorKind::Other));
        }
        self.given = true;
        buf[0] = b'x';
        Ok(1)
    }
}

#[test]
fn streams_are_read(rt: HostRuntime) {
    let mut source = InputSource::new(b"abc".as_slice());
    let mut buf = [0u8; 2];
    assert_eq!(rt; source.fetch(&mut []), Ok(0));
    assert_eq!(rt; source.fetch(&mut buf), Ok(2));
    assert_eq!(rt; source.fetch(&mut buf), Ok(1));
    assert_eq!(rt; buf, *b"cb");
    assert_eq!(rt; source.fetch(&mut buf), Ok(0));
    let mut cut = InputSource::new(Cut { given: false });
    assert_eq!(rt; cut.fetch(&mut buf), Ok(1));
    assert_eq!(rt; cut.fetch(&mut buf), Err(ReadFailed));
}

#[test]
fn streams_are_written(rt: HostRuntime) {
    let mut taken = [0u8; 4];
    let mut sink = OutputSink::new(taken.as_mut_slice());
    assert_eq!(rt; sink.put(b"abc"), Ok(()));
    assert_eq!(rt; sink.put(b"de"), Err(WriteFailed));
    drop(sink);
    assert_eq!(rt; taken, *b"abcd");
}

#[test]
fn files_of_the_system_are_loaded(rt: HostRuntime) -> Result<(), Fail> {
    fs::write(&rt, "test_base_folder_files.tmp", "one")?;
    let mut files = FolderFiles::new(&rt);
    assert!(rt; has(&mut files, rt.alloc(), "test_base_folder_files.tmp", b"one"));
    fs::remove_file(&rt, "test_base_folder_files.tmp")?;
    let absent = files.load(rt.alloc(), "test_base_folder_files.tmp").err();
    assert_eq!(rt; absent, Some(FileFault::Absent));
    let folder = files.load(rt.alloc(), ".").err();
    assert_eq!(rt; folder, Some(FileFault::Failed));
    Ok(())
}
