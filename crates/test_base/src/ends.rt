// Ends of pipes.
use ndr_pipe::{EndFailed, FileEnd, MemEnd, PipeEnd};
use std::fs;
use std::test::Fail;

#[test]
fn ends_fail_at_listed_calls(rt: HostRuntime) -> Result<(), Fail> {
    let mut end = MemEnd::new(rt.alloc(), 10, &[2])?;
    assert_eq!(rt; end.take(b"1\n"), Ok(()));
    assert_eq!(rt; end.finish(), Err(EndFailed));
    assert!(rt; end.finished());
    Ok(())
}

#[test]
fn files_take_lines(rt: HostRuntime) -> Result<(), Fail> {
    let name = String::from_str(rt.alloc(), "test_base_file_end.tmp")?;
    let mut end = FileEnd::new(rt.alloc(), rt, name)?;
    assert_eq!(rt; end.take(b"1\n"), Ok(()));
    assert_eq!(rt; end.flush(), Ok(()));
    let octets = fs::read(&rt, "test_base_file_end.tmp")?;
    assert_eq!(rt; octets.as_slice(), b"1\n".as_slice());
    assert_eq!(rt; end.take(b"2\n"), Ok(()));
    assert_eq!(rt; end.finish(), Ok(()));
    assert!(rt; end.shown() == None);
    let octets = fs::read(&rt, "test_base_file_end.tmp")?;
    assert_eq!(rt; octets.as_slice(), b"1\n2\n".as_slice());
    fs::remove_file(&rt, "test_base_file_end.tmp")?;
    Ok(())
}
