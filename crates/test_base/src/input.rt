// A stream that is cut into pieces of three octets.
use nd_base::{Intake, IntakeFault, MemSource, STREAM_LIMIT};
use std::test::Fail;

#[test]
fn octets_come_as_they_are_wanted(rt: HostRuntime) -> Result<(), Fail> {
    let mut source = MemSource::new(rt.alloc(), b"abcdefghij", 3, &[])?;
    let mut intake = Intake::new(rt.alloc())?;
    assert_eq!(rt; intake.gap(&mut source, 0, 2), Ok(()));
    assert_eq!(rt; intake.octets(), b"ab".as_slice());
    assert_eq!(rt; intake.item(&mut source, 2, 4), Ok(()));
    assert_eq!(rt; intake.octets(), b"cdef".as_slice());
    let past = STREAM_LIMIT - 1;
    assert_eq!(rt;
        intake.item(&mut source, past, 2),
        Err(IntakeFault::TooLong)
    );
    let end = IntakeFault::Truncated { place: 10 };
    assert_eq!(rt; intake.item(&mut source, 6, 8), Err(end));
    Ok(())
}
