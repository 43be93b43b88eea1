// A request of 16 octets of stub data, in one fragment and in two, and one of 1,500 octets, which has two fragments of at most 1,024 octets.
use nd_base::{MemSource, Order};
use rpc_pdu::{Head, PduFault, PduReason, Wanted, join, split};
use std::test::Fail;

const STUB: [u8; 16] = [1, 0, 0, 0, 2, 0, 0, 0, 3, 0, 0, 0, 0, 0, 0, 0];

const WHOLE: [u8; 40] = [
    5, 0, 0, 3, 16, 0, 0, 0, 40, 0, 0, 0, 7, 0, 0, 0, 16, 0, 0, 0, 0, 0, 0, 0, 1, 0, 0, 0, 2, 0, 0,
    0, 3, 0, 0, 0, 0, 0, 0, 0,
];

const TWO: [u8; 64] = [
    5, 0, 0, 1, 16, 0, 0, 0, 29, 0, 0, 0, 7, 0, 0, 0, 16, 0, 0, 0, 0, 0, 0, 0, 1, 0, 0, 0, 2, 5, 0,
    0, 2, 16, 0, 0, 0, 35, 0, 0, 0, 7, 0, 0, 0, 16, 0, 0, 0, 0, 0, 0, 0, 0, 0, 0, 3, 0, 0, 0, 0, 0,
    0, 0,
];

const LONG: [u8; 1500] = [171; 1500];

// The headers of its fragments.
const FIRST: [u8; 24] = [
    5, 0, 0, 1, 0, 0, 0, 0, 4, 0, 0, 0, 0, 0, 0, 7, 0, 0, 5, 220, 0, 0, 1, 2,
];

const LAST: [u8; 24] = [
    5, 0, 0, 2, 0, 0, 0, 0, 2, 12, 0, 0, 0, 0, 0, 7, 0, 0, 5, 220, 0, 0, 1, 2,
];

// The octet at a place of these fragments.
fn octet_at(at: usize) -> u8 {
    if at < 24 {
        FIRST[at]
    } else if at < 1024 {
        171
    } else if at < 1048 {
        LAST[at - 1024]
    } else {
        171
    }
}

#[test]
fn long_stub_data_are_split(rt: HostRuntime) -> Result<(), Fail> {
    let head = Head::Request { opnum: 258 };
    let octets = split(rt.alloc(), Order::Big, head, 7, 1024, &LONG)?;
    assert!(rt; octets.as_slice().len() == 1548);
    for (at, octet) in octets.as_slice().iter().enumerate() {
        assert!(rt; *octet == octet_at(at));
    }
    Ok(())
}

#[test]
fn stub_data_are_split(rt: HostRuntime) -> Result<(), Fail> {
    let head = Head::Request { opnum: 0 };
    let octets = split(rt.alloc(), Order::Little, head, 7, 1024, &STUB)?;
    assert_eq!(rt; octets.as_slice(), WHOLE.as_slice());
    Ok(())
}

#[test]
fn fragments_are_joined(rt: HostRuntime) -> Result<(), Fail> {
    let mut source = MemSource::new(rt.alloc(), &TWO, 7, &[])?;
    let joined = join(rt.alloc(), Wanted::Request, &mut source)?;
    assert_eq!(rt; joined.stub.as_slice(), STUB.as_slice());
    assert!(rt; joined.call == 7 && joined.opnum == Some(0) && joined.taken == 64);
    Ok(())
}
