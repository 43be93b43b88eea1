// One octet of the request is changed: each reason, at the first fragment and at later ones.
use crate::fragment_streams::{RESPONSE, answer, bad, changed};
use rpc_pdu::{PduReason, Wanted};
use std::test::Fail;

#[test]
fn the_first_fragment(rt: HostRuntime) -> Result<(), Fail> {
    assert_eq!(rt; changed(&rt, 0, 4)?, bad(0, PduReason::Version));
    assert_eq!(rt; changed(&rt, 2, 2)?, bad(2, PduReason::Kind));
    assert_eq!(rt; changed(&rt, 3, 0)?, bad(3, PduReason::Flags));
    assert_eq!(rt; changed(&rt, 4, 0x20)?, bad(4, PduReason::Label));
    assert_eq!(rt; changed(&rt, 8, 23)?, bad(8, PduReason::Length));
    Ok(())
}

#[test]
fn the_first_fragment_to_its_end(rt: HostRuntime) -> Result<(), Fail> {
    assert_eq!(rt; changed(&rt, 10, 1)?, bad(10, PduReason::Auth));
    assert_eq!(rt; changed(&rt, 8, 24)?, bad(8, PduReason::EmptyPiece));
    assert_eq!(rt; changed(&rt, 3, 3)?, Ok(28));
    assert_eq!(rt; changed(&rt, 3, 5)?, Ok(97));
    assert_eq!(rt; changed(&rt, 1, 9)?, Ok(97));
    Ok(())
}

#[test]
fn a_later_fragment(rt: HostRuntime) -> Result<(), Fail> {
    assert_eq!(rt; changed(&rt, 28, 4)?, bad(28, PduReason::Version));
    assert_eq!(rt; changed(&rt, 30, 2)?, bad(30, PduReason::Kind));
    assert_eq!(rt; changed(&rt, 31, 129)?, bad(31, PduReason::Flags));
    assert_eq!(rt; changed(&rt, 32, 0x11)?, bad(32, PduReason::Label));
    assert_eq!(rt; changed(&rt, 32, 0)?, bad(32, PduReason::OtherOrder));
    Ok(())
}

#[test]
fn a_later_fragment_to_its_end(rt: HostRuntime) -> Result<(), Fail> {
    assert_eq!(rt; changed(&rt, 36, 39)?, bad(36, PduReason::Length));
    assert_eq!(rt; changed(&rt, 38, 1)?, bad(38, PduReason::Auth));
    assert_eq!(rt; changed(&rt, 40, 8)?, bad(40, PduReason::OtherCall));
    assert_eq!(rt; changed(&rt, 50, 2)?, bad(50, PduReason::OtherOperation));
    assert_eq!(rt; changed(&rt, 36, 40)?, bad(36, PduReason::EmptyPiece));
    Ok(())
}

#[test]
fn the_last_flag(rt: HostRuntime) -> Result<(), Fail> {
    assert_eq!(rt; changed(&rt, 31, 130)?, Ok(70));
    assert_eq!(rt; changed(&rt, 73, 0)?, bad(97, PduReason::Short));
    assert_eq!(rt; changed(&rt, 78, 24)?, Ok(94));
    assert_eq!(rt; changed(&rt, 78, 28)?, bad(97, PduReason::Short));
    Ok(())
}

#[test]
fn a_response(rt: HostRuntime) -> Result<(), Fail> {
    assert_eq!(rt; answer(&rt, Wanted::Response, &RESPONSE, &[])?, Ok(52));
    let kind = bad(2, PduReason::Kind);
    assert_eq!(rt; answer(&rt, Wanted::Request, &RESPONSE, &[])?, kind);
    Ok(())
}
