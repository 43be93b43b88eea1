// The request is cut after each octet, and its source fails at each call.
use crate::fragment_streams::{REQUEST, answer, bad};
use rpc_pdu::{PduFault, PduReason, Wanted};
use std::test::Fail;

#[test]
fn cut_after_each_octet(rt: HostRuntime) -> Result<(), Fail> {
    for cut in 0..REQUEST.len() {
        let answered = answer(&rt, Wanted::Request, &REQUEST[..cut], &[])?;
        assert_eq!(rt; answered, bad(cut as u32, PduReason::Short));
    }
    Ok(())
}

// The source gives five octets at a call, so a whole request takes 24 calls.
#[test]
fn a_fault_at_each_call(rt: HostRuntime) -> Result<(), Fail> {
    for call in 1..25u32 {
        let answered = answer(&rt, Wanted::Request, &REQUEST, &[call])?;
        assert_eq!(rt; answered, Err(PduFault::ReadFault));
    }
    assert_eq!(rt; answer(&rt, Wanted::Request, &REQUEST, &[25])?, Ok(97));
    Ok(())
}
