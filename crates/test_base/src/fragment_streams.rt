// A request of three fragments, of which the second has an object UUID, and a response of two.
use nd_base::MemSource;
use rpc_pdu::{PduFault, PduReason, Wanted, join};
use std::test::Fail;

pub(crate) const REQUEST: [u8; 97] = [
    5, 0, 0, 1, 16, 0, 0, 0, 28, 0, 0, 0, 7, 0, 0, 0, 9, 0, 0, 0, 0, 0, 1, 0, 1, 2, 3, 4, 5, 0, 0,
    128, 16, 0, 0, 0, 42, 0, 0, 0, 7, 0, 0, 0, 9, 0, 0, 0, 0, 0, 1, 0, 100, 101, 102, 103, 104,
    105, 106, 107, 108, 109, 110, 111, 112, 113, 114, 115, 5, 6, 5, 0, 0, 2, 16, 0, 0, 0, 27, 0, 0,
    0, 7, 0, 0, 0, 9, 0, 0, 0, 0, 0, 1, 0, 7, 8, 9,
];

pub(crate) const RESPONSE: [u8; 52] = [
    5, 0, 2, 1, 0, 0, 0, 0, 0, 27, 0, 0, 0, 0, 1, 2, 0, 0, 0, 9, 0, 0, 0, 0, 1, 2, 3, 5, 0, 2, 2,
    0, 0, 0, 0, 0, 25, 0, 0, 0, 0, 1, 2, 0, 0, 0, 9, 0, 0, 0, 0, 4,
];

// What `join` answers for octets: how many were taken, or why they are refused. Calls to fetch of these numbers fail.
pub(crate) fn answer(
    rt: &HostRuntime,
    want: Wanted,
    octets: &[u8],
    fails: &[u32],
) -> Result<Result<u32, PduFault>, Fail> {
    let mut source = MemSource::new(rt.alloc(), octets, 5, fails)?;
    match join(rt.alloc(), want, &mut source) {
        Ok(joined) => Ok(Ok(joined.taken)),
        Err(fault) => Ok(Err(fault)),
    }
}

pub(crate) fn bad(place: u32, reason: PduReason) -> Result<u32, PduFault> {
    Err(PduFault::Bad { place, reason })
}

// What `join` answers for the request with one octet changed.
pub(crate) fn changed(
    rt: &HostRuntime,
    at: usize,
    octet: u8,
) -> Result<Result<u32, PduFault>, Fail> {
    let mut octets = REQUEST;
    if at < octets.len() {
        octets[at] = octet;
    }
    answer(rt, Wanted::Request, &octets, &[])
}
