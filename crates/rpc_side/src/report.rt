// What a side reports, and the limits on what it keeps.

use rpc_stream::{Ended, Fragments, Pdu};

/// How much a side keeps of the calls that are open.
#[derive(Clone, Copy, Debug, PartialEq, Eq)]
pub struct Limits {
    /// How many calls may be open.
    pub calls: u32,
    /// How many octets the fragments of open calls may have together.
    pub octets: u32,
}

/// Which limit a fragment passes.
#[derive(Clone, Copy, Debug, PartialEq, Eq)]
pub enum Limit {
    /// That on the number of open calls.
    Calls,
    /// That on the octets of their fragments.
    Octets,
}

/// What a side reports of its PDUs.
#[derive(Debug, Drop)]
pub enum Report {
    /// A call ended.
    CallEnded {
        call: u32,
        how: Ended,
    },
    /// A fragment passes a limit. Its call ends with it, after these fragments, which may be none; later fragments of the call are strays.
    Passed {
        call: u32,
        limit: Limit,
        fragments: Fragments,
        by: Pdu,
    },
    /// A PDU that is no part of a call of this side.
    Other {
        pdu: Pdu,
    },
}

// What is reported of one PDU, in order.
#[derive(Debug, Drop)]
pub(crate) enum Reports {
    Nothing,
    One { report: Report },
    Two { report: Report, other: Report },
}
