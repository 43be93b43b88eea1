//! Laws of what a side reports, each the contract of a function that does nothing.
ghost use Rattle.std.specs.Prelude.{◌≡◌, ℕ, List, None};
ghost use Rattle.rpc_stream.specs.declared.call.Pdu.{Pdu};
ghost use Rattle.rpc_stream.specs.declared.call.Peer.{Peer};
ghost use Rattle.rpc_stream.specs.Calls.{ended_all, open_after, of_id, calls_of, others_of};
ghost use Rattle.rpc_side.specs.declared.report.Limits.{Limits};
ghost use Rattle.rpc_side.specs.declared.report.Report.{Report};
ghost use Rattle.rpc_side.specs.declared.side.Side.{Side};
ghost use Rattle.rpc_side.specs.Kept.{nothing_kept, kept_after, reports_of, IsWithin, NonePassed, ended_under, other_pdus};
ghost use Rattle.rpc_side.specs.Stream.{IsThrough};

/// What is kept is within the limits, whatever comes.
pub fn kept_within_limits()
    ensures { (peer : Peer) (limits : Limits) (pdus : List Pdu) → IsWithin limits (kept_after peer limits nothing_kept pdus) }
{}

/// Where no limit is passed, the calls of an id end as its own PDUs say alone, and the same call is open; and each PDU that is no part of a call is
/// reported, in order.
pub fn each_call_by_itself()
    ensures ended { (c : ℕ) (peer : Peer) (limits : Limits) (pdus : List Pdu) → NonePassed (reports_of peer limits nothing_kept pdus)
        → ended_under c (reports_of peer limits nothing_kept pdus) ≡ ended_all None (of_id c (calls_of peer pdus)) }
    ensures open { (c : ℕ) (peer : Peer) (limits : Limits) (pdus : List Pdu) → NonePassed (reports_of peer limits nothing_kept pdus)
        → (kept_after peer limits nothing_kept pdus).by_id c ≡ open_after None (of_id c (calls_of peer pdus)) }
    ensures others { (peer : Peer) (limits : Limits) (pdus : List Pdu)
        → other_pdus (reports_of peer limits nothing_kept pdus) ≡ others_of peer pdus }
{}

/// The reports of a stream and what is pending after them are the same in whatever pieces it comes.
pub fn any_pieces()
    ensures { (stream : List ℕ) (handed other : List Report) (s t : Side) → IsThrough stream handed s → IsThrough stream other t
        → s.peer ≡ t.peer → s.limits ≡ t.limits → (handed ≡ other) × (s.cutter ≡ t.cutter) }
{}
