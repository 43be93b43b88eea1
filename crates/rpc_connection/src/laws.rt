//! Laws of the calls of a connection, each the contract of a function that does nothing.
ghost use Rattle.std.specs.Prelude.{◌≡◌, ℕ, ◌≤◌, ◌<◌, ◌^◌, ◌==◌, List, false, length, slice_index};
ghost use Rattle.rpc_stream.specs.Pdus.{joined, is_no_label};
ghost use Rattle.rpc_stream.specs.Pdus.{fragment_length as stated_length};
ghost use Rattle.rpc_pdu.specs.declared.pdu.Wanted.{Wanted};
ghost use Rattle.rpc_pdu.specs.Checks.{Before, nothing, fragment_length};
ghost use Rattle.rpc_pdu.specs.Reader.{found, read};
ghost use Rattle.rpc_stream.specs.declared.call.Peer.TheVariants.{Client, Server};
ghost use Rattle.rpc_stream.specs.declared.call.Pdu.{Pdu};
ghost use Rattle.rpc_connection.specs.Pairs.{own_of, exchanges};
ghost use Rattle.rpc_connection.specs.Bare.{plain, bare};
ghost use Rattle.rpc_connection.specs.Verdict.{said, plain_from, opened, verdict, AllWhole, AllSound};

/// The stub data of a call are those that `join` gives of its own fragments, end to end, without padding and security trailers.
pub fn stub_is_joined()
    ensures call { (want : Wanted) (fragments : List (List ℕ)) (b : Before) → AllSound fragments → verdict want fragments ≡ said b
        → read want (joined (opened want fragments).plains) ≡ found b }
    ensures of_plain { (want : Wanted) (fragments : List (List ℕ)) (b : Before) → AllWhole fragments
        → plain_from want 0 nothing fragments ≡ said b → read want (joined fragments) ≡ found b }
{}

/// A fragment without its padding and security trailer is as long as its header says.
pub fn bare_is_whole()
    ensures whole { (want : Wanted) (p q : List ℕ) → length p ≡ fragment_length p → 16 ≤ length p → fragment_length p < 2 ^ 16
        → bare want p ≡ plain q → length q ≡ fragment_length q }
    ensures one_length { (os : List ℕ) → is_no_label (slice_index os 4) ≡ false → fragment_length os ≡ stated_length os }
{}

/// Under each call id, which answer belongs to which question is the same however the PDUs of each side are interleaved with those of other ids.
pub fn pairs_of_sides()
    ensures { (c : ℕ) (client client' server server' : List Pdu) → own_of Client c client ≡ own_of Client c client'
        → own_of Server c server ≡ own_of Server c server' → exchanges c client server ≡ exchanges c client' server' }
{}
