//! Laws of streams and of interleaved calls, each the contract of a function that does nothing.
ghost use Rattle.std.specs.Prelude.{◌≡◌, ℕ, ◌≤◌, List, [], ◌∷◌, ◌++◌, length, take, None};
ghost use Rattle.rpc_stream.specs.declared.stated.First.TheVariants.{Waiting, Whole, Wrong};
ghost use Rattle.rpc_stream.specs.declared.stated.StreamReason.{StreamReason};
ghost use Rattle.rpc_stream.specs.Pdus.{first_of, joined, Cut, Fed, lacking_of, IsTaken};
ghost use Rattle.rpc_stream.specs.declared.call.Peer.{Peer};
ghost use Rattle.rpc_stream.specs.declared.call.Pdu.{Pdu};
ghost use Rattle.rpc_stream.specs.Calls.{nothing_open, run, ended_of, ended_all, open_after, of_id, calls_of, others_of, Woven};
ghost use Rattle.rpc_stream.specs.Calls.{AllHave, NoneHas, reported_all, still_open};

/// Any octets are PDUs and then a rest that begins with none, in exactly one way.
pub fn one_cut()
    ensures some { (stream : List ℕ) → (pdus : List (List ℕ)) × (rest : List ℕ) × Cut stream pdus rest }
    ensures one { (stream : List ℕ) (pdus others : List (List ℕ)) (rest left : List ℕ) → Cut stream pdus rest → Cut stream others left
        → (pdus ≡ others) × (rest ≡ left) }
{}

/// The PDUs of a stream and its rest are the same in whatever pieces it comes; and what is refused stays refused.
pub fn any_pieces()
    ensures same { (pieces pieces' pdus pdus' : List (List ℕ)) (rest rest' : List ℕ) → joined pieces ≡ joined pieces'
        → Fed pieces pdus rest → Fed pieces' pdus' rest' → (pdus ≡ pdus') × (rest ≡ rest') }
    ensures cut { (pieces pdus : List (List ℕ)) (rest : List ℕ) → Fed pieces pdus rest → Cut (joined pieces) pdus rest }
    ensures stays { (os more : List ℕ) (place : ℕ) (w : StreamReason) → first_of os ≡ Wrong place w → first_of (os ++ more) ≡ Wrong place w }
{}

/// If to a part of a PDU no more octets are added than are missing, none of them is past its end: what is then whole is one PDU.
pub fn no_octet_past()
    ensures whole { (os : List ℕ) → first_of os ≡ Whole (length os) → Cut os (os ∷ []) [] }
    ensures part { (os : List ℕ) → first_of os ≡ Waiting → Cut os [] os }
    ensures end { (os more : List ℕ) (n : ℕ) → first_of os ≡ Waiting → length more ≤ lacking_of os → first_of (os ++ more) ≡ Whole n
        → n ≡ length (os ++ more) }
{}

/// A loop over `Cutter::take`, `first` and `clear` cuts the stream: each turn keeps `Fed`, and takes an octet while octets are left.
pub fn cutter_feeds()
    ensures waits { (pieces pdus : List (List ℕ)) (rest piece new : List ℕ) (n : ℕ) → Fed pieces pdus rest → IsTaken rest piece n new
        → first_of new ≡ Waiting → Fed (pieces ++ (take n piece ∷ [])) (pdus ++ []) new }
    ensures cuts { (pieces pdus : List (List ℕ)) (rest piece new : List ℕ) (n m : ℕ) → Fed pieces pdus rest → first_of rest ≡ Waiting
        → IsTaken rest piece n new → first_of new ≡ Whole m → Fed (pieces ++ (take n piece ∷ [])) (pdus ++ (new ∷ [])) [] }
    ensures moves { (rest piece new : List ℕ) (n : ℕ) → first_of rest ≡ Waiting → IsTaken rest piece n new → 1 ≤ length piece → 1 ≤ n }
{}

/// What ends under a call id is what its own PDUs give alone, however they are interleaved with those of others.
pub fn any_interleaving()
    ensures alone { (c : ℕ) (ps : List Pdu) → ended_of c (run nothing_open ps) ≡ ended_all None (of_id c ps) }
    ensures woven { (c : ℕ) (own others ps : List Pdu) → AllHave c own → NoneHas c others → Woven own others ps
        → ended_of c (run nothing_open ps) ≡ ended_all None own }
{}

/// Nothing is lost: the PDUs of a call id, each once and in order, are those of the calls that ended, and then those of the call that is open. A
/// side's PDUs are parts of calls or not, and each is in one of the two.
pub fn nothing_lost()
    ensures by_id { (c : ℕ) (ps : List Pdu)
        → reported_all (ended_of c (run nothing_open ps)) ++ still_open (open_after None (of_id c ps)) ≡ of_id c ps }
    ensures of_side { (side : Peer) (ps : List Pdu) → Woven (calls_of side ps) (others_of side ps) ps }
{}
