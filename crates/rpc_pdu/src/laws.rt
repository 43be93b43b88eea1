//! Laws of the fragments of a call, each the contract of a function that does nothing.
ghost use Rattle.std.specs.Prelude.{◌≡◌, ℕ, ◌≤◌, ◌<◌, ◌^◌, List, length, ◌++◌, ◌⊎◌, Option, Some};
ghost use Rattle.nd_base.specs.declared.TheConstants.{STREAM_LIMIT};
ghost use Rattle.nd_base.specs.declared.octets.Order.{Order};
ghost use Rattle.nd_base.specs.Over.{SourceOver};
ghost use Rattle.rpc_pdu.specs.declared.pdu.Wanted.{Wanted};
ghost use Rattle.rpc_pdu.specs.declared.pdu.Head.{Head};
ghost use Rattle.rpc_pdu.specs.declared.pdu.PduReason.{PduReason};
ghost use Rattle.rpc_pdu.specs.declared.pdu.PduReason.TheVariants as why;
ghost use Rattle.rpc_pdu.specs.Fragments.{IsRefused, Fragments, BadPdu, BeginsWithCall, SameCall, Pieces, want_of, opnum_of, HeadFits};

/// One verdict: any octets begin with the fragments of a call or are refused, and never both. There is one such call, fixed by the octets with its
/// order, call id, operation and stub data, whatever follows it; and a refusal has one place and one reason.
pub fn one_verdict()
    ensures one_of_two { (want : Wanted) (octets : List ℕ)
        → BeginsWithCall want octets ⊎ ((place : ℕ) × (w : PduReason) × BadPdu want octets place w) }
    ensures never_both { (want : Wanted) (octets more : List ℕ) (order : Order) (call : ℕ) (opnum : Option ℕ) (stub : List ℕ)
        (place : ℕ) (w : PduReason)
        → Fragments octets want order call opnum stub → BadPdu want (octets ++ more) place w → ⊥ }
    ensures one_call { (want : Wanted) (octets other more more' : List ℕ) (order order' : Order)
        (call call' : ℕ) (opnum opnum' : Option ℕ) (stub stub' : List ℕ)
        → octets ++ more ≡ other ++ more' → Fragments octets want order call opnum stub → Fragments other want order' call' opnum' stub'
        → SameCall octets other order order' call call' opnum opnum' stub stub' }
    ensures one_refusal { (want : Wanted) (octets : List ℕ) (place other : ℕ) (w v : PduReason)
        → BadPdu want octets place w → BadPdu want octets other v → (place ≡ other) × (w ≡ v) }
{}

/// Octets that are refused stay refused, at the same place and for the same reason, whatever octets follow them, unless they only end too early
/// (Short).
pub fn refusal_stays()
    ensures { (want : Wanted) (octets more : List ℕ) (place : ℕ) (w : PduReason) → BadPdu want octets place w → (w ≡ why.Short → ⊥)
        → BadPdu want (octets ++ more) place w }
{}

/// The fragments that stub data are split into are the fragments of a call with these stub data.
pub fn pieces_are_fragments()
    ensures { (order : Order) (head : Head) (call max : ℕ) (stub : List ℕ)
        → call < 2 ^ 32 → HeadFits head → 1024 ≤ max → max < 2 ^ 16 → length stub ≤ STREAM_LIMIT
        → Fragments (Pieces order head call max stub) (want_of head) order call (opnum_of head) stub }
{}

/// If the octets that a source has left are known, a refusal of `join` is that of all of these octets, even if not all were asked for.
pub fn refusal_of_all()
    ensures { (want : Wanted) (s : SourceOver) (place : ℕ) (w : PduReason) → IsRefused want s place w
        → (all : List ℕ) → s.left ≡ Some all → BadPdu want all place w }
{}
