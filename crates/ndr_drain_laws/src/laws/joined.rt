//! Laws of streams that are read in parts, to their end or up to a fault, each the contract of a function that does nothing.
ghost use Rattle.std.specs.Prelude.{◌≡◌, ◌≤◌, ◌++◌, ℕ, List, [], length};
ghost use Rattle.nd_base.specs.declared.octets.Order.{Order};
ghost use Rattle.nd_value.specs.declared.value.Graph.{Graph};
ghost use Rattle.nd_value.specs.Canon.{IsCanon};
ghost use Rattle.nd_value.specs.Deferral.{before_pipes};
ghost use Rattle.nd_value.specs.Setting.{Setting, root_list};
ghost use Rattle.nd_grammar.specs.declared.reason.Reason.{Reason};
ghost use Rattle.nd_grammar.specs.Refusal.{Bad};
ghost use Rattle.nd_grammar.specs.Entry.{EntryAt, end_to_end};
ghost use Rattle.nd_grammar.specs.LegalSide.{IsLegalSide};
ghost use Rattle.nd_grammar.specs.decoded.Verdict.{IsReadThrough, RepresentsAlone};
ghost use Rattle.ndr_drain_laws.specs.parts.Parts.{AreReadTo, BadHead, BadPart, IsPart, IsPartThrough, Part, Spot, after_all, first_spot, octets_of};
ghost use Rattle.ndr_drain_laws.specs.parts.Parts.{pipes_of, with_pipes};
ghost use Rattle.ndr_drain_laws.specs.joined.Entries.{entries_to};

/// Octets that are refused in the chunk after a head and chunks that were read are refused, with all that comes before them, as a stream: at the same
/// place, for the same reason, in the same entry, after the entries of the head and of the chunks.
pub fn refused_chunk()
    ensures refuse { (w : Setting) → IsLegalSide w → (order : Order) (head : List ℕ) (g : Graph) (parts : List Part)
        → (it : AreReadTo w order head g parts)
        → (octets : List ℕ) (place : ℕ) (why : Reason) → (bad : BadPart w order (after_all (first_spot w head) parts) octets place why)
        → (whole : Bad w order ((head ++ octets_of parts) ++ octets) place why) × (whole.here ≡ bad.here)
        × (whole.earlier ≡ entries_to w g it.is_head.steps head parts ++ bad.earlier) }
    ensures place { (w : Setting) (head : List ℕ) (parts : List Part)
        → (after_all (first_spot w head) parts).place ≡ length (head ++ octets_of parts) }
{}

/// The entries of a head and of chunks that were read, and the first entries of the chunk after them, are the first entries of a stream, which the
/// octets spell and accept.
pub fn read_through_chunk()
    ensures { (w : Setting) → IsLegalSide w → (order : Order) (head : List ℕ) (g : Graph) (parts : List Part) → (it : AreReadTo w order head g parts)
        → (octets : List ℕ) (earlier : List EntryAt) → IsPartThrough w order (after_all (first_spot w head) parts) octets earlier
        → IsReadThrough w order ((head ++ octets_of parts) ++ octets) (entries_to w g it.is_head.steps head parts ++ earlier) }
{}

/// The entries of a head and of chunks that were read are the first entries of a stream, whether or not pipes are left.
pub fn read_through_parts()
    ensures { (w : Setting) → IsLegalSide w → (order : Order) (head : List ℕ) (g : Graph) (parts : List Part) → (it : AreReadTo w order head g parts)
        → IsReadThrough w order (head ++ octets_of parts) (entries_to w g it.is_head.steps head parts) }
{}

/// A head, whose graph is its own canonical form, and the chunks after it up to the end of every pipe represent the graph with the elements of the
/// chunks in its pipes, and no other; it is its own canonical form too. The entries of its stream are those of the head and of the chunks.
pub fn joined_alone()
    ensures { (w : Setting) → IsLegalSide w → (order : Order) (head : List ℕ) (g : Graph) (parts : List Part) → (it : AreReadTo w order head g parts)
        → IsCanon w g g
        → length (root_list w) ≤ (after_all (first_spot w head) parts).root
        → (a : RepresentsAlone w order (head ++ octets_of parts) (with_pipes w g (pipes_of [] parts)))
        × (end_to_end 0 a.represented.entries ≡ entries_to w g it.is_head.steps head parts) }
{}

/// One verdict on each part of a stream. Octets that begin with a head that is read are not refused in the head, and those that begin with a chunk
/// that is read are not refused in the chunk. A head is refused at one place and for one reason, and so is a chunk at its spot, whatever comes before
/// it.
pub fn one_part_verdict()
    ensures head { (w : Setting) → IsLegalSide w → (order : Order) (head rest : List ℕ) (g : Graph) → AreReadTo w order head g []
        → (place : ℕ) (why : Reason) → ¬ BadHead w order (head ++ rest) place why }
    ensures one_refused_head { (w : Setting) → IsLegalSide w → (order : Order) (octets : List ℕ) (place other : ℕ) (why reason : Reason)
        → BadHead w order octets place why → BadHead w order octets other reason → (place ≡ other) × (why ≡ reason) }
    ensures chunk { (w : Setting) → IsLegalSide w → (order : Order) (s : Spot) → before_pipes (root_list w) ≤ s.root → (p : Part) (rest : List ℕ)
        → IsPart w order s p
        → (place : ℕ) (why : Reason) → ¬ BadPart w order s (p.octets ++ rest) place why }
    ensures one_refused_chunk { (w : Setting) → IsLegalSide w → (order : Order) (s : Spot) → before_pipes (root_list w) ≤ s.root
        → (octets : List ℕ) (place other : ℕ)
        (why reason : Reason) → BadPart w order s octets place why → BadPart w order s octets other reason → (place ≡ other) × (why ≡ reason) }
{}
