//! Laws of the plain reader and of what a decoder reports, each the contract of a function that does nothing.
ghost use Rattle.std.specs.Prelude.{◌≡◌, ◌≤◌, ◌+◌, ◌++◌, ℕ, List, Some, None, length};
ghost use Rattle.nd_base.specs.declared.octets.Order.{Order};
ghost use Rattle.nd_base.specs.Over.{SourceOver};
ghost use Rattle.nd_types.specs.Number.{AreOctets};
ghost use Rattle.nd_value.specs.declared.value.Graph.{Graph};
ghost use Rattle.nd_value.specs.Canon.{IsCanon};
ghost use Rattle.nd_value.specs.Conforms.{Conforms};
ghost use Rattle.nd_value.specs.Setting.{Setting, root_list};
ghost use Rattle.nd_grammar.specs.declared.reason.Reason.{Reason};
ghost use Rattle.nd_grammar.specs.Refusal.{Bad};
ghost use Rattle.nd_grammar.specs.Entry.{EntryAt, end_to_end};
ghost use Rattle.nd_grammar.specs.Items.{but_gaps, items};
ghost use Rattle.nd_grammar.specs.LegalSide.{IsLegalSide};
ghost use Rattle.nd_grammar.specs.Stream.{Represents};
ghost use Rattle.nd_grammar.specs.StreamReader.{read_stream};
ghost use Rattle.nd_grammar.specs.decoded.Needed.{IsNeeded};
ghost use Rattle.nd_grammar.specs.decoded.Verdict.{RepresentsAlone, IsReadThrough, IsCounted, IsRefused, DecodingSeen, MayFollow, fetched_to};
ghost use Rattle.nd_grammar.specs.decoded.Verdict.{cells_named, direct_roots};
ghost use Rattle.ndr_decoder_laws.specs.verdict.InOrder.{HasOwnNumbers};

/// The graph that the reader finds is its own canonical form: it numbers cells as the stream comes to name them.
pub fn canonical_graph()
    ensures { (w : Setting) → IsLegalSide w → (order : Order) (octets : List ℕ) → AreOctets octets
        → IsCanon w (read_stream w order octets).graph (read_stream w order octets).graph }
{}

/// Octets that the reader reads to their end without a stop represent the graph that it finds, and no other; and the entries of the graph's stream
/// are those that it passed.
pub fn graph_alone()
    ensures { (w : Setting) → IsLegalSide w → (order : Order) (octets : List ℕ) → AreOctets octets → (read_stream w order octets).progress.stop ≡ None
        → (read_stream w order octets).progress.at ≡ length octets → (g : Graph) → (read_stream w order octets).graph ≡ g
        → (a : RepresentsAlone w order octets g) × (end_to_end 0 a.represented.entries ≡ (read_stream w order octets).progress.seen) }
{}

/// Octets at which the reader stops are refused there, after the entries that it passed, and stay refused whatever follows them; no first part of
/// them represents a graph that conforms. If each of them is needed, they end with the refused entry; and the cells of the graph so far are numbered
/// in the order in which its stream comes to them.
pub fn refused_octets()
    ensures there { (w : Setting) → IsLegalSide w → (order : Order) (octets : List ℕ) → AreOctets octets → (place : ℕ) (why : Reason)
        → (read_stream w order octets).progress.stop ≡ Some (place, why) → IsNeeded w order octets
        → (bad : Bad w order octets place why) × (bad.earlier ≡ (read_stream w order octets).progress.seen)
        × (length octets ≡ fetched_to why (length octets) bad.here) × HasOwnNumbers bad.partial bad.entries }
    ensures stay { (w : Setting) → IsLegalSide w → (order : Order) (octets : List ℕ) → AreOctets octets → (place : ℕ) (why : Reason)
        → (read_stream w order octets).progress.stop ≡ Some (place, why) → (more : List ℕ) → MayFollow why more
        → Bad w order (octets ++ more) place why }
    ensures exclude { (w : Setting) → IsLegalSide w → (order : Order) (octets : List ℕ) → AreOctets octets → (place : ℕ) (why : Reason)
        → (read_stream w order octets).progress.stop ≡ Some (place, why) → (more : List ℕ) → MayFollow why more → (part rest : List ℕ)
        → octets ++ more ≡ part ++ rest
        → (g : Graph) → Conforms w g → ¬ Represents w order part g }
{}

/// The first of the entries that the reader passes, as many as one likes, are the first of a stream of a partial graph, and the octets spell and
/// accept each of them.
pub fn read_through()
    ensures { (w : Setting) → IsLegalSide w → (order : Order) (octets : List ℕ) → AreOctets octets → (earlier later : List EntryAt)
        → (read_stream w order octets).progress.seen ≡ earlier ++ later → IsReadThrough w order octets earlier }
{}

/// The items of the first entries of a stream other than gaps, the cells that the numbers among them name and the roots that are reference pointers
/// are together at most the octets and the roots. So steps that are counted by the former are bounded by the latter.
pub fn few_steps()
    ensures few { (w : Setting) (order : Order) (octets : List ℕ) (earlier : List EntryAt) → IsReadThrough w order octets earlier
        → length (but_gaps (items order octets earlier)) + length (cells_named earlier) + length (direct_roots w) ≤ length octets + length
        (root_list w) }
    ensures counted { (w : Setting) (order : Order) (octets : List ℕ) (earlier : List EntryAt) (t : DecodingSeen)
        → IsReadThrough w order octets earlier
        → t.steps_now ≤ t.steps + length (but_gaps (items order octets earlier)) + length (cells_named earlier) + length (direct_roots w)
        → IsCounted w order octets earlier t }
{}

/// Octets are not refused if a first part of what the source had left represents a graph that conforms.
pub fn never_refused()
    ensures { (w : Setting) (order : Order) (s : SourceOver) (place : ℕ) (why : Reason) (t : DecodingSeen) (part rest : List ℕ) (g : Graph)
        → s.left ≡ Some (part ++ rest) → Conforms w g → Represents w order part g → ¬ IsRefused w order s place why t }
{}
