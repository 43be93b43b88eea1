//! The laws, each the contract of a function that does nothing.
ghost use Rattle.std.specs.Prelude.{◌≡◌, ◌++◌, ℕ, List, Some, None, length};
ghost use Rattle.nd_base.specs.declared.octets.Order.{Order};
ghost use Rattle.nd_types.specs.Number.{AreOctets};
ghost use Rattle.nd_value.specs.Setting.{Setting};
ghost use Rattle.nd_grammar.specs.declared.reason.Reason.{Reason};
ghost use Rattle.nd_grammar.specs.Entry.{EntryAt};
ghost use Rattle.nd_grammar.specs.LegalSide.{IsLegalSide};
ghost use Rattle.ndr_drain_laws.specs.parts.Parts.{BadHead};
ghost use Rattle.ndr_drain_laws.specs.heads.Heads.{HeadRead, HeadThrough, head_graph, head_tested};

use ndr_decoder_laws::laws::verdict::canonical_graph;

/// Octets that the plain reader reads to their end before the pipes, without a stop, are the head of a stream of the graph that it finds.
pub fn heads_are_read()
    ensures { (w : Setting) → IsLegalSide w → (order : Order) (octets : List ℕ) → AreOctets octets → (head_tested w order octets).stop ≡ None
        → (head_tested w order octets).at ≡ length octets
        → HeadRead w order octets (head_graph w order octets) (head_tested w order octets).seen }
{
    canonical_graph();
}

/// Octets that the plain reader refuses before the pipes are refused in the head of a stream, after the entries that it passes. The first of those
/// that it passes before the pipes are the first of a head.
pub fn heads_are_refused()
    ensures refused { (w : Setting) → IsLegalSide w → (order : Order) (octets : List ℕ) → AreOctets octets → (place : ℕ) (why : Reason)
        → (head_tested w order octets).stop ≡ Some (place, why)
        → (b : BadHead w order octets place why) × (b.bad.earlier ≡ (head_tested w order octets).seen) }
    ensures passed { (w : Setting) → IsLegalSide w → (order : Order) (octets : List ℕ) → AreOctets octets → (earlier later : List EntryAt)
        → (head_tested w order octets).seen ≡ earlier ++ later
        → HeadThrough w order octets earlier }
{}
