//! Laws of streams that are read in parts, each the contract of a function that does nothing.
ghost use Rattle.std.specs.Prelude.{◌≡◌, ◌≤◌, ◌++◌, ℕ, List, [], length};
ghost use Rattle.nd_base.specs.declared.octets.Order.{Order};
ghost use Rattle.nd_value.specs.declared.value.Graph.{Graph};
ghost use Rattle.nd_value.specs.Conforms.{Conforms};
ghost use Rattle.nd_value.specs.Setting.{Setting, root_list};
ghost use Rattle.nd_grammar.specs.declared.reason.Reason.{Reason};
ghost use Rattle.nd_grammar.specs.Refusal.{Bad};
ghost use Rattle.nd_grammar.specs.LegalSide.{IsLegalSide};
ghost use Rattle.nd_grammar.specs.Stream.{Represents};
ghost use Rattle.ndr_drain_laws.specs.parts.Parts.{AreReadTo, BadHead, Part, after_all, first_spot, octets_of, pipes_of, with_pipes};

/// A head and the chunks after it, up to the end of every pipe, are a stream of the graph with the elements of the chunks in its pipes; and that
/// graph conforms.
pub fn joined_chunks()
    ensures conform { (w : Setting) → IsLegalSide w → (order : Order) (head : List ℕ) (g : Graph) (parts : List Part) → AreReadTo w order head g parts
        → length (root_list w) ≤ (after_all (first_spot w head) parts).root → Conforms w (with_pipes w g (pipes_of [] parts)) }
    ensures represent { (w : Setting) → IsLegalSide w → (order : Order) (head : List ℕ) (g : Graph) (parts : List Part)
        → AreReadTo w order head g parts
        → length (root_list w) ≤ (after_all (first_spot w head) parts).root
        → Represents w order (head ++ octets_of parts) (with_pipes w g (pipes_of [] parts)) }
{}

/// Octets that are refused in the head of a stream are refused as a stream.
pub fn refused_heads()
    ensures { (w : Setting) (order : Order) (octets : List ℕ) (place : ℕ) (why : Reason) → BadHead w order octets place why
        → Bad w order octets place why }
{}
