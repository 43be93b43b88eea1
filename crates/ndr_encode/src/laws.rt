//! A law of the octets that are written, the contract of a function that does nothing.
ghost use Rattle.std.specs.Prelude.{◌≡◌, ℕ, List, drop, length};
ghost use Rattle.nd_base.specs.declared.octets.Order.{Order};
ghost use Rattle.nd_value.specs.declared.value.Graph.{Graph};
ghost use Rattle.nd_value.specs.Conforms.{Conforms};
ghost use Rattle.nd_value.specs.Deferral.{before_pipes};
ghost use Rattle.nd_value.specs.Setting.{Setting, root_list};
ghost use Rattle.nd_grammar.specs.Stream.{Chosen, pipe_cuts, representation};
ghost use Rattle.nd_grammar.specs.Entry.{end_of};
ghost use Rattle.nd_grammar.specs.LegalSide.{IsLegalSide};

/// As many octets are written for a graph that conforms as its entries have, end to end: so many in either order.
pub fn octets_end_with_entries()
    ensures { (w : Setting) → IsLegalSide w → (g : Graph) → Conforms w g → (order : Order) (chunk : ℕ) (octets : List ℕ)
        → (c : Chosen w order chunk g octets)
        → length octets ≡ end_of 0 (representation w g c.steps (pipe_cuts chunk (drop (before_pipes (root_list w)) g.roots))) }
{}
