//! Laws of listings, each the contract of a function that does nothing.
ghost use Rattle.std.specs.Prelude.{◌≡◌, ℕ};
ghost use Rattle.nd_value.specs.declared.value.Graph.{Graph};
ghost use Rattle.nd_value.specs.Setting.{Setting};
ghost use Rattle.library_nodes.specs.Built.{Says, IsWrong};
ghost use Rattle.library_nodes.specs.declared.listing.Listing.{Listing};

/// A listing says one graph at most, and none where a node is wrong.
pub fn one_graph_said()
    ensures only { (w : Setting) (l : Listing) (g h : Graph) → Says w l g → Says w l h → g ≡ h }
    ensures none { (w : Setting) (l : Listing) (g : Graph) (n : ℕ) → Says w l g → IsWrong w l n → ⊥ }
{}
