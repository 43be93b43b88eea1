//! Laws of graphs that conform, each the contract of a function that does nothing.
ghost use Rattle.std.specs.Prelude.{◌≡◌, ℕ, ◌+◌, List, [], ◌∷◌, drop, Some};
ghost use Rattle.std.specs.List.{AllByRecursion, slice_get};
ghost use Rattle.nd_types.specs.Roots.{Root};
ghost use Rattle.nd_value.specs.declared.value.Graph.{Graph};
ghost use Rattle.nd_value.specs.Conforms.{Conforms};
ghost use Rattle.nd_value.specs.Deferral.{Step, Deferral, due_roots, before_pipes};
ghost use Rattle.nd_value.specs.Setting.{Setting, root_list, root_at};
ghost use Rattle.nd_value.specs.Tree.{none, more};
ghost use Rattle.nd_grammar.specs.LegalSide.{IsLegalSide};
ghost use Rattle.ndr_encoder_laws.specs.pieces.Heads.{standings};
ghost use Rattle.ndr_encoder_laws.specs.written.Shaped.{Shaped};
ghost use Rattle.ndr_encoder_laws.specs.shaped.ShapedPipes.{IsShapedPipe};

/// Each home of a graph that conforms has the form of its type, in the order of deferral, and so has each element of its pipes. Values nest at most
/// 32 deep.
pub fn values_are_shaped()
    ensures homes { (w : Setting) → IsLegalSide w → (g : Graph) → Conforms w g → (steps : List Step)
        → Deferral w g [] (due_roots 0 (before_pipes (root_list w))) steps
        → AllByRecursion (λ x. Shaped 32 w.table (x.of ∷ []) (more x.val none)) (standings w g steps) }
    ensures pipes { (w : Setting) → IsLegalSide w → (g : Graph) → Conforms w g → (j : ℕ) (r : Root)
        → slice_get (drop (before_pipes (root_list w)) (root_list w)) j ≡ Some r
        → IsShapedPipe w.table r.of (root_at g (before_pipes (root_list w) + j)) }
{}
