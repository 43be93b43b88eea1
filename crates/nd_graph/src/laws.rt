//! Laws of the order in which cells are named, each the contract of a function that does nothing.
ghost use Rattle.std.specs.Prelude.{◌≡◌, List, [], Some};
ghost use Rattle.std.specs.List.{slice_get};
ghost use Rattle.nd_types.specs.declared.types.Operation.{Operation};
ghost use Rattle.nd_value.specs.declared.value.Graph.{Graph};
ghost use Rattle.nd_value.specs.Setting.{Setting, root_list};
ghost use Rattle.nd_value.specs.Conforms.{Conforms};
ghost use Rattle.nd_value.specs.Deferral.{Step, Deferral, due_roots, before_pipes};
ghost use Rattle.nd_value.specs.Canon.{IsCanon, named_cells};
ghost use Rattle.nd_value.specs.Fitting.{Fitting, IsFit, setting_beside};
ghost use Rattle.nd_grammar.specs.LegalSide.{IsLegalSide};
ghost use Rattle.nd_graph.specs.Naming.{AreNamed};
ghost use Rattle.nd_graph.specs.Canonical.{IsCanonical};

/// In a graph that conforms the cells are named in the order of deferral (C706 14.3.12): what nodes say alone gives the order in which the
/// pointers of the stream name them. So the canonical form of a fit is canonical by the order of the stream.
pub fn named_in_deferral_order()
    ensures named { (w : Setting) → IsLegalSide w → (g : Graph) → Conforms w g → (steps : List Step)
        → Deferral w g [] (due_roots 0 (before_pipes (root_list w))) steps → AreNamed g (named_cells w g steps) }
    ensures canon { (f c : Fitting) → IsFit f → IsCanonical f c → (o : Operation) → slice_get f.interface.operations f.op ≡ Some o
        → IsCanon (setting_beside f.interface o f.side f.given) f.graph c.graph }
{}

/// Each graph that conforms has one canonical form: its cells are numbered in the order in which the stream names them.
pub fn one_canonical_form()
    ensures exists { (w : Setting) → IsLegalSide w → (g : Graph) → Conforms w g → (h : Graph) × IsCanon w g h }
    ensures alone { (w : Setting) → IsLegalSide w → (g h k : Graph) → Conforms w g → IsCanon w g h → IsCanon w g k → h ≡ k }
{}
