//! Laws of the order of homes, each the contract of a function that does nothing.
ghost use Rattle.std.specs.Prelude.{List, []};
ghost use Rattle.nd_value.specs.declared.value.Graph.{Graph};
ghost use Rattle.nd_value.specs.Canon.{named_cells};
ghost use Rattle.nd_value.specs.Conforms.{Conforms};
ghost use Rattle.nd_value.specs.Deferral.{Step, Deferral, due_roots, before_pipes};
ghost use Rattle.nd_value.specs.Setting.{Setting, root_list};
ghost use Rattle.nd_grammar.specs.LegalSide.{IsLegalSide};
ghost use Rattle.ndr_code.specs.Code.{code_of};
ghost use Rattle.ndr_encoder_laws.specs.pieces.Heads.{standings};
ghost use Rattle.ndr_encoder_laws.specs.turns.Turned.{Turned};
ghost use Rattle.ndr_encoder_laws.specs.turns.Roots.{root_items, home_turns};

/// In a graph that conforms the homes have their turns, each by the whole run of its type, in the order of deferral (C706 14.3.12), and their
/// pointers name cells in the order of the stream.
pub fn turns_are_deferral()
    ensures { (w : Setting) → (side : IsLegalSide w) → (g : Graph) → Conforms w g → (steps : List Step)
        → Deferral w g [] (due_roots 0 (before_pipes (root_list w))) steps
        → Turned (code_of w.table side.operations) g [] (root_items w 0 (before_pipes (root_list w))) (home_turns w.table (standings w g steps))
        (named_cells w g steps) }
{}
