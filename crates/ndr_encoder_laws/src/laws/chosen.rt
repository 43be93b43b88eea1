//! Laws of whole streams, each the contract of a function that does nothing.
ghost use Rattle.std.specs.Prelude.{◌≡◌, ◌≤◌, ℕ, List, [], drop, slice_index_or, Some};
ghost use Rattle.std.specs.List.{slice_get};
ghost use Rattle.nd_base.specs.declared.octets.Order.{Order};
ghost use Rattle.nd_value.specs.declared.value.Graph.{Graph};
ghost use Rattle.nd_value.specs.Canon.{canonical_number, named_cells};
ghost use Rattle.nd_value.specs.Conforms.{Conforms};
ghost use Rattle.nd_value.specs.Deferral.{Step, Deferral, due_roots, before_pipes};
ghost use Rattle.nd_value.specs.Setting.{Setting, root_list};
ghost use Rattle.nd_grammar.specs.Entry.{end_of};
ghost use Rattle.nd_grammar.specs.LegalSide.{IsLegalSide};
ghost use Rattle.nd_grammar.specs.Stream.{representation, Chosen, pipe_cuts};
ghost use Rattle.ndr_code.specs.Code.{code_of};
ghost use Rattle.ndr_encoder_laws.specs.pieces.Pieces.{pieces_octets, pieces_end};
ghost use Rattle.ndr_encoder_laws.specs.pieces.Heads.{stream_pieces};
ghost use Rattle.ndr_encoder_laws.specs.chosen.Written.{turns_pieces, all_turns};

use ndr_code::laws::sides::roots_and_pipes;

/// What the runs of all homes write, in the order of deferral, and then those of the pipes, are the pieces of the stream.
pub fn turns_are_written()
    ensures { (w : Setting) → (side : IsLegalSide w) → (g : Graph) → Conforms w g → (k n : ℕ) → slice_get side.operations n ≡ Some w.op
        → (steps : List Step) → Deferral w g [] (due_roots 0 (before_pipes (root_list w))) steps → 1 ≤ k
        → turns_pieces (code_of w.table side.operations) k g (all_turns w side.operations n g steps)
        ≡ stream_pieces w g steps (pipe_cuts k (drop (before_pipes (root_list w)) g.roots)) }
{
    roots_and_pipes();
}

/// With the canonical numbers of the cells their octets are those that are chosen, in either order, and they end where the stream ends.
pub fn turns_are_chosen()
    ensures octets { (w : Setting) → (side : IsLegalSide w) → (g : Graph) → Conforms w g → (k n : ℕ) → slice_get side.operations n ≡ Some w.op
        → (steps : List Step) → Deferral w g [] (due_roots 0 (before_pipes (root_list w))) steps → 1 ≤ k
        → (order : Order) (numbers : List ℕ) → ((c : ℕ) → slice_index_or numbers c 0 ≡ canonical_number (named_cells w g steps) c)
        → Chosen w order k g
        (pieces_octets order (λ c. slice_index_or numbers c 0) 0
        (turns_pieces (code_of w.table side.operations) k g (all_turns w side.operations n g steps))) }
    ensures ends { (w : Setting) → (side : IsLegalSide w) → (g : Graph) → Conforms w g → (k n : ℕ) → slice_get side.operations n ≡ Some w.op
        → (steps : List Step) → Deferral w g [] (due_roots 0 (before_pipes (root_list w))) steps → 1 ≤ k
        → pieces_end 0 (turns_pieces (code_of w.table side.operations) k g (all_turns w side.operations n g steps))
        ≡ end_of 0 (representation w g steps (pipe_cuts k (drop (before_pipes (root_list w)) g.roots))) }
{
    roots_and_pipes();
}
