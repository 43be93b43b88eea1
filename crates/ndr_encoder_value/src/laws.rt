//! Laws of the homes of a stream, each the contract of a function that does nothing.
ghost use Rattle.std.specs.Prelude.{◌≡◌, ◌≤◌, ℕ, List, [], Some, drop, length};
ghost use Rattle.std.specs.List.{AllByRecursion, slice_get};
ghost use Rattle.nd_value.specs.declared.value.Graph.{Graph};
ghost use Rattle.nd_value.specs.Conforms.{Conforms};
ghost use Rattle.nd_value.specs.Deferral.{Step, Deferral, due_roots, before_pipes};
ghost use Rattle.nd_value.specs.Setting.{Setting, root_list};
ghost use Rattle.nd_grammar.specs.LegalSide.{IsLegalSide};
ghost use Rattle.nd_flat.specs.Building.{HasHome};
ghost use Rattle.ndr_code.specs.Code.{code_of, pipe_at};
ghost use Rattle.ndr_encoder_output.specs.Filling.{FitsPiece};
ghost use Rattle.ndr_encoder_laws.specs.pieces.Heads.{standings};
ghost use Rattle.ndr_encoder_laws.specs.pieces.Pieces.{pieces_names};
ghost use Rattle.ndr_encoder_laws.specs.turns.Roots.{home_turns};
ghost use Rattle.ndr_encoder_laws.specs.turns.Turned.{names_of};
ghost use Rattle.ndr_encoder_laws.specs.chosen.Written.{value_at, turns_pieces, pipe_turns, all_turns};
ghost use Rattle.ndr_encoder_value.specs.Counted.{counted_turn, IsCounted};
ghost use Rattle.ndr_encoder_value.specs.Turns.{written_turns};

use ndr_code::laws::sides::roots_and_pipes;

/// In a graph that conforms the homes of the stream are there, all their pieces can be written, and a maximum count is only asked for where a run
/// begins with one.
pub fn turns_can_be_written()
    ensures there { (w : Setting) → (side : IsLegalSide w) → (g : Graph) → Conforms w g → (n : ℕ) (steps : List Step)
        → Deferral w g [] (due_roots 0 (before_pipes (root_list w))) steps
        → AllByRecursion (λ u. HasHome g u.0) (all_turns w side.operations n g steps) }
    ensures same { (w : Setting) → (side : IsLegalSide w) → (g : Graph) → Conforms w g → (k n : ℕ) → slice_get side.operations n ≡ Some w.op
        → (steps : List Step) → Deferral w g [] (due_roots 0 (before_pipes (root_list w))) steps → 1 ≤ k
        → written_turns (code_of w.table side.operations) k g (all_turns w side.operations n g steps)
        ≡ turns_pieces (code_of w.table side.operations) k g (all_turns w side.operations n g steps) }
    ensures fit { (w : Setting) → (side : IsLegalSide w) → (g : Graph) → Conforms w g → (k n : ℕ) → slice_get side.operations n ≡ Some w.op
        → (steps : List Step) → Deferral w g [] (due_roots 0 (before_pipes (root_list w))) steps → 1 ≤ k
        → AllByRecursion FitsPiece (written_turns (code_of w.table side.operations) k g (all_turns w side.operations n g steps)) }
{
    roots_and_pipes();
}

/// In a graph that conforms the homes of the stream can be counted, and so can its pipes. The pointers of a home name what the order of the homes
/// goes by, and a pipe names nothing.
pub fn turns_can_be_counted()
    ensures counted { (w : Setting) → (side : IsLegalSide w) → (g : Graph) → Conforms w g → (k n : ℕ) → slice_get side.operations n ≡ Some w.op
        → (steps : List Step) → Deferral w g [] (due_roots 0 (before_pipes (root_list w))) steps → 1 ≤ k
        → AllByRecursion (IsCounted (code_of w.table side.operations) k g) (all_turns w side.operations n g steps) }
    ensures homes { (w : Setting) → (side : IsLegalSide w) → (g : Graph) → Conforms w g → (k : ℕ)
        → (steps : List Step) → Deferral w g [] (due_roots 0 (before_pipes (root_list w))) steps
        → AllByRecursion
        (λ u. pieces_names (counted_turn (code_of w.table side.operations) k g u)
        ≡ names_of (code_of w.table side.operations) u.1 (value_at g u.0))
        (home_turns w.table (standings w g steps)) }
    ensures pipes { (w : Setting) → (side : IsLegalSide w) → (g : Graph) → Conforms w g → (k n : ℕ) → slice_get side.operations n ≡ Some w.op → 1 ≤ k
        → AllByRecursion (λ u. pieces_names (counted_turn (code_of w.table side.operations) k g u) ≡ [])
        (pipe_turns (pipe_at w.table side.operations n w.op w.side) (before_pipes (root_list w)) 0
        (length (drop (before_pipes (root_list w)) (root_list w)))) }
{
    roots_and_pipes();
}
