//! A law of the numbers of full pointers, the contract of a function that does nothing.
ghost use Rattle.std.specs.Prelude.{◌≡◌, ℕ, Bool, List, [], None, Ok, Err};
ghost use Rattle.nd_types.specs.declared.types.TypeId.{TypeId};
ghost use Rattle.nd_value.specs.declared.value.CellId.{CellId};
ghost use Rattle.ndr_refs.specs.declared.referents.Known.{Known};
ghost use Rattle.ndr_refs.specs.declared.referents.RefFault.{RefFault};
ghost use Rattle.ndr_refs.specs.Known.{IsKnown, IsMet, IsTurn};
ghost use Rattle.ndr_refs.specs.Naming.{HasMet, IsOneToOne, IsUnnamed, NameAsBefore, cell_of};

/// The numbers of a table are the domain of a map from numbers to cells: those that were met, and no others. The map is one to one as long as each
/// number that is new is met with a cell that no number names.
pub fn numbers_name_cells()
    ensures none { (n : ℕ) → cell_of n [] ≡ None }
    ensures met { (n : ℕ) (of : TypeId) (next c : CellId) (old new : List (ℕ × Known)) → IsMet n of next old (Ok c) new → HasMet n c old new }
    ensures unmet { (n : ℕ) (of : TypeId) (next : CellId) (e : RefFault) (old new : List (ℕ × Known)) → IsMet n of next old (Err e) new → new ≡ old }
    ensures known { (n : ℕ) (map : List (ℕ × Known)) (c : CellId) → cell_of n map ≡ Some c → IsKnown n map }
    ensures turned { (n : ℕ) (first : Bool) (old new : List (ℕ × Known)) → IsTurn n old first new → NameAsBefore old new }
    ensures one_to_one { (n : ℕ) (of : TypeId) (next c : CellId) (old new : List (ℕ × Known)) → IsMet n of next old (Ok c) new
        → IsOneToOne old → IsUnnamed next old → IsOneToOne new }
{}
