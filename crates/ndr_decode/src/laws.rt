//! Laws of the agreements of the parameters, each the contract of a function that does nothing.
ghost use Rattle.std.specs.Prelude.{◌≡◌, ℕ, ℤ, Bool, List, [], ◌++◌, Some, None, true, flat_map, slice_get};
ghost use Rattle.std.specs.List.{AllByRecursion};
ghost use Rattle.nd_base.specs.declared.octets.Order.{Order};
ghost use Rattle.nd_value.specs.declared.item.Item.{Item};
ghost use Rattle.nd_value.specs.Setting.{Setting};
ghost use Rattle.nd_flat.specs.FlatForm.{IsKeepableNumber};
ghost use Rattle.nd_grammar.specs.declared.reason.Reason.{Reason};
ghost use Rattle.nd_grammar.specs.Entry.{EntryAt};
ghost use Rattle.nd_grammar.specs.LegalSide.{IsLegalSide};
ghost use Rattle.nd_grammar.specs.StreamReader.{Reading};
ghost use Rattle.ndr_code.specs.declared.instr.Instr.{Instr};
ghost use Rattle.ndr_code.specs.Tried.{tried};
ghost use Rattle.ndr_decoder_laws.specs.stream.Between.{Between, Agrees, Keeps};
ghost use Rattle.ndr_decoder_laws.specs.stream.Parameters.{TestsPass, TestsStop, root_number, with_pipes};
ghost use Rattle.ndr_decode.specs.Trials.{is_check, checks_fail, EndsChecks};

/// Where nothing is due any more, what the checks of a side come to, tried with what is kept, is what the plain reader comes to: it passes what they
/// try, or is refused there for the reason of the first that does not hold.
pub fn trials_are_tests()
    ensures pass { (w : Setting) (side : IsLegalSide w) (order : Order) (fetched : List ℕ) (noted : List Item) (direct : ℕ) (b : Between)
        (s : Reading) (before : List EntryAt) (pipes : ℕ)
        → Agrees w side order fetched noted direct b s before [] 0 → (is rest : List Instr) → AllByRecursion (λ (i : Instr). is_check i ≡ true) is
        → (seen : List EntryAt)
        → Keeps w order fetched noted direct b s seen [] → checks_fail b.read b.roots w.given (is ++ rest) ≡ None
        → TestsPass w order fetched noted direct b s seen (flat_map (tried w (with_pipes s pipes)) is) }
    ensures stop { (w : Setting) (side : IsLegalSide w) (order : Order) (fetched : List ℕ) (noted : List Item) (direct : ℕ) (b : Between)
        (s : Reading) (before : List EntryAt) (pipes : ℕ)
        → Agrees w side order fetched noted direct b s before [] 0 → (is rest : List Instr) → AllByRecursion (λ (i : Instr). is_check i ≡ true) is
        → EndsChecks rest → (seen : List EntryAt)
        → Keeps w order fetched noted direct b s seen [] → (why : ℕ × Reason) → checks_fail b.read b.roots w.given (is ++ rest) ≡ Some why
        → TestsStop w order fetched noted direct b s seen (flat_map (tried w (with_pipes s pipes)) is) why }
{}

/// The numbers that roots are, or that are in the cells that they name, can be kept, where these were read.
pub fn numbers_are_keepable()
    ensures { (w : Setting) (side : IsLegalSide w) (order : Order) (fetched : List ℕ) (noted : List Item) (direct : ℕ) (b : Between) (s : Reading)
        (before : List EntryAt)
        → Agrees w side order fetched noted direct b s before [] 0 → (seen : List EntryAt) → Keeps w order fetched noted direct b s seen []
        → (v : ℕ) (star : Bool) (z : ℤ)
        → root_number b.read star (slice_get b.roots v) ≡ Some z → IsKeepableNumber z }
{}
