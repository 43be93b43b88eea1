//! Laws over the definitions.

ghost use Rattle.std.specs.Prelude.{◌≡◌, ℕ, Bool, List, Option, Some, true};
ghost use Rattle.idl_names.specs.Decided.{is_decided, has_memory, FailsAs};
ghost use Rattle.idl_names.specs.Walk.{State, Due, Ending, Walk};

/// Where the contents of files are known, a walk has one ending, also by an absent file, except for two: that memory was wanting, and that a load
/// failed. These may come at other places in other walks over the same files. Where it is known as well which loads fail, it has one
/// ending, also by a failed load, except that memory was wanting. `command_compile: walks_end` says that there is one.
#[tactic(auto, using(crate::proofs::Once::one_ending, crate::proofs::Once::one_told_ending))]
pub fn walks_have_one_ending()
    ensures decided { (held : List ℕ → Option (List ℕ)) (s : State) (dues : List Due) (a b : Ending) → is_decided a ≡ true → is_decided b ≡ true
        → Walk (Some held) s dues a → Walk (Some held) s dues b → a ≡ b }
    ensures told { (held : List ℕ → Option (List ℕ)) (fails : List ℕ → Bool) (s : State) (dues : List Due) (a b : Ending) → has_memory a ≡ true
        → has_memory b ≡ true
        → (v : Walk (Some held) s dues a) (w : Walk (Some held) s dues b) → FailsAs fails v → FailsAs fails w → a ≡ b }
{}
