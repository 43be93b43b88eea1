//! Laws of a store of resources, each the contract of a function that does nothing.
ghost use Rattle.std.specs.Prelude.{◌≡◌, ℕ, Bool, List, [], ◌∷◌, ◌++◌, None};
ghost use Rattle.ctx_store.specs.Resource.{ResourceSeen};
ghost use Rattle.ctx_store.specs.Live.{Live, AreDistinct};
ghost use Rattle.ctx_store.specs.Calls.{open_fault, Changes, Leaves};

/// No identifier is live twice: it is so of an empty store, and stays so if a resource is opened, if one is called, and if one leaves.
pub fn identifiers_stay_distinct()
    ensures empty { AreDistinct [] }
    ensures opened { (live : List Live) (id : List ℕ) (client : ℕ) (r : ResourceSeen) → AreDistinct live → open_fault live id ≡ None
        → AreDistinct (live ++ record { id = id; client = client; resource = r } ∷ []) }
    ensures called { (live : List Live) (now : List Live) (at : ℕ) (was : ResourceSeen) (is : ResourceSeen) → Changes live now at was is
        → AreDistinct live → AreDistinct now }
    ensures left { (live : List Live) (now : List Live) (at : ℕ) (spent : ResourceSeen) (failed : Bool) → Leaves live now at spent failed
        → AreDistinct live → AreDistinct now }
{}
