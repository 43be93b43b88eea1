// Sets of values.
ghost use Rattle.std.specs.Prelude.{◌≡◌, ℤ, List, [], ◌∷◌, ◌++◌, Option, IfOk, OnOk};
ghost use Rattle.idl_declared_types.specs.LabelValues.{is_among, Holds};

use indexmap::IndexSet;
use nd_base::Memory;
use std::alloc::Global;
use std::marker::Model;

/// Values, each of them once. Contracts see it as their list.
#[derive(Drop)]
pub struct ValueSet {
    entries: IndexSet<Option<i128>>,
}

impl Model for ValueSet {
    ghost use Rattle.std.specs.Prelude.{List, Option, ℤ};

    ghost Value = { List (Option ℤ) };

    ghost view = { λ s. s.entries.keys };
}

impl ValueSet {
    /// No values. It allocates nothing.
    pub fn new(alloc: Global) -> ValueSet
        ensures { result ≡ [] }
    {
        ValueSet {
            entries: IndexSet::new(alloc),
        }
    }

    /// Whether a value is there.
    pub fn contains(&self, value: Option<i128>) -> bool
        ensures { result ≡ is_among value self.now }
    {
        self.entries.contains(&value)
    }

    /// Adds a value, and gives whether it was there already. Takes memory for it.
    pub fn add(&mut self, value: Option<i128>) -> Result<bool, Memory>
        ensures repeated { IfOk result (λ b. b ≡ is_among value self.old) }
        ensures holds { (before : List (Option ℤ)) → Holds self.old before → OnOk result (Holds self.new (before ++ value ∷ [])) }
    {
        let Ok((_, added)) = self.entries.insert_full(value) else {
            return Err(Memory);
        };
        Ok(!added)
    }
}
