// The partners of the types of one table, by the types' numbers.
ghost use Rattle.std.specs.Prelude.{◌≡◌, Some, None, length, slice_index_or, slice_set, replicate, IfOk};

use nd_base::Memory;
use nd_types::TypeId;
use std::alloc::Global;
use std::marker::Model;

/// For each type of a table the number of its partner, where it has one. Contracts see it as that list.
#[derive(Drop)]
pub struct Partners {
    items: Vec<Option<u32>>,
}

impl Model for Partners {
    ghost use Rattle.std.specs.Prelude.{List, Option, ℕ};

    ghost Value = { List (Option ℕ) };

    ghost view = { λ o. o.items.items };
}

impl Partners {
    // No partners yet, of so many types. Running out of memory is the only refusal.
    pub(crate) fn none(alloc: Global, types: usize) -> Result<Partners, Memory>
        ensures { IfOk result (λ p. p ≡ replicate types None) }
    {
        Ok(Partners {
            items: vec![in alloc; None; types]?,
        })
    }

    // The number of types.
    pub(crate) fn len(&self) -> usize
        ensures { result ≡ length self.now }
    {
        self.items.len()
    }

    // The partner of a type, where it has one.
    pub(crate) fn of(&self, of: TypeId) -> Option<u32>
        ensures { result ≡ slice_index_or self.now of.0 None }
    {
        match self.items.get(of.0 as usize) {
            Some(partner) => *partner,
            None => None,
        }
    }

    // Gives a type of the table its partner.
    pub(crate) fn set(&mut self, of: TypeId, partner: TypeId)
        ensures { self.new ≡ slice_set self.old of.0 (Some partner.0) }
    {
        let at = of.0 as usize;
        if at < self.items.len() {
            self.items[at] = Some(partner.0);
        }
    }
}
