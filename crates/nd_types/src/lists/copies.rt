// Copies of the lists.
ghost use Rattle.std.specs.Prelude.{◌≡◌, IfOk};

use super::{Arms, AttrVars, Fields, Numbers, Operations, Params, Types};
use crate::copies::copy_items;
use nd_base::Memory;
use std::alloc::Global;

impl Numbers {
    /// An equal list. It takes memory for exactly its items. Running out of memory is the only refusal.
    pub fn copy(&self, alloc: Global) -> Result<Numbers, Memory>
        ensures { IfOk result (λ c. c ≡ self.now) }
    {
        Ok(Numbers {
            items: Vec::from_slice(alloc, &self.items)?,
        })
    }
}

impl AttrVars {
    /// An equal list. It takes memory for exactly its items. Running out of memory is the only refusal.
    pub fn copy(&self, alloc: Global) -> Result<AttrVars, Memory>
        ensures { IfOk result (λ c. c ≡ self.now) }
    {
        Ok(AttrVars {
            items: Vec::from_slice(alloc, &self.items)?,
        })
    }
}

impl Fields {
    /// An equal list. It takes memory for exactly its items, with their names and attributes. Running out of memory is the only refusal.
    pub fn copy(&self, alloc: Global) -> Result<Fields, Memory>
        ensures { IfOk result (λ c. c ≡ self.now) }
    {
        Ok(Fields {
            items: copy_items(alloc, &self.items)?,
        })
    }
}

impl Arms {
    /// An equal list. It takes memory for exactly its items, with their names. Running out of memory is the only refusal.
    pub fn copy(&self, alloc: Global) -> Result<Arms, Memory>
        ensures { IfOk result (λ c. c ≡ self.now) }
    {
        Ok(Arms {
            items: copy_items(alloc, &self.items)?,
        })
    }
}

impl Params {
    /// An equal list. It takes memory for exactly its items, with their names and attributes. Running out of memory is the only refusal.
    pub fn copy(&self, alloc: Global) -> Result<Params, Memory>
        ensures { IfOk result (λ c. c ≡ self.now) }
    {
        Ok(Params {
            items: copy_items(alloc, &self.items)?,
        })
    }
}

impl Types {
    /// An equal list. It takes memory for exactly its items, with their members, arms and enumerators. Running out of memory is the only
    /// refusal.
    pub fn copy(&self, alloc: Global) -> Result<Types, Memory>
        ensures { IfOk result (λ c. c ≡ self.now) }
    {
        Ok(Types {
            items: copy_items(alloc, &self.items)?,
        })
    }
}

impl Operations {
    /// An equal list. It takes memory for exactly its items, with their names and parameters. Running out of memory is the only refusal.
    pub fn copy(&self, alloc: Global) -> Result<Operations, Memory>
        ensures { IfOk result (λ c. c ≡ self.now) }
    {
        Ok(Operations {
            items: copy_items(alloc, &self.items)?,
        })
    }
}
