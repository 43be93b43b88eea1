// The cells that pointers name.
ghost use Rattle.std.specs.Prelude.{◌≡◌, ◌≤◌, [], ◌∷◌, None, Some, OnOk, IfSome, option_map};
ghost use Rattle.text_grammar.specs.Dues.{named_type, with_name};

use indexmap::IndexMap;
use nd_base::Memory;
use nd_types::TypeId;
use std::alloc::Global;
use std::marker::Model;

/// The cells that pointers have named so far: of each the type to which the first pointer that named it points. Contracts see them as a
/// list, of which the last to be named comes first.
#[derive(Drop)]
pub(crate) struct Names {
    types: IndexMap<u32, TypeId>,
    /// No cell of a greater number has been named.
    most: u32,
}

impl Model for Names {
    ghost use Rattle.std.specs.Prelude.{List, ℕ};
    ghost use Rattle.text_parser.specs.NamedCells.{backwards, Agrees, HasNoneAfter};

    ghost Value = { List (ℕ × ℕ) };

    ghost view = { λ n. backwards n.types.entries };

    ghost invariant = { λ n. Agrees n.types.entries × HasNoneAfter n.types.entries n.most };
}

/// The greater of two numbers.
fn greater(first: u32, second: u32) -> u32
    ensures first { first ≤ result }
    ensures second { second ≤ result }
{
    if first < second { second } else { first }
}

impl Names {
    /// No cells. It allocates nothing.
    pub(crate) fn new(alloc: Global) -> Names
        ensures { result ≡ [] }
    {
        Names {
            types: IndexMap::new(alloc),
            most: 0,
        }
    }

    /// A pointer to a type names a cell, which takes memory for a new one.
    pub(crate) fn note(&mut self, cell: u32, to: TypeId) -> Result<(), Memory>
        ensures { OnOk result (self.new ≡ with_name self.old cell to.0) }
    {
        match self.type_of(cell) {
            Some(_) => Ok(()),
            None => self.add(cell, to),
        }
    }

    /// A pointer names a new cell.
    fn add(&mut self, cell: u32, to: TypeId) -> Result<(), Memory>
        requires { named_type self.old cell ≡ None }
        ensures { OnOk result (self.new ≡ (cell, to.0) ∷ self.old) }
    {
        let Ok(_) = self.types.insert(cell, to) else {
            return Err(Memory);
        };
        self.most = greater(self.most, cell);
        Ok(())
    }

    /// The type of a cell, if a pointer has named it. Nothing is searched where cells are named in the order of their numbers, as in
    /// printed texts.
    pub(crate) fn type_of(&self, cell: u32) -> Option<TypeId>
        ensures { option_map (λ t. t.0) result ≡ named_type self.now cell }
    {
        if cell > self.most {
            return None;
        }
        match self.in_place(cell) {
            Some(to) => Some(to),
            None => self.searched(cell),
        }
    }

    /// The type of a cell, if as many were named before it as have lower numbers.
    fn in_place(&self, cell: u32) -> Option<TypeId>
        ensures { IfSome result (λ t. named_type self.now cell ≡ Some t.0) }
    {
        if cell == 0 {
            return None;
        }
        let Some((known, to)) = self.types.get_index(cell as usize - 1) else {
            return None;
        };
        if *known != cell {
            return None;
        }
        Some(*to)
    }

    /// The type of a cell, searched for.
    fn searched(&self, cell: u32) -> Option<TypeId>
        ensures { option_map (λ t. t.0) result ≡ named_type self.now cell }
    {
        self.types.get(&cell).copied()
    }
}
