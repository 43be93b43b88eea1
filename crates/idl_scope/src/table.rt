// Tables by names.
ghost use Rattle.std.specs.Prelude.{◌≡◌, [], length, OnOk, MatchResult};
ghost use Rattle.idl_scope.specs.Known.{found, put};

use indexmap::IndexMap;
use nd_base::Memory;
use std::alloc::Global;
use std::marker::Model;

/// Values by names, in the order in which the names came. Contracts see it as that list.
#[derive(Drop)]
pub struct Table<V: Copy> {
    alloc: Global,
    entries: IndexMap<Vec<u8>, V>,
}

impl<V: Copy> Model for Table<V> {
    ghost use Rattle.std.specs.Prelude.{List, ℕ};
    ghost use Rattle.idl_scope.specs.Known.{table};

    ghost Value = { List (List ℕ × V) };

    ghost view = { λ t. table t.entries.entries };
}

impl<V: Copy> Table<V> {
    /// No names. It allocates nothing.
    pub fn new(alloc: Global) -> Table<V>
        ensures { result ≡ [] }
    {
        Table {
            alloc,
            entries: IndexMap::new(alloc),
        }
    }

    /// The number of names. Takes no memory.
    pub fn len(&self) -> usize
        ensures { result ≡ length self.now }
    {
        self.entries.len()
    }

    /// The value of a name, if it is there.
    pub fn get(&self, name: &[u8]) -> Option<V>
        ensures { result ≡ found name.now self.now }
    {
        self.entries.get(name).copied()
    }

    /// Gives a name a value. A new name goes last. Takes memory for a new name.
    pub fn put(&mut self, name: &[u8], value: V) -> Result<(), Memory>
        ensures { OnOk result (self.new ≡ put self.old name.now value) }
    {
        self.insert(name, value)
    }

    /// The same; where there is no memory, nothing changes.
    pub(crate) fn insert(&mut self, name: &[u8], value: V) -> Result<(), Memory>
        ensures { MatchResult result (λ _. self.new ≡ put self.old name.now value) (λ _. self.new ≡ self.old) }
    {
        let key = Vec::from_slice(self.alloc, name)?;
        match self.entries.insert(key, value) {
            Ok(_) => Ok(()),
            Err(_) => Err(Memory),
        }
    }
}
