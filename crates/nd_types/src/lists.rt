// The lists that types and operations are made of. Contracts see each of them as a list.
ghost use Rattle.std.specs.Prelude.{◌≡◌, ◌++◌, [], ◌∷◌, length, slice_get, OnOk, OnErr, IfOk, IfErr, IfSome, IfNone};

mod copies;

use crate::{Arm, AttrVar, Field, Operation, Param, Prim, TypeDef};
use nd_base::Memory;
use std::alloc::Global;
use std::marker::Model;

/// A list of whole numbers.
#[derive(Drop)]
pub struct Numbers {
    items: Vec<i128>,
}

impl Model for Numbers {
    ghost use Rattle.std.specs.Prelude.{List, ℤ};

    ghost Value = { List ℤ };

    ghost view = { λ o. o.items.items };
}

impl Numbers {
    /// An empty list. It allocates nothing.
    pub fn new(alloc: Global) -> Numbers
        ensures { result ≡ [] }
    {
        Numbers {
            items: Vec::new(alloc),
        }
    }

    /// Appends an item, which may take memory. Out of memory the item is handed back, and nothing has changed.
    pub fn push(&mut self, item: i128) -> Result<(), (Memory, i128)>
        ensures ok { OnOk result (self.new ≡ self.old ++ item ∷ []) }
        ensures err { OnErr result (self.new ≡ self.old) }
        ensures back { IfErr result (λ e. e.1 ≡ item) }
    {
        match self.items.push(item) {
            Ok(()) => Ok(()),
            Err(failed) => Err((Memory, failed.value)),
        }
    }

    /// The number of items. Takes no memory.
    pub fn len(&self) -> usize
        ensures { result ≡ length self.now }
    {
        self.items.len()
    }

    /// The item at a place, from 0, or None past the last. Takes no memory.
    pub fn get(&self, at: usize) -> Option<&i128>
        ensures some { IfSome result (λ item. slice_get self.now at ≡ Some item.now) }
        ensures none { IfNone result (slice_get self.now at ≡ None) }
    {
        self.items.get(at)
    }
}

/// A list of attributes.
#[derive(Drop)]
pub struct AttrVars {
    items: Vec<AttrVar>,
}

impl Model for AttrVars {
    ghost use Rattle.std.specs.Prelude.{List};
    ghost use Rattle.nd_types.specs.declared.types.AttrVar.{AttrVar};

    ghost Value = { List AttrVar };

    ghost view = { λ o. o.items.items };
}

impl AttrVars {
    /// An empty list. It allocates nothing.
    pub fn new(alloc: Global) -> AttrVars
        ensures { result ≡ [] }
    {
        AttrVars {
            items: Vec::new(alloc),
        }
    }

    /// Appends an item, which may take memory. Out of memory the item is handed back, and nothing has changed.
    pub fn push(&mut self, item: AttrVar) -> Result<(), (Memory, AttrVar)>
        ensures ok { OnOk result (self.new ≡ self.old ++ item ∷ []) }
        ensures err { OnErr result (self.new ≡ self.old) }
        ensures back { IfErr result (λ e. e.1 ≡ item) }
    {
        match self.items.push(item) {
            Ok(()) => Ok(()),
            Err(failed) => Err((Memory, failed.value)),
        }
    }

    /// The number of items. Takes no memory.
    pub fn len(&self) -> usize
        ensures { result ≡ length self.now }
    {
        self.items.len()
    }

    /// The item at a place, from 0, or None past the last. Takes no memory.
    pub fn get(&self, at: usize) -> Option<&AttrVar>
        ensures some { IfSome result (λ item. slice_get self.now at ≡ Some item.now) }
        ensures none { IfNone result (slice_get self.now at ≡ None) }
    {
        self.items.get(at)
    }
}

/// A list of members.
#[derive(Drop)]
pub struct Fields {
    items: Vec<Field>,
}

impl Model for Fields {
    ghost use Rattle.std.specs.Prelude.{List};
    ghost use Rattle.nd_types.specs.declared.types.Field.{Field};

    ghost Value = { List Field };

    ghost view = { λ o. o.items.items };
}

impl Fields {
    /// An empty list. It allocates nothing.
    pub fn new(alloc: Global) -> Fields
        ensures { result ≡ [] }
    {
        Fields {
            items: Vec::new(alloc),
        }
    }

    /// Appends an item, which may take memory. Out of memory the item is handed back, and nothing has changed.
    pub fn push(&mut self, item: Field) -> Result<(), (Memory, Field)>
        ensures ok { OnOk result (self.new ≡ self.old ++ item ∷ []) }
        ensures err { OnErr result (self.new ≡ self.old) }
        ensures back { IfErr result (λ e. e.1 ≡ item) }
    {
        match self.items.push(item) {
            Ok(()) => Ok(()),
            Err(failed) => Err((Memory, failed.value)),
        }
    }

    // The items.
    pub(crate) fn as_slice(&self) -> &[Field]
        ensures { result.now ≡ self.now }
    {
        self.items.as_slice()
    }

    /// The number of items. Takes no memory.
    pub fn len(&self) -> usize
        ensures { result ≡ length self.now }
    {
        self.items.len()
    }

    /// The item at a place, from 0, or None past the last. Takes no memory.
    pub fn get(&self, at: usize) -> Option<&Field>
        ensures some { IfSome result (λ item. slice_get self.now at ≡ Some item.now) }
        ensures none { IfNone result (slice_get self.now at ≡ None) }
    {
        self.items.get(at)
    }
}

/// A list of arms.
#[derive(Drop)]
pub struct Arms {
    items: Vec<Arm>,
}

impl Model for Arms {
    ghost use Rattle.std.specs.Prelude.{List};
    ghost use Rattle.nd_types.specs.declared.types.Arm.{Arm};

    ghost Value = { List Arm };

    ghost view = { λ o. o.items.items };
}

impl Arms {
    /// An empty list. It allocates nothing.
    pub fn new(alloc: Global) -> Arms
        ensures { result ≡ [] }
    {
        Arms {
            items: Vec::new(alloc),
        }
    }

    /// Appends an item, which may take memory. Out of memory the item is handed back, and nothing has changed.
    pub fn push(&mut self, item: Arm) -> Result<(), (Memory, Arm)>
        ensures ok { OnOk result (self.new ≡ self.old ++ item ∷ []) }
        ensures err { OnErr result (self.new ≡ self.old) }
        ensures back { IfErr result (λ e. e.1 ≡ item) }
    {
        match self.items.push(item) {
            Ok(()) => Ok(()),
            Err(failed) => Err((Memory, failed.value)),
        }
    }

    // The items.
    pub(crate) fn as_slice(&self) -> &[Arm]
        ensures { result.now ≡ self.now }
    {
        self.items.as_slice()
    }

    /// The number of items. Takes no memory.
    pub fn len(&self) -> usize
        ensures { result ≡ length self.now }
    {
        self.items.len()
    }

    /// The item at a place, from 0, or None past the last. Takes no memory.
    pub fn get(&self, at: usize) -> Option<&Arm>
        ensures some { IfSome result (λ item. slice_get self.now at ≡ Some item.now) }
        ensures none { IfNone result (slice_get self.now at ≡ None) }
    {
        self.items.get(at)
    }
}

/// A list of parameters.
#[derive(Drop)]
pub struct Params {
    items: Vec<Param>,
}

impl Model for Params {
    ghost use Rattle.std.specs.Prelude.{List};
    ghost use Rattle.nd_types.specs.declared.types.Param.{Param};

    ghost Value = { List Param };

    ghost view = { λ o. o.items.items };
}

impl Params {
    /// An empty list. It allocates nothing.
    pub fn new(alloc: Global) -> Params
        ensures { result ≡ [] }
    {
        Params {
            items: Vec::new(alloc),
        }
    }

    /// Appends an item, which may take memory. Out of memory the item is handed back, and nothing has changed.
    pub fn push(&mut self, item: Param) -> Result<(), (Memory, Param)>
        ensures ok { OnOk result (self.new ≡ self.old ++ item ∷ []) }
        ensures err { OnErr result (self.new ≡ self.old) }
        ensures back { IfErr result (λ e. e.1 ≡ item) }
    {
        match self.items.push(item) {
            Ok(()) => Ok(()),
            Err(failed) => Err((Memory, failed.value)),
        }
    }

    // The items.
    pub(crate) fn as_slice(&self) -> &[Param]
        ensures { result.now ≡ self.now }
    {
        self.items.as_slice()
    }

    /// The number of items. Takes no memory.
    pub fn len(&self) -> usize
        ensures { result ≡ length self.now }
    {
        self.items.len()
    }

    /// The item at a place, from 0, or None past the last. Takes no memory.
    pub fn get(&self, at: usize) -> Option<&Param>
        ensures some { IfSome result (λ item. slice_get self.now at ≡ Some item.now) }
        ensures none { IfNone result (slice_get self.now at ≡ None) }
    {
        self.items.get(at)
    }
}

/// A list of types: a type's number is its place in it, from 0.
#[derive(Drop)]
pub struct Types {
    items: Vec<TypeDef>,
}

impl Model for Types {
    ghost use Rattle.std.specs.Prelude.{List};
    ghost use Rattle.nd_types.specs.declared.types.TypeDef.{TypeDef};

    ghost Value = { List TypeDef };

    ghost view = { λ o. o.items.items };
}

impl Types {
    ghost use Rattle.nd_types.specs.Kinds.{basic_types};

    /// The types with which each table begins: the primitives in the order of `Primitive`, and the context handle.
    pub fn basic(alloc: Global) -> Result<Types, Memory>
        ensures { IfOk result (λ types. types ≡ basic_types) }
    {
        let types = [
            TypeDef::Prim(Prim::Boolean),
            TypeDef::Prim(Prim::Char),
            TypeDef::Prim(Prim::Byte),
            TypeDef::Prim(Prim::Small),
            TypeDef::Prim(Prim::UnsignedSmall),
            TypeDef::Prim(Prim::Short),
            TypeDef::Prim(Prim::UnsignedShort),
            TypeDef::Prim(Prim::Long),
            TypeDef::Prim(Prim::UnsignedLong),
            TypeDef::Prim(Prim::Hyper),
            TypeDef::Prim(Prim::UnsignedHyper),
            TypeDef::Context,
        ];
        match Vec::from_array(alloc, types) {
            Ok(items) => Ok(Types { items }),
            Err(_) => Err(Memory),
        }
    }

    /// An empty list. It allocates nothing.
    pub fn new(alloc: Global) -> Types
        ensures { result ≡ [] }
    {
        Types {
            items: Vec::new(alloc),
        }
    }

    /// Appends an item, which may take memory. Out of memory the item is handed back, and nothing has changed.
    pub fn push(&mut self, item: TypeDef) -> Result<(), (Memory, TypeDef)>
        ensures ok { OnOk result (self.new ≡ self.old ++ item ∷ []) }
        ensures err { OnErr result (self.new ≡ self.old) }
        ensures back { IfErr result (λ e. e.1 ≡ item) }
    {
        match self.items.push(item) {
            Ok(()) => Ok(()),
            Err(failed) => Err((Memory, failed.value)),
        }
    }

    // The items.
    pub(crate) fn as_slice(&self) -> &[TypeDef]
        ensures { result.now ≡ self.now }
    {
        self.items.as_slice()
    }

    /// The number of items. Takes no memory.
    pub fn len(&self) -> usize
        ensures { result ≡ length self.now }
    {
        self.items.len()
    }

    /// The item at a place, from 0, or None past the last. Takes no memory.
    pub fn get(&self, at: usize) -> Option<&TypeDef>
        ensures some { IfSome result (λ item. slice_get self.now at ≡ Some item.now) }
        ensures none { IfNone result (slice_get self.now at ≡ None) }
    {
        self.items.get(at)
    }
}

/// A list of operations.
#[derive(Drop)]
pub struct Operations {
    items: Vec<Operation>,
}

impl Model for Operations {
    ghost use Rattle.std.specs.Prelude.{List};
    ghost use Rattle.nd_types.specs.declared.types.Operation.{Operation};

    ghost Value = { List Operation };

    ghost view = { λ o. o.items.items };
}

impl Operations {
    /// An empty list. It allocates nothing.
    pub fn new(alloc: Global) -> Operations
        ensures { result ≡ [] }
    {
        Operations {
            items: Vec::new(alloc),
        }
    }

    /// Appends an item, which may take memory. Out of memory the item is handed back, and nothing has changed.
    pub fn push(&mut self, item: Operation) -> Result<(), (Memory, Operation)>
        ensures ok { OnOk result (self.new ≡ self.old ++ item ∷ []) }
        ensures err { OnErr result (self.new ≡ self.old) }
        ensures back { IfErr result (λ e. e.1 ≡ item) }
    {
        match self.items.push(item) {
            Ok(()) => Ok(()),
            Err(failed) => Err((Memory, failed.value)),
        }
    }

    // The items.
    pub(crate) fn as_slice(&self) -> &[Operation]
        ensures { result.now ≡ self.now }
    {
        self.items.as_slice()
    }

    /// The number of items. Takes no memory.
    pub fn len(&self) -> usize
        ensures { result ≡ length self.now }
    {
        self.items.len()
    }

    /// The item at a place, from 0, or None past the last. Takes no memory.
    pub fn get(&self, at: usize) -> Option<&Operation>
        ensures some { IfSome result (λ item. slice_get self.now at ≡ Some item.now) }
        ensures none { IfNone result (slice_get self.now at ≡ None) }
    {
        self.items.get(at)
    }
}
