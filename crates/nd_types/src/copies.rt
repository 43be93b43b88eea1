// Copies of an interface and of what it is made of.
ghost use Rattle.std.specs.Prelude.{◌≡◌, IfOk};

use crate::{Arm, Field, Interface, Operation, Param, TypeDef};
use nd_base::{Memory, Name};
use std::alloc::Global;

// An item of a list that owns memory.
pub(crate) trait Item {
    // An equal item. It takes memory for what the item owns. Running out of memory is the only refusal.
    fn copy(&self, alloc: Global) -> Result<Self, Memory>
        ensures { IfOk result (λ c. c ≡ self.now) };
}

// Equal items in the same order. It takes memory for exactly as many, and for what they own. Running out of memory is the only
// refusal.
pub(crate) fn copy_items<T: Item + Drop>(alloc: Global, items: &[T]) -> Result<Vec<T>, Memory>
    ensures { IfOk result (λ c. c.items ≡ items.now) }
{
    let mut copies = Vec::with_capacity(alloc, items.len())?;
    for item in items {
        if copies.push(item.copy(alloc)?).is_err() {
            return Err(Memory);
        }
    }
    Ok(copies)
}

impl Interface {
    /// An equal interface. It takes memory for exactly the items of its lists and the octets of its names, in time that grows with
    /// them. Running out of memory is the only refusal.
    pub fn copy(&self, alloc: Global) -> Result<Interface, Memory>
        ensures { IfOk result (λ c. c ≡ self.now) }
    {
        let name = Name::copy(alloc, self.name.as_slice())?;
        let types = self.types.copy(alloc)?;
        let layouts = self.layouts.copy(alloc)?;
        let operations = self.operations.copy(alloc)?;
        Ok(Interface {
            name,
            uuid: self.uuid,
            major: self.major,
            minor: self.minor,
            types,
            layouts,
            operations,
        })
    }
}

impl Item for Operation {
    fn copy(&self, alloc: Global) -> Result<Operation, Memory> {
        Ok(Operation {
            name: Name::copy(alloc, self.name.as_slice())?,
            params: self.params.copy(alloc)?,
            result: self.result,
        })
    }
}

impl Item for Param {
    fn copy(&self, alloc: Global) -> Result<Param, Memory> {
        Ok(Param {
            field: self.field.copy(alloc)?,
            way: self.way,
        })
    }
}

impl Item for Field {
    fn copy(&self, alloc: Global) -> Result<Field, Memory> {
        Ok(Field {
            name: Name::copy(alloc, self.name.as_slice())?,
            of: self.of,
            vars: self.vars.copy(alloc)?,
        })
    }
}

impl Item for Arm {
    fn copy(&self, alloc: Global) -> Result<Arm, Memory> {
        Ok(Arm {
            label: self.label,
            name: copy_name(alloc, &self.name)?,
            of: self.of,
        })
    }
}

impl Item for TypeDef {
    fn copy(&self, alloc: Global) -> Result<TypeDef, Memory> {
        match self {
            TypeDef::Prim(prim) => Ok(TypeDef::Prim(*prim)),
            TypeDef::Enum { values } => Ok(TypeDef::Enum {
                values: values.copy(alloc)?,
            }),
            TypeDef::Struct { members } => Ok(TypeDef::Struct {
                members: members.copy(alloc)?,
            }),
            TypeDef::Array {
                elem,
                bound,
                varying,
            } => Ok(TypeDef::Array {
                elem: *elem,
                bound: *bound,
                varying: *varying,
            }),
            TypeDef::Text { elem, bound } => Ok(TypeDef::Text {
                elem: *elem,
                bound: *bound,
            }),
            TypeDef::Union {
                tag,
                encapsulated,
                arms,
                default,
            } => Ok(TypeDef::Union {
                tag: *tag,
                encapsulated: *encapsulated,
                arms: arms.copy(alloc)?,
                default: copy_default(alloc, default)?,
            }),
            TypeDef::Pointer { class, to } => Ok(TypeDef::Pointer {
                class: *class,
                to: *to,
            }),
            TypeDef::Context => Ok(TypeDef::Context),
            TypeDef::Pipe { elem } => Ok(TypeDef::Pipe { elem: *elem }),
        }
    }
}

// An equal name of an arm, or none.
fn copy_name(alloc: Global, name: &Option<Name>) -> Result<Option<Name>, Memory>
    ensures { IfOk result (λ c. c ≡ name.now) }
{
    match name {
        Some(name) => Ok(Some(Name::copy(alloc, name.as_slice())?)),
        None => Ok(None),
    }
}

// An equal default of a union, or none.
fn copy_default(alloc: Global, default: &Option<Arm>) -> Result<Option<Arm>, Memory>
    ensures { IfOk result (λ c. c ≡ default.now) }
{
    match default {
        Some(arm) => Ok(Some(arm.copy(alloc)?)),
        None => Ok(None),
    }
}
