// The lists of a plan. Contracts see each of them as a list.
ghost use Rattle.std.specs.Prelude.{◌≡◌, ◌<◌, ◌≤◌, ◌+◌, ◌^◌, ◌++◌, [], ◌∷◌, length, slice_get, Some, None, OnOk, OnErr, IfErr, IfSome, IfNone};
ghost use Rattle.ndr_code.specs.declared.instr.Instr.TheVariants as op;
ghost use Rattle.ndr_code.specs.Fields.{AreFields, field_of};
ghost use Rattle.ndr_code.specs.Lengths.{HasFields};

use crate::fields::{Field, field_at};
use crate::lengths::{Lengths, length_of, look_lengths_up};
use crate::{ADDRESS_LIMIT, Instr};
use nd_base::{Memory, Name, push};
use nd_types::{Numbers, Side, TypeId};
use std::alloc::Global;
use std::marker::Model;

/// A place in the code of a plan that a side of an operation begins with.
#[derive(Drop)]
pub enum PlanLine {
    /// The run of a root: of a parameter, or of the result, whose name is `return`.
    Entry {
        op: u32,
        side: Side,
        name: Name,
        at: u32,
    },
    /// The run of the agreements of the side's roots.
    Checks {
        op: u32,
        side: Side,
        at: u32,
    },
}

/// The values of the enumerators of a type, in the order of the interface.
#[derive(Drop)]
pub struct EnumList {
    pub of: TypeId,
    pub values: Numbers,
}

/// The instructions of a plan, by address, and what was looked up in them.
#[derive(Drop)]
pub struct Code {
    items: Vec<Instr>,
    // the members of structs by the addresses of their calls, as far as they were looked up
    fields: Vec<Option<Field>>,
    // the lengths of structs by their addresses, as far as they were looked up
    lengths: Vec<Option<Lengths>>,
}

impl Model for Code {
    ghost use Rattle.std.specs.Prelude.{List};
    ghost use Rattle.ndr_code.specs.declared.instr.Instr.{Instr};

    ghost Value = { List Instr };

    ghost view = { λ o. o.items.items };

    ghost use Rattle.ndr_code.specs.Fields.{AreFields};
    ghost use Rattle.ndr_code.specs.Lengths.{AreLengths};

    ghost invariant = { λ o. AreFields o.items.items o.fields.items × AreLengths o.items.items o.lengths.items };
}

impl Code {
    /// Appends a run, which may take memory. Memory is the only refusal, and changes nothing.
    pub fn append(&mut self, run: &[Instr]) -> Result<(), Memory>
        ensures ok { OnOk result (self.new ≡ self.old ++ run.now) }
        ensures err { OnErr result (self.new ≡ self.old) }
    {
        self.fields.clear();
        self.lengths.clear();
        self.items.extend_from_slice(run)?;
        Ok(())
    }

    /// An empty list. It allocates nothing.
    pub fn new(alloc: Global) -> Code
        ensures { result ≡ [] }
    {
        Code {
            items: Vec::new(alloc),
            fields: Vec::new(alloc),
            lengths: Vec::new(alloc),
        }
    }

    /// Looks the members and the lengths of all structs up, as far as memory has room for them, so that `field` and `struct_len` have them at hand.
    pub fn look_up(&mut self)
        ensures { self.new ≡ self.old }
    {
        self.fields.clear();
        self.lengths.clear();
        let _fields = look_fields_up(self.items.as_slice(), &mut self.fields);
        if self.items.len() > ADDRESS_LIMIT as usize {
            return;
        }
        let code = self.items.as_slice();
        let _lengths = look_lengths_up(code, self.fields.as_slice(), &mut self.lengths);
    }

    /// How many octets the members of the struct at an address have from a place on, 64 at most, if they are numbers and unique and reference
    /// pointers. None where they are anything else, or more octets, or where a gap goes to another multiple than 1, 2, 4 or 8. Takes no memory.
    #[inline(always)]
    pub fn struct_len(&self, pc: usize, at: u32, members: u32) -> Option<u32>
        requires short { length self.now < 2 ^ 32 }
        requires here { slice_get self.now pc ≡ Some (op.Record members) }
        ensures fields { IfSome result (λ len. HasFields self.now (pc + 1) at members len) }
        ensures few { IfSome result (λ len. len ≤ 64) }
    {
        let Some(lengths) = lengths_entry(self.lengths.as_slice(), pc) else {
            return self.measured(pc, at, members);
        };
        let Some(lengths) = lengths else {
            return None;
        };
        match at % 8 {
            0 => Some(u32::from(lengths.at_eight)),
            4 => Some(u32::from(lengths.after_four)),
            _ => self.measured(pc, at, members),
        }
    }

    // The same, by a pass over the members.
    #[inline(never)]
    fn measured(&self, pc: usize, at: u32, members: u32) -> Option<u32>
        requires short { length self.now < 2 ^ 32 }
        requires here { slice_get self.now pc ≡ Some (op.Record members) }
        ensures fields { IfSome result (λ len. HasFields self.now (pc + 1) at members len) }
        ensures few { IfSome result (λ len. len ≤ 64) }
    {
        let code = self.items.as_slice();
        length_of(code, self.fields.as_slice(), pc + 1, at % 8, members)
    }

    /// The member that is called at an address, if it is a number or a unique or reference pointer, or a gap and one of these. Takes no memory.
    #[inline(always)]
    pub fn field(&self, at: usize) -> Option<Field>
        ensures { result ≡ field_of self.now at }
    {
        match entry(self.fields.as_slice(), at) {
            Some(field) => field,
            None => field_at(self.items.as_slice(), at),
        }
    }

    /// The instruction at an address. Takes no memory.
    #[inline(always)]
    pub fn at(&self, at: usize) -> Instr
        requires { at < length self.now }
        ensures { slice_get self.now at ≡ Some result }
    {
        self.items[at]
    }

    /// The items. Takes no memory.
    #[inline(always)]
    pub fn as_slice(&self) -> &[Instr]
        ensures { result.now ≡ self.now }
    {
        self.items.as_slice()
    }

    /// The number of items. Takes no memory.
    pub fn len(&self) -> usize
        ensures { result ≡ length self.now }
    {
        self.items.len()
    }

    /// The item at a place, from 0, or None past the last. Takes no memory.
    #[inline(always)]
    pub fn get(&self, at: usize) -> Option<&Instr>
        ensures some { IfSome result (λ item. slice_get self.now at ≡ Some item.now) }
        ensures none { IfNone result (slice_get self.now at ≡ None) }
    {
        self.items.get(at)
    }
}

// An entry of a table of members.
#[inline(always)]
pub(crate) fn entry(fields: &[Option<Field>], at: usize) -> Option<Option<Field>>
    ensures { IfSome result (λ field. slice_get fields.now at ≡ Some field) }
{
    match fields.get(at) {
        Some(field) => Some(*field),
        None => None,
    }
}

// An entry of a table of lengths.
#[inline(always)]
fn lengths_entry(lengths: &[Option<Lengths>], at: usize) -> Option<Option<Lengths>>
    ensures { IfSome result (λ l. slice_get lengths.now at ≡ Some l) }
{
    match lengths.get(at) {
        Some(entry) => Some(*entry),
        None => None,
    }
}

// Puts the member that is called at each address into an empty list.
#[tactic(auto, using(crate::proofs::FieldTables::fields_none, crate::proofs::FieldTables::fields_more))]
fn look_fields_up(code: &[Instr], fields: &mut Vec<Option<Field>>) -> Result<(), Memory>
    requires none { fields.old.items ≡ [] }
    ensures { AreFields code.now fields.new.items }
{
    for at in 0..code.len() {
        push(fields, field_at(code, at))?;
    }
    Ok(())
}

/// The places of all sides of all operations: for each side its roots that are no pipes in their order, its agreements, its pipes.
#[derive(Drop)]
pub struct PlanLines {
    items: Vec<PlanLine>,
}

impl Model for PlanLines {
    ghost use Rattle.std.specs.Prelude.{List};
    ghost use Rattle.ndr_code.specs.declared.lists.PlanLine.{PlanLine};

    ghost Value = { List PlanLine };

    ghost view = { λ o. o.items.items };
}

impl PlanLines {
    /// An empty list. It allocates nothing.
    pub fn new(alloc: Global) -> PlanLines
        ensures { result ≡ [] }
    {
        PlanLines {
            items: Vec::new(alloc),
        }
    }

    /// Appends an item, which may take memory. If there is none the item is handed back, and nothing has changed.
    pub fn push(&mut self, item: PlanLine) -> Result<(), (Memory, PlanLine)>
        ensures ok { OnOk result (self.new ≡ self.old ++ item ∷ []) }
        ensures err { OnErr result (self.new ≡ self.old) }
        ensures back { IfErr result (λ e. e.1 ≡ item) }
    {
        match self.items.push(item) {
            Ok(()) => Ok(()),
            Err(failed) => Err((Memory, failed.value)),
        }
    }

    /// The items. Takes no memory.
    pub fn as_slice(&self) -> &[PlanLine]
        ensures { result.now ≡ self.now }
    {
        self.items.as_slice()
    }

    /// The number of items. Takes no memory.
    pub fn len(&self) -> usize
        ensures { result ≡ length self.now }
    {
        self.items.len()
    }

    /// The item at a place, from 0, or None past the last. Takes no memory.
    pub fn get(&self, at: usize) -> Option<&PlanLine>
        ensures some { IfSome result (λ item. slice_get self.now at ≡ Some item.now) }
        ensures none { IfNone result (slice_get self.now at ≡ None) }
    {
        self.items.get(at)
    }
}

/// The enumerated types in the order of their numbers.
#[derive(Drop)]
pub struct EnumLists {
    items: Vec<EnumList>,
}

impl Model for EnumLists {
    ghost use Rattle.std.specs.Prelude.{List};
    ghost use Rattle.ndr_code.specs.declared.lists.EnumList.{EnumList};

    ghost Value = { List EnumList };

    ghost view = { λ o. o.items.items };
}

impl EnumLists {
    /// An empty list. It allocates nothing.
    pub fn new(alloc: Global) -> EnumLists
        ensures { result ≡ [] }
    {
        EnumLists {
            items: Vec::new(alloc),
        }
    }

    /// Appends an item, which may take memory. If there is none the item is handed back, and nothing has changed.
    pub fn push(&mut self, item: EnumList) -> Result<(), (Memory, EnumList)>
        ensures ok { OnOk result (self.new ≡ self.old ++ item ∷ []) }
        ensures err { OnErr result (self.new ≡ self.old) }
        ensures back { IfErr result (λ e. e.1 ≡ item) }
    {
        match self.items.push(item) {
            Ok(()) => Ok(()),
            Err(failed) => Err((Memory, failed.value)),
        }
    }

    /// The items. Takes no memory.
    pub fn as_slice(&self) -> &[EnumList]
        ensures { result.now ≡ self.now }
    {
        self.items.as_slice()
    }

    /// The number of items. Takes no memory.
    pub fn len(&self) -> usize
        ensures { result ≡ length self.now }
    {
        self.items.len()
    }

    /// The item at a place, from 0, or None past the last. Takes no memory.
    pub fn get(&self, at: usize) -> Option<&EnumList>
        ensures some { IfSome result (λ item. slice_get self.now at ≡ Some item.now) }
        ensures none { IfNone result (slice_get self.now at ≡ None) }
    {
        self.items.get(at)
    }
}

/// At which of the `PlanLines` the lines of each side begin: two numbers for each operation, of its request and of its response.
#[derive(Drop)]
pub struct SideStarts {
    items: Vec<u32>,
}

impl Model for SideStarts {
    ghost use Rattle.std.specs.Prelude.{List, ℕ};

    ghost Value = { List ℕ };

    ghost view = { λ o. o.items.items };
}

impl SideStarts {
    /// An empty list. It allocates nothing.
    pub fn new(alloc: Global) -> SideStarts
        ensures { result ≡ [] }
    {
        SideStarts {
            items: Vec::new(alloc),
        }
    }

    /// Appends an item, which may take memory. If there is none the item is handed back, and nothing has changed.
    pub fn push(&mut self, item: u32) -> Result<(), (Memory, u32)>
        ensures ok { OnOk result (self.new ≡ self.old ++ item ∷ []) }
        ensures err { OnErr result (self.new ≡ self.old) }
        ensures back { IfErr result (λ e. e.1 ≡ item) }
    {
        match self.items.push(item) {
            Ok(()) => Ok(()),
            Err(failed) => Err((Memory, failed.value)),
        }
    }

    /// The items. Takes no memory.
    pub fn as_slice(&self) -> &[u32]
        ensures { result.now ≡ self.now }
    {
        self.items.as_slice()
    }

    /// The number of items. Takes no memory.
    pub fn len(&self) -> usize
        ensures { result ≡ length self.now }
    {
        self.items.len()
    }

    /// The item at a place, from 0, or None past the last. Takes no memory.
    pub fn get(&self, at: usize) -> Option<&u32>
        ensures some { IfSome result (λ item. slice_get self.now at ≡ Some item.now) }
        ensures none { IfNone result (slice_get self.now at ≡ None) }
    {
        self.items.get(at)
    }
}
