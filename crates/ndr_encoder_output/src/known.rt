// What is known of the runs of a code.
ghost use Rattle.std.specs.Prelude.{◌≡◌, List, IfSome};
ghost use Rattle.ndr_code.specs.declared.instr.Instr.{Instr as Instruction};
ghost use Rattle.ndr_encoder_output.specs.Structs.{IsRight, IsStructRun, AreKnown};

use crate::members::{StructRun, begins_struct, struct_of};
use ndr_code::Instr;

/// The address of a run, and the struct that it is known to be, if it is one.
#[derive(Clone, Copy)]
pub struct Slot {
    pub start: u32,
    pub of: Option<StructRun>,
}

/// What is known of runs that were looked at, so that each need not be looked at again for each home: eight of them, each in the slot of its address.
#[derive(Drop)]
pub struct Known {
    pub slots: [Slot; 8],
}

// How many slots there are.
const SLOTS: u32 = 8;

// What is known of a run.
#[cold]
#[inline(never)]
fn slot_of(code: &[Instr], start: u32) -> Slot
    ensures right { IsRight code.now result }
    ensures start { result.start ≡ start }
{
    Slot {
        start,
        of: struct_of(code, start),
    }
}

impl Known {
    /// Nothing is known. Takes no memory.
    pub fn new() -> Known
        ensures { (code : List Instruction) → AreKnown code result }
    {
        Known {
            slots: [Slot { start: 0, of: None }; 8],
        }
    }

    /// Looks at the run at an address, unless it was looked at last in its slot, or does not begin as a struct does. Takes no memory.
    #[inline(always)]
    pub fn learn(&mut self, code: &[Instr], start: u32)
        requires { AreKnown code.now self.old }
        ensures { AreKnown code.now self.new }
    {
        let at = (start % SLOTS) as usize;
        if self.slots[at].start == start {
            return;
        }
        if !begins_struct(code, start) {
            return;
        }
        self.slots[at] = slot_of(code, start);
    }

    /// The struct that the run at an address is known to be. None where it is not known to be one. Takes no memory.
    #[inline(always)]
    pub fn struct_at(&self, start: u32) -> Option<&StructRun>
        ensures { (code : List Instruction) → AreKnown code self.now → IfSome result (λ s. IsStructRun code start s.now) }
    {
        let slot = &self.slots[(start % SLOTS) as usize];
        if slot.start != start {
            return None;
        }
        slot.of.as_ref()
    }
}
