// Where homes end.
ghost use Rattle.std.specs.Prelude.{◌≡◌, ◌<◌, None, OnOk, IfOk, IfErr};
ghost use Rattle.ndr_decoder_state.specs.declared.fault.DecodeFault.TheVariants as fault;
ghost use Rattle.ndr_decoder_stream.specs.Entries.{counts_kept, plain};
ghost use Rattle.ndr_decoder_laws.specs.stream.Between.{kept_at};
ghost use Rattle.ndr_decoder_stream.specs.Seen.{CellEnds, CellPassed, HasOwn, ReferenceEnds, RootEnds};

use crate::Stream;
use crate::cells::Counts;
use crate::looking::{home_counts, is_plain_home, kept_home, named_cell};
use nd_base::Memory;
use nd_value::CellId;
use ndr_decoder_laws::{First, Kept, KeptRoot};
use ndr_decoder_state::DecodeFault;

impl Stream {
    /// Keeps the root whose value was read in its place, and makes its pointers pending. It takes memory, and out of memory is the only refusal.
    pub fn end_root(&mut self) -> Result<(), DecodeFault>
        ensures ends { OnOk result (RootEnds self.old self.new) }
        ensures memory { IfErr result (λ e. e ≡ fault.Memory) }
    {
        let own = kept_home(&self.machine);
        let cell = named_cell(own.first, self.machine.fresh.as_slice());
        let Ok(()) = self.roots.push(KeptRoot { own, cell }) else {
            return Err(DecodeFault::Memory);
        };
        self.settle()?;
        Ok(())
    }

    /// Keeps the cell whose value was read now, and gives what is kept of it. Its pointers are not pending yet. It takes memory, and out of memory is
    /// the only refusal.
    #[inline(never)]
    pub fn end_cell(&mut self, cell: CellId) -> Result<Kept, DecodeFault>
        requires there { 0 < cell.0 }
        requires unread { kept_at self.old.cells.items cell.0 ≡ None }
        ensures own { IfOk result (λ k. HasOwn self.old.machine k) }
        ensures ends { IfOk result (λ k. CellEnds cell.0 k self.old self.new) }
        ensures memory { IfErr result (λ e. e ≡ fault.Memory) }
    {
        let kept = kept_home(&self.machine);
        self.keep_cell(cell, kept)?;
        Ok(kept)
    }

    /// Keeps the cell whose value was read now, as `end_cell` does, where nobody asks at once what is kept of it.
    #[inline(always)]
    pub fn pass_cell(&mut self, cell: CellId) -> Result<(), Memory>
        requires there { 0 < cell.0 }
        requires unread { kept_at self.old.cells.items cell.0 ≡ None }
        ensures ends { OnOk result (CellPassed cell.0 self.old self.new) }
    {
        if is_plain_home(&self.machine) {
            return self.pass_plain(cell);
        }
        if let Some(counts) = home_counts(&self.machine) {
            return self.pass_counted(cell, counts);
        }
        self.pass_other(cell)
    }

    // The same where nothing of the cell has to be listed.
    #[inline(always)]
    fn pass_plain(&mut self, cell: CellId) -> Result<(), Memory>
        requires there { 0 < cell.0 }
        requires is_plain { HasOwn self.old.machine plain }
        ensures ends { OnOk result (CellPassed cell.0 self.old self.new) }
    {
        self.cells.keep_plain(cell)?;
        Ok(())
    }

    // The same where its counts are all that has to be.
    #[inline(always)]
    fn pass_counted(&mut self, cell: CellId, counts: Counts) -> Result<(), Memory>
        requires there { 0 < cell.0 }
        requires unread { kept_at self.old.cells.items cell.0 ≡ None }
        requires own { HasOwn self.old.machine (counts_kept counts) }
        ensures ends { OnOk result (CellPassed cell.0 self.old self.new) }
    {
        self.cells.keep_counts(cell, counts)?;
        Ok(())
    }

    // The same where something else of it may have to be.
    #[inline(never)]
    fn pass_other(&mut self, cell: CellId) -> Result<(), Memory>
        requires there { 0 < cell.0 }
        requires unread { kept_at self.old.cells.items cell.0 ≡ None }
        ensures ends { OnOk result (CellPassed cell.0 self.old self.new) }
    {
        let kept = kept_home(&self.machine);
        self.keep_cell(cell, kept)?;
        Ok(())
    }

    /// Keeps the root that is a reference pointer, and its referent, whose value was read; its pointers become pending. It takes memory, and out of
    /// memory is the only refusal.
    pub fn end_reference(&mut self, cell: CellId) -> Result<(), DecodeFault>
        requires there { 0 < cell.0 }
        requires unread { kept_at self.old.cells.items cell.0 ≡ None }
        ensures ends { OnOk result (ReferenceEnds cell self.old self.new) }
        ensures memory { IfErr result (λ e. e ≡ fault.Memory) }
    {
        let kept = kept_home(&self.machine);
        self.keep_cell(cell, kept)?;
        let root = KeptRoot {
            own: POINTER,
            cell: Some(cell),
        };
        let Ok(()) = self.roots.push(root) else {
            return Err(DecodeFault::Memory);
        };
        self.settle()?;
        Ok(())
    }
}

// What is kept of a reference pointer that is a root.
const POINTER: Kept = Kept {
    first: First::Pointer,
    max_at: None,
};
