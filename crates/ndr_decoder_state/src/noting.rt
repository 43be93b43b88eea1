// Items as they are read.
ghost use Rattle.std.specs.Prelude.{◌≡◌, ◌+◌, ◌*◌, ◌<◌, ◌^◌, length, OnOk, OnErr, IfErr};
ghost use Rattle.nd_value.specs.Logged.{noted, ticks_of};
ghost use Rattle.ndr_decoder_laws.specs.steps.StepItems.{next_item, gap_items};
ghost use Rattle.ndr_decoder_state.specs.Seen.{state_of};
ghost use Rattle.ndr_decoder_state.specs.Notes.{all_noted, number_ahead};
ghost use Rattle.ndr_decoder_state.specs.declared.fault.DecodeFault.TheVariants as fault;

use crate::{DecodeFault, Machine};
use nd_base::{Ledger, Steps};
use nd_value::{Item, ItemKind, ItemLog};

impl Machine {
    /// Notes an item of the node that comes next, at the place where the machine is. It takes memory, if the log keeps items; then neither the log
    /// nor the count has changed. Out of memory is the only refusal.
    #[inline(always)]
    pub fn note<L: Ledger>(
        &self,
        kind: ItemKind,
        len: u32,
        value: i128,
        items: &mut ItemLog,
        steps: &mut Steps<L>,
    ) -> Result<(), DecodeFault>
        ensures ok { OnOk result (items.new ≡ noted (next_item self.now.home (state_of self.now) kind len value) items.old) }
        ensures ticks { OnOk result (L.number steps.new ≡ L.number steps.old + ticks_of kind) }
        ensures err { OnErr result (items.new ≡ items.old) }
        ensures idle { OnErr result (steps.new ≡ steps.old) }
        ensures memory { IfErr result (λ e. e ≡ fault.Memory) }
    {
        let item = Item {
            at: self.at,
            len,
            kind,
            home: self.home,
            node: self.count,
            value,
        };
        items.note(item, steps)?;
        Ok(())
    }

    /// Notes the gap of these octets as `note` does, as an item of the home as a whole; an empty gap is no item. A gap has fewer than 2^32 octets.
    #[inline(always)]
    pub fn note_gap<L: Ledger>(
        &self,
        octets: &[u8],
        items: &mut ItemLog,
        steps: &mut Steps<L>,
    ) -> Result<(), DecodeFault>
        requires short { length octets.now < 2 ^ 32 }
        ensures ok { OnOk result (items.new ≡ all_noted (gap_items self.now.home self.now.at octets.now) items.old) }
        ensures ticks { OnOk result (L.number steps.new ≡ L.number steps.old) }
        ensures err { OnErr result (items.new ≡ items.old) }
        ensures idle { OnErr result (steps.new ≡ steps.old) }
        ensures memory { IfErr result (λ e. e ≡ fault.Memory) }
    {
        if octets.is_empty() {
            return Ok(());
        }
        let item = Item {
            at: self.at,
            len: octets.len() as u32,
            kind: ItemKind::Gap,
            home: self.home,
            node: 0,
            value: 0,
        };
        items.note(item, steps)?;
        Ok(())
    }

    /// Notes the number that comes so many numbers after the next one in a row, each so wide, as `note` does.
    pub fn note_ahead<L: Ledger>(
        &self,
        ahead: u32,
        wide: u32,
        value: i128,
        items: &mut ItemLog,
        steps: &mut Steps<L>,
    ) -> Result<(), DecodeFault>
        requires fits { self.now.at + ahead * wide < 2 ^ 32 }
        requires few { self.now.count + ahead < 2 ^ 32 }
        ensures ok { OnOk result (items.new ≡ noted (number_ahead self.now.home (state_of self.now) ahead wide value) items.old) }
        ensures ticks { OnOk result (L.number steps.new ≡ L.number steps.old + 1) }
        ensures err { OnErr result (items.new ≡ items.old) }
        ensures idle { OnErr result (steps.new ≡ steps.old) }
        ensures memory { IfErr result (λ e. e ≡ fault.Memory) }
    {
        let item = Item {
            at: self.at + ahead * wide,
            len: wide,
            kind: ItemKind::Num,
            home: self.home,
            node: self.count + ahead,
            value,
        };
        items.note(item, steps)?;
        Ok(())
    }
}
