// Logs of the items of a stream.
ghost use Rattle.std.specs.Prelude.{◌≡◌, ◌+◌, [], true, false, length, slice_get, OnOk, OnErr, IfSome, IfNone, Some, None};
ghost use Rattle.nd_value.specs.Logged.{log_seen, noted, ticks_of};

use crate::{Item, ItemKind};
use nd_base::{Ledger, Memory, Steps};
use std::alloc::Global;
use std::marker::Model;

/// The items of a stream in order, as they are read, or none of them: then it stays empty. Contracts see whether it keeps items,
/// and those that it keeps.
#[derive(Drop)]
pub struct ItemLog {
    // none: no item is kept
    items: Option<Vec<Item>>,
}

impl Model for ItemLog {
    ghost use Rattle.nd_value.specs.Logged.{Logged, logged_code, log_seen};

    ghost Value = { Logged };

    ghost coded = { logged_code };

    ghost view = { λ l. log_seen l.items };
}

impl ItemLog {
    /// An empty log that keeps items. It allocates nothing.
    pub fn keeping(alloc: Global) -> ItemLog
        ensures { result ≡ record { keeps = true; items = [] } }
    {
        ItemLog {
            items: Some(Vec::new(alloc)),
        }
    }

    /// A log that keeps no item. Takes no memory.
    pub fn quiet() -> ItemLog
        ensures { result ≡ record { keeps = false; items = [] } }
    {
        ItemLog { items: None }
    }

    /// An empty log that keeps items exactly if this one does. It allocates nothing.
    pub fn like(&self, alloc: Global) -> ItemLog
        ensures keeps { result.keeps ≡ self.now.keeps }
        ensures empty { result.items ≡ [] }
    {
        match &self.items {
            Some(_) => ItemLog::keeping(alloc),
            None => ItemLog::quiet(),
        }
    }

    /// Notes the next item: a log that keeps items has it as its last, and each item but a gap is counted as one step. Want of
    /// memory is the only refusal; then neither the log nor the count has changed.
    #[inline(always)]
    pub fn note<L: Ledger>(&mut self, item: Item, steps: &mut Steps<L>) -> Result<(), Memory>
        ensures ok { OnOk result (self.new ≡ noted item self.old) }
        ensures ticks { OnOk result (L.number steps.new ≡ L.number steps.old + ticks_of item.kind) }
        ensures err { OnErr result (self.new ≡ self.old) }
        ensures idle { OnErr result (steps.new ≡ steps.old) }
    {
        keep(&mut self.items, item)?;
        count(item.kind, steps);
        Ok(())
    }

    /// Whether it keeps items. Takes no memory.
    #[inline(always)]
    pub fn keeps(&self) -> bool
        ensures { result ≡ self.now.keeps }
    {
        match &self.items {
            Some(_) => true,
            None => false,
        }
    }

    /// The number of items that it keeps. Takes no memory.
    pub fn len(&self) -> usize
        ensures { result ≡ length self.now.items }
    {
        match &self.items {
            Some(items) => items.len(),
            None => 0,
        }
    }

    /// The item at a place, from 0, or None past the last. Takes no memory.
    pub fn get(&self, at: usize) -> Option<&Item>
        ensures some { IfSome result (λ i. slice_get self.now.items at ≡ Some i.now) }
        ensures none { IfNone result (slice_get self.now.items at ≡ None) }
    {
        match &self.items {
            Some(items) => items.get(at),
            None => None,
        }
    }
}

// Appends an item, where items are kept.
#[inline(always)]
fn keep(items: &mut Option<Vec<Item>>, item: Item) -> Result<(), Memory>
    ensures ok { OnOk result (log_seen items.new ≡ noted item (log_seen items.old)) }
    ensures err { OnErr result (log_seen items.new ≡ log_seen items.old) }
{
    let Some(kept) = items else {
        return Ok(());
    };
    let Ok(()) = kept.push(item) else {
        return Err(Memory);
    };
    Ok(())
}

// Counts an item, unless it is a gap.
#[inline(always)]
fn count<L: Ledger>(kind: ItemKind, steps: &mut Steps<L>)
    ensures { L.number steps.new ≡ L.number steps.old + ticks_of kind }
{
    match kind {
        ItemKind::Gap => {}
        _ => steps.tick(),
    }
}
