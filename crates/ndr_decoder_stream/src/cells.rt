// What is kept of cells, in little room.
ghost use Rattle.std.specs.Prelude.{◌≡◌, ◌<◌, ◌+◌, ◌++◌, ◌∷◌, ◌^◌, ℕ, [], length, slice_get, slice_set, Some, None, true};
ghost use Rattle.std.specs.Prelude.{OnOk, OnErr, IfOk, IfSome, vec_capacity, vec_len};
ghost use Rattle.smallvec.specs.SmallVec.{HasRoomFor};
ghost use Rattle.ndr_decoder_laws.specs.stream.Between.{CellKept, kept_at, or_none};
ghost use Rattle.ndr_decoder_stream.specs.declared.cells.CellEntry.TheVariants as entry;
ghost use Rattle.ndr_decoder_stream.specs.declared.cells.Lists.{Lists};
ghost use Rattle.ndr_decoder_stream.specs.Entries.{HasGrown, HasMore, IsListed, IsPut, IsSound, counts_kept, entry_seen, plain, said_at};

use nd_base::{Memory, push};
use nd_value::CellId;
use ndr_decoder_laws::{First, Kept};
use smallvec::SmallVec;
use std::alloc::Global;
use std::marker::Model;

// What is kept of a cell, in short.
#[derive(Clone, Copy, Drop)]
pub enum CellEntry {
    // It was not read.
    Unread,
    // No agreement speaks of its first node, and no maximum count is before it.
    Plain,
    // It has this number in the list of counts.
    Counted(u32),
    // It has this number in the list of all others.
    Listed(u32),
}

impl Default for CellEntry {
    fn default() -> CellEntry {
        CellEntry::Unread
    }
}

/// What is kept of a string, or of an array, whose counts are side by side: they, and the place of its actual count. The maximum count is before its
/// value, eight octets before that place.
#[derive(Clone, Copy, Drop)]
pub struct Counts {
    pub max: u32,
    pub offset: u32,
    pub actual: u32,
    pub place: u32,
}

impl Default for Counts {
    fn default() -> Counts {
        Counts {
            max: 0,
            offset: 0,
            actual: 0,
            place: 0,
        }
    }
}

// What is kept of the cells that are not plain.
#[derive(Drop)]
pub struct Lists {
    pub counted: SmallVec<Counts, 2>,
    pub listed: Vec<Kept>,
}

/// What is kept of the cells that were read. Contracts see a list of it, by their numbers less one. A cell takes eight octets, one that an agreement
/// may speak of an item of a list more, of which counts side by side take sixteen octets; but for the first four cells, and the first two of those
/// counts, it takes no memory.
#[derive(Drop)]
pub struct KeptCells {
    entries: SmallVec<CellEntry, 4>,
    lists: Lists,
}

impl Model for KeptCells {
    ghost use Rattle.std.specs.Prelude.{map};
    ghost use Rattle.ndr_decoder_stream.specs.Cells.{CellsSeen};

    ghost Value = { CellsSeen };

    ghost use Rattle.ndr_decoder_stream.specs.Entries.{IsSound, entry_seen};

    ghost view = { λ c. record { items = map (entry_seen c.lists) c.entries.items } };

    ghost invariant = { λ c. IsSound c.lists c.entries.items };
}

impl KeptCells {
    /// Nothing is kept of any cell. It allocates nothing.
    pub fn new(alloc: Global) -> KeptCells
        ensures { result.items ≡ [] }
    {
        KeptCells {
            entries: SmallVec::new(alloc),
            lists: Lists {
                counted: SmallVec::new(alloc),
                listed: Vec::new(alloc),
            },
        }
    }

    /// What is kept of the cell at a place; none if it was not read. Takes no memory.
    #[inline(always)]
    pub fn get(&self, at: usize) -> Option<Kept>
        ensures { result ≡ or_none (slice_get self.now.items at) }
    {
        match self.entries.as_slice().get(at) {
            Some(entry) => found(&self.lists, *entry),
            None => None,
        }
    }

    /// Whether there is no room for one cell more, so that the list is moved when it grows. Takes no memory.
    #[inline(always)]
    pub fn is_full(&self) -> bool {
        self.entries.len() == self.entries.capacity()
    }

    /// How many cells the list goes through, read or not. Takes no memory.
    pub fn len(&self) -> usize {
        self.entries.len()
    }

    /// Makes room for so many cells more, where memory has it. It is no promise: what is kept later may find no memory.
    pub fn make_room(&mut self, cells: usize)
        ensures { self.new ≡ self.old }
    {
        let _entries = self.entries.reserve_exact(cells);
    }

    /// Keeps what is needed of a cell that was read now. It takes memory, and out of memory is the only refusal.
    pub fn keep(&mut self, cell: CellId, kept: Kept) -> Result<(), Memory>
        requires there { 0 < cell.0 }
        requires unread { kept_at self.old.items cell.0 ≡ None }
        ensures kept { OnOk result (CellKept cell.0 kept self.old.items self.new.items) }
    {
        let at = cell.0 as usize - 1;
        reach(&mut self.entries, at)?;
        let entry = entry_of(&mut self.lists, kept)?;
        put(&mut self.entries, at, entry);
        Ok(())
    }

    /// Keeps of a cell that was read that no agreement can speak of its first node, and that no maximum count is before it, as `keep` does.
    #[inline(always)]
    pub fn keep_plain(&mut self, cell: CellId) -> Result<(), Memory>
        requires there { 0 < cell.0 }
        ensures kept { OnOk result (CellKept cell.0 plain self.old.items self.new.items) }
    {
        put_plain(&mut self.entries, cell.0 as usize - 1)?;
        Ok(())
    }

    /// Keeps of a cell that was read now the counts of its first node, as `keep` does.
    #[inline(always)]
    pub fn keep_counts(&mut self, cell: CellId, counts: Counts) -> Result<(), Memory>
        requires there { 0 < cell.0 }
        requires unread { kept_at self.old.items cell.0 ≡ None }
        ensures kept { OnOk result (CellKept cell.0 (counts_kept counts) self.old.items self.new.items) }
    {
        let at = cell.0 as usize - 1;
        reach(&mut self.entries, at)?;
        let entry = count(&mut self.lists, counts)?;
        put(&mut self.entries, at, entry);
        Ok(())
    }
}

// What an entry says.
fn found(lists: &Lists, entry: CellEntry) -> Option<Kept>
    ensures { result ≡ entry_seen lists.now entry }
{
    match entry {
        CellEntry::Unread => None,
        CellEntry::Plain => Some(PLAIN),
        CellEntry::Counted(number) => match lists.counted.as_slice().get(number as usize) {
            Some(counts) => Some(kept_counts(*counts)),
            None => None,
        },
        CellEntry::Listed(number) => match lists.listed.as_slice().get(number as usize) {
            Some(kept) => Some(*kept),
            None => None,
        },
    }
}

// What counts say.
fn kept_counts(counts: Counts) -> Kept
    ensures { result ≡ counts_kept counts }
{
    Kept {
        first: First::Counted {
            max: counts.max,
            offset: counts.offset,
            actual: counts.actual,
            place: Some(counts.place),
        },
        max_at: Some(counts.place.saturating_sub(8)),
    }
}

// The entry of a cell of which this is kept; it is listed, unless it is plain.
fn entry_of(lists: &mut Lists, kept: Kept) -> Result<CellEntry, Memory>
    requires few_counted { length lists.old.counted.items < 2 ^ 32 }
    requires few_listed { length lists.old.listed.items < 2 ^ 32 }
    ensures grown { HasGrown lists.old lists.new }
    ensures seen { IfOk result (λ e. entry_seen lists.new e ≡ Some kept) }
    ensures within { IfOk result (λ e. IsListed lists.new e) }
    ensures more { OnOk result (HasMore 1 lists.old lists.new) }
    ensures no_more { OnErr result (HasMore 0 lists.old lists.new) }
{
    if is_plain(kept) {
        return Ok(CellEntry::Plain);
    }
    match counts_of(kept.first, kept.max_at) {
        Some(counts) => count(lists, counts),
        None => list(lists, kept),
    }
}

// Whether no agreement speaks of the first node of a home, and no maximum count is before it.
#[inline(always)]
fn is_plain(kept: Kept) -> bool
    ensures { result ≡ true → kept ≡ plain }
{
    match kept.first {
        First::Other => kept.max_at.is_none(),
        First::Number(_)
        | First::Pointer
        | First::Counted {
            max: _,
            offset: _,
            actual: _,
            place: _,
        }
        | First::Tag { tag: _, place: _ } => false,
    }
}

/// The counts of a home with this first node and the maximum count at this place before it, if they are side by side.
#[inline(always)]
pub(crate) fn counts_of(first: First, max_at: Option<u32>) -> Option<Counts>
    ensures { IfSome result (λ n. ((counts_kept n).first ≡ first) × ((counts_kept n).max_at ≡ max_at)) }
{
    let First::Counted {
        max,
        offset,
        actual,
        place: Some(place),
    } = first
    else {
        return None;
    };
    let Some(max_at) = max_at else {
        return None;
    };
    if max_at != place.saturating_sub(8) {
        return None;
    }
    Some(Counts {
        max,
        offset,
        actual,
        place,
    })
}

// Lists the counts of a cell. Out of memory is answered only where the list had no room left.
#[inline(always)]
fn count(lists: &mut Lists, counts: Counts) -> Result<CellEntry, Memory>
    requires few { length lists.old.counted.items < 2 ^ 32 }
    ensures grown { HasGrown lists.old lists.new }
    ensures seen { IfOk result (λ e. entry_seen lists.new e ≡ Some (counts_kept counts)) }
    ensures within { IfOk result (λ e. IsListed lists.new e) }
    ensures more { OnOk result (HasMore 1 lists.old lists.new) }
    ensures no_more { OnErr result (HasMore 0 lists.old lists.new) }
    ensures full { OnErr result (HasRoomFor lists.old.counted 1 → ⊥) }
{
    let number = lists.counted.as_slice().len();
    let Ok(()) = lists.counted.push(counts) else {
        return Err(Memory);
    };
    Ok(CellEntry::Counted(number as u32))
}

// Lists what is kept of a cell, in the same way.
fn list(lists: &mut Lists, kept: Kept) -> Result<CellEntry, Memory>
    requires few { length lists.old.listed.items < 2 ^ 32 }
    ensures grown { HasGrown lists.old lists.new }
    ensures seen { IfOk result (λ e. entry_seen lists.new e ≡ Some kept) }
    ensures within { IfOk result (λ e. IsListed lists.new e) }
    ensures more { OnOk result (HasMore 1 lists.old lists.new) }
    ensures no_more { OnErr result (HasMore 0 lists.old lists.new) }
    ensures full { OnErr result (vec_len lists.old.listed ≡ vec_capacity lists.old.listed) }
{
    let number = lists.listed.as_slice().len();
    let Ok(()) = push(&mut lists.listed, kept) else {
        return Err(Memory);
    };
    Ok(CellEntry::Listed(number as u32))
}

// Makes the entry of the cell at a place a plain one. Most cells are read in the order of their numbers, so that it is the next one.
#[inline(always)]
fn put_plain(entries: &mut SmallVec<CellEntry, 4>, at: usize) -> Result<(), Memory>
    requires small { at + 1 < 2 ^ 32 }
    ensures put { OnOk result (IsPut at entry.Plain entries.old.items entries.new.items) }
    ensures sound { (l : Lists) → IsSound l entries.old.items → IsSound l entries.new.items }
{
    if at == entries.as_slice().len() {
        add(entries, CellEntry::Plain)?;
        return Ok(());
    }
    put_plain_apart(entries, at)
}

// The same where the cell is not the next one.
#[inline(never)]
fn put_plain_apart(entries: &mut SmallVec<CellEntry, 4>, at: usize) -> Result<(), Memory>
    requires small { at + 1 < 2 ^ 32 }
    ensures put { OnOk result (IsPut at entry.Plain entries.old.items entries.new.items) }
    ensures sound { (l : Lists) → IsSound l entries.old.items → IsSound l entries.new.items }
{
    reach(entries, at)?;
    put(entries, at, CellEntry::Plain);
    Ok(())
}

// Makes the entry at a place this one.
#[inline(always)]
fn put(entries: &mut SmallVec<CellEntry, 4>, at: usize, entry: CellEntry)
    requires within { at < length entries.old.items }
    ensures is { entries.new.items ≡ slice_set entries.old.items at entry }
{
    if let Some(place) = entries.get_mut(at) {
        *place = entry;
    }
}

// Adds an entry. Out of memory is answered only where the list had no room left, and changes nothing.
#[inline(always)]
fn add(list: &mut SmallVec<CellEntry, 4>, entry: CellEntry) -> Result<(), Memory>
    ensures ok { OnOk result (list.new.items ≡ list.old.items ++ entry ∷ []) }
    ensures err { OnErr result (list.new.items ≡ list.old.items) }
    ensures full { OnErr result (HasRoomFor list.old 1 → ⊥) }
{
    let Ok(()) = list.push(entry) else {
        return Err(Memory);
    };
    Ok(())
}

// Makes room for what is kept of the cell at a place; of those that are not read nothing is kept.
#[inline(always)]
fn reach(entries: &mut SmallVec<CellEntry, 4>, at: usize) -> Result<(), Memory>
    requires small { at + 1 < 2 ^ 32 }
    ensures long { OnOk result (at < length entries.new.items) }
    ensures same { (l : Lists) (i : ℕ) → said_at l entries.new.items i ≡ said_at l entries.old.items i }
    ensures sound { (l : Lists) → IsSound l entries.old.items → IsSound l entries.new.items }
{
    for _next in entries.as_slice().len()..at + 1 {
        let Ok(()) = add(entries, CellEntry::Unread) else {
            return Err(Memory);
        };
    }
    Ok(())
}

// What is kept of most cells.
const PLAIN: Kept = Kept {
    first: First::Other,
    max_at: None,
};
