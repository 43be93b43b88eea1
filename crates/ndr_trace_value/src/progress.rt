// How far the items of a log are traced.
ghost use Rattle.std.specs.Prelude.{◌≡◌, ◌<◌, ◌≤◌, ◌+◌, ◌-◌, ◌^◌, ◌++◌, ℕ, List, ◌∷◌, drop, length, take, IfOk, IsErrOf, IsSome, None, OnOk, Option};
ghost use Rattle.std.specs.Prelude.{reverse};
ghost use Rattle.nd_value.specs.Tree.{Label};
ghost use Rattle.nd_grammar.specs.Entry.{Align, Entry, Kind};
ghost use Rattle.ndr_prim.specs.Context.{attributes_of, identifier_of};
ghost use Rattle.text_grammar.specs.Written.{quoted_text};
ghost use Rattle.text_printer.specs.Texts.{context_text};
ghost use Rattle.ndr_explain.specs.Cursors.{name_text, path_to};
ghost use Rattle.ndr_explain.specs.Explained.{value_shown};
ghost use Rattle.ndr_trace_value.specs.declared.progress.Halt.TheVariants as halts;
ghost use Rattle.ndr_trace_value.specs.LastMembers.{counted_path, level_variable, whole_types};
ghost use Rattle.ndr_trace_value.specs.Tracing.{Known, Holds, HoldsCount, HasLabel, IsCount, IsCounted, IsEnded, IsGround, IsInFront, IsItem};
ghost use Rattle.ndr_trace_value.specs.Tracing.{IsShown, IsSpot, IsTracing};
ghost use Rattle.ndr_trace_value.specs.Tracing.{either_from, either_path, entry_at, is_sought as is_sought_item};

use crate::counted::{append_counted, stated_path};
use crate::pointers::{PointerSpot, copy_spot};
use crate::search::Sought;
use nd_base::{Memory, Octets, Order};
use nd_flat::Fit;
use nd_types::{Interface, Side};
use nd_value::{Home, Item, ItemKind, ItemLog};
use ndr_explain::{HomeName, Level, append_gap, append_head, append_home, append_steps};
use ndr_prim::read_context;
use std::alloc::Global;
use text_printer::{append_context, append_number, append_quoted};

/// What is traced: octets as the values of a side of an operation, by the log of their items.
#[derive(Clone, Copy)]
pub struct Ground<'a> {
    pub alloc: Global,
    pub interface: &'a Interface,
    pub op: u32,
    pub side: Side,
    pub given: Option<&'a Fit>,
    pub order: Order,
    pub octets: &'a [u8],
    pub items: &'a ItemLog,
    /// The agreement that fails, if one does.
    pub sought: Option<Sought>,
}

/// How far the items are traced.
#[derive(Drop)]
pub struct Progress {
    /// How many items have a line.
    pub next: usize,
    /// The place after the last of these.
    pub at: u64,
    pub lines: Octets,
    /// The path of what is refused, once the walk has ended there. Where an agreement is sought, that of the value that disagrees, once its count or
    /// tag was passed.
    pub path: Octets,
    /// The path of the variable that states a count or a tag of a member of a struct, once that was passed and if it is sought.
    pub variable: Octets,
    /// Where the pointer is that names the home of what is sought, once that was passed and if it is the only one that names it.
    pub from: Option<PointerSpot>,
}

/// Why a walk over the items ends.
#[derive(Clone, Copy, Drop)]
pub enum Halt {
    /// An allocation failed.
    Memory,
    /// No item is left, and one is due.
    Here,
}

impl From<Memory> for Halt {
    ghost use Rattle.std.specs.Prelude.{◌≡◌};

    ghost from_gives = { λ _ h. h ≡ halts.Memory };

    fn from(_: Memory) -> Halt {
        Halt::Memory
    }
}

/// Where a node is: its home, and the levels from the home's value down to it.
#[derive(Clone, Copy)]
pub struct Spot<'s, 'a> {
    pub home: Home,
    pub name: HomeName<'a>,
    pub top: Level<'a>,
    pub below: &'s Vec<Level<'a>>,
    /// Where the pointer is that names the home, if it is the only one that names it.
    pub from: &'s Option<PointerSpot>,
}

/// Passes the gap before an aligned item, with a line if it is not empty, which shows its octets if they are not all zero.
pub fn gap(
    ground: &Ground<'_>,
    progress: &mut Progress,
    align: u64,
    spot: &Spot<'_, '_>,
) -> Result<(), Halt>
    requires { 0 < align }
    ensures goes { (k : Known) → IsGround k ground.now → (n : ℕ) (rest : List Entry)
        → IsTracing k progress.old (entry_at spot.now n (Align align) ∷ rest) → IfOk result (λ _. IsTracing k progress.new rest) }
    ensures ends { (k : Known) → IsGround k ground.now → (n : ℕ) → IsSpot k spot.now n
        → (rest : List Entry) → IsTracing k progress.old (entry_at spot.now n (Align align) ∷ rest)
        → IsErrOf result halts.Here → IsEnded k progress.new }
    ensures later { IfOk result (λ _. progress.old.next ≤ progress.new.next) }
{
    if progress.at % align == 0 {
        return Ok(());
    }
    if progress.next >= ground.items.len() {
        return Err(end(ground, progress, spot));
    }
    let Some(item) = ground.items.get(progress.next) else {
        unreachable!()
    };
    append_head(&mut progress.lines, item)?;
    append_gap(&mut progress.lines, ground.octets, item)?;
    progress.lines.append(b"\n")?;
    pass(progress, item);
    Ok(())
}

/// Takes the next item, with its line, and gives the number that it holds.
pub fn item(ground: &Ground<'_>, progress: &mut Progress, spot: &Spot<'_, '_>) -> Result<i128, Halt>
    ensures goes { (k : Known) → IsGround k ground.now → (n : ℕ) → IsSpot k spot.now n → (x : Kind) → IsItem x → HasLabel k spot.now.home n x
        → IsInFront k spot.now x → (rest : List Entry) → IsTracing k progress.old (entry_at spot.now n x ∷ rest)
        → IfOk result (λ z. IsTracing k progress.new rest × Holds k x z) }
    ensures ends { (k : Known) → IsGround k ground.now → (n : ℕ) → IsSpot k spot.now n → (x : Kind) → IsItem x
        → (rest : List Entry) → IsTracing k progress.old (entry_at spot.now n x ∷ rest)
        → IsErrOf result halts.Here → IsEnded k progress.new }
    ensures next { IfOk result (λ _. progress.new.next ≡ progress.old.next + 1) }
{
    if progress.next >= ground.items.len() {
        return Err(end(ground, progress, spot));
    }
    let Some(item) = ground.items.get(progress.next) else {
        unreachable!()
    };
    append_head(&mut progress.lines, item)?;
    progress.lines.append(b" ")?;
    append_path(&mut progress.lines, spot)?;
    progress.lines.append(b" ")?;
    append_held(ground, &mut progress.lines, item)?;
    progress.lines.append(b"\n")?;
    keep(ground, progress, spot, item.kind)?;
    pass(progress, item);
    Ok(item.value)
}

// Keeps the path of the value that has the count or tag which the next item is, and of the variable that states it, if it is the one that is sought.
fn keep(
    ground: &Ground<'_>,
    progress: &mut Progress,
    spot: &Spot<'_, '_>,
    kind: ItemKind,
) -> Result<(), Memory>
    ensures path { OnOk result (progress.new.path ≡ either_path (is_sought_item ground.now.sought progress.old.next)
        (counted_path ground.now.interface.now.types kind (whole_types spot.now.top)
        (path_to (progress.old.path ++ name_text spot.now.name) (spot.now.top ∷ reverse spot.now.below.now.items))) progress.old.path) }
    ensures variable { OnOk result (progress.new.variable ≡ either_path (is_sought_item ground.now.sought progress.old.next)
        (level_variable ground.now.interface.now.types kind spot.now.top
        (path_to (name_text spot.now.name) (spot.now.top ∷ reverse spot.now.below.now.items))
        (path_to (name_text spot.now.name) (reverse spot.now.below.now.items))) progress.old.variable) }
    ensures from { OnOk result (progress.new.from
        ≡ either_from (is_sought_item ground.now.sought progress.old.next) spot.now.from.now progress.old.from) }
    ensures lines { progress.new.lines ≡ progress.old.lines }
    ensures next { progress.new.next ≡ progress.old.next }
    ensures at { progress.new.at ≡ progress.old.at }
{
    if !is_sought(ground.sought, progress.next) {
        return Ok(());
    }
    append_path(&mut progress.path, spot)?;
    append_counted(&ground.interface.types, &mut progress.path, kind, spot.top)?;
    progress.variable = stated_path(ground.alloc, &ground.interface.types, kind, spot)?;
    progress.from = copy_spot(ground.alloc, spot.from)?;
    Ok(())
}

// Whether an item is the one that is sought.
fn is_sought(sought: Option<Sought>, item: usize) -> bool
    ensures { result ≡ is_sought_item sought item }
{
    match sought {
        Some(sought) => sought.item == item,
        None => false,
    }
}

/// Takes the next item as a count.
pub fn count(ground: &Ground<'_>, progress: &mut Progress, spot: &Spot<'_, '_>) -> Result<u32, Halt>
    ensures goes { (k : Known) → IsGround k ground.now → (n : ℕ) → IsSpot k spot.now n → (x : Kind) → IsCount x
        → IsInFront k spot.now x → (rest : List Entry) → IsTracing k progress.old (entry_at spot.now n x ∷ rest)
        → IfOk result (λ v. IsTracing k progress.new rest × HoldsCount k x v) }
    ensures ends { (k : Known) → IsGround k ground.now → (n : ℕ) → IsSpot k spot.now n → (x : Kind) → IsCount x
        → (rest : List Entry) → IsTracing k progress.old (entry_at spot.now n x ∷ rest)
        → IsErrOf result halts.Here → IsEnded k progress.new }
    ensures next { IfOk result (λ _. progress.new.next ≡ progress.old.next + 1) }
{
    let value = item(ground, progress, spot)?;
    Ok(as_count(value))
}

// A number as a count, if it is one.
fn as_count(value: i128) -> u32
    ensures { (v : ℕ) → IsCounted value v → result ≡ v }
{
    u32::try_from(value).unwrap_or(0)
}

// Adds what an item holds.
fn append_held(ground: &Ground<'_>, text: &mut Octets, item: &Item) -> Result<(), Memory>
    ensures { (l : Option Label) → IsShown ground.now item.now item.now.kind l
        → OnOk result (text.new ≡ text.old ++ value_shown item.now.kind l item.now.value) }
{
    match item.kind {
        ItemKind::Text => append_text(ground.octets, text, item),
        ItemKind::Context => append_handle(ground, text, item),
        _ => append_number(text, item.value),
    }
}

// Adds the octets of a text without their terminator.
fn append_text(octets: &[u8], text: &mut Octets, item: &Item) -> Result<(), Memory>
    ensures { 0 < item.now.len → item.now.at + item.now.len ≤ length octets.now
        → OnOk result (text.new ≡ text.old ++ quoted_text (take (item.now.len - 1) (drop item.now.at octets.now))) }
{
    let from = item.at as usize;
    let len = item.len as usize;
    if len == 0 || from + len > octets.len() {
        return Ok(());
    }
    append_quoted(text, &octets[from..from + len - 1])
}

// Adds a context handle.
fn append_handle(ground: &Ground<'_>, text: &mut Octets, item: &Item) -> Result<(), Memory>
    ensures { item.now.at + 20 ≤ length ground.now.octets.now
        → let os : List ℕ = take 20 (drop item.now.at ground.now.octets.now) in
        OnOk result (text.new ≡ text.old ++ context_text (attributes_of ground.now.order os) (identifier_of ground.now.order os)) }
{
    let from = item.at as usize;
    if from + 20 > ground.octets.len() {
        return Ok(());
    }
    let mut handle = [0u8; 20];
    handle.copy_from_slice(&ground.octets[from..from + 20]);
    let (attributes, id) = read_context(ground.order, &handle);
    append_context(text, attributes, &id)
}

// Goes on after an item.
fn pass(progress: &mut Progress, item: &Item)
    requires { progress.old.next < 2 ^ 64 - 1 }
    ensures next { progress.new.next ≡ progress.old.next + 1 }
    ensures at { progress.new.at ≡ item.now.at + item.now.len }
    ensures lines { progress.new.lines ≡ progress.old.lines }
    ensures path { progress.new.path ≡ progress.old.path }
    ensures variable { progress.new.variable ≡ progress.old.variable }
    ensures from { progress.new.from ≡ progress.old.from }
{
    progress.next += 1;
    progress.at = u64::from(item.at) + u64::from(item.len);
}

// Ends the walk at a node that is refused or lacks octets; where an agreement is sought, the path is kept already.
fn end(ground: &Ground<'_>, progress: &mut Progress, spot: &Spot<'_, '_>) -> Halt
    ensures lines { progress.new.lines ≡ progress.old.lines }
    ensures path { ground.now.sought ≡ None → result ≡ halts.Here
        → progress.new.path ≡ path_to (progress.old.path ++ name_text spot.now.name) (spot.now.top ∷ reverse spot.now.below.now.items) }
    ensures same { IsSome ground.now.sought → progress.new.path ≡ progress.old.path }
    ensures variable { progress.new.variable ≡ progress.old.variable }
    ensures from { progress.new.from ≡ progress.old.from }
{
    if ground.sought.is_some() {
        return Halt::Here;
    }
    let Ok(()) = append_path(&mut progress.path, spot) else {
        return Halt::Memory;
    };
    Halt::Here
}

/// Adds the path of a node.
pub fn append_path(text: &mut Octets, spot: &Spot<'_, '_>) -> Result<(), Memory>
    ensures { OnOk result (text.new ≡ path_to (text.old ++ name_text spot.now.name) (spot.now.top ∷ reverse spot.now.below.now.items)) }
{
    append_home(text, spot.name)?;
    append_steps(text, spot.top, spot.below)
}
