// Items of octets.
ghost use Rattle.std.specs.Prelude.{◌≡◌, ◌≤◌, Some, None, true, false, is_some, IsSomeAnd};
ghost use Rattle.std.specs.List.{slice_get};
ghost use Rattle.nd_types.specs.declared.types.Side.TheVariants.{In, Out};
ghost use Rattle.library_answers.specs.Answers.{refusal_in, order_numbered, is_stream};
ghost use Rattle.library_answers.specs.Octets.{IsDecodeRefusal, IsResponseRefusal};
ghost use Rattle.library_answers.specs.Items.{items_in, IsItems, IsResponseItems, item_described, kind_numbered, is_in_cell, home_number};

use crate::answers::{ARGUMENT, EMPTY, MEMORY, OK, REFUSED, SHORT, fill, refuse};
use crate::numbers::{order_of, side_of};
use crate::reading::is_request;
use library_handles::{Handle, Held};
use library_interface::Compiled;
use library_types::low;
use library_values::{Values, items_of, items_of_response};
use nd_value::{Home, Item, ItemKind, ItemLog};
use std::alloc::Global;

/// Fills `items` with those of the values of a side of an operation that octets begin with (C706, chapter 14), or the fault. Takes memory for the
/// items.
#[tactic(auto, using(crate::proofs::Numbered::no_stream, crate::proofs::Logs::items_are, crate::proofs::Octets::decode_refused))]
pub fn log_items(
    alloc: Global,
    compiled: &Compiled,
    operation: u32,
    side: u32,
    order: u32,
    octets: &[u8],
    items: &mut Handle,
    fault: &mut Handle,
) -> u32
    ensures known { result ≤ REFUSED }
    ensures not_empty { result ≡ EMPTY → ⊥ }
    ensures not_short { result ≡ SHORT → ⊥ }
    ensures logged { result ≡ OK → IsSomeAnd (items_in items.new.value) (IsItems compiled.now operation side order octets.now) }
    ensures refused { result ≡ REFUSED → IsSomeAnd (refusal_in fault.new.value)
        (λ e. IsDecodeRefusal compiled.now operation side order octets.now e) }
    ensures argument { result ≡ ARGUMENT → is_stream compiled.now operation side order ≡ false }
    ensures range { (result ≡ ARGUMENT → ⊥) → is_stream compiled.now operation side order ≡ true }
    ensures items_kept { (result ≡ OK → ⊥) → items.new.value ≡ items.old.value }
    ensures fault_kept { (result ≡ REFUSED → ⊥) → fault.new.value ≡ fault.old.value }
{
    let Some(side) = side_of(side) else {
        return ARGUMENT;
    };
    let Some(order) = order_of(order) else {
        return ARGUMENT;
    };
    if operation as usize >= compiled.interface().operations.len() {
        return ARGUMENT;
    }
    match items_of(alloc, compiled, operation, side, order, octets) {
        Ok(made) => fill_items(alloc, made, items),
        Err(refusal) => refuse(alloc, fault, refusal),
    }
}

// Fills a handle with items.
fn fill_items(alloc: Global, made: ItemLog, items: &mut Handle) -> u32
    ensures known { result ≤ MEMORY }
    ensures not_empty { result ≡ EMPTY → ⊥ }
    ensures not_argument { result ≡ ARGUMENT → ⊥ }
    ensures not_short { result ≡ SHORT → ⊥ }
    ensures not_refused { result ≡ REFUSED → ⊥ }
    ensures filled { result ≡ OK → items_in items.new.value ≡ Some made.items }
    ensures kept { (result ≡ OK → ⊥) → items.new.value ≡ items.old.value }
{
    fill(alloc, items, Held::Items(made))
}

/// The same with the response to a request.
#[tactic(auto, using(crate::proofs::Numbered::order_is, crate::proofs::Logs::response_items_are, crate::proofs::Octets::response_refused))]
pub fn log_response(
    alloc: Global,
    given: &Values,
    order: u32,
    octets: &[u8],
    items: &mut Handle,
    fault: &mut Handle,
) -> u32
    ensures known { result ≤ REFUSED }
    ensures not_empty { result ≡ EMPTY → ⊥ }
    ensures not_short { result ≡ SHORT → ⊥ }
    ensures logged { result ≡ OK → IsSomeAnd (items_in items.new.value) (IsResponseItems given.now order octets.now) }
    ensures refused { result ≡ REFUSED → IsSomeAnd (refusal_in fault.new.value) (λ e. IsResponseRefusal given.now order octets.now e) }
    ensures argument { result ≡ ARGUMENT → is_some (order_numbered order) ≡ true → given.now.side ≡ Out }
    ensures order { (result ≡ ARGUMENT → ⊥) → is_some (order_numbered order) ≡ true }
    ensures request { (result ≡ ARGUMENT → ⊥) → given.now.side ≡ In }
    ensures items_kept { (result ≡ OK → ⊥) → items.new.value ≡ items.old.value }
    ensures fault_kept { (result ≡ REFUSED → ⊥) → fault.new.value ≡ fault.old.value }
{
    let Some(order) = order_of(order) else {
        return ARGUMENT;
    };
    if !is_request(given) {
        return ARGUMENT;
    }
    match items_of_response(alloc, given, order, octets) {
        Ok(made) => fill_items(alloc, made, items),
        Err(refusal) => refuse(alloc, fault, refusal),
    }
}

/// An item, as programs in C see it.
#[repr(C)]
#[derive(Clone, Copy)]
pub struct ItemDescription {
    /// The number of its first octet.
    pub at: u32,
    /// How many octets it has.
    pub length: u32,
    /// The number of its kind, from 1, in the order of `ItemKind`.
    pub kind: u32,
    /// 1 where it belongs to a cell, 0 where it belongs to a root.
    pub in_cell: u32,
    /// The number of the cell, from 1, or of the root, from 0.
    pub home: u32,
    /// The number of its node in that home, from 0.
    pub node: u32,
    /// The low 64 bits of the number that its octets hold.
    pub number: u64,
}

/// An item of a log, by its place. Takes no memory.
pub fn describe_item(log: &ItemLog, index: usize, item: &mut ItemDescription) -> u32
    ensures known { result ≤ ARGUMENT }
    ensures not_empty { result ≡ EMPTY → ⊥ }
    ensures described { result ≡ OK → IsSomeAnd (slice_get log.now.items index) (λ x. item.new ≡ item_described x) }
    ensures argument { result ≡ ARGUMENT → slice_get log.now.items index ≡ None }
    ensures item_kept { (result ≡ OK → ⊥) → item.new ≡ item.old }
{
    match log.get(index) {
        Some(found) => {
            *item = description_of(found);
            OK
        }
        None => ARGUMENT,
    }
}

// An item, as programs in C see it.
fn description_of(item: &Item) -> ItemDescription
    ensures { result ≡ item_described item.now }
{
    let (in_cell, home) = home_of(item.home);
    ItemDescription {
        at: item.at,
        length: item.len,
        kind: kind_number(item.kind),
        in_cell,
        home,
        node: item.node,
        number: low(item.value),
    }
}

// Whether a home is a cell, and its number.
fn home_of(home: Home) -> (u32, u32)
    ensures in_cell { result.0 ≡ is_in_cell home }
    ensures home { result.1 ≡ home_number home }
{
    match home {
        Home::Root(root) => (0, root),
        Home::Cell(cell) => (1, cell.0),
    }
}

// The number of a kind.
fn kind_number(kind: ItemKind) -> u32
    ensures { result ≡ kind_numbered kind }
{
    match kind {
        ItemKind::Gap => 1,
        ItemKind::Max => 2,
        ItemKind::Offset => 3,
        ItemKind::Actual => 4,
        ItemKind::Number => 5,
        ItemKind::Tag => 6,
        ItemKind::Num => 7,
        ItemKind::Text => 8,
        ItemKind::Context => 9,
        ItemKind::Chunk => 10,
    }
}
