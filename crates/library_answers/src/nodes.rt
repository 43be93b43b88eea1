// Nodes of values.
ghost use Rattle.std.specs.Prelude.{◌≡◌, ◌≤◌, ◌<◌, ◌+◌, ◌++◌, ◌∷◌, [], suc, true, false, length, take, drop, map};
ghost use Rattle.std.specs.Prelude.{Some, None, IsSomeAnd};
ghost use Rattle.std.specs.List.{slice_get};
ghost use Rattle.library_nodes.specs.Contents.{numbers_of, octets_of};
ghost use Rattle.library_nodes.specs.Described.{described};
ghost use Rattle.library_nodes.specs.Listed.{IsListOf};
ghost use Rattle.library_nodes.specs.Parts.{IsAfter, has_part};
ghost use Rattle.library_answers.specs.Nodes.{nodes_in, low_octet};

use crate::answers::{ARGUMENT, EMPTY, MEMORY, OK, SHORT, fill, lay_out};
use library_handles::{Handle, Held};
use library_nodes::{Description, KeptNodes, Nodes};
use library_values::Values;
use std::alloc::Global;

/// Fills `nodes` with those of values. Takes memory for the list, where it has no room in that before the last one.
pub fn list_nodes(alloc: Global, values: &Values, nodes: &mut Handle) -> u32
    ensures known { result ≤ MEMORY }
    ensures not_empty { result ≡ EMPTY → ⊥ }
    ensures not_argument { result ≡ ARGUMENT → ⊥ }
    ensures listed { result ≡ OK → IsSomeAnd (nodes_in nodes.new.value) (IsListOf values.now.graph) }
    ensures kept { (result ≡ OK → ⊥) → nodes.new.value ≡ nodes.old.value }
{
    let Some(mut full) = nodes.take(alloc) else {
        return list_first(alloc, values, nodes);
    };
    let status = list_again(alloc, values, &mut *full);
    nodes.put(alloc, full);
    status
}

// Fills a handle that holds nothing with the nodes of values.
#[inline(never)]
fn list_first(alloc: Global, values: &Values, nodes: &mut Handle) -> u32
    ensures known { result ≤ MEMORY }
    ensures not_empty { result ≡ EMPTY → ⊥ }
    ensures not_argument { result ≡ ARGUMENT → ⊥ }
    ensures listed { result ≡ OK → IsSomeAnd (nodes_in nodes.new.value) (IsListOf values.now.graph) }
    ensures kept { (result ≡ OK → ⊥) → nodes.new.value ≡ nodes.old.value }
{
    match KeptNodes::of(alloc, values.fit().flat()) {
        Ok(made) => fill(alloc, nodes, Held::Nodes(made)),
        Err(_) => MEMORY,
    }
}

// Puts the nodes of values in the place of what is held: in its room, if it is nodes too.
fn list_again(alloc: Global, values: &Values, held: &mut Held) -> u32
    ensures known { result ≤ MEMORY }
    ensures not_empty { result ≡ EMPTY → ⊥ }
    ensures not_argument { result ≡ ARGUMENT → ⊥ }
    ensures listed { result ≡ OK → IsSomeAnd (nodes_in (Some held.new)) (IsListOf values.now.graph) }
    ensures kept { (result ≡ OK → ⊥) → held.new ≡ held.old }
{
    if let Held::Nodes(list) = held {
        return match list.list(values.fit().flat()) {
            Ok(()) => OK,
            Err(_) => MEMORY,
        };
    }
    match KeptNodes::of(alloc, values.fit().flat()) {
        Ok(made) => {
            *held = Held::Nodes(made);
            OK
        }
        Err(_) => MEMORY,
    }
}

/// Sets a number, if there is one. Takes no memory.
pub fn set_number(found: Option<usize>, number: &mut usize) -> u32
    ensures known { result ≤ ARGUMENT }
    ensures not_empty { result ≡ EMPTY → ⊥ }
    ensures found { result ≡ OK → found ≡ Some number.new }
    ensures argument { result ≡ ARGUMENT → found ≡ None }
    ensures number_kept { (result ≡ OK → ⊥) → number.new ≡ number.old }
{
    match found {
        Some(at) => {
            *number = at;
            OK
        }
        None => ARGUMENT,
    }
}

/// What a node says of itself. Takes no memory.
pub fn describe_at(list: &Nodes, node: usize, description: &mut Description) -> u32
    ensures known { result ≤ ARGUMENT }
    ensures not_empty { result ≡ EMPTY → ⊥ }
    ensures described { result ≡ OK → IsSomeAnd (slice_get list.now.list.nodes.items node) (λ x. description.new ≡ described x) }
    ensures argument { result ≡ ARGUMENT → slice_get list.now.list.nodes.items node ≡ None }
    ensures description_kept { (result ≡ OK → ⊥) → description.new ≡ description.old }
{
    match list.list.nodes.as_slice().get(node) {
        Some(found) => {
            *description = found.describe();
            OK
        }
        None => ARGUMENT,
    }
}

/// The node after one and all its parts. Takes no memory.
pub fn set_after(list: &Nodes, node: usize, after: &mut usize) -> u32
    ensures known { result ≤ ARGUMENT }
    ensures not_empty { result ≡ EMPTY → ⊥ }
    ensures found { result ≡ OK → IsAfter list.now.list.nodes.items node 1 after.new }
    ensures there { result ≡ OK → node < length list.now.list.nodes.items }
    ensures argument { result ≡ ARGUMENT → length list.now.list.nodes.items ≤ node }
    ensures after_kept { (result ≡ OK → ⊥) → after.new ≡ after.old }
{
    match list.after(node) {
        Some(at) => {
            *after = at;
            OK
        }
        None => ARGUMENT,
    }
}

/// A part of a node. Takes no memory.
pub fn set_part(list: &Nodes, node: usize, index: usize, part: &mut usize) -> u32
    ensures known { result ≤ ARGUMENT }
    ensures not_empty { result ≡ EMPTY → ⊥ }
    ensures found { result ≡ OK → IsAfter list.now.list.nodes.items (suc node) index part.new }
    ensures there { result ≡ OK → has_part (slice_get list.now.list.nodes.items node) index ≡ true }
    ensures argument { result ≡ ARGUMENT → has_part (slice_get list.now.list.nodes.items node) index ≡ false }
    ensures part_kept { (result ≡ OK → ⊥) → part.new ≡ part.old }
{
    match list.part(node, index) {
        Some(at) => {
            *part = at;
            OK
        }
        None => ARGUMENT,
    }
}

/// Copies the elements of an array or a pipe that are numbers. Takes no memory.
pub fn copy_numbers(list: &Nodes, node: usize, out: &mut [u64], count: &mut usize) -> u32
    ensures known { result ≤ SHORT }
    ensures not_empty { result ≡ EMPTY → ⊥ }
    ensures not_memory { result ≡ MEMORY → ⊥ }
    ensures copied { result ≡ OK → numbers_of list.now.list (slice_get list.now.list.nodes.items node) ≡ Some (take count.new out.new) }
    ensures rest { result ≡ OK → drop count.new out.new ≡ drop count.new out.old }
    ensures room { result ≡ OK → count.new ≤ length out.old }
    ensures short { result ≡ SHORT → IsSomeAnd (numbers_of list.now.list (slice_get list.now.list.nodes.items node))
        (λ zs. (count.new ≡ length zs) × (length out.old < count.new)) }
    ensures argument { result ≡ ARGUMENT → numbers_of list.now.list (slice_get list.now.list.nodes.items node) ≡ None }
    ensures kept { (result ≡ OK → ⊥) → out.new ≡ out.old }
    ensures count_kept { (result ≡ OK → ⊥) → (result ≡ SHORT → ⊥) → count.new ≡ count.old }
{
    match list.numbers_of(node) {
        Some(numbers) => lay_out_numbers(numbers, out, count),
        None => ARGUMENT,
    }
}

// Lays out numbers at the front of a buffer, if it has room for them, and says how many they are. The rest stays as it was.
#[tactic(auto, using(crate::proofs::Buffers::rest_kept))]
fn lay_out_numbers(numbers: &[u64], out: &mut [u64], count: &mut usize) -> u32
    ensures known { result ≤ SHORT }
    ensures not_empty { result ≡ EMPTY → ⊥ }
    ensures not_argument { result ≡ ARGUMENT → ⊥ }
    ensures not_memory { result ≡ MEMORY → ⊥ }
    ensures count { count.new ≡ length numbers.now }
    ensures done { result ≡ OK → take count.new out.new ≡ numbers.now }
    ensures rest { result ≡ OK → drop count.new out.new ≡ drop count.new out.old }
    ensures room { result ≡ OK → count.new ≤ length out.old }
    ensures short { result ≡ SHORT → length out.old < count.new }
    ensures count_kept { (result ≡ OK → ⊥) → (result ≡ SHORT → ⊥) → count.new ≡ count.old }
    ensures kept { (result ≡ OK → ⊥) → out.new ≡ out.old }
{
    *count = numbers.len();
    if numbers.len() > out.len() {
        return SHORT;
    }
    out[..numbers.len()].copy_from_slice(numbers);
    OK
}

/// Copies the octets of a string, or of the identifier of a context handle. Takes no memory.
pub fn copy_octets(list: &Nodes, node: usize, out: &mut [u8], len: &mut usize) -> u32
    ensures known { result ≤ SHORT }
    ensures not_empty { result ≡ EMPTY → ⊥ }
    ensures not_memory { result ≡ MEMORY → ⊥ }
    ensures copied { result ≡ OK → octets_of list.now.list (slice_get list.now.list.nodes.items node) ≡ Some (take len.new out.new) }
    ensures rest { result ≡ OK → drop len.new out.new ≡ drop len.new out.old }
    ensures room { result ≡ OK → len.new ≤ length out.old }
    ensures short { result ≡ SHORT → IsSomeAnd (octets_of list.now.list (slice_get list.now.list.nodes.items node))
        (λ os. (len.new ≡ length os) × (length out.old < len.new)) }
    ensures argument { result ≡ ARGUMENT → octets_of list.now.list (slice_get list.now.list.nodes.items node) ≡ None }
    ensures kept { (result ≡ OK → ⊥) → out.new ≡ out.old }
    ensures len_kept { (result ≡ OK → ⊥) → (result ≡ SHORT → ⊥) → len.new ≡ len.old }
{
    match list.octets_of(node) {
        Some(octets) => lay_out(octets, out, len),
        None => ARGUMENT,
    }
}

/// Copies the elements of an array or a pipe that are numbers, an octet each. Takes no memory.
pub fn copy_bytes(list: &Nodes, node: usize, out: &mut [u8], len: &mut usize) -> u32
    ensures known { result ≤ SHORT }
    ensures not_empty { result ≡ EMPTY → ⊥ }
    ensures not_memory { result ≡ MEMORY → ⊥ }
    ensures copied { result ≡ OK → IsSomeAnd (numbers_of list.now.list (slice_get list.now.list.nodes.items node))
        (λ zs. take len.new out.new ≡ map low_octet zs) }
    ensures rest { result ≡ OK → drop len.new out.new ≡ drop len.new out.old }
    ensures room { result ≡ OK → len.new ≤ length out.old }
    ensures short { result ≡ SHORT → IsSomeAnd (numbers_of list.now.list (slice_get list.now.list.nodes.items node))
        (λ zs. (len.new ≡ length zs) × (length out.old < len.new)) }
    ensures argument { result ≡ ARGUMENT → numbers_of list.now.list (slice_get list.now.list.nodes.items node) ≡ None }
    ensures kept { (result ≡ OK → ⊥) → out.new ≡ out.old }
    ensures len_kept { (result ≡ OK → ⊥) → (result ≡ SHORT → ⊥) → len.new ≡ len.old }
{
    match list.numbers_of(node) {
        Some(numbers) => lay_out_bytes(numbers, out, len),
        None => ARGUMENT,
    }
}

// Lays out numbers at the front of a buffer, an octet each, if it has room for them, and says how many they are. The rest stays as it was.
fn lay_out_bytes(numbers: &[u64], out: &mut [u8], len: &mut usize) -> u32
    ensures known { result ≤ SHORT }
    ensures not_empty { result ≡ EMPTY → ⊥ }
    ensures not_argument { result ≡ ARGUMENT → ⊥ }
    ensures not_memory { result ≡ MEMORY → ⊥ }
    ensures len { len.new ≡ length numbers.now }
    ensures done { result ≡ OK → take len.new out.new ≡ map low_octet numbers.now }
    ensures rest { result ≡ OK → drop len.new out.new ≡ drop len.new out.old }
    ensures room { result ≡ OK → len.new ≤ length out.old }
    ensures short { result ≡ SHORT → length out.old < len.new }
    ensures len_kept { (result ≡ OK → ⊥) → (result ≡ SHORT → ⊥) → len.new ≡ len.old }
    ensures kept { (result ≡ OK → ⊥) → out.new ≡ out.old }
{
    *len = numbers.len();
    if numbers.len() > out.len() {
        return SHORT;
    }
    for at in 0..numbers.len() {
        put_octet(out, at, numbers[at]);
    }
    OK
}

// Writes the low octet of a number at a place.
fn put_octet(out: &mut [u8], at: usize, number: u64)
    requires { at < length out.old }
    ensures front { take (at + 1) out.new ≡ take at out.old ++ low_octet number ∷ [] }
    ensures rest { drop (at + 1) out.new ≡ drop (at + 1) out.old }
    ensures wide { length out.new ≡ length out.old }
{
    out[at] = (number % 256) as u8;
}
