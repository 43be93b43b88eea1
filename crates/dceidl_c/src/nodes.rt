// Nodes of values.
ghost use Rattle.std.specs.Prelude.{◌≡◌, ◌≤◌, ◌<◌, ◌-◌, suc, true, false, length, take, drop, map};
ghost use Rattle.std.specs.Prelude.{Some, None, is_some, IsSomeAnd};
ghost use Rattle.std.specs.List.{slice_get};
ghost use Rattle.library_nodes.specs.Contents.{numbers_of, octets_of};
ghost use Rattle.library_nodes.specs.Described.{described};
ghost use Rattle.library_nodes.specs.Listed.{IsListOf, root_start, cell_start};
ghost use Rattle.library_nodes.specs.Parts.{IsAfter, has_part};
ghost use Rattle.library_answers.specs.Answers.{values_in};
ghost use Rattle.library_answers.specs.Nodes.{nodes_in, low_octet};

use library_answers::{
    ARGUMENT, EMPTY, MEMORY, OK, SHORT, copy_bytes, copy_numbers, copy_octets, describe_at, free,
    list_nodes, set_after, set_number, set_part,
};
use library_handles::{Handle, Held};
use library_nodes::Description;
use std::alloc::Global;

/// Fills `nodes` with those of values.
#[unsafe(no_mangle)]
pub extern "C" fn dceidl_nodes_of(alloc: Global, values: &mut Handle, nodes: &mut Handle) -> u32
    ensures known { result ≤ MEMORY }
    ensures not_argument { result ≡ ARGUMENT → ⊥ }
    ensures same { values.new.value ≡ values.old.value }
    ensures listed { result ≡ OK → IsSomeAnd (values_in values.old.value) (λ v. IsSomeAnd (nodes_in nodes.new.value) (IsListOf v.graph)) }
    ensures empty { result ≡ EMPTY → values_in values.old.value ≡ None }
    ensures memory { result ≡ MEMORY → is_some (values_in values.old.value) ≡ true }
    ensures kept { (result ≡ OK → ⊥) → nodes.new.value ≡ nodes.old.value }
{
    let Some(held) = values.take(alloc) else {
        return EMPTY;
    };
    let status = match &*held {
        Held::Values(held_values) => list_nodes(alloc, held_values, nodes),
        _ => EMPTY,
    };
    values.put(alloc, held);
    status
}

/// Lets go of nodes.
#[unsafe(no_mangle)]
pub extern "C" fn dceidl_nodes_free(alloc: Global, nodes: &mut Handle)
    ensures { nodes.new.value ≡ None }
{
    free(alloc, nodes);
}

/// How many roots and cells there are.
#[unsafe(no_mangle)]
pub extern "C" fn dceidl_home_counts(
    alloc: Global,
    nodes: &mut Handle,
    roots: &mut usize,
    cells: &mut usize,
) -> u32
    ensures known { result ≤ EMPTY }
    ensures same { nodes.new.value ≡ nodes.old.value }
    ensures counts { result ≡ OK → IsSomeAnd (nodes_in nodes.old.value)
        (λ n. (roots.new ≡ n.roots) × (cells.new ≡ length n.starts.items - n.roots)) }
    ensures empty { result ≡ EMPTY → nodes_in nodes.old.value ≡ None }
    ensures roots_kept { (result ≡ OK → ⊥) → roots.new ≡ roots.old }
    ensures cells_kept { (result ≡ OK → ⊥) → cells.new ≡ cells.old }
{
    let Some(held) = nodes.take(alloc) else {
        return EMPTY;
    };
    let status = match &*held {
        Held::Nodes(list) => {
            let held_nodes = list.nodes();
            *roots = held_nodes.roots;
            *cells = held_nodes
                .starts
                .as_slice()
                .len()
                .saturating_sub(held_nodes.roots);
            OK
        }
        _ => EMPTY,
    };
    nodes.put(alloc, held);
    status
}

/// The first node of a root.
#[unsafe(no_mangle)]
pub extern "C" fn dceidl_root_node(
    alloc: Global,
    nodes: &mut Handle,
    root: usize,
    node: &mut usize,
) -> u32
    ensures known { result ≤ ARGUMENT }
    ensures same { nodes.new.value ≡ nodes.old.value }
    ensures found { result ≡ OK → IsSomeAnd (nodes_in nodes.old.value) (λ n. root_start n root ≡ Some node.new) }
    ensures argument { result ≡ ARGUMENT → IsSomeAnd (nodes_in nodes.old.value) (λ n. root_start n root ≡ None) }
    ensures empty { result ≡ EMPTY → nodes_in nodes.old.value ≡ None }
    ensures node_kept { (result ≡ OK → ⊥) → node.new ≡ node.old }
{
    let Some(held) = nodes.take(alloc) else {
        return EMPTY;
    };
    let status = match &*held {
        Held::Nodes(list) => set_number(list.nodes().root(root), node),
        _ => EMPTY,
    };
    nodes.put(alloc, held);
    status
}

/// The first node of a cell.
#[unsafe(no_mangle)]
pub extern "C" fn dceidl_cell_node(
    alloc: Global,
    nodes: &mut Handle,
    cell: u32,
    node: &mut usize,
) -> u32
    ensures known { result ≤ ARGUMENT }
    ensures same { nodes.new.value ≡ nodes.old.value }
    ensures found { result ≡ OK → IsSomeAnd (nodes_in nodes.old.value) (λ n. cell_start n cell ≡ Some node.new) }
    ensures argument { result ≡ ARGUMENT → IsSomeAnd (nodes_in nodes.old.value) (λ n. cell_start n cell ≡ None) }
    ensures empty { result ≡ EMPTY → nodes_in nodes.old.value ≡ None }
    ensures node_kept { (result ≡ OK → ⊥) → node.new ≡ node.old }
{
    let Some(held) = nodes.take(alloc) else {
        return EMPTY;
    };
    let status = match &*held {
        Held::Nodes(list) => set_number(list.nodes().cell(cell), node),
        _ => EMPTY,
    };
    nodes.put(alloc, held);
    status
}

/// What a node says of itself.
#[unsafe(no_mangle)]
pub extern "C" fn dceidl_node_at(
    alloc: Global,
    nodes: &mut Handle,
    node: usize,
    description: &mut Description,
) -> u32
    ensures known { result ≤ ARGUMENT }
    ensures same { nodes.new.value ≡ nodes.old.value }
    ensures described { result ≡ OK → IsSomeAnd (nodes_in nodes.old.value)
        (λ n. IsSomeAnd (slice_get n.list.nodes.items node) (λ x. description.new ≡ described x)) }
    ensures argument { result ≡ ARGUMENT → IsSomeAnd (nodes_in nodes.old.value) (λ n. slice_get n.list.nodes.items node ≡ None) }
    ensures empty { result ≡ EMPTY → nodes_in nodes.old.value ≡ None }
    ensures description_kept { (result ≡ OK → ⊥) → description.new ≡ description.old }
{
    let Some(held) = nodes.take(alloc) else {
        return EMPTY;
    };
    let status = match &*held {
        Held::Nodes(list) => describe_at(list.nodes(), node, description),
        _ => EMPTY,
    };
    nodes.put(alloc, held);
    status
}

/// The node after one and all its parts.
#[unsafe(no_mangle)]
pub extern "C" fn dceidl_node_after(
    alloc: Global,
    nodes: &mut Handle,
    node: usize,
    after: &mut usize,
) -> u32
    ensures known { result ≤ ARGUMENT }
    ensures same { nodes.new.value ≡ nodes.old.value }
    ensures found { result ≡ OK → IsSomeAnd (nodes_in nodes.old.value) (λ n. IsAfter n.list.nodes.items node 1 after.new) }
    ensures there { result ≡ OK → IsSomeAnd (nodes_in nodes.old.value) (λ n. node < length n.list.nodes.items) }
    ensures argument { result ≡ ARGUMENT → IsSomeAnd (nodes_in nodes.old.value) (λ n. length n.list.nodes.items ≤ node) }
    ensures empty { result ≡ EMPTY → nodes_in nodes.old.value ≡ None }
    ensures after_kept { (result ≡ OK → ⊥) → after.new ≡ after.old }
{
    let Some(held) = nodes.take(alloc) else {
        return EMPTY;
    };
    let status = match &*held {
        Held::Nodes(list) => set_after(list.nodes(), node, after),
        _ => EMPTY,
    };
    nodes.put(alloc, held);
    status
}

/// A part of a node.
#[unsafe(no_mangle)]
pub extern "C" fn dceidl_node_part(
    alloc: Global,
    nodes: &mut Handle,
    node: usize,
    index: usize,
    part: &mut usize,
) -> u32
    ensures known { result ≤ ARGUMENT }
    ensures same { nodes.new.value ≡ nodes.old.value }
    ensures found { result ≡ OK → IsSomeAnd (nodes_in nodes.old.value) (λ n. IsAfter n.list.nodes.items (suc node) index part.new) }
    ensures there { result ≡ OK → IsSomeAnd (nodes_in nodes.old.value) (λ n. has_part (slice_get n.list.nodes.items node) index ≡ true) }
    ensures argument { result ≡ ARGUMENT → IsSomeAnd (nodes_in nodes.old.value)
        (λ n. has_part (slice_get n.list.nodes.items node) index ≡ false) }
    ensures empty { result ≡ EMPTY → nodes_in nodes.old.value ≡ None }
    ensures part_kept { (result ≡ OK → ⊥) → part.new ≡ part.old }
{
    let Some(held) = nodes.take(alloc) else {
        return EMPTY;
    };
    let status = match &*held {
        Held::Nodes(list) => set_part(list.nodes(), node, index, part),
        _ => EMPTY,
    };
    nodes.put(alloc, held);
    status
}

/// Copies the elements of an array or a pipe that are numbers.
#[unsafe(no_mangle)]
pub extern "C" fn dceidl_node_numbers(
    alloc: Global,
    nodes: &mut Handle,
    node: usize,
    out: &mut [u64],
    count: &mut usize,
) -> u32
    ensures known { result ≤ SHORT }
    ensures not_memory { result ≡ MEMORY → ⊥ }
    ensures same { nodes.new.value ≡ nodes.old.value }
    ensures copied { result ≡ OK → IsSomeAnd (nodes_in nodes.old.value)
        (λ n. numbers_of n.list (slice_get n.list.nodes.items node) ≡ Some (take count.new out.new)) }
    ensures rest { result ≡ OK → drop count.new out.new ≡ drop count.new out.old }
    ensures room { result ≡ OK → count.new ≤ length out.old }
    ensures short { result ≡ SHORT → IsSomeAnd (nodes_in nodes.old.value)
        (λ n. IsSomeAnd (numbers_of n.list (slice_get n.list.nodes.items node)) (λ zs. (count.new ≡ length zs) × (length out.old < count.new))) }
    ensures argument { result ≡ ARGUMENT → IsSomeAnd (nodes_in nodes.old.value)
        (λ n. numbers_of n.list (slice_get n.list.nodes.items node) ≡ None) }
    ensures empty { result ≡ EMPTY → nodes_in nodes.old.value ≡ None }
    ensures kept { (result ≡ OK → ⊥) → out.new ≡ out.old }
    ensures count_kept { (result ≡ OK → ⊥) → (result ≡ SHORT → ⊥) → count.new ≡ count.old }
{
    let Some(held) = nodes.take(alloc) else {
        return EMPTY;
    };
    let status = match &*held {
        Held::Nodes(list) => copy_numbers(list.nodes(), node, out, count),
        _ => EMPTY,
    };
    nodes.put(alloc, held);
    status
}

/// Copies the octets of a string, or of the identifier of a context handle.
#[unsafe(no_mangle)]
pub extern "C" fn dceidl_node_octets(
    alloc: Global,
    nodes: &mut Handle,
    node: usize,
    out: &mut [u8],
    len: &mut usize,
) -> u32
    ensures known { result ≤ SHORT }
    ensures not_memory { result ≡ MEMORY → ⊥ }
    ensures same { nodes.new.value ≡ nodes.old.value }
    ensures copied { result ≡ OK → IsSomeAnd (nodes_in nodes.old.value)
        (λ n. octets_of n.list (slice_get n.list.nodes.items node) ≡ Some (take len.new out.new)) }
    ensures rest { result ≡ OK → drop len.new out.new ≡ drop len.new out.old }
    ensures room { result ≡ OK → len.new ≤ length out.old }
    ensures short { result ≡ SHORT → IsSomeAnd (nodes_in nodes.old.value)
        (λ n. IsSomeAnd (octets_of n.list (slice_get n.list.nodes.items node)) (λ os. (len.new ≡ length os) × (length out.old < len.new))) }
    ensures argument { result ≡ ARGUMENT → IsSomeAnd (nodes_in nodes.old.value)
        (λ n. octets_of n.list (slice_get n.list.nodes.items node) ≡ None) }
    ensures empty { result ≡ EMPTY → nodes_in nodes.old.value ≡ None }
    ensures kept { (result ≡ OK → ⊥) → out.new ≡ out.old }
    ensures len_kept { (result ≡ OK → ⊥) → (result ≡ SHORT → ⊥) → len.new ≡ len.old }
{
    let Some(held) = nodes.take(alloc) else {
        return EMPTY;
    };
    let status = match &*held {
        Held::Nodes(list) => copy_octets(list.nodes(), node, out, len),
        _ => EMPTY,
    };
    nodes.put(alloc, held);
    status
}

/// Copies the elements of an array or a pipe that are numbers, an octet each.
#[unsafe(no_mangle)]
pub extern "C" fn dceidl_node_bytes(
    alloc: Global,
    nodes: &mut Handle,
    node: usize,
    out: &mut [u8],
    len: &mut usize,
) -> u32
    ensures known { result ≤ SHORT }
    ensures not_memory { result ≡ MEMORY → ⊥ }
    ensures same { nodes.new.value ≡ nodes.old.value }
    ensures copied { result ≡ OK → IsSomeAnd (nodes_in nodes.old.value)
        (λ n. IsSomeAnd (numbers_of n.list (slice_get n.list.nodes.items node)) (λ zs. take len.new out.new ≡ map low_octet zs)) }
    ensures rest { result ≡ OK → drop len.new out.new ≡ drop len.new out.old }
    ensures room { result ≡ OK → len.new ≤ length out.old }
    ensures short { result ≡ SHORT → IsSomeAnd (nodes_in nodes.old.value)
        (λ n. IsSomeAnd (numbers_of n.list (slice_get n.list.nodes.items node)) (λ zs. (len.new ≡ length zs) × (length out.old < len.new))) }
    ensures argument { result ≡ ARGUMENT → IsSomeAnd (nodes_in nodes.old.value)
        (λ n. numbers_of n.list (slice_get n.list.nodes.items node) ≡ None) }
    ensures empty { result ≡ EMPTY → nodes_in nodes.old.value ≡ None }
    ensures kept { (result ≡ OK → ⊥) → out.new ≡ out.old }
    ensures len_kept { (result ≡ OK → ⊥) → (result ≡ SHORT → ⊥) → len.new ≡ len.old }
{
    let Some(held) = nodes.take(alloc) else {
        return EMPTY;
    };
    let status = match &*held {
        Held::Nodes(list) => copy_bytes(list.nodes(), node, out, len),
        _ => EMPTY,
    };
    nodes.put(alloc, held);
    status
}
