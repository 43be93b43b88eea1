// Values are walked over, and their nodes listed.
ghost use Rattle.std.specs.Prelude.{◌≡◌, ◌∷◌, ◌++◌, [], length, map, option_to_list, IfOk, OnOk};
ghost use Rattle.std.specs.Prelude.{ℕ, ℤ, List};
ghost use Rattle.nd_value.specs.Tree as tree;
ghost use Rattle.nd_value.specs.Tree.{flat, more, none, Flat, Tree};
ghost use Rattle.nd_flat.specs.FlatForm.{flat_seen, text_of};
ghost use Rattle.nd_flat.specs.declared.node.Seen.TheVariants.{Num as SeenNum};
ghost use Rattle.library_types.specs.Low.{low};
ghost use Rattle.library_nodes.specs.Low.{low_flat};
ghost use Rattle.library_nodes.specs.Said.{node_flats};
ghost use Rattle.library_nodes.specs.Gathered.{IsGathered, IsThere, elements_of};
ghost use Rattle.library_nodes.specs.Laying.{Adds, AddsOpen, AddsHomes, one_more, more_numbers};
ghost use Rattle.library_nodes.specs.declared.nodes.NodeList.{NodeList as ListValue};

use crate::node::{Elements, Node};
use crate::nodes::NodeList;
use crate::rows::{add_row, next_row};
use library_types::low;
use nd_base::{Memory, Octets, push};
use nd_flat::{FlatGraph, PlainWalk, Seen, Walk};

// Adds the nodes of all roots.
pub(crate) fn lay_roots(
    list: &mut NodeList,
    starts: &mut Vec<usize>,
    graph: &FlatGraph,
) -> Result<(), Memory>
    ensures { OnOk result (AddsHomes graph.now.roots list.old starts.old.items list.new starts.new.items) }
{
    for at in 0..graph.root_count() {
        lay_home(list, starts, graph.root_plain_walk(at))?;
    }
    Ok(())
}

// Adds the nodes of all cells.
pub(crate) fn lay_cells(
    list: &mut NodeList,
    starts: &mut Vec<usize>,
    graph: &FlatGraph,
) -> Result<(), Memory>
    ensures { OnOk result (AddsHomes (map (λ c. c.val) graph.now.cells) list.old starts.old.items list.new starts.new.items) }
{
    for at in 0..graph.cell_count() {
        lay_home(list, starts, graph.cell_plain_walk(at))?;
    }
    Ok(())
}

// Adds the nodes of a home, and notes the number of the first.
#[inline(always)]
fn lay_home(list: &mut NodeList, starts: &mut Vec<usize>, walk: PlainWalk<'_>) -> Result<(), Memory>
    requires { (t : Tree) × (walk ≡ more t none) }
    ensures starts { OnOk result (starts.new.items ≡ starts.old.items ++ length list.old.nodes.items ∷ []) }
    ensures adds { OnOk result (Adds (flat walk.entry) list.old list.new) }
{
    push(starts, list.nodes.as_slice().len())?;
    lay_value(list, walk)
}

// Adds the nodes of a value. Most values are a number, a pointer or a string, which have no parts.
#[inline(always)]
fn lay_value(list: &mut NodeList, walk: PlainWalk<'_>) -> Result<(), Memory>
    requires { (t : Tree) × (walk ≡ more t none) }
    ensures { OnOk result (Adds (flat walk.entry) list.old list.new) }
{
    let mut rest = walk;
    if let Some(number) = rest.number() {
        return add_single(list, &Seen::Num(number));
    }
    if let Some(cell) = rest.pointer() {
        return add_single(list, &Seen::Ptr(cell));
    }
    if let Some((max, octets)) = rest.text() {
        return add_single(list, &Seen::Text { max, octets });
    }
    lay_parts(list, rest)
}

// Adds a node that is no element of an array or a pipe.
#[inline(always)]
fn add_single(list: &mut NodeList, seen: &Seen<'_>) -> Result<(), Memory>
    ensures { OnOk result (Adds (flat_seen seen.now ∷ []) list.old list.new) }
{
    let node = plain_node(&mut list.octets, seen)?;
    push(&mut list.nodes, node)?;
    Ok(())
}

// Adds the nodes of a walk.
#[inline(never)]
fn lay_parts(list: &mut NodeList, walk: PlainWalk<'_>) -> Result<(), Memory>
    ensures { OnOk result (Adds (flat walk.entry) list.old list.new) }
{
    let mut nodes = walk.walk();
    lay_all(list, None, &mut nodes)
}

// Adds the nodes of a walk to those that were added, after which an array or a pipe may be unfinished. Numbers that are kept side by side and are
// elements of an array or a pipe are added in one go.
fn lay_all(list: &mut NodeList, begun: Option<Node>, walk: &mut Walk<'_>) -> Result<(), Memory>
    ensures { OnOk result
        ((a : ListValue) (fs : List Flat) → AddsOpen fs a list.old begun → Adds (fs ++ flat walk.old) a list.new) }
{
    let mut unfinished = begun;
    while let Some(seen) = walk.step() {
        unfinished = add(list, unfinished, &seen)?;
        if let Some(row) = next_row(&unfinished, walk) {
            unfinished = add_row(list, unfinished, &row)?;
        }
    }
    close(list, unfinished)
}

// Adds a node, or a number to an unfinished array or pipe, whose elements come next and were numbers so far. Gives the one that is unfinished then,
// which is added to the list once its numbers are.
fn add(
    list: &mut NodeList,
    unfinished: Option<Node>,
    seen: &Seen<'_>,
) -> Result<Option<Node>, Memory>
    ensures { IfOk result (λ next. (a : ListValue) (fs : List Flat) → AddsOpen fs a list.old unfinished
        → AddsOpen (fs ++ flat_seen seen.now ∷ []) a list.new next) }
{
    match seen {
        Seen::Num(number) => add_number(list, unfinished, low(*number)),
        other => {
            close(list, unfinished)?;
            begin(list, other)
        }
    }
}

// Adds a number, as an element of the unfinished array or pipe, or else as a node.
fn add_number(
    list: &mut NodeList,
    unfinished: Option<Node>,
    number: u64,
) -> Result<Option<Node>, Memory>
    ensures { IfOk result (λ next. (a : ListValue) (fs : List Flat) (z : ℤ) → number ≡ low z → AddsOpen fs a list.old unfinished
        → AddsOpen (fs ++ (tree.Num z, 0) ∷ []) a list.new next) }
{
    match one_more(&unfinished) {
        Some(node) => {
            push(&mut list.numbers, number)?;
            Ok(Some(node))
        }
        None => {
            close(list, unfinished)?;
            push(&mut list.nodes, Node::Number(number))?;
            Ok(None)
        }
    }
}

// An array or a pipe with one number more, if it has as many elements.
fn one_more(unfinished: &Option<Node>) -> Option<Node>
    ensures { result ≡ one_more unfinished.now }
{
    match unfinished {
        Some(
            Node::Array {
                max,
                offset,
                elements,
            },
        ) => match more_numbers(elements) {
            Some(elements) => Some(Node::Array {
                max: *max,
                offset: *offset,
                elements,
            }),
            None => None,
        },
        Some(Node::Pipe(elements)) => match more_numbers(elements) {
            Some(elements) => Some(Node::Pipe(elements)),
            None => None,
        },
        _ => None,
    }
}

// Elements with one number more, if they are as many.
fn more_numbers(elements: &Elements) -> Option<Elements>
    ensures { result ≡ more_numbers elements.now }
{
    if elements.numbers < elements.count {
        Some(Elements {
            count: elements.count,
            numbers: elements.numbers + 1,
            from: elements.from,
        })
    } else {
        None
    }
}

// Adds the unfinished array or pipe.
fn close(list: &mut NodeList, unfinished: Option<Node>) -> Result<(), Memory>
    ensures nodes { OnOk result (list.new.nodes.items ≡ list.old.nodes.items ++ option_to_list unfinished) }
    ensures numbers { list.new.numbers.items ≡ list.old.numbers.items }
    ensures octets { list.new.octets ≡ list.old.octets }
{
    match unfinished {
        Some(node) => push(&mut list.nodes, node),
        None => Ok(()),
    }
}

// Adds a node that is no number; an array or a pipe is unfinished.
fn begin(list: &mut NodeList, seen: &Seen<'_>) -> Result<Option<Node>, Memory>
    requires { (z : ℤ) → seen.now ≡ SeenNum z → ⊥ }
    ensures { IfOk result (λ next. (a : ListValue) (fs : List Flat) → Adds fs a list.old
        → AddsOpen (fs ++ flat_seen seen.now ∷ []) a list.new next) }
{
    match seen {
        Seen::Arr { max, offset, count } => Ok(Some(Node::Array {
            max: *max,
            offset: *offset,
            elements: no_numbers(*count, list.numbers.as_slice()),
        })),
        Seen::Pipe(count) => Ok(Some(Node::Pipe(no_numbers(*count, list.numbers.as_slice())))),
        other => {
            let node = plain_node(&mut list.octets, other)?;
            push(&mut list.nodes, node)?;
            Ok(None)
        }
    }
}

// So many elements, none of which is a number yet: those would come after these numbers.
fn no_numbers(count: u32, numbers: &[u64]) -> Elements
    ensures { result ≡ record { count = count; numbers = 0; from = length numbers.now } }
{
    Elements {
        count,
        numbers: 0,
        from: numbers.len(),
    }
}

// So many elements, none of which is in the list of numbers.
fn unlisted(count: u32) -> Elements
    ensures count { result.count ≡ count }
    ensures numbers { result.numbers ≡ 0 }
    ensures from { result.from ≡ 0 }
{
    Elements {
        count,
        numbers: 0,
        from: 0,
    }
}

// A node. The octets of a string are added.
#[inline(always)]
fn plain_node(octets: &mut Octets, seen: &Seen<'_>) -> Result<Node, Memory>
    ensures octets { OnOk result (octets.new ≡ octets.old ++ text_of (flat_seen seen.now).0) }
    ensures node { IfOk result (λ n. (zs os : List ℕ) → node_flats zs (octets.new ++ os) n ≡ low_flat (flat_seen seen.now) ∷ []) }
    ensures gathered { IfOk result (λ n. IsGathered (elements_of n) []) }
    ensures there { IfOk result (λ n. (many : ℕ) → IsThere many (elements_of n)) }
{
    match seen {
        Seen::Num(number) => Ok(Node::Number(low(*number))),
        Seen::Rec(count) => Ok(Node::Struct(*count)),
        Seen::Arr { max, offset, count } => Ok(Node::Array {
            max: *max,
            offset: *offset,
            elements: unlisted(*count),
        }),
        Seen::Text { max, octets: text } => text_node(octets, *max, text),
        Seen::Union { tag, armed } => Ok(Node::Union {
            tag: low(*tag),
            armed: *armed,
        }),
        Seen::Ptr(cell) => Ok(Node::Pointer(*cell)),
        Seen::Context { attributes, id } => Ok(Node::Context {
            attributes: *attributes,
            id: *id,
        }),
        Seen::Pipe(count) => Ok(Node::Pipe(unlisted(*count))),
    }
}

// A string as a node. Its octets are added.
fn text_node(octets: &mut Octets, max: u32, text: &[u8]) -> Result<Node, Memory>
    ensures octets { OnOk result (octets.new ≡ octets.old ++ text.now) }
    ensures node { IfOk result (λ n. (zs os : List ℕ) → node_flats zs (octets.new ++ os) n ≡ (tree.Text max text.now, 0) ∷ []) }
    ensures gathered { IfOk result (λ n. IsGathered (elements_of n) []) }
    ensures there { IfOk result (λ n. (many : ℕ) → IsThere many (elements_of n)) }
{
    let from = octets.as_slice().len();
    octets.append(text)?;
    Ok(Node::Text {
        max,
        from,
        len: text.len(),
    })
}
