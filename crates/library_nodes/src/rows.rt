// Numbers that are kept side by side are listed in one go.
ghost use Rattle.std.specs.Prelude.{◌≡◌, ◌<◌, ◌≤◌, ◌+◌, ◌++◌, List, map, IfSome, IfNone, IfOk, OnOk};
ghost use Rattle.nd_value.specs.Tree.{Flat, flat};
ghost use Rattle.nd_flat.specs.FlatForm.{IsRow, num_flats, row_numbers};
ghost use Rattle.library_types.specs.Low.{low};
ghost use Rattle.library_nodes.specs.Laying.{AddsOpen, lacking, longer, with_more};
ghost use Rattle.library_nodes.specs.declared.nodes.NodeList.{NodeList as ListValue};

use crate::node::{Elements, Node};
use crate::nodes::NodeList;
use library_types::low;
use nd_base::{Memory, push};
use nd_flat::{Row, Walk};
use nd_types::Prim;
use ndr_prim::{read_num, width_of};

// The numbers that come next in a walk and are kept side by side, as far as they are elements of the unfinished array or pipe.
pub(crate) fn next_row<'a>(unfinished: &Option<Node>, walk: &mut Walk<'a>) -> Option<Row<'a>>
    ensures some { IfSome result (λ r. flat walk.old ≡ num_flats (row_numbers r) ++ flat walk.new) }
    ensures row { IfSome result IsRow }
    ensures count { IfSome result (λ r. (0 < r.count) × (r.count ≤ lacking unfinished.now)) }
    ensures none { IfNone result (walk.new ≡ walk.old) }
{
    walk.row(lacking(unfinished))
}

// How many elements of the unfinished array or pipe were not listed, if all that were are numbers.
fn lacking(unfinished: &Option<Node>) -> u32
    ensures { result ≡ lacking unfinished.now }
{
    match unfinished {
        Some(Node::Array { elements, .. } | Node::Pipe(elements)) => {
            elements.count.saturating_sub(elements.numbers)
        }
        _ => 0,
    }
}

// Adds numbers to the unfinished array or pipe, which has as many elements more.
pub(crate) fn add_row(
    list: &mut NodeList,
    unfinished: Option<Node>,
    row: &Row<'_>,
) -> Result<Option<Node>, Memory>
    requires whole { IsRow row.now }
    requires some { 0 < row.now.count }
    requires fits { row.now.count ≤ lacking unfinished }
    ensures { IfOk result (λ next. (a : ListValue) (fs : List Flat) → AddsOpen fs a list.old unfinished
        → AddsOpen (fs ++ num_flats (row_numbers row.now)) a list.new next) }
{
    push_row(&mut list.numbers, row)?;
    Ok(with_more(&unfinished, row.count))
}

// The unfinished array or pipe with so many numbers more.
fn with_more(unfinished: &Option<Node>, more: u32) -> Option<Node>
    requires some { 0 < more }
    requires fits { more ≤ lacking unfinished.now }
    ensures { result ≡ with_more more unfinished.now }
{
    match unfinished {
        Some(
            Node::Array {
                max,
                offset,
                elements,
            },
        ) => Some(Node::Array {
            max: *max,
            offset: *offset,
            elements: longer(elements, more),
        }),
        Some(Node::Pipe(elements)) => Some(Node::Pipe(longer(elements, more))),
        other => *other,
    }
}

// Elements with so many numbers more.
fn longer(elements: &Elements, more: u32) -> Elements
    requires { elements.now.numbers + more ≤ elements.now.count }
    ensures { result ≡ longer more elements.now }
{
    Elements {
        count: elements.count,
        numbers: elements.numbers + more,
        from: elements.from,
    }
}

// Adds the low 64 bits of the numbers of a row. The loops of the commonest primitives know how wide these are.
fn push_row(numbers: &mut Vec<u64>, row: &Row<'_>) -> Result<(), Memory>
    requires whole { IsRow row.now }
    ensures { OnOk result (numbers.new.items ≡ numbers.old.items ++ map low (row_numbers row.now)) }
{
    match row.of {
        Prim::Byte => push_all(numbers, Prim::Byte, row),
        Prim::Char => push_all(numbers, Prim::Char, row),
        Prim::Short => push_all(numbers, Prim::Short, row),
        Prim::Long => push_all(numbers, Prim::Long, row),
        Prim::Hyper => push_all(numbers, Prim::Hyper, row),
        other => push_all(numbers, other, row),
    }
}

// The same of a row of this primitive.
#[inline(always)]
fn push_all(numbers: &mut Vec<u64>, of: Prim, row: &Row<'_>) -> Result<(), Memory>
    requires whole { IsRow row.now }
    requires of { of ≡ row.now.of }
    ensures { OnOk result (numbers.new.items ≡ numbers.old.items ++ map low (row_numbers row.now)) }
{
    let wide = width_of(of);
    let mut from = 0;
    for _at in 0..row.count {
        let to = from + wide;
        let number = low(read_num(row.order, of, &row.octets[from..to]));
        push(numbers, number)?;
        from = to;
    }
    Ok(())
}
