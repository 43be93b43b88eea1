// Whether the attributes of a member or a parameter hold (C706, 4.2.18 to 4.2.20).
ghost use Rattle.std.specs.Prelude.{◌≡◌, ◌+◌, ◌<◌, ◌^◌, pos, true, [], ◌∷◌, Some};
ghost use Rattle.nd_value.specs.Tree as tree;
ghost use Rattle.nd_value.specs.Tree.{trees, count};
ghost use Rattle.nd_value.specs.Setting.{unread};
ghost use Rattle.nd_value.specs.Seen.{tree_of, cell_number};
ghost use Rattle.nd_value.specs.Agreement.{number_in, agreement, member_agreements, wanted_by, found_in, max_of, offset_of, actual, tag_of};
ghost use Rattle.nd_value.specs.Conforms.{disagreement, disagreement_of};
ghost use Rattle.nd_misfits.specs.Searched.{label_in, kids_in};
ghost use Rattle.nd_misfits.specs.Disagreeing.{subject_in, subject_of, difference, AreSmall, is_small, is_small_or_none};
ghost use Rattle.nd_misfits.specs.Numbers.{agreements_by, value_in, are_small_numbers, value_by};

use crate::numbers::{ParamNumber, found, number};
use nd_types::{Attr, AttrVar, AttrVars};
use nd_value::{CellId, Graph, MisfitReason, Val, Vals};

// The first attribute of a member that does not hold, the members of its struct being these.
pub(crate) fn member(graph: &Graph, vals: &Vals, vars: &AttrVars, val: &Val) -> Option<MisfitReason>
    requires small { AreSmall vals.now }
    ensures { result ≡ disagreement_of (subject_in graph.now (tree_of val.now)) (member_agreements (trees vals.now) vars.now) }
{
    for at in 0..vars.len() {
        let Some(var) = vars.get(at) else {
            unreachable!()
        };
        if let Some(reason) = attribute(graph, var.attr, number_in(vals, var.var), val) {
            return Some(reason);
        }
    }
    None
}

// The first attribute of a parameter that does not hold, by the numbers of the parameters.
pub(crate) fn parameter(
    graph: &Graph,
    numbers: &[ParamNumber],
    vars: &AttrVars,
    val: &Val,
) -> Option<MisfitReason>
    requires small { are_small_numbers numbers.now ≡ true }
    ensures { result ≡ disagreement_of (subject_in graph.now (tree_of val.now)) (agreements_by numbers.now vars.now) }
{
    for at in 0..vars.len() {
        let Some(var) = vars.get(at) else {
            unreachable!()
        };
        if let Some(reason) = attribute(graph, var.attr, value_in(numbers, var), val) {
            return Some(reason);
        }
    }
    None
}

// The number that a variable is, where it has one.
fn value_in(numbers: &[ParamNumber], var: &AttrVar) -> Option<i128>
    requires small { are_small_numbers numbers.now ≡ true }
    ensures value { result ≡ value_in numbers.now var.now }
    ensures small { is_small_or_none result ≡ true }
{
    if var.var as usize >= numbers.len() {
        return None;
    }
    value_by(numbers[var.var as usize], var.star)
}

// The number itself, or that of the referent.
fn value_by(number: ParamNumber, star: bool) -> Option<i128>
    ensures { result ≡ value_by number star }
{
    if star { number.referent } else { number.own }
}

// The number that the value at a place is, where it is one.
fn number_in(vals: &Vals, at: u32) -> Option<i128>
    ensures { result ≡ number_in (trees vals.now) at }
{
    match vals.get(at as usize) {
        Some(val) => number(val),
        None => None,
    }
}

// Whether an attribute fails whose variable is this number: one without a number fixes nothing.
fn attribute(graph: &Graph, attr: Attr, number: Option<i128>, val: &Val) -> Option<MisfitReason>
    requires small { is_small_or_none number ≡ true }
    ensures { result ≡ disagreement_of (subject_in graph.now (tree_of val.now)) (agreement attr number) }
{
    let wanted = wanted_by(attr, number?);
    match val {
        Val::Ptr(cell) => referent(graph, attr, wanted, *cell),
        _ => compared(attr, wanted, val),
    }
}

// The same of a pointer's referent: a null pointer has none.
fn referent(graph: &Graph, attr: Attr, wanted: i128, cell: Option<CellId>) -> Option<MisfitReason>
    ensures { result ≡ disagreement_of (subject_of graph.now (tree.Ptr (cell_number cell)) tree.none) (record { attr = attr; wanted = wanted } ∷ []) }
{
    match cell {
        Some(cell) => in_cell(graph, attr, wanted, cell),
        None => None,
    }
}

// The same of a cell.
fn in_cell(graph: &Graph, attr: Attr, wanted: i128, cell: CellId) -> Option<MisfitReason>
    ensures { result ≡ disagreement_of (subject_of graph.now (tree.Ptr (Some cell.0)) tree.none) (record { attr = attr; wanted = wanted } ∷ []) }
{
    match found(graph, cell) {
        Some(cell) => compared(attr, wanted, &cell.val),
        None => differs(wanted, found_nowhere(attr)),
    }
}

// The same of a subject.
fn compared(attr: Attr, wanted: i128, val: &Val) -> Option<MisfitReason>
    ensures { result ≡ disagreement (tree_of val.now) (record { attr = attr; wanted = wanted } ∷ []) }
{
    differs(wanted, found_in(attr, val))
}

// A number that is found against the one that is wanted.
fn differs(wanted: i128, found: i128) -> Option<MisfitReason>
    ensures { result ≡ difference wanted found }
{
    if wanted == found {
        return None;
    }
    Some(MisfitReason::Disagrees { wanted, found })
}

// What an attribute states, by the number that its variable is.
fn wanted_by(attr: Attr, number: i128) -> i128
    requires small { is_small number ≡ true }
    ensures { result ≡ wanted_by attr number }
{
    match attr {
        Attr::Max => number + 1,
        Attr::Size | Attr::First | Attr::Length | Attr::Last | Attr::Switch => number,
    }
}

// What is found in the subject of an attribute: of last_is the greatest index.
fn found_in(attr: Attr, val: &Val) -> i128
    ensures { result ≡ found_in attr (tree_of val.now) }
{
    match attr {
        Attr::Size | Attr::Max => i128::from(max_of(val)),
        Attr::First => i128::from(offset_of(val)),
        Attr::Length => actual(val),
        Attr::Last => i128::from(offset_of(val)) + actual(val) - 1,
        Attr::Switch => tag_of(val),
    }
}

// What is found in a cell that is not there.
fn found_nowhere(attr: Attr) -> i128
    ensures { result ≡ found_in attr unread }
{
    match attr {
        Attr::Last => -1,
        Attr::Size | Attr::Max | Attr::First | Attr::Length | Attr::Switch => 0,
    }
}

// The maximum count of an array or a text.
fn max_of(val: &Val) -> u32
    ensures { result ≡ max_of (label_in (tree_of val.now)) }
{
    match val {
        Val::Arr { max, .. } | Val::Text { max, .. } => *max,
        _ => 0,
    }
}

// The offset of an array.
fn offset_of(val: &Val) -> u32
    ensures { result ≡ offset_of (label_in (tree_of val.now)) }
{
    match val {
        Val::Arr { offset, .. } => *offset,
        _ => 0,
    }
}

// The tag of a union.
fn tag_of(val: &Val) -> i128
    ensures { result ≡ tag_of (label_in (tree_of val.now)) }
{
    match val {
        Val::Union { tag, .. } => *tag,
        _ => 0,
    }
}

// How many items an array has, or octets a text with its terminator.
fn actual(val: &Val) -> i128
    ensures exact { result ≡ pos (actual (label_in (tree_of val.now)) (kids_in (tree_of val.now))) }
    ensures few { actual (label_in (tree_of val.now)) (kids_in (tree_of val.now)) < 2 ^ 64 + 1 }
{
    match val {
        Val::Text { octets, .. } => octets.as_slice().len() as i128 + 1,
        Val::Rec(items) => count(items),
        Val::Arr { items, .. } => count(items),
        Val::Pipe(items) => count(items),
        Val::Union { arm, .. } => i128::from(arm.get().is_some()),
        Val::Num(_) | Val::Ptr(_) | Val::Context { .. } => 0,
    }
}

// How many values there are.
fn count(vals: &Vals) -> i128
    ensures exact { result ≡ pos (count (trees vals.now)) }
    ensures few { count (trees vals.now) < 2 ^ 64 }
{
    vals.len() as i128
}
