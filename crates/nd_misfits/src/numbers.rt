// The numbers of parameters, which their attributes' variables name (C706, 4.2.18).
ghost use Rattle.std.specs.Prelude.{◌≡◌, ℕ, ◌<◌, true, false, length, map, slice_index_or, IfOk, IfSome, IfNone, Some, None};
ghost use Rattle.nd_value.specs.Tree as tree;
ghost use Rattle.nd_value.specs.Seen.{tree_of, cell_of};
ghost use Rattle.nd_value.specs.Setting.{cell_of_number};
ghost use Rattle.nd_value.specs.Agreement.{number_of, starred};
ghost use Rattle.nd_misfits.specs.HomeList.{home_tree};
ghost use Rattle.nd_misfits.specs.Numbers.{number_at, no_number, is_param, number_among, home_number, replaced};

use crate::homes::HomeValue;
use nd_base::Memory;
use nd_value::{Cell, CellId, Graph, Val};
use std::alloc::Global;

/// What a value is as a variable: the number that it is, and the number that its referent is. None where it is no number, or no
/// pointer to one.
#[derive(Clone, Copy, Debug, PartialEq, Eq)]
pub struct ParamNumber {
    pub own: Option<i128>,
    pub referent: Option<i128>,
}

/// The same of a root, with the parameter that it is: the result is none.
#[derive(Clone, Copy, Debug, PartialEq, Eq)]
pub struct RootNumber {
    pub param: Option<u32>,
    pub number: ParamNumber,
}

// The numbers of parameters by their places: of those that are among `own` their own, of others that are among `given` these.
pub(crate) fn numbers(
    alloc: Global,
    count: usize,
    given: &[RootNumber],
    own: &[RootNumber],
) -> Result<Vec<ParamNumber>, Memory>
    ensures length { IfOk result (λ numbers. length numbers.items ≡ count) }
    ensures numbers { IfOk result (λ numbers. (j : ℕ) → j < count
        → slice_index_or numbers.items j no_number ≡ number_among own.now j (number_among given.now j no_number)) }
{
    let mut numbers = vec![in alloc; NO_NUMBER; count]?;
    place_all(given, &mut numbers);
    place_all(own, &mut numbers);
    Ok(numbers)
}

const NO_NUMBER: ParamNumber = ParamNumber {
    own: None,
    referent: None,
};

// Puts the numbers of roots to the places of the parameters that they are. Of two roots that are one parameter the first counts.
fn place_all(roots: &[RootNumber], numbers: &mut Vec<ParamNumber>)
    ensures length { length numbers.new.items ≡ length numbers.old.items }
    ensures placed { (j : ℕ) → j < length numbers.old.items
        → slice_index_or numbers.new.items j no_number ≡ number_among roots.now j (slice_index_or numbers.old.items j no_number) }
{
    for at in (0..roots.len()).rev() {
        place(roots[at], numbers);
    }
}

// Puts the number of one root to its place.
fn place(root: RootNumber, numbers: &mut Vec<ParamNumber>)
    ensures length { length numbers.new.items ≡ length numbers.old.items }
    ensures placed { (j : ℕ) → j < length numbers.old.items
        → slice_index_or numbers.new.items j no_number ≡ replaced root j (slice_index_or numbers.old.items j no_number) }
{
    if let Some(param) = root.param
        && (param as usize) < numbers.as_slice().len()
    {
        numbers[param as usize] = root.number;
    }
}

// The roots as variables.
pub(crate) fn roots_as_numbers(
    alloc: Global,
    graph: &Graph,
    homes: &[HomeValue<'_>],
) -> Result<Vec<RootNumber>, Memory>
    ensures { IfOk result (λ numbers. numbers.items ≡ map (λ h. home_number graph.now (home_tree h)) homes.now) }
{
    let mut numbers = Vec::new(alloc);
    for at in 0..homes.len() {
        let home = homes[at];
        let root = RootNumber {
            param: home.param,
            number: number_at(graph, home.val),
        };
        let Ok(()) = numbers.push(root) else {
            return Err(Memory);
        };
    }
    Ok(numbers)
}

// A value as a variable.
fn number_at(graph: &Graph, val: &Val) -> ParamNumber
    ensures { result ≡ number_at graph.now (tree_of val.now) }
{
    ParamNumber {
        own: number(val),
        referent: referent(graph, val),
    }
}

// The number that a value is, where it is one.
pub(crate) fn number(val: &Val) -> Option<i128>
    ensures { result ≡ number_of (tree_of val.now) }
{
    match val {
        Val::Num(number) => Some(*number),
        _ => None,
    }
}

// The number that the referent of a pointer is, where it is one.
fn referent(graph: &Graph, val: &Val) -> Option<i128>
    ensures { result ≡ starred graph.now true (tree_of val.now) }
{
    match val {
        Val::Ptr(Some(cell)) => number_in_cell(graph, *cell),
        _ => None,
    }
}

// The number in a cell, where it is there and holds one.
fn number_in_cell(graph: &Graph, cell: CellId) -> Option<i128>
    ensures { result ≡ starred graph.now true (tree.node (tree.Ptr (Some cell.0)) tree.none) }
{
    match found(graph, cell) {
        Some(cell) => number(&cell.val),
        None => None,
    }
}

// The cell of a number, where it is there.
pub(crate) fn found(graph: &Graph, cell: CellId) -> Option<&Cell>
    ensures some { IfSome result (λ x. cell_of_number graph.now cell.0 ≡ Some (cell_of x.now)) }
    ensures none { IfNone result (cell_of_number graph.now cell.0 ≡ None) }
{
    if cell.0 == 0 {
        return None;
    }
    graph.cells.get(cell.0 as usize - 1)
}
