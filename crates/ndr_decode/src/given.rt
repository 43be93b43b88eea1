// Numbers in the graph of a request.
ghost use Rattle.std.specs.Prelude.{◌≡◌, IfSome, option_map};
ghost use Rattle.nd_value.specs.Agreement.{number_of, starred};
ghost use Rattle.nd_value.specs.Seen.{cell_number};
ghost use Rattle.nd_value.specs.Setting.{cell_at, root_at};
ghost use Rattle.nd_value.specs.Tree.{Tree, more, none};
ghost use Rattle.nd_flat.specs.FlatForm.{IsKeepableNumber};
ghost use Rattle.ndr_code.specs.Tried.{given_number as number_given};
ghost use Rattle.ndr_decoder_laws.specs.stream.Between.{pointer_cell};

use nd_flat::{Fit, FlatGraph, Seen, Walk};
use nd_value::CellId;

// The number that a root of a request is, or with a star that in the cell that it names; none if no request is given.
pub(crate) fn given_number(given: Option<&Fit>, root: u32, star: bool) -> Option<i128>
    ensures number { result ≡ number_given star root (option_map (λ f. f.now.graph) given.entry) }
    ensures keepable { IfSome result IsKeepableNumber }
{
    match given {
        Some(fit) => fit_number(fit, root, star),
        None => None,
    }
}

// The same in a request.
fn fit_number(fit: &Fit, root: u32, star: bool) -> Option<i128>
    ensures number { result ≡ starred fit.now.graph star (root_at fit.now.graph root) }
    ensures keepable { IfSome result IsKeepableNumber }
{
    number_in(fit.flat(), root, star)
}

// The same in a graph.
fn number_in(graph: &FlatGraph, root: u32, star: bool) -> Option<i128>
    ensures { result ≡ starred graph.now star (root_at graph.now root) }
{
    if !star {
        return root_number(graph, root);
    }
    match named_cell(graph, root) {
        Some(cell) => cell_number_in(graph, cell),
        None => None,
    }
}

// The number that a root is.
fn root_number(graph: &FlatGraph, root: u32) -> Option<i128>
    ensures { result ≡ number_of (root_at graph.now root) }
{
    if root as usize >= graph.root_count() {
        return None;
    }
    first_number(graph.root_walk(root as usize))
}

// The number that a cell is.
fn cell_number_in(graph: &FlatGraph, cell: CellId) -> Option<i128>
    ensures { result ≡ number_of (cell_at graph.now cell.0) }
{
    if cell.0 == 0 {
        return None;
    }
    let at = cell.0 as usize - 1;
    if at >= graph.cell_count() {
        return None;
    }
    first_number(graph.cell_walk(at))
}

// The cell that a root names.
fn named_cell(graph: &FlatGraph, root: u32) -> Option<CellId>
    ensures { cell_number result ≡ pointer_cell (root_at graph.now root) }
{
    if root as usize >= graph.root_count() {
        return None;
    }
    first_cell(graph.root_walk(root as usize))
}

// The number that the value of a walk is.
fn first_number(walk: Walk<'_>) -> Option<i128>
    ensures { (t : Tree) → walk.entry ≡ more t none → result ≡ number_of t }
{
    let mut walk = walk;
    match walk.step() {
        Some(Seen::Num(number)) => Some(number),
        _ => None,
    }
}

// The cell that the value of a walk names.
fn first_cell(walk: Walk<'_>) -> Option<CellId>
    ensures { (t : Tree) → walk.entry ≡ more t none → cell_number result ≡ pointer_cell t }
{
    let mut walk = walk;
    match walk.step() {
        Some(Seen::Ptr(cell)) => cell,
        _ => None,
    }
}
