// The inputs of a request, as the variables of attributes (C706, 4.2.18).
ghost use Rattle.std.specs.Prelude.{◌≡◌, ◌<◌, true, length, slice_get, option_map, Some, IfOk};
ghost use Rattle.nd_types.specs.declared.types.Operation.{Operation};
ghost use Rattle.nd_types.specs.declared.types.Side.TheVariants as side;
ghost use Rattle.nd_types.specs.Roots.{named_roots};
ghost use Rattle.nd_value.specs.Agreement.{number_of};
ghost use Rattle.nd_value.specs.Setting.{root_at, cell_at};
ghost use Rattle.nd_misfits.specs.Numbers.{given_numbers, numbers_of, number_at, are_small_roots};
ghost use Rattle.nd_value.specs.Request.{IsRequestOf};

use nd_base::Memory;
use nd_flat::{Fit, FlatGraph, Seen};
use nd_misfits::{ParamNumber, RootNumber};
use nd_types::{Interface, Side};
use nd_value::CellId;
use std::alloc::Global;

// The inputs of a request in order, each as a variable; none where no request is given. It takes memory for the list.
pub(crate) fn given_numbers(
    alloc: Global,
    interface: &Interface,
    op: u32,
    given: Option<&Fit>,
) -> Result<Vec<RootNumber>, Memory>
    requires known { op < length interface.now.operations }
    requires request { IsRequestOf interface.now op side.Out (option_map (λ f. f.now) given) }
    ensures numbers { IfOk result (λ numbers. (o : Operation) → slice_get interface.now.operations op ≡ Some o
        → numbers.items ≡ given_numbers interface.now.types o (option_map (λ f. f.now.graph) given.entry)) }
    ensures small { IfOk result (λ numbers. are_small_roots numbers.items ≡ true) }
{
    match given {
        Some(fit) => inputs(alloc, interface, op, fit.flat()),
        None => Ok(Vec::new(alloc)),
    }
}

// The same of the graph of a request.
fn inputs(
    alloc: Global,
    interface: &Interface,
    op: u32,
    graph: &FlatGraph,
) -> Result<Vec<RootNumber>, Memory>
    requires known { op < length interface.now.operations }
    ensures { IfOk result (λ numbers. (o : Operation) → slice_get interface.now.operations op ≡ Some o
        → numbers.items ≡ numbers_of graph.now (named_roots interface.now.types side.In o) graph.now.roots) }
{
    let mut numbers = Vec::new(alloc);
    let mut at = 0;
    for root in interface.params(op, Side::In) {
        let input = RootNumber {
            param: root.param,
            number: root_number(graph, at),
        };
        let Ok(()) = numbers.push(input) else {
            return Err(Memory);
        };
        at += 1;
    }
    Ok(numbers)
}

// A root as a variable: no variable where it is not there.
fn root_number(graph: &FlatGraph, at: usize) -> ParamNumber
    ensures { result ≡ number_at graph.now (root_at graph.now at) }
{
    if at >= graph.root_count() {
        return NO_NUMBER;
    }
    let mut walk = graph.root_walk(at);
    match walk.step() {
        Some(Seen::Num(number)) => ParamNumber {
            own: Some(number),
            referent: None,
        },
        Some(Seen::Ptr(Some(cell))) => ParamNumber {
            own: None,
            referent: number_in(graph, cell),
        },
        _ => NO_NUMBER,
    }
}

const NO_NUMBER: ParamNumber = ParamNumber {
    own: None,
    referent: None,
};

// The number in a cell, where it is there and holds one.
fn number_in(graph: &FlatGraph, cell: CellId) -> Option<i128>
    ensures { result ≡ number_of (cell_at graph.now cell.0) }
{
    if cell.0 == 0 || cell.0 as usize > graph.cell_count() {
        return None;
    }
    let mut walk = graph.cell_walk(cell.0 as usize - 1);
    match walk.step() {
        Some(Seen::Num(number)) => Some(number),
        _ => None,
    }
}
