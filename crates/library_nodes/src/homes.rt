// The roots and cells of a listing.
ghost use Rattle.std.specs.Prelude.{◌≡◌, ◌<◌, ◌^◌, ◌++◌, length, map, Some, Option, false, IfOk, IfErr};
ghost use Rattle.std.specs.List.{slice_get};
ghost use Rattle.nd_types.specs.declared.types.Operation.{Operation as OperationValue};
ghost use Rattle.nd_types.specs.Roots.{named_roots};
ghost use Rattle.nd_value.specs.declared.value.Graph.{Graph as GraphValue};
ghost use Rattle.nd_value.specs.Conforms.{HasFewNodes};
ghost use Rattle.nd_value.specs.Fitting.{setting_of, setting_beside};
ghost use Rattle.nd_value.specs.Setting.{Setting};
ghost use Rattle.library_nodes.specs.Listings.{said};
ghost use Rattle.library_nodes.specs.Steps.{IsStop, AreValues, AreCells};
ghost use Rattle.library_nodes.specs.Built.{Says, IsRead, IsBuildCause, has_too_many, root_types, whole};

use crate::fault::BuildFault;
use crate::listing::{Listing, has_too_many};
use crate::reader::Reader;
use crate::stop::Stop;
use crate::values::value;
use command_refusals::Refusal;
use nd_types::{Interface, Side, TypeId, Types};
use nd_value::{Cell, Cells, Graph, Vals};
use std::alloc::Global;

/// The graph of a side of an operation that a listing says. It need not conform. `op` must be the number of an operation.
///
/// # Errors
/// TooMany; WrongNode, where the listing says no graph; Refused by Memory, where memory was refused.
///
/// Takes memory for the graph, and for one call for each level of nesting, of which a type has at most 32. The time is in proportion to the listing.
pub(crate) fn graph_of(
    alloc: Global,
    interface: &Interface,
    op: u32,
    side: Side,
    listing: &Listing<'_>,
) -> Result<Graph, BuildFault>
    requires known { op < length interface.now.operations }
    ensures said { (o : OperationValue) → slice_get interface.now.operations op ≡ Some o
        → IfOk result (Says (setting_of interface.now o side) listing.now) }
    ensures few_cells { IfOk result (λ g. length g.cells < 2 ^ 32) }
    ensures few_nodes { IfOk result (λ g. HasFewNodes g) }
    ensures few { IfOk result (λ _. has_too_many listing.now ≡ false) }
    ensures refused { (o : OperationValue) (q : Option GraphValue) → slice_get interface.now.operations op ≡ Some o
        → IfErr result (IsBuildCause (setting_beside interface.now o side q) listing.now) }
{
    if has_too_many(listing) {
        return Err(BuildFault::TooMany);
    }
    match homes(alloc, interface, op, side, listing) {
        Ok(graph) => Ok(graph),
        Err(stop) => Err(fault_of(listing, stop)),
    }
}

// Where a listing was not read on.
fn fault_of(listing: &Listing<'_>, stop: Stop) -> BuildFault
    ensures { (w : Setting) → IsStop stop (said w.table (root_types w ++ listing.now.cells.now) (whole listing.now))
        → IsBuildCause w listing.now result }
{
    match stop {
        Stop::Memory => BuildFault::Refused(Refusal::Memory),
        Stop::At { left } => BuildFault::WrongNode(listing.nodes.len().saturating_sub(left)),
    }
}

// The roots, then the cells, and nothing after them.
fn homes(
    alloc: Global,
    interface: &Interface,
    op: u32,
    side: Side,
    listing: &Listing<'_>,
) -> Result<Graph, Stop>
    requires known { op < length interface.now.operations }
    ensures { (o : OperationValue) → slice_get interface.now.operations op ≡ Some o → IsRead (setting_of interface.now o side) listing.now result }
{
    let mut reader = Reader::of(listing.nodes, listing.numbers, listing.octets);
    let roots = root_values(alloc, interface, op, side, &mut reader)?;
    let cells = cell_values(alloc, &interface.types, listing.cells, &mut reader)?;
    if !reader.is_over() {
        return Err(reader.next_wrong());
    }
    Ok(Graph { roots, cells })
}

// The values of the roots.
fn root_values(
    alloc: Global,
    interface: &Interface,
    op: u32,
    side: Side,
    reader: &mut Reader<'_>,
) -> Result<Vals, Stop>
    requires known { op < length interface.now.operations }
    ensures { (o : OperationValue) → slice_get interface.now.operations op ≡ Some o
        → AreValues interface.now.types (map (λ r. r.of) (named_roots interface.now.types side o)) reader.old reader.new result }
{
    let mut vals = Vals::new(alloc);
    for root in interface.params(op, side) {
        let val = value(alloc, &interface.types, root.of, reader)?;
        let Ok(()) = vals.push(val) else {
            return Err(Stop::Memory);
        };
    }
    Ok(vals)
}

// The cells, each by its type.
fn cell_values(
    alloc: Global,
    types: &Types,
    numbers: &[u32],
    reader: &mut Reader<'_>,
) -> Result<Cells, Stop>
    ensures { AreCells types.now numbers.now reader.old reader.new result }
{
    let mut cells = Cells::new(alloc);
    for number in numbers {
        let of = TypeId(*number);
        let val = value(alloc, types, of, reader)?;
        let Ok(()) = cells.push(Cell { of, val }) else {
            return Err(Stop::Memory);
        };
    }
    Ok(cells)
}
