// A text is read, and its values are fitted to the operation.
ghost use Rattle.std.specs.Prelude.{◌≡◌, ℕ, ◌<◌, ◌^◌, List, length, Some, Option, option_map, IfOk, IfErr};
ghost use Rattle.std.specs.List.{slice_get};
ghost use Rattle.nd_types.specs.declared.types.Operation.{Operation};
ghost use Rattle.nd_value.specs.declared.value.Graph.{Graph as GraphValue};
ghost use Rattle.nd_value.specs.Conforms.{HasFewNodes, IsMisfit};
ghost use Rattle.nd_value.specs.Fitting.{setting_beside};
ghost use Rattle.nd_value.specs.Request.{IsRequestOf};
ghost use Rattle.nd_value.specs.Setting.{Setting};
ghost use Rattle.text_grammar.specs.Reads.{ReadsAs, IsFault};
ghost use Rattle.command_encode.specs.Encoded.{IsTextCause, IsValueCause};

use command_refusals::Refusal;
use nd_graph::{Fit, Graph, Misfit, fit};
use nd_types::{Interface, Side};
use std::alloc::Global;
use value_text::{TextFault, path, read_text};

/// The graph that a text of values is read as, if it conforms to a side of an operation. `op` must be the number of an operation of the interface. A
/// request that is given must be one of that operation, and then the side is that of its outputs: the values are judged beside it.
///
/// # Errors
/// BadText, the first place at which the text goes on as no text of the side; BadValue, the path of the first misfit of the graph that the text is
/// read as; Memory where memory was refused.
///
/// Takes memory for the graph. The time is in proportion to the text.
pub fn fit_text(
    alloc: Global,
    interface: &Interface,
    op: u32,
    side: Side,
    given: Option<&Fit>,
    text: &[u8],
) -> Result<Fit, Refusal>
    requires known { op < length interface.now.operations }
    requires request { IsRequestOf interface.now op side (option_map (λ f. f.now) given) }
    ensures tied { IfOk result (λ f. f.interface ≡ interface.now) }
    ensures number { IfOk result (λ f. f.op ≡ op) }
    ensures side { IfOk result (λ f. f.side ≡ side) }
    ensures beside { IfOk result (λ f. f.given ≡ option_map (λ f. f.now.graph) given.entry) }
    ensures read { (o : Operation) → slice_get interface.now.operations op ≡ Some o
        → IfOk result (λ f. ReadsAs (setting_beside interface.now o side (option_map (λ f. f.now.graph) given.entry)) text.now f.graph) }
    ensures refused { (o : Operation) → slice_get interface.now.operations op ≡ Some o
        → IfErr result (IsTextCause (setting_beside interface.now o side (option_map (λ f. f.now.graph) given.entry)) text.now) }
{
    match read_text(alloc, interface, op, side, text) {
        Ok(graph) => fit_graph(alloc, interface, op, side, given, graph),
        Err(fault) => Err(text_refused(fault)),
    }
}

// Why a text was not read, as a refusal.
fn text_refused(fault: TextFault) -> Refusal
    ensures { (w : Setting) (text : List ℕ) → IsFault w text fault → IsTextCause w text result }
{
    match fault {
        TextFault::Memory => Refusal::Memory,
        TextFault::At {
            line,
            column,
            reason,
        } => Refusal::BadText {
            line,
            column,
            reason,
        },
    }
}

/// A graph, if it conforms to a side of an operation. `op` must be the number of an operation of the interface, and there must be fewer than 2^32
/// cells, and in each home fewer than 2^32 nodes. A request that is given must be one of that operation, and the side is then that of its outputs:
/// the values are judged beside it.
///
/// # Errors
/// BadValue, the path of the first misfit of the graph; Memory where memory was refused.
///
/// Takes memory for the values, as [`fit`] does. The time is in proportion to the graph.
pub fn fit_graph(
    alloc: Global,
    interface: &Interface,
    op: u32,
    side: Side,
    given: Option<&Fit>,
    graph: Graph,
) -> Result<Fit, Refusal>
    requires known { op < length interface.now.operations }
    requires few_cells { length graph.cells < 2 ^ 32 }
    requires few_nodes { HasFewNodes graph }
    requires request { IsRequestOf interface.now op side (option_map (λ f. f.now) given) }
    ensures fits { IfOk result (λ f. f ≡ record {
      graph = graph;
      op = op;
      side = side;
      interface = interface.now;
      given = option_map (λ f. f.now.graph) given.entry;
    }) }
    ensures refused { (o : Operation) → slice_get interface.now.operations op ≡ Some o
        → IfErr result (IsValueCause (setting_beside interface.now o side (option_map (λ f. f.now.graph) given.entry)) graph) }
{
    match fit(alloc, interface, op, side, given, graph) {
        Ok(fit) => Ok(fit),
        Err((misfit, graph)) => Err(value_refused(alloc, interface, op, side, &graph, misfit)),
    }
}

// The first misfit of a graph, with its path.
fn value_refused(
    alloc: Global,
    interface: &Interface,
    op: u32,
    side: Side,
    graph: &Graph,
    misfit: Misfit,
) -> Refusal
    requires known { op < length interface.now.operations }
    ensures { (o : Operation) (q : Option GraphValue) → slice_get interface.now.operations op ≡ Some o
        → IsMisfit (setting_beside interface.now o side q) graph.now misfit
        → IsValueCause (setting_beside interface.now o side q) graph.now result }
{
    match misfit {
        Misfit::Memory => Refusal::Memory,
        Misfit::At { home, node, reason } => match path(
            alloc, interface, op, side, graph, home, node,
        ) {
            Ok(path) => Refusal::BadValue { path, reason },
            Err(_) => Refusal::Memory,
        },
    }
}
