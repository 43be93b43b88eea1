// The canonical form of a graph.
ghost use Rattle.std.specs.Prelude.{IfOk};
ghost use Rattle.nd_graph.specs.Canonical.{IsCanonical};

use crate::order::order_of;
use nd_base::Memory;
use nd_flat::Fit;
use std::alloc::Global;

/// The graph of a fit with its cells numbered from 1 in the order in which pointers in the stream first name them: the roots in
/// order, each followed by the referents of its pointers, left to right and depth first, and a referent that stands already
/// left out (C706 14.3.12, deferral of referents). That the order of naming is the order of the stream is the law
/// `named_in_deferral_order`. It takes memory for the answer, and for two numbers and a mark for each cell and two numbers for
/// each pointer that is due. Out of memory is the only refusal. It takes time in proportion to nodes and cells, and no call is nested deeper for a
/// longer chain.
pub fn canonical(alloc: Global, fit: &Fit) -> Result<Fit, Memory>
    ensures { IfOk result (λ c. IsCanonical fit.now c) }
{
    let order = order_of(alloc, fit.flat())?;
    fit.renumbered(alloc, order.numbers.as_slice(), order.cells.as_slice())
}
