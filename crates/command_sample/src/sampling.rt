// The sample, from its seed to its summary.
ghost use Rattle.std.specs.Prelude.{◌≡◌, ◌≤◌, IfOk};
ghost use Rattle.command_sample.specs.Steps.{IsSampleInterface, IsSampleFit};
ghost use Rattle.command_sample.specs.Nodes.{sample_lines};

use crate::decoded::{decoded, values_sum};
use crate::encoded::encoded;
use crate::summary::{Summary, lines};
use crate::{graph, interface};
use nd_base::{Memory, Octets};
use nd_graph::{Fit, Misfit, fit, same};
use nd_types::{Interface, Side};
use ndr_plan::make;
use std::alloc::Global;

/// Draws a graph of `count` nodes, from 1 to 1,000,000, from a seed; fits it to the operation of the sample, encodes it in little order and decodes
/// the octets (C706, chapter 14). The answer is four lines: how many nodes were decoded, how many octets there are, the sum of the values that were
/// decoded, and whether the graph that was decoded is the one that was encoded, up to the numbers of its cells. It always is.
///
/// # Errors
/// Memory where memory was refused.
///
/// Takes memory for the graph, its octets and the graph that is decoded, in time that is in proportion to the nodes.
pub fn sample(alloc: Global, seed: u32, count: u32) -> Result<Octets, Memory>
    requires some { 1 ≤ count }
    requires few { count ≤ 1000000 }
    ensures { IfOk result (λ text. text ≡ sample_lines seed count) }
{
    let interface = interface(alloc)?;
    let plan = make(alloc, &interface)?;
    let drawn = fitted(alloc, &interface, seed, count)?;
    let octets = encoded(alloc, &plan, &drawn)?;
    let length = octets.as_slice().len();
    let decoded = decoded(alloc, &plan, octets)?;
    let same = same(alloc, &drawn, &decoded)?;
    let summary = Summary {
        cells: decoded.flat().cell_count() as u64,
        octets: length as u64,
        sum: values_sum(decoded.flat()),
        same,
    };
    lines(alloc, &summary)
}

// The graph of the sample as a fit.
fn fitted(alloc: Global, interface: &Interface, seed: u32, count: u32) -> Result<Fit, Memory>
    requires interface { IsSampleInterface interface.now }
    requires some { 1 ≤ count }
    requires few { count ≤ 1000000 }
    ensures fit { IfOk result (λ f. IsSampleFit f seed count) }
    ensures tied { IfOk result (λ f. f.interface ≡ interface.now) }
{
    let graph = graph(alloc, seed, count)?;
    match fit(alloc, interface, 0, Side::In, None, graph) {
        Ok(fit) => Ok(fit),
        Err((Misfit::Memory, _)) => Err(Memory),
        Err((Misfit::At { .. }, _)) => unreachable!(),
    }
}
