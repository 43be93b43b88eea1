// The graph that is decoded, and the sum of its values.
ghost use Rattle.std.specs.Prelude.{◌≡◌, ℕ, ◌<◌, ◌^◌, suc, length, IfOk};
ghost use Rattle.nd_value.specs.Canon.{Same};
ghost use Rattle.nd_value.specs.Setting.{cell_at};
ghost use Rattle.command_sample.specs.Nodes.{sample_graph};
ghost use Rattle.command_sample.specs.Values.{small as small_of, small_in, value_of, values_sum as sum_of_values};
ghost use Rattle.nd_flat.specs.FlatForm.{flat_seen};
ghost use Rattle.command_sample.specs.Steps.{IsSampleInterface, AreSampleOctets};

use nd_base::{Memory, Octets, Order, PlainSource, Steps, Uncounted};
use nd_graph::{Fit, FlatGraph, ItemLog, Seen};
use nd_types::Side;
use ndr_code::Plan;
use ndr_decode::decode;
use ndr_decoder_state::DecodeFault;
use std::alloc::Global;

// The graph that the octets of the sample represent.
pub(crate) fn decoded(alloc: Global, plan: &Plan, octets: Octets) -> Result<Fit, Memory>
    requires interface { IsSampleInterface plan.now.tie }
    requires of { (seed : ℕ) × (n : ℕ) × AreSampleOctets octets seed n }
    ensures { (seed n : ℕ) → AreSampleOctets octets seed n → IfOk result (λ f. Same (sample_graph seed n) f.graph) }
{
    let mut source = PlainSource::new(octets);
    let mut items = ItemLog::quiet();
    let mut steps = Steps::new(Uncounted::new());
    match decode(
        alloc,
        plan,
        0,
        Side::In,
        Order::Little,
        None,
        &mut source,
        &mut items,
        &mut steps,
    ) {
        Ok(decoded) => Ok(decoded.fit),
        Err(DecodeFault::Memory) => Err(Memory),
        Err(DecodeFault::ReadFault) => unreachable!(),
        Err(DecodeFault::Bad { .. }) => unreachable!(),
    }
}

// The sum of the values of all nodes.
pub(crate) fn values_sum(graph: &FlatGraph) -> u64
    requires few { length graph.now.cells < 2 ^ 32 }
    ensures { result ≡ sum_of_values graph.now.cells }
{
    let mut sum = 0u64;
    for at in 0..graph.cell_count() {
        sum += u64::from(value(graph, at));
    }
    sum
}

// The value of a node by its place, from 0.
fn value(graph: &FlatGraph, at: usize) -> u32
    requires there { at < length graph.now.cells }
    ensures { result ≡ value_of (cell_at graph.now (suc at)) }
{
    let mut walk = graph.cell_walk(at);
    let Some(_node) = walk.step() else {
        return 0;
    };
    let Some(first) = walk.step() else {
        return 0;
    };
    number_in(&first)
}

// The number of a node, from 0 to 999, and 0 for any other.
fn number_in(node: &Seen<'_>) -> u32
    ensures { result ≡ small_in (flat_seen node.now).0 }
{
    match node {
        Seen::Num(value) => small(*value),
        _ => 0,
    }
}

// A number from 0 to 999, and 0 for any other.
fn small(value: i128) -> u32
    ensures { result ≡ small_of value }
{
    if value >= 0 && value < 1000 {
        value as u32
    } else {
        0
    }
}
