// The octets of the sample.
ghost use Rattle.std.specs.Prelude.{◌≡◌, ℕ, IfOk};
ghost use Rattle.ndr_encode.specs.Work.{IsWorkFor};
ghost use Rattle.command_sample.specs.Steps.{IsSampleFit, AreSampleOctets};

use nd_base::{Memory, Octets, Order};
use nd_graph::Fit;
use ndr_code::Plan;
use ndr_encode::{EncodeFault, Work, encode_with};
use std::alloc::Global;

// The octets of the graph of the sample, in little order.
pub(crate) fn encoded(alloc: Global, plan: &Plan, fit: &Fit) -> Result<Octets, Memory>
    requires tied { plan.now.tie ≡ fit.now.interface }
    requires of { (seed : ℕ) × (n : ℕ) × IsSampleFit fit.now seed n }
    ensures { (seed n : ℕ) → IsSampleFit fit.now seed n → IfOk result (λ octets. AreSampleOctets octets seed n) }
{
    // A fit's graph conforms.
    let _conforming = fit.flat();
    let mut work = prepared(alloc, plan, fit)?;
    let Ok(mut octets) = vec![in alloc; 0u8; work.length() as usize] else {
        return Err(Memory);
    };
    encode_with(&mut work, plan, fit, Order::Little, &mut octets);
    Ok(Octets::adopt(octets))
}

// The work for the graph of the sample, whose octets are never too many.
fn prepared(alloc: Global, plan: &Plan, fit: &Fit) -> Result<Work, Memory>
    requires tied { plan.now.tie ≡ fit.now.interface }
    requires of { (seed : ℕ) × (n : ℕ) × IsSampleFit fit.now seed n }
    ensures { IfOk result (IsWorkFor fit.now 1) }
{
    match Work::for_graph(alloc, plan, fit, 1) {
        Ok(work) => Ok(work),
        Err(EncodeFault::Memory) => Err(Memory),
        Err(EncodeFault::TooLong { .. }) => unreachable!(),
    }
}
