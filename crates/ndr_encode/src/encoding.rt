// Encoding by a work.
ghost use Rattle.std.specs.Prelude.{◌≡◌, ℕ, length};
ghost use Rattle.ndr_encode.specs.Work.{IsWorkFor, IsChosen};

use crate::work::Work;
use nd_base::Order;
use nd_flat::Fit;
use ndr_code::Plan;
use ndr_encoder_value::fill_turns;

/// Writes the octets of a graph in an order of octets: those of its one stream in which gaps are zero, TRUE is 1, the number of each pointer is the
/// number of its cell in the order of the stream, and each chunk has as many elements as the work says, except the last (C706 chapter 14). The work
/// was made for this plan and this fit, and `out` has its length. It always succeeds, takes no memory, and the work can be used again.
pub fn encode_with(work: &mut Work, plan: &Plan, fit: &Fit, order: Order, out: &mut [u8])
    requires tied { plan.now.tie ≡ fit.now.interface }
    requires made { (k : ℕ) × IsWorkFor fit.now k work.old }
    requires room { length out.old ≡ work.old.length }
    ensures chosen { IsChosen fit.now order work.old.chunk out.new }
    ensures again { work.new ≡ work.old }
{
    // A fit's graph conforms.
    let _conforming = fit.flat();
    let code = plan.code.as_slice();
    let turns = work.turns.as_slice();
    let numbers = work.numbers.as_slice();
    fill_turns(code, work.chunk, turns, fit, order, numbers, out);
}
