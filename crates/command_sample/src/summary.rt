// The lines of a summary.
ghost use Rattle.std.specs.Prelude.{◌≡◌, IfOk};
ghost use Rattle.command_sample.specs.Steps.{summary_lines, answer};

use itoa::Buffer;
use nd_base::text::join;
use nd_base::{Memory, Octets};
use std::alloc::Global;

// What came of the sample.
#[derive(Clone, Copy)]
pub(crate) struct Summary {
    // how many nodes were decoded
    pub(crate) cells: u64,
    // how many octets there were
    pub(crate) octets: u64,
    // the sum of the values that were decoded
    pub(crate) sum: u64,
    // whether the graph that was decoded is the one that was encoded
    pub(crate) same: bool,
}

// The four lines of a summary.
pub(crate) fn lines(alloc: Global, summary: &Summary) -> Result<Octets, Memory>
    ensures { IfOk result (λ text. text ≡ summary_lines summary.now.cells summary.now.octets summary.now.sum summary.now.same) }
{
    let mut cells_digits = Buffer::new();
    let cells = cells_digits.format(summary.cells).as_bytes();
    let mut octets_digits = Buffer::new();
    let octets = octets_digits.format(summary.octets).as_bytes();
    let mut sum_digits = Buffer::new();
    let sum = sum_digits.format(summary.sum).as_bytes();
    let same = yes_or_no(summary.same).as_bytes();
    join(
        alloc,
        &[
            b"cells ",
            cells,
            b"\noctets ",
            octets,
            b"\nsum ",
            sum,
            b"\nsame ",
            same,
            b"\n",
        ],
    )
}

// A truth value in words.
fn yes_or_no(truth: bool) -> &'static str
    ensures { result.now ≡ answer truth }
{
    if truth { "yes" } else { "no" }
}
