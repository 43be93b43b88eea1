// The pipes of a side, by the lines of a plan.
ghost use Rattle.std.specs.Prelude.{◌≡◌, ◌+◌, ◌<◌, ◌^◌, Some, length};
ghost use Rattle.std.specs.List.{slice_get};
ghost use Rattle.nd_types.specs.declared.types.Operation.{Operation};
ghost use Rattle.nd_types.specs.Roots.{roots_of};
ghost use Rattle.nd_value.specs.Deferral.{before_pipes};
ghost use Rattle.ndr_code.specs.Code.{line_at};
ghost use Rattle.ndr_drain_reader.specs.Pipes.{ArePipes, IsChecksBy};

use nd_types::Side;
use ndr_code::{Plan, PlanLine};
use ndr_decode::{elements_run, first_line};

// The roots of a side that are no pipes, and its pipes: how many there are, and the line of the first pipe.
#[derive(Clone, Copy, Debug, PartialEq, Eq)]
pub(crate) struct Pipes {
    pub(crate) values: u32,
    pub(crate) pipes: u32,
    pub(crate) line: usize,
}

// The pipes of a side.
pub(crate) fn find_pipes(plan: &Plan, op: u32, side: Side) -> Pipes
    requires known { op < length plan.now.tie.operations }
    ensures { (o : Operation) → slice_get plan.now.tie.operations op ≡ Some o → ArePipes plan.now op o side result }
{
    let first = first_line(plan, op, side);
    let checks = checks_line(plan, op, side, first);
    Pipes {
        values: (checks - first) as u32,
        pipes: count_pipes(plan, op, side, checks + 1),
        line: checks + 1,
    }
}

// The number of the line of the agreements of a side, whose first line is this.
fn checks_line(plan: &Plan, op: u32, side: Side, first: usize) -> usize
    requires known { op < length plan.now.tie.operations }
    requires first { (o : Operation) → slice_get plan.now.tie.operations op ≡ Some o
        → first ≡ line_at plan.now.tie.types plan.now.tie.operations op o side }
    ensures at { (o : Operation) → slice_get plan.now.tie.operations op ≡ Some o
        → result ≡ first + before_pipes (roots_of plan.now.tie.types side o) }
    ensures room { result + 1 < 2 ^ 64 }
{
    let lines = plan.entries.as_slice();
    for number in first..lines.len() {
        if is_checks(&lines[number]) {
            return number;
        }
    }
    unreachable!()
}

// Whether a line is one of agreements.
fn is_checks(line: &PlanLine) -> bool
    ensures { IsChecksBy line.now result }
{
    match line {
        PlanLine::Checks { .. } => true,
        PlanLine::Entry { .. } => false,
    }
}

// How many pipes a side has, whose lines begin here.
fn count_pipes(plan: &Plan, op: u32, side: Side, line: usize) -> u32
    requires known { op < length plan.now.tie.operations }
    requires line { (o : Operation) → slice_get plan.now.tie.operations op ≡ Some o
        → line ≡ line_at plan.now.tie.types plan.now.tie.operations op o side + before_pipes (roots_of plan.now.tie.types side o) + 1 }
    ensures { (o : Operation) → slice_get plan.now.tie.operations op ≡ Some o
        → before_pipes (roots_of plan.now.tie.types side o) + result ≡ length (roots_of plan.now.tie.types side o) }
{
    let mut count: u32 = 0;
    for next in line..plan.entries.len() {
        let Some(_elem) = elements_run(plan, op, side, next) else {
            return count;
        };
        count += 1;
    }
    count
}
