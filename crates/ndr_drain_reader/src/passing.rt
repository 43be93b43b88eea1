// The pipe that is next, and how an intake goes on after a chunk.
ghost use Rattle.std.specs.Prelude.{◌≡◌, ◌≤◌, ◌<◌, ◌+◌, ◌-◌, ◌*◌, Some};
ghost use Rattle.nd_base.specs.declared.TheConstants.{STREAM_LIMIT};
ghost use Rattle.ndr_decode.specs.Piping.{ElementsRun};
ghost use Rattle.ndr_drain_reader.specs.Ready.{IsReady};
ghost use Rattle.ndr_drain_reader.specs.Seen.{intake_seen, moved_to};

use crate::Intake;
use ndr_decode::elements_run;

// The run of the elements of the pipe that is next.
pub(crate) fn next_run(intake: &Intake<'_>) -> u32
    requires ready { IsReady intake.now }
    requires pipe { 0 < intake.now.left }
    ensures { ElementsRun intake.now.plan.now intake.now.op intake.now.side intake.now.line (Some result) }
{
    let Some(elem) = elements_run(intake.plan, intake.op, intake.side, intake.line) else {
        unreachable!()
    };
    elem
}

// The pipe has ended at a place, and the next is due.
pub(crate) fn pass_end(intake: &mut Intake<'_>, at: u32)
    requires ready { IsReady intake.old }
    requires pipe { 0 < intake.old.left }
    requires within { at ≤ STREAM_LIMIT }
    ensures seen { intake_seen intake.new
        ≡ moved_to (record { place = at; root = intake.old.root + 1; node = 1 }) (intake.old.left - 1) (intake_seen intake.old) }
    ensures ready { IsReady intake.new }
{
    // The number of lines has 64 bits, and so the number after that of a line.
    let _lines = intake.plan.entries.len();
    intake.at = at;
    intake.root += 1;
    intake.left -= 1;
    intake.line += 1;
    intake.node = 1;
}

// Elements of so many nodes were read up to a place, and the next chunk of the pipe is due.
pub(crate) fn pass_elements(intake: &mut Intake<'_>, at: u32, nodes: u32)
    requires ready { IsReady intake.old }
    requires within { at ≤ STREAM_LIMIT }
    requires few { intake.old.node + nodes ≤ 32 * at + 1 }
    ensures seen { intake_seen intake.new
        ≡ moved_to (record { place = at; root = intake.old.root; node = intake.old.node + nodes }) intake.old.left (intake_seen intake.old) }
    ensures ready { IsReady intake.new }
{
    intake.at = at;
    intake.node += nodes;
}
