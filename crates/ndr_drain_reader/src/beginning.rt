// The beginning of an intake.
ghost use Rattle.std.specs.Prelude.{◌≡◌, ◌<◌, Some, length, IfOk};
ghost use Rattle.std.specs.List.{slice_get};
ghost use Rattle.nd_types.specs.declared.types.Operation.{Operation};
ghost use Rattle.ndr_drain_reader.specs.Calls.{HasBegun};
ghost use Rattle.ndr_drain_reader.specs.Ready.{IsAtHead};
ghost use Rattle.ndr_drain_reader.specs.Seen.{intake_seen};

use crate::pipes::find_pipes;
use crate::{Intake, Phase};
use nd_base::{Intake as Buffer, Memory, Order};
use nd_flat::Builder;
use nd_types::Side;
use ndr_code::Plan;
use std::alloc::Global;

// An intake of which nothing was read.
pub(crate) fn begin_intake<'p>(
    alloc: Global,
    plan: &'p Plan,
    op: u32,
    side: Side,
    order: Order,
) -> Result<Intake<'p>, Memory>
    requires known { op < length plan.now.tie.operations }
    ensures begun { IfOk result
        (λ i. (o : Operation) → slice_get plan.now.tie.operations op ≡ Some o → HasBegun plan.now.tie op o side order (intake_seen i)) }
    ensures ready { IfOk result IsAtHead }
{
    let buffer = Buffer::new(alloc)?;
    let found = find_pipes(plan, op, side);
    Ok(Intake {
        plan,
        alloc,
        op,
        side,
        order,
        phase: Phase::Begun,
        kept: Builder::begin(alloc, plan.tie.again(), op, side, None),
        buffer,
        at: 0,
        root: found.values,
        node: 1,
        left: found.pipes,
        line: found.line,
    })
}
