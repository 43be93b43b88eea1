// The homes of a side, one root after the other.
ghost use Rattle.std.specs.Prelude.{◌≡◌, ◌<◌, ◌+◌, [], length, IfOk, IsErrOf};
ghost use Rattle.ndr_trace_value.specs.declared.progress.Halt.TheVariants as halts;
ghost use Rattle.ndr_trace.specs.Homes.{IsPart, IsRoot};
ghost use Rattle.ndr_trace.specs.Sides.{IsAtRoot, IsSide};
ghost use Rattle.ndr_trace_value.specs.Tracing.{IsEnded, IsGround, IsTracing, Known};

use crate::homes::walk_root;
use crate::pipes::walk_pipe;
use nd_types::RootDef;
use ndr_trace_value::{Ground, Halt, Walker};

/// Walks over all homes of a side.
pub(crate) fn walk_side<'a>(ground: &Ground<'a>, walker: &mut Walker<'a>) -> Result<(), Halt>
    requires known { ground.now.op < length ground.now.interface.now.operations }
    ensures goes { (k : Known) → IsGround k ground.now → IsPart k → IsSide k ground.now → IsAtRoot k walker.old 0
        → IfOk result (λ _. IsTracing k walker.new.progress []) }
    ensures ends { (k : Known) → IsGround k ground.now → IsPart k → IsSide k ground.now → IsAtRoot k walker.old 0
        → IsErrOf result halts.Here → IsEnded k walker.new.progress }
{
    let mut at = 0u32;
    for root in ground.interface.params(ground.op, ground.side) {
        walk_one(ground, walker, at, root)?;
        at += 1;
    }
    Ok(())
}

// Walks over a root with the referents that it makes due, or over a pipe.
fn walk_one<'a>(
    ground: &Ground<'a>,
    walker: &mut Walker<'a>,
    at: u32,
    root: RootDef<'a>,
) -> Result<(), Halt>
    ensures goes { (k : Known) → IsGround k ground.now → IsPart k → IsRoot k at root.entry → IsAtRoot k walker.old at
        → IfOk result (λ _. IsAtRoot k walker.new (at + 1)) }
    ensures ends { (k : Known) → IsGround k ground.now → IsPart k → IsRoot k at root.entry → IsAtRoot k walker.old at
        → IsErrOf result halts.Here → IsEnded k walker.new.progress }
{
    if root.pipe {
        walk_pipe(ground, walker, at, root)?;
        return Ok(());
    }
    walk_root(ground, walker, at, root)?;
    Ok(())
}
