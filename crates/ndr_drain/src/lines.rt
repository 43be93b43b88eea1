// The lines of elements, given to the end of their pipe.
ghost use Rattle.std.specs.Prelude.{List};
ghost use Rattle.std.specs.List.{AllByRecursion};
ghost use Rattle.nd_value.specs.Seen.{tree_of};
ghost use Rattle.text_grammar.specs.Sound.{IsSound};
ghost use Rattle.ndr_pipe.specs.Ends.{IsOpenAt, ends_seen};
ghost use Rattle.ndr_drain.specs.Drained.{line_of, lines};
ghost use Rattle.ndr_drain.specs.Turns.{AreGiven};

use crate::fault::GiveFault;
use nd_types::{Interface, TypeId};
use nd_value::{Val, Vals};
use ndr_pipe::{Ends, PipeEnd};
use std::alloc::Global;
use text_printer::print_value;

// Gives the line of one element to an end.
pub(crate) fn give_line<E: PipeEnd>(
    alloc: Global,
    interface: &Interface,
    of: TypeId,
    val: &Val,
    which: usize,
    ends: &mut Ends<E>,
) -> Result<(), GiveFault>
    requires open { IsOpenAt (ends_seen E.seen ends.old) which }
    requires sound { IsSound interface.now.types of.0 (tree_of val.now) }
    ensures { AreGiven (ends_seen E.seen ends.old) (ends_seen E.seen ends.new) which (line_of interface.now.types of.0 (tree_of val.now)) result }
{
    let Ok(mut line) = print_value(alloc, interface, of, val) else {
        return Err(GiveFault::Memory);
    };
    if line.append(b"\n").is_err() {
        return Err(GiveFault::Memory);
    }
    match ends.take(which, line.as_slice()) {
        Ok(()) => Ok(()),
        Err(_) => Err(GiveFault::End),
    }
}

// Gives the lines of elements to an end, one after the other. After the last of them the end is flushed.
pub(crate) fn give_lines<E: PipeEnd>(
    alloc: Global,
    interface: &Interface,
    of: TypeId,
    vals: &Vals,
    which: usize,
    ends: &mut Ends<E>,
) -> Result<(), GiveFault>
    requires open { IsOpenAt (ends_seen E.seen ends.old) which }
    requires sound { AllByRecursion (IsSound interface.now.types of.0) vals.now }
    ensures { AreGiven (ends_seen E.seen ends.old) (ends_seen E.seen ends.new) which (lines interface.now.types of.0 vals.now) result }
{
    for at in 0..vals.len() {
        let Some(val) = vals.get(at) else {
            unreachable!();
        };
        give_line(alloc, interface, of, val, which, ends)?;
    }
    match ends.flush(which) {
        Ok(()) => Ok(()),
        Err(_) => Err(GiveFault::End),
    }
}
