// What a command speaks of is made ready: the interface of the files, and the operation.
ghost use Rattle.std.specs.Prelude.{◌≡◌, ◌<◌, ◌≤◌, length, Some, IfOk, IfErr};
ghost use Rattle.nd_types.specs.declared.types.Operation.{Operation};
ghost use Rattle.nd_types.specs.Roots.{operation_named};
ghost use Rattle.nd_base.specs.Over.{files_over};
ghost use Rattle.command_compile.specs.Compiled.{AsksFiles};
ghost use Rattle.command_line.specs.Commands.{subject_of};
ghost use Rattle.dceidl.specs.Ready.{IsFound, IsReadyCause, IsNotFound};

use command_compile::compile;
use command_line::Subject;
use command_refusals::Refusal;
use nd_base::Files;
use nd_types::{Interface, Side};
use std::alloc::Global;

// An interface, the number of one of its operations, and a side of it.
#[derive(Drop)]
pub(crate) struct Ready {
    pub(crate) interface: Interface,
    pub(crate) number: u32,
    pub(crate) side: Side,
}

// Loads and reads the files, and finds the operation.
pub(crate) fn make_ready<F: Files>(
    alloc: Global,
    of: Subject<'_>,
    files: &mut F,
) -> Result<Ready, Refusal>
    ensures asked { AsksFiles (files_over F.seen files.old files.new)
        (Some (record { idl = (subject_of of.entry).idl; acf = (subject_of of.entry).acf })) }
    ensures ready { IfOk result (λ r. (o : Operation)
        × IsFound (files_over F.seen files.old files.new) (subject_of of.entry) r.interface r.number o) }
    ensures known { IfOk result (λ r. r.number < length r.interface.operations) }
    ensures side { IfOk result (λ r. r.side ≡ (subject_of of.entry).side) }
    ensures refused { IfErr result (IsReadyCause (files_over F.seen files.old files.new) (subject_of of.entry)) }
    ensures same { (F.seen files.new).held ≡ (F.seen files.old).held }
    ensures later { (F.seen files.old).faults ≤ (F.seen files.new).faults }
    ensures absences_later { (F.seen files.old).absences ≤ (F.seen files.new).absences }
{
    let interface = compile(alloc, of.idl, of.acf, files)?;
    find(interface, of.op, of.side)
}

// The operation of a name.
fn find(interface: Interface, op: &str, side: Side) -> Result<Ready, Refusal>
    ensures interface { IfOk result (λ r. r.interface ≡ interface) }
    ensures found { IfOk result (λ r. operation_named interface.operations op.now ≡ Some r.number) }
    ensures side { IfOk result (λ r. r.side ≡ side) }
    ensures known { IfOk result (λ r. r.number < length r.interface.operations) }
    ensures refused { IfErr result (IsNotFound interface op.now) }
{
    let Some(number) = interface.operation(op) else {
        return Err(Refusal::NoOperation);
    };
    Ok(Ready {
        interface,
        number,
        side,
    })
}
