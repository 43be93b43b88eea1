// Room for what is read.
ghost use Rattle.std.specs.Prelude.{◌≡◌, ◌<◌, ◌≤◌};
ghost use Rattle.ndr_decoder_stream.specs.Seen.{IsSame};

use crate::KeptCells;
use ndr_decoder_laws::First;
use ndr_decoder_state::Machine;

// Makes room for the cells that so many octets at hand will give, if they go on as those that were read, but for at most eight times as many as were
// read; and for those that have their numbers and were not read. Of nodes there is room for as many in each as the home has that was read last, but
// for at most sixteen, and for at most one for each octet; of octets of texts for as many in each as that home's count says, and for at most those at
// hand. So the lists are moved less often as they grow, and no count that the octets claim takes room. Where the cells would be less than twice as
// many it makes none: as lists grow they double.
#[cold]
#[inline(never)]
pub(crate) fn make_room(machine: &mut Machine, cells: &mut KeptCells, ahead: usize)
    ensures machine { IsSame machine.old machine.new }
    ensures cells { cells.new ≡ cells.old }
{
    let read = cells.len().max(1);
    let coming = cells_for(machine, read, ahead);
    let unread = (machine.cells as usize).saturating_sub(read);
    let more = coming.saturating_add(unread);
    if more < read {
        return;
    }
    let nodes = nodes_for(machine, more, ahead);
    let octets = octets_for(machine, more, ahead);
    machine.builder.make_room(nodes, coming);
    machine.builder.make_room_for_octets(octets);
    cells.make_room(more);
}

// How many cells the octets at hand may give, after so many that were read.
fn cells_for(machine: &Machine, read: usize, ahead: usize) -> usize
    requires { 0 < read }
    ensures at_hand { result ≤ ahead }
{
    let wide = (machine.at as usize / read).max(1);
    (ahead / wide).min(read.saturating_mul(8))
}

// How many nodes the octets at hand may give in so many cells.
fn nodes_for(machine: &Machine, cells: usize, ahead: usize) -> usize
    ensures at_hand { result ≤ ahead }
{
    cells
        .saturating_mul((machine.count as usize).min(16))
        .min(ahead)
}

// How many octets of texts are at hand for so many cells.
fn octets_for(machine: &Machine, cells: usize, ahead: usize) -> usize
    ensures at_hand { result ≤ ahead }
{
    cells.saturating_mul(actual_count(machine)).min(ahead)
}

// The actual count of the home that was read last; 0 if it has none.
fn actual_count(machine: &Machine) -> usize {
    match machine.own {
        Some(
            First::Counted {
                max: _,
                offset: _,
                actual,
                place: _,
            },
        ) => actual as usize,
        _ => 0,
    }
}
