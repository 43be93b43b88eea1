// Room for elements that are pointers, or begin with one.
ghost use Rattle.std.specs.Prelude.{◌≡◌, ◌≤◌, ◌*◌};
ghost use Rattle.ndr_decoder_state.specs.Seen.{outside, state_of};

use ndr_decoder_state::Machine;

// Makes room for what an element that begins with a pointer and so many after it will give: two nodes, a cell and a pending referent, and a node of
// what the pointer names. There is room for no more than the octets at hand have pointers, so no count that the octets claim takes room. Where the
// list of the referents that are pending would be less than twice as long it makes none: as lists grow they double.
#[cold]
#[inline(never)]
pub(crate) fn make_room(machine: &mut Machine, left: u32, ahead: usize)
    ensures state { state_of machine.new ≡ state_of machine.old }
    ensures outside { outside machine.new ≡ outside machine.old }
{
    let pending = machine.fresh.len();
    let more = pointers_for(left, ahead);
    if more < pending {
        return;
    }
    machine.builder.make_room(more.saturating_mul(3), more);
    let _fresh = machine.fresh.reserve_exact(more);
}

// How many pointers may be given room, of so many elements after the first: each of them takes four of the octets at hand.
fn pointers_for(left: u32, ahead: usize) -> usize
    ensures at_hand { result * 4 ≤ ahead }
{
    (ahead / 4).min(left as usize + 1)
}
