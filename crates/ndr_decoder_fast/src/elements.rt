// Structs of numbers that are elements of an array, as many as may be taken in one go.
ghost use Rattle.std.specs.Prelude.{◌≡◌, ◌⊎◌, true, ◌<◌, ◌≤◌, ◌+◌, ◌-◌, ◌^◌, length, Some, slice_get, IfSome};
ghost use Rattle.nd_flat.specs.Records.{IsMembers, members_of};
ghost use Rattle.ndr_code.specs.declared.instr.Instr.TheVariants as op;
ghost use Rattle.ndr_decoder_state.specs.Seen.{state_of};
ghost use Rattle.ndr_decoder_fast.specs.Elements.{AreElements, HaveRoom};

use crate::members::members_at;
use nd_base::{PIECE, STREAM_LIMIT};
use nd_flat::Members;
use ndr_code::{Code, Instr};
use ndr_decoder_laws::Frame;
use ndr_decoder_state::Machine;

/// So many structs of the same numbers, with so many octets.
#[derive(Clone, Copy)]
pub struct Elements {
    pub members: Members,
    pub count: u32,
    pub len: u32,
}

/// The elements that may be taken in one go at a `record` of so many members, two at least: as many as are left of an array whose elements are all
/// structs of the same numbers, and as a piece and the limit of a stream have room for. None anywhere else. Takes no memory.
pub fn elements_here(machine: &Machine, code: &Code, members: u32) -> Option<Elements>
    requires here { slice_get code.now machine.now.pc ≡ Some (op.Record members) }
    requires code { machine.now.pc < 2 ^ 32 }
    ensures whole { IfSome result (λ e. IsMembers e.members) }
    ensures elements { IfSome result (λ e. AreElements code.now (state_of machine.now) (members_of e.members) e.count e.len) }
{
    let Frame::Elements { left, run, back: _ } = machine.top else {
        return None;
    };
    if left == 0 || !is_level(machine) {
        return None;
    }
    let members = members_at(code, machine.pc + 1, members)?;
    if !is_run(code, run as usize, machine.pc, members.widest()) {
        return None;
    }
    with_room(machine.at, left, members)
}

// Whether what is kept of open structs goes with their members.
fn is_level(machine: &Machine) -> bool
    ensures { result ≡ true → length machine.now.firsts.items ≡ length machine.now.members.items }
{
    machine.firsts.as_slice().len() == machine.members.as_slice().len()
}

// Whether the run of elements is a struct at `pc`, after a gap to multiples of so much.
fn is_run(code: &Code, run: usize, pc: usize, to: usize) -> bool
    requires fits { run < 2 ^ 32 }
    ensures { result ≡ true → ((run ≡ pc) × (to ≡ 1)) ⊎ ((run + 1 ≡ pc) × (slice_get code.now run ≡ Some (op.Align to))) }
{
    if run == pc {
        return to == 1;
    }
    run + 1 == pc && is_align(code, run, to)
}

// Whether an `align` to so many octets is at an address.
fn is_align(code: &Code, at: usize, wide: usize) -> bool
    ensures { result ≡ true → slice_get code.now at ≡ Some (op.Align wide) }
{
    match code.get(at) {
        Some(Instr::Align { to }) => *to as usize == wide,
        _ => false,
    }
}

// As many structs of these members as a piece and the limit of a stream have room for from a place on, and at most so many after the first.
fn with_room(at: u32, left: u32, members: Members) -> Option<Elements>
    requires whole { IsMembers members }
    ensures members { IfSome result (λ e. e.members ≡ members) }
    ensures room { IfSome result (λ e. HaveRoom at (members_of members) e.count e.len) }
    ensures fewer { IfSome result (λ e. e.count - 1 ≤ left) }
{
    let end = members.end() as u32;
    let stride = members.stride() as u32;
    let room = STREAM_LIMIT.saturating_sub(at).min(PIECE);
    if end == 0 || room < end || at % members.widest() as u32 != 0 {
        return None;
    }
    let more = ((room - end) / stride).min(left);
    if more == 0 {
        return None;
    }
    Some(Elements {
        members,
        count: more + 1,
        len: more * stride + end,
    })
}
