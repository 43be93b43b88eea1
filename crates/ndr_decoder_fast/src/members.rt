// The members of a struct of numbers, as the code of a plan has them.
ghost use Rattle.std.specs.Prelude.{◌≡◌, ◌<◌, ◌+◌, ◌^◌, true, length, Some, slice_get, IfSome};
ghost use Rattle.nd_types.specs.Table.{width};
ghost use Rattle.nd_flat.specs.Records.{IsMembers, members_of};
ghost use Rattle.ndr_code.specs.declared.instr.Instr.TheVariants as op;
ghost use Rattle.ndr_decoder_laws.specs.runs.Records.{AreSlots, CallsSlot, IsNumberAt, IsSlotRun};
ghost use Rattle.ndr_decoder_fast.specs.Elements.{slot_of, slots_of};

use nd_flat::{MOST_MEMBERS, Members};
use nd_types::Prim;
use ndr_code::{Code, Instr, prim_of};
use ndr_prim::width_of;

/// The members of a struct of so many numbers whose calls begin at an address, if each number comes after a gap to a multiple of its width and the
/// struct ends its run. None for any other struct, and for more members than `nd_flat` keeps side by side. Takes no memory.
pub fn members_at(code: &Code, at: usize, count: u32) -> Option<Members>
    requires code { at < 2 ^ 32 + 1 }
    ensures whole { IfSome result (λ m. IsMembers m) }
    ensures slots { IfSome result (λ m. AreSlots code.now at (slots_of (members_of m))) }
    ensures count { IfSome result (λ m. length (members_of m) ≡ count) }
    ensures closes { IfSome result (λ _. slice_get code.now (at + count) ≡ Some op.Close) }
    ensures ends { IfSome result (λ _. slice_get code.now (at + count + 1) ≡ Some op.Ret) }
{
    let count = count as usize;
    if MOST_MEMBERS < count || !is_end(code, at + count) {
        return None;
    }
    members_from(code, at, count)
}

// So many members whose calls begin at an address.
#[tactic(auto, using(crate::proofs::Slots::found_none, crate::proofs::Slots::found_more, crate::proofs::Slots::members_count))]
fn members_from(code: &Code, at: usize, count: usize) -> Option<Members>
    requires code { at < 2 ^ 32 + 1 }
    requires few { count < MOST_MEMBERS + 1 }
    ensures whole { IfSome result (λ m. IsMembers m) }
    ensures slots { IfSome result (λ m. AreSlots code.now at (slots_of (members_of m))) }
    ensures count { IfSome result (λ m. length (members_of m) ≡ count) }
{
    let mut members = Members::none();
    for i in 0..count {
        let prim = member_at(code, at + i)?;
        members = members.with(prim);
    }
    Some(members)
}

// Whether a struct ends at an address, and with it its run.
fn is_end(code: &Code, at: usize) -> bool
    requires fits { at < 2 ^ 33 }
    ensures closes { result ≡ true → slice_get code.now at ≡ Some op.Close }
    ensures ends { result ≡ true → slice_get code.now (at + 1) ≡ Some op.Ret }
{
    is_close(code, at) && is_ret(code, at + 1)
}

// Whether a `close` is at an address.
fn is_close(code: &Code, at: usize) -> bool
    ensures { result ≡ true → slice_get code.now at ≡ Some op.Close }
{
    matches!(code.get(at), Some(Instr::Close))
}

// Whether a `ret` is at an address.
fn is_ret(code: &Code, at: usize) -> bool
    ensures { result ≡ true → slice_get code.now at ≡ Some op.Ret }
{
    matches!(code.get(at), Some(Instr::Ret))
}

// The number that a call is of, which comes after a gap to a multiple of its width.
fn member_at(code: &Code, at: usize) -> Option<Prim>
    ensures { IfSome result (λ p. CallsSlot code.now at (slot_of p)) }
{
    let Some(Instr::Call { run }) = code.get(at) else {
        return None;
    };
    member_run(code, *run)
}

// The number of a run, which comes after a gap to a multiple of its width.
fn member_run(code: &Code, run: u32) -> Option<Prim>
    ensures { IfSome result (λ p. IsSlotRun code.now run (slot_of p)) }
{
    let run = run as usize;
    match code.get(run) {
        Some(Instr::Align { to }) => {
            let prim = number_at(code, run + 1)?;
            so_wide(prim, *to as usize)
        }
        _ => {
            let prim = number_at(code, run)?;
            so_wide(prim, 1)
        }
    }
}

// A number that is at an address and ends its run.
fn number_at(code: &Code, at: usize) -> Option<Prim>
    requires fits { at < 2 ^ 33 }
    ensures { IfSome result (λ p. IsNumberAt code.now at p) }
{
    let Some(Instr::Num { of }) = code.get(at) else {
        return None;
    };
    if !is_ret(code, at + 1) {
        return None;
    }
    Some(prim_of(of.0))
}

// A primitive, if it is so wide.
fn so_wide(prim: Prim, wide: usize) -> Option<Prim>
    ensures same { IfSome result (λ p. p ≡ prim) }
    ensures wide { IfSome result (λ p. width p ≡ wide) }
{
    if width_of(prim) == wide {
        Some(prim)
    } else {
        None
    }
}
