// How many octets structs of numbers and pointers have, by the code of a plan.
ghost use Rattle.std.specs.Prelude.{◌≡◌, ◌<◌, ◌≤◌, ◌*◌, ◌+◌, ◌^◌, ℕ, [], true, slice_get, length, Some, IfSome};
ghost use Rattle.nd_grammar.specs.Entry.{gap};
ghost use Rattle.ndr_code.specs.declared.instr.Instr.TheVariants as op;
ghost use Rattle.ndr_code.specs.Fields.{AreFields, field_of};
ghost use Rattle.ndr_code.specs.Lengths.{HasFields, IsLengths, AreLengths, form_width as width_by};

use crate::Instr;
use crate::fields::{Field, Form, field_at};
use crate::lists::entry;
use nd_base::{Memory, push};
use nd_types::Prim;
use ndr_prim::width_of;

/// How many octets a struct has that begins at a multiple of eight, and one that begins four octets after one.
#[derive(Clone, Copy, Debug, PartialEq, Eq)]
pub struct Lengths {
    pub at_eight: u8,
    pub after_four: u8,
}

// So many octets a struct may have whose length is given.
const MOST: u32 = 64;

/// How many octets a number or a pointer has: most numbers are longs. Takes no memory.
#[inline(always)]
pub fn form_width(form: Form) -> u32
    ensures is { result ≡ width_by form }
    ensures few { result ≤ 8 }
{
    match form {
        Form::Number(Prim::Long) => 4,
        Form::Number(prim) => width_of(prim) as u32,
        Form::Pointer {
            class: _,
            to: _,
            run: _,
        } => 4,
    }
}

// How many octets a gap has, where its multiple is such that gaps repeat every eight octets.
#[inline(always)]
fn repeated_gap(at: u32, to: u8) -> Option<u32>
    ensures gap { IfSome result (λ octets. (k : ℕ) → octets ≡ gap (8 * k + at) to) }
    ensures few { IfSome result (λ octets. octets < 8) }
{
    match to {
        1 => Some(0),
        2 => Some((2 - at % 2) % 2),
        4 => Some((4 - at % 4) % 4),
        8 => Some((8 - at % 8) % 8),
        _ => None,
    }
}

// The member that is called at an address, from the table of members as far as it goes.
#[inline(always)]
fn member_at(code: &[Instr], fields: &[Option<Field>], at: usize) -> Option<Field>
    requires { AreFields code.now fields.now }
    ensures { result ≡ field_of code.now at }
{
    match entry(fields, at) {
        Some(field) => field,
        None => field_at(code, at),
    }
}

// Whether a `close` is at an address.
#[inline(always)]
fn closes(code: &[Instr], at: usize) -> bool
    ensures { result ≡ true → slice_get code.now at ≡ Some op.Close }
{
    match code.get(at) {
        Some(Instr::Close) => true,
        _ => false,
    }
}

// How many octets so many members have from any place on that is so many octets after a multiple of eight, `MOST` at most, if they are numbers and
// unique and reference pointers and a `close` follows.
#[inline(never)]
pub(crate) fn length_of(
    code: &[Instr],
    fields: &[Option<Field>],
    pc: usize,
    at: u32,
    members: u32,
) -> Option<u32>
    requires fields { AreFields code.now fields.now }
    requires pc { pc ≤ 2 ^ 32 }
    requires at { at < 8 }
    ensures fields { IfSome result (λ len. (k : ℕ) → HasFields code.now pc (8 * k + at) members len) }
    ensures few { IfSome result (λ len. len ≤ 64) }
{
    let mut len = 0;
    let mut left = members;
    let mut next = pc;
    while left > 0 {
        let Some(field) = member_at(code, fields, next) else {
            return None;
        };
        let Some(gap) = repeated_gap(at + len, field.to) else {
            return None;
        };
        len += gap + form_width(field.form);
        if len > MOST {
            return None;
        }
        next += 1;
        left -= 1;
    }
    if !closes(code, next) {
        return None;
    }
    Some(len)
}

// The members of the struct that begins at an address.
fn members_at(code: &[Instr], pc: usize) -> Option<u32>
    ensures { IfSome result (λ n. slice_get code.now pc ≡ Some (op.Record n)) }
{
    match code.get(pc) {
        Some(Instr::Record { members }) => Some(*members),
        _ => None,
    }
}

// The lengths of the struct that begins at an address, if it is one of numbers and unique and reference pointers.
fn lengths_at(code: &[Instr], fields: &[Option<Field>], pc: usize) -> Option<Lengths>
    requires fields { AreFields code.now fields.now }
    requires pc { pc < 2 ^ 32 }
    ensures { IfSome result (λ l. IsLengths code.now pc l) }
{
    let Some(members) = members_at(code, pc) else {
        return None;
    };
    let Some(at_eight) = length_of(code, fields, pc + 1, 0, members) else {
        return None;
    };
    let Some(after_four) = length_of(code, fields, pc + 1, 4, members) else {
        return None;
    };
    Some(Lengths {
        at_eight: at_eight as u8,
        after_four: after_four as u8,
    })
}

// Puts the lengths of the struct at each address into an empty list.
pub(crate) fn look_lengths_up(
    code: &[Instr],
    fields: &[Option<Field>],
    lengths: &mut Vec<Option<Lengths>>,
) -> Result<(), Memory>
    requires few { length code.now < 2 ^ 32 }
    requires fields { AreFields code.now fields.now }
    requires none { lengths.old.items ≡ [] }
    ensures { AreLengths code.now lengths.new.items }
{
    for at in 0..code.len() {
        push(lengths, lengths_at(code, fields, at))?;
    }
    Ok(())
}
