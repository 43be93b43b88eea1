// The header of a fragment is read and checked.
ghost use Rattle.std.specs.Prelude.{◌≡◌, ℕ, ◌+◌, ◌-◌, ◌*◌, ◌≤◌, ◌<◌, ◌^◌, [], ◌∷◌, ◌++◌, length, List, Option, Some, None, true, false, IfOk, IfErr};
ghost use Rattle.nd_base.specs.declared.TheConstants.{STREAM_LIMIT};
ghost use Rattle.nd_types.specs.Number.{unsigned};
ghost use Rattle.rpc_pdu.specs.Checks.{short_at, has, header_by, type_of, operation_in, before, first_failing, common_checks, opened, wrong_first};
ghost use Rattle.rpc_pdu.specs.Checks.{same_order, other_order, other_call, other_operation};
ghost use Rattle.rpc_pdu.specs.Fragments.{IsSeen, IsBadBy, IsStated, rest_checks};

use crate::pdu::{Opening, PduFault, PduReason, Wanted};
use nd_base::{Order, STREAM_LIMIT};
use ndr_prim::read_label;

// What the common fields of a fragment state (C706 section 12.6.3.1): the order of octets, the call id, how many octets the fragment and its
// header have, and whether it is the last.
#[derive(Clone, Copy)]
pub(crate) struct CommonFields {
    pub(crate) order: Order,
    pub(crate) call: u32,
    pub(crate) fragment_length: u32,
    pub(crate) header_length: u32,
    pub(crate) last: bool,
}

// Reads the common fields, the first 16 octets of a fragment, and checks them: what they state, or the first check that fails.
pub(crate) fn check_common_fields(
    want: Wanted,
    opening: Option<Opening>,
    at: u32,
    head: &[u8],
) -> Result<CommonFields, PduFault>
    requires wide { length head.now ≡ 16 }
    requires small { at < 2 ^ 32 - 16 }
    ensures seen { IfOk result (IsSeen want (before opening at []) head.now) }
    ensures refused { IfErr result (IsBadBy (first_failing (common_checks want (before opening at []) head.now))) }
    ensures least { IfOk result (λ c. 24 ≤ c.header_length) }
    ensures most { IfOk result (λ c. c.header_length ≤ 40) }
    ensures within { IfOk result (λ c. c.header_length ≤ c.fragment_length) }
    ensures fits { IfOk result (λ c. c.fragment_length < 2 ^ 16) }
{
    if head[0] != 5 {
        return Err(bad(at, PduReason::Version));
    }
    if head[2] != pdu_type(want) {
        return Err(bad(at + 2, PduReason::Kind));
    }
    if is_wrong_first(opening, head[3]) {
        return Err(bad(at + 3, PduReason::Flags));
    }
    let Ok(order) = read_label(&[head[4], head[5], head[6], head[7]]) else {
        return Err(bad(at + 4, PduReason::Label));
    };
    if is_other_order(opening, order) {
        return Err(bad(at + 4, PduReason::OtherOrder));
    }
    let fragment_length = u32::from(read_short(order, head[8], head[9]));
    let header_length = header_length(want, head[3]);
    if fragment_length < header_length {
        return Err(bad(at + 8, PduReason::Length));
    }
    if read_short(order, head[10], head[11]) != 0 {
        return Err(bad(at + 10, PduReason::Auth));
    }
    let call = read_long(order, head[12], head[13], head[14], head[15]);
    if is_other_call(opening, call) {
        return Err(bad(at + 12, PduReason::OtherCall));
    }
    Ok(CommonFields {
        order,
        call,
        fragment_length,
        header_length,
        last: is_last(head[3]),
    })
}

// Checks the whole header, of which `rest` is what follows the common fields. `so_far` is how many octets of stub data came before. What the first
// fragment states, or the first check that fails.
pub(crate) fn check_whole_header(
    want: Wanted,
    opening: Option<Opening>,
    at: u32,
    so_far: usize,
    common: CommonFields,
    rest: &[u8],
) -> Result<Opening, PduFault>
    requires wide { 8 ≤ length rest.now }
    requires small { at < 2 ^ 32 - 23 }
    requires within { common.header_length ≤ common.fragment_length }
    requires room { so_far ≤ STREAM_LIMIT }
    ensures stated { IfOk result (IsStated opening (operation_in want (short_at common.order 6 rest.now)) common) }
    ensures passed { IfOk result (λ _. first_failing (rest_checks want opening at so_far common rest.now) ≡ None) }
    ensures refused { IfErr result (IsBadBy (first_failing (rest_checks want opening at so_far common rest.now))) }
{
    let opnum = operation(want, read_short(common.order, rest[6], rest[7]));
    if is_other_operation(opening, opnum) {
        return Err(bad(at + 22, PduReason::OtherOperation));
    }
    let part = common.fragment_length - common.header_length;
    if part == 0 && !common.last {
        return Err(bad(at + 8, PduReason::EmptyPiece));
    }
    if STREAM_LIMIT as usize - so_far < part as usize {
        return Err(bad(at + 8, PduReason::StubLong));
    }
    Ok(first_stated(
        opening,
        Opening {
            order: common.order,
            call: common.call,
            opnum,
        },
    ))
}

// What the first fragment states, which may be this one.
fn first_stated(opening: Option<Opening>, own: Opening) -> Opening
    ensures { result ≡ opened opening own }
{
    match opening {
        None => own,
        Some(first) => first,
    }
}

fn bad(place: u32, reason: PduReason) -> PduFault
    ensures { result ≡ PduFault.Bad place reason }
{
    PduFault::Bad { place, reason }
}

fn pdu_type(want: Wanted) -> u8
    ensures { result ≡ type_of want }
{
    match want {
        Wanted::Request => 0,
        Wanted::Response => 2,
    }
}

fn is_last(flags: u8) -> bool
    ensures { result ≡ has 2 flags }
{
    flags & 2 != 0
}

fn is_wrong_first(opening: Option<Opening>, flags: u8) -> bool
    ensures { result ≡ wrong_first opening (has 1 flags) }
{
    match opening {
        None => flags & 1 == 0,
        Some(_) => flags & 1 != 0,
    }
}

fn header_length(want: Wanted, flags: u8) -> u32
    ensures value { result ≡ header_by want (has 128 flags) }
    ensures least { 24 ≤ result }
    ensures most { result ≤ 40 }
{
    match want {
        Wanted::Request => if flags & 128 != 0 { 40 } else { 24 },
        Wanted::Response => 24,
    }
}

fn is_same_order(one: Order, other: Order) -> bool
    ensures { result ≡ same_order one other }
{
    match (one, other) {
        (Order::Big, Order::Big) => true,
        (Order::Little, Order::Little) => true,
        (Order::Big, Order::Little) => false,
        (Order::Little, Order::Big) => false,
    }
}

fn is_other_order(opening: Option<Opening>, order: Order) -> bool
    ensures { result ≡ other_order opening order }
{
    match opening {
        None => false,
        Some(first) => !is_same_order(first.order, order),
    }
}

fn is_other_call(opening: Option<Opening>, call: u32) -> bool
    ensures { result ≡ other_call opening call }
{
    match opening {
        None => false,
        Some(first) => first.call != call,
    }
}

fn is_other_operation(opening: Option<Opening>, opnum: Option<u16>) -> bool
    ensures { result ≡ other_operation opening opnum }
{
    match opening {
        None => false,
        Some(first) => match (first.opnum, opnum) {
            (Some(one), Some(other)) => one != other,
            _ => false,
        },
    }
}

fn operation(want: Wanted, number: u16) -> Option<u16>
    ensures { result ≡ operation_in want number }
{
    match want {
        Wanted::Request => Some(number),
        Wanted::Response => None,
    }
}

fn read_short(order: Order, a: u8, b: u8) -> u16
    ensures { result ≡ unsigned order (a ∷ b ∷ []) }
{
    match order {
        Order::Big => u16::from(a) * 256 + u16::from(b),
        Order::Little => u16::from(b) * 256 + u16::from(a),
    }
}

fn read_long(order: Order, a: u8, b: u8, c: u8, d: u8) -> u32
    ensures { result ≡ unsigned order (a ∷ b ∷ c ∷ d ∷ []) }
{
    match order {
        Order::Big => ((u32::from(a) * 256 + u32::from(b)) * 256 + u32::from(c)) * 256
            + u32::from(d),
        Order::Little => ((u32::from(d) * 256 + u32::from(c)) * 256 + u32::from(b)) * 256
            + u32::from(a),
    }
}
