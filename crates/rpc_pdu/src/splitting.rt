// Stub data are split into fragments.
ghost use Rattle.std.specs.Prelude.{◌≡◌, ℕ, ◌+◌, ◌*◌, ◌≤◌, ◌<◌, ◌^◌, [], ◌∷◌, ◌++◌, length, take, drop, IfOk, OnOk, OnErr};
ghost use Rattle.nd_base.specs.declared.TheConstants.{STREAM_LIMIT};
ghost use Rattle.nd_types.specs.Number.{spelling};
ghost use Rattle.rpc_pdu.specs.Checks.{type_of};
ghost use Rattle.rpc_pdu.specs.Fragments.{Fragments, Pieces, want_of, opnum_of, HeadFits, flags_for, head_octets, label_octets, header, fragment};

use crate::pdu::Head;
use nd_base::{Memory, Octets, Order};
use std::alloc::Global;

/// Splits stub data into the fragments of a call (C706 sections 12.6.4.9 and 12.6.4.10), each but the last of `max` octets; empty stub data are one
/// fragment. The header of each has 24 octets: the flags state the first and the last, the allocation hint is how many octets all the stub data
/// have, and the minor version, the authentication length, the context id, the cancel count and the reserved octet are 0.
///
/// It takes memory for the fragments, all at once if there is as much, and running out of memory is the only refusal.
pub fn split(
    alloc: Global,
    order: Order,
    head: Head,
    call: u32,
    max: u16,
    stub: &[u8],
) -> Result<Octets, Memory>
    requires wide { 1024 ≤ max }
    requires room { length stub.now ≤ STREAM_LIMIT }
    ensures pieces { IfOk result (λ octets. octets ≡ Pieces order head call max stub.now) }
    ensures call { IfOk result (λ octets. Fragments octets (want_of head) order call (opnum_of head) stub.now) }
{
    let size = max as usize - 24;
    let hint = stub.len() as u32;
    let mut made = Octets::new(alloc);
    made.make_room(stub.len() + 24 * (stub.len() / size + 1));
    let mut first = true;
    let mut rest = stub;
    while rest.len() > size {
        let part = front(rest, size);
        add_fragment(&mut made, order, head, call, hint, first, false, part)?;
        rest = after_front(rest, size);
        first = false;
    }
    add_fragment(&mut made, order, head, call, hint, first, true, rest)?;
    Ok(made)
}

// The first octets, so many.
fn front(octets: &[u8], count: usize) -> &[u8]
    requires { count ≤ length octets.now }
    ensures { result.now ≡ take count octets.now }
{
    &octets[..count]
}

// The octets after the first, so many.
fn after_front(octets: &[u8], count: usize) -> &[u8]
    requires { count ≤ length octets.now }
    ensures { result.now ≡ drop count octets.now }
{
    &octets[count..]
}

// Adds one fragment.
fn add_fragment(
    made: &mut Octets,
    order: Order,
    head: Head,
    call: u32,
    hint: u32,
    first: bool,
    last: bool,
    part: &[u8],
) -> Result<(), Memory>
    requires fits { 24 + length part.now < 2 ^ 16 }
    ensures ok { OnOk result (made.new ≡ made.old ++ fragment order head call hint first last part.now) }
    ensures fits { HeadFits head }
{
    let octets = header_octets(
        order,
        head,
        call,
        flags(first, last),
        (24 + part.len()) as u16,
        hint,
    );
    made.append(&octets)?;
    made.append(part)?;
    Ok(())
}

// The flags of a fragment.
fn flags(first: bool, last: bool) -> u8
    ensures { result ≡ flags_for first last }
{
    match (first, last) {
        (true, true) => 3,
        (true, false) => 1,
        (false, true) => 2,
        (false, false) => 0,
    }
}

// The header of a fragment.
fn header_octets(order: Order, head: Head, call: u32, flags: u8, wide: u16, hint: u32) -> [u8; 24]
    ensures octets { result ≡ header order head call flags wide hint }
    ensures fits { HeadFits head }
{
    let wide = short_octets(order, wide);
    let call = long_octets(order, call);
    let hint = long_octets(order, hint);
    let number = number_octets(order, head);
    [
        5,
        0,
        pdu_type(head),
        flags,
        label(order),
        0,
        0,
        0,
        wide[0],
        wide[1],
        0,
        0,
        call[0],
        call[1],
        call[2],
        call[3],
        hint[0],
        hint[1],
        hint[2],
        hint[3],
        0,
        0,
        number[0],
        number[1],
    ]
}

// The type of a PDU.
fn pdu_type(head: Head) -> u8
    ensures { result ≡ type_of (want_of head) }
{
    match head {
        Head::Request { .. } => 0,
        Head::Response => 2,
    }
}

// The first octet of a format label.
fn label(order: Order) -> u8
    ensures { label_octets order ≡ result ∷ 0 ∷ 0 ∷ 0 ∷ [] }
{
    match order {
        Order::Big => 0,
        Order::Little => 16,
    }
}

// The operation number of a request; the cancel count and the reserved octet of a response.
fn number_octets(order: Order, head: Head) -> [u8; 2]
    ensures octets { result ≡ head_octets order head }
    ensures fits { HeadFits head }
{
    match head {
        Head::Request { opnum } => short_octets(order, opnum),
        Head::Response => [0, 0],
    }
}

// The two octets of an unsigned short.
fn short_octets(order: Order, number: u16) -> [u8; 2]
    ensures { result ≡ spelling order 2 number }
{
    let low = (number % 256) as u8;
    let high = (number / 256 % 256) as u8;
    match order {
        Order::Big => [high, low],
        Order::Little => [low, high],
    }
}

// The four octets of an unsigned long.
fn long_octets(order: Order, number: u32) -> [u8; 4]
    ensures { result ≡ spelling order 4 number }
{
    let a = (number % 256) as u8;
    let b = (number / 256 % 256) as u8;
    let c = (number / 256 / 256 % 256) as u8;
    let d = (number / 256 / 256 / 256 % 256) as u8;
    match order {
        Order::Big => [d, c, b, a],
        Order::Little => [a, b, c, d],
    }
}
