// The fragments of a source are joined, and the text of the values of their stub data is printed.
ghost use Rattle.std.specs.Prelude.{◌≡◌, ◌≤◌, ◌<◌, [], ◌∷◌, ◌++◌, length, Some, None, codes, decimal, IfOk, IfErr, IfSome};
ghost use Rattle.std.specs.List.{slice_get};
ghost use Rattle.nd_base.specs.Over.{source_over};
ghost use Rattle.nd_base.specs.Text.{joined as joined_text};
ghost use Rattle.nd_types.specs.declared.types.Operation.{Operation};
ghost use Rattle.nd_value.specs.Fitting.{setting_of};
ghost use Rattle.rpc_pdu.specs.declared.pdu.Wanted.TheVariants.{Request};
ghost use Rattle.rpc_pdu.specs.Fragments.{HasNumber, IsJoined};
ghost use Rattle.command_decode.specs.Decoded.{IsDecoding};
ghost use Rattle.command_call.specs.Called.{IsCalled, IsCallCause, IsUnjoined, IsEnd, IsNoEnd, IsNoNumber, IsStubCause};
ghost use Rattle.command_call.specs.Called.{wanted as wanted_by, side as side_by, number as number_by, call_line};

use command_decode::print_octets;
use command_refusals::{FragmentsFault, Refusal};
use itoa::Buffer;
use nd_base::text::join as join_text;
use nd_base::{Memory, Octets, Order, PlainSource, Source};
use nd_types::{Interface, Side};
use rpc_pdu::{Joined, PduFault, Wanted, join};
use std::alloc::Global;

/// The line `call` with the call id, and the text of the values of the stub data of a source's fragments (C706 section 12.6): those of a response to
/// the operation of number `op`, or of a request, which states the number of its operation, if `op` is None.
///
/// The source is asked for no octet past the last fragment but one, which tells whether the fragments end it.
///
/// # Errors
/// BadPdu, if the octets are not the fragments of one such call, if an octet follows the last one, or if the interface has no operation of the
/// number that a request states, in this order. BadOctets, the first place in the stub data at which they are refused. ReadFault, if the source
/// failed, and the octets before it are not refused. Memory if memory ran out.
///
/// Takes memory for the stub data, for the plan of the interface, the values and the text. The time is in proportion to these and the octets.
pub fn print_call<S: Source>(
    alloc: Global,
    interface: &Interface,
    op: Option<u32>,
    input: &mut S,
) -> Result<Octets, Refusal>
    requires known { IfSome op (λ n. n < length interface.now.operations) }
    ensures printed { IfOk result (IsCalled (source_over S.seen input.old input.new) interface.now op) }
    ensures refused { IfErr result (IsCallCause (source_over S.seen input.old input.new) interface.now op) }
{
    let joined = joined_fragments(alloc, op, input)?;
    end(input, joined.taken)?;
    let number = operation_number(interface, op, joined.opnum)?;
    let call = joined.call;
    let text = print_stub(alloc, interface, number, op, joined.order, joined.stub)?;
    Ok(with_call_line(alloc, call, text.as_slice())?)
}

// Which PDUs are read.
fn wanted(op: Option<u32>) -> Wanted
    ensures { result ≡ wanted_by op }
{
    match op {
        None => Wanted::Request,
        Some(_) => Wanted::Response,
    }
}

// The side of their values.
fn side(op: Option<u32>) -> Side
    ensures { result ≡ side_by op }
{
    match op {
        None => Side::In,
        Some(_) => Side::Out,
    }
}

// The fragments of a source, joined.
fn joined_fragments<S: Source>(
    alloc: Global,
    op: Option<u32>,
    input: &mut S,
) -> Result<Joined, Refusal>
    ensures number { IfOk result (λ j. HasNumber (wanted_by op) j.opnum) }
    ensures joined { IfOk result (IsJoined (wanted_by op) (source_over S.seen input.old input.new)) }
    ensures refused { IfErr result (IsUnjoined (wanted_by op) (source_over S.seen input.old input.new)) }
    ensures later { (S.seen input.old).faults ≤ (S.seen input.new).faults }
{
    match join(alloc, wanted(op), input) {
        Ok(joined) => Ok(joined),
        Err(PduFault::Memory) => Err(Refusal::Memory),
        Err(PduFault::ReadFault) => Err(Refusal::ReadFault),
        Err(PduFault::Bad { place, reason }) => Err(Refusal::BadPdu {
            place,
            why: FragmentsFault::Refused(reason),
        }),
    }
}

// The end of a source, after so many octets.
fn end<S: Source>(input: &mut S, taken: u32) -> Result<(), Refusal>
    ensures ended { IfOk result (λ _. IsEnd (source_over S.seen input.old input.new)) }
    ensures refused { IfErr result (IsNoEnd (source_over S.seen input.old input.new) taken) }
{
    let mut next = [0u8];
    match input.fetch(&mut next) {
        Ok(0) => Ok(()),
        Ok(_) => Err(Refusal::BadPdu {
            place: taken,
            why: FragmentsFault::Trailing,
        }),
        Err(_) => Err(Refusal::ReadFault),
    }
}

// The number of the operation: a request states it.
fn operation_number(
    interface: &Interface,
    op: Option<u32>,
    stated: Option<u16>,
) -> Result<u32, Refusal>
    requires known { IfSome op (λ n. n < length interface.now.operations) }
    requires stated { HasNumber (wanted_by op) stated }
    ensures number { IfOk result (λ n. number_by op stated ≡ Some n) }
    ensures known { IfOk result (λ n. n < length interface.now.operations) }
    ensures refused { IfErr result (IsNoNumber interface.now stated) }
{
    match op {
        Some(number) => Ok(number),
        None => stated_number(interface, stated),
    }
}

// The number of the operation that a request states.
fn stated_number(interface: &Interface, stated: Option<u16>) -> Result<u32, Refusal>
    requires stated { HasNumber Request stated }
    ensures number { IfOk result (λ n. stated ≡ Some n) }
    ensures known { IfOk result (λ n. n < length interface.now.operations) }
    ensures refused { IfErr result (IsNoNumber interface.now stated) }
{
    let Some(number) = stated else {
        unreachable!();
    };
    if usize::from(number) < interface.operations.len() {
        Ok(u32::from(number))
    } else {
        Err(Refusal::BadPdu {
            place: 22,
            why: FragmentsFault::NoOperation(number),
        })
    }
}

// The text of the values of stub data.
fn print_stub(
    alloc: Global,
    interface: &Interface,
    number: u32,
    op: Option<u32>,
    order: Order,
    stub: Octets,
) -> Result<Octets, Refusal>
    requires known { number < length interface.now.operations }
    ensures printed { (o : Operation) → slice_get interface.now.operations number ≡ Some o
        → IfOk result (IsDecoding (setting_of interface.now o (side_by op)) order stub) }
    ensures refused { (o : Operation) → slice_get interface.now.operations number ≡ Some o
        → IfErr result (IsStubCause stub (setting_of interface.now o (side_by op)) order) }
{
    let mut source = PlainSource::new(stub);
    print_octets(alloc, interface, number, side(op), None, order, &mut source)
}

// The line of a call id, and a text.
fn with_call_line(alloc: Global, call: u32, text: &[u8]) -> Result<Octets, Memory>
    ensures { IfOk result (λ made. made ≡ call_line call ++ text.now) }
{
    let mut digits = Buffer::new();
    let mut made = join_text(alloc, &[b"call ", digits.format(call).as_bytes(), b"\n"])?;
    made.append(text)?;
    Ok(made)
}
