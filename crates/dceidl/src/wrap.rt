// The text of the input is encoded, and the octets of its values are written as the stub data of fragments.
ghost use Rattle.std.specs.Prelude.{◌≡◌, ◌≤◌, ◌<◌, ◌^◌, length, Some, IfOk, IfErr};
ghost use Rattle.nd_base.specs.Over.{files_over, source_over};
ghost use Rattle.nd_base.specs.declared.TheConstants.{STREAM_LIMIT};
ghost use Rattle.command_compile.specs.Compiled.{AsksFiles};
ghost use Rattle.command_line.specs.Commands.{subject_of};
ghost use Rattle.command_line.specs.declared.TheConstants.{LEAST_MAX};
ghost use Rattle.rpc_pdu.specs.Fragments.{Pieces};
ghost use Rattle.dceidl.specs.Input.{IsWrapped, IsNoWrap, head_for};

use crate::WRAP_CHUNK;
use crate::perform::encode_input;
use crate::ready::make_ready;
use command_line::{OrderWord, Subject};
use command_refusals::Refusal;
use nd_base::{Files, Memory, Octets, Order, Source};
use nd_types::Side;
use rpc_pdu::{Head, split};
use std::alloc::Global;

// Loads and reads the files, encodes the text of the input, and makes the fragments with these stub data.
pub(crate) fn wrap<F: Files, S: Source>(
    alloc: Global,
    of: Subject<'_>,
    order: Order,
    call: u32,
    max: u16,
    files: &mut F,
    input: &mut S,
) -> Result<Octets, Refusal>
    requires { LEAST_MAX ≤ max }
    ensures asked { AsksFiles (files_over F.seen files.old files.new)
        (Some (record { idl = (subject_of of.entry).idl; acf = (subject_of of.entry).acf })) }
    ensures done { IfOk result (IsWrapped (files_over F.seen files.old files.new)
        (source_over S.seen input.old input.new) (subject_of of.entry) order call max) }
    ensures refused { IfErr result (IsNoWrap (files_over F.seen files.old files.new)
        (source_over S.seen input.old input.new) (subject_of of.entry)) }
{
    let ready = make_ready(alloc, of, files)?;
    let stub = encode_input(
        alloc,
        &ready,
        None,
        OrderWord::Fixed(order),
        WRAP_CHUNK,
        input,
    )?;
    let octets = fragments(
        alloc,
        order,
        ready.side,
        ready.number,
        call,
        max,
        stub.as_slice(),
    )?;
    Ok(octets)
}

// The fragments of these stub data, of a request to the operation of this number or of a response.
fn fragments(
    alloc: Global,
    order: Order,
    side: Side,
    number: u32,
    call: u32,
    max: u16,
    stub: &[u8],
) -> Result<Octets, Memory>
    requires few { number < 2 ^ 16 }
    requires wide { 1024 ≤ max }
    requires room { length stub.now ≤ STREAM_LIMIT }
    ensures { IfOk result (λ octets. octets ≡ Pieces order (head_for side number) call max stub.now) }
{
    split(alloc, order, head(side, number), call, max, stub)
}

// What the fragments are of: inputs are of a request, and outputs of a response.
fn head(side: Side, number: u32) -> Head
    requires { number < 2 ^ 16 }
    ensures { result ≡ head_for side number }
{
    match side {
        Side::In => Head::Request {
            opnum: number as u16,
        },
        Side::Out => Head::Response,
    }
}
