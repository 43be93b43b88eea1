// Decoding of a side of an operation.
ghost use Rattle.std.specs.Prelude.{◌≡◌, ℕ, ◌+◌, ◌≤◌, ◌<◌, [], Some, length, option_map, IfOk, IfErr, IsErrOf, OnOk};
ghost use Rattle.std.specs.List.{slice_get};
ghost use Rattle.nd_base.specs.Over.{source_over, HasRisen};
ghost use Rattle.nd_types.specs.declared.types.Operation.{Operation};
ghost use Rattle.nd_value.specs.Fitting.{IsFit, setting_beside};
ghost use Rattle.nd_value.specs.Request.{IsRequestOf};
ghost use Rattle.nd_value.specs.Setting.{Setting};
ghost use Rattle.nd_flat.specs.Building.{CanClose, fitting};
ghost use Rattle.nd_grammar.specs.LegalSide.{IsLegalSide};
ghost use Rattle.ndr_decoder_state.specs.declared.fault.DecodeFault.TheVariants.{ReadFault};
ghost use Rattle.nd_grammar.specs.decoded.Verdict.{IsDecoded, decoding_seen};
ghost use Rattle.ndr_decoder_laws.specs.stream.Between.{Begins};
ghost use Rattle.ndr_decoder_stream.specs.Seen.{between_of};
ghost use Rattle.ndr_decode.specs.Decoding.{IsFault, IsInOrder};
ghost use Rattle.ndr_decode.specs.Piping.{EndComes};
ghost use Rattle.ndr_decode.specs.Streaming.{IsSettingOf, cells_of, purpose_of};

use crate::chunks::read_pipes;
use crate::roots::read_roots;
use crate::try_parameters;
use nd_base::{Intake, Ledger, Order, Source, Steps};
use nd_flat::{Builder, Fit, Given};
use nd_types::Side;
use nd_value::ItemLog;
use ndr_code::Plan;
use ndr_decoder_state::{DecodeFault, Machine};
use ndr_decoder_stream::Stream;
use std::alloc::Global;

/// What a stream was decoded to.
#[derive(Drop)]
pub struct Decoded {
    /// The graph of the values, in its canonical form. It conforms to the side of the operation, beside the request that was given, if any.
    pub fit: Fit,
    /// How many octets of the source the values took, with the gaps between them.
    pub taken: u32,
}

/// Decodes the values of a side of an operation from the octets that a source has left, which begin at the beginning of the stream (C706,
/// chapter 14): the roots in order with the referents of their pointers, the agreements of the parameters, the pipes.
///
/// `op` must be the number of an operation of the plan. A request that is given beside a response must be one of the same operation and interface:
/// then attributes of the response whose variable travels in the request alone are checked against it; without one the counts are taken as read.
///
/// At `Ok` the octets taken represent the graph, which conforms and is in its canonical form. It is the only conforming graph that they represent,
/// up to the numbers of cells, and no shorter part of them represents one. The source has the octets after them left.
///
/// At `Bad` the octets are refused at the first faulty place, for the one reason that applies there; no octets that begin with those fetched
/// represent a conforming graph, except at `Truncated`, where the source has ended. The octets fetched end with the item that is refused; at
/// `TooLong` where that item would begin, at a failed agreement with the last item before it. The item is one of a partial graph whose cells are
/// numbered in the order in which its stream comes to them. `ReadFault` is answered only if the source's count of faults rose, or is at the greatest
/// value of a `u64`; then the octets fetched are cut short where they end, as the next item lacks some of its own.
///
/// A log that keeps items gets each item as soon as it is whole and not refused. At `Ok` `steps` has risen by one for each of these except the gaps,
/// and for each cell; at a fault by no more than that, and never by more than the octets fetched and the roots, whatever counts the octets state.
///
/// Octets are asked for only once the value must have them. The time is linear in the octets fetched. It takes memory for what was read, never for
/// what a count claims; after `Memory` the log is as after some item, `steps` has risen by at most what was read, and a few octets more may have been
/// taken.
pub fn decode<S: Source, L: Ledger>(
    alloc: Global,
    plan: &Plan,
    op: u32,
    side: Side,
    order: Order,
    given: Option<&Fit>,
    source: &mut S,
    items: &mut ItemLog,
    steps: &mut Steps<L>,
) -> Result<Decoded, DecodeFault>
    requires known { op < length plan.now.tie.operations }
    requires request { IsRequestOf plan.now.tie op side (option_map (λ f. f.now) given) }
    ensures decoded { IfOk result (λ d. (o : Operation) → slice_get plan.now.tie.operations op ≡ Some o
        → IsDecoded (setting_beside plan.now.tie o side (option_map (λ f. f.now.graph) given.entry)) order
        (source_over S.Source.seen source.old source.new) d.taken d.fit.graph
        (decoding_seen items.old items.new (L.number steps.old) (L.number steps.new))) }
    ensures of { IfOk result (λ d. (d.fit.op ≡ op) × (d.fit.side ≡ side) × (d.fit.interface ≡ plan.now.tie)) }
    ensures beside { IfOk result (λ d. d.fit.given ≡ option_map (λ f. f.now.graph) given.entry) }
    ensures fault { IfErr result (λ e. (o : Operation) → slice_get plan.now.tie.operations op ≡ Some o
        → IsFault (setting_beside plan.now.tie o side (option_map (λ f. f.now.graph) given.entry)) order
        (source_over S.Source.seen source.old source.new) e
        (decoding_seen items.old items.new (L.number steps.old) (L.number steps.new))) }
    ensures in_order { IfErr result (λ e. (o : Operation) → slice_get plan.now.tie.operations op ≡ Some o
        → IsInOrder (setting_beside plan.now.tie o side (option_map (λ f. f.now.graph) given.entry)) order
        (source_over S.Source.seen source.old source.new) e
        (decoding_seen items.old items.new (L.number steps.old) (L.number steps.new))) }
    ensures read_fault { IsErrOf result ReadFault → HasRisen (source_over S.Source.seen source.old source.new).faults }
    ensures later { (S.Source.seen source.old).faults ≤ (S.Source.seen source.new).faults }
{
    // A request conforms to the inputs of the operation.
    let _request = Given::beside(given);
    let builder = Builder::begin(alloc, plan.tie.again(), op, side, given);
    let mut stream = Stream::begin(alloc, builder);
    let mut intake = Intake::new(alloc)?;
    read_side(
        plan,
        op,
        side,
        order,
        given,
        &mut stream,
        &mut intake,
        source,
        items,
        steps,
    )?;
    Ok(finish(stream))
}

// Reads a side from the beginning of its stream to the end: its roots with their referents, the agreements of its parameters, its pipes.
fn read_side<S: Source, L: Ledger>(
    plan: &Plan,
    op: u32,
    side: Side,
    order: Order,
    given: Option<&Fit>,
    stream: &mut Stream,
    intake: &mut Intake,
    source: &mut S,
    items: &mut ItemLog,
    steps: &mut Steps<L>,
) -> Result<(), DecodeFault>
    requires known { op < length plan.now.tie.operations }
    requires begins { Begins (between_of stream.old) }
    requires whole { CanClose stream.old.machine.builder }
    ensures reads { (w : Setting) → IsLegalSide w → IsSettingOf plan.now op side w → w.given ≡ option_map (λ f. f.now.graph) given.entry
        → EndComes w order [] [] (cells_of stream.old) (source_over S.Source.seen source.old source.new)
        (decoding_seen items.old items.new (L.number steps.old) (L.number steps.new)) stream.new result }
    ensures same { OnOk result (purpose_of stream.new ≡ purpose_of stream.old) }
    ensures later { (S.Source.seen source.old).faults ≤ (S.Source.seen source.new).faults }
{
    let found = read_roots(plan, op, side, order, stream, intake, source, items, steps)?;
    let checks = found.checks as usize;
    try_parameters(plan.code.as_slice(), checks, stream, given)?;
    let line = found.line;
    read_pipes(
        plan, op, side, order, line, stream, intake, source, items, steps,
    )
}

// The graph as a fit, and the octets that it took.
fn finish(stream: Stream) -> Decoded
    requires whole { CanClose stream.machine.builder }
    requires fits { IsFit (fitting stream.machine.builder) }
    ensures fit { result.fit ≡ fitting stream.machine.builder }
    ensures taken { result.taken ≡ stream.machine.at }
{
    let Stream {
        machine,
        wanted: _wanted,
        todo: _todo,
        roots: _roots,
        cells: _cells,
    } = stream;
    let taken = machine.at;
    let Machine { builder, .. } = machine;
    Decoded {
        fit: builder.finish(),
        taken,
    }
}
