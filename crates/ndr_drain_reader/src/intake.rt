// A stream that is read in parts.
ghost use Rattle.std.specs.Prelude.{◌≡◌, ◌≤◌, ◌<◌, ℕ, Some, length, option_map, IfOk, IfErr, IsErrOf, OnOk, OnErr, true};
ghost use Rattle.std.specs.List.{slice_get};
ghost use Rattle.nd_base.specs.Over.{source_over, HasRisen};
ghost use Rattle.nd_types.specs.declared.types.Operation.{Operation};
ghost use Rattle.nd_value.specs.Fitting.{setting_beside};
ghost use Rattle.nd_value.specs.Request.{IsRequestOf};
ghost use Rattle.ndr_decoder_state.specs.declared.fault.DecodeFault.TheVariants.{ReadFault};
ghost use Rattle.nd_grammar.specs.decoded.Verdict.{decoding_seen};
ghost use Rattle.ndr_drain_reader.specs.Calls.{HasBegun, HasHead, IsAnswered, IsChunkCause, IsHeadCause};
ghost use Rattle.ndr_drain_reader.specs.Ready.{IsAtHead, IsReady};
ghost use Rattle.ndr_drain_reader.specs.Seen.{intake_seen, is_failed, setting_in};
ghost use Rattle.ndr_drain_reader.specs.declared.intake.Phase.TheVariants as phase;

use crate::DecodeFault;
use crate::beginning::begin_intake;
use crate::chunk::read_chunk;
use crate::head::read_head;
use nd_base::{Intake as Buffer, Ledger, Memory, Order, Source, Steps};
use nd_flat::{Builder, Fit};
use nd_types::Side;
use nd_value::{ItemLog, Vals};
use ndr_code::Plan;
use ndr_decode::Decoded;
use std::alloc::Global;

/// Which call of an intake may come next.
#[derive(Clone, Copy, Debug, PartialEq, Eq)]
pub enum Phase {
    /// `head`.
    Begun,
    /// `chunk`, as long as a pipe is left, then `finish`.
    Reading,
    /// None: a call answered a fault.
    Failed,
}

/// A stream of a side of an operation that is read in parts: its head, which is the roots that are no pipes with their referents, and the agreements
/// of the parameters; and then its pipes, chunk by chunk (C706, chapter 14). It keeps a graph whose pipes have no elements, and one chunk at a time.
#[derive(Drop)]
pub struct Intake<'p> {
    pub(crate) plan: &'p Plan,
    pub(crate) alloc: Global,
    pub(crate) op: u32,
    pub(crate) side: Side,
    pub(crate) order: Order,
    pub(crate) phase: Phase,
    // the graph that is kept
    pub(crate) kept: Builder,
    pub(crate) buffer: Buffer,
    // the place in the stream, the number of the root whose pipe is next, and of its next node
    pub(crate) at: u32,
    pub(crate) root: u32,
    pub(crate) node: u32,
    // how many pipes are left, and the line of the next in the plan
    pub(crate) left: u32,
    pub(crate) line: usize,
}

impl<'p> Intake<'p> {
    /// Begins to read a stream of a side of an operation of the plan, from its beginning. Nothing is read yet. `op` must be the number of an
    /// operation of the plan. It takes memory for a buffer; running out of memory is the only refusal.
    pub fn begin(
        alloc: Global,
        plan: &'p Plan,
        op: u32,
        side: Side,
        order: Order,
    ) -> Result<Intake<'p>, Memory>
        requires known { op < length plan.now.tie.operations }
        ensures begun { IfOk result
            (λ i. (o : Operation) → slice_get plan.now.tie.operations op ≡ Some o → HasBegun plan.now.tie op o side order (intake_seen i)) }
        ensures ready { IfOk result IsAtHead }
    {
        begin_intake(alloc, plan, op, side, order)
    }

    /// Reads the head of the stream from the octets that a source has left. It must be the first call, and is called once. A request that is given
    /// beside a response must be one of the same operation and interface: then attributes whose variable travels in the request alone are checked
    /// against it.
    ///
    /// At `Ok` the octets taken are the head of a stream of the graph that is kept, which conforms, has no elements in its pipes, and is in its
    /// canonical form. The log and the steps are as `decode` leaves them after the head.
    ///
    /// At `Bad` the octets are refused in the head, at the first faulty place, for the one reason that applies there, as `decode` refuses them: the
    /// refused item, or agreement, comes before the pipes. `ReadFault` is answered only if the source's count of faults rose, or is at the greatest
    /// value of a `u64`; then the next item of the head lacks octets. Whatever the fault, only items before the pipes were read. After a fault the
    /// intake has failed, and no call but `pipes_left` and
    /// `failed` may come.
    ///
    /// Octets are asked for only once the value must have them. The time is linear in the octets fetched. It takes memory for what was read,
    /// never for what a count claims.
    pub fn head<S: Source, L: Ledger>(
        &mut self,
        given: Option<&Fit>,
        source: &mut S,
        items: &mut ItemLog,
        steps: &mut Steps<L>,
    ) -> Result<(), DecodeFault>
        requires begun { (intake_seen self.old).phase ≡ phase.Begun }
        requires ready { IsAtHead self.old }
        requires request { IsRequestOf (intake_seen self.old).interface (intake_seen self.old).op (intake_seen self.old).side
            (option_map (λ f. f.now) given) }
        ensures read { OnOk result ((o : Operation) → slice_get (intake_seen self.old).interface.operations (intake_seen self.old).op ≡ Some o
            → HasHead (setting_beside (intake_seen self.old).interface o (intake_seen self.old).side (option_map (λ f. f.now.graph) given.entry))
            (source_over S.Source.seen source.old source.new)
            (decoding_seen items.old items.new (L.number steps.old) (L.number steps.new))
            (intake_seen self.old) (intake_seen self.new)) }
        ensures beside { OnOk result ((intake_seen self.new).given ≡ option_map (λ f. f.now.graph) given.entry) }
        ensures ready { OnOk result (IsReady self.new) }
        ensures failed { OnErr result (is_failed self.new ≡ true) }
        ensures none_left { OnErr result ((intake_seen self.new).left ≡ 0) }
        ensures cause { IfErr result (λ e. (o : Operation) → slice_get (intake_seen self.old).interface.operations (intake_seen self.old).op ≡ Some o
            → IsHeadCause (setting_beside (intake_seen self.old).interface o (intake_seen self.old).side (option_map (λ f. f.now.graph) given.entry))
            (intake_seen self.old).order
            (source_over S.Source.seen source.old source.new)
            (decoding_seen items.old items.new (L.number steps.old) (L.number steps.new)) e) }
        ensures read_fault { IsErrOf result ReadFault → HasRisen (source_over S.Source.seen source.old source.new).faults }
        ensures later { (S.Source.seen source.old).faults ≤ (S.Source.seen source.new).faults }
    {
        match read_head(self, given, source, items, steps) {
            Ok(()) => Ok(()),
            Err(fault) => {
                self.fail();
                Err(fault)
            }
        }
    }

    /// Reads one whole chunk of the pipe that is next, and answers its elements; None at the end of the pipe, after which the next pipe is due. The
    /// head must have been read, a pipe be left, and no call have answered a fault.
    ///
    /// At `Ok` the octets taken, from the place that was reached, are the gap, the count and the elements, which conform; at None the count is 0. The
    /// log gets the chunk's items, the nodes of its elements after those of the chunks before; each item but the gaps is a step.
    ///
    /// At `Bad` the octets are refused in the chunk, at the first faulty place, for the one reason that applies there. `ReadFault` is answered only
    /// if the source's count of faults rose, or is at the greatest value of a `u64`; then the chunk is not whole, as its next item lacks octets.
    /// After a fault the intake has failed, and no call but `pipes_left` and `failed` may come.
    ///
    /// Octets are asked for only once the value must have them. The time is linear in the octets fetched. It takes memory for the chunk, never
    /// for what a count claims.
    pub fn chunk<S: Source, L: Ledger>(
        &mut self,
        source: &mut S,
        items: &mut ItemLog,
        steps: &mut Steps<L>,
    ) -> Result<Option<Vals>, DecodeFault>
        requires reading { (intake_seen self.old).phase ≡ phase.Reading }
        requires ready { IsReady self.old }
        requires pipe { 0 < (intake_seen self.old).left }
        ensures read { IfOk result (λ vals. (o : Operation) → slice_get (intake_seen self.old).interface.operations (intake_seen self.old).op ≡ Some o
            → IsAnswered (setting_in (intake_seen self.old) o) (source_over S.Source.seen source.old source.new)
            (decoding_seen items.old items.new (L.number steps.old) (L.number steps.new)) (intake_seen self.old) (intake_seen self.new) vals) }
        ensures ready { OnOk result (IsReady self.new) }
        ensures failed { OnErr result (is_failed self.new ≡ true) }
        ensures none_left { OnErr result ((intake_seen self.new).left ≡ 0) }
        ensures cause { IfErr result (λ e. (o : Operation) → slice_get (intake_seen self.old).interface.operations (intake_seen self.old).op ≡ Some o
            → IsChunkCause (setting_in (intake_seen self.old) o) (intake_seen self.old)
            (source_over S.Source.seen source.old source.new)
            (decoding_seen items.old items.new (L.number steps.old) (L.number steps.new)) e) }
        ensures read_fault { IsErrOf result ReadFault → HasRisen (source_over S.Source.seen source.old source.new).faults }
        ensures later { (S.Source.seen source.old).faults ≤ (S.Source.seen source.new).faults }
    {
        match read_chunk(self, source, items, steps) {
            Ok(vals) => Ok(vals),
            Err(fault) => {
                self.fail();
                Err(fault)
            }
        }
    }

    /// The number of pipes of the side whose end was not read; 0 after a fault. Takes no memory.
    pub fn pipes_left(&self) -> u32
        ensures { result ≡ (intake_seen self.now).left }
    {
        self.left
    }

    /// Whether a call has answered a fault. Takes no memory.
    pub fn failed(&self) -> bool
        ensures { result ≡ is_failed self.now }
    {
        match self.phase {
            Phase::Failed => true,
            Phase::Begun | Phase::Reading => false,
        }
    }

    /// The graph that was kept, whose pipes have no elements, as a fit, and the number of octets that were taken. The head must have been read, no
    /// pipe be left, and no call have answered a fault. Takes no memory.
    pub fn finish(self) -> Decoded
        requires reading { (intake_seen self).phase ≡ phase.Reading }
        requires ready { IsReady self }
        requires none_left { (intake_seen self).left ≡ 0 }
        ensures graph { result.fit.graph ≡ (intake_seen self.entry).graph }
        ensures of { (result.fit.op ≡ (intake_seen self.entry).op) × (result.fit.side ≡ (intake_seen self.entry).side)
            × (result.fit.interface ≡ (intake_seen self.entry).interface) }
        ensures beside { result.fit.given ≡ (intake_seen self.entry).given }
        ensures taken { result.taken ≡ (intake_seen self.entry).spot.place }
    {
        let Intake { kept, at, .. } = self;
        Decoded {
            fit: kept.finish(),
            taken: at,
        }
    }

    // A call answers a fault.
    fn fail(&mut self)
        ensures failed { is_failed self.new ≡ true }
        ensures none_left { (intake_seen self.new).left ≡ 0 }
    {
        self.phase = Phase::Failed;
        self.left = 0;
    }
}
