// Nodes of the value that is being read.
ghost use Rattle.std.specs.Prelude.{◌≡◌, ◌<◌, ◌+◌, ◌^◌, ◌++◌, ◌∷◌, [], length, OnOk, IfErr};
ghost use Rattle.nd_flat.specs.FlatForm.{flat_seen, IsKeepable, text_of};
ghost use Rattle.ndr_decoder_laws.specs.steps.Steps.{first_of, with_node};
ghost use Rattle.ndr_decoder_state.specs.Seen.{state_of, outside};
ghost use Rattle.ndr_decoder_state.specs.declared.fault.DecodeFault.TheVariants as fault;

use crate::{DecodeFault, Machine};
use nd_base::{Memory, push};
use nd_flat::Seen;
use ndr_decoder_laws::{First, Frame};

impl Machine {
    /// Adds a node. `place` is where its actual count or its tag is in the stream, if it has one. A number or tag must be from -2^64 to 2^64 - 1, and
    /// a text have fewer than 2^32 octets with its terminator. It takes memory, and out of memory is the only refusal; then nothing is known of the
    /// machine.
    #[inline(always)]
    pub fn add(&mut self, node: &Seen<'_>, place: Option<u32>) -> Result<(), DecodeFault>
        requires keepable { IsKeepable (flat_seen node.now).0 }
        requires short { length (text_of (flat_seen node.now).0) + 1 < 2 ^ 32 }
        requires few { self.old.count + 1 < 2 ^ 32 }
        ensures ok { OnOk result (state_of self.new ≡ with_node (flat_seen node.now) place (state_of self.old)) }
        ensures count { OnOk result (self.new.count ≡ self.old.count + 1) }
        ensures outside { OnOk result (outside self.new ≡ outside self.old) }
        ensures memory { IfErr result (λ e. e ≡ fault.Memory) }
    {
        self.add_node(node, place)?;
        Ok(())
    }

    /// The same for callers that know no other fault.
    #[inline(always)]
    pub fn add_node(&mut self, node: &Seen<'_>, place: Option<u32>) -> Result<(), Memory>
        requires keepable { IsKeepable (flat_seen node.now).0 }
        requires short { length (text_of (flat_seen node.now).0) + 1 < 2 ^ 32 }
        requires few { self.old.count + 1 < 2 ^ 32 }
        ensures ok { OnOk result (state_of self.new ≡ with_node (flat_seen node.now) place (state_of self.old)) }
        ensures count { OnOk result (self.new.count ≡ self.old.count + 1) }
        ensures outside { OnOk result (outside self.new ≡ outside self.old) }
    {
        let first = first_seen(node, place);
        self.builder.add(node)?;
        self.count += 1;
        self.keep_first(first)
    }

    // Keeps what agreements find in the node that was added, if it is the first of the home or of a member.
    #[inline(always)]
    fn keep_first(&mut self, first: First) -> Result<(), Memory>
        requires small { IsSmall first }
        ensures ok { OnOk result (state_of self.new ≡ kept first (state_of self.old)) }
        ensures count { self.new.count ≡ self.old.count }
        ensures outside { OnOk result (outside self.new ≡ outside self.old) }
    {
        match self.top {
            Frame::Home => {
                self.own = Some(first);
                Ok(())
            }
            Frame::Record { back: _, first: _ } => self.push_first(first),
            Frame::Elements {
                left: _,
                run: _,
                back: _,
            } => Ok(()),
        }
    }

    // Keeps what agreements find in the first node of a member.
    #[inline(always)]
    fn push_first(&mut self, first: First) -> Result<(), Memory>
        requires small { IsSmall first }
        ensures ok { OnOk result
            (state_of self.new ≡ with_members (state_of self.old).members ((state_of self.old).firsts ++ first ∷ []) (state_of self.old)) }
        ensures count { self.new.count ≡ self.old.count }
        ensures top { self.new.top ≡ self.old.top }
        ensures outside { OnOk result (outside self.new ≡ outside self.old) }
    {
        let Ok(()) = push(&mut self.firsts, first) else {
            return Err(Memory);
        };
        Ok(())
    }
}

ghost use Rattle.ndr_decoder_laws.specs.steps.Steps.{with_members};
ghost use Rattle.ndr_decoder_state.specs.Parts.{kept};
ghost use Rattle.ndr_decoder_state.specs.Small.{IsSmall};

// What agreements find in a node.
#[inline(always)]
fn first_seen(node: &Seen<'_>, place: Option<u32>) -> First
    requires keepable { IsKeepable (flat_seen node.now).0 }
    requires short { length (text_of (flat_seen node.now).0) + 1 < 2 ^ 32 }
    ensures is { result ≡ first_of (flat_seen node.now) place }
    ensures small { IsSmall result }
{
    match node {
        Seen::Num(number) => First::Number(*number),
        Seen::Ptr(_) => First::Pointer,
        Seen::Arr { max, offset, count } => First::Counted {
            max: *max,
            offset: *offset,
            actual: *count,
            place,
        },
        Seen::Text { max, octets } => First::Counted {
            max: *max,
            offset: 0,
            actual: octets.len() as u32 + 1,
            place,
        },
        Seen::Union { tag, armed: _ } => First::Tag { tag: *tag, place },
        Seen::Rec(_)
        | Seen::Context {
            attributes: _,
            id: _,
        }
        | Seen::Pipe(_) => First::Other,
    }
}
