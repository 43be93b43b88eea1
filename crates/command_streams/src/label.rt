// The four octets of a label are fetched, and the order that they state is answered.
ghost use Rattle.std.specs.Prelude.{◌≡◌, ◌≤◌, ◌+◌, ◌<◌, List, ℕ, Option, take, length, true, IfOk, IfErr};
ghost use Rattle.std.specs.Io.KnownBytes.{Consumes, IsAtEnd};
ghost use Rattle.nd_base.specs.Over.{source_over};
ghost use Rattle.command_streams.specs.Input.{HasLabel, IsLabelCause, IsReadFault};

use command_refusals::Refusal;
use nd_base::{Order, Source};
use ndr_prim::read_label;

/// Takes a format label (C706, section 14.1), which is four octets, from a source, and answers the order of octets that it states. No octet past the
/// label is asked for.
///
/// # Errors
/// BadLabel, where the four octets were taken and are no label that is read. ShortLabel, where the source gave fewer than four and has ended.
/// ReadFault, where the source failed.
///
/// Takes no memory.
pub fn take_label<S: Source>(input: &mut S) -> Result<Order, Refusal>
    ensures label { IfOk result (HasLabel (source_over S.seen input.old input.new)) }
    ensures refused { IfErr result (IsLabelCause (source_over S.seen input.old input.new)) }
    ensures later { (S.seen input.old).faults ≤ (S.seen input.new).faults }
{
    let mut octets = [0u8; 4];
    fill(input, &mut octets)?;
    match read_label(&octets) {
        Ok(order) => Ok(order),
        Err(fault) => Err(Refusal::BadLabel(fault)),
    }
}

// Fetches octets until there are four.
fn fill<S: Source>(input: &mut S, octets: &mut [u8; 4]) -> Result<(), Refusal>
    ensures taken { IfOk result (λ _. Consumes (S.seen input.old).left (S.seen input.new).left octets.new) }
    ensures refused { IfErr result (IsLabelCause (source_over S.seen input.old input.new)) }
    ensures later { (S.seen input.old).faults ≤ (S.seen input.new).faults }
{
    let mut came = 0usize;
    while came < 4 {
        let count = fetch_some(input, octets, came)?;
        if count == 0 {
            return Err(Refusal::ShortLabel);
        }
        came += count;
    }
    Ok(())
}

// Fetches some octets more, four in all at most, after the first `came`: none only if the source has ended.
fn fetch_some<S: Source>(input: &mut S, octets: &mut [u8; 4], came: usize) -> Result<usize, Refusal>
    requires fewer { came < 4 }
    ensures bound { IfOk result (λ n. came + n ≤ 4) }
    ensures octets { IfOk result (λ n. (start : Option (List ℕ)) → Consumes start (S.seen input.old).left (take came octets.old)
        → Consumes start (S.seen input.new).left (take (came + n) octets.new)) }
    ensures end { IfOk result (λ n. n ≡ 0 → ((S.seen input.new).ended ≡ true) × IsAtEnd (S.seen input.new).left) }
    ensures fault { IfErr result (IsReadFault (source_over S.seen input.old input.new)) }
    ensures later { (S.seen input.old).faults ≤ (S.seen input.new).faults }
{
    match input.fetch(&mut octets[came..]) {
        Ok(count) => Ok(count),
        Err(_) => Err(Refusal::ReadFault),
    }
}
