// The count of a chunk, after its gap.
ghost use Rattle.std.specs.Prelude.{◌≤◌, ◌+◌, ℕ, List, Option, length, OnOk};
ghost use Rattle.nd_base.specs.Over.{source_over};
ghost use Rattle.nd_base.specs.declared.TheConstants.{STREAM_LIMIT};
ghost use Rattle.nd_types.specs.declared.types.TypeId.{TypeId};
ghost use Rattle.nd_types.specs.Roots.{Root};
ghost use Rattle.nd_value.specs.declared.item.Item.{Item as Noted};
ghost use Rattle.nd_value.specs.Setting.{Setting};
ghost use Rattle.nd_value.specs.Tree.{Tree, Trees};
ghost use Rattle.nd_grammar.specs.Reader.{Names};
ghost use Rattle.ndr_decoder_laws.specs.pipes.Pipes.{InPipe, Position, at_chunk, at_count};
ghost use Rattle.nd_grammar.specs.decoded.Verdict.{decoding_seen, direct_roots};
ghost use Rattle.ndr_decoder_stream.specs.Chunks.{Counts, Gaps, HasMoved, IsAt};
ghost use Rattle.ndr_decoder_stream.specs.Counted.{ChunkTold, CountTold, GapTold};

use crate::fetching::{fetch_count, fetch_gap};
use nd_base::{Intake, Ledger, Order, Source, Steps};
use nd_value::{Item, ItemKind, ItemLog};
use ndr_decoder_state::{DecodeFault, Machine, read_count};

/// Reads the count of the next chunk of a pipe, after its gap. The octets of these, and no others, are taken from the source, and both are noted.
/// Where the octets are refused the stream is. It takes memory only for the octets and items.
pub fn chunk_count<S: Source, L: Ledger>(
    order: Order,
    machine: &mut Machine,
    intake: &mut Intake,
    source: &mut S,
    items: &mut ItemLog,
    steps: &mut Steps<L>,
) -> Result<u32, DecodeFault>
    requires near { machine.old.at ≤ STREAM_LIMIT }
    ensures reads { (w : Setting) (fetched : List ℕ) (noted : List Noted) (direct : ℕ) (first : Names) (i : ℕ) (rs : List Root) (roots : List Tree)
        (elem : TypeId) (done : Trees) (max_at : Option ℕ) (k : Position)
        → direct ≤ length (direct_roots w)
        → InPipe w order fetched noted direct first i rs roots elem done max_at 4 (at_chunk w order i elem done k) k → IsAt i k machine.old
        → Counts w order fetched noted direct first i rs roots elem done max_at machine.old.cells
        (source_over S.Source.seen source.old source.new)
        (decoding_seen items.old items.new (L.number steps.old) (L.number steps.new)) machine.new result }
    ensures alone { ChunkTold order machine.old machine.new (source_over S.Source.seen source.old source.new)
        (decoding_seen items.old items.new (L.number steps.old) (L.number steps.new)) result }
    ensures moved { OnOk result (HasMoved machine.old machine.new) }
    ensures later { (S.Source.seen source.old).faults ≤ (S.Source.seen source.new).faults }
{
    pass_gap(order, machine, intake, source, items, steps)?;
    pass_count(order, machine, intake, source, items, steps)
}

// Passes the gap before a count.
fn pass_gap<S: Source, L: Ledger>(
    order: Order,
    machine: &mut Machine,
    intake: &mut Intake,
    source: &mut S,
    items: &mut ItemLog,
    steps: &mut Steps<L>,
) -> Result<(), DecodeFault>
    requires near { machine.old.at ≤ STREAM_LIMIT }
    ensures reads { (w : Setting) (fetched : List ℕ) (noted : List Noted) (direct : ℕ) (first : Names) (i : ℕ) (rs : List Root) (roots : List Tree)
        (elem : TypeId) (done : Trees) (max_at : Option ℕ) (k : Position)
        → direct ≤ length (direct_roots w)
        → InPipe w order fetched noted direct first i rs roots elem done max_at 4 (at_chunk w order i elem done k) k → IsAt i k machine.old
        → Gaps w order fetched noted direct first i rs roots elem done max_at machine.old.cells
        (source_over S.Source.seen source.old source.new)
        (decoding_seen items.old items.new (L.number steps.old) (L.number steps.new)) machine.new result }
    ensures alone { GapTold machine.old machine.new (source_over S.Source.seen source.old source.new)
        (decoding_seen items.old items.new (L.number steps.old) (L.number steps.new)) result }
    ensures moved { OnOk result (HasMoved machine.old machine.new) }
    ensures within { OnOk result (machine.new.at ≤ STREAM_LIMIT) }
    ensures later { (S.Source.seen source.old).faults ≤ (S.Source.seen source.new).faults }
{
    fetch_gap(machine.at, intake, source)?;
    machine.note_gap(intake.octets(), items, steps)?;
    machine.at += intake.octets().len() as u32;
    Ok(())
}

// Reads a count.
fn pass_count<S: Source, L: Ledger>(
    order: Order,
    machine: &mut Machine,
    intake: &mut Intake,
    source: &mut S,
    items: &mut ItemLog,
    steps: &mut Steps<L>,
) -> Result<u32, DecodeFault>
    requires near { machine.old.at ≤ STREAM_LIMIT }
    ensures reads { (w : Setting) (fetched : List ℕ) (noted : List Noted) (direct : ℕ) (first : Names) (i : ℕ) (rs : List Root) (roots : List Tree)
        (elem : TypeId) (done : Trees) (max_at : Option ℕ) (k : Position)
        → direct ≤ length (direct_roots w)
        → InPipe w order fetched noted direct first i rs roots elem done max_at 4 (at_count w order i elem done k) k → IsAt i k machine.old
        → Counts w order fetched noted direct first i rs roots elem done max_at machine.old.cells
        (source_over S.Source.seen source.old source.new)
        (decoding_seen items.old items.new (L.number steps.old) (L.number steps.new)) machine.new result }
    ensures alone { CountTold order machine.old machine.new (source_over S.Source.seen source.old source.new)
        (decoding_seen items.old items.new (L.number steps.old) (L.number steps.new)) result }
    ensures moved { OnOk result (HasMoved machine.old machine.new) }
    ensures later { (S.Source.seen source.old).faults ≤ (S.Source.seen source.new).faults }
{
    fetch_count(machine.at, intake, source)?;
    let count = read_count(order, intake.octets());
    let item = Item {
        at: machine.at,
        len: 4,
        kind: ItemKind::Chunk,
        home: machine.home,
        node: 0,
        value: i128::from(count),
    };
    items.note(item, steps)?;
    machine.at += 4;
    Ok(count)
}
