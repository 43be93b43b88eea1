// Arrays of structs of numbers and pointers, written element by element.
ghost use Rattle.std.specs.Prelude.{◌≡◌, ℕ, ◌<◌, ◌≤◌, ◌^◌, true, false, [], ◌∷◌, length, OnOk, IfOk, IsErr};
ghost use Rattle.nd_value.specs.Tree.{flat};
ghost use Rattle.nd_flat.specs.FlatForm.{flat_seen};
ghost use Rattle.ndr_encoder_laws.specs.pieces.Pieces.{Gap, four};
ghost use Rattle.ndr_encoder_output.specs.Outputs.{Moves, Able};
ghost use Rattle.ndr_encoder_laws.specs.written.Run.{here, later, run as written_by};
ghost use Rattle.ndr_encoder_output.specs.Structs.{AreKnown};
ghost use Rattle.ndr_encoder_value.specs.Elements.{elements_pieces};

use crate::runs::{array_of, is_element_run};
use crate::structs::write_struct;
use nd_base::Memory;
use nd_flat::{Seen, Walk};
use ndr_code::Instr;
use ndr_encoder_output::{Known, Output, StructRun};

// The number of children of a node.
fn count_of(seen: &Seen<'_>) -> u32
    ensures { result ≡ (flat_seen seen.now).1 }
{
    match seen {
        Seen::Rec(count) => *count,
        Seen::Arr {
            max: _max,
            offset: _offset,
            count,
        } => *count,
        Seen::Union { tag: _tag, armed } => u32::from(*armed),
        Seen::Pipe(count) => *count,
        _ => 0,
    }
}

// The number of children of the next node, 0 where there is none.
fn next_count(walk: &mut Walk<'_>) -> u32
    ensures count { result ≡ (here (flat walk.old)).1 }
    ensures few { result < 2 ^ 32 }
    ensures rest { flat walk.new ≡ later (flat walk.old) }
{
    match walk.step() {
        Some(seen) => count_of(&seen),
        None => 0,
    }
}

// So many structs.
fn write_elements<O: Output>(
    count: u32,
    of: &StructRun,
    walk: &mut Walk<'_>,
    out: &mut O,
) -> Result<(), Memory>
    requires whole { of.now.count ≤ length of.now.members }
    requires able { Able O.can out.old (elements_pieces of.now count (flat walk.old)) }
    ensures written { OnOk result (Moves O.can O.whole out.old out.new (elements_pieces of.now count (flat walk.old)) []) }
    ensures fails { IsErr result → O.may_fail ≡ true }
{
    for _at in 0..count {
        write_struct(of, walk, out)?;
    }
    Ok(())
}

// The maximum count, and so many structs.
fn write_counted<O: Output>(
    max: u32,
    count: u32,
    of: &StructRun,
    walk: &mut Walk<'_>,
    out: &mut O,
) -> Result<(), Memory>
    requires whole { of.now.count ≤ length of.now.members }
    requires able { Able O.can out.old (Gap 4 ∷ four max ∷ elements_pieces of.now count (flat walk.old)) }
    ensures written { OnOk result (Moves O.can O.whole out.old out.new (Gap 4 ∷ four max ∷ elements_pieces of.now count (flat walk.old)) []) }
    ensures fails { IsErr result → O.may_fail ≡ true }
{
    out.gap(4);
    out.four(max);
    write_elements(count, of, walk, out)?;
    Ok(())
}

// A number of one octet is below 256, which a clause knows only of an argument: this is compiled away.
#[inline(always)]
fn is_octet(number: u8)
    ensures { number < 2 ^ 8 }
{}

/// Writes a home whose run, at `start`, is a conformant array of structs of numbers and pointers, with this maximum count before it (C706 sections
/// 14.3.3 and
/// 14.3.7), and gives true. Else it gives false, which it may do for such an array too, as where its struct has more than eight members: then nothing
/// was written, and `known` may have changed. It takes no memory itself, and fails only where the output is refused memory.
#[inline(always)]
pub fn write_array<O: Output>(
    code: &[Instr],
    start: u32,
    max: u32,
    known: &mut Known,
    walk: &mut Walk<'_>,
    out: &mut O,
) -> Result<bool, Memory>
    requires known { AreKnown code.now known.old }
    requires able { (k n : ℕ) × (2 ^ 43 ≤ n) × Able O.can out.old (written_by code.now max k n start [] (flat walk.old)) }
    ensures written { IfOk result (λ done. done ≡ true → (k n : ℕ) → 2 ^ 43 ≤ n
        → Moves O.can O.whole out.old out.new (written_by code.now max k n start [] (flat walk.old)) []) }
    ensures stays { IfOk result (λ done. done ≡ false → (out.new ≡ out.old) × (walk.new ≡ walk.old)) }
    ensures known { AreKnown code.now known.new }
    ensures fails { IsErr result → O.may_fail ≡ true }
{
    let Some(run) = array_of(code, start) else {
        return Ok(false);
    };
    known.learn(code, run);
    let Some(of) = known.struct_at(run) else {
        return Ok(false);
    };
    if !is_element_run(code, run, of) {
        return Ok(false);
    }
    is_octet(of.count);
    let count = next_count(walk);
    write_counted(max, count, of, walk, out)?;
    Ok(true)
}
