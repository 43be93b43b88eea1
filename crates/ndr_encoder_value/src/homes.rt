// The homes of a graph, each by its run.
ghost use Rattle.std.specs.Prelude.{◌≡◌, ℕ, List, true, false, [], OnOk, IfOk, IsErr};
ghost use Rattle.std.specs.List.{AllByRecursion, slice_get};
ghost use Rattle.nd_value.specs.Tree.{none, more, flat};
ghost use Rattle.nd_flat.specs.Building.{HasHome};
ghost use Rattle.ndr_encoder_output.specs.Outputs.{Moves, Able};
ghost use Rattle.ndr_code.specs.declared.instr.Instr.{Instr as Instruction};
ghost use Rattle.ndr_encoder_laws.specs.written.Run.{run as written_by};
ghost use Rattle.ndr_encoder_output.specs.Structs.{AreKnown};
ghost use Rattle.ndr_encoder_laws.specs.turns.Turned.{STEPS};
ghost use Rattle.ndr_encoder_laws.specs.chosen.Written.{value_at};
ghost use Rattle.ndr_encoder_value.specs.Turns.{turn_pair, turn_pairs, is_hoist as hoists, max_of, written_turn, written_turns};

use crate::maximum::maximum_of;
use crate::plain::write_plain_struct;
use crate::structs::write_struct;
use crate::turn::Turn;
use crate::writing::write_run;
use crate::{Run, write_array};
use nd_base::Memory;
use nd_flat::Fit;
use ndr_code::Instr;
use ndr_encoder_laws::Frames;
use ndr_encoder_output::{Known, Output};

/// Writes a home by its run, with a maximum count before it where the run begins with one. `chunk` is the greatest count of a chunk, and `known` what
/// is known of runs of the same code. It takes no memory apart from that of the output.
#[inline(always)]
pub fn write_home<O: Output>(
    code: &[Instr],
    max: u32,
    chunk: u32,
    turn: Turn,
    fit: &Fit,
    known: &mut Known,
    frames: &mut Frames,
    out: &mut O,
) -> Result<(), Memory>
    requires there { HasHome fit.now.graph turn.home }
    requires known { AreKnown code.now known.old }
    requires able { Able O.can out.old (written_by code.now max chunk STEPS turn.start [] (flat (more (value_at fit.now.graph turn.home) none))) }
    ensures written { OnOk result (Moves O.can O.whole out.old out.new
        (written_by code.now max chunk STEPS turn.start [] (flat (more (value_at fit.now.graph turn.home) none))) []) }
    ensures known { AreKnown code.now known.new }
    ensures fails { IsErr result → O.may_fail ≡ true }
{
    if write_known(turn, fit, known, out)? {
        return Ok(());
    }
    write_other(code, max, chunk, turn, fit, known, frames, out)?;
    Ok(())
}

// Writes a home whose run is known to be a struct, and gives true. Else it gives false, and nothing was written.
#[inline(always)]
fn write_known<O: Output>(turn: Turn, fit: &Fit, known: &Known, out: &mut O) -> Result<bool, Memory>
    requires there { HasHome fit.now.graph turn.home }
    requires able { (code : List Instruction) × (m k : ℕ) × AreKnown code known.now
        × Able O.can out.old (written_by code m k STEPS turn.start [] (flat (more (value_at fit.now.graph turn.home) none))) }
    ensures written { IfOk result
        (λ done. done ≡ true → (code : List Instruction) (m k : ℕ) → AreKnown code known.now → Moves O.can O.whole out.old out.new
        (written_by code m k STEPS turn.start [] (flat (more (value_at fit.now.graph turn.home) none))) []) }
    ensures stays { IfOk result (λ done. done ≡ false → out.new ≡ out.old) }
    ensures fails { IsErr result → O.may_fail ≡ true }
{
    let Some(of) = known.struct_at(turn.start) else {
        return Ok(false);
    };
    write_plain_struct(of, fit.plain_walk(turn.home), out)?;
    Ok(true)
}

// Writes a home whatever its run is.
#[inline(always)]
fn write_other<O: Output>(
    code: &[Instr],
    max: u32,
    chunk: u32,
    turn: Turn,
    fit: &Fit,
    known: &mut Known,
    frames: &mut Frames,
    out: &mut O,
) -> Result<(), Memory>
    requires there { HasHome fit.now.graph turn.home }
    requires known { AreKnown code.now known.old }
    requires able { Able O.can out.old (written_by code.now max chunk STEPS turn.start [] (flat (more (value_at fit.now.graph turn.home) none))) }
    ensures written { OnOk result (Moves O.can O.whole out.old out.new
        (written_by code.now max chunk STEPS turn.start [] (flat (more (value_at fit.now.graph turn.home) none))) []) }
    ensures known { AreKnown code.now known.new }
    ensures fails { IsErr result → O.may_fail ≡ true }
{
    let mut walk = fit.walk(turn.home);
    if write_array(code, turn.start, max, known, &mut walk, out)? {
        return Ok(());
    }
    known.learn(code, turn.start);
    if let Some(of) = known.struct_at(turn.start) {
        write_struct(of, &mut walk, out)?;
        return Ok(());
    }
    let run = Run { code, max, chunk };
    write_run(&run, turn.start as usize, u64::MAX, &mut walk, frames, out)
}

// The instruction at an address, if there is one.
#[inline(always)]
fn instr_at(code: &[Instr], at: usize) -> Option<Instr>
    ensures { result ≡ slice_get code.now at }
{
    code.get(at).copied()
}

// Whether an instruction writes a maximum count.
#[inline(always)]
fn is_hoist(instr: &Option<Instr>) -> bool
    ensures { result ≡ hoists instr.now }
{
    match instr {
        Some(Instr::Hoist) => true,
        _ => false,
    }
}

// The maximum count before a home, where its run begins with one.
#[inline(always)]
fn max_before(code: &[Instr], turn: Turn, fit: &Fit) -> u32
    requires there { HasHome fit.now.graph turn.home }
    ensures { result ≡ max_of code.now fit.now.graph (turn_pair turn) }
{
    let first = instr_at(code, turn.start as usize);
    if is_hoist(&first) {
        return maximum_of(&mut fit.walk(turn.home));
    }
    0
}

// Writes a home by its run, with the maximum count before it that its value has, where the run begins with one.
#[inline(always)]
fn write_turn<O: Output>(
    code: &[Instr],
    chunk: u32,
    turn: Turn,
    fit: &Fit,
    known: &mut Known,
    frames: &mut Frames,
    out: &mut O,
) -> Result<(), Memory>
    requires there { HasHome fit.now.graph turn.home }
    requires known { AreKnown code.now known.old }
    requires able { Able O.can out.old (written_turn code.now chunk fit.now.graph (turn_pair turn)) }
    ensures written { OnOk result (Moves O.can O.whole out.old out.new (written_turn code.now chunk fit.now.graph (turn_pair turn)) []) }
    ensures known { AreKnown code.now known.new }
    ensures fails { IsErr result → O.may_fail ≡ true }
{
    if write_known(turn, fit, known, out)? {
        return Ok(());
    }
    let max = max_before(code, turn, fit);
    write_other(code, max, chunk, turn, fit, known, frames, out)?;
    Ok(())
}

// Writes homes in their order.
pub(crate) fn write_turns<O: Output>(
    code: &[Instr],
    chunk: u32,
    turns: &[Turn],
    fit: &Fit,
    known: &mut Known,
    frames: &mut Frames,
    out: &mut O,
) -> Result<(), Memory>
    requires there { AllByRecursion (λ t. HasHome fit.now.graph t.home) turns.now }
    requires known { AreKnown code.now known.old }
    requires able { Able O.can out.old (written_turns code.now chunk fit.now.graph (turn_pairs turns.now)) }
    ensures written { OnOk result (Moves O.can O.whole out.old out.new (written_turns code.now chunk fit.now.graph (turn_pairs turns.now)) []) }
    ensures fails { IsErr result → O.may_fail ≡ true }
{
    for turn in turns {
        write_turn(code, chunk, *turn, fit, known, frames, out)?;
    }
    Ok(())
}
