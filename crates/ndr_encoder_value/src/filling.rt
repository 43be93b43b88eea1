// Octets that are filled with the homes of a stream.
ghost use Rattle.std.specs.Prelude.{◌≡◌, [], ◌++◌, slice_index_or, length};
ghost use Rattle.std.specs.List.{AllByRecursion};
ghost use Rattle.nd_flat.specs.Building.{HasHome};
ghost use Rattle.ndr_encoder_output.specs.Filling.{FillCan};
ghost use Rattle.ndr_encoder_laws.specs.pieces.Pieces.{pieces_octets, pieces_end};
ghost use Rattle.ndr_encoder_value.specs.Turns.{turn_pairs, written_turns};

use crate::homes::write_turns;
use crate::turn::Turn;
use nd_base::Order;
use nd_flat::Fit;
use ndr_code::Instr;
use ndr_encoder_laws::Frames;
use ndr_encoder_output::{Fill, Known};

// Fills lent octets from their front on.
fn fill_from(code: &[Instr], chunk: u32, turns: &[Turn], fit: &Fit, fill: &mut Fill<'_>)
    requires there { AllByRecursion (λ t. HasHome fit.now.graph t.home) turns.now }
    requires front { fill.old.at ≡ 0 }
    requires can { FillCan 0 fill.old.out.now (written_turns code.now chunk fit.now.graph (turn_pairs turns.now) ++ []) }
    requires long { pieces_end 0 (written_turns code.now chunk fit.now.graph (turn_pairs turns.now)) ≡ length fill.old.out.now }
    ensures same_reference { fill.new.out.ghost_name ≡ fill.old.out.ghost_name }
    ensures filled { fill.new.out.now
        ≡ pieces_octets fill.old.order (λ c. slice_index_or fill.old.numbers.now c 0) 0
        (written_turns code.now chunk fit.now.graph (turn_pairs turns.now)) }
{
    let mut frames = Frames::new();
    let mut known = Known::new();
    let Ok(()) = write_turns(code, chunk, turns, fit, &mut known, &mut frames, fill) else {
        unreachable!()
    };
}

/// Fills octets with homes in their order, each by its run: gaps of zeros, and for each pointer the number of its cell. `chunk` is the greatest count
/// of a chunk. It takes no memory, and cannot fail.
pub fn fill_turns(
    code: &[Instr],
    chunk: u32,
    turns: &[Turn],
    fit: &Fit,
    order: Order,
    numbers: &[u32],
    out: &mut [u8],
)
    requires there { AllByRecursion (λ t. HasHome fit.now.graph t.home) turns.now }
    requires can { FillCan 0 out.old (written_turns code.now chunk fit.now.graph (turn_pairs turns.now) ++ []) }
    requires long { pieces_end 0 (written_turns code.now chunk fit.now.graph (turn_pairs turns.now)) ≡ length out.old }
    ensures { out.new ≡ pieces_octets order (λ c. slice_index_or numbers.now c 0) 0
        (written_turns code.now chunk fit.now.graph (turn_pairs turns.now)) }
{
    let mut fill = Fill {
        order,
        numbers,
        out,
        at: 0,
    };
    fill_from(code, chunk, turns, fit, &mut fill);
}
