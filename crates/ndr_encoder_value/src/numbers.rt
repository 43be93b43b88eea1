// Numbers side by side.
ghost use Rattle.std.specs.Prelude.{◌≡◌, ◌-◌, ◌<◌, ◌≤◌, ◌++◌, List};
ghost use Rattle.nd_value.specs.Tree.{flat};
ghost use Rattle.ndr_encoder_laws.specs.pieces.Pieces.{Piece, number_pieces, row_pieces};
ghost use Rattle.nd_types.specs.Table.{width};
ghost use Rattle.ndr_encoder_output.specs.Outputs.{Moves, Able};
ghost use Rattle.ndr_encoder_laws.specs.written.Run.{here, later, num_in, numbers, after};

use crate::nodes::next_number;
use nd_flat::Walk;
use nd_types::Prim;
use ndr_encoder_output::Output;
use ndr_prim::width_of;

// A number with its gap, which leads to a multiple of so many octets.
#[inline(always)]
fn write_after<O: Output>(to: u8, prim: Prim, value: i128, out: &mut O)
    requires wide { to ≡ width prim }
    requires some { 1 < to }
    requires able { (qs : List Piece) × Able O.can out.old (number_pieces prim value ++ qs) }
    ensures { (qs : List Piece) → Moves O.can O.whole out.old out.new (number_pieces prim value ++ qs) qs }
{
    out.gap(to);
    out.figure(prim, value);
}

// A number of one octet, which has no gap.
#[inline(always)]
fn write_octet<O: Output>(prim: Prim, value: i128, out: &mut O)
    requires wide { width prim ≡ 1 }
    requires able { (qs : List Piece) × Able O.can out.old (number_pieces prim value ++ qs) }
    ensures { (qs : List Piece) → Moves O.can O.whole out.old out.new (number_pieces prim value ++ qs) qs }
{
    out.figure(prim, value);
}

// A number with its gap. The widths are told apart first, so that each has code of its own.
#[inline(always)]
pub(crate) fn write_number<O: Output>(prim: Prim, value: i128, out: &mut O)
    requires { (qs : List Piece) × Able O.can out.old (number_pieces prim value ++ qs) }
    ensures { (qs : List Piece) → Moves O.can O.whole out.old out.new (number_pieces prim value ++ qs) qs }
{
    match width_of(prim) {
        1 => write_octet(prim, value, out),
        2 => write_after(2, prim, value, out),
        4 => write_after(4, prim, value, out),
        wide => write_after(wide as u8, prim, value, out),
    }
}

// The next node as a number with its gap.
#[inline(always)]
pub(crate) fn write_one<O: Output>(prim: Prim, walk: &mut Walk<'_>, out: &mut O)
    requires { (qs : List Piece) × Able O.can out.old (number_pieces prim (num_in (here (flat walk.old)).0) ++ qs) }
    ensures written { (qs : List Piece) → Moves O.can O.whole out.old out.new (number_pieces prim (num_in (here (flat walk.old)).0) ++ qs) qs }
    ensures rest { flat walk.new ≡ later (flat walk.old) }
{
    let value = next_number(walk);
    write_number(prim, value, out);
}

// Some of the next numbers, at least one and at most `most`; it gives how many.
fn write_some<O: Output>(prim: Prim, most: u32, walk: &mut Walk<'_>, out: &mut O) -> u32
    requires some { 0 < most }
    requires able { (qs : List Piece) × Able O.can out.old (row_pieces prim (numbers most (flat walk.old)) ++ qs) }
    ensures some { 0 < result }
    ensures most { result ≤ most }
    ensures written { (qs : List Piece) → Moves O.can O.whole out.old out.new
        (row_pieces prim (numbers most (flat walk.old)) ++ qs) (row_pieces prim (numbers (most - result) (flat walk.new)) ++ qs) }
    ensures rest { after most (flat walk.old) ≡ after (most - result) (flat walk.new) }
{
    if let Some(row) = walk.row(most) {
        out.row(prim, &row);
        return row.count;
    }
    write_one(prim, walk, out);
    1
}

// So many of the next nodes as numbers, each with its gap. Numbers that are kept side by side are written in one go.
pub(crate) fn write_numbers<O: Output>(prim: Prim, count: u32, walk: &mut Walk<'_>, out: &mut O)
    requires { (qs : List Piece) × Able O.can out.old (row_pieces prim (numbers count (flat walk.old)) ++ qs) }
    ensures written { (qs : List Piece) → Moves O.can O.whole out.old out.new (row_pieces prim (numbers count (flat walk.old)) ++ qs) qs }
    ensures rest { flat walk.new ≡ after count (flat walk.old) }
{
    let mut left = count;
    for _turn in 0..count {
        if left == 0 {
            return;
        }
        left = left - write_some(prim, left, walk, out);
    }
}
