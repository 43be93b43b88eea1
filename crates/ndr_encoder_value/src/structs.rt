// Structs of numbers and pointers, written in one go.
ghost use Rattle.std.specs.Prelude.{◌≡◌, ◌≤◌, [], ◌++◌, true, List, length, OnOk, IsErr};
ghost use Rattle.nd_value.specs.Tree.{flat};
ghost use Rattle.ndr_encoder_laws.specs.pieces.Pieces.{Piece, gap_pieces};
ghost use Rattle.ndr_encoder_output.specs.Outputs.{Moves, Able};
ghost use Rattle.ndr_encoder_laws.specs.written.Run.{here, later, after};
ghost use Rattle.ndr_encoder_output.specs.Structs.{member_pieces, members_pieces, members_of, struct_pieces};

use crate::nodes::next_node;
use crate::numbers::write_one;
use crate::writing::pointer;
use nd_base::Memory;
use nd_flat::Walk;
use ndr_encoder_output::{Member, Output, StructRun};

// The gap before a struct whose gap does not lead to a multiple of four.
#[inline(never)]
fn write_other_align<O: Output>(to: u8, out: &mut O)
    requires { (qs : List Piece) × Able O.can out.old (gap_pieces to ++ qs) }
    ensures { (qs : List Piece) → Moves O.can O.whole out.old out.new (gap_pieces to ++ qs) qs }
{
    if to == 1 {
        return;
    }
    out.gap(to);
}

// The gap before a struct.
#[inline(always)]
pub(crate) fn write_align<O: Output>(to: u8, out: &mut O)
    requires { (qs : List Piece) × Able O.can out.old (gap_pieces to ++ qs) }
    ensures { (qs : List Piece) → Moves O.can O.whole out.old out.new (gap_pieces to ++ qs) qs }
{
    match to {
        4 => out.gap(4),
        8 => out.gap(8),
        _ => write_other_align(to, out),
    }
}

// The next node as a member.
#[inline(always)]
fn write_member<O: Output>(member: &Member, walk: &mut Walk<'_>, out: &mut O) -> Result<(), Memory>
    requires { (qs : List Piece) × Able O.can out.old (member_pieces member.now (here (flat walk.old)) ++ qs) }
    ensures written { OnOk result
        ((qs : List Piece) → Moves O.can O.whole out.old out.new (member_pieces member.now (here (flat walk.old)) ++ qs) qs) }
    ensures rest { OnOk result (flat walk.new ≡ later (flat walk.old)) }
    ensures fails { IsErr result → O.may_fail ≡ true }
{
    match member {
        Member::Number { prim } => {
            write_one(*prim, walk, out);
            Ok(())
        }
        Member::Pointer { run } => {
            out.gap(4);
            pointer(*run, walk, out)?;
            Ok(())
        }
    }
}

// The next nodes as members.
#[inline(always)]
pub(crate) fn write_members<O: Output>(
    members: &[Member],
    walk: &mut Walk<'_>,
    out: &mut O,
) -> Result<(), Memory>
    requires { Able O.can out.old (members_pieces members.now (flat walk.old)) }
    ensures written { OnOk result (Moves O.can O.whole out.old out.new (members_pieces members.now (flat walk.old)) []) }
    ensures rest { OnOk result (flat walk.new ≡ after (length members.now) (flat walk.old)) }
    ensures fails { IsErr result → O.may_fail ≡ true }
{
    for member in members {
        write_member(member, walk, out)?;
    }
    Ok(())
}

/// Writes a struct of numbers and pointers over the nodes of a walk: its gap, then its members (C706 sections 14.2 and 14.3). It takes no memory
/// itself, and fails only where the output is refused memory.
#[inline(always)]
pub(crate) fn write_struct<O: Output>(
    of: &StructRun,
    walk: &mut Walk<'_>,
    out: &mut O,
) -> Result<(), Memory>
    requires whole { of.now.count ≤ length of.now.members }
    requires able { Able O.can out.old (struct_pieces of.now (flat walk.old)) }
    ensures written { OnOk result (Moves O.can O.whole out.old out.new (struct_pieces of.now (flat walk.old)) []) }
    ensures rest { OnOk result (flat walk.new ≡ after (length (members_of of.now)) (later (flat walk.old))) }
    ensures fails { IsErr result → O.may_fail ≡ true }
{
    let _node = next_node(walk);
    write_align(of.align, out);
    write_members(of.members(), walk, out)?;
    Ok(())
}
