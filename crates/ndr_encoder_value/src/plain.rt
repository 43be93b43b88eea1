// Structs of numbers and pointers whose nodes are kept one by one, as those of most cells are.
ghost use Rattle.std.specs.Prelude.{◌≡◌, ◌≤◌, [], ◌++◌, true, false, List, length, OnOk, IfOk, IsErr};
ghost use Rattle.nd_value.specs.Tree.{flat};
ghost use Rattle.ndr_encoder_laws.specs.pieces.Pieces.{Piece};
ghost use Rattle.ndr_encoder_output.specs.Outputs.{Moves, Able};
ghost use Rattle.ndr_encoder_laws.specs.written.Run.{here, later};
ghost use Rattle.ndr_encoder_output.specs.Structs.{member_pieces, members_pieces, struct_pieces};

use crate::numbers::write_number;
use crate::structs::{write_align, write_members, write_struct};
use nd_base::Memory;
use nd_flat::PlainWalk;
use ndr_encoder_output::{Member, Output, StructRun};

// The next node as a member, where it is kept by itself; else false, and nothing was written.
#[inline(always)]
fn write_plain_member<O: Output>(
    member: &Member,
    nodes: &mut PlainWalk<'_>,
    out: &mut O,
) -> Result<bool, Memory>
    requires { (qs : List Piece) × Able O.can out.old (member_pieces member.now (here (flat nodes.old)) ++ qs) }
    ensures written { IfOk result
        (λ done. done ≡ true → (qs : List Piece) → Moves O.can O.whole out.old out.new (member_pieces member.now (here (flat nodes.old)) ++ qs) qs) }
    ensures rest { IfOk result (λ done. done ≡ true → flat nodes.new ≡ later (flat nodes.old)) }
    ensures stays { IfOk result (λ done. done ≡ false → (nodes.new ≡ nodes.old) × (out.new ≡ out.old)) }
    ensures fails { IsErr result → O.may_fail ≡ true }
{
    match member {
        Member::Number { prim } => {
            let Some(value) = nodes.number() else {
                return Ok(false);
            };
            write_number(*prim, value, out);
            Ok(true)
        }
        Member::Pointer { run } => {
            let Some(cell) = nodes.pointer() else {
                return Ok(false);
            };
            out.gap(4);
            out.name(cell, *run)?;
            Ok(true)
        }
    }
}

// The members from one on, whose node is not kept by itself.
#[cold]
#[inline(never)]
fn write_rest<O: Output>(
    members: &[Member],
    nodes: PlainWalk<'_>,
    out: &mut O,
) -> Result<(), Memory>
    requires { Able O.can out.old (members_pieces members.now (flat nodes)) }
    ensures written { OnOk result (Moves O.can O.whole out.old out.new (members_pieces members.now (flat nodes.entry)) []) }
    ensures fails { IsErr result → O.may_fail ≡ true }
{
    write_members(members, &mut nodes.walk(), out)?;
    Ok(())
}

// The next nodes as members.
#[inline(always)]
fn write_plain_members<O: Output>(
    members: &[Member],
    nodes: PlainWalk<'_>,
    out: &mut O,
) -> Result<(), Memory>
    requires { Able O.can out.old (members_pieces members.now (flat nodes)) }
    ensures written { OnOk result (Moves O.can O.whole out.old out.new (members_pieces members.now (flat nodes.entry)) []) }
    ensures fails { IsErr result → O.may_fail ≡ true }
{
    let mut nodes = nodes;
    for at in 0..members.len() {
        if !write_plain_member(&members[at], &mut nodes, out)? {
            write_rest(&members[at..], nodes, out)?;
            return Ok(());
        }
    }
    Ok(())
}

// A struct whose first node is not kept by itself.
#[cold]
#[inline(never)]
fn write_whole<O: Output>(of: &StructRun, nodes: PlainWalk<'_>, out: &mut O) -> Result<(), Memory>
    requires whole { of.now.count ≤ length of.now.members }
    requires able { Able O.can out.old (struct_pieces of.now (flat nodes)) }
    ensures written { OnOk result (Moves O.can O.whole out.old out.new (struct_pieces of.now (flat nodes.entry)) []) }
    ensures fails { IsErr result → O.may_fail ≡ true }
{
    write_struct(of, &mut nodes.walk(), out)?;
    Ok(())
}

/// Writes a struct of numbers and pointers over its nodes: its gap, then its members (C706 sections 14.2 and 14.3). It is fast where the nodes are
/// kept one by one. It takes no memory itself, and fails only where the output is refused memory.
#[inline(always)]
pub(crate) fn write_plain_struct<O: Output>(
    of: &StructRun,
    nodes: PlainWalk<'_>,
    out: &mut O,
) -> Result<(), Memory>
    requires whole { of.now.count ≤ length of.now.members }
    requires able { Able O.can out.old (struct_pieces of.now (flat nodes)) }
    ensures written { OnOk result (Moves O.can O.whole out.old out.new (struct_pieces of.now (flat nodes.entry)) []) }
    ensures fails { IsErr result → O.may_fail ≡ true }
{
    let mut nodes = nodes;
    let Some(_members) = nodes.members() else {
        write_whole(of, nodes, out)?;
        return Ok(());
    };
    write_align(of.align, out);
    write_plain_members(of.members(), nodes, out)?;
    Ok(())
}
