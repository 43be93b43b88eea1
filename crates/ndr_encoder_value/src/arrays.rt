// Elements of arrays and pipes.
ghost use Rattle.std.specs.Prelude.{◌≡◌, ℕ, ◌≤◌, ◌∷◌, List, true};
ghost use Rattle.nd_value.specs.Tree.{Flat, flat};
ghost use Rattle.ndr_encoder_laws.specs.pieces.Pieces.{four};
ghost use Rattle.ndr_encoder_output.specs.Outputs.{Moves, Able};
ghost use Rattle.ndr_encoder_laws.specs.written.Frames.{pushed};
ghost use Rattle.ndr_encoder_laws.specs.declared.frames.Frame.TheVariants.{Array, Pipe};
ghost use Rattle.ndr_code.specs.declared.instr.Instr.{Instr};
ghost use Rattle.ndr_encoder_laws.specs.written.Run.{Rest, here, later, offset_in, row_at, back, elements as elements_written};
ghost use Rattle.ndr_encoder_laws.specs.written.Run.{chunk_count as count_of_chunk, chunk_elements as chunk_written, chunk as chunk_of};

use crate::lookups::row_of;
use crate::nodes::{count_of, next_node, offset_of};
use crate::numbers::write_numbers;
use nd_flat::Walk;
use ndr_code::Instr;
use ndr_encoder_laws::{Frame, Frames};
use ndr_encoder_output::Output;

// So many elements of an array, each by the run, and then the address `to`: numbers in one go, else from address 1 on, which is `ret`.
fn elements<O: Output>(
    code: &[Instr],
    count: u32,
    run: u32,
    pc: &mut usize,
    walk: &mut Walk<'_>,
    frames: &mut Frames,
    out: &mut O,
)
    requires { (G : Rest) × Able O.can out.old (elements_written G (row_at code.now run) count run pc.old frames.old (flat walk.old)) }
    ensures { (G : Rest) → Moves O.can O.whole out.old out.new (elements_written G (row_at code.now run) count run pc.old frames.old (flat walk.old))
        (G pc.new frames.new (flat walk.new)) }
{
    match row_of(code, run) {
        Some(prim) => write_numbers(prim, count, walk, out),
        None => {
            frames.push(Frame::Array {
                left: count,
                run,
                to: *pc,
            });
            *pc = 1;
        }
    }
}

// An array whose counts are not in the stream here.
pub(crate) fn array<O: Output>(
    code: &[Instr],
    run: u32,
    pc: &mut usize,
    walk: &mut Walk<'_>,
    frames: &mut Frames,
    out: &mut O,
) -> bool
    requires { (G : Rest)
        × Able O.can out.old (elements_written G (row_at code.now run) (here (flat walk.old)).1 run pc.old frames.old (later (flat walk.old))) }
    ensures on { result ≡ true }
    ensures written { (G : Rest) → Moves O.can O.whole out.old out.new
        (elements_written G (row_at code.now run) (here (flat walk.old)).1 run pc.old frames.old (later (flat walk.old)))
        (G pc.new frames.new (flat walk.new)) }
{
    let count = count_of(&next_node(walk));
    elements(code, count, run, pc, walk, frames, out);
    true
}

// A varying array: its offset and its actual count, then its elements.
pub(crate) fn varying<O: Output>(
    code: &[Instr],
    run: u32,
    pc: &mut usize,
    walk: &mut Walk<'_>,
    frames: &mut Frames,
    out: &mut O,
) -> bool
    requires { (G : Rest) × Able O.can out.old (four (offset_in (here (flat walk.old)).0) ∷ four (here (flat walk.old)).1
        ∷ elements_written G (row_at code.now run) (here (flat walk.old)).1 run pc.old frames.old (later (flat walk.old))) }
    ensures on { result ≡ true }
    ensures written { (G : Rest) → Moves O.can O.whole out.old out.new (four (offset_in (here (flat walk.old)).0) ∷ four (here (flat walk.old)).1
        ∷ elements_written G (row_at code.now run) (here (flat walk.old)).1 run pc.old frames.old (later (flat walk.old)))
        (G pc.new frames.new (flat walk.new)) }
{
    let node = next_node(walk);
    let offset = offset_of(&node);
    let count = count_of(&node);
    out.four(offset);
    out.four(count);
    elements(code, count, run, pc, walk, frames, out);
    true
}

// A pipe: no element of it is written yet, and no chunk is open.
pub(crate) fn pipe(run: u32, pc: &mut usize, walk: &mut Walk<'_>, frames: &mut Frames) -> bool
    ensures on { result ≡ true }
    ensures pc { pc.new ≡ 1 }
    ensures frames { frames.new ≡ pushed (Pipe 0 (here (flat walk.old)).1 run pc.old) frames.old }
    ensures rest { flat walk.new ≡ later (flat walk.old) }
{
    let rest = count_of(&next_node(walk));
    frames.push(Frame::Pipe {
        left: 0,
        rest,
        run,
        to: *pc,
    });
    *pc = 1;
    true
}

// The count of the next chunk.
fn chunk_count(chunk: u32, left: u32) -> u32
    ensures count { result ≡ count_of_chunk chunk left }
    ensures most { result ≤ left }
{
    if left < chunk { left } else { chunk }
}

// The elements of a chunk, each by the run.
fn chunk_elements<O: Output>(
    code: &[Instr],
    count: u32,
    rest: u32,
    run: u32,
    to: usize,
    pc: &mut usize,
    walk: &mut Walk<'_>,
    frames: &mut Frames,
    out: &mut O,
)
    requires { (G : Rest) × Able O.can out.old (chunk_written G (row_at code.now run) count rest run to frames.old (flat walk.old)) }
    ensures { (G : Rest) → Moves O.can O.whole out.old out.new (chunk_written G (row_at code.now run) count rest run to frames.old (flat walk.old))
        (G pc.new frames.new (flat walk.new)) }
{
    *pc = 1;
    match row_of(code, run) {
        Some(prim) => {
            write_numbers(prim, count, walk, out);
            frames.push(Frame::Pipe {
                left: 0,
                rest,
                run,
                to,
            });
        }
        None => frames.push(Frame::Pipe {
            left: count,
            rest,
            run,
            to,
        }),
    }
}

// The next element of an array, of which so many are left, or what comes after it.
pub(crate) fn next_element(
    left: u32,
    run: u32,
    to: usize,
    pc: &mut usize,
    frames: &mut Frames,
) -> bool
    ensures on { result ≡ true }
    ensures next { (G : Rest) (code : List Instr) (k : ℕ) (fs : List Flat)
        → back G code k (Array left run to ∷ frames.old) fs ≡ G pc.new frames.new fs }
{
    if left == 0 {
        *pc = to;
        return true;
    }
    frames.push(Frame::Array {
        left: left - 1,
        run,
        to,
    });
    *pc = run as usize;
    true
}

// The next chunk of a pipe of which so many elements are left, or its last count, 0.
fn chunk<O: Output>(
    code: &[Instr],
    most: u32,
    left: u32,
    run: u32,
    to: usize,
    pc: &mut usize,
    walk: &mut Walk<'_>,
    frames: &mut Frames,
    out: &mut O,
)
    requires { (G : Rest) × Able O.can out.old (chunk_of G (row_at code.now run) most left run to frames.old (flat walk.old)) }
    ensures { (G : Rest) → Moves O.can O.whole out.old out.new (chunk_of G (row_at code.now run) most left run to frames.old (flat walk.old))
        (G pc.new frames.new (flat walk.new)) }
{
    out.gap(4);
    if left == 0 {
        out.four(0);
        *pc = to;
        return;
    }
    let count = chunk_count(most, left);
    out.four(count);
    chunk_elements(code, count, left - count, run, to, pc, walk, frames, out);
}

// The next element of a pipe, of which so many are left in the chunk that is open and so many after it, or what comes after it.
pub(crate) fn next_of_pipe<O: Output>(
    code: &[Instr],
    most: u32,
    left: u32,
    rest: u32,
    run: u32,
    to: usize,
    pc: &mut usize,
    walk: &mut Walk<'_>,
    frames: &mut Frames,
    out: &mut O,
) -> bool
    requires { (G : Rest) × Able O.can out.old (back G code.now most (Pipe left rest run to ∷ frames.old) (flat walk.old)) }
    ensures on { result ≡ true }
    ensures written { (G : Rest) → Moves O.can O.whole out.old out.new (back G code.now most (Pipe left rest run to ∷ frames.old) (flat walk.old))
        (G pc.new frames.new (flat walk.new)) }
{
    if left == 0 {
        chunk(code, most, rest, run, to, pc, walk, frames, out);
        return true;
    }
    frames.push(Frame::Pipe {
        left: left - 1,
        rest,
        run,
        to,
    });
    *pc = run as usize;
    true
}
