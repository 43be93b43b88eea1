// Faults.
ghost use Rattle.std.specs.Prelude.{◌≡◌, ◌≤◌, ◌<◌, [], length, take, drop};
ghost use Rattle.command_refusals.specs.Lines.{line_of};

use crate::answers::{ARGUMENT, EMPTY, MEMORY, OK, SHORT, lay_out};
use command_refusals::{Refusal, line};
use std::alloc::Global;

/// Writes the line that reports a refusal. Takes memory for the line.
pub fn write_line(alloc: Global, refusal: &Refusal, out: &mut [u8], len: &mut usize) -> u32
    ensures known { result ≤ SHORT }
    ensures not_empty { result ≡ EMPTY → ⊥ }
    ensures not_argument { result ≡ ARGUMENT → ⊥ }
    ensures written { result ≡ OK → take len.new out.new ≡ line_of [] [] refusal.now }
    ensures rest { result ≡ OK → drop len.new out.new ≡ drop len.new out.old }
    ensures room { result ≡ OK → len.new ≤ length out.old }
    ensures short { result ≡ SHORT → (len.new ≡ length (line_of [] [] refusal.now)) × (length out.old < len.new) }
    ensures kept { (result ≡ OK → ⊥) → out.new ≡ out.old }
    ensures len_kept { (result ≡ OK → ⊥) → (result ≡ SHORT → ⊥) → len.new ≡ len.old }
{
    match line(alloc, "", "", refusal) {
        Ok(text) => lay_out(text.as_slice(), out, len),
        Err(_) => MEMORY,
    }
}
