// A script is checked as a whole before any of its lines is done.
ghost use Rattle.std.specs.Prelude.{◌≡◌, ℕ, ◌≤◌, List, length, IfOk, IfErr};
ghost use Rattle.ctx_session.specs.Script.{opens_of, AreScript, IsBadLine};
ghost use Rattle.ctx_session.specs.Lines.{line_meant};

use crate::line::{Line, rest_at};
use crate::lines::first_line;

// How many lines a script has, and how many of them open a resource.
#[derive(Clone, Copy)]
pub(crate) struct Script {
    pub(crate) lines: u32,
    pub(crate) opens: u32,
}

// Whether a line opens a resource, as a number.
fn opens(line: Line) -> u32
    ensures { (octets : List ℕ) → result ≡ opens_of (line_meant octets line) }
{
    match line {
        Line::Open { .. } => 1,
        _ => 0,
    }
}

// Checks a script, or answers the number of its first line that is none, from 1.
pub(crate) fn check(script: &[u8]) -> Result<Script, u32>
    requires { length script.now ≤ 1048576 }
    ensures lines { IfOk result (λ s. AreScript script.now s.lines s.opens) }
    ensures bad { IfErr result (IsBadLine script.now) }
{
    let mut rest = script;
    let mut lines = 0;
    let mut opened = 0;
    while rest.len() > 0 {
        let Some(first) = first_line(rest) else {
            return Err(lines + 1);
        };
        opened += opens(first.line);
        lines += 1;
        rest = rest_at(rest, first.end + 1);
    }
    Ok(Script {
        lines,
        opens: opened,
    })
}
