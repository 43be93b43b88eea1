// Agreements that are tried.
ghost use Rattle.std.specs.Prelude.{◌≡◌, drop, slice_get, option_map, IfSome};
ghost use Rattle.nd_flat.specs.FlatForm.{IsKeepableNumber};
ghost use Rattle.nd_value.specs.Agreement.{agreement};
ghost use Rattle.ndr_decoder_value.specs.Parts.{IsTried};
ghost use Rattle.ndr_decoder_laws.specs.stream.Parameters.{root_subject};
ghost use Rattle.ndr_decode.specs.Trials.{is_check, failing, check_fails, checks_fail, AreKeepable};

use crate::given::given_number;
use nd_flat::Fit;
use nd_types::Attr;
use ndr_code::Instr;
use ndr_decoder_state::{DecodeFault, Wanted};
use ndr_decoder_stream::Stream;
use ndr_decoder_value::{try_in, wanted_of};

/// Tries the agreements of the parameters, by the run of checks at an address, with what is kept of a stream, and with a request if one is given. The
/// first that does not hold is the refusal, and the only one. Takes no memory.
pub fn try_parameters(
    code: &[Instr],
    at: usize,
    stream: &Stream,
    given: Option<&Fit>,
) -> Result<(), DecodeFault>
    requires numbers { AreKeepable stream.now.cells.items stream.now.roots.items }
    ensures { IsTried
        (checks_fail stream.now.cells.items stream.now.roots.items (option_map (λ f. f.now.graph) given.entry) (drop at code.now)) result }
{
    for pc in at..code.len() {
        let instr = code[pc];
        if !tries(instr) {
            return Ok(());
        }
        try_check(instr, stream, given)?;
    }
    Ok(())
}

// Whether an instruction is one of a run of checks.
fn tries(instr: Instr) -> bool
    ensures { result ≡ is_check instr }
{
    match instr {
        Instr::Check {
            attr: _,
            field: _,
            var: _,
            star: _,
        }
        | Instr::Given {
            attr: _,
            field: _,
            var: _,
            star: _,
        } => true,
        _ => false,
    }
}

// Tries the agreement of one instruction.
#[inline(never)]
fn try_check(instr: Instr, stream: &Stream, given: Option<&Fit>) -> Result<(), DecodeFault>
    requires numbers { AreKeepable stream.now.cells.items stream.now.roots.items }
    ensures { IsTried (check_fails stream.now.cells.items stream.now.roots.items (option_map (λ f. f.now.graph) given.entry) instr) result }
{
    match instr {
        Instr::Check {
            attr,
            field,
            var,
            star,
        } => try_root(stream, attr, field, stream.root_number(var, star)),
        Instr::Given {
            attr,
            field,
            var,
            star,
        } => try_root(stream, attr, field, given_number(given, var, star)),
        _ => Ok(()),
    }
}

// Tries the agreement of an attribute of a root with the number of its variable, if that is known.
fn try_root(stream: &Stream, attr: Attr, root: u32, number: Option<i128>) -> Result<(), DecodeFault>
    requires keepable { IfSome number IsKeepableNumber }
    ensures { IsTried (failing (agreement attr number) (root_subject stream.now.cells.items (slice_get stream.now.roots.items root))) result }
{
    let Some(number) = number else {
        return Ok(());
    };
    let Some(kept) = stream.subject(root) else {
        return Ok(());
    };
    let wanted = Wanted {
        attr,
        wanted: wanted_of(attr, number),
    };
    try_in(wanted, kept.first, kept.max_at)
}
