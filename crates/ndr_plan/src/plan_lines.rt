// The listing of a plan.
ghost use Rattle.std.specs.Prelude.{◌≡◌, ◌≤◌, ◌++◌, ◌∷◌, [], map, length, OnOk, IfOk, decimal};
ghost use Rattle.std.specs.Fmt.{signed_decimal};
ghost use Rattle.std.specs.List.{flat_map, enumerate_from};
ghost use Rattle.idl_listing.specs.Listing.{behind};
ghost use Rattle.ndr_code.specs.declared.TheConstants.{ADDRESS_LIMIT};
ghost use Rattle.ndr_plan.specs.Listing.{instr_line, values_line, place_line, listing};

use crate::instr_words::instr_words;
use idl_listing::{number, side_word, signed, word};
use itoa::Buffer;
use nd_base::{Memory, Octets};
use nd_types::Numbers;
use ndr_code::{Code, EnumList, EnumLists, Instr, Plan, PlanLine, PlanLines};
use std::alloc::Global;

// The line of an instruction.
fn instr_line(text: &mut Octets, at: u32, instr: Instr) -> Result<(), Memory>
    ensures { OnOk result (text.new ≡ text.old ++ instr_line (at, instr)) }
{
    let mut buffer = Buffer::new();
    text.append(buffer.format(at).as_bytes())?;
    instr_words(text, instr)?;
    text.append(b"\n")?;
    Ok(())
}

// The lines of all instructions.
fn code_lines(text: &mut Octets, code: &Code) -> Result<(), Memory>
    requires { length code.now ≤ ADDRESS_LIMIT }
    ensures { OnOk result (text.new ≡ text.old ++ flat_map instr_line (enumerate_from 0 code.now)) }
{
    for at in 0..code.len() {
        let Some(instr) = code.get(at) else {
            unreachable!()
        };
        instr_line(text, at as u32, *instr)?;
    }
    Ok(())
}

// The values of an enumerated type.
fn values(text: &mut Octets, values: &Numbers) -> Result<(), Memory>
    ensures { OnOk result (text.new ≡ text.old ++ behind (map signed_decimal values.now)) }
{
    for at in 0..values.len() {
        let Some(value) = values.get(at) else {
            unreachable!()
        };
        signed(text, *value)?;
    }
    Ok(())
}

// The line of an enumerated type.
fn values_line(text: &mut Octets, list: &EnumList) -> Result<(), Memory>
    ensures { OnOk result (text.new ≡ text.old ++ values_line list.now) }
{
    text.append(b"values")?;
    number(text, list.of.0)?;
    values(text, &list.values)?;
    text.append(b"\n")?;
    Ok(())
}

// The lines of all enumerated types.
fn all_values(text: &mut Octets, lists: &EnumLists) -> Result<(), Memory>
    ensures { OnOk result (text.new ≡ text.old ++ flat_map values_line lists.now) }
{
    for at in 0..lists.len() {
        let Some(list) = lists.get(at) else {
            unreachable!()
        };
        values_line(text, list)?;
    }
    Ok(())
}

// The line of the run of a root, or of that of agreements.
fn place_line(text: &mut Octets, line: &PlanLine) -> Result<(), Memory>
    ensures { OnOk result (text.new ≡ text.old ++ place_line line.now) }
{
    match line {
        PlanLine::Entry { op, side, name, at } => {
            text.append(b"entry")?;
            number(text, *op)?;
            word(text, side_word(*side))?;
            word(text, name.as_slice())?;
            number(text, *at)?;
            text.append(b"\n")?;
            Ok(())
        }
        PlanLine::Checks { op, side, at } => {
            text.append(b"checks")?;
            number(text, *op)?;
            word(text, side_word(*side))?;
            number(text, *at)?;
            text.append(b"\n")?;
            Ok(())
        }
    }
}

// The lines of all sides.
fn all_places(text: &mut Octets, lines: &PlanLines) -> Result<(), Memory>
    ensures { OnOk result (text.new ≡ text.old ++ flat_map place_line lines.now) }
{
    for at in 0..lines.len() {
        let Some(line) = lines.get(at) else {
            unreachable!()
        };
        place_line(text, line)?;
    }
    Ok(())
}

/// The listing of a plan for people: a line for each instruction with its address, then one for each enumerated type, then one for each entry and for
/// the agreements of each side. How the lines look is this project's own choice.
///
/// # Errors
/// Memory if there was too little.
///
/// It takes memory for the text, in time that grows with it.
pub fn listing(alloc: Global, plan: &Plan) -> Result<Octets, Memory>
    ensures { IfOk result (λ text. text ≡ listing plan.now.code plan.now.values plan.now.entries) }
{
    let mut text = Octets::new(alloc);
    code_lines(&mut text, &plan.code)?;
    all_values(&mut text, &plan.values)?;
    all_places(&mut text, &plan.entries)?;
    Ok(text)
}
