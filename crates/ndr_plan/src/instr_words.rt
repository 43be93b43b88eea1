// The words of an instruction.
ghost use Rattle.std.specs.Prelude.{◌≡◌, ◌++◌, ◌∷◌, [], OnOk, decimal};
ghost use Rattle.std.specs.Fmt.{signed_decimal};
ghost use Rattle.idl_listing.specs.Listing.{behind, class_word};
ghost use Rattle.ndr_code.specs.declared.instr.Instr.TheVariants.{Arm, Pointer};
ghost use Rattle.ndr_plan.specs.Listing.{attr_word, star_digit, check_words, instr_words};

use idl_listing::{class_word, number, signed, word};
use nd_base::{Memory, Octets};
use nd_types::{Attr, Class, TypeId};
use ndr_code::Instr;

// The word of an attribute.
fn attr_word(attr: Attr) -> &'static [u8]
    ensures { result.now ≡ attr_word attr }
{
    match attr {
        Attr::Size => b"size",
        Attr::Max => b"max",
        Attr::First => b"first",
        Attr::Length => b"length",
        Attr::Last => b"last",
        Attr::Switch => b"switch",
    }
}

// 1 if the variable is what a root points to.
fn star_digit(star: bool) -> u32
    ensures { result ≡ star_digit star }
{
    if star { 1 } else { 0 }
}

// A name with a number.
fn with_number(text: &mut Octets, name: &[u8], value: u32) -> Result<(), Memory>
    ensures { OnOk result (text.new ≡ text.old ++ behind (name.now ∷ decimal value ∷ [])) }
{
    word(text, name)?;
    number(text, value)?;
    Ok(())
}

// A name with two numbers.
fn with_numbers(text: &mut Octets, name: &[u8], first: u32, second: u32) -> Result<(), Memory>
    ensures { OnOk result (text.new ≡ text.old ++ behind (name.now ∷ decimal first ∷ decimal second ∷ [])) }
{
    with_number(text, name, first)?;
    number(text, second)?;
    Ok(())
}

// The arm of a label.
fn arm(text: &mut Octets, label: i128, run: u32) -> Result<(), Memory>
    ensures { OnOk result (text.new ≡ text.old ++ behind (instr_words (Arm label run))) }
{
    word(text, b"arm")?;
    signed(text, label)?;
    number(text, run)?;
    Ok(())
}

// A pointer.
fn pointer(text: &mut Octets, class: Class, to: TypeId, run: u32) -> Result<(), Memory>
    ensures { OnOk result (text.new ≡ text.old ++ behind (instr_words (Pointer class to run))) }
{
    word(text, b"pointer")?;
    with_numbers(text, class_word(class), to.0, run)?;
    Ok(())
}

// An agreement.
fn agreement(
    text: &mut Octets,
    name: &[u8],
    attr: Attr,
    field: u32,
    var: u32,
    star: bool,
) -> Result<(), Memory>
    ensures { OnOk result (text.new ≡ text.old ++ behind (name.now ∷ check_words attr field var star)) }
{
    word(text, name)?;
    with_numbers(text, attr_word(attr), field, var)?;
    number(text, star_digit(star))?;
    Ok(())
}

// The words of an instruction: its name, then its operands.
pub(crate) fn instr_words(text: &mut Octets, instr: Instr) -> Result<(), Memory>
    ensures { OnOk result (text.new ≡ text.old ++ behind (instr_words instr)) }
{
    match instr {
        Instr::Void => word(text, b"void"),
        Instr::Ret => word(text, b"ret"),
        Instr::Align { to } => with_number(text, b"align", u32::from(to)),
        Instr::Num { of } => with_number(text, b"num", of.0),
        Instr::Enum { of } => with_number(text, b"enum", of.0),
        Instr::Record { members } => with_number(text, b"record", members),
        Instr::Close => word(text, b"close"),
        Instr::Fixed { count, run } => with_numbers(text, b"fixed", count, run),
        Instr::Conf { run } => with_number(text, b"conf", run),
        Instr::Vary { bound, run } => with_numbers(text, b"vary", bound, run),
        Instr::Confvary { run } => with_number(text, b"confvary", run),
        Instr::Text { bound } => with_number(text, b"text", bound),
        Instr::Hoist => word(text, b"hoist"),
        Instr::Tag { of } => with_number(text, b"tag", of.0),
        Instr::Arm { label, run } => arm(text, label, run),
        Instr::Other { run } => with_number(text, b"other", run),
        Instr::Noarm => word(text, b"noarm"),
        Instr::Pointer { class, to, run } => pointer(text, class, to, run),
        Instr::Direct { to, run } => with_numbers(text, b"direct", to.0, run),
        Instr::Context => word(text, b"context"),
        Instr::Check {
            attr,
            field,
            var,
            star,
        } => agreement(text, b"check", attr, field, var, star),
        Instr::Given {
            attr,
            field,
            var,
            star,
        } => agreement(text, b"given", attr, field, var, star),
        Instr::Pipe { run } => with_number(text, b"pipe", run),
        Instr::Defer => word(text, b"defer"),
        Instr::Call { run } => with_number(text, b"call", run),
    }
}
