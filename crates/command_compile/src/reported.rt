// How a fault of the files is reported: by the name of its file, and its line and column there.
ghost use Rattle.std.specs.Prelude.{◌≡◌, ◌≤◌, length, take, take_while, Some, IfOk};
ghost use Rattle.command_refusals.specs.declared.refusal.Refusal.{Refusal as RefusalValue};
ghost use Rattle.command_refusals.specs.declared.refusal.IdlReason.TheVariants as reason;
ghost use Rattle.nd_base.specs.Text.{is_word_octet as is_of_word, position_of as position_at};
ghost use Rattle.command_compile.specs.Reading.{IsOrMemory};
ghost use Rattle.command_compile.specs.Idl.{name_in as name_of_file, text_in as text_of_file, word_at as word_from, reported_by};
ghost use Rattle.command_compile.specs.Idl.{reported_at as reported_there, reported_fault, reported_beside};
ghost use Rattle.command_compile.specs.Loaded.{seen_beside};

use crate::acf::NamedAcf;
use command_refusals::{IdlReason, Refusal};
use idl_check::ACF_FILE;
use idl_lexer::LexFault;
use idl_names::{NameFault, Sources, SyntaxFault};
use nd_base::text::{is_word_octet, position};
use nd_base::{Memory, Octets, Place};
use std::alloc::Global;

// The name of a file.
fn name_in(sources: &Sources, file: u16) -> &[u8]
    ensures { result.now ≡ name_of_file sources.now file }
{
    match sources.name(file) {
        Some(name) => name.as_bytes(),
        None => b"",
    }
}

// The text of a file.
fn text_in(sources: &Sources, file: u16) -> &[u8]
    ensures { result.now ≡ text_of_file sources.now file }
{
    match sources.text(file) {
        Some(text) => text,
        None => b"",
    }
}

// A copy of the word at a place.
fn word_in(alloc: Global, sources: &Sources, place: Place) -> Result<Octets, Memory>
    ensures { IfOk result (λ word. word ≡ word_from (text_of_file sources.now place.file) place.at) }
{
    Octets::copy(alloc, word_at(text_in(sources, place.file), place.at))
}

// A refusal at a place.
fn reported_at(
    alloc: Global,
    sources: &Sources,
    place: Place,
    reason: IdlReason,
) -> Result<Refusal, Memory>
    ensures { IfOk result (λ r. r ≡ reported_there sources.now place reason) }
{
    report_in(
        alloc,
        name_in(sources, place.file),
        text_in(sources, place.file),
        place.at,
        reason,
    )
}

// A refusal at an octet of the text of a file.
pub(crate) fn report_in(
    alloc: Global,
    name: &[u8],
    text: &[u8],
    at: u32,
    reason: IdlReason,
) -> Result<Refusal, Memory>
    ensures { IfOk result (λ r. r ≡ reported_by name.now (position_at text.now at) reason) }
{
    let file = Octets::copy(alloc, name)?;
    let (line, column) = position_of(text, at);
    Ok(Refusal::BadIdl {
        file,
        line,
        column,
        reason,
    })
}

// A refusal at a word of the text of a file, which the language leaves out.
pub(crate) fn report_banned(
    alloc: Global,
    name: &[u8],
    text: &[u8],
    at: u32,
) -> Result<Refusal, Memory>
    ensures { IfOk result (λ r. r ≡ reported_by name.now (position_at text.now at) (reason.Banned (word_from text.now at))) }
{
    let word = Octets::copy(alloc, word_at(text, at))?;
    report_in(alloc, name, text, at, IdlReason::Banned { word })
}

// A refusal, or that memory ran out for it.
pub(crate) fn or_memory(told: Result<Refusal, Memory>) -> Refusal
    ensures { (due : RefusalValue) → IfOk told (λ r. r ≡ due) → IsOrMemory due result }
{
    match told {
        Ok(refusal) => refusal,
        Err(_) => Refusal::Memory,
    }
}

// A broken rule as a refusal: of the attribute configuration file, if its place is one of that file, or else of a file of IDL.
pub(crate) fn report_rule(
    alloc: Global,
    sources: &Sources,
    beside: &Option<NamedAcf<'_>>,
    rule: u8,
    place: Place,
) -> Result<Refusal, Memory>
    ensures { IfOk result (λ r. r ≡ reported_beside sources.now (seen_beside beside.now) rule place) }
{
    match beside {
        Some(file) if place.file == ACF_FILE => report_in(
            alloc,
            file.name.as_bytes(),
            file.text.as_slice(),
            place.at,
            IdlReason::Rule(rule),
        ),
        _ => reported_at(alloc, sources, place, IdlReason::Rule(rule)),
    }
}

// A fault of names, of the main file or of an import, as a refusal.
pub(crate) fn report_fault(
    alloc: Global,
    sources: &Sources,
    fault: NameFault,
) -> Result<Refusal, Memory>
    ensures { IfOk result (λ r. r ≡ reported_fault sources.now fault) }
{
    match fault {
        NameFault::Memory => Ok(Refusal::Memory),
        NameFault::Unknown { place } => {
            let name = word_in(alloc, sources, place)?;
            reported_at(alloc, sources, place, IdlReason::Unknown { name })
        }
        NameFault::Twice { place, .. } => {
            let name = word_in(alloc, sources, place)?;
            reported_at(alloc, sources, place, IdlReason::Twice { name })
        }
        NameFault::Const { place, fault } => {
            reported_at(alloc, sources, place, IdlReason::NoValue(fault))
        }
        NameFault::ImportCycle { place } => {
            reported_at(alloc, sources, place, IdlReason::ImportCycle)
        }
        NameFault::TooMany { place } => reported_at(alloc, sources, place, IdlReason::TooMany),
        NameFault::Absent { file } => Ok(Refusal::Absent {
            file: Octets::copy(alloc, name_in(sources, file))?,
        }),
        NameFault::Failed { file } => Ok(Refusal::FileFailed {
            file: Octets::copy(alloc, name_in(sources, file))?,
        }),
        NameFault::Lex { file, fault } => report_lexical(alloc, sources, file, fault),
        NameFault::Syntax { file, at, fault } => report_syntax(alloc, sources, file, at, fault),
    }
}

// The fault of a file that cannot be cut into tokens.
fn report_lexical(
    alloc: Global,
    sources: &Sources,
    file: u16,
    fault: LexFault,
) -> Result<Refusal, Memory>
    ensures { IfOk result (λ r. r ≡ reported_fault sources.now (NameFault.Lex file fault)) }
{
    match fault {
        LexFault::Memory => Ok(Refusal::Memory),
        LexFault::At { at, kind } => {
            reported_at(alloc, sources, Place { file, at }, IdlReason::Lexical(kind))
        }
    }
}

// The fault of a file that is not one of the language.
fn report_syntax(
    alloc: Global,
    sources: &Sources,
    file: u16,
    at: u32,
    fault: SyntaxFault,
) -> Result<Refusal, Memory>
    ensures { IfOk result (λ r. r ≡ reported_fault sources.now (NameFault.Syntax file at fault)) }
{
    let place = Place { file, at };
    match fault {
        SyntaxFault::Memory => Ok(Refusal::Memory),
        SyntaxFault::Syntax { .. } => reported_at(alloc, sources, place, IdlReason::Syntax),
        SyntaxFault::Deep { .. } => reported_at(alloc, sources, place, IdlReason::Deep),
        SyntaxFault::Banned { .. } => report_banned(
            alloc,
            name_in(sources, file),
            text_in(sources, file),
            at,
        ),
    }
}

// Line and column of an octet of a text, both from 1.
fn position_of(text: &[u8], at: u32) -> (u64, u64)
    ensures { result ≡ position_at text.now at }
{
    let front = text.len().min(at as usize);
    position(&text[..front])
}

// Where the letters, digits and `_` at the front of a text end.
fn word_end(text: &[u8]) -> usize
    ensures within { result ≤ length text.now }
    ensures word { take result text.now ≡ take_while is_of_word text.now }
{
    let mut end = 0;
    while end < text.len() && is_word_octet(text[end]) {
        end += 1;
    }
    end
}

// The letters, digits and `_` that are in a text from an octet on.
fn word_at(text: &[u8], at: u32) -> &[u8]
    ensures { result.now ≡ word_from text.now at }
{
    let rest = &text[text.len().min(at as usize)..];
    &rest[..word_end(rest)]
}
