// The attribute configuration file that is named beside a file of IDL (C706, section 4.3).
ghost use Rattle.std.specs.Prelude.{◌≡◌, ◌≤◌, [], ◌∷◌, ◌++◌, option_map, option_to_list, IfOk, IfErr};
ghost use Rattle.nd_base.specs.Over.{files_over};
ghost use Rattle.idl_lexer.specs.Verdict.{IsFault};
ghost use Rattle.idl_names.specs.Loads.{IsOfText};
ghost use Rattle.acf_reader.specs.Seen.{seen_acf};
ghost use Rattle.command_compile.specs.Idl.{IsAcf, IsLoadedAcf, IsBeside};
ghost use Rattle.command_compile.specs.Loaded.{seen_file, seen_beside};
ghost use Rattle.command_compile.specs.Reading.{IsAcfCause, IsBesideCause, IsReportedAcf, IsReportedUnread};

use crate::reported::{or_memory, report_banned, report_in};
use acf_reader::{Acf, read_acf};
use command_refusals::{IdlReason, Refusal, load};
use idl_lexer::{LexFault, Tokens, lex};
use idl_names::SyntaxFault;
use nd_base::{Files, Octets};
use std::alloc::Global;

// An attribute configuration file that was loaded and read.
#[derive(Drop)]
pub(crate) struct NamedAcf<'a> {
    pub(crate) name: &'a str,
    pub(crate) text: Octets,
    pub(crate) tree: Acf,
}

// The attribute configuration file of a name, if one is named.
pub(crate) fn load_beside<'a, F: Files>(
    alloc: Global,
    name: Option<&'a str>,
    files: &mut F,
) -> Result<Option<NamedAcf<'a>>, Refusal>
    ensures beside { IfOk result (λ f. IsBeside (F.seen files.old).held (option_map (λ n. n.now) name.entry) (seen_beside f)) }
    ensures refused { IfErr result
        (IsBesideCause (files_over F.seen files.old files.new) (option_map (λ n. n.now) name.entry)) }
    ensures asked { (F.seen files.new).asked ≡ (F.seen files.old).asked ++ option_to_list (option_map (λ n. n.now) name.entry) }
    ensures later { (F.seen files.old).faults ≤ (F.seen files.new).faults }
    ensures absences_later { (F.seen files.old).absences ≤ (F.seen files.new).absences }
    ensures same { (F.seen files.new).held ≡ (F.seen files.old).held }
{
    match name {
        None => Ok(None),
        Some(name) => Ok(Some(load_acf(alloc, name, files)?)),
    }
}

// The attribute configuration file of a name.
fn load_acf<'a, F: Files>(
    alloc: Global,
    name: &'a str,
    files: &mut F,
) -> Result<NamedAcf<'a>, Refusal>
    ensures file { IfOk result (λ f. IsLoadedAcf (F.seen files.old).held name.now (seen_file f)) }
    ensures refused { IfErr result (IsAcfCause (files_over F.seen files.old files.new) name.now) }
    ensures asked { (F.seen files.new).asked ≡ (F.seen files.old).asked ++ name.now ∷ [] }
    ensures later { (F.seen files.old).faults ≤ (F.seen files.new).faults }
    ensures absences_later { (F.seen files.old).absences ≤ (F.seen files.new).absences }
    ensures same { (F.seen files.new).held ≡ (F.seen files.old).held }
{
    let text = load(alloc, name, files)?;
    let tree = read_text(alloc, name.as_bytes(), text.as_slice())?;
    Ok(NamedAcf { name, text, tree })
}

// The tree of the text of the attribute configuration file of a name.
fn read_text(alloc: Global, name: &[u8], text: &[u8]) -> Result<Acf, Refusal>
    ensures tree { IfOk result (λ f. IsAcf text.now (seen_acf f)) }
    ensures refused { IfErr result (IsReportedAcf name.now text.now) }
{
    let tokens = match lex(alloc, text) {
        Ok(tokens) => tokens,
        Err(fault) => return Err(uncut(alloc, name, text, fault)),
    };
    match read_acf(alloc, &tokens) {
        Ok(tree) => Ok(tree),
        Err(fault) => Err(unread(alloc, name, text, &tokens, fault)),
    }
}

// The fault of a text that cannot be cut into tokens.
fn uncut(alloc: Global, name: &[u8], text: &[u8], fault: LexFault) -> Refusal
    ensures { IsFault text.now fault → IsReportedAcf name.now text.now result }
{
    match fault {
        LexFault::Memory => Refusal::Memory,
        LexFault::At { at, kind } => or_memory(report_in(
            alloc,
            name,
            text,
            at,
            IdlReason::Lexical(kind),
        )),
    }
}

// The fault of tokens that are not an attribute configuration file.
fn unread(alloc: Global, name: &[u8], text: &[u8], tokens: &Tokens, fault: SyntaxFault) -> Refusal
    requires { IsOfText tokens.now fault }
    ensures { IsReportedUnread name.now text.now tokens.now fault result }
{
    match fault {
        SyntaxFault::Memory => Refusal::Memory,
        SyntaxFault::Syntax { token } => {
            or_memory(report_in(alloc, name, text, tokens.at(token), IdlReason::Syntax))
        }
        SyntaxFault::Deep { token } => {
            or_memory(report_in(alloc, name, text, tokens.at(token), IdlReason::Deep))
        }
        SyntaxFault::Banned { token } => {
            or_memory(report_banned(alloc, name, text, tokens.at(token)))
        }
    }
}
