// Imported files.
ghost use Rattle.std.specs.Prelude.{◌≡◌, ℕ, ◌≤◌, ◌<◌, List, [], length, IfOk, IfErr, OnOk, OnErr};
ghost use Rattle.idl_lexer.specs.Verdict.{AreTokens};
ghost use Rattle.idl_grammar.specs.declared.language.Language.{Language as LanguageValue};
ghost use Rattle.idl_grammar.specs.Seen.{seen_tree};
ghost use Rattle.idl_scope.specs.declared.name_fault.NameFault.TheVariants as faults;
ghost use Rattle.idl_names.specs.Causes.{IsAbsent, IsFailed};
ghost use Rattle.idl_names.specs.Walk.{IsFile, Source, and_source, most_files};
ghost use Rattle.idl_names.specs.Going.{Asked};
ghost use Rattle.idl_names.specs.Loads.{IsFaultOf, IsOfText, told_syntax, told_load, IsLoaded, IsLoadFault};
ghost use Rattle.idl_scope.specs.Seen.{seen_file};

use crate::{FILES_LIMIT, Sources};
use idl_grammar::{Language, SyntaxFault, Tree};
use idl_lexer::{LexFault, Tokens, lex};
use idl_parser::parse;
use idl_scope::{FileTree, NameFault};
use nd_base::{FileFault, Files, Octets};
use std::alloc::Global;

/// The tokens of a file.
fn tokens_of(alloc: Global, file: u16, text: &[u8]) -> Result<Tokens, NameFault>
    ensures text { IfOk result (λ t. t.text ≡ text.now) }
    ensures tokens { IfOk result (λ t. AreTokens text.now t.tokens) }
    ensures fault { (language : LanguageValue) → IfErr result (IsFaultOf language file text.now) }
{
    match lex(alloc, text) {
        Ok(tokens) => Ok(tokens),
        Err(LexFault::Memory) => Err(NameFault::Memory),
        Err(LexFault::At { at, kind }) => Err(NameFault::Lex {
            file,
            fault: LexFault::At { at, kind },
        }),
    }
}

/// The fault of a file whose tokens are no file of the language.
fn syntax_fault(file: u16, tokens: &Tokens, fault: SyntaxFault) -> NameFault
    requires { IsOfText tokens.now fault }
    ensures { result ≡ told_syntax file tokens.now fault }
{
    match fault {
        SyntaxFault::Memory => NameFault::Memory,
        SyntaxFault::Syntax { token }
        | SyntaxFault::Deep { token }
        | SyntaxFault::Banned { token } => NameFault::Syntax {
            file,
            at: tokens.at(token),
            fault,
        },
    }
}

/// The tree of a file.
fn tree_of(alloc: Global, language: Language, file: u16, text: &[u8]) -> Result<Tree, NameFault>
    ensures tree { IfOk result (λ t. IsFile language text.now (seen_tree t)) }
    ensures fault { IfErr result (IsFaultOf language file text.now) }
{
    let tokens = tokens_of(alloc, file, text)?;
    match parse(alloc, language, &tokens) {
        Ok(tree) => Ok(tree),
        Err(fault) => Err(syntax_fault(file, &tokens, fault)),
    }
}

/// Adds a file whose load begins. It has no text yet.
fn begin(alloc: Global, sources: &mut Sources, name: &str) -> Result<u16, NameFault>
    requires { length sources.old < FILES_LIMIT }
    ensures number { IfOk result (λ file. file ≡ length sources.old) }
    ensures ok { OnOk result (sources.new ≡ and_source sources.old name.now []) }
    ensures err { OnErr result (sources.new ≡ sources.old) }
    ensures fault { IfErr result (λ f. f ≡ faults.Memory) }
{
    match sources.add(name, Octets::new(alloc)) {
        Ok(file) => Ok(file),
        Err(_) => Err(NameFault::Memory),
    }
}

/// Gives a file that was loaded its text, and reads it.
fn read(
    alloc: Global,
    language: Language,
    sources: &mut Sources,
    file: u16,
    text: Octets,
) -> Result<FileTree, NameFault>
    requires { file < length sources.old }
    ensures filled { (before : List Source) (name : List ℕ) → file ≡ length before → sources.old ≡ and_source before name []
        → sources.new ≡ and_source before name text }
    ensures number { IfOk result (λ f. f.file ≡ file) }
    ensures tree { IfOk result (λ f. IsFile language text (seen_tree f.tree)) }
    ensures fault { IfErr result (IsFaultOf language file text) }
{
    let tree = tree_of(alloc, language, file, text.as_slice());
    sources.fill(file, text);
    Ok(FileTree { file, tree: tree? })
}

/// The fault of a file that was not loaded.
fn unloaded(file: u16, fault: FileFault) -> NameFault
    ensures { result ≡ told_load file fault }
{
    match fault {
        FileFault::Absent => NameFault::Absent { file },
        FileFault::Failed => NameFault::Failed { file },
        FileFault::Memory => NameFault::Memory,
    }
}

/// Adds a file, loads it, and reads it.
pub(crate) fn load<F: Files>(
    alloc: Global,
    language: Language,
    files: &mut F,
    sources: &mut Sources,
    name: &str,
) -> Result<FileTree, NameFault>
    requires { length sources.old < most_files }
    ensures ok { IfOk result (λ f. IsLoaded language (F.seen files.old).held sources.old name.now sources.new (seen_file f)) }
    ensures err { IfErr result (IsLoadFault language (F.seen files.old).held sources.old name.now sources.new) }
    ensures absent { IfErr result (IsAbsent (F.seen files.old).absences (F.seen files.new).absences) }
    ensures failed { IfErr result (IsFailed (F.seen files.old).faults (F.seen files.new).faults) }
    ensures later { (F.seen files.old).faults ≤ (F.seen files.new).faults }
    ensures absences_later { (F.seen files.old).absences ≤ (F.seen files.new).absences }
    ensures same { (F.seen files.new).held ≡ (F.seen files.old).held }
    ensures asked { Asked (F.seen files.old).asked sources.old (F.seen files.new).asked sources.new }
    ensures few { length sources.new ≤ most_files }
    ensures more { length sources.old ≤ length sources.new }
{
    let file = begin(alloc, sources, name)?;
    match files.load(alloc, name) {
        Ok(text) => read(alloc, language, sources, file, text),
        Err(fault) => Err(unloaded(file, fault)),
    }
}
