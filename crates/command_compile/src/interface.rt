// The interface that files mean: the main file is loaded and read, its names are resolved with those of the files that it imports, and the rules are
// checked, with an attribute configuration file if one is named.
ghost use Rattle.std.specs.Prelude.{◌≡◌, ◌≤◌, ◌++◌, ℕ, List, Option, Some, length, drop, option_map, option_to_list, IfOk, IfErr};
ghost use Rattle.nd_base.specs.Over.{IsContent, files_over};
ghost use Rattle.acf_reader.specs.Seen.{seen_acf};
ghost use Rattle.idl_grammar.specs.Seen.{seen_tree};
ghost use Rattle.idl_grammar.specs.Files.{Idl, seen_idl};
ghost use Rattle.idl_names.specs.Walk.{IsFile, names_of};
ghost use Rattle.idl_names.specs.Loads.{IsOfText};
ghost use Rattle.idl_names.specs.Seen.{seen_scope};
ghost use Rattle.idl_names.specs.Causes.{IsAbsent, IsFailed};
ghost use Rattle.command_compile.specs.Idl.{tree_beside, main_file, AreResolved, Means, IsMainFault, IsNameFault};
ghost use Rattle.command_compile.specs.Compiled.{AsksFiles, IsCompiled, IsListed, IsPlanned, IsIdlCause, IsTextCause};
ghost use Rattle.command_compile.specs.Loaded.{seen_beside};
ghost use Rattle.command_compile.specs.Reading.{IsReportedUnparsed, IsJudged, MeansAfter, AsksAfter, AsksOfImports};

use crate::acf::{NamedAcf, load_beside};
use crate::reported::{or_memory, report_fault, report_rule};
use acf_reader::Acf;
use command_refusals::{Refusal, load};
use idl_check::{RuleFault, check};
use idl_grammar::{IdlFile, Language, Tree};
use idl_lexer::{Tokens, lex};
use idl_listing::interface_listing;
use idl_names::{NameFault, Scope, Sources, SyntaxFault, resolve};
use idl_parser::parse;
use nd_base::{Files, Memory, Octets};
use nd_types::Interface;
use ndr_plan::{listing, make};
use std::alloc::Global;

/// The listing of the interface that [`compile`] answers.
///
/// # Errors
/// Absent and FileFailed, the first file that was due and does not exist or could not be read. BadIdl, the first fault of the files, at its line
/// and column. Memory where memory was refused.
///
/// Takes memory for the files, the interface and the listing.
pub fn list<F: Files>(
    alloc: Global,
    idl: IdlFile<'_>,
    acf: Option<&str>,
    files: &mut F,
) -> Result<Octets, Refusal>
    ensures asked { AsksFiles (files_over F.seen files.old files.new)
        (Some (record { idl = seen_idl idl.entry; acf = option_map (λ a. a.now) acf.entry })) }
    ensures listed { IfOk result
        (IsListed (files_over F.seen files.old files.new) (seen_idl idl.entry) (option_map (λ a. a.now) acf.entry)) }
    ensures refused { IfErr result
        (IsIdlCause (files_over F.seen files.old files.new) (seen_idl idl.entry) (option_map (λ a. a.now) acf.entry)) }
{
    let interface = compile(alloc, idl, acf, files)?;
    Ok(interface_listing(alloc, &interface)?)
}

/// The listing of the plan of the interface that [`compile`] answers: the instructions by which its octets are read and written.
///
/// # Errors
/// Absent and FileFailed, the first file that was due and does not exist or could not be read. BadIdl, the first fault of the files, at its line
/// and column. Memory where memory was refused.
///
/// Takes memory for the files, the interface, the plan and the listing.
pub fn list_plan<F: Files>(
    alloc: Global,
    idl: IdlFile<'_>,
    acf: Option<&str>,
    files: &mut F,
) -> Result<Octets, Refusal>
    ensures asked { AsksFiles (files_over F.seen files.old files.new)
        (Some (record { idl = seen_idl idl.entry; acf = option_map (λ a. a.now) acf.entry })) }
    ensures planned { IfOk result
        (IsPlanned (files_over F.seen files.old files.new) (seen_idl idl.entry) (option_map (λ a. a.now) acf.entry)) }
    ensures refused { IfErr result
        (IsIdlCause (files_over F.seen files.old files.new) (seen_idl idl.entry) (option_map (λ a. a.now) acf.entry)) }
{
    let interface = compile(alloc, idl, acf, files)?;
    let plan = make(alloc, &interface)?;
    Ok(listing(alloc, &plan)?)
}

/// The interface that a file of IDL means with those that it imports, and with an attribute configuration file if one is named (C706, chapter 4).
/// The file `idl` is loaded first, then each import where the walk comes to it, and `acf` once all names are resolved; no file is loaded before it is
/// due.
///
/// # Errors
/// Absent and FileFailed, the first file that was due and does not exist or could not be read. BadIdl, the first fault of the files, at its line
/// and column. Memory where memory was refused.
///
/// Takes memory for the files and the interface.
pub fn compile<F: Files>(
    alloc: Global,
    idl: IdlFile<'_>,
    acf: Option<&str>,
    files: &mut F,
) -> Result<Interface, Refusal>
    ensures asked { AsksFiles (files_over F.seen files.old files.new)
        (Some (record { idl = seen_idl idl.entry; acf = option_map (λ a. a.now) acf.entry })) }
    ensures ok { IfOk result
        (IsCompiled (files_over F.seen files.old files.new) (seen_idl idl.entry) (option_map (λ a. a.now) acf.entry)) }
    ensures err { IfErr result
        (IsIdlCause (files_over F.seen files.old files.new) (seen_idl idl.entry) (option_map (λ a. a.now) acf.entry)) }
    ensures later { (F.seen files.old).faults ≤ (F.seen files.new).faults }
    ensures absences_later { (F.seen files.old).absences ≤ (F.seen files.new).absences }
    ensures same { (F.seen files.new).held ≡ (F.seen files.old).held }
{
    let text = load(alloc, idl.name, files)?;
    compile_text(alloc, idl, text, acf, files)
}

// The interface that a text means with the files that it imports, and an attribute configuration file if one is named.
fn compile_text<F: Files>(
    alloc: Global,
    idl: IdlFile<'_>,
    text: Octets,
    acf: Option<&str>,
    files: &mut F,
) -> Result<Interface, Refusal>
    requires { IsContent (F.seen files.old).held idl.name.now text }
    ensures asked { AsksAfter (files_over F.seen files.old files.new) (seen_idl idl.entry) (option_map (λ a. a.now) acf.entry) }
    ensures ok { IfOk result
        (MeansAfter (files_over F.seen files.old files.new) (seen_idl idl.entry) text (option_map (λ a. a.now) acf.entry)) }
    ensures err { IfErr result
        (IsTextCause (files_over F.seen files.old files.new) (seen_idl idl.entry) text (option_map (λ a. a.now) acf.entry)) }
    ensures later { (F.seen files.old).faults ≤ (F.seen files.new).faults }
    ensures absences_later { (F.seen files.old).absences ≤ (F.seen files.new).absences }
    ensures same { (F.seen files.new).held ≡ (F.seen files.old).held }
{
    let mut sources = main_sources(alloc, idl, text)?;
    match scope_of(alloc, idl.language, files, &mut sources) {
        Ok(scope) => judge(alloc, &sources, &scope, acf, files),
        Err(fault) => Err(or_memory(report_fault(alloc, &sources, fault))),
    }
}

// The main file alone.
fn main_sources(alloc: Global, idl: IdlFile<'_>, text: Octets) -> Result<Sources, Memory>
    ensures { IfOk result (λ sources. sources ≡ main_file (seen_idl idl.entry) text) }
{
    let mut sources = Sources::new(alloc);
    match sources.add(idl.name, text) {
        Ok(_) => Ok(sources),
        Err((memory, _)) => Err(memory),
    }
}

// The names of the main file, and of those that it imports.
fn scope_of<F: Files>(
    alloc: Global,
    language: Language,
    files: &mut F,
    sources: &mut Sources,
) -> Result<Scope, NameFault>
    requires { length sources.old ≡ 1 }
    ensures scope { (name text : List ℕ) → sources.old ≡ main_file (record { name = name; language = language }) text
        → IfOk result (λ scope. AreResolved (F.seen files.old).held (record { name = name; language = language }) text
        (seen_scope language sources.new scope)) }
    ensures fault { (name text : List ℕ) → sources.old ≡ main_file (record { name = name; language = language }) text
        → IfErr result (IsNameFault (F.seen files.old).held (record { name = name; language = language }) text sources.new) }
    ensures asked { (name text : List ℕ) → sources.old ≡ main_file (record { name = name; language = language }) text
        → AsksOfImports (F.seen files.old).held (record { name = name; language = language }) text (F.seen files.old).asked (F.seen files.new).asked }
    ensures all_asked { IfOk result (λ _. (F.seen files.new).asked ≡ (F.seen files.old).asked ++ names_of (drop 1 sources.new)) }
    ensures absent { IfErr result (IsAbsent (F.seen files.old).absences (F.seen files.new).absences) }
    ensures failed { IfErr result (IsFailed (F.seen files.old).faults (F.seen files.new).faults) }
    ensures later { (F.seen files.old).faults ≤ (F.seen files.new).faults }
    ensures absences_later { (F.seen files.old).absences ≤ (F.seen files.new).absences }
    ensures same { (F.seen files.new).held ≡ (F.seen files.old).held }
{
    let tree = main_tree(alloc, language, sources)?;
    resolve(alloc, language, files, sources, tree)
}

// The tree of the main file.
fn main_tree(alloc: Global, language: Language, sources: &Sources) -> Result<Tree, NameFault>
    requires { length sources.now ≡ 1 }
    ensures tree { (name text : List ℕ) → sources.now ≡ main_file (record { name = name; language = language }) text
        → IfOk result (λ t. IsFile language text (seen_tree t)) }
    ensures fault { (name text : List ℕ) → sources.now ≡ main_file (record { name = name; language = language }) text
        → IfErr result (IsMainFault language text) }
{
    let Some(text) = sources.text(0) else {
        unreachable!()
    };
    tree_of(alloc, language, text)
}

// The tree of the text of a main file.
fn tree_of(alloc: Global, language: Language, text: &[u8]) -> Result<Tree, NameFault>
    ensures tree { IfOk result (λ t. IsFile language text.now (seen_tree t)) }
    ensures fault { IfErr result (IsMainFault language text.now) }
{
    let tokens = match lex(alloc, text) {
        Ok(tokens) => tokens,
        Err(fault) => return Err(NameFault::Lex { file: 0, fault }),
    };
    match parse(alloc, language, &tokens) {
        Ok(tree) => Ok(tree),
        Err(fault) => Err(no_file(&tokens, fault)),
    }
}

// The fault of tokens that are not a file of the language.
fn no_file(tokens: &Tokens, fault: SyntaxFault) -> NameFault
    requires { IsOfText tokens.now fault }
    ensures { IsReportedUnparsed tokens.now fault result }
{
    match fault {
        SyntaxFault::Memory => NameFault::Memory,
        SyntaxFault::Syntax { token }
        | SyntaxFault::Deep { token }
        | SyntaxFault::Banned { token } => NameFault::Syntax {
            file: 0,
            at: tokens.at(token),
            fault,
        },
    }
}

// The interface of files whose names are resolved, if they keep the rules, with an attribute configuration file if one is named.
fn judge<F: Files>(
    alloc: Global,
    sources: &Sources,
    scope: &Scope,
    acf: Option<&str>,
    files: &mut F,
) -> Result<Interface, Refusal>
    ensures asked { (F.seen files.new).asked ≡ (F.seen files.old).asked ++ option_to_list (option_map (λ a. a.now) acf.entry) }
    ensures ok { (idl : Idl) (text : List ℕ) → (r : AreResolved (F.seen files.old).held idl text (seen_scope idl.language sources.now scope.now))
        → IfOk result (IsJudged (F.seen files.old).held idl text (option_map (λ a. a.now) acf.entry)
        (seen_scope idl.language sources.now scope.now)) }
    ensures err { (idl : Idl) (text : List ℕ) → AreResolved (F.seen files.old).held idl text (seen_scope idl.language sources.now scope.now)
        → IfErr result
        (IsTextCause (files_over F.seen files.old files.new) idl text (option_map (λ a. a.now) acf.entry)) }
    ensures later { (F.seen files.old).faults ≤ (F.seen files.new).faults }
    ensures absences_later { (F.seen files.old).absences ≤ (F.seen files.new).absences }
    ensures same { (F.seen files.new).held ≡ (F.seen files.old).held }
{
    let beside = load_beside(alloc, acf, files)?;
    match check(alloc, scope, tree_of_beside(&beside)) {
        Ok(interface) => Ok(interface),
        Err(RuleFault::Memory) => Err(Refusal::Memory),
        Err(RuleFault::Broken { rule, place }) => Err(or_memory(report_rule(
            alloc, sources, &beside, rule, place,
        ))),
    }
}

// The tree of an attribute configuration file, if there is one.
fn tree_of_beside<'a>(beside: &'a Option<NamedAcf<'_>>) -> Option<&'a Acf>
    ensures { option_map (λ t. seen_acf t.now) result ≡ tree_beside (seen_beside beside.now) }
{
    match beside {
        Some(file) => Some(&file.tree),
        None => None,
    }
}
