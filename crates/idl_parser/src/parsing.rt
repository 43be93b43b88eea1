// Whole files.
ghost use Rattle.std.specs.Prelude.{◌≡◌, ◌≤◌, ◌<◌, length, Result};
ghost use Rattle.idl_grammar.specs.ReadPhrases.{Fault};
ghost use Rattle.idl_grammar.specs.Gives.{GivesWhole};
ghost use Rattle.idl_grammar.specs.Answers.{whole_read, Answers, file_answer};
ghost use Rattle.idl_grammar.specs.Grammar.{file as grammar_file};
ghost use Rattle.idl_grammar.specs.Text.{lexemes as grammar_lexemes};
ghost use Rattle.idl_grammar.specs.Reading.{file_read};
ghost use Rattle.idl_grammar.specs.Seen.{seen_tree};
ghost use Rattle.idl_grammar.specs.Tree as tree;
ghost use Rattle.idl_parser.specs.Answered.{Told};

use crate::file::file;
use idl_grammar::{Language, Refusal, SyntaxFault, Tree};
use idl_lexer::Tokens;
use idl_tokens::fault_of;
use idl_tokens::lexemes::lexemes;
use idl_tokens::parser::Parser;
use std::alloc::Global;

/// How many levels the parts of an expression may nest: 64 brackets, 64 operators, and one more.
fn nesting() -> usize
    ensures { 129 ≤ result }
{
    129
}

/// How many levels types may nest: 64 brackets, and one more.
fn fuel() -> usize
    ensures { 64 ≤ result }
{
    65
}

/// A file as the whole text.
fn whole(parser: &Parser<'_>, fuel: usize, nesting: usize) -> Result<Tree, Refusal>
    ensures { GivesWhole seen_tree result (whole_read (file_read fuel nesting parser.now 0) parser.now) }
{
    let (tree, at) = file(parser, fuel, nesting, 0)?;
    if at != parser.count() {
        return Err(Refusal::Syntax(at));
    }
    Ok(tree)
}

/// The tree of a file, or its first fault.
fn answer(parser: &Parser<'_>, fuel: usize, nesting: usize) -> Result<Tree, SyntaxFault>
    requires few { length parser.now < 4294967296 }
    requires enough { 129 ≤ nesting }
    requires fueled { 64 ≤ fuel }
    ensures { Told (λ a. file_answer fuel nesting parser.now ≡ a) result }
{
    match whole(parser, fuel, nesting) {
        Ok(tree) => Ok(tree),
        Err(refusal) => Err(fault_of(parser, refusal)),
    }
}

/// The tree of an IDL file in a language (C706, section 4.2).
///
/// # Errors
/// The first token with which no file goes on: Deep for a bracket with 64 open, or for an operator with 64 before it
/// in its outermost expression; Banned for a word of the language that this compiler leaves out; otherwise Syntax,
/// with the count of tokens where the text ends too early. Memory where memory was wanting.
///
/// Takes memory for the tree and, while it runs, for one entry a token. Looks at each token a bounded number of times.
pub fn parse(alloc: Global, language: Language, tokens: &Tokens) -> Result<Tree, SyntaxFault>
    ensures answer { Told (λ a. Answers grammar_file (grammar_lexemes language tokens.now) a) result }
    ensures only { (v : Result tree.Tree Fault) → Answers grammar_file (grammar_lexemes language tokens.now) v → Told (λ a. v ≡ a) result }
{
    let _count = tokens.count();
    let list = lexemes(alloc, language, tokens)?;
    let parser = Parser::new(alloc, &list);
    answer(&parser, fuel(), nesting())
}
