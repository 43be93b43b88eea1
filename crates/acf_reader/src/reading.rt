// Whole texts.
ghost use Rattle.std.specs.Prelude.{◌≡◌, ◌≤◌, ◌<◌, length, Result};
ghost use Rattle.idl_grammar.specs.ReadPhrases.{Fault};
ghost use Rattle.idl_grammar.specs.Gives.{GivesWhole};
ghost use Rattle.idl_grammar.specs.Answers.{whole_read};
ghost use Rattle.acf_reader.specs.Answers.{IsAnswer, acf_answer};
ghost use Rattle.acf_reader.specs.Symbols.{lexemes as grammar_lexemes};
ghost use Rattle.acf_reader.specs.Reading.{acf_read};
ghost use Rattle.acf_reader.specs.Seen.{seen_acf};
ghost use Rattle.acf_reader.specs.Told.{Told};
ghost use Rattle.acf_reader.specs.Grammar as tree;

use crate::body::acf;
use crate::lexemes::lexemes;
use crate::tree::Acf;
use idl_grammar::{Refusal, SyntaxFault};
use idl_lexer::Tokens;
use idl_tokens::fault_of;
use idl_tokens::parser::Parser;
use std::alloc::Global;

/// A file as the whole text.
fn whole(parser: &Parser<'_>) -> Result<Acf, Refusal>
    ensures { GivesWhole seen_acf result (whole_read (acf_read parser.now 0) parser.now) }
{
    let (tree, at) = acf(parser, 0)?;
    if at != parser.count() {
        return Err(Refusal::Syntax(at));
    }
    Ok(tree)
}

/// The tree of a file, or its first fault.
fn answer(parser: &Parser<'_>) -> Result<Acf, SyntaxFault>
    requires few { length parser.now < 4294967296 }
    ensures { Told (λ a. acf_answer parser.now ≡ a) result }
{
    match whole(parser) {
        Ok(tree) => Ok(tree),
        Err(refusal) => Err(fault_of(parser, refusal)),
    }
}

/// The tree of an attribute configuration file (C706, section 4.3). The files of `include` are not opened.
///
/// # Errors
/// The first token with which no file goes on: Banned for a word of the language that this compiler leaves out, otherwise
/// Syntax, with the count of tokens where the text ends too early. Deep never comes, as four brackets at most are open.
/// Memory where memory was wanting.
///
/// Takes memory for the tree and, while it runs, for two entries a token. Looks at each token a bounded number of times.
pub fn read_acf(alloc: Global, tokens: &Tokens) -> Result<Acf, SyntaxFault>
    ensures answer { Told (λ a. IsAnswer (grammar_lexemes tokens.now) a) result }
    ensures only { (v : Result tree.Acf Fault) → IsAnswer (grammar_lexemes tokens.now) v → Told (λ a. v ≡ a) result }
{
    let _count = tokens.count();
    let list = lexemes(alloc, tokens)?;
    let parser = Parser::new(alloc, &list);
    answer(&parser)
}
