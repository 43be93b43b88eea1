// Tokens as the grammar sees them.
ghost use Rattle.std.specs.Prelude.{◌≡◌, map, IfOk};
ghost use Rattle.idl_grammar.specs.Text.{is_in, symbol_among, IsFormed};
ghost use Rattle.idl_tokens.specs.Lexemes.{text_of};
ghost use Rattle.acf_reader.specs.FromIdl.{names_of_idl, symbol_from};
ghost use Rattle.acf_reader.specs.Symbols.{lexemes as grammar_lexemes};

use crate::words::OWN_WORDS;
use idl_grammar::Language;
use idl_lexer::Tokens;
use idl_tokens::lexemes::{Lexeme, among, lexemes as idl_lexemes};
use idl_tokens::symbol;
use std::alloc::{AllocError, Global};

/// The symbols of names of IDL, and of words with which its attributes begin: all of them are names here, but for the file's own words.
static NAMES_OF_IDL: [u8; 23] = [
    symbol::NAME,
    symbol::UUID,
    symbol::VERSION,
    symbol::ENDPOINT,
    symbol::LOCAL,
    symbol::POINTER_DEFAULT,
    symbol::REF,
    symbol::UNIQUE,
    symbol::PTR,
    symbol::IN,
    symbol::OUT,
    symbol::STRING,
    symbol::CONTEXT_HANDLE,
    symbol::SIZE_IS,
    symbol::MAX_IS,
    symbol::LENGTH_IS,
    symbol::FIRST_IS,
    symbol::LAST_IS,
    symbol::SWITCH_IS,
    symbol::SWITCH_TYPE,
    symbol::IDEMPOTENT,
    symbol::BROADCAST,
    symbol::MAYBE,
];

/// Whether a word of this symbol in IDL is a mere name here, if it is none of the file's own.
#[tactic(auto, unfolding(crate::specs::FromIdl::names_of_idl))]
fn is_name_of_idl(symbol: u8) -> bool
    ensures { result ≡ is_in names_of_idl symbol }
{
    NAMES_OF_IDL.iter().any(|other| symbol == *other)
}

/// The symbol of a token, from the one that it has in IDL.
#[tactic(auto, unfolding(crate::specs::FromIdl::symbol_from))]
fn own_symbol(symbol: u8, octets: &[u8]) -> u8
    ensures { result ≡ symbol_from symbol octets.now }
{
    if !is_name_of_idl(symbol) {
        return symbol;
    }
    among(&OWN_WORDS, symbol::NAME, octets)
}

/// The tokens of a text as the grammar sees them. Their words are identifiers, and their UUIDs have their form.
pub(crate) fn lexemes(alloc: Global, tokens: &Tokens) -> Result<Vec<Lexeme<'_>>, AllocError>
    ensures formed { IfOk result (λ v. IsFormed (text_of v.items)) }
    ensures text { IfOk result (λ v. text_of v.items ≡ grammar_lexemes tokens.now) }
{
    let in_idl = idl_lexemes(alloc, Language::C706, tokens)?;
    let mut list = Vec::with_capacity(alloc, in_idl.len())?;
    for lexeme in &in_idl {
        list.push(Lexeme {
            symbol: own_symbol(lexeme.symbol, lexeme.octets),
            at: lexeme.at,
            octets: lexeme.octets,
        })?;
    }
    Ok(list)
}
