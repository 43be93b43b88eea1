// Tokens as the grammar sees them.
ghost use Rattle.std.specs.Prelude.{◌≡◌, ◌≤◌, length, map, IfOk};
ghost use Rattle.idl_grammar.specs.Text.{symbol_among, symbol_of_word as grammar_word, symbol_of as grammar_symbol};
ghost use Rattle.idl_grammar.specs.Text.{lexemes as grammar_lexemes, IsFormed};
ghost use Rattle.idl_tokens.specs.Lexemes.{text_of, seen_entry};

use crate::symbol;
use crate::words::{Entry, MARKS, WINDOWS_WORDS, WORDS};
use idl_grammar::Language;
use idl_lexer::{TokenKind, Tokens};
use std::alloc::{AllocError, Global};

/// A token: its symbol, the octet where it begins, and its octets.
#[derive(Clone, Copy)]
pub struct Lexeme<'a> {
    pub symbol: u8,
    pub at: u32,
    pub octets: &'a [u8],
}

/// The symbol that is spelled so, or another where the table has none. Takes no memory.
pub fn among(table: &[Entry], otherwise: u8, octets: &[u8]) -> u8
    ensures { result ≡ symbol_among (map seen_entry table.now) otherwise octets.now }
{
    for entry in table {
        if octets == entry.octets {
            return entry.symbol;
        }
    }
    otherwise
}

/// The symbol of a word. Here alone a language counts.
fn symbol_of_word(language: Language, octets: &[u8]) -> u8
    ensures { result ≡ grammar_word language octets.now }
{
    match language {
        Language::C706 => among(&WORDS, symbol::NAME, octets),
        Language::Windows => {
            let otherwise = among(&WINDOWS_WORDS, symbol::NAME, octets);
            among(&WORDS, otherwise, octets)
        }
    }
}

/// The symbol of a token.
#[tactic(auto, unfolding(idl_grammar::specs::Text::symbol_of))]
fn symbol_of(language: Language, kind: TokenKind, octets: &[u8]) -> u8
    ensures { result ≡ grammar_symbol language kind octets.now }
{
    match kind {
        TokenKind::Word => symbol_of_word(language, octets),
        TokenKind::Uuid => symbol::UUID_VALUE,
        TokenKind::Number => symbol::NUMBER,
        TokenKind::Char => symbol::CHARACTER,
        TokenKind::Str => symbol::QUOTED,
        TokenKind::Mark => among(&MARKS, symbol::UNKNOWN, octets),
    }
}

/// The tokens of a text as the grammar sees them in a language, in one pass. Their words are identifiers, and their UUIDs have their form.
pub fn lexemes(
    alloc: Global,
    language: Language,
    tokens: &Tokens,
) -> Result<Vec<Lexeme<'_>>, AllocError>
    ensures formed { IfOk result (λ v. IsFormed (text_of v.items)) }
    ensures text { IfOk result (λ v. text_of v.items ≡ grammar_lexemes language tokens.now) }
{
    let mut list = Vec::with_capacity(alloc, tokens.count() as usize)?;
    for token in 0..tokens.count() {
        let octets = tokens.text(token);
        list.push(Lexeme {
            symbol: symbol_of(language, tokens.kind(token), octets),
            at: tokens.at(token),
            octets,
        })?;
    }
    Ok(list)
}
