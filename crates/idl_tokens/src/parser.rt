// The parts of one token.
ghost use Rattle.std.specs.Prelude.{◌≡◌, ◌≤◌, ◌<◌, ◌+◌, length, IfOk, IfErr, false};
ghost use Rattle.idl_grammar.specs.declared.refusal.Refusal.TheVariants as refusal;
ghost use Rattle.idl_grammar.specs.Text.{symbol_at, lexeme_at, is, is_in, no_words, IsFormed};
ghost use Rattle.idl_grammar.specs.ReadPhrases.{mark_read, open_read};
ghost use Rattle.idl_grammar.specs.Gives.{Gives, GivesPlace};
ghost use Rattle.idl_grammar.specs.Expressions.{spelling as spelling_of, names};
ghost use Rattle.idl_grammar.specs.Symbols as symbols;
ghost use Rattle.idl_grammar.specs.ReadExpressions.{spelled_read, placed_read, ident_read, opening_read};
ghost use Rattle.idl_tokens.specs.Lexemes.{text_of};

use crate::lexemes::Lexeme;
use crate::symbol;
use idl_grammar::{Identifier, Refusal, Spelling, UuidText};
use nd_base::Octets;
use std::alloc::Global;
use std::marker::Model;

/// How many brackets may be open.
const DEPTH_LIMIT: usize = 64;

/// What the functions of the parser read. Each goes from a place, the number of a token, to what is there and
/// the place past it.
#[derive(Drop)]
pub struct Parser<'a> {
    alloc: Global,
    lexemes: &'a [Lexeme<'a>],
}

impl<'a> Model for Parser<'a> {
    ghost use Rattle.idl_grammar.specs.Text.{Text, IsFormed};
    ghost use Rattle.idl_tokens.specs.Lexemes.{text_of};

    ghost Value = { Text };

    ghost view = { λ p. text_of p.lexemes.now };

    ghost invariant = { λ p. IsFormed (text_of p.lexemes.now) };
}

/// The symbols of names inside attribute brackets.
static NAMES_INSIDE: [u8; 2] = [symbol::NAME, symbol::BANNED_ATTRIBUTE];

/// The symbols of names elsewhere.
static NAMES_OUTSIDE: [u8; 26] = [
    symbol::NAME,
    symbol::BANNED_ATTRIBUTE,
    symbol::UUID,
    symbol::VERSION,
    symbol::ENDPOINT,
    symbol::LOCAL,
    symbol::POINTER_DEFAULT,
    symbol::REF,
    symbol::UNIQUE,
    symbol::PTR,
    symbol::IN,
    symbol::OUT,
    symbol::STRING,
    symbol::CONTEXT_HANDLE,
    symbol::SIZE_IS,
    symbol::MAX_IS,
    symbol::LENGTH_IS,
    symbol::FIRST_IS,
    symbol::LAST_IS,
    symbol::SWITCH_IS,
    symbol::SWITCH_TYPE,
    symbol::IDEMPOTENT,
    symbol::BROADCAST,
    symbol::MAYBE,
    symbol::ANY_SIZE,
    symbol::ANY_LENGTH,
];

/// Whether a symbol is one of a list.
pub(crate) fn is_among(list: &[u8], symbol: u8) -> bool
    ensures { result ≡ is_in list.now symbol }
{
    list.iter().any(|other| symbol == *other)
}

/// Whether a symbol is that of a name, inside attribute brackets or outside.
#[tactic(auto, unfolding(idl_grammar::specs::Expressions::names))]
pub(crate) fn is_name_symbol(inside: bool, symbol: u8) -> bool
    ensures { result ≡ is_in (names inside) symbol }
{
    if inside {
        is_among(&NAMES_INSIDE, symbol)
    } else {
        is_among(&NAMES_OUTSIDE, symbol)
    }
}

impl<'a> Parser<'a> {
    /// A parser of these tokens, whose words are identifiers and whose UUIDs have their form.
    pub fn new(alloc: Global, lexemes: &'a [Lexeme<'a>]) -> Parser<'a>
        requires { IsFormed (text_of lexemes.now) }
        ensures { result ≡ text_of lexemes.now }
    {
        Parser { alloc, lexemes }
    }
}

impl Parser<'_> {
    /// How many tokens there are.
    pub fn count(&self) -> usize
        ensures { result ≡ length self.now }
    {
        self.lexemes.len()
    }

    /// The allocator of what is read.
    pub fn alloc(&self) -> Global {
        self.alloc
    }

    /// The symbol at a place, that of the end past the last token.
    pub fn symbol(&self, at: usize) -> u8
        ensures { result ≡ symbol_at self.now at }
    {
        match self.lexemes.get(at) {
            Some(lexeme) => lexeme.symbol,
            None => symbol::END,
        }
    }

    /// Whether a symbol is at a place.
    pub fn stands(&self, wanted: u8, at: usize) -> bool
        ensures { result ≡ is (symbol_at self.now at) wanted }
    {
        self.symbol(at) == wanted
    }

    /// Whether one of these symbols is at a place.
    pub fn begins(&self, symbols: &[u8], at: usize) -> bool
        ensures { result ≡ is_in symbols.now (symbol_at self.now at) }
    {
        is_among(symbols, self.symbol(at))
    }

    /// The octet where a token begins, 0 past the last token.
    pub fn octet(&self, at: usize) -> u32
        ensures { result ≡ (lexeme_at self.now at).at }
    {
        match self.lexemes.get(at) {
            Some(lexeme) => lexeme.at,
            None => 0,
        }
    }

    /// The place past a token.
    pub fn past(&self, at: usize) -> usize
        requires { at < length self.now }
        ensures { result ≡ at + 1 }
    {
        let _count = self.lexemes.len();
        at + 1
    }

    /// A token as it is spelled.
    pub fn copied(&self, at: usize) -> Result<Spelling, Refusal>
        requires { at < length self.now }
        ensures spelling { IfOk result (λ s. s ≡ spelling_of (lexeme_at self.now at)) }
        ensures refusal { IfErr result (λ e. e ≡ refusal.Memory) }
    {
        match self.lexemes.get(at) {
            Some(lexeme) => match Octets::copy(self.alloc, lexeme.octets) {
                Ok(octets) => Ok(Spelling {
                    at: lexeme.at,
                    octets,
                }),
                Err(_) => Err(Refusal::Memory),
            },
            None => unreachable!(),
        }
    }

    /// A word as it is spelled.
    pub fn word(&self, at: usize) -> Result<Identifier, Refusal>
        requires within { at < length self.now }
        requires word { is_in no_words (symbol_at self.now at) ≡ false }
        ensures spelling { IfOk result (λ s. s ≡ spelling_of (lexeme_at self.now at)) }
        ensures refusal { IfErr result (λ e. e ≡ refusal.Memory) }
    {
        let spelling = self.copied(at)?;
        let _lexemes = &self.lexemes;
        Ok(Identifier::new(spelling))
    }

    /// A mark or a word.
    #[tactic(auto, using(idl_grammar::proofs::Within::mark_within))]
    pub fn mark(&self, wanted: u8, at: usize) -> Result<usize, Refusal>
        requires real { is 0 wanted ≡ false }
        requires within { at ≤ length self.now }
        ensures gives { GivesPlace result (mark_read wanted self.now at) }
        ensures within { IfOk result (λ x. (at < x) × (x ≤ length self.now)) }
    {
        if !self.stands(wanted, at) {
            return Err(Refusal::Syntax(at));
        }
        Ok(self.past(at))
    }

    /// The octet of a mark or a word.
    #[tactic(auto, using(idl_grammar::proofs::Within::mark_within))]
    pub fn placed(&self, wanted: u8, at: usize) -> Result<(u32, usize), Refusal>
        requires real { is 0 wanted ≡ false }
        requires within { at ≤ length self.now }
        ensures gives { Gives (λ x. x) result (placed_read wanted self.now at) }
        ensures within { IfOk result (λ x. (at < x.1) × (x.1 ≤ length self.now)) }
    {
        if !self.stands(wanted, at) {
            return Err(Refusal::Syntax(at));
        }
        Ok((self.octet(at), self.past(at)))
    }

    /// The octet of a bracket that opens, with so many others open.
    #[tactic(auto, using(idl_grammar::proofs::Within::mark_within))]
    pub fn opening(&self, depth: usize, wanted: u8, at: usize) -> Result<(u32, usize), Refusal>
        requires real { is 0 wanted ≡ false }
        requires within { at ≤ length self.now }
        ensures gives { Gives (λ x. x) result (opening_read depth wanted self.now at) }
        ensures within { IfOk result (λ x. (at < x.1) × (x.1 ≤ length self.now) × (depth < 64)) }
    {
        if !self.stands(wanted, at) {
            return Err(Refusal::Syntax(at));
        }
        if depth >= DEPTH_LIMIT {
            return Err(Refusal::Deep(at));
        }
        Ok((self.octet(at), self.past(at)))
    }

    /// A bracket that opens, with so many others open.
    #[tactic(auto, using(idl_grammar::proofs::Within::mark_within))]
    pub fn open(&self, depth: usize, wanted: u8, at: usize) -> Result<usize, Refusal>
        requires real { is 0 wanted ≡ false }
        requires within { at ≤ length self.now }
        ensures gives { GivesPlace result (open_read depth wanted self.now at) }
        ensures within { IfOk result (λ x. (at < x) × (x ≤ length self.now) × (depth < 64)) }
    {
        if !self.stands(wanted, at) {
            return Err(Refusal::Syntax(at));
        }
        if depth >= DEPTH_LIMIT {
            return Err(Refusal::Deep(at));
        }
        Ok(self.past(at))
    }

    /// A token of a symbol, as it is spelled.
    #[tactic(auto, using(idl_grammar::proofs::Within::mark_within))]
    pub fn spelled(&self, wanted: u8, at: usize) -> Result<(Spelling, usize), Refusal>
        requires real { is 0 wanted ≡ false }
        requires within { at ≤ length self.now }
        ensures gives { Gives (λ x. x) result (spelled_read wanted self.now at) }
        ensures within { IfOk result (λ x. (at < x.1) × (x.1 ≤ length self.now)) }
    {
        if !self.stands(wanted, at) {
            return Err(Refusal::Syntax(at));
        }
        Ok((self.copied(at)?, self.past(at)))
    }

    /// A UUID, as it is spelled.
    #[tactic(auto, using(idl_grammar::proofs::Within::mark_within))]
    pub fn uuid_text(&self, at: usize) -> Result<(UuidText, usize), Refusal>
        requires within { at ≤ length self.now }
        ensures gives { Gives (λ x. x) result (spelled_read symbols.UuidValue self.now at) }
        ensures within { IfOk result (λ x. (at < x.1) × (x.1 ≤ length self.now)) }
    {
        if !self.stands(symbol::UUID_VALUE, at) {
            return Err(Refusal::Syntax(at));
        }
        let spelling = self.copied(at)?;
        let _lexemes = &self.lexemes;
        Ok((UuidText::new(spelling), self.past(at)))
    }

    /// Whether a name is at a place, inside attribute brackets or outside.
    pub fn is_name(&self, inside: bool, at: usize) -> bool
        ensures { result ≡ is_in (names inside) (symbol_at self.now at) }
    {
        is_name_symbol(inside, self.symbol(at))
    }

    /// A name, inside attribute brackets or outside.
    #[tactic(auto, using(crate::proofs::Basics::name_within, crate::proofs::Basics::name_is_word))]
    pub fn ident(&self, inside: bool, at: usize) -> Result<(Identifier, usize), Refusal>
        requires within { at ≤ length self.now }
        ensures gives { Gives (λ x. x) result (ident_read inside self.now at) }
        ensures within { IfOk result (λ x. (at < x.1) × (x.1 ≤ length self.now)) }
    {
        if !self.is_name(inside, at) {
            return Err(Refusal::Syntax(at));
        }
        Ok((self.word(at)?, self.past(at)))
    }
}
