// Tokens, and why a text has none.
ghost use Rattle.std.specs.Prelude.{◌≡◌, ◌≤◌, ◌<◌, ℕ, length, slice_range, slice_get, Some};

use nd_base::{Memory, Octets};
use std::alloc::{AllocError, AllocFailed};
use std::marker::Model;
use thiserror::Error;

/// The kind of a token (C706, section 4.2.1).
#[derive(Clone, Copy, Debug, PartialEq, Eq)]
pub enum TokenKind {
    /// A letter or `_`, then letters, digits and `_`: 31 octets at most.
    Word,
    /// 8, 4, 4, 4 and 12 hexadecimal digits joined by `-`.
    Uuid,
    /// A decimal number without a leading zero, or `0x` and hexadecimal digits; at most 2^64 - 1.
    Number,
    /// One character or escape between single quotes.
    Char,
    /// Characters and escapes between double quotes.
    Str,
    /// An operator, a bracket or a separator.
    Mark,
}

/// Why nothing can be cut at a place of a text.
#[derive(Clone, Copy, Debug, PartialEq, Eq)]
pub enum LexKind {
    /// An octet that cannot stand there.
    BadOctet,
    /// A comment without an end.
    OpenComment,
    /// A literal that a line feed or the text's end meets before its closing quote.
    OpenText,
    /// A word of more than 31 octets.
    LongName,
    /// A run of letters, digits and `_` that begins with a digit and is no number.
    BadNumber,
    /// A text of more than 1,048,576 octets.
    TooLong,
}

/// Why a text has no tokens.
#[derive(Debug, Drop, Error)]
pub enum LexFault {
    /// Memory was wanting.
    #[error("out of memory")]
    Memory,
    /// The first place at which nothing can be cut: for BadOctet the octet that cannot stand there, for TooLong
    /// the first octet past the limit, otherwise the octet where the token or comment would begin.
    #[error("{kind:?} at octet {at}")]
    At { at: u32, kind: LexKind },
}

impl From<AllocError> for LexFault {
    ghost use Rattle.std.specs.Prelude.{◌≡◌};
    ghost use Rattle.idl_lexer.specs.declared.tokens.LexFault.TheVariants.{Memory};

    ghost from_gives = { λ _ e. e ≡ Memory };

    fn from(_: AllocError) -> LexFault {
        LexFault::Memory
    }
}

impl<T: Drop> From<AllocFailed<T>> for LexFault {
    ghost use Rattle.std.specs.Prelude.{◌≡◌};
    ghost use Rattle.idl_lexer.specs.declared.tokens.LexFault.TheVariants.{Memory};

    ghost from_gives = { λ _ e. e ≡ Memory };

    fn from(_: AllocFailed<T>) -> LexFault {
        LexFault::Memory
    }
}

impl From<Memory> for LexFault {
    ghost use Rattle.std.specs.Prelude.{◌≡◌};
    ghost use Rattle.idl_lexer.specs.declared.tokens.LexFault.TheVariants as errors;

    ghost from_gives = { λ _ e. e ≡ errors.Memory };

    fn from(_: Memory) -> LexFault {
        LexFault::Memory
    }
}

/// A token: its kind, the octet where it begins, and the octet past it.
#[derive(Clone, Copy, Debug, PartialEq, Eq)]
pub(crate) struct Token {
    pub(crate) kind: TokenKind,
    pub(crate) from: u32,
    pub(crate) to: u32,
}

/// The tokens of a text, in order, with a copy of the text. Tokens are numbered from 0.
#[derive(Drop)]
pub struct Tokens {
    text: Octets,
    tokens: Vec<Token>,
}

impl Model for Tokens {
    ghost use Rattle.idl_lexer.specs.Verdict.{Lexed, AreWithin, AreFormed};

    ghost Value = { Lexed };

    ghost view = { λ t. record { text = t.text; tokens = t.tokens.items } };

    ghost invariant = { λ t. AreWithin t.text t.tokens.items × AreFormed (record { text = t.text; tokens = t.tokens.items }) };
}

impl Tokens {
    ghost use Rattle.std.specs.Prelude.{◌≡◌, ◌≤◌, ◌<◌, ◌↔◌, ℕ, length, slice_range, slice_get, Some, cond, ltb};
    ghost use Rattle.idl_lexer.specs.Verdict.{AreWithin, AreFormed, place_of, IsKindOf, IsTextOf};

    /// Keeps a text and its tokens.
    pub(crate) fn keep(text: Octets, tokens: Vec<Token>) -> Tokens
        requires within { AreWithin text tokens.items }
        requires formed { AreFormed (record { text = text; tokens = tokens.items }) }
        ensures text { result.text ≡ text }
        ensures tokens { result.tokens ≡ tokens.items }
    {
        Tokens { text, tokens }
    }

    /// How many tokens there are. Each word among them is an identifier, and each UUID has its form. Takes no memory.
    pub fn count(&self) -> u32
        ensures count { result ≡ length self.now.tokens }
        ensures formed { AreFormed self.now }
    {
        self.tokens.len() as u32
    }

    /// The octet where a token begins, or for the count itself the text's length. Takes no memory.
    pub fn at(&self, token: u32) -> u32
        requires { token ≤ length self.now.tokens }
        ensures { result ≡ place_of self.now token }
    {
        match self.tokens.get(token as usize) {
            Some(token) => token.from,
            None => self.text.as_slice().len() as u32,
        }
    }

    /// The kind of a token. Takes no memory.
    pub fn kind(&self, token: u32) -> TokenKind
        requires { token < length self.now.tokens }
        ensures { IsKindOf self.now token result }
    {
        self.tokens[token as usize].kind
    }

    /// The octets of a token. Takes no memory.
    pub fn text(&self, token: u32) -> &[u8]
        requires { token < length self.now.tokens }
        ensures { IsTextOf self.now token result.now }
    {
        let token = self.tokens[token as usize];
        &self.text.as_slice()[token.from as usize..token.to as usize]
    }
}
