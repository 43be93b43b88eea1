// The tokens of a whole text.
ghost use Rattle.std.specs.Prelude.{◌≡◌, ◌≤◌, ◌<◌, ℕ, length, ◌++◌, IfOk, IfErr, OnOk};
ghost use Rattle.idl_lexer.specs.Verdict.{AreWithin, Verdict, AreTokens, IsFault, IsVerdict, Answers, token_of, text_limit};
ghost use Rattle.idl_lexer.specs.declared.tokens.LexFault.TheVariants as errors;

use crate::cut::{Piece, PieceKind, cut};
use crate::tokens::{LexFault, LexKind, Token, Tokens};
use nd_base::{FILE_LIMIT, Octets};
use std::alloc::Global;

/// Keeps a piece, if it is a token.
fn keep_token(tokens: &mut Vec<Token>, piece: Piece) -> Result<(), LexFault>
    requires after { piece.from ≤ piece.to }
    requires short { piece.to ≤ text_limit }
    ensures ok { OnOk result (tokens.new.items ≡ tokens.old.items ++ token_of piece) }
    ensures err { IfErr result (λ e. e ≡ errors.Memory) }
{
    match piece.kind {
        PieceKind::Space | PieceKind::Comment => Ok(()),
        PieceKind::Token(kind) => {
            tokens.push(Token {
                kind,
                from: piece.from as u32,
                to: piece.to as u32,
            })?;
            Ok(())
        }
    }
}

/// The tokens of a text within the limit.
fn tokens_of(alloc: Global, text: &[u8]) -> Result<Vec<Token>, LexFault>
    requires { length text.now ≤ text_limit }
    ensures tokens { IfOk result (λ v. AreTokens text.now v.items) }
    ensures within { IfOk result (λ v. AreWithin text.now v.items) }
    ensures fault { IfErr result (λ e. IsFault text.now e) }
{
    let mut tokens = Vec::new(alloc);
    let mut at = 0_usize;
    while at < text.len() {
        match cut(text, at) {
            Err(refusal) => {
                return Err(LexFault::At {
                    at: refusal.at as u32,
                    kind: refusal.kind,
                });
            }
            Ok(piece) => {
                keep_token(&mut tokens, piece)?;
                at = piece.to;
            }
        }
    }
    Ok(tokens)
}

/// The tokens of a text within the limit, with a copy of it.
fn lex_within(alloc: Global, text: &[u8]) -> Result<Tokens, LexFault>
    requires { length text.now ≤ text_limit }
    ensures text { IfOk result (λ t. t.text ≡ text.now) }
    ensures tokens { IfOk result (λ t. AreTokens text.now t.tokens) }
    ensures fault { IfErr result (λ e. IsFault text.now e) }
{
    let tokens = tokens_of(alloc, text)?;
    Ok(Tokens::keep(Octets::copy(alloc, text)?, tokens))
}

/// The tokens of a text, in order (C706, section 4.2.1): at each place the longest that can be cut there. Spaces,
/// tabs, line feeds, form feeds, carriage returns and comments separate tokens.
///
/// # Errors
/// TooLong for a text of more than 1,048,576 octets. Otherwise the first place at which no token, space or
/// comment can be cut: `LexKind` has the reasons. Memory where memory was wanting.
///
/// Takes memory for a copy of the text, and for its tokens. Looks at each octet a bounded number of times.
pub fn lex(alloc: Global, text: &[u8]) -> Result<Tokens, LexFault>
    ensures text { IfOk result (λ t. t.text ≡ text.now) }
    ensures tokens { IfOk result (λ t. AreTokens text.now t.tokens) }
    ensures fault { IfErr result (λ e. IsFault text.now e) }
    ensures only { (v : Verdict) → IsVerdict text.now v → Answers v result }
{
    if text.len() > FILE_LIMIT as usize {
        return Err(LexFault::At {
            at: FILE_LIMIT,
            kind: LexKind::TooLong,
        });
    }
    lex_within(alloc, text)
}
