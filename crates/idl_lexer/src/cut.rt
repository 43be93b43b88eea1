// What is cut at a place of a text.
ghost use Rattle.std.specs.Prelude.{◌≡◌, ℕ, ◌+◌, ◌-◌, ◌<◌, ◌≤◌, true, false, ◌||◌, length, slice_index, slice_range, MatchResult, MatchOption};
ghost use Rattle.std.specs.Bool.{MatchBool};
ghost use Rattle.idl_lexer.specs.Pieces as classes;
ghost use Rattle.nd_base.specs.Text as class;
ghost use Rattle.idl_lexer.specs.Pieces.{IsComment};
ghost use Rattle.idl_lexer.specs.Literals.{Opens, refusal_of};
ghost use Rattle.idl_lexer.specs.declared.cut.PieceKind.TheVariants as piece;
ghost use Rattle.idl_lexer.specs.Verdict.{IsCut, IsRefused, OpensComment};

use crate::classes::{are_mark, is_mark_octet, is_space};
use crate::literals::{Due, Unended, literal_end};
use crate::numbers::number_of;
use crate::runs::{UUID_LENGTH, run_end, uuid_stands};
use crate::tokens::{LexKind, TokenKind};
use nd_base::text::{is_letter, is_word_octet};

/// The greatest number of octets of a word.
const WORD_LIMIT: usize = 31;

/// What a piece of a text is.
#[derive(Clone, Copy, Drop)]
pub(crate) enum PieceKind {
    Space,
    Comment,
    Token(TokenKind),
}

/// A piece of a text: the octet where it begins, and the octet past it.
#[derive(Clone, Copy, Drop)]
pub(crate) struct Piece {
    pub(crate) kind: PieceKind,
    pub(crate) from: usize,
    pub(crate) to: usize,
}

/// Why nothing can be cut, and where that is said.
#[derive(Clone, Copy, Drop)]
pub(crate) struct Refusal {
    pub(crate) at: usize,
    pub(crate) kind: LexKind,
}

/// Where the comment that begins at a place ends.
fn comment_end(text: &[u8], from: usize) -> Option<usize>
    requires within { from + 2 ≤ length text.now }
    requires opens { OpensComment text.now from }
    ensures { MatchOption result
        ((to : ℕ) → to ≤ length text.now → IsComment (slice_range text.now from to) → ⊥)
        (λ to. (to ≤ length text.now) × IsComment (slice_range text.now from to)) }
{
    for at in from + 2..text.len() - 1 {
        if text[at] == b'*' && text[at + 1] == b'/' {
            return Some(at + 2);
        }
    }
    None
}

/// A word, a UUID or a number.
fn cut_run(text: &[u8], from: usize) -> Result<Piece, Refusal>
    requires within { from < length text.now }
    requires run { class.is_word_octet (slice_index text.now from) ≡ true }
    ensures { MatchResult result (λ p. IsCut text.now p × (p.from ≡ from)) (λ r. IsRefused text.now from r.at r.kind) }
{
    if uuid_stands(text, from) {
        return Ok(token(TokenKind::Uuid, from, from + UUID_LENGTH));
    }
    let to = run_end(text, from);
    if is_letter(text[from]) {
        if to - from > WORD_LIMIT {
            return Err(refuse(LexKind::LongName, from));
        }
        return Ok(token(TokenKind::Word, from, to));
    }
    match number_of(&text[from..to]) {
        Some(_) => Ok(token(TokenKind::Number, from, to)),
        None => Err(refuse(LexKind::BadNumber, from)),
    }
}

fn token(kind: TokenKind, from: usize, to: usize) -> Piece
    ensures { result ≡ record { kind = piece.Token kind; from = from; to = to } }
{
    Piece {
        kind: PieceKind::Token(kind),
        from,
        to,
    }
}

fn refuse(kind: LexKind, at: usize) -> Refusal
    ensures { result ≡ record { at = at; kind = kind } }
{
    Refusal { at, kind }
}

/// Why a literal that begins at a place has no end, as a reason of the text.
fn refuse_literal(unended: Unended, from: usize) -> Refusal
    ensures { result ≡ refusal_of from unended }
{
    match unended {
        Unended::Open => refuse(LexKind::OpenText, from),
        Unended::Bad(at) => refuse(LexKind::BadOctet, at),
    }
}

/// A literal, whose opening quote is at `from`.
fn cut_literal(text: &[u8], kind: TokenKind, due: Due, from: usize) -> Result<Piece, Refusal>
    requires within { from < length text.now }
    requires opens { Opens kind due (slice_index text.now from) }
    ensures { MatchResult result (λ p. IsCut text.now p × (p.from ≡ from)) (λ r. IsRefused text.now from r.at r.kind) }
{
    match literal_end(text, due, from + 1) {
        Ok(to) => Ok(token(kind, from, to)),
        Err(unended) => Err(refuse_literal(unended, from)),
    }
}

/// A comment, whose `/*` is at `from`.
fn cut_comment(text: &[u8], from: usize) -> Result<Piece, Refusal>
    requires within { from + 2 ≤ length text.now }
    requires opens { OpensComment text.now from }
    ensures { MatchResult result (λ p. IsCut text.now p × (p.from ≡ from)) (λ r. IsRefused text.now from r.at r.kind) }
{
    match comment_end(text, from) {
        Some(to) => Ok(Piece {
            kind: PieceKind::Comment,
            from,
            to,
        }),
        None => Err(refuse(LexKind::OpenComment, from)),
    }
}

/// Whether a mark of two octets is at a place.
fn pair_stands(text: &[u8], from: usize) -> bool
    requires { from < length text.now }
    ensures pair { result ≡ true
        → (from + 1 < length text.now) × (classes.are_mark (slice_index text.now from) (slice_index text.now (from + 1)) ≡ true) }
    ensures none { result ≡ false → from + 1 < length text.now
        → classes.are_mark (slice_index text.now from) (slice_index text.now (from + 1)) ≡ false }
{
    from + 1 < text.len() && are_mark(text[from], text[from + 1])
}

/// A mark of one octet or of two.
fn cut_mark(text: &[u8], from: usize) -> Piece
    requires within { from < length text.now }
    requires mark { classes.is_mark_octet (slice_index text.now from) ≡ true }
    requires alone { OpensComment text.now from → ⊥ }
    ensures cut { IsCut text.now result }
    ensures from { result.from ≡ from }
{
    if pair_stands(text, from) {
        token(TokenKind::Mark, from, from + 2)
    } else {
        token(TokenKind::Mark, from, from + 1)
    }
}

fn cut_space(text: &[u8], from: usize) -> Piece
    requires within { from < length text.now }
    requires space { classes.is_space (slice_index text.now from) ≡ true }
    ensures cut { IsCut text.now result }
    ensures from { result.from ≡ from }
{
    Piece {
        kind: PieceKind::Space,
        from,
        to: from + 1,
    }
}

/// Whether `/*` is at a place.
fn opens_comment(text: &[u8], from: usize) -> bool
    requires { from < length text.now }
    ensures { MatchBool result (OpensComment text.now from × (from + 2 ≤ length text.now)) (OpensComment text.now from → ⊥) }
{
    from + 1 < text.len() && text[from] == b'/' && text[from + 1] == b'*'
}

/// What is cut at a place, or why nothing can be.
pub(crate) fn cut(text: &[u8], from: usize) -> Result<Piece, Refusal>
    requires { from < length text.now }
    ensures { MatchResult result (λ p. IsCut text.now p × (p.from ≡ from)) (λ r. IsRefused text.now from r.at r.kind) }
{
    let first = text[from];
    if is_space(first) {
        return Ok(cut_space(text, from));
    }
    if is_word_octet(first) {
        return cut_run(text, from);
    }
    if first == b'"' {
        return cut_literal(text, TokenKind::Str, Due::Characters, from);
    }
    if first == b'\'' {
        return cut_literal(text, TokenKind::Char, Due::OneCharacter, from);
    }
    if opens_comment(text, from) {
        return cut_comment(text, from);
    }
    if is_mark_octet(first) {
        return Ok(cut_mark(text, from));
    }
    Err(refuse(LexKind::BadOctet, from))
}
