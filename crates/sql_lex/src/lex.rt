ghost use Rattle.std.specs.Prelude.{◌≡◌, ◌+◌, ◌≤◌, ◌<◌, ◌^◌, length, drop, IfOk, IfErr, MatchResult, ◌⊎◌, All, None, Some};
ghost use Rattle.sql_lex.specs.Pieces.{front_of, cut, after, pieces, bytes_in};
ghost use Rattle.sql_lex.specs.Spans.{IsSpan, InOrder};
ghost use Rattle.sql_lex.specs.Lexing.{IsBadAt, tokens_of, has_closing, is_bad, is_opening, is_closing};
ghost use Rattle.sql_lex.specs.Nexts.{next_of};

use crate::piece::{Shape, inside_after, piece_at};
use crate::token::{LexFault, Token, TokenKind};
use dd_names::List;
use std::alloc::{AllocError, Global};

fn is_bad(shape: Shape) -> bool
    ensures { result ≡ is_bad shape }
{
    matches!(shape, Shape::Stray | Shape::Unended)
}

fn is_opening(shape: Shape) -> bool
    ensures { result ≡ is_opening shape }
{
    matches!(shape, Shape::Opening)
}

fn is_closing(shape: Shape) -> bool
    ensures { result ≡ is_closing shape }
{
    matches!(shape, Shape::Closing)
}

/// Whether a version comment ends from a place on.
fn closes(text: &[u8], start: usize, entered: bool) -> bool
    requires small { length text.now < 2 ^ 63 }
    requires place { start ≤ length text.now }
    ensures { result ≡ has_closing (cut (drop start text.now) 0 entered) }
{
    let mut at = start;
    let mut inside = entered;
    'pieces: while at < text.len() {
        let piece = piece_at(inside, text, at);
        if is_closing(piece.shape) {
            return true;
        }
        inside = inside_after(inside, piece.shape);
        at += piece.len;
    }
    false
}

/// What stands at a place, as far as tokens go.
#[derive(Clone, Copy)]
pub enum Next {
    /// Nothing that has a token or can be passed over.
    Bad,
    /// So many bytes to pass over, and whether a version comment is open behind them.
    Gap(usize, bool),
    /// A token of so many bytes.
    Lexeme(TokenKind, usize),
}

fn next_at(text: &[u8], at: usize, inside: bool) -> Next
    requires small { length text.now < 2 ^ 63 }
    requires place { at < length text.now }
    ensures { let here = front_of inside (drop at text.now) in
        result ≡ next_of inside here (has_closing (cut (drop (at + here.len) text.now) 0 (after inside here.shape))) }
{
    let piece = piece_at(inside, text, at);
    if is_bad(piece.shape) {
        return Next::Bad;
    }
    let later = inside_after(inside, piece.shape);
    if is_opening(piece.shape) && !closes(text, at + piece.len, later) {
        return Next::Bad;
    }
    match piece.shape {
        Shape::Lexeme(kind) => Next::Lexeme(kind, piece.len),
        _ => Next::Gap(piece.len, later),
    }
}

fn lex(alloc: Global, text: &[u8]) -> Result<(Vec<Token>, Option<usize>), AllocError>
    requires { length text.now < 2 ^ 63 }
    ensures { IfOk result (λ found. (found.0.items, found.1) ≡ tokens_of text.now) }
{
    let mut tokens = Vec::new(alloc);
    let mut at = 0;
    let mut inside = false;
    'pieces: while at < text.len() {
        match next_at(text, at, inside) {
            Next::Gap(n, later) => {
                at += n;
                inside = later;
            }
            Next::Lexeme(kind, n) => {
                tokens.push(Token {
                    kind,
                    from: at,
                    to: at + n,
                })?;
                at += n;
            }
            Next::Bad => return Ok((tokens, Some(at))),
        }
    }
    Ok((tokens, None))
}

/// The tokens before the least place at which a text has none, and that place, if there is one.
#[derive(Drop)]
pub struct Lexed {
    pub tokens: List<Token>,
    pub bad: Option<usize>,
}

/// A text as its bytes.
fn bytes_of(text: &str) -> &[u8]
    ensures bytes { result.now ≡ text.now }
    ensures small { length text.now < 2 ^ 63 }
{
    text.as_bytes()
}

/// The tokens of a text before the least place at which it has none, and that place.
#[tactic(auto, using(crate::proofs::Whole::pieces_fill))]
pub fn tokens_before(alloc: Global, text: &str) -> Result<Lexed, AllocError>
    ensures tokens { IfOk result (λ lexed. (lexed.tokens, lexed.bad) ≡ tokens_of text.now) }
    ensures spans { IfOk result (λ lexed. All (IsSpan (length text.now)) lexed.tokens) }
    ensures order { IfOk result (λ lexed. InOrder 0 lexed.tokens) }
    ensures whole { bytes_in (pieces text.now) ≡ length text.now }
{
    match lex(alloc, bytes_of(text)) {
        Ok((tokens, bad)) => Ok(Lexed {
            tokens: List::from_vec(tokens),
            bad,
        }),
        Err(fault) => Err(fault),
    }
}

/// The tokens of a text in order, or the least place at which it has none.
pub fn tokens(alloc: Global, text: &str) -> Result<List<Token>, LexFault>
    ensures exact { MatchResult result
        (λ tokens. (tokens, None) ≡ tokens_of text.now)
        (λ fault. (fault ≡ LexFault.Memory) ⊎ IsBadAt fault text.now) }
    ensures spans { IfOk result (λ tokens. All (IsSpan (length text.now)) tokens) }
    ensures order { IfOk result (λ tokens. InOrder 0 tokens) }
{
    match tokens_before(alloc, text) {
        Ok(lexed) => match lexed.bad {
            None => Ok(lexed.tokens),
            Some(at) => Err(LexFault::Bad { at }),
        },
        Err(_) => Err(LexFault::Memory),
    }
}
