//! Tokens of texts, and what strings mean.
use crate::bytes::push_bytes;
use sql_lex::{LexFault, Token, TokenKind, meaning, means, tokens, tokens_before};
use std::alloc::{AllocError, Global};

fn letter(kind: TokenKind) -> &'static str {
    match kind {
        TokenKind::Word => "w",
        TokenKind::Number => "n",
        TokenKind::Quoted => "q",
        TokenKind::Str => "s",
        TokenKind::Sign => "c",
    }
}

/// The tokens of a text, or those before its least bad place and that place.
pub fn push_tokens(alloc: Global, text: &str, out: &mut String) -> Result<(), AllocError> {
    match tokens(alloc, text) {
        Ok(found) => push_all(found.as_slice(), out),
        Err(LexFault::Bad { at }) => push_before(alloc, text, at, out),
        Err(LexFault::Memory) => Err(AllocError),
    }
}

fn push_all(found: &[Token], out: &mut String) -> Result<(), AllocError> {
    'tokens: for token in found {
        push_token(*token, out)?;
    }
    Ok(())
}

fn push_token(token: Token, out: &mut String) -> Result<(), AllocError> {
    let kind = letter(token.kind);
    write!(out, " {kind}{}-{}", token.from, token.to)
}

// The tokens before the bad place `at`, and whether lexing as far as it goes ends there too.
fn push_before(alloc: Global, text: &str, at: usize, out: &mut String) -> Result<(), AllocError> {
    let lexed = tokens_before(alloc, text)?;
    push_all(lexed.tokens.as_slice(), out)?;
    if lexed.bad == Some(at) {
        write!(out, " bad at {at}")
    } else {
        write!(out, " bad at {at} and elsewhere")
    }
}

/// What a string means, and whether it means that and nothing else.
pub fn push_meaning(alloc: Global, string: &str, out: &mut String) -> Result<(), AllocError> {
    let value = meaning(alloc, string.as_bytes())?;
    out.push_str(" ")?;
    push_bytes(value.as_slice(), out)?;
    push_doubt(string.as_bytes(), value.as_slice(), out)
}

fn push_doubt(string: &[u8], value: &[u8], out: &mut String) -> Result<(), AllocError> {
    if !means(string, value) || means(string, b"n") {
        return out.push_str(" and something else");
    }
    Ok(())
}
