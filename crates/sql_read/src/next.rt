ghost use Rattle.std.specs.Prelude.{◌≡◌, true, [], ◌∷◌, MatchOption, IfSome, length};
ghost use Rattle.sql_lex.specs.Lexing.{tokens_of};
ghost use Rattle.sql_lex.specs.Texts.{lexeme_of, lexemes};
ghost use Rattle.sql_read.specs.Seen.{seen, content_seen};
ghost use Rattle.sql_read.specs.Tokens.{IsTokenOf, is_name_text, is_of_kind};

use crate::content::Content;
use crate::input::Input;
use sql_lex::{Lexed, Token, TokenKind};
use std::str;

impl<'a> Input<'a> {
    /// The tokens of a text, all of them.
    pub fn of(text: &'a str, lexed: &'a Lexed) -> Input<'a>
        requires { (lexed.now.tokens, lexed.now.bad) ≡ tokens_of text.now }
        ensures { seen result ≡ lexemes text.now }
    {
        Input {
            text: text.as_bytes(),
            tokens: lexed.tokens.as_slice(),
            broken: lexed.bad.is_some(),
        }
    }
}

/// The text of a name's bytes, which are characters that a name has.
#[tactic(auto, using(crate::proofs::NameTexts::name_is_text))]
pub fn name_text(bytes: &[u8]) -> &str
    requires { is_name_text bytes.now ≡ true }
    ensures { result.now ≡ bytes.now }
{
    match str::from_utf8(bytes) {
        Ok(text) => text,
        Err(_) => unreachable!(),
    }
}

/// A token with its content.
fn content_of(text: &[u8], token: Token) -> Content<'_>
    requires { IsTokenOf text.now token }
    ensures seen { content_seen result ≡ lexeme_of text.now token }
    ensures kind { is_of_kind (content_seen result) ≡ true }
{
    let from = token.from;
    let to = token.to;
    match token.kind {
        TokenKind::Word => Content::Word(name_text(&text[from..to])),
        TokenKind::Number => Content::Number(&text[from..to]),
        TokenKind::Quoted => Content::Quoted(name_text(&text[from + 1..to - 1])),
        TokenKind::Str => Content::Text(&text[from..to]),
        TokenKind::Sign => Content::Sign(text[from]),
    }
}

/// The next token, and those after it.
#[tactic(auto, unfolding(crate::specs::Seen::seen))]
pub fn next(input: Input<'_>) -> Option<(Content<'_>, Input<'_>)>
    ensures seen { MatchOption result (seen input.entry ≡ []) (λ x. seen input.entry ≡ content_seen x.0 ∷ seen x.1) }
    ensures kind { IfSome result (λ x. is_of_kind (content_seen x.0) ≡ true) }
{
    match input.tokens {
        [] => {
            if input.broken {
                Some((
                    Content::Broken,
                    Input {
                        text: input.text,
                        tokens: input.tokens,
                        broken: false,
                    },
                ))
            } else {
                None
            }
        }
        [token, rest @ ..] => Some((
            content_of(input.text, *token),
            Input {
                text: input.text,
                tokens: rest,
                broken: input.broken,
            },
        )),
    }
}
