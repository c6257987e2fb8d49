ghost use Rattle.std.specs.Prelude.{◌≡◌, ◌≤◌, ◌+◌, true, length, drop, IfOk, None, if◌then◌else◌};
ghost use Rattle.sql_grammar.specs.Lexemes.{content, is_name};
ghost use Rattle.sql_lex.specs.Lexing.{tokens_of};
ghost use Rattle.sql_lex.specs.Texts.{lexeme_of, lexemes, place_at, place_of};
ghost use Rattle.sql_read.specs.Seen.{seen, stop_of};
ghost use Rattle.sql_read.specs.Tokens.{IsTokenOf};
ghost use Rattle.sql_parse_parts.specs.Faults.{first_content, IsLongFirst, IsStopOfRule, Tells};

use crate::parse_fault::ParseFault;
use dd_names::Text;
use sql_lex::{Token, TokenKind};
use sql_read::{Input, ReadFault, name_text};
use std::alloc::{AllocError, Global};

/// What is to be read of a text without a bad place, from one of its tokens on.
pub fn from_token<'a>(text: &'a str, tokens: &'a [Token], from: usize) -> Input<'a>
    requires tokens { (tokens.now, None) ≡ tokens_of text.now }
    requires within { from ≤ length tokens.now }
    ensures { seen result ≡ drop from (lexemes text.now) }
{
    let (_, rest) = tokens.split_at(from);
    Input {
        text: text.as_bytes(),
        tokens: rest,
        broken: false,
    }
}

/// Where the token numbered `number` begins; behind them the end.
#[tactic(auto, using(crate::proofs::Placed::place_there, crate::proofs::Placed::place_behind))]
fn place(tokens: &[Token], number: usize, end: usize) -> usize
    ensures { result ≡ place_at number tokens.now end }
{
    if number < tokens.len() {
        tokens[number].from
    } else {
        end
    }
}

/// How many lexemes these tokens are, with a bad place behind them as one more.
fn count(tokens: &[Token], broken: bool) -> usize
    ensures { result ≡ length tokens.now + (if broken then 1 else 0) }
{
    if broken {
        tokens.len() + 1
    } else {
        tokens.len()
    }
}

/// How many lexemes are left.
#[tactic(auto, unfolding(sql_read::specs::Seen::seen))]
fn left(input: Input<'_>) -> usize
    ensures { result ≡ length (seen input.entry) }
{
    count(input.tokens, input.broken)
}

/// The byte at which the last `left` lexemes of a text begin.
fn place_of(text: &str, tokens: &[Token], bad: Option<usize>, left: usize) -> usize
    requires { (tokens.now, bad) ≡ tokens_of text.now }
    ensures { result ≡ place_of text.now left }
{
    let end = bad.unwrap_or(text.len());
    let all = count(tokens, bad.is_some());
    place(tokens, all.saturating_sub(left), end)
}

/// The characters of a name.
fn name_at(text: &[u8], token: Token) -> &str
    requires token { IsTokenOf text.now token }
    requires name { is_name (lexeme_of text.now token) ≡ true }
    ensures { result.now ≡ content (lexeme_of text.now token) }
{
    match token.kind {
        TokenKind::Word => name_text(&text[token.from..token.to]),
        TokenKind::Quoted => name_text(&text[token.from + 1..token.to - 1]),
        TokenKind::Number | TokenKind::Str | TokenKind::Sign => unreachable!(),
    }
}

/// The first token, which is a name that is too long.
#[tactic(auto, unfolding(sql_read::specs::Seen::seen, sql_grammar::specs::Lexemes::is_long))]
fn long_name(alloc: Global, input: Input<'_>) -> Result<Text, AllocError>
    requires { IsLongFirst (seen input) }
    ensures { IfOk result (λ name. name ≡ first_content (seen input.entry)) }
{
    match input.tokens {
        [] => unreachable!(),
        [token, ..] => Text::of(alloc, name_at(input.text, *token)),
    }
}

/// The fault of a text, from where reading it stopped.
pub fn told(
    alloc: Global,
    text: &str,
    tokens: &[Token],
    bad: Option<usize>,
    fault: ReadFault<'_>,
) -> ParseFault
    requires tokens { (tokens.now, bad) ≡ tokens_of text.now }
    requires stop { IsStopOfRule (stop_of fault) }
    ensures { Tells result text.now (stop_of fault.entry) }
{
    match fault {
        ReadFault::Memory => ParseFault::Memory,
        ReadFault::Syntax { rest } => ParseFault::Syntax {
            at: place_of(text, tokens, bad, left(rest)),
        },
        ReadFault::TooLong { rest } => match long_name(alloc, rest) {
            Ok(name) => ParseFault::TooLong { name },
            Err(_) => ParseFault::Memory,
        },
    }
}
