ghost use Rattle.std.specs.Prelude.{◌≡◌, ◌∷◌, [], true, false, MatchOption, IfOk};
ghost use Rattle.sql_grammar.specs.Lexemes.{number, string, keyword, mark, name, amount, width, text, exactly, takes, content, begins};
ghost use Rattle.sql_grammar.specs.Grammar.{one, if_next};
ghost use Rattle.sql_grammar.specs.Reading.{read};
ghost use Rattle.sql_grammar.specs.Rules.{word_of, sign_of, string_of};
ghost use Rattle.sql_grammar.specs.Answers.{Gives};
ghost use Rattle.std.specs.Str.{is_utf8};
ghost use Rattle.sql_lex.specs.Strings.{string_meaning};
ghost use Rattle.sql_read.specs.Seen.{seen, content_seen, stop_of};
ghost use Rattle.sql_read.specs.Tokens.{is_digits};

use crate::content::Content;
use crate::fault::ReadFault;
use crate::input::Input;
use crate::next::next;
use crate::number::is_width;
use dd_names::{Name, Text, is_reserved};
use sql_lex::{meaning, means};
use std::alloc::{AllocError, Global};

/// The greatest number of characters of a word of the grammar, and of a name.
const MAX_CHARACTERS: usize = 64;

#[tactic(auto, unfolding(sql_grammar::specs::Lexemes::takes))]
fn is_word(token: Content<'_>, expected: &str) -> bool
    ensures { result ≡ takes (keyword expected.now) (content_seen token.entry) }
{
    match token {
        Content::Word(word) => {
            word.len() <= MAX_CHARACTERS && word.eq_ignore_ascii_case(expected)
        }
        _ => false,
    }
}

#[tactic(auto, unfolding(sql_grammar::specs::Lexemes::takes))]
fn is_sign(token: Content<'_>, expected: u8) -> bool
    ensures { result ≡ takes (mark expected) (content_seen token.entry) }
{
    match token {
        Content::Sign(sign) => sign == expected,
        _ => false,
    }
}

#[tactic(auto, unfolding(sql_grammar::specs::Lexemes::takes))]
fn is_exactly(token: Content<'_>, expected: &[u8]) -> bool
    ensures { result ≡ takes (exactly expected.now) (content_seen token.entry) }
{
    match token {
        Content::Text(string) => means(string, expected),
        _ => false,
    }
}

#[tactic(auto, unfolding(sql_grammar::specs::Lexemes::takes))]
fn is_number(token: Content<'_>) -> bool
    ensures { result ≡ takes amount (content_seen token.entry) }
{
    matches!(token, Content::Number(_))
}

#[tactic(auto, unfolding(sql_grammar::specs::Lexemes::takes))]
fn is_string(token: Content<'_>) -> bool
    ensures { result ≡ takes text (content_seen token.entry) }
{
    matches!(token, Content::Text(_))
}

#[tactic(auto, unfolding(sql_grammar::specs::Lexemes::takes))]
fn is_name(token: Content<'_>) -> bool
    ensures { result ≡ takes name (content_seen token.entry) }
{
    match token {
        Content::Word(word) => !is_reserved(word),
        Content::Quoted(_) => true,
        _ => false,
    }
}

/// Whether this word of the grammar is next, in any case.
pub fn at_word(input: Input<'_>, expected: &str) -> bool
    ensures { result ≡ begins (keyword expected.now ∷ []) (seen input.entry) }
{
    match next(input) {
        Some((token, _)) => is_word(token, expected),
        None => false,
    }
}

/// Whether this sign is next.
pub fn at_sign(input: Input<'_>, expected: u8) -> bool
    ensures { result ≡ begins (mark expected ∷ []) (seen input.entry) }
{
    match next(input) {
        Some((token, _)) => is_sign(token, expected),
        None => false,
    }
}

/// Whether a name is next, of any length.
pub fn at_name(input: Input<'_>) -> bool
    ensures { result ≡ begins (name ∷ []) (seen input.entry) }
{
    match next(input) {
        Some((token, _)) => is_name(token),
        None => false,
    }
}

/// Whether decimal digits are next.
pub fn at_number(input: Input<'_>) -> bool
    ensures { result ≡ begins (amount ∷ []) (seen input.entry) }
{
    match next(input) {
        Some((token, _)) => is_number(token),
        None => false,
    }
}

/// Whether a string is next.
pub fn at_string(input: Input<'_>) -> bool
    ensures { result ≡ begins (text ∷ []) (seen input.entry) }
{
    match next(input) {
        Some((token, _)) => is_string(token),
        None => false,
    }
}

/// Reads this word of the grammar, in any case.
#[tactic(auto, using(sql_grammar::proofs::Tokens::word_is_short))]
pub fn word<'a>(input: Input<'a>, expected: &str) -> Result<Input<'a>, ReadFault<'a>>
    ensures { Gives (λ rest. (tt, seen rest)) stop_of result (read (word_of expected.now) (seen input.entry)) }
{
    match next(input) {
        Some((token, rest)) if is_word(token, expected) => Ok(rest),
        _ => Err(ReadFault::Syntax { rest: input }),
    }
}

/// Reads this sign.
#[tactic(auto, using(sql_grammar::proofs::Tokens::sign_is_short))]
pub fn sign(input: Input<'_>, expected: u8) -> Result<Input<'_>, ReadFault<'_>>
    ensures { Gives (λ rest. (tt, seen rest)) stop_of result (read (sign_of expected) (seen input.entry)) }
{
    match next(input) {
        Some((token, rest)) if is_sign(token, expected) => Ok(rest),
        _ => Err(ReadFault::Syntax { rest: input }),
    }
}

/// Reads a string that means these bytes.
#[tactic(auto, using(sql_grammar::proofs::Tokens::string_is_short))]
pub fn exactly<'a>(input: Input<'a>, expected: &[u8]) -> Result<Input<'a>, ReadFault<'a>>
    ensures { Gives (λ rest. (tt, seen rest)) stop_of result (read (string_of expected.now) (seen input.entry)) }
{
    match next(input) {
        Some((token, rest)) if is_exactly(token, expected) => Ok(rest),
        _ => Err(ReadFault::Syntax { rest: input }),
    }
}

/// Reads this word of the grammar if it is next, and tells whether it was.
#[tactic(auto, using(sql_grammar::proofs::Tokens::word_is_short))]
pub fn skip_word<'a>(input: Input<'a>, expected: &str) -> Result<(bool, Input<'a>), ReadFault<'a>>
    ensures { Gives (λ x. (x.0, seen x.1)) stop_of result (read (if_next (keyword expected.now)) (seen input.entry)) }
{
    match next(input) {
        Some((token, rest)) if is_word(token, expected) => Ok((true, rest)),
        _ => Ok((false, input)),
    }
}

/// What a token says as a name, if it may be one.
#[tactic(auto, unfolding(sql_grammar::specs::Lexemes::takes))]
fn name_of(token: Content<'_>) -> Option<&str>
    ensures { MatchOption result (takes name (content_seen token.entry) ≡ false)
        (λ w. (takes name (content_seen token.entry) ≡ true) × (w.now ≡ content (content_seen token.entry))) }
{
    match token {
        Content::Word(word) if !is_reserved(word) => Some(word),
        Content::Quoted(word) => Some(word),
        _ => None,
    }
}

/// Reads a name: one in back quotes, or a word that isn't reserved.
#[tactic(auto, using(sql_grammar::proofs::Tokens::name_is_long))]
pub fn name(alloc: Global, input: Input<'_>) -> Result<(Name, Input<'_>), ReadFault<'_>>
    ensures { Gives (λ x. (x.0, seen x.1)) stop_of result (read (one name) (seen input.entry)) }
{
    let Some((token, rest)) = next(input) else {
        return Err(ReadFault::Syntax { rest: input });
    };
    let Some(word) = name_of(token) else {
        return Err(ReadFault::Syntax { rest: input });
    };
    if word.len() > MAX_CHARACTERS {
        return Err(ReadFault::TooLong { rest: input });
    }
    // A word isn't digits alone, and may be read as one in quotes.
    match Name::read(alloc, word, true) {
        Ok(name) => Ok((name, rest)),
        Err(_) => Err(ReadFault::Memory),
    }
}

/// What a string means, which is given with its quotes.
#[tactic(auto, using(crate::proofs::NameTexts::text_is_utf8))]
fn text_meant(alloc: Global, string: &[u8]) -> Result<Text, AllocError>
    requires { is_utf8 (string_meaning string.now) ≡ true }
    ensures { IfOk result (λ text. text ≡ string_meaning string.now) }
{
    match String::from_utf8(meaning(alloc, string)?.into_vec()) {
        Ok(text) => Ok(Text::from_string(text)),
        Err(_) => unreachable!(),
    }
}

/// A string as it is written, with its quotes.
#[tactic(auto, unfolding(sql_grammar::specs::Lexemes::takes))]
fn string_of(token: Content<'_>) -> Option<&[u8]>
    ensures { MatchOption result (takes text (content_seen token.entry) ≡ false)
        (λ w. content_seen token.entry ≡ string (string_meaning w.now)) }
{
    match token {
        Content::Text(string) => Some(string),
        _ => None,
    }
}

/// Reads a string, as the text that it means.
#[tactic(auto, unfolding(sql_grammar::specs::Lexemes::takes, sql_grammar::specs::Lexemes::is_long))]
pub fn string(alloc: Global, input: Input<'_>) -> Result<(Text, Input<'_>), ReadFault<'_>>
    ensures { Gives (λ x. (x.0, seen x.1)) stop_of result (read (one text) (seen input.entry)) }
{
    let Some((token, rest)) = next(input) else {
        return Err(ReadFault::Syntax { rest: input });
    };
    let Some(written) = string_of(token) else {
        return Err(ReadFault::Syntax { rest: input });
    };
    match text_meant(alloc, written) {
        Ok(text) => Ok((text, rest)),
        Err(_) => Err(ReadFault::Memory),
    }
}

/// The digits of a number.
#[tactic(auto, unfolding(sql_grammar::specs::Lexemes::takes, sql_grammar::specs::Lexemes::is_long))]
fn digits_of(token: Content<'_>) -> Option<&[u8]>
    ensures { MatchOption result (takes amount (content_seen token.entry) ≡ false)
        (λ w. (content_seen token.entry ≡ number w.now)) }
{
    match token {
        Content::Number(digits) => Some(digits),
        _ => None,
    }
}

/// Reads decimal digits, of which there is one or more.
#[tactic(auto, unfolding(sql_grammar::specs::Lexemes::takes, sql_grammar::specs::Lexemes::is_long))]
pub fn digits(input: Input<'_>) -> Result<(&[u8], Input<'_>), ReadFault<'_>>
    ensures digits { IfOk result (λ x. is_digits x.0.now ≡ true) }
    ensures read { Gives (λ x. (x.0.now, seen x.1)) stop_of result (read (one amount) (seen input.entry)) }
{
    let Some((token, rest)) = next(input) else {
        return Err(ReadFault::Syntax { rest: input });
    };
    match digits_of(token) {
        Some(digits) => Ok((digits, rest)),
        None => Err(ReadFault::Syntax { rest: input }),
    }
}

/// The digits of a width.
#[tactic(auto, unfolding(sql_grammar::specs::Lexemes::takes))]
fn width_of(token: Content<'_>) -> Option<&[u8]>
    ensures { MatchOption result (takes width (content_seen token.entry) ≡ false)
        (λ w. (takes width (content_seen token.entry) ≡ true) × (content_seen token.entry ≡ number w.now)) }
{
    match token {
        Content::Number(digits) if is_width(digits) => Some(digits),
        _ => None,
    }
}

/// Reads the digits of an integer's width, which is 255 at most.
#[tactic(auto, unfolding(sql_grammar::specs::Lexemes::is_long))]
pub fn width(input: Input<'_>) -> Result<(&[u8], Input<'_>), ReadFault<'_>>
    ensures { Gives (λ x. (x.0.now, seen x.1)) stop_of result (read (one width) (seen input.entry)) }
{
    let Some((token, rest)) = next(input) else {
        return Err(ReadFault::Syntax { rest: input });
    };
    match width_of(token) {
        Some(digits) => Ok((digits, rest)),
        None => Err(ReadFault::Syntax { rest: input }),
    }
}
