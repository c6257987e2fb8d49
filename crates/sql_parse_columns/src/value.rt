ghost use Rattle.std.specs.Prelude.{◌≡◌, ◌++◌, true, IfOk};
ghost use Rattle.sql_grammar.specs.Lexemes.{amount};
ghost use Rattle.sql_grammar.specs.Grammar.{one, means};
ghost use Rattle.sql_grammar.specs.Reading.{read};
ghost use Rattle.sql_grammar.specs.Answers.{Gives};
ghost use Rattle.sql_ast.specs.GrammarColumns.{literal, sign_written};
ghost use Rattle.sql_ast.specs.GrammarParts.{◌&◌};
ghost use Rattle.sql_read.specs.Seen.{seen, stop_of};
ghost use Rattle.sql_read.specs.Tokens.{is_digits};
ghost use Rattle.sql_parse_columns.specs.Signs.{sign_text};

use dd_names::Text;
use sql_read::{Input, ReadFault, at_sign, at_string, at_word, digits, sign, string, word};
use sql_types::{Literal, NumberText};
use std::alloc::{AllocError, Global};
use std::str;

/// The sign before a number.
#[derive(Clone, Copy)]
pub enum Sign {
    Plus,
    Minus,
    Unwritten,
}

impl Sign {
    fn text(self) -> &'static str
        ensures { result.now ≡ sign_text self }
    {
        match self {
            Sign::Plus => "+",
            Sign::Minus => "-",
            Sign::Unwritten => "",
        }
    }
}

/// `[+|-]`
#[tactic(auto, using(crate::proofs::WrittenSigns::sign_with_itself))]
fn sign_written(input: Input<'_>) -> Result<(Sign, Input<'_>), ReadFault<'_>>
    ensures { Gives (λ x. (sign_text x.0, seen x.1)) stop_of result (read sign_written (seen input.entry)) }
{
    if at_sign(input, b'+') {
        let rest = sign(input, b'+')?;
        return Ok((Sign::Plus, rest));
    }
    if at_sign(input, b'-') {
        let rest = sign(input, b'-')?;
        return Ok((Sign::Minus, rest));
    }
    Ok((Sign::Unwritten, input))
}

/// Digits are text.
#[tactic(auto, using(crate::proofs::NumberTexts::digits_are_text))]
fn digits_text(bytes: &[u8]) -> &str
    requires { is_digits bytes.now ≡ true }
    ensures { result.now ≡ bytes.now }
{
    match str::from_utf8(bytes) {
        Ok(text) => text,
        Err(_) => unreachable!(),
    }
}

/// The number that a sign and digits write.
#[tactic(auto, using(crate::proofs::NumberTexts::signed_is_number))]
fn signed(alloc: Global, sign: Sign, digits: &[u8]) -> Result<NumberText, AllocError>
    requires { is_digits digits.now ≡ true }
    ensures { IfOk result (λ number. number ≡ sign_text sign ++ digits.now) }
{
    let mut text = Text::of(alloc, sign.text())?;
    text.push_str(digits_text(digits))?;
    match NumberText::of(text) {
        Ok(number) => Ok(number),
        Err(_) => unreachable!(),
    }
}

/// `[+|-] number`
fn number(alloc: Global, input: Input<'_>) -> Result<(NumberText, Input<'_>), ReadFault<'_>>
    ensures { Gives (λ x. (x.0, seen x.1)) stop_of result (read (means (λ p. p.0 ++ p.1) (sign_written & one amount)) (seen input.entry)) }
{
    let (sign, rest) = sign_written(input)?;
    let (digits, rest) = digits(rest)?;
    let number = signed(alloc, sign, digits)?;
    Ok((number, rest))
}

/// `NULL | [+|-] number | string`
#[tactic(auto, unfolding(sql_ast::specs::GrammarColumns::literal))]
pub fn literal(alloc: Global, input: Input<'_>) -> Result<(Literal, Input<'_>), ReadFault<'_>>
    ensures { Gives (λ x. (x.0, seen x.1)) stop_of result (read literal (seen input.entry)) }
{
    if at_word(input, "NULL") {
        let rest = word(input, "NULL")?;
        return Ok((Literal::Null, rest));
    }
    if at_string(input) {
        let (text, rest) = string(alloc, input)?;
        return Ok((Literal::Str(text), rest));
    }
    let (number, rest) = number(alloc, input)?;
    Ok((Literal::Number(number), rest))
}
