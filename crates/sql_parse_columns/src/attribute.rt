ghost use Rattle.std.specs.Prelude.{◌≡◌, codes};
ghost use Rattle.sql_grammar.specs.Lexemes.{keyword, begins};
ghost use Rattle.sql_grammar.specs.Grammar.{means, many, if_next};
ghost use Rattle.sql_grammar.specs.Rules.{gives, ◌⊳◌};
ghost use Rattle.sql_grammar.specs.Reading.{read, first};
ghost use Rattle.sql_grammar.specs.Answers.{Gives, folded};
ghost use Rattle.sql_ast.specs.GrammarParts.{the, charset, ◌∣◌};
ghost use Rattle.sql_ast.specs.GrammarColumns.{literal, attribute, is_unique, says_nothing, with_attribute, with_attributes};
ghost use Rattle.sql_read.specs.Seen.{seen, stop_of};

use crate::value::literal;
use sql_parse_parts::{at_charset, charset};
use sql_read::{Input, ReadFault, at_word, skip_word, word};
use sql_types::{ColumnWords, Literal};
use std::alloc::Global;

/// `NOT NULL`
fn not_null(input: Input<'_>) -> Result<Input<'_>, ReadFault<'_>>
    ensures { Gives (λ rest. (tt, seen rest)) stop_of result (read (the "NOT" ⊳ the "NULL") (seen input.entry)) }
{
    let rest = word(input, "NOT")?;
    word(rest, "NULL")
}

/// `DEFAULT literal`
fn default_value(alloc: Global, input: Input<'_>) -> Result<(Literal, Input<'_>), ReadFault<'_>>
    ensures { Gives (λ x. (x.0, seen x.1)) stop_of result (read (the "DEFAULT" ⊳ literal) (seen input.entry)) }
{
    let rest = word(input, "DEFAULT")?;
    literal(alloc, rest)
}

/// `UNIQUE [KEY]`: a KEY directly behind UNIQUE belongs to it.
fn unique(input: Input<'_>) -> Result<Input<'_>, ReadFault<'_>>
    ensures { Gives (λ rest. (is_unique, seen rest)) stop_of result
        (read (gives is_unique (the "UNIQUE" ⊳ if_next (keyword (codes "KEY")))) (seen input.entry)) }
{
    let rest = word(input, "UNIQUE")?;
    let (_, rest) = skip_word(rest, "KEY")?;
    Ok(rest)
}

/// Whether `PRIMARY` or `KEY` is next.
#[tactic(auto, using(sql_grammar::proofs::Firsts::begins_more))]
fn at_primary(input: Input<'_>) -> bool
    ensures { result ≡ begins (first ((the "PRIMARY" ⊳ the "KEY") ∣ the "KEY")) (seen input.entry) }
{
    if at_word(input, "PRIMARY") {
        return true;
    }
    at_word(input, "KEY")
}

/// `[PRIMARY] KEY`
fn primary(input: Input<'_>) -> Result<Input<'_>, ReadFault<'_>>
    ensures { Gives (λ rest. (tt, seen rest)) stop_of result (read ((the "PRIMARY" ⊳ the "KEY") ∣ the "KEY") (seen input.entry)) }
{
    if at_word(input, "PRIMARY") {
        let rest = word(input, "PRIMARY")?;
        word(rest, "KEY")
    } else {
        word(input, "KEY")
    }
}

/// `charset utf8mb4 | COLLATE utf8mb4_0900_ai_ci`
#[tactic(auto, unfolding(sql_ast::specs::GrammarParts::charset))]
fn text_words(input: Input<'_>) -> Result<Input<'_>, ReadFault<'_>>
    ensures { Gives (λ rest. (says_nothing, seen rest)) stop_of result
        (read (gives says_nothing (charset ⊳ the "UTF8MB4") ∣ gives says_nothing (the "COLLATE" ⊳ the "UTF8MB4_0900_AI_CI")) (seen input.entry)) }
{
    if at_charset(input) {
        let rest = charset(input)?;
        word(rest, "UTF8MB4")
    } else {
        let rest = word(input, "COLLATE")?;
        word(rest, "UTF8MB4_0900_AI_CI")
    }
}

/// Takes one more attribute into a column, in the place of an earlier one of its kind.
#[tactic(auto, unfolding(sql_ast::specs::GrammarColumns::attribute))]
fn attribute<'a>(
    alloc: Global,
    column: &mut ColumnWords,
    input: Input<'a>,
) -> Result<Input<'a>, ReadFault<'a>>
    ensures { Gives (λ rest. (column.new, seen rest)) stop_of result (read (means (with_attribute column.old) attribute) (seen input.entry)) }
{
    if at_word(input, "NOT") {
        let rest = not_null(input)?;
        column.nullable = Some(false);
        return Ok(rest);
    }
    if at_word(input, "NULL") {
        let rest = word(input, "NULL")?;
        column.nullable = Some(true);
        return Ok(rest);
    }
    if at_word(input, "DEFAULT") {
        let (value, rest) = default_value(alloc, input)?;
        column.default = Some(value);
        return Ok(rest);
    }
    if at_word(input, "AUTO_INCREMENT") {
        let rest = word(input, "AUTO_INCREMENT")?;
        column.auto = true;
        return Ok(rest);
    }
    if at_word(input, "UNIQUE") {
        let rest = unique(input)?;
        column.unique = true;
        return Ok(rest);
    }
    if at_primary(input) {
        let rest = primary(input)?;
        column.primary = true;
        return Ok(rest);
    }
    text_words(input)
}

/// Whether `charset` or `COLLATE` is next.
#[tactic(auto, unfolding(sql_ast::specs::GrammarParts::charset), using(sql_grammar::proofs::Firsts::begins_more))]
fn at_text_words(input: Input<'_>) -> bool
    ensures { result ≡ begins (first (charset ∣ the "COLLATE")) (seen input.entry) }
{
    if at_word(input, "CHARACTER") {
        return true;
    }
    if at_word(input, "CHARSET") {
        return true;
    }
    at_word(input, "COLLATE")
}

/// Whether a word that begins an attribute is next.
#[tactic(auto, unfolding(sql_ast::specs::GrammarColumns::attribute, sql_ast::specs::GrammarParts::charset), using(sql_grammar::proofs::Firsts::begins_more))]
fn at_attribute(input: Input<'_>) -> bool
    ensures { result ≡ begins (first attribute) (seen input.entry) }
{
    if at_word(input, "NOT") {
        return true;
    }
    if at_word(input, "NULL") {
        return true;
    }
    if at_word(input, "DEFAULT") {
        return true;
    }
    if at_word(input, "AUTO_INCREMENT") {
        return true;
    }
    if at_word(input, "UNIQUE") {
        return true;
    }
    if at_word(input, "PRIMARY") {
        return true;
    }
    if at_word(input, "KEY") {
        return true;
    }
    at_text_words(input)
}

/// A column with all attributes that follow, of which the last of each kind holds.
pub fn attributes(
    alloc: Global,
    column: ColumnWords,
    input: Input<'_>,
) -> Result<(ColumnWords, Input<'_>), ReadFault<'_>>
    ensures { Gives (λ x. (x.0, seen x.1)) stop_of result (folded with_attributes column (read (many attribute) (seen input.entry))) }
{
    let mut words = column;
    let mut rest = input;
    'attributes: while at_attribute(rest) {
        let after = match attribute(alloc, &mut words, rest) {
            Ok(read) => read,
            Err(fault) => return Err(fault),
        };
        rest = after;
    }
    Ok((words, rest))
}
