ghost use Rattle.std.specs.Prelude.{◌≡◌};
ghost use Rattle.std.specs.Option.{option_copied};
ghost use Rattle.sql_grammar.specs.Lexemes.{width, begins};
ghost use Rattle.sql_grammar.specs.Grammar.{one, means};
ghost use Rattle.sql_grammar.specs.Rules.{opt, gives, in_parentheses, ◌⊳◌};
ghost use Rattle.sql_grammar.specs.Reading.{read, first};
ghost use Rattle.sql_grammar.specs.Answers.{Gives};
ghost use Rattle.sql_ast.specs.GrammarParts.{the, a_number, ◌∣◌, ◌&◌};
ghost use Rattle.sql_ast.specs.GrammarColumns.{int_size, unsigned, int_type, or_one, a_type};
ghost use Rattle.sql_read.specs.Seen.{seen, stop_of};

use crate::word_value::word_value;
use sql_parse_parts::number;
use sql_read::{Input, ReadFault, at_sign, at_word, number_of, sign, width, word};
use sql_types::{IntSize, TypeWords};

/// Whether `INT | INTEGER` is next.
#[tactic(auto, using(sql_grammar::proofs::Firsts::begins_more))]
fn at_int(input: Input<'_>) -> bool
    ensures { result ≡ begins (first (the "INT" ∣ the "INTEGER")) (seen input.entry) }
{
    if at_word(input, "INT") {
        return true;
    }
    at_word(input, "INTEGER")
}

/// `INT | INTEGER`
fn int(input: Input<'_>) -> Result<(IntSize, Input<'_>), ReadFault<'_>>
    ensures { Gives (λ x. (x.0, seen x.1)) stop_of result (read (gives IntSize.Normal (the "INT" ∣ the "INTEGER")) (seen input.entry)) }
{
    if at_word(input, "INT") {
        word_value(input, "INT", IntSize::Normal)
    } else {
        word_value(input, "INTEGER", IntSize::Normal)
    }
}

/// `TINYINT | SMALLINT | MEDIUMINT | INT | INTEGER | BIGINT`
#[tactic(auto, unfolding(sql_ast::specs::GrammarColumns::int_size))]
fn int_size(input: Input<'_>) -> Result<(IntSize, Input<'_>), ReadFault<'_>>
    ensures { Gives (λ x. (x.0, seen x.1)) stop_of result (read int_size (seen input.entry)) }
{
    if at_word(input, "TINYINT") {
        return word_value(input, "TINYINT", IntSize::Tiny);
    }
    if at_word(input, "SMALLINT") {
        return word_value(input, "SMALLINT", IntSize::Small);
    }
    if at_word(input, "MEDIUMINT") {
        return word_value(input, "MEDIUMINT", IntSize::Medium);
    }
    if at_int(input) {
        return int(input);
    }
    word_value(input, "BIGINT", IntSize::Big)
}

/// Whether the word of an integer's size is next.
#[tactic(auto, unfolding(sql_ast::specs::GrammarColumns::int_size), using(sql_grammar::proofs::Firsts::begins_more))]
fn at_int_size(input: Input<'_>) -> bool
    ensures { result ≡ begins (first int_size) (seen input.entry) }
{
    if at_word(input, "TINYINT") {
        return true;
    }
    if at_word(input, "SMALLINT") {
        return true;
    }
    if at_word(input, "MEDIUMINT") {
        return true;
    }
    if at_word(input, "INT") {
        return true;
    }
    if at_word(input, "INTEGER") {
        return true;
    }
    at_word(input, "BIGINT")
}

/// `[( width )]`
fn optional_width(input: Input<'_>) -> Result<(Option<&[u8]>, Input<'_>), ReadFault<'_>>
    ensures { Gives (λ x. (option_copied x.0, seen x.1)) stop_of result (read (opt (in_parentheses (one width))) (seen input.entry)) }
{
    if !at_sign(input, b'(') {
        return Ok((None, input));
    }
    let (digits, rest) = written_width(input)?;
    Ok((Some(digits), rest))
}

/// `( width )`
fn written_width(input: Input<'_>) -> Result<(&[u8], Input<'_>), ReadFault<'_>>
    ensures { Gives (λ x. (x.0.now, seen x.1)) stop_of result (read (in_parentheses (one width)) (seen input.entry)) }
{
    let rest = sign(input, b'(')?;
    let (digits, rest) = width(rest)?;
    let rest = sign(rest, b')')?;
    Ok((digits, rest))
}

/// `[SIGNED|UNSIGNED]`
#[tactic(auto, unfolding(sql_ast::specs::GrammarColumns::unsigned))]
fn unsigned(input: Input<'_>) -> Result<(bool, Input<'_>), ReadFault<'_>>
    ensures { Gives (λ x. (x.0, seen x.1)) stop_of result (read unsigned (seen input.entry)) }
{
    if at_word(input, "UNSIGNED") {
        return word_value(input, "UNSIGNED", true);
    }
    if at_word(input, "SIGNED") {
        return word_value(input, "SIGNED", false);
    }
    Ok((false, input))
}

/// A TINYINT, which is a Bool where it is signed and of the width 1.
fn tiny(width: Option<&[u8]>, unsigned: bool) -> TypeWords
    ensures { result ≡ int_type IntSize.Tiny (option_copied width.entry) unsigned }
{
    match width {
        Some(digits) => {
            if !unsigned && number_of(digits) == 1 {
                return TypeWords::Bool;
            }
        }
        None => {}
    }
    TypeWords::Int {
        size: IntSize::Tiny,
        unsigned,
    }
}

/// The type of integers that is meant; other widths say nothing.
fn int_type(size: IntSize, width: Option<&[u8]>, unsigned: bool) -> TypeWords
    ensures { result ≡ int_type size (option_copied width.entry) unsigned }
{
    match size {
        IntSize::Tiny => tiny(width, unsigned),
        IntSize::Small | IntSize::Medium | IntSize::Normal | IntSize::Big => {
            TypeWords::Int { size, unsigned }
        }
    }
}

/// An integer's size, `[( width )]` and `[SIGNED|UNSIGNED]`.
fn integer(input: Input<'_>) -> Result<(TypeWords, Input<'_>), ReadFault<'_>>
    ensures { Gives (λ x. (x.0, seen x.1)) stop_of result
        (read (means (λ p. int_type p.0 p.1.0 p.1.1) (int_size & opt (in_parentheses (one width)) & unsigned)) (seen input.entry)) }
{
    let (size, rest) = int_size(input)?;
    let (width, rest) = optional_width(rest)?;
    let (unsigned, rest) = unsigned(rest)?;
    Ok((int_type(size, width, unsigned), rest))
}

/// Whether `BOOL | BOOLEAN` is next.
#[tactic(auto, using(sql_grammar::proofs::Firsts::begins_more))]
fn at_bool(input: Input<'_>) -> bool
    ensures { result ≡ begins (first (the "BOOL" ∣ the "BOOLEAN")) (seen input.entry) }
{
    if at_word(input, "BOOL") {
        return true;
    }
    at_word(input, "BOOLEAN")
}

/// `BOOL | BOOLEAN`
fn bool_type(input: Input<'_>) -> Result<(TypeWords, Input<'_>), ReadFault<'_>>
    ensures { Gives (λ x. (x.0, seen x.1)) stop_of result (read (gives TypeWords.Bool (the "BOOL" ∣ the "BOOLEAN")) (seen input.entry)) }
{
    if at_word(input, "BOOL") {
        word_value(input, "BOOL", TypeWords::Bool)
    } else {
        word_value(input, "BOOLEAN", TypeWords::Bool)
    }
}

/// `( number )`
fn char_count(input: Input<'_>) -> Result<(u128, Input<'_>), ReadFault<'_>>
    ensures { Gives (λ x. (x.0, seen x.1)) stop_of result (read (in_parentheses a_number) (seen input.entry)) }
{
    let rest = sign(input, b'(')?;
    let (number, rest) = number(rest)?;
    let rest = sign(rest, b')')?;
    Ok((number, rest))
}

/// `CHAR [( number )]`
fn char_type(input: Input<'_>) -> Result<(TypeWords, Input<'_>), ReadFault<'_>>
    ensures { Gives (λ x. (x.0, seen x.1)) stop_of result
        (read (means (λ n. TypeWords.Char (or_one n)) (the "CHAR" ⊳ opt (in_parentheses a_number))) (seen input.entry)) }
{
    let rest = word(input, "CHAR")?;
    if !at_sign(rest, b'(') {
        return Ok((TypeWords::Char { length: 1 }, rest));
    }
    let (length, rest) = char_count(rest)?;
    Ok((TypeWords::Char { length }, rest))
}

/// `VARCHAR ( number )`
fn varchar_type(input: Input<'_>) -> Result<(TypeWords, Input<'_>), ReadFault<'_>>
    ensures { Gives (λ x. (x.0, seen x.1)) stop_of result
        (read (means (λ n. TypeWords.VarChar n) (the "VARCHAR" ⊳ in_parentheses a_number)) (seen input.entry)) }
{
    let rest = word(input, "VARCHAR")?;
    let (length, rest) = char_count(rest)?;
    Ok((TypeWords::VarChar { length }, rest))
}

/// A type of columns.
#[tactic(auto, unfolding(sql_ast::specs::GrammarColumns::a_type, sql_ast::specs::GrammarColumns::int_size))]
pub fn column_type(input: Input<'_>) -> Result<(TypeWords, Input<'_>), ReadFault<'_>>
    ensures { Gives (λ x. (x.0, seen x.1)) stop_of result (read a_type (seen input.entry)) }
{
    if at_int_size(input) {
        return integer(input);
    }
    if at_bool(input) {
        return bool_type(input);
    }
    if at_word(input, "CHAR") {
        return char_type(input);
    }
    if at_word(input, "VARCHAR") {
        return varchar_type(input);
    }
    if at_word(input, "DATE") {
        return word_value(input, "DATE", TypeWords::Date);
    }
    word_value(input, "DATETIME", TypeWords::DateTime)
}
