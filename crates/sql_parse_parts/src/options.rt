ghost use Rattle.std.specs.Prelude.{◌≡◌, List, codes};
ghost use Rattle.sql_grammar.specs.Lexemes.{amount, begins};
ghost use Rattle.sql_grammar.specs.Grammar.{one, means, many};
ghost use Rattle.sql_grammar.specs.Reading.{read, first};
ghost use Rattle.sql_grammar.specs.Rules.{sign_of, string_of, ◌⊳◌};
ghost use Rattle.sql_grammar.specs.Answers.{Gives};
ghost use Rattle.sql_ast.specs.GrammarParts.{maybe, the, equals, charset, charset_option, engine_option, db_option, table_option};
ghost use Rattle.sql_read.specs.Seen.{seen, stop_of};
ghost use Rattle.sql_parse_parts.specs.Decided.{db_options_decided, table_options_decided};

use crate::small_words::maybe_word;
use dd_names::List;
use sql_read::{Input, ReadFault, Rule, at_sign, at_word, digits, exactly, many, sign, word};
use std::alloc::Global;

/// `[=]`
#[tactic(auto, unfolding(sql_ast::specs::GrammarParts::equals))]
pub fn equals(input: Input<'_>) -> Result<Input<'_>, ReadFault<'_>>
    ensures { Gives (λ rest. (tt, seen rest)) stop_of result (read equals (seen input.entry)) }
{
    if at_sign(input, b'=') {
        sign(input, b'=')
    } else {
        Ok(input)
    }
}

/// `CHARACTER SET | CHARSET`
#[tactic(auto, unfolding(sql_ast::specs::GrammarParts::charset))]
pub fn charset(input: Input<'_>) -> Result<Input<'_>, ReadFault<'_>>
    ensures { Gives (λ rest. (tt, seen rest)) stop_of result (read charset (seen input.entry)) }
{
    if at_word(input, "CHARACTER") {
        let rest = word(input, "CHARACTER")?;
        word(rest, "SET")
    } else {
        word(input, "CHARSET")
    }
}

/// Whether `charset` is next.
#[tactic(auto, unfolding(sql_ast::specs::GrammarParts::charset), using(sql_grammar::proofs::Firsts::begins_more))]
pub fn at_charset(input: Input<'_>) -> bool
    ensures { result ≡ begins (first charset) (seen input.entry) }
{
    if at_word(input, "CHARACTER") {
        return true;
    }
    at_word(input, "CHARSET")
}

/// `charset [=] utf8mb4 | COLLATE [=] utf8mb4_0900_ai_ci`
#[tactic(auto, unfolding(sql_ast::specs::GrammarParts::charset_option, sql_ast::specs::GrammarParts::charset), using(sql_grammar::proofs::Firsts::begins_more))]
pub fn charset_option(input: Input<'_>) -> Result<Input<'_>, ReadFault<'_>>
    ensures { Gives (λ rest. (tt, seen rest)) stop_of result (read charset_option (seen input.entry)) }
{
    if at_charset(input) {
        charset_words(input)
    } else {
        collation_words(input)
    }
}

/// `charset [=] utf8mb4`
fn charset_words(input: Input<'_>) -> Result<Input<'_>, ReadFault<'_>>
    ensures { Gives (λ rest. (tt, seen rest)) stop_of result (read (charset ⊳ equals ⊳ the "UTF8MB4") (seen input.entry)) }
{
    let rest = charset(input)?;
    let rest = equals(rest)?;
    word(rest, "UTF8MB4")
}

/// `COLLATE [=] utf8mb4_0900_ai_ci`
fn collation_words(input: Input<'_>) -> Result<Input<'_>, ReadFault<'_>>
    ensures { Gives (λ rest. (tt, seen rest)) stop_of result (read (the "COLLATE" ⊳ equals ⊳ the "UTF8MB4_0900_AI_CI") (seen input.entry)) }
{
    let rest = word(input, "COLLATE")?;
    let rest = equals(rest)?;
    word(rest, "UTF8MB4_0900_AI_CI")
}

/// `ENGINE [=] InnoDB`
#[tactic(auto, unfolding(sql_ast::specs::GrammarParts::engine_option))]
pub fn engine_option(input: Input<'_>) -> Result<Input<'_>, ReadFault<'_>>
    ensures { Gives (λ rest. (tt, seen rest)) stop_of result (read engine_option (seen input.entry)) }
{
    let rest = word(input, "ENGINE")?;
    let rest = equals(rest)?;
    word(rest, "INNODB")
}

/// Whether `charset_option` is next.
#[tactic(auto, unfolding(sql_ast::specs::GrammarParts::charset_option, sql_ast::specs::GrammarParts::charset), using(sql_grammar::proofs::Firsts::begins_more))]
fn at_charset_option(input: Input<'_>) -> bool
    ensures { result ≡ begins (first charset_option) (seen input.entry) }
{
    if at_word(input, "CHARACTER") {
        return true;
    }
    if at_word(input, "CHARSET") {
        return true;
    }
    at_word(input, "COLLATE")
}

/// `[DEFAULT] charset [=] utf8mb4 | [DEFAULT] COLLATE [=] utf8mb4_0900_ai_ci | [DEFAULT] ENCRYPTION [=] 'N'`
#[tactic(auto, unfolding(sql_ast::specs::GrammarParts::db_option))]
fn db_option(input: Input<'_>) -> Result<Input<'_>, ReadFault<'_>>
    ensures { Gives (λ rest. (tt, seen rest)) stop_of result (read db_option (seen input.entry)) }
{
    let rest = maybe_word(input, "DEFAULT")?;
    if at_charset_option(rest) {
        charset_option(rest)
    } else {
        no_encryption(rest)
    }
}

/// `ENCRYPTION [=] 'N'`
fn no_encryption(input: Input<'_>) -> Result<Input<'_>, ReadFault<'_>>
    ensures { Gives (λ rest. (tt, seen rest)) stop_of result (read (the "ENCRYPTION" ⊳ equals ⊳ string_of (codes "N")) (seen input.entry)) }
{
    let rest = word(input, "ENCRYPTION")?;
    let rest = equals(rest)?;
    exactly(rest, b"N")
}

/// The options of a database.
struct DbOption {}

impl Rule for DbOption {
    type Value = ();

    ghost rule = { db_option };

    ghost decided = { db_options_decided };

    #[tactic(auto, unfolding(sql_ast::specs::GrammarParts::db_option, sql_ast::specs::GrammarParts::charset_option, sql_ast::specs::GrammarParts::charset), using(sql_grammar::proofs::Firsts::begins_more))]
    fn starts(input: Input<'_>) -> bool {
        if at_word(input, "DEFAULT") {
            return true;
        }
        if at_word(input, "CHARACTER") {
            return true;
        }
        if at_word(input, "CHARSET") {
            return true;
        }
        if at_word(input, "COLLATE") {
            return true;
        }
        at_word(input, "ENCRYPTION")
    }

    fn read<'a>(_: Global, input: Input<'a>) -> Result<((), Input<'a>), ReadFault<'a>> {
        Ok(((), db_option(input)?))
    }
}

/// `{db_option}`, of which nothing is kept but their number.
pub fn db_options(alloc: Global, input: Input<'_>) -> Result<(List<()>, Input<'_>), ReadFault<'_>>
    ensures { Gives (λ x. (x.0, seen x.1)) stop_of result (read (many db_option) (seen input.entry)) }
{
    many::<DbOption>(alloc, input)
}

/// `AUTO_INCREMENT [=] number`
fn first_number(input: Input<'_>) -> Result<Input<'_>, ReadFault<'_>>
    ensures { Gives (λ rest. (tt, seen rest)) stop_of result (read (the "AUTO_INCREMENT" ⊳ equals ⊳ means (λ _. tt {0}) (one amount)) (seen input.entry)) }
{
    let rest = word(input, "AUTO_INCREMENT")?;
    let rest = equals(rest)?;
    let (_, rest) = digits(rest)?;
    Ok(rest)
}

/// `ENGINE [=] InnoDB | [DEFAULT] charset [=] utf8mb4 | [DEFAULT] COLLATE [=] utf8mb4_0900_ai_ci | AUTO_INCREMENT [=] number`
#[tactic(auto, unfolding(sql_ast::specs::GrammarParts::table_option, sql_ast::specs::GrammarParts::engine_option))]
fn table_option(input: Input<'_>) -> Result<Input<'_>, ReadFault<'_>>
    ensures { Gives (λ rest. (tt, seen rest)) stop_of result (read table_option (seen input.entry)) }
{
    if at_word(input, "ENGINE") {
        engine_option(input)
    } else if at_word(input, "AUTO_INCREMENT") {
        first_number(input)
    } else {
        let rest = maybe_word(input, "DEFAULT")?;
        charset_option(rest)
    }
}

/// `[,]`
fn comma(input: Input<'_>) -> Result<Input<'_>, ReadFault<'_>>
    ensures { Gives (λ rest. (tt, seen rest)) stop_of result (read (maybe (sign_of 44)) (seen input.entry)) }
{
    if at_sign(input, b',') {
        sign(input, b',')
    } else {
        Ok(input)
    }
}

/// Whether a word that begins `table_option` is next.
#[tactic(auto, unfolding(sql_ast::specs::GrammarParts::table_option, sql_ast::specs::GrammarParts::engine_option, sql_ast::specs::GrammarParts::charset_option, sql_ast::specs::GrammarParts::charset), using(sql_grammar::proofs::Firsts::begins_more))]
fn at_table_option(input: Input<'_>) -> bool
    ensures { result ≡ begins (first table_option) (seen input.entry) }
{
    if at_word(input, "ENGINE") {
        return true;
    }
    if at_word(input, "AUTO_INCREMENT") {
        return true;
    }
    if at_word(input, "DEFAULT") {
        return true;
    }
    if at_word(input, "CHARACTER") {
        return true;
    }
    if at_word(input, "CHARSET") {
        return true;
    }
    at_word(input, "COLLATE")
}

/// The options of a table, each with a comma before it or without.
struct TableOption {}

impl Rule for TableOption {
    type Value = ();

    ghost rule = { maybe (sign_of 44) ⊳ table_option };

    ghost decided = { table_options_decided };

    #[tactic(auto, unfolding(sql_ast::specs::GrammarParts::table_option, sql_ast::specs::GrammarParts::engine_option), using(sql_grammar::proofs::Firsts::begins_more))]
    fn starts(input: Input<'_>) -> bool {
        if at_sign(input, b',') {
            return true;
        }
        at_table_option(input)
    }

    fn read<'a>(_: Global, input: Input<'a>) -> Result<((), Input<'a>), ReadFault<'a>> {
        let rest = comma(input)?;
        Ok(((), table_option(rest)?))
    }
}

/// `{[,] option}`, of which nothing is kept but their number.
pub fn table_options(
    alloc: Global,
    input: Input<'_>,
) -> Result<(List<()>, Input<'_>), ReadFault<'_>>
    ensures { Gives (λ x. (x.0, seen x.1)) stop_of result (read (many (maybe (sign_of 44) ⊳ table_option)) (seen input.entry)) }
{
    many::<TableOption>(alloc, input)
}
