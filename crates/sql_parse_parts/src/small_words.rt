ghost use Rattle.std.specs.Prelude.{◌≡◌};
ghost use Rattle.sql_grammar.specs.Lexemes.{begins};
ghost use Rattle.sql_grammar.specs.Reading.{read, first};
ghost use Rattle.sql_grammar.specs.Rules.{word_of, opt, ◌⊳◌};
ghost use Rattle.sql_grammar.specs.Answers.{Gives};
ghost use Rattle.sql_ast.specs.GrammarParts.{the, maybe, a_name, db, index_or_key, from_or_in, if_not_exists, if_exists};
ghost use Rattle.sql_read.specs.Seen.{seen, stop_of};

use dd_names::Name;
use sql_read::{Input, ReadFault, at_word, name, word};
use std::alloc::Global;

/// A word of the grammar that may stand there and says nothing.
pub fn maybe_word<'a>(input: Input<'a>, expected: &str) -> Result<Input<'a>, ReadFault<'a>>
    ensures { Gives (λ rest. (tt, seen rest)) stop_of result (read (maybe (word_of expected.now)) (seen input.entry)) }
{
    if at_word(input, expected) {
        word(input, expected)
    } else {
        Ok(input)
    }
}

/// Whether `db` is next.
#[tactic(auto, unfolding(sql_ast::specs::GrammarParts::db), using(sql_grammar::proofs::Firsts::begins_more))]
pub fn at_db(input: Input<'_>) -> bool
    ensures { result ≡ begins (first db) (seen input.entry) }
{
    if at_word(input, "DATABASE") {
        return true;
    }
    at_word(input, "SCHEMA")
}

/// `DATABASE | SCHEMA`
#[tactic(auto, unfolding(sql_ast::specs::GrammarParts::db))]
pub fn db(input: Input<'_>) -> Result<Input<'_>, ReadFault<'_>>
    ensures { Gives (λ rest. (tt, seen rest)) stop_of result (read db (seen input.entry)) }
{
    if at_word(input, "DATABASE") {
        word(input, "DATABASE")
    } else {
        word(input, "SCHEMA")
    }
}

/// `INDEX | KEY`
#[tactic(auto, unfolding(sql_ast::specs::GrammarParts::index_or_key))]
pub fn index_or_key(input: Input<'_>) -> Result<Input<'_>, ReadFault<'_>>
    ensures { Gives (λ rest. (tt, seen rest)) stop_of result (read index_or_key (seen input.entry)) }
{
    if at_word(input, "INDEX") {
        word(input, "INDEX")
    } else {
        word(input, "KEY")
    }
}

/// `FROM | IN`
#[tactic(auto, unfolding(sql_ast::specs::GrammarParts::from_or_in))]
pub fn from_or_in(input: Input<'_>) -> Result<Input<'_>, ReadFault<'_>>
    ensures { Gives (λ rest. (tt, seen rest)) stop_of result (read from_or_in (seen input.entry)) }
{
    if at_word(input, "FROM") {
        word(input, "FROM")
    } else {
        word(input, "IN")
    }
}

/// `[IF NOT EXISTS]`
#[tactic(auto, unfolding(sql_ast::specs::GrammarParts::if_not_exists))]
pub fn if_not_exists(input: Input<'_>) -> Result<(bool, Input<'_>), ReadFault<'_>>
    ensures { Gives (λ x. (x.0, seen x.1)) stop_of result (read if_not_exists (seen input.entry)) }
{
    if !at_word(input, "IF") {
        return Ok((false, input));
    }
    let rest = if_not_exists_words(input)?;
    Ok((true, rest))
}

/// `IF NOT EXISTS`
fn if_not_exists_words(input: Input<'_>) -> Result<Input<'_>, ReadFault<'_>>
    ensures { Gives (λ rest. (tt, seen rest)) stop_of result (read (the "IF" ⊳ the "NOT" ⊳ the "EXISTS") (seen input.entry)) }
{
    let rest = word(input, "IF")?;
    let rest = word(rest, "NOT")?;
    word(rest, "EXISTS")
}

/// `[IF EXISTS]`
#[tactic(auto, unfolding(sql_ast::specs::GrammarParts::if_exists))]
pub fn if_exists(input: Input<'_>) -> Result<(bool, Input<'_>), ReadFault<'_>>
    ensures { Gives (λ x. (x.0, seen x.1)) stop_of result (read if_exists (seen input.entry)) }
{
    if !at_word(input, "IF") {
        return Ok((false, input));
    }
    let rest = word(input, "IF")?;
    Ok((true, word(rest, "EXISTS")?))
}

/// `[(FROM|IN) name]`
#[tactic(auto, unfolding(sql_ast::specs::GrammarParts::from_or_in))]
pub fn schema_in(
    alloc: Global,
    input: Input<'_>,
) -> Result<(Option<Name>, Input<'_>), ReadFault<'_>>
    ensures { Gives (λ x. (x.0, seen x.1)) stop_of result (read (opt (from_or_in ⊳ a_name)) (seen input.entry)) }
{
    if !at_word(input, "FROM") && !at_word(input, "IN") {
        return Ok((None, input));
    }
    let rest = from_or_in(input)?;
    let (name, rest) = name(alloc, rest)?;
    Ok((Some(name), rest))
}
