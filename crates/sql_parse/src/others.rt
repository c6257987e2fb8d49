ghost use Rattle.sql_grammar.specs.Reading.{read};
ghost use Rattle.sql_grammar.specs.Answers.{Gives};
ghost use Rattle.sql_ast.specs.Grammar.{use_schema, rename, truncate, alter, table, set};
ghost use Rattle.sql_read.specs.Seen.{seen, stop_of};

use crate::lists::pairs;
use sql_ast::{SessionStatement, ShowStatement, Statement, TableStatement};
use sql_parse_alter::ActionItem;
use sql_parse_parts::{maybe_word, number, object};
use sql_read::{Input, ReadFault, listed, name, sign, word};
use std::alloc::Global;

/// `USE name`
#[tactic(auto, unfolding(sql_ast::specs::Grammar::use_schema))]
pub fn use_words(alloc: Global, input: Input<'_>) -> Result<(Statement, Input<'_>), ReadFault<'_>>
    ensures { Gives (λ x. (x.0, seen x.1)) stop_of result (read use_schema (seen input.entry)) }
{
    let rest = word(input, "USE")?;
    let (name, rest) = name(alloc, rest)?;
    Ok((Statement::Session(SessionStatement::Use { name }), rest))
}

/// `RENAME TABLE object TO object {, object TO object}`
#[tactic(auto, unfolding(sql_ast::specs::Grammar::rename))]
pub fn rename_words(
    alloc: Global,
    input: Input<'_>,
) -> Result<(Statement, Input<'_>), ReadFault<'_>>
    ensures { Gives (λ x. (x.0, seen x.1)) stop_of result (read rename (seen input.entry)) }
{
    let rest = word(input, "RENAME")?;
    let rest = word(rest, "TABLE")?;
    let (pairs, rest) = pairs(alloc, rest)?;
    Ok((Statement::Table(TableStatement::Rename { pairs }), rest))
}

/// `TRUNCATE [TABLE] object`
#[tactic(auto, unfolding(sql_ast::specs::Grammar::truncate))]
pub fn truncate_words(
    alloc: Global,
    input: Input<'_>,
) -> Result<(Statement, Input<'_>), ReadFault<'_>>
    ensures { Gives (λ x. (x.0, seen x.1)) stop_of result (read truncate (seen input.entry)) }
{
    let rest = word(input, "TRUNCATE")?;
    let rest = maybe_word(rest, "TABLE")?;
    let (table, rest) = object(alloc, rest)?;
    Ok((Statement::Table(TableStatement::Truncate { table }), rest))
}

/// `ALTER TABLE object action {, action}`
#[tactic(auto, unfolding(sql_ast::specs::Grammar::alter))]
pub fn alter_words(alloc: Global, input: Input<'_>) -> Result<(Statement, Input<'_>), ReadFault<'_>>
    ensures { Gives (λ x. (x.0, seen x.1)) stop_of result (read alter (seen input.entry)) }
{
    let rest = word(input, "ALTER")?;
    let rest = word(rest, "TABLE")?;
    let (table, rest) = object(alloc, rest)?;
    let (actions, rest) = listed::<ActionItem>(alloc, rest)?;
    let altered = TableStatement::Alter { table, actions };
    Ok((Statement::Table(altered), rest))
}

/// `TABLE INFORMATION_SCHEMA . name`
#[tactic(auto, unfolding(sql_ast::specs::Grammar::table))]
pub fn table_words(alloc: Global, input: Input<'_>) -> Result<(Statement, Input<'_>), ReadFault<'_>>
    ensures { Gives (λ x. (x.0, seen x.1)) stop_of result (read table (seen input.entry)) }
{
    let rest = word(input, "TABLE")?;
    let rest = word(rest, "INFORMATION_SCHEMA")?;
    let rest = sign(rest, b'.')?;
    let (table, rest) = name(alloc, rest)?;
    Ok((Statement::Show(ShowStatement::Information { table }), rest))
}

/// `SET [SESSION] lock_wait_timeout = number`
#[tactic(auto, unfolding(sql_ast::specs::Grammar::set))]
pub fn set_words(input: Input<'_>) -> Result<(Statement, Input<'_>), ReadFault<'_>>
    ensures { Gives (λ x. (x.0, seen x.1)) stop_of result (read set (seen input.entry)) }
{
    let rest = word(input, "SET")?;
    let rest = maybe_word(rest, "SESSION")?;
    let rest = word(rest, "LOCK_WAIT_TIMEOUT")?;
    let rest = sign(rest, b'=')?;
    let (value, rest) = number(rest)?;
    Ok((
        Statement::Session(SessionStatement::SetTries { value }),
        rest,
    ))
}
