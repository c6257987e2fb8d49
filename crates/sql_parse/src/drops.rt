ghost use Rattle.sql_grammar.specs.Reading.{read};
ghost use Rattle.sql_grammar.specs.Answers.{Gives};
ghost use Rattle.sql_ast.specs.Grammar.{drop_db, drop_table, drop_index, drop_view, drop};
ghost use Rattle.sql_read.specs.Seen.{seen, stop_of};
ghost use Rattle.sql_parse.specs.Subrules.{drop_rule};

use crate::lists::objects;
use sql_ast::{IndexStatement, SchemaStatement, Statement, TableStatement, ViewStatement};
use sql_parse_parts::{at_db, db, if_exists, object};
use sql_read::{Input, ReadFault, at_word, name, word};
use std::alloc::Global;

/// `DROP db [IF EXISTS] name`, behind `DROP`.
#[tactic(auto, unfolding(sql_ast::specs::Grammar::drop_db))]
fn drop_db(alloc: Global, input: Input<'_>) -> Result<(Statement, Input<'_>), ReadFault<'_>>
    ensures { Gives (λ x. (x.0, seen x.1)) stop_of result (read drop_db (seen input.entry)) }
{
    let rest = db(input)?;
    let (if_exists, rest) = if_exists(rest)?;
    let (name, rest) = name(alloc, rest)?;
    let dropped = SchemaStatement::Drop { if_exists, name };
    Ok((Statement::Schema(dropped), rest))
}

/// `[RESTRICT|CASCADE]`
#[tactic(auto, using(sql_grammar::proofs::Firsts::begins_more))]
fn drop_rule(input: Input<'_>) -> Result<Input<'_>, ReadFault<'_>>
    ensures { Gives (λ rest. (tt, seen rest)) stop_of result (read drop_rule (seen input.entry)) }
{
    if at_word(input, "RESTRICT") {
        return word(input, "RESTRICT");
    }
    if at_word(input, "CASCADE") {
        return word(input, "CASCADE");
    }
    Ok(input)
}

/// `DROP TABLE [IF EXISTS] object {, object} [RESTRICT|CASCADE]`, behind `DROP`.
#[tactic(auto, unfolding(sql_ast::specs::Grammar::drop_table))]
fn drop_table(alloc: Global, input: Input<'_>) -> Result<(Statement, Input<'_>), ReadFault<'_>>
    ensures { Gives (λ x. (x.0, seen x.1)) stop_of result (read drop_table (seen input.entry)) }
{
    let rest = word(input, "TABLE")?;
    let (if_exists, rest) = if_exists(rest)?;
    let (tables, rest) = objects(alloc, rest)?;
    let rest = drop_rule(rest)?;
    let dropped = TableStatement::Drop { if_exists, tables };
    Ok((Statement::Table(dropped), rest))
}

/// `DROP INDEX name ON object`, behind `DROP`.
#[tactic(auto, unfolding(sql_ast::specs::Grammar::drop_index))]
fn drop_index(alloc: Global, input: Input<'_>) -> Result<(Statement, Input<'_>), ReadFault<'_>>
    ensures { Gives (λ x. (x.0, seen x.1)) stop_of result (read drop_index (seen input.entry)) }
{
    let rest = word(input, "INDEX")?;
    let (name, rest) = name(alloc, rest)?;
    let rest = word(rest, "ON")?;
    let (table, rest) = object(alloc, rest)?;
    let dropped = IndexStatement::Drop { name, table };
    Ok((Statement::Table(TableStatement::Index(dropped)), rest))
}

/// `DROP VIEW [IF EXISTS] object {, object}`, behind `DROP`.
#[tactic(auto, unfolding(sql_ast::specs::Grammar::drop_view))]
fn drop_view(alloc: Global, input: Input<'_>) -> Result<(Statement, Input<'_>), ReadFault<'_>>
    ensures { Gives (λ x. (x.0, seen x.1)) stop_of result (read drop_view (seen input.entry)) }
{
    let rest = word(input, "VIEW")?;
    let (if_exists, rest) = if_exists(rest)?;
    let (views, rest) = objects(alloc, rest)?;
    let dropped = ViewStatement::Drop { if_exists, views };
    Ok((Statement::View(dropped), rest))
}

/// `drop_db | drop_table | drop_index | drop_view`, with `DROP`.
#[tactic(auto, unfolding(sql_ast::specs::GrammarParts::db, sql_ast::specs::Grammar::drop, sql_ast::specs::Grammar::drop_db, sql_ast::specs::Grammar::drop_table, sql_ast::specs::Grammar::drop_index))]
pub fn drop_words(alloc: Global, input: Input<'_>) -> Result<(Statement, Input<'_>), ReadFault<'_>>
    ensures { Gives (λ x. (x.0, seen x.1)) stop_of result (read drop (seen input.entry)) }
{
    let rest = word(input, "DROP")?;
    if at_db(rest) {
        drop_db(alloc, rest)
    } else if at_word(rest, "TABLE") {
        drop_table(alloc, rest)
    } else if at_word(rest, "INDEX") {
        drop_index(alloc, rest)
    } else {
        drop_view(alloc, rest)
    }
}
