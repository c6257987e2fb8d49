ghost use Rattle.std.specs.Prelude.{◌≡◌};
ghost use Rattle.sql_grammar.specs.Rules.{sign_of, ◌⊲◌};
ghost use Rattle.sql_grammar.specs.Reading.{read};
ghost use Rattle.sql_grammar.specs.Answers.{Gives};
ghost use Rattle.sql_ast.specs.Grammar.{like_object, body, create_table, table_of};
ghost use Rattle.sql_read.specs.Seen.{seen, stop_of};
ghost use Rattle.sql_parse.specs.Bodies.{elements_body, body_behind};

use sql_ast::{CreateTable, Statement, TableBody, TableStatement};
use sql_parse_columns::ElementItem;
use sql_parse_parts::{if_not_exists, object, table_options};
use sql_read::{Input, ReadFault, at_word, listed, sign, word};
use sql_types::ObjRef;
use std::alloc::Global;

/// `LIKE object`
#[tactic(auto, unfolding(sql_ast::specs::Grammar::like_object))]
fn like_object(alloc: Global, input: Input<'_>) -> Result<(TableBody, Input<'_>), ReadFault<'_>>
    ensures { Gives (λ x. (x.0, seen x.1)) stop_of result (read like_object (seen input.entry)) }
{
    let rest = word(input, "LIKE")?;
    let (source, rest) = object(alloc, rest)?;
    Ok((TableBody::Like(source), rest))
}

/// `element {, element} ) {[,] option}`
fn elements(alloc: Global, input: Input<'_>) -> Result<(TableBody, Input<'_>), ReadFault<'_>>
    ensures { Gives (λ x. (x.0, seen x.1)) stop_of result (read elements_body (seen input.entry)) }
{
    let (elements, rest) = listed::<ElementItem>(alloc, input)?;
    let rest = sign(rest, b')')?;
    let (_, rest) = table_options(alloc, rest)?;
    Ok((TableBody::Elements(elements), rest))
}

/// `LIKE object )`
fn closed_like(alloc: Global, input: Input<'_>) -> Result<(TableBody, Input<'_>), ReadFault<'_>>
    ensures { Gives (λ x. (x.0, seen x.1)) stop_of result (read (like_object ⊲ sign_of 41) (seen input.entry)) }
{
    let (body, rest) = like_object(alloc, input)?;
    let rest = sign(rest, b')')?;
    Ok((body, rest))
}

/// `LIKE object ) | element {, element} ) {[,] option}`
#[tactic(auto, unfolding(sql_ast::specs::Grammar::like_object))]
fn body_behind(alloc: Global, input: Input<'_>) -> Result<(TableBody, Input<'_>), ReadFault<'_>>
    ensures { Gives (λ x. (x.0, seen x.1)) stop_of result (read body_behind (seen input.entry)) }
{
    if at_word(input, "LIKE") {
        closed_like(alloc, input)
    } else {
        elements(alloc, input)
    }
}

/// `LIKE object | ( LIKE object ) | ( element {, element} ) {[,] option}`
#[tactic(auto, unfolding(sql_ast::specs::Grammar::body, sql_ast::specs::Grammar::like_object))]
fn body(alloc: Global, input: Input<'_>) -> Result<(TableBody, Input<'_>), ReadFault<'_>>
    ensures { Gives (λ x. (x.0, seen x.1)) stop_of result (read body (seen input.entry)) }
{
    if at_word(input, "LIKE") {
        return like_object(alloc, input);
    }
    let rest = sign(input, b'(')?;
    body_behind(alloc, rest)
}

/// The statement that makes a table.
fn table_of(if_not_exists: bool, table: ObjRef, body: TableBody) -> Statement
    ensures { result ≡ table_of if_not_exists table body }
{
    Statement::Table(TableStatement::Create(CreateTable {
        if_not_exists,
        table,
        body,
    }))
}

/// `CREATE TABLE [IF NOT EXISTS] object body`, behind `CREATE`.
#[tactic(auto, unfolding(sql_ast::specs::Grammar::create_table))]
pub fn create_table(
    alloc: Global,
    input: Input<'_>,
) -> Result<(Statement, Input<'_>), ReadFault<'_>>
    ensures { Gives (λ x. (x.0, seen x.1)) stop_of result (read create_table (seen input.entry)) }
{
    let rest = word(input, "TABLE")?;
    let (if_not_exists, rest) = if_not_exists(rest)?;
    let (table, rest) = object(alloc, rest)?;
    let (body, rest) = body(alloc, rest)?;
    Ok((table_of(if_not_exists, table, body), rest))
}
