ghost use Rattle.std.specs.Prelude.{◌≡◌};
ghost use Rattle.sql_grammar.specs.Lexemes.{begins};
ghost use Rattle.sql_grammar.specs.Reading.{read, first};
ghost use Rattle.sql_grammar.specs.Rules.{opt};
ghost use Rattle.sql_grammar.specs.Answers.{Gives};
ghost use Rattle.sql_ast.specs.GrammarParts.{names};
ghost use Rattle.sql_ast.specs.Grammar.{create_db, create_index, create_view, create};
ghost use Rattle.sql_read.specs.Seen.{seen, stop_of};
ghost use Rattle.sql_parse.specs.Subrules.{index_words};

use crate::tables::create_table;
use dd_names::{List, Name};
use sql_ast::{IndexStatement, SchemaStatement, Statement, TableStatement, ViewStatement};
use sql_parse_parts::{at_db, columns, db, db_options, if_not_exists, names, object};
use sql_parse_query::{select_words, view_words};
use sql_read::{Input, ReadFault, at_sign, at_word, name, word};
use std::alloc::Global;

/// `CREATE db [IF NOT EXISTS] name {db_option}`, behind `CREATE`.
#[tactic(auto, unfolding(sql_ast::specs::Grammar::create_db))]
fn create_db(alloc: Global, input: Input<'_>) -> Result<(Statement, Input<'_>), ReadFault<'_>>
    ensures { Gives (λ x. (x.0, seen x.1)) stop_of result (read create_db (seen input.entry)) }
{
    let rest = db(input)?;
    let (if_not_exists, rest) = if_not_exists(rest)?;
    let (name, rest) = name(alloc, rest)?;
    let (_, rest) = db_options(alloc, rest)?;
    let made = SchemaStatement::Create {
        if_not_exists,
        name,
    };
    Ok((Statement::Schema(made), rest))
}

/// `UNIQUE INDEX | INDEX`, and whether UNIQUE is written.
fn index_words(input: Input<'_>) -> Result<(bool, Input<'_>), ReadFault<'_>>
    ensures { Gives (λ x. (x.0, seen x.1)) stop_of result (read index_words (seen input.entry)) }
{
    if at_word(input, "UNIQUE") {
        let rest = word(input, "UNIQUE")?;
        let rest = word(rest, "INDEX")?;
        Ok((true, rest))
    } else {
        let rest = word(input, "INDEX")?;
        Ok((false, rest))
    }
}

/// `CREATE [UNIQUE] INDEX name ON object cols`, behind `CREATE`.
#[tactic(auto, unfolding(sql_ast::specs::Grammar::create_index))]
fn create_index(alloc: Global, input: Input<'_>) -> Result<(Statement, Input<'_>), ReadFault<'_>>
    ensures { Gives (λ x. (x.0, seen x.1)) stop_of result (read create_index (seen input.entry)) }
{
    let (unique, rest) = index_words(input)?;
    let (name, rest) = name(alloc, rest)?;
    let rest = word(rest, "ON")?;
    let (table, rest) = object(alloc, rest)?;
    let (columns, rest) = columns(alloc, rest)?;
    let made = IndexStatement::Create {
        unique,
        name,
        table,
        columns,
    };
    Ok((Statement::Table(TableStatement::Index(made)), rest))
}

/// `[names]`
#[tactic(auto, unfolding(sql_ast::specs::GrammarParts::names))]
fn optional_names(
    alloc: Global,
    input: Input<'_>,
) -> Result<(Option<List<Name>>, Input<'_>), ReadFault<'_>>
    ensures { Gives (λ x. (x.0, seen x.1)) stop_of result (read (opt names) (seen input.entry)) }
{
    if !at_sign(input, b'(') {
        return Ok((None, input));
    }
    let (names, rest) = names(alloc, input)?;
    Ok((Some(names), rest))
}

/// `CREATE view_words VIEW object [names] AS select`, behind `CREATE`.
#[tactic(auto, unfolding(sql_ast::specs::Grammar::create_view))]
fn create_view(alloc: Global, input: Input<'_>) -> Result<(Statement, Input<'_>), ReadFault<'_>>
    ensures { Gives (λ x. (x.0, seen x.1)) stop_of result (read create_view (seen input.entry)) }
{
    let rest = view_words(alloc, input)?;
    let rest = word(rest, "VIEW")?;
    let (view, rest) = object(alloc, rest)?;
    let (columns, rest) = optional_names(alloc, rest)?;
    let rest = word(rest, "AS")?;
    let (query, rest) = select_words(alloc, rest)?;
    let made = ViewStatement::Create {
        view,
        columns,
        query,
    };
    Ok((Statement::View(made), rest))
}

/// Whether UNIQUE or INDEX is next.
#[tactic(auto, unfolding(sql_ast::specs::Grammar::create_index), using(sql_grammar::proofs::Firsts::begins_more))]
fn at_create_index(input: Input<'_>) -> bool
    ensures { result ≡ begins (first create_index) (seen input.entry) }
{
    if at_word(input, "UNIQUE") {
        return true;
    }
    at_word(input, "INDEX")
}

/// `create_db | create_table | create_index | create_view`, with `CREATE`.
#[tactic(auto, unfolding(sql_ast::specs::GrammarParts::db, sql_ast::specs::Grammar::create, sql_ast::specs::Grammar::create_db, sql_ast::specs::Grammar::create_table))]
pub fn create_words(
    alloc: Global,
    input: Input<'_>,
) -> Result<(Statement, Input<'_>), ReadFault<'_>>
    ensures { Gives (λ x. (x.0, seen x.1)) stop_of result (read create (seen input.entry)) }
{
    let rest = word(input, "CREATE")?;
    if at_db(rest) {
        create_db(alloc, rest)
    } else if at_word(rest, "TABLE") {
        create_table(alloc, rest)
    } else if at_create_index(rest) {
        create_index(alloc, rest)
    } else {
        create_view(alloc, rest)
    }
}
