ghost use Rattle.std.specs.Prelude.{◌≡◌};
ghost use Rattle.sql_grammar.specs.Lexemes.{begins};
ghost use Rattle.sql_grammar.specs.Reading.{read, first};
ghost use Rattle.sql_grammar.specs.Answers.{Gives};
ghost use Rattle.sql_ast.specs.Grammar.{show, in_named_schema};
ghost use Rattle.sql_read.specs.Seen.{seen, stop_of};
ghost use Rattle.sql_parse.specs.Subrules.{databases_word, show_tables, columns_word, show_columns, shown_database, shown_table, shown_view, show_create};

use dd_names::Name;
use sql_ast::{ShowStatement, ShownCreation, Statement};
use sql_parse_parts::{at_db, db, from_or_in, object, schema_in};
use sql_read::{Input, ReadFault, at_word, name, word};
use sql_types::ObjRef;
use std::alloc::Global;

/// `TABLES [(FROM|IN) name]`
fn show_tables(alloc: Global, input: Input<'_>) -> Result<(Statement, Input<'_>), ReadFault<'_>>
    ensures { Gives (λ x. (x.0, seen x.1)) stop_of result (read show_tables (seen input.entry)) }
{
    let rest = word(input, "TABLES")?;
    let (schema, rest) = schema_in(alloc, rest)?;
    Ok((Statement::Show(ShowStatement::Tables { schema }), rest))
}

/// `COLUMNS | FIELDS`
fn columns_word(input: Input<'_>) -> Result<Input<'_>, ReadFault<'_>>
    ensures { Gives (λ rest. (tt, seen rest)) stop_of result (read columns_word (seen input.entry)) }
{
    if at_word(input, "COLUMNS") {
        word(input, "COLUMNS")
    } else {
        word(input, "FIELDS")
    }
}

/// The object, in the schema that is named behind it where one is.
fn in_named_schema(object: ObjRef, named: Option<Name>) -> ObjRef
    ensures { result ≡ in_named_schema object named }
{
    match named {
        None => object,
        Some(schema) => ObjRef {
            schema: Some(schema),
            name: object.name,
        },
    }
}

/// `(COLUMNS|FIELDS) (FROM|IN) object [(FROM|IN) name]`
fn show_columns(alloc: Global, input: Input<'_>) -> Result<(Statement, Input<'_>), ReadFault<'_>>
    ensures { Gives (λ x. (x.0, seen x.1)) stop_of result (read show_columns (seen input.entry)) }
{
    let rest = columns_word(input)?;
    let rest = from_or_in(rest)?;
    let (object, rest) = object(alloc, rest)?;
    let (schema, rest) = schema_in(alloc, rest)?;
    let object = in_named_schema(object, schema);
    Ok((Statement::Show(ShowStatement::Columns { object }), rest))
}

/// `db name`
#[tactic(auto, unfolding(sql_ast::specs::GrammarParts::db))]
fn shown_database(alloc: Global, input: Input<'_>) -> Result<(Statement, Input<'_>), ReadFault<'_>>
    ensures { Gives (λ x. (x.0, seen x.1)) stop_of result (read shown_database (seen input.entry)) }
{
    let rest = db(input)?;
    let (name, rest) = name(alloc, rest)?;
    let shown = ShownCreation::Database { name };
    Ok((Statement::Show(ShowStatement::Creation(shown)), rest))
}

/// `TABLE object`
fn shown_table(alloc: Global, input: Input<'_>) -> Result<(Statement, Input<'_>), ReadFault<'_>>
    ensures { Gives (λ x. (x.0, seen x.1)) stop_of result (read shown_table (seen input.entry)) }
{
    let rest = word(input, "TABLE")?;
    let (object, rest) = object(alloc, rest)?;
    let shown = ShownCreation::Table { object };
    Ok((Statement::Show(ShowStatement::Creation(shown)), rest))
}

/// `VIEW object`
fn shown_view(alloc: Global, input: Input<'_>) -> Result<(Statement, Input<'_>), ReadFault<'_>>
    ensures { Gives (λ x. (x.0, seen x.1)) stop_of result (read shown_view (seen input.entry)) }
{
    let rest = word(input, "VIEW")?;
    let (object, rest) = object(alloc, rest)?;
    let shown = ShownCreation::View { object };
    Ok((Statement::Show(ShowStatement::Creation(shown)), rest))
}

/// `CREATE db name | CREATE TABLE object | CREATE VIEW object`
#[tactic(auto, unfolding(sql_ast::specs::GrammarParts::db))]
fn show_create(alloc: Global, input: Input<'_>) -> Result<(Statement, Input<'_>), ReadFault<'_>>
    ensures { Gives (λ x. (x.0, seen x.1)) stop_of result (read show_create (seen input.entry)) }
{
    let rest = word(input, "CREATE")?;
    if at_db(rest) {
        shown_database(alloc, rest)
    } else if at_word(rest, "TABLE") {
        shown_table(alloc, rest)
    } else {
        shown_view(alloc, rest)
    }
}

/// `DATABASES | SCHEMAS`
fn databases_word(input: Input<'_>) -> Result<Input<'_>, ReadFault<'_>>
    ensures { Gives (λ rest. (tt, seen rest)) stop_of result (read databases_word (seen input.entry)) }
{
    if at_word(input, "DATABASES") {
        word(input, "DATABASES")
    } else {
        word(input, "SCHEMAS")
    }
}

/// Whether DATABASES or SCHEMAS is next.
#[tactic(auto, using(sql_grammar::proofs::Firsts::begins_more))]
fn at_databases(input: Input<'_>) -> bool
    ensures { result ≡ begins (first databases_word) (seen input.entry) }
{
    if at_word(input, "DATABASES") {
        return true;
    }
    at_word(input, "SCHEMAS")
}

/// Whether COLUMNS or FIELDS is next.
#[tactic(auto, using(sql_grammar::proofs::Firsts::begins_more))]
fn at_columns(input: Input<'_>) -> bool
    ensures { result ≡ begins (first columns_word) (seen input.entry) }
{
    if at_word(input, "COLUMNS") {
        return true;
    }
    at_word(input, "FIELDS")
}

/// `SHOW (DATABASES|SCHEMAS)`, `SHOW TABLES ..`, `SHOW (COLUMNS|FIELDS) ..` or `SHOW CREATE ..`
#[tactic(auto, unfolding(sql_ast::specs::Grammar::show))]
pub fn show_words(alloc: Global, input: Input<'_>) -> Result<(Statement, Input<'_>), ReadFault<'_>>
    ensures { Gives (λ x. (x.0, seen x.1)) stop_of result (read show (seen input.entry)) }
{
    let rest = word(input, "SHOW")?;
    if at_databases(rest) {
        let rest = databases_word(rest)?;
        Ok((Statement::Show(ShowStatement::Databases), rest))
    } else if at_word(rest, "TABLES") {
        show_tables(alloc, rest)
    } else if at_columns(rest) {
        show_columns(alloc, rest)
    } else {
        show_create(alloc, rest)
    }
}
