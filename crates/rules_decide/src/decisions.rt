// What a statement comes to over what is known, family by family.
ghost use Rattle.std.specs.Prelude.{◌≡◌, IfOk, true};
ghost use Rattle.std.specs.Option.{option_map};
ghost use Rattle.dd_catalog.specs.Walks.{run};
ghost use Rattle.dd_catalog.specs.Follow.{sights};
ghost use Rattle.rules_outcome.specs.Decided.{AreBefore, Decides, HaveIds};
ghost use Rattle.rules_decide.specs.Outcome.{DecidesIf, body_outcome, creation_outcome, is_decided, is_table_decided, outcome, schema_outcome, session_outcome, show_outcome, table_outcome};

use dd_catalog::{Lookup, Stop};
use dd_names::TryCopy;
use info_schema::information;
use rules_create::create_table;
use rules_outcome::Decided;
use rules_rename::rename;
use rules_schema::{
    create_database, drop_database, drop_table, set_tries, show_databases, show_tables, use_schema,
};
use rules_show::{show_create_database, show_create_table, show_create_view};
use rules_tables::{create_like, truncate};
use rules_views::show_columns;
use sql_ast::{
    CreateTable, SchemaStatement, SessionState, SessionStatement, ShowStatement, ShownCreation,
    Statement, TableBody, TableStatement,
};
use std::alloc::Global;

/// What the statement comes to over what is known, or the need of a key where the next key that it looks at isn't.
pub fn decide<L: Lookup>(
    alloc: Global,
    session: &SessionState,
    statement: &Statement,
    look: &L,
) -> Result<Decided, Stop>
    requires { is_decided statement.now ≡ true }
    ensures exact { DecidesIf result (option_map (run (sights (L.known look.now))) (outcome session.now statement.now)) }
    ensures before { IfOk result (λ d. AreBefore (L.known look.now) d) }
    ensures ids { IfOk result (λ d. HaveIds (L.known look.now) d) }
{
    match statement {
        Statement::Schema(statement) => decide_schema(alloc, session, statement, look),
        Statement::Table(statement) => decide_table(alloc, session, statement, look),
        Statement::Show(statement) => decide_show(alloc, session, statement, look),
        Statement::Session(statement) => decide_session(alloc, session, statement, look),
        Statement::Bad(error) => Err(Stop::Refused(error.copy()?)),
        Statement::View(_) => unreachable!(),
    }
}

fn decide_schema<L: Lookup>(
    alloc: Global,
    session: &SessionState,
    statement: &SchemaStatement,
    look: &L,
) -> Result<Decided, Stop>
    ensures exact { Decides result (run (sights (L.known look.now)) (schema_outcome session.now statement.now)) }
    ensures before { IfOk result (λ d. AreBefore (L.known look.now) d) }
    ensures ids { IfOk result (λ d. HaveIds (L.known look.now) d) }
{
    match statement {
        SchemaStatement::Create {
            if_not_exists,
            name,
        } => create_database(alloc, session, *if_not_exists, name, look),
        SchemaStatement::Drop { if_exists, name } => {
            drop_database(alloc, session, *if_exists, name, look)
        }
    }
}

fn decide_table<L: Lookup>(
    alloc: Global,
    session: &SessionState,
    statement: &TableStatement,
    look: &L,
) -> Result<Decided, Stop>
    requires { is_table_decided statement.now ≡ true }
    ensures exact { DecidesIf result (option_map (run (sights (L.known look.now))) (table_outcome session.now statement.now)) }
    ensures before { IfOk result (λ d. AreBefore (L.known look.now) d) }
    ensures ids { IfOk result (λ d. HaveIds (L.known look.now) d) }
{
    match statement {
        TableStatement::Create(words) => decide_create(alloc, session, words, look),
        TableStatement::Drop { if_exists, tables } => {
            drop_table(alloc, session, *if_exists, tables.as_slice(), look)
        }
        TableStatement::Rename { pairs } => rename(alloc, session, pairs.as_slice(), look),
        TableStatement::Truncate { table } => truncate(alloc, session, table, look),
        _ => unreachable!(),
    }
}

fn decide_create<L: Lookup>(
    alloc: Global,
    session: &SessionState,
    words: &CreateTable,
    look: &L,
) -> Result<Decided, Stop>
    ensures exact { Decides result (run (sights (L.known look.now)) (body_outcome session.now words.now.if_not_exists words.now.table words.now.body)) }
    ensures before { IfOk result (λ d. AreBefore (L.known look.now) d) }
    ensures ids { IfOk result (λ d. HaveIds (L.known look.now) d) }
{
    match &words.body {
        TableBody::Like(source) => create_like(
            alloc,
            session,
            words.if_not_exists,
            &words.table,
            source,
            look,
        ),
        TableBody::Elements(elements) => create_table(
            alloc,
            session,
            words.if_not_exists,
            &words.table,
            elements.as_slice(),
            look,
        ),
    }
}

fn decide_show<L: Lookup>(
    alloc: Global,
    session: &SessionState,
    statement: &ShowStatement,
    look: &L,
) -> Result<Decided, Stop>
    ensures exact { Decides result (run (sights (L.known look.now)) (show_outcome session.now statement.now)) }
    ensures before { IfOk result (λ d. AreBefore (L.known look.now) d) }
    ensures ids { IfOk result (λ d. HaveIds (L.known look.now) d) }
{
    match statement {
        ShowStatement::Databases => show_databases(alloc, look),
        ShowStatement::Tables { schema } => show_tables(alloc, session, schema, look),
        ShowStatement::Columns { object } => show_columns(alloc, session, object, look),
        ShowStatement::Creation(shown) => decide_creation(alloc, session, shown, look),
        ShowStatement::Information { table } => information(alloc, table, look),
    }
}

fn decide_creation<L: Lookup>(
    alloc: Global,
    session: &SessionState,
    shown: &ShownCreation,
    look: &L,
) -> Result<Decided, Stop>
    ensures exact { Decides result (run (sights (L.known look.now)) (creation_outcome session.now shown.now)) }
    ensures before { IfOk result (λ d. AreBefore (L.known look.now) d) }
    ensures ids { IfOk result (λ d. HaveIds (L.known look.now) d) }
{
    match shown {
        ShownCreation::Database { name } => show_create_database(alloc, name, look),
        ShownCreation::Table { object } => show_create_table(alloc, session, object, look),
        ShownCreation::View { object } => show_create_view(alloc, session, object, look),
    }
}

fn decide_session<L: Lookup>(
    alloc: Global,
    session: &SessionState,
    statement: &SessionStatement,
    look: &L,
) -> Result<Decided, Stop>
    ensures exact { Decides result (run (sights (L.known look.now)) (session_outcome session.now statement.now)) }
    ensures before { IfOk result (λ d. AreBefore (L.known look.now) d) }
    ensures ids { IfOk result (λ d. HaveIds (L.known look.now) d) }
{
    match statement {
        SessionStatement::Use { name } => use_schema(alloc, session, name, look),
        SessionStatement::SetTries { value } => set_tries(alloc, session, *value, look),
    }
}
