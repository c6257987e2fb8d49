ghost use Rattle.std.specs.Prelude.{◌≡◌, true, IfOk};
ghost use Rattle.sql_ast.specs.Reads.{Reads};
ghost use Rattle.sql_ast.specs.declared.show.ShowStatement.TheVariants as shows;
ghost use Rattle.sql_ast.specs.declared.statement.Statement.TheVariants as is;
ghost use Rattle.sql_ast.specs.declared.table.TableStatement.TheVariants as tables;
ghost use Rattle.sql_text.specs.Canonical.{canonical_text, is_spellable};

use crate::laws::canonical_laws;
use crate::texts;
use dd_names::Text;
use sql_ast::{
    IndexStatement, SchemaStatement, SessionStatement, ShowStatement, ShownCreation, Statement,
    TableStatement, ViewStatement,
};
use std::alloc::{AllocError, Global};

/// The canonical text of a statement, which reads as the statement: its tokens divided by one blank, each statement by the
/// first of its spellings. A text outside the grammar has none.
pub fn text_of(alloc: Global, statement: &Statement) -> Result<Text, AllocError>
    requires spellable { is_spellable statement.now ≡ true }
    ensures text { IfOk result (λ text. text ≡ canonical_text statement.now) }
    ensures reads { IfOk result (λ text. Reads text statement.now) }
{
    canonical_laws();
    let text = canonical_text(alloc, statement)?;
    Ok(text)
}

/// The canonical text of a statement.
fn canonical_text(alloc: Global, statement: &Statement) -> Result<Text, AllocError>
    requires { is_spellable statement.now ≡ true }
    ensures { IfOk result (λ text. text ≡ canonical_text statement.now) }
{
    match statement {
        Statement::Schema(statement) => schema_text(alloc, statement),
        Statement::Table(statement) => table_text(alloc, statement),
        Statement::View(statement) => view_text(alloc, statement),
        Statement::Show(statement) => show_text(alloc, statement),
        Statement::Session(statement) => session_text(alloc, statement),
        Statement::Bad(_) => unreachable!(),
    }
}

fn schema_text(alloc: Global, statement: &SchemaStatement) -> Result<Text, AllocError>
    ensures { IfOk result (λ text. text ≡ canonical_text (is.Schema statement.now)) }
{
    match statement {
        SchemaStatement::Create {
            if_not_exists,
            name,
        } => texts::create_database(alloc, *if_not_exists, name),
        SchemaStatement::Drop { if_exists, name } => texts::drop_database(alloc, *if_exists, name),
    }
}

fn table_text(alloc: Global, statement: &TableStatement) -> Result<Text, AllocError>
    ensures { IfOk result (λ text. text ≡ canonical_text (is.Table statement.now)) }
{
    match statement {
        TableStatement::Create(words) => texts::create_table(alloc, words),
        TableStatement::Drop { if_exists, tables } => texts::drop_table(alloc, *if_exists, tables),
        TableStatement::Rename { pairs } => texts::rename(alloc, pairs),
        TableStatement::Truncate { table } => texts::truncate(alloc, table),
        TableStatement::Alter { table, actions } => texts::alter(alloc, table, actions),
        TableStatement::Index(statement) => index_text(alloc, statement),
    }
}

fn index_text(alloc: Global, statement: &IndexStatement) -> Result<Text, AllocError>
    ensures { IfOk result (λ text. text ≡ canonical_text (is.Table (tables.Index statement.now))) }
{
    match statement {
        IndexStatement::Create {
            unique,
            name,
            table,
            columns,
        } => texts::create_index(alloc, *unique, name, table, columns),
        IndexStatement::Drop { name, table } => texts::drop_index(alloc, name, table),
    }
}

fn view_text(alloc: Global, statement: &ViewStatement) -> Result<Text, AllocError>
    ensures { IfOk result (λ text. text ≡ canonical_text (is.View statement.now)) }
{
    match statement {
        ViewStatement::Create {
            view,
            columns,
            query,
        } => texts::create_view(alloc, view, columns, query),
        ViewStatement::Drop { if_exists, views } => texts::drop_view(alloc, *if_exists, views),
    }
}

fn show_text(alloc: Global, statement: &ShowStatement) -> Result<Text, AllocError>
    ensures { IfOk result (λ text. text ≡ canonical_text (is.Show statement.now)) }
{
    match statement {
        ShowStatement::Databases => Text::of(alloc, "SHOW DATABASES"),
        ShowStatement::Tables { schema } => texts::show_tables(alloc, schema),
        ShowStatement::Columns { object } => texts::show_columns(alloc, object),
        ShowStatement::Creation(shown) => creation_text(alloc, shown),
        ShowStatement::Information { table } => texts::information(alloc, table),
    }
}

fn creation_text(alloc: Global, shown: &ShownCreation) -> Result<Text, AllocError>
    ensures { IfOk result (λ text. text ≡ canonical_text (is.Show (shows.Creation shown.now))) }
{
    match shown {
        ShownCreation::Database { name } => texts::show_create_database(alloc, name),
        ShownCreation::Table { object } => texts::show_create_table(alloc, object),
        ShownCreation::View { object } => texts::show_create_view(alloc, object),
    }
}

fn session_text(alloc: Global, statement: &SessionStatement) -> Result<Text, AllocError>
    ensures { IfOk result (λ text. text ≡ canonical_text (is.Session statement.now)) }
{
    match statement {
        SessionStatement::Use { name } => texts::use_schema(alloc, name),
        SessionStatement::SetTries { value } => texts::set_tries(alloc, *value),
    }
}
