use sql_ast::{
    IndexStatement, SchemaStatement, SessionStatement, ShowStatement, ShownCreation, Statement,
    TableBody, TableStatement, ViewStatement,
};

/// The words by which a statement is told, or "none" for a text that is none.
pub fn kind_of(statement: &Statement) -> &'static str {
    match statement {
        Statement::Schema(schema) => schema_kind(schema),
        Statement::Table(table) => table_kind(table),
        Statement::View(view) => view_kind(view),
        Statement::Show(show) => show_kind(show),
        Statement::Session(session) => session_kind(session),
        Statement::Bad(_) => "none",
    }
}

fn schema_kind(statement: &SchemaStatement) -> &'static str {
    match statement {
        SchemaStatement::Create { .. } => "CREATE DATABASE",
        SchemaStatement::Drop { .. } => "DROP DATABASE",
    }
}

fn table_kind(statement: &TableStatement) -> &'static str {
    match statement {
        TableStatement::Create(made) => body_kind(&made.body),
        TableStatement::Drop { .. } => "DROP TABLE",
        TableStatement::Rename { .. } => "RENAME TABLE",
        TableStatement::Truncate { .. } => "TRUNCATE TABLE",
        TableStatement::Alter { .. } => "ALTER TABLE",
        TableStatement::Index(IndexStatement::Create { .. }) => "CREATE INDEX",
        TableStatement::Index(IndexStatement::Drop { .. }) => "DROP INDEX",
    }
}

fn body_kind(body: &TableBody) -> &'static str {
    match body {
        TableBody::Like(_) => "CREATE TABLE LIKE",
        TableBody::Elements(_) => "CREATE TABLE",
    }
}

fn view_kind(statement: &ViewStatement) -> &'static str {
    match statement {
        ViewStatement::Create { .. } => "CREATE VIEW",
        ViewStatement::Drop { .. } => "DROP VIEW",
    }
}

fn show_kind(statement: &ShowStatement) -> &'static str {
    match statement {
        ShowStatement::Databases => "SHOW DATABASES",
        ShowStatement::Tables { .. } => "SHOW TABLES",
        ShowStatement::Columns { .. } => "SHOW COLUMNS",
        ShowStatement::Creation(ShownCreation::Database { .. }) => "SHOW CREATE DATABASE",
        ShowStatement::Creation(ShownCreation::Table { .. }) => "SHOW CREATE TABLE",
        ShowStatement::Creation(ShownCreation::View { .. }) => "SHOW CREATE VIEW",
        ShowStatement::Information { .. } => "TABLE",
    }
}

fn session_kind(statement: &SessionStatement) -> &'static str {
    match statement {
        SessionStatement::Use { .. } => "USE",
        SessionStatement::SetTries { .. } => "SET",
    }
}
