// One function for each kind of statement; each writes the first words, and then the parts.
ghost use Rattle.std.specs.Prelude.{◌≡◌, IfOk};
ghost use Rattle.sql_ast.specs.declared.schema.SchemaStatement.TheVariants as schemas;
ghost use Rattle.sql_ast.specs.declared.session.SessionStatement.TheVariants as sessions;
ghost use Rattle.sql_ast.specs.declared.show.ShowStatement.TheVariants as shows;
ghost use Rattle.sql_ast.specs.declared.show.ShownCreation.TheVariants as creations;
ghost use Rattle.sql_ast.specs.declared.statement.Statement.TheVariants as is;
ghost use Rattle.sql_ast.specs.declared.table.IndexStatement.TheVariants as indexes;
ghost use Rattle.sql_ast.specs.declared.table.TableStatement.TheVariants as tables;
ghost use Rattle.sql_ast.specs.declared.view.ViewStatement.TheVariants as views;
ghost use Rattle.sql_text.specs.Canonical.{canonical_text};

use crate::lists::put_divided;
use crate::parts::{put_if_exists, put_if_not_exists, put_name, put_object};
use crate::statements::{put_from, put_new_index, put_new_table, put_view};
use dd_names::{List, Name, Text};
use sql_ast::{AlterAction, CreateTable, RenamePair, Select};
use sql_pieces::push_number;
use sql_types::ObjRef;
use std::alloc::{AllocError, Global};

/// The text of CREATE DATABASE.
pub fn create_database(alloc: Global, if_not_exists: bool, name: &Name) -> Result<Text, AllocError>
    ensures { IfOk result (λ text. text ≡ canonical_text (is.Schema (schemas.Create if_not_exists name.now))) }
{
    let mut out = Text::of(alloc, "CREATE DATABASE")?;
    put_if_not_exists(&mut out, if_not_exists)?;
    put_name(&mut out, name)?;
    Ok(out)
}

/// The text of DROP DATABASE.
pub fn drop_database(alloc: Global, if_exists: bool, name: &Name) -> Result<Text, AllocError>
    ensures { IfOk result (λ text. text ≡ canonical_text (is.Schema (schemas.Drop if_exists name.now))) }
{
    let mut out = Text::of(alloc, "DROP DATABASE")?;
    put_if_exists(&mut out, if_exists)?;
    put_name(&mut out, name)?;
    Ok(out)
}

/// The text of USE.
pub fn use_schema(alloc: Global, name: &Name) -> Result<Text, AllocError>
    ensures { IfOk result (λ text. text ≡ canonical_text (is.Session (sessions.Use name.now))) }
{
    let mut out = Text::of(alloc, "USE")?;
    put_name(&mut out, name)?;
    Ok(out)
}

/// The text of CREATE TABLE.
pub fn create_table(alloc: Global, words: &CreateTable) -> Result<Text, AllocError>
    ensures { IfOk result (λ text. text ≡ canonical_text (is.Table (tables.Create words.now))) }
{
    let mut out = Text::of(alloc, "CREATE TABLE")?;
    put_new_table(alloc, &mut out, words)?;
    Ok(out)
}

/// The text of DROP TABLE.
pub fn drop_table(
    alloc: Global,
    if_exists: bool,
    dropped: &List<ObjRef>,
) -> Result<Text, AllocError>
    ensures { IfOk result (λ text. text ≡ canonical_text (is.Table (tables.Drop if_exists dropped.now))) }
{
    let mut out = Text::of(alloc, "DROP TABLE")?;
    put_if_exists(&mut out, if_exists)?;
    put_divided(alloc, &mut out, dropped)?;
    Ok(out)
}

/// The text of RENAME TABLE.
pub fn rename(alloc: Global, pairs: &List<RenamePair>) -> Result<Text, AllocError>
    ensures { IfOk result (λ text. text ≡ canonical_text (is.Table (tables.Rename pairs.now))) }
{
    let mut out = Text::of(alloc, "RENAME TABLE")?;
    put_divided(alloc, &mut out, pairs)?;
    Ok(out)
}

/// The text of TRUNCATE.
pub fn truncate(alloc: Global, table: &ObjRef) -> Result<Text, AllocError>
    ensures { IfOk result (λ text. text ≡ canonical_text (is.Table (tables.Truncate table.now))) }
{
    let mut out = Text::of(alloc, "TRUNCATE")?;
    put_object(&mut out, table)?;
    Ok(out)
}

/// The text of ALTER TABLE.
pub fn alter(alloc: Global, table: &ObjRef, actions: &List<AlterAction>) -> Result<Text, AllocError>
    ensures { IfOk result (λ text. text ≡ canonical_text (is.Table (tables.Alter table.now actions.now))) }
{
    let mut out = Text::of(alloc, "ALTER TABLE")?;
    put_object(&mut out, table)?;
    put_divided(alloc, &mut out, actions)?;
    Ok(out)
}

/// The text of CREATE INDEX.
pub fn create_index(
    alloc: Global,
    unique: bool,
    name: &Name,
    table: &ObjRef,
    columns: &List<Name>,
) -> Result<Text, AllocError>
    ensures { IfOk result (λ text. text ≡ canonical_text (is.Table (tables.Index (indexes.Create unique name.now table.now columns.now)))) }
{
    let mut out = Text::of(alloc, "CREATE")?;
    put_new_index(alloc, &mut out, unique, name, table, columns)?;
    Ok(out)
}

/// The text of DROP INDEX.
pub fn drop_index(alloc: Global, name: &Name, table: &ObjRef) -> Result<Text, AllocError>
    ensures { IfOk result (λ text. text ≡ canonical_text (is.Table (tables.Index (indexes.Drop name.now table.now)))) }
{
    let mut out = Text::of(alloc, "DROP INDEX")?;
    put_name(&mut out, name)?;
    out.push_str(" ON")?;
    put_object(&mut out, table)?;
    Ok(out)
}

/// The text of CREATE VIEW.
pub fn create_view(
    alloc: Global,
    view: &ObjRef,
    columns: &Option<List<Name>>,
    query: &Select,
) -> Result<Text, AllocError>
    ensures { IfOk result (λ text. text ≡ canonical_text (is.View (views.Create view.now columns.now query.now))) }
{
    let mut out = Text::of(alloc, "CREATE VIEW")?;
    put_object(&mut out, view)?;
    put_view(alloc, &mut out, columns, query)?;
    Ok(out)
}

/// The text of DROP VIEW.
pub fn drop_view(alloc: Global, if_exists: bool, dropped: &List<ObjRef>) -> Result<Text, AllocError>
    ensures { IfOk result (λ text. text ≡ canonical_text (is.View (views.Drop if_exists dropped.now))) }
{
    let mut out = Text::of(alloc, "DROP VIEW")?;
    put_if_exists(&mut out, if_exists)?;
    put_divided(alloc, &mut out, dropped)?;
    Ok(out)
}

/// The text of SHOW TABLES.
pub fn show_tables(alloc: Global, schema: &Option<Name>) -> Result<Text, AllocError>
    ensures { IfOk result (λ text. text ≡ canonical_text (is.Show (shows.Tables schema.now))) }
{
    let mut out = Text::of(alloc, "SHOW TABLES")?;
    put_from(&mut out, schema)?;
    Ok(out)
}

/// The text of SHOW COLUMNS.
pub fn show_columns(alloc: Global, object: &ObjRef) -> Result<Text, AllocError>
    ensures { IfOk result (λ text. text ≡ canonical_text (is.Show (shows.Columns object.now))) }
{
    let mut out = Text::of(alloc, "SHOW COLUMNS FROM")?;
    put_object(&mut out, object)?;
    Ok(out)
}

/// The text of SHOW CREATE DATABASE.
pub fn show_create_database(alloc: Global, name: &Name) -> Result<Text, AllocError>
    ensures { IfOk result (λ text. text ≡ canonical_text (is.Show (shows.Creation (creations.Database name.now)))) }
{
    let mut out = Text::of(alloc, "SHOW CREATE DATABASE")?;
    put_name(&mut out, name)?;
    Ok(out)
}

/// The text of SHOW CREATE TABLE.
pub fn show_create_table(alloc: Global, object: &ObjRef) -> Result<Text, AllocError>
    ensures { IfOk result (λ text. text ≡ canonical_text (is.Show (shows.Creation (creations.Table object.now)))) }
{
    let mut out = Text::of(alloc, "SHOW CREATE TABLE")?;
    put_object(&mut out, object)?;
    Ok(out)
}

/// The text of SHOW CREATE VIEW.
pub fn show_create_view(alloc: Global, object: &ObjRef) -> Result<Text, AllocError>
    ensures { IfOk result (λ text. text ≡ canonical_text (is.Show (shows.Creation (creations.View object.now)))) }
{
    let mut out = Text::of(alloc, "SHOW CREATE VIEW")?;
    put_object(&mut out, object)?;
    Ok(out)
}

/// The text of TABLE.
pub fn information(alloc: Global, table: &Name) -> Result<Text, AllocError>
    ensures { IfOk result (λ text. text ≡ canonical_text (is.Show (shows.Information table.now))) }
{
    let mut out = Text::of(alloc, "TABLE INFORMATION_SCHEMA .")?;
    put_name(&mut out, table)?;
    Ok(out)
}

/// The text of SET lock_wait_timeout.
pub fn set_tries(alloc: Global, value: u128) -> Result<Text, AllocError>
    ensures { IfOk result (λ text. text ≡ canonical_text (is.Session (sessions.SetTries value))) }
{
    let mut out = Text::of(alloc, "SET lock_wait_timeout = ")?;
    push_number(alloc, &mut out, value)?;
    Ok(out)
}
