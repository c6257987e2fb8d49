// The text of SHOW CREATE TABLE (MySQL 8.0 Reference Manual, 13.7.7.10).
ghost use Rattle.std.specs.Prelude.{◌≡◌, ◌++◌, OnOk, IfOk, flat_map};
ghost use Rattle.show_text.specs.Tables.{column_line, index_line, foreign_key_line, column_lines, lines_text, named_table_text, table_text, database_text};

use crate::columns::push_column;
use crate::keys::{push_foreign_key, push_index};
use dd_definitions::{ColumnDef, ForeignKeyDef, IndexDef, TableDef, TableParts};
use dd_names::{Name, Text};
use sql_pieces::push_name;
use std::alloc::{AllocError, Global};

/// The text of SHOW CREATE TABLE.
pub fn show_table(alloc: Global, table: &TableDef) -> Result<Text, AllocError>
    ensures { IfOk result (λ text. text ≡ table_text table.now) }
{
    let parts = table.parts();
    let mut out = Text::of(alloc, "CREATE TABLE ")?;
    push_table(alloc, &mut out, parts)?;
    Ok(out)
}

/// The name, the lines, and the options.
fn push_table(alloc: Global, out: &mut Text, parts: &TableParts) -> Result<(), AllocError>
    ensures { OnOk result (out.new ≡ out.old ++ named_table_text parts.now) }
{
    push_name(out, &parts.name.name)?;
    out.push_str(" (\n")?;
    push_lines(alloc, out, parts)?;
    out.push_str("\n) ENGINE=InnoDB DEFAULT CHARSET=utf8mb4 COLLATE=utf8mb4_0900_ai_ci")
}

fn push_lines(alloc: Global, out: &mut Text, parts: &TableParts) -> Result<(), AllocError>
    ensures { OnOk result (out.new ≡ out.old ++ lines_text parts.now) }
{
    push_column_lines(alloc, out, parts.columns.as_slice())?;
    push_index_lines(out, parts.indexes.as_slice())?;
    push_foreign_key_lines(out, &parts.name.schema, parts.foreign_keys.as_slice())
}

fn push_column_lines(alloc: Global, out: &mut Text, columns: &[ColumnDef]) -> Result<(), AllocError>
    ensures { OnOk result (out.new ≡ out.old ++ column_lines columns.now) }
{
    match columns {
        [] => Ok(()),
        [first, others @ ..] => {
            out.push_str("  ")?;
            push_column(alloc, out, first)?;
            push_more_columns(alloc, out, others)
        }
    }
}

fn push_more_columns(alloc: Global, out: &mut Text, columns: &[ColumnDef]) -> Result<(), AllocError>
    ensures { OnOk result (out.new ≡ out.old ++ flat_map column_line columns.now) }
{
    'columns: for column in columns {
        out.push_str(",\n  ")?;
        push_column(alloc, out, column)?;
    }
    Ok(())
}

fn push_index_lines(out: &mut Text, indexes: &[IndexDef]) -> Result<(), AllocError>
    ensures { OnOk result (out.new ≡ out.old ++ flat_map index_line indexes.now) }
{
    'indexes: for index in indexes {
        out.push_str(",\n  ")?;
        push_index(out, index)?;
    }
    Ok(())
}

fn push_foreign_key_lines(
    out: &mut Text,
    schema: &Name,
    keys: &[ForeignKeyDef],
) -> Result<(), AllocError>
    ensures { OnOk result (out.new ≡ out.old ++ flat_map (foreign_key_line schema.now) keys.now) }
{
    'keys: for key in keys {
        out.push_str(",\n  ")?;
        push_foreign_key(out, schema, key)?;
    }
    Ok(())
}

/// The text of SHOW CREATE DATABASE (MySQL 8.0 Reference Manual, 13.7.7.6).
pub fn show_schema(alloc: Global, name: &Name) -> Result<Text, AllocError>
    ensures { IfOk result (λ text. text ≡ database_text name.now) }
{
    let mut out = Text::of(alloc, "CREATE DATABASE ")?;
    push_name(&mut out, name)?;
    out.push_str(
        " /*!40100 DEFAULT CHARACTER SET utf8mb4 COLLATE utf8mb4_0900_ai_ci */ /*!80016 DEFAULT ENCRYPTION='N' */",
    )?;
    Ok(out)
}
