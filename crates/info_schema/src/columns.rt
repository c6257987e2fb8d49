// SHOW COLUMNS (MySQL 8.0 Reference Manual, 13.7.7.5).
ghost use Rattle.std.specs.Prelude.{◌≡◌, ◌++◌, IfOk, OnOk, map};
ghost use Rattle.std.specs.List.{list_any};
ghost use Rattle.dd_definitions.specs.Columns.{is_nullable};
ghost use Rattle.dd_definitions.specs.Indexes.{has_nullable, begins_with_name, leads_index};
ghost use Rattle.info_schema.specs.Columns.{identifies, identifying, is_unique_class, is_among, is_alone, is_unique_alone, key_word, column_cells, columns_header, columns_rows};

use crate::cells::{extra_of, push_default, push_made, push_name, push_text, titles, yes_or_no};
use dd_definitions::{ColumnDef, IndexDef};
use dd_names::{List, Name, Text};
use show_text::column_type;
use sql_types::{IndexClass, ListRow, Listing};
use std::alloc::{AllocError, Global};

/// A row a column: its name, its type, whether it may be NULL, the word of its key, its default, and AUTO_INCREMENT.
pub fn columns_rows(
    alloc: Global,
    columns: &[ColumnDef],
    indexes: &[IndexDef],
) -> Result<Listing, AllocError>
    ensures { IfOk result (λ listing. listing ≡ columns_rows columns.now indexes.now) }
{
    let known_by = identifying(columns, indexes);
    Ok(Listing {
        header: columns_header(alloc)?,
        rows: rows_of(alloc, known_by, columns, indexes)?,
    })
}

fn columns_header(alloc: Global) -> Result<List<Text>, AllocError>
    ensures { IfOk result (λ header. header ≡ columns_header) }
{
    titles(alloc, &["Field", "Type", "Null", "Key", "Default", "Extra"])
}

fn rows_of(
    alloc: Global,
    known_by: &[Name],
    columns: &[ColumnDef],
    indexes: &[IndexDef],
) -> Result<List<ListRow>, AllocError>
    ensures { IfOk result (λ rows. rows ≡ map (column_cells known_by.now indexes.now) columns.now) }
{
    let mut rows = List::new(alloc);
    'columns: for column in columns {
        let mut row = List::new(alloc);
        push_cells(alloc, &mut row, known_by, indexes, column)?;
        rows.push(row)?;
    }
    Ok(rows)
}

fn push_cells(
    alloc: Global,
    row: &mut ListRow,
    known_by: &[Name],
    indexes: &[IndexDef],
    column: &ColumnDef,
) -> Result<(), AllocError>
    ensures { OnOk result (row.new ≡ row.old ++ column_cells known_by.now indexes.now column.now) }
{
    push_name(row, &column.name)?;
    push_made(row, column_type(alloc, column.kind)?)?;
    push_text(alloc, row, yes_or_no(column.nullable))?;
    push_text(alloc, row, key_word(known_by, indexes, &column.name))?;
    push_default(row, &column.default)?;
    push_text(alloc, row, extra_of(column.auto))
}

/// `PRI`, `UNI`, `MUL` or nothing, where rows are known by the given columns.
#[tactic(auto, unfolding(crate::specs::Columns::key_word))]
pub(crate) fn key_word(known_by: &[Name], indexes: &[IndexDef], name: &Name) -> &'static str
    ensures { result.now ≡ key_word known_by.now indexes.now name.now }
{
    if is_among(name, known_by) {
        "PRI"
    } else if is_unique_alone(indexes, name) {
        "UNI"
    } else if leads_index(indexes, name) {
        "MUL"
    } else {
        ""
    }
}

fn is_among(name: &Name, names: &[Name]) -> bool
    ensures { result ≡ is_among name.now names.now }
{
    names.iter().any(|other| name == other)
}

#[tactic(auto, unfolding(crate::specs::Columns::is_unique_alone))]
fn is_unique_alone(indexes: &[IndexDef], name: &Name) -> bool
    ensures { result ≡ is_unique_alone indexes.now name.now }
{
    indexes.iter().any(|index| is_unique(index.class) && is_alone(name, index.columns.as_slice()))
}

fn is_unique(class: IndexClass) -> bool
    ensures { result ≡ is_unique_class class }
{
    match class {
        IndexClass::Primary => false,
        IndexClass::Unique => true,
        IndexClass::Plain => false,
    }
}

fn is_alone(name: &Name, names: &[Name]) -> bool
    ensures { result ≡ is_alone name.now names.now }
{
    match names {
        [only] => only == name,
        _ => false,
    }
}

#[tactic(auto, unfolding(dd_definitions::specs::Indexes::leads_index))]
fn leads_index(indexes: &[IndexDef], name: &Name) -> bool
    ensures { result ≡ leads_index indexes.now name.now }
{
    indexes
        .iter()
        .any(|index| begins_with_name(name, index.columns.as_slice()))
}

fn begins_with_name(name: &Name, names: &[Name]) -> bool
    ensures { result ≡ begins_with_name name.now names.now }
{
    match names {
        [] => false,
        [first, ..] => first == name,
    }
}

/// The columns by which a row is known: those of the primary key, or of a first index that is unique without a column that may
/// be NULL.
#[tactic(auto, unfolding(crate::specs::Columns::identifying))]
pub(crate) fn identifying<'a>(columns: &[ColumnDef], indexes: &'a [IndexDef]) -> &'a [Name]
    ensures { result.now ≡ identifying columns.now indexes.now }
{
    match indexes {
        [first, ..] if identifies(columns, first) => first.columns.as_slice(),
        _ => &[],
    }
}

fn identifies(columns: &[ColumnDef], index: &IndexDef) -> bool
    ensures { result ≡ identifies columns.now index.now }
{
    match index.class {
        IndexClass::Primary => true,
        IndexClass::Unique => !has_nullable(columns, index),
        IndexClass::Plain => false,
    }
}

#[tactic(auto, unfolding(dd_definitions::specs::Indexes::has_nullable))]
fn has_nullable(columns: &[ColumnDef], index: &IndexDef) -> bool
    ensures { result ≡ has_nullable columns.now index.now }
{
    index
        .columns
        .as_slice()
        .iter()
        .any(|name| is_nullable(columns, name))
}

/// Whether a column of this name may be NULL.
#[tactic(auto, unfolding(dd_definitions::specs::Columns::is_nullable))]
fn is_nullable(columns: &[ColumnDef], name: &Name) -> bool
    ensures { result ≡ is_nullable columns.now name.now }
{
    columns
        .iter()
        .any(|column| column.name == *name && column.nullable)
}
