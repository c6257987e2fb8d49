// The rows of one object in each table of INFORMATION_SCHEMA (MySQL 8.0 Reference Manual, 26.3).
ghost use Rattle.std.specs.Prelude.{◌≡◌, ◌<◌, ◌++◌, ◌∷◌, [], OnOk, map, codes};
ghost use Rattle.std.specs.Option.{option_copied};
ghost use Rattle.std.specs.List.{flat_map};
ghost use Rattle.sql_types.specs.declared.listing.Cell.TheVariants as cells;
ghost use Rattle.dd_definitions.specs.declared.indexes.IndexDef.{IndexDef as Index};
ghost use Rattle.dd_definitions.specs.declared.foreign_keys.ForeignKeyDef.{ForeignKeyDef as ForeignKey};
ghost use Rattle.dd_catalog.specs.Sights.{sight};
ghost use Rattle.info_schema.specs.declared.tables.InfoTable.TheVariants as tables;
ghost use Rattle.info_schema.specs.Columns.{cell_of, identifying};
ghost use Rattle.info_schema.specs.Tables.{schemata_row, tables_row, columns_row, non_unique, statistics_row, usage_row, constraint_row, views_row, rows_from, base_table_rows, view_rows, rows_seen};

use crate::cells::{
    extra_of, push_default, push_made, push_name, push_null, push_number, push_text, yes_or_no,
};
use crate::columns::{identifying, key_word};
use crate::tables::InfoTable;
use dd_catalog::Object;
use dd_definitions::{ColumnDef, ForeignKeyDef, IndexDef, TableDef, TableParts, ViewDef};
use dd_names::{List, Name, ObjName};
use show_text::{column_type, rule_name, view_query};
use sql_types::{IndexClass, ListRow};
use std::alloc::{AllocError, Global};

/// Adds the rows of what stands at an object's key.
pub(crate) fn push_seen(
    alloc: Global,
    rows: &mut List<ListRow>,
    table: InfoTable,
    object: &Object,
) -> Result<(), AllocError>
    ensures { OnOk result (rows.new ≡ rows.old ++ rows_seen table (sight object.now)) }
{
    match object {
        Object::Table { def, .. } => push_base_table(alloc, rows, table, def.parts()),
        Object::View { def, .. } => push_view(alloc, rows, table, def),
        _ => Ok(()),
    }
}

#[tactic(auto, unfolding(crate::specs::Tables::base_table_rows))]
fn push_base_table(
    alloc: Global,
    rows: &mut List<ListRow>,
    table: InfoTable,
    parts: &TableParts,
) -> Result<(), AllocError>
    ensures { OnOk result (rows.new ≡ rows.old ++ base_table_rows table parts.now) }
{
    match table {
        InfoTable::Schemata | InfoTable::Views => Ok(()),
        InfoTable::Tables => push_table(alloc, rows, &parts.name),
        InfoTable::Columns => push_columns(alloc, rows, parts),
        InfoTable::Statistics => push_indexes(alloc, rows, &parts.name, parts.indexes.as_slice()),
        InfoTable::KeyColumnUsage => push_usages(
            alloc,
            rows,
            &parts.name,
            parts.foreign_keys.as_slice(),
        ),
        InfoTable::ReferentialConstraints => push_constraints(
            alloc,
            rows,
            &parts.name,
            parts.foreign_keys.as_slice(),
        ),
    }
}

#[tactic(auto, unfolding(crate::specs::Tables::view_rows))]
fn push_view(
    alloc: Global,
    rows: &mut List<ListRow>,
    table: InfoTable,
    view: &ViewDef,
) -> Result<(), AllocError>
    ensures { OnOk result (rows.new ≡ rows.old ++ view_rows table view.now) }
{
    match table {
        InfoTable::Tables => push_view_as_table(alloc, rows, &view.parts().name),
        InfoTable::Views => push_definition(alloc, rows, view),
        InfoTable::Schemata
        | InfoTable::Columns
        | InfoTable::Statistics
        | InfoTable::KeyColumnUsage
        | InfoTable::ReferentialConstraints => Ok(()),
    }
}

/// A schema's row in SCHEMATA.
pub(crate) fn push_schema(
    alloc: Global,
    rows: &mut List<ListRow>,
    name: &Name,
) -> Result<(), AllocError>
    ensures { OnOk result (rows.new ≡ rows.old ++ schemata_row name.now ∷ []) }
{
    let mut row = List::new(alloc);
    schemata_cells(alloc, &mut row, name)?;
    Ok(rows.push(row)?)
}

fn schemata_cells(alloc: Global, row: &mut ListRow, name: &Name) -> Result<(), AllocError>
    ensures { OnOk result (row.new ≡ row.old ++ schemata_row name.now) }
{
    push_name(row, name)?;
    push_text(alloc, row, "utf8mb4")?;
    push_text(alloc, row, "utf8mb4_0900_ai_ci")
}

fn push_table(alloc: Global, rows: &mut List<ListRow>, name: &ObjName) -> Result<(), AllocError>
    ensures { OnOk result (rows.new ≡ rows.old ++ tables_row name.now (codes "BASE TABLE") (cells.Value (codes "InnoDB")) ∷ []) }
{
    let mut row = List::new(alloc);
    base_table_cells(alloc, &mut row, name)?;
    Ok(rows.push(row)?)
}

fn base_table_cells(alloc: Global, row: &mut ListRow, name: &ObjName) -> Result<(), AllocError>
    ensures { OnOk result (row.new ≡ row.old ++ tables_row name.now (codes "BASE TABLE") (cells.Value (codes "InnoDB"))) }
{
    tables_cells(alloc, row, name, "BASE TABLE")?;
    push_text(alloc, row, "InnoDB")
}

fn push_view_as_table(
    alloc: Global,
    rows: &mut List<ListRow>,
    name: &ObjName,
) -> Result<(), AllocError>
    ensures { OnOk result (rows.new ≡ rows.old ++ tables_row name.now (codes "VIEW") cells.Null ∷ []) }
{
    let mut row = List::new(alloc);
    tables_cells(alloc, &mut row, name, "VIEW")?;
    push_null(&mut row)?;
    Ok(rows.push(row)?)
}

/// The schema, the name and the kind.
fn tables_cells(
    alloc: Global,
    row: &mut ListRow,
    name: &ObjName,
    kind: &str,
) -> Result<(), AllocError>
    ensures { OnOk result (row.new ≡ row.old ++ cells.Value name.now.schema ∷ cells.Value name.now.name ∷ cells.Value kind.now ∷ []) }
{
    push_name(row, &name.schema)?;
    push_name(row, &name.name)?;
    push_text(alloc, row, kind)
}

fn push_definition(
    alloc: Global,
    rows: &mut List<ListRow>,
    view: &ViewDef,
) -> Result<(), AllocError>
    ensures { OnOk result (rows.new ≡ rows.old ++ views_row view.now ∷ []) }
{
    let name = &view.parts().name;
    let mut row = List::new(alloc);
    push_name(&mut row, &name.schema)?;
    push_name(&mut row, &name.name)?;
    push_made(&mut row, view_query(alloc, view)?)?;
    Ok(rows.push(row)?)
}

fn push_columns(
    alloc: Global,
    rows: &mut List<ListRow>,
    parts: &TableParts,
) -> Result<(), AllocError>
    ensures { OnOk result (rows.new ≡ rows.old ++ rows_from (columns_row parts.now (identifying parts.now.columns parts.now.indexes)) 0 parts.now.columns) }
{
    let columns = parts.columns.as_slice();
    let known_by = identifying(columns, parts.indexes.as_slice());
    push_each_column(alloc, rows, parts, known_by, columns)
}

fn push_each_column(
    alloc: Global,
    rows: &mut List<ListRow>,
    parts: &TableParts,
    known_by: &[Name],
    columns: &[ColumnDef],
) -> Result<(), AllocError>
    ensures { OnOk result (rows.new ≡ rows.old ++ rows_from (columns_row parts.now known_by.now) 0 columns.now) }
{
    'places: for place in 0..columns.len() {
        let mut row = List::new(alloc);
        columns_cells(alloc, &mut row, parts, known_by, place, &columns[place])?;
        rows.push(row)?;
    }
    Ok(())
}

fn columns_cells(
    alloc: Global,
    row: &mut ListRow,
    parts: &TableParts,
    known_by: &[Name],
    place: usize,
    column: &ColumnDef,
) -> Result<(), AllocError>
    requires { place < 18446744073709551615 }
    ensures { OnOk result (row.new ≡ row.old ++ columns_row parts.now known_by.now place column.now) }
{
    push_name(row, &parts.name.schema)?;
    push_name(row, &parts.name.name)?;
    push_name(row, &column.name)?;
    push_number(alloc, row, place + 1)?;
    push_default(row, &column.default)?;
    push_text(alloc, row, yes_or_no(column.nullable))?;
    push_made(row, column_type(alloc, column.kind)?)?;
    let word = key_word(known_by, parts.indexes.as_slice(), &column.name);
    push_text(alloc, row, word)?;
    push_text(alloc, row, extra_of(column.auto))
}

fn push_indexes(
    alloc: Global,
    rows: &mut List<ListRow>,
    name: &ObjName,
    indexes: &[IndexDef],
) -> Result<(), AllocError>
    ensures { OnOk result (rows.new ≡ rows.old ++ flat_map (λ (index : Index). rows_from (statistics_row name.now index) 0 index.columns) indexes.now) }
{
    'indexes: for index in indexes {
        push_index(alloc, rows, name, index)?;
    }
    Ok(())
}

fn push_index(
    alloc: Global,
    rows: &mut List<ListRow>,
    name: &ObjName,
    index: &IndexDef,
) -> Result<(), AllocError>
    ensures { OnOk result (rows.new ≡ rows.old ++ rows_from (statistics_row name.now index.now) 0 index.now.columns) }
{
    let columns = index.columns.as_slice();
    'places: for place in 0..columns.len() {
        let mut row = List::new(alloc);
        statistics_cells(alloc, &mut row, name, index, place, &columns[place])?;
        rows.push(row)?;
    }
    Ok(())
}

fn statistics_cells(
    alloc: Global,
    row: &mut ListRow,
    name: &ObjName,
    index: &IndexDef,
    place: usize,
    column: &Name,
) -> Result<(), AllocError>
    requires { place < 18446744073709551615 }
    ensures { OnOk result (row.new ≡ row.old ++ statistics_row name.now index.now place column.now) }
{
    push_name(row, &name.schema)?;
    push_name(row, &name.name)?;
    push_text(alloc, row, non_unique(index.class))?;
    push_name(row, &index.name)?;
    push_number(alloc, row, place + 1)?;
    push_name(row, column)
}

/// `1` where the index may have a row twice, else `0`.
fn non_unique(class: IndexClass) -> &'static str
    ensures { result.now ≡ non_unique class }
{
    match class {
        IndexClass::Primary => "0",
        IndexClass::Unique => "0",
        IndexClass::Plain => "1",
    }
}

fn push_usages(
    alloc: Global,
    rows: &mut List<ListRow>,
    name: &ObjName,
    keys: &[ForeignKeyDef],
) -> Result<(), AllocError>
    ensures { OnOk result (rows.new ≡ rows.old ++ flat_map (λ (key : ForeignKey). rows_from (usage_row name.now key) 0 key.columns) keys.now) }
{
    'keys: for key in keys {
        push_usage(alloc, rows, name, key)?;
    }
    Ok(())
}

fn push_usage(
    alloc: Global,
    rows: &mut List<ListRow>,
    name: &ObjName,
    key: &ForeignKeyDef,
) -> Result<(), AllocError>
    ensures { OnOk result (rows.new ≡ rows.old ++ rows_from (usage_row name.now key.now) 0 key.now.columns) }
{
    let columns = key.columns.as_slice();
    'places: for place in 0..columns.len() {
        let mut row = List::new(alloc);
        usage_cells(alloc, &mut row, name, key, place, &columns[place])?;
        rows.push(row)?;
    }
    Ok(())
}

fn usage_cells(
    alloc: Global,
    row: &mut ListRow,
    name: &ObjName,
    key: &ForeignKeyDef,
    place: usize,
    column: &Name,
) -> Result<(), AllocError>
    requires { place < 18446744073709551615 }
    ensures { OnOk result (row.new ≡ row.old ++ usage_row name.now key.now place column.now) }
{
    push_name(row, &name.schema)?;
    push_name(row, &key.name)?;
    push_name(row, &name.name)?;
    push_name(row, column)?;
    push_number(alloc, row, place + 1)?;
    push_name(row, &key.parent.schema)?;
    push_name(row, &key.parent.name)?;
    push_if_there(row, key.parent_columns.get(place))
}

/// A name, and NULL where there is none.
fn push_if_there(row: &mut ListRow, name: Option<&Name>) -> Result<(), AllocError>
    ensures { OnOk result (row.new ≡ row.old ++ cell_of (option_copied name.entry) ∷ []) }
{
    match name {
        None => push_null(row),
        Some(name) => push_name(row, name),
    }
}

fn push_constraints(
    alloc: Global,
    rows: &mut List<ListRow>,
    name: &ObjName,
    keys: &[ForeignKeyDef],
) -> Result<(), AllocError>
    ensures { OnOk result (rows.new ≡ rows.old ++ map (constraint_row name.now) keys.now) }
{
    'keys: for key in keys {
        let mut row = List::new(alloc);
        constraint_cells(alloc, &mut row, name, key)?;
        rows.push(row)?;
    }
    Ok(())
}

fn constraint_cells(
    alloc: Global,
    row: &mut ListRow,
    name: &ObjName,
    key: &ForeignKeyDef,
) -> Result<(), AllocError>
    ensures { OnOk result (row.new ≡ row.old ++ constraint_row name.now key.now) }
{
    push_name(row, &name.schema)?;
    push_name(row, &key.name)?;
    push_text(alloc, row, rule_name(key.on_update))?;
    push_text(alloc, row, rule_name(key.on_delete))?;
    push_name(row, &name.name)?;
    push_name(row, &key.parent.name)
}
