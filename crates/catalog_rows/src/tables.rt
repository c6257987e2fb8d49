// The columns, indexes and foreign keys of a table as rows.
ghost use Rattle.std.specs.Prelude.{◌≡◌, ◌<◌, ◌^◌, [], ◌∷◌, length, get_or, false, OnOk};
ghost use Rattle.dd_names.specs.Names.{IsName};
ghost use Rattle.catalog_rows.specs.Parts.{index_fields, key_fields};
ghost use Rattle.catalog_rows.specs.Owners.{inside_row, Index, ForeignKey, KeyColumn};
ghost use Rattle.catalog_rows.specs.Lists.{column_rows, index_rows, index_column_rows, key_rows, key_column_rows};
ghost use Rattle.catalog_rows.specs.Stands.{FitsColumn, FitsIndex, FitsKey};
ghost use Rattle.catalog_rows.specs.Adding.{Added, AddedOne, AddedEach, Anything};

use crate::parts::{column_fields, column_place, index_fields, key_fields, text};
use crate::rows::put_row;
use dd_definitions::{ColumnDef, ForeignKeyDef, IndexDef};
use dd_names::Name;
use row_batch::Batch;
use row_fields::Field;
use std::alloc::{AllocError, Global};

/// Adds the rows of columns.
pub fn put_columns(
    alloc: Global,
    batch: &mut Batch,
    id: u32,
    columns: &[ColumnDef],
) -> Result<(), AllocError>
    requires open { batch.old.is_framed ≡ false }
    ensures { OnOk result (AddedEach FitsColumn batch.old batch.new (column_rows id) columns.now) }
{
    if columns.len() > 65_535 {
        return Err(AllocError);
    }
    let mut place: u16 = 0;
    'each: for column in columns {
        put_column(alloc, batch, id, place, column)?;
        place += 1;
    }
    Ok(())
}

#[tactic(auto, using(crate::proofs::Fitting::column_fits))]
fn put_column(
    alloc: Global,
    batch: &mut Batch,
    id: u32,
    place: u16,
    column: &ColumnDef,
) -> Result<(), AllocError>
    requires open { batch.old.is_framed ≡ false }
    ensures { OnOk result (AddedOne FitsColumn batch.old batch.new (column_rows id place column.now) column.now) }
{
    let fields = column_fields(alloc, column)?;
    put_row(
        alloc,
        batch,
        3,
        &[Field::Long(id), Field::Short(place)],
        &fields,
    )
}

/// Adds the rows of indexes and of their columns.
pub fn put_indexes(
    alloc: Global,
    batch: &mut Batch,
    id: u32,
    columns: &[ColumnDef],
    indexes: &[IndexDef],
) -> Result<(), AllocError>
    requires open { batch.old.is_framed ≡ false }
    requires few { length columns.now < 2 ^ 16 }
    ensures { OnOk result (AddedEach FitsIndex batch.old batch.new (index_rows columns.now id) indexes.now) }
{
    if indexes.len() > 65_535 {
        return Err(AllocError);
    }
    let mut place: u16 = 0;
    'each: for index in indexes {
        put_index(alloc, batch, id, columns, place, index)?;
        place += 1;
    }
    Ok(())
}

fn put_index(
    alloc: Global,
    batch: &mut Batch,
    id: u32,
    columns: &[ColumnDef],
    place: u16,
    index: &IndexDef,
) -> Result<(), AllocError>
    requires open { batch.old.is_framed ≡ false }
    requires few { length columns.now < 2 ^ 16 }
    ensures { OnOk result (AddedOne FitsIndex batch.old batch.new (index_rows columns.now id place index.now) index.now) }
{
    put_index_row(alloc, batch, id, place, index)?;
    put_index_columns(alloc, batch, id, columns, place, index.columns.as_slice())
}

#[tactic(auto, using(crate::proofs::Fitting::index_fits))]
fn put_index_row(
    alloc: Global,
    batch: &mut Batch,
    id: u32,
    place: u16,
    index: &IndexDef,
) -> Result<(), AllocError>
    requires open { batch.old.is_framed ≡ false }
    ensures added { OnOk result (Added batch.old batch.new (inside_row id (Index place) (index_fields index.now) ∷ [])) }
    ensures name { OnOk result (IsName index.now.name) }
{
    let fields = index_fields(alloc, index)?;
    put_row(
        alloc,
        batch,
        4,
        &[Field::Long(id), Field::Short(place)],
        &fields,
    )
}

fn put_index_columns(
    alloc: Global,
    batch: &mut Batch,
    id: u32,
    columns: &[ColumnDef],
    index: u16,
    names: &[Name],
) -> Result<(), AllocError>
    requires open { batch.old.is_framed ≡ false }
    requires few { length columns.now < 2 ^ 16 }
    ensures { OnOk result (AddedEach Anything batch.old batch.new (index_column_rows columns.now id index) names.now) }
{
    if names.len() > 65_535 {
        return Err(AllocError);
    }
    let mut place: u16 = 0;
    'each: for name in names {
        put_index_column(alloc, batch, id, columns, index, place, name)?;
        place += 1;
    }
    Ok(())
}

#[tactic(auto, using(crate::proofs::Fitting::place_within))]
fn put_index_column(
    alloc: Global,
    batch: &mut Batch,
    id: u32,
    columns: &[ColumnDef],
    index: u16,
    place: u16,
    name: &Name,
) -> Result<(), AllocError>
    requires open { batch.old.is_framed ≡ false }
    requires few { length columns.now < 2 ^ 16 }
    ensures { OnOk result (Added batch.old batch.new (index_column_rows columns.now id index place name.now)) }
{
    let column = column_place(columns, name) as u16;
    let key = [Field::Long(id), Field::Short(index), Field::Short(place)];
    put_row(alloc, batch, 5, &key, &[Field::Short(column)])
}

/// Adds the rows of foreign keys and of their columns.
pub fn put_keys(
    alloc: Global,
    batch: &mut Batch,
    id: u32,
    columns: &[ColumnDef],
    keys: &[ForeignKeyDef],
) -> Result<(), AllocError>
    requires open { batch.old.is_framed ≡ false }
    requires few { length columns.now < 2 ^ 16 }
    ensures { OnOk result (AddedEach FitsKey batch.old batch.new (key_rows columns.now id) keys.now) }
{
    if keys.len() > 65_535 {
        return Err(AllocError);
    }
    let mut place: u16 = 0;
    'each: for key in keys {
        put_key(alloc, batch, id, columns, place, key)?;
        place += 1;
    }
    Ok(())
}

fn put_key(
    alloc: Global,
    batch: &mut Batch,
    id: u32,
    columns: &[ColumnDef],
    place: u16,
    key: &ForeignKeyDef,
) -> Result<(), AllocError>
    requires open { batch.old.is_framed ≡ false }
    requires few { length columns.now < 2 ^ 16 }
    ensures { OnOk result (AddedOne FitsKey batch.old batch.new (key_rows columns.now id place key.now) key.now) }
{
    put_key_row(alloc, batch, id, place, key)?;
    let names = key.columns.as_slice();
    let parents = key.parent_columns.as_slice();
    put_key_columns(alloc, batch, id, columns, place, names, parents)
}

#[tactic(auto, using(crate::proofs::Fitting::key_fits))]
fn put_key_row(
    alloc: Global,
    batch: &mut Batch,
    id: u32,
    place: u16,
    key: &ForeignKeyDef,
) -> Result<(), AllocError>
    requires open { batch.old.is_framed ≡ false }
    ensures added { OnOk result (Added batch.old batch.new (inside_row id (ForeignKey place) (key_fields key.now) ∷ [])) }
    ensures name { OnOk result (IsName key.now.name) }
    ensures schema { OnOk result (IsName key.now.parent.schema) }
    ensures parent { OnOk result (IsName key.now.parent.name) }
{
    let fields = key_fields(alloc, key)?;
    put_row(
        alloc,
        batch,
        6,
        &[Field::Long(id), Field::Short(place)],
        &fields,
    )
}

fn put_key_columns(
    alloc: Global,
    batch: &mut Batch,
    id: u32,
    columns: &[ColumnDef],
    key: u16,
    names: &[Name],
    parents: &[Name],
) -> Result<(), AllocError>
    requires open { batch.old.is_framed ≡ false }
    requires few { length columns.now < 2 ^ 16 }
    ensures { OnOk result (AddedEach Anything batch.old batch.new (key_column_rows columns.now id key parents.now) names.now) }
{
    if names.len() > 65_535 {
        return Err(AllocError);
    }
    let mut place: u16 = 0;
    'each: for name in names {
        put_key_column(alloc, batch, id, columns, key, place, name, parents)?;
        place += 1;
    }
    Ok(())
}

/// Adds the row of a column of a foreign key.
#[tactic(auto, using(crate::proofs::Fitting::place_within))]
fn put_key_column(
    alloc: Global,
    batch: &mut Batch,
    id: u32,
    columns: &[ColumnDef],
    key: u16,
    place: u16,
    name: &Name,
    parents: &[Name],
) -> Result<(), AllocError>
    requires open { batch.old.is_framed ≡ false }
    requires few { length columns.now < 2 ^ 16 }
    ensures { OnOk result (Added batch.old batch.new (key_column_rows columns.now id key parents.now place name.now)) }
{
    let column = column_place(columns, name) as u16;
    put_key_pair(alloc, batch, id, key, place, column, parents)
}

/// Adds the row of a column of a foreign key, by its place in the table, with the parent's column at the same place of the
/// key, which a table's foreign keys have.
fn put_key_pair(
    alloc: Global,
    batch: &mut Batch,
    id: u32,
    key: u16,
    place: u16,
    column: u16,
    parents: &[Name],
) -> Result<(), AllocError>
    requires open { batch.old.is_framed ≡ false }
    ensures { OnOk result (Added batch.old batch.new (inside_row id (KeyColumn key place) (Field.Short column ∷ Field.Text (get_or parents.now place []) ∷ []) ∷ [])) }
{
    let Some(parent) = parents.get(place as usize) else {
        return Err(AllocError);
    };
    let parent = text(alloc, parent)?;
    let fields = [Field::Long(id), Field::Short(key), Field::Short(place)];
    put_row(alloc, batch, 7, &fields, &[Field::Short(column), parent])
}
