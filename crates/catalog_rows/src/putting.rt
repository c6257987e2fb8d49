// The rows of schemas, tables and views, and the counter, put.
ghost use Rattle.std.specs.Prelude.{◌≡◌, ◌<◌, ◌^◌, [], ◌∷◌, false, OnOk};
ghost use Rattle.std.specs.List.{AllByRecursion};
ghost use Rattle.dd_names.specs.Names.{IsName};
ghost use Rattle.dd_catalog.specs.Catalog.{Table, View};
ghost use Rattle.row_fields.specs.Fields.{Fits};
ghost use Rattle.catalog_rows.specs.Parts.{view_fields};
ghost use Rattle.catalog_rows.specs.Owners.{SchemaIs, ObjectIs, row, inside_row, Query, object_row};
ghost use Rattle.catalog_rows.specs.Lists.{rows_of};
ghost use Rattle.catalog_rows.specs.Stands.{FitsOwner, FitsView, counter_row};
ghost use Rattle.catalog_rows.specs.Adding.{Added, AddedOne};
ghost use Rattle.catalog_rows.specs.Objects.{owner_of, schema_owner, object_owner, rows_if, FitsIf};

use crate::links::put_links;
use crate::parts::{ended, view_fields};
use crate::rows::put_row;
use crate::tables::{put_columns, put_indexes, put_keys};
use dd_catalog::Object;
use dd_definitions::{TableDef, ViewDef, ViewParts};
use dd_names::{Name, ObjName, ObjectKey};
use row_batch::Batch;
use row_fields::Field;
use std::alloc::{AllocError, Global};

/// Adds the puts of the rows of a schema, a table or a view under its key. What else stands at a key has no rows. Where the
/// batch has no room for them, there is no memory; it may then have the first of them.
pub fn put_rows(
    alloc: Global,
    batch: &mut Batch,
    key: &ObjectKey,
    object: &Object,
) -> Result<(), AllocError>
    requires open { batch.old.is_framed ≡ false }
    ensures added { OnOk result (Added batch.old batch.new (rows_if (owner_of key.now object.now))) }
    // Names are names, and numbers and lengths have room.
    ensures fits { OnOk result (FitsIf (owner_of key.now object.now)) }
{
    match object {
        Object::Schema { id } => put_schema_at(alloc, batch, key, *id),
        Object::Table {
            id,
            schema,
            space,
            def,
        } => put_table_at(alloc, batch, key, *schema, *id, *space, def),
        Object::View { id, schema, def } => put_view_at(alloc, batch, key, *schema, *id, def),
        Object::Absent
        | Object::Schemas(_)
        | Object::Objects(_)
        | Object::Children(_)
        | Object::Constraint { .. } => Ok(()),
    }
}

fn put_schema_at(
    alloc: Global,
    batch: &mut Batch,
    key: &ObjectKey,
    id: u32,
) -> Result<(), AllocError>
    requires open { batch.old.is_framed ≡ false }
    ensures added { OnOk result (Added batch.old batch.new (rows_if (schema_owner key.now id))) }
    ensures fits { OnOk result (FitsIf (schema_owner key.now id)) }
{
    match key {
        ObjectKey::Schema(name) => put_schema(alloc, batch, name, id),
        ObjectKey::Schemas
        | ObjectKey::Objects(_)
        | ObjectKey::Object(_)
        | ObjectKey::Children(_)
        | ObjectKey::Constraint { .. } => Ok(()),
    }
}

fn put_table_at(
    alloc: Global,
    batch: &mut Batch,
    key: &ObjectKey,
    schema: u32,
    id: u32,
    space: u32,
    def: &TableDef,
) -> Result<(), AllocError>
    requires open { batch.old.is_framed ≡ false }
    ensures added { OnOk result (Added batch.old batch.new (rows_if (object_owner key.now schema id (Table space def.now)))) }
    ensures fits { OnOk result (FitsIf (object_owner key.now schema id (Table space def.now))) }
{
    match key {
        ObjectKey::Object(name) => put_table(alloc, batch, name, schema, id, space, def),
        ObjectKey::Schemas
        | ObjectKey::Schema(_)
        | ObjectKey::Objects(_)
        | ObjectKey::Children(_)
        | ObjectKey::Constraint { .. } => Ok(()),
    }
}

fn put_view_at(
    alloc: Global,
    batch: &mut Batch,
    key: &ObjectKey,
    schema: u32,
    id: u32,
    def: &ViewDef,
) -> Result<(), AllocError>
    requires open { batch.old.is_framed ≡ false }
    ensures added { OnOk result (Added batch.old batch.new (rows_if (object_owner key.now schema id (View def.now)))) }
    ensures fits { OnOk result (FitsIf (object_owner key.now schema id (View def.now))) }
{
    match key {
        ObjectKey::Object(name) => put_view(alloc, batch, name, schema, id, def),
        ObjectKey::Schemas
        | ObjectKey::Schema(_)
        | ObjectKey::Objects(_)
        | ObjectKey::Children(_)
        | ObjectKey::Constraint { .. } => Ok(()),
    }
}

/// Adds the put of the next number.
pub fn put_counter(alloc: Global, batch: &mut Batch, next: u32) -> Result<(), AllocError>
    requires open { batch.old.is_framed ≡ false }
    ensures { OnOk result (Added batch.old batch.new (counter_row next ∷ [])) }
{
    put_row(alloc, batch, 10, &[], &[Field::Long(next)])
}

fn put_schema(alloc: Global, batch: &mut Batch, name: &Name, id: u32) -> Result<(), AllocError>
    requires open { batch.old.is_framed ≡ false }
    ensures added { OnOk result (Added batch.old batch.new (rows_of (SchemaIs name.now id))) }
    ensures fits { OnOk result (FitsOwner (SchemaIs name.now id)) }
{
    let name = ended(alloc, name)?;
    put_row(alloc, batch, 1, &[name], &[Field::Long(id)])
}

/// Adds the rows of a table: of its name, its columns, its indexes and its foreign keys.
fn put_table(
    alloc: Global,
    batch: &mut Batch,
    name: &ObjName,
    schema: u32,
    id: u32,
    space: u32,
    def: &TableDef,
) -> Result<(), AllocError>
    requires open { batch.old.is_framed ≡ false }
    ensures added { OnOk result (Added batch.old batch.new (rows_of (ObjectIs name.now schema id (Table space def.now)))) }
    ensures fits { OnOk result (FitsOwner (ObjectIs name.now schema id (Table space def.now))) }
{
    let parts = def.parts();
    let columns = parts.columns.as_slice();
    let indexes = parts.indexes.as_slice();
    let keys = parts.foreign_keys.as_slice();
    put_table_name(alloc, batch, schema, id, space, &name.name)?;
    put_columns(alloc, batch, id, columns)?;
    put_indexes(alloc, batch, id, columns, indexes)?;
    put_keys(alloc, batch, id, columns, keys)?;
    put_links(alloc, batch, name, schema, id, keys)
}

/// Adds the rows of a view: of its name, and of its query.
fn put_view(
    alloc: Global,
    batch: &mut Batch,
    name: &ObjName,
    schema: u32,
    id: u32,
    def: &ViewDef,
) -> Result<(), AllocError>
    requires open { batch.old.is_framed ≡ false }
    ensures added { OnOk result (Added batch.old batch.new (rows_of (ObjectIs name.now schema id (View def.now)))) }
    ensures fits { OnOk result (FitsOwner (ObjectIs name.now schema id (View def.now))) }
{
    put_view_name(alloc, batch, schema, id, &name.name)?;
    put_query(alloc, batch, id, def.parts())
}

fn put_table_name(
    alloc: Global,
    batch: &mut Batch,
    schema: u32,
    id: u32,
    space: u32,
    name: &Name,
) -> Result<(), AllocError>
    requires open { batch.old.is_framed ≡ false }
    ensures added { OnOk result (Added batch.old batch.new (row 2 (Field.Long schema ∷ Field.Ended name.now ∷ []) (Field.Byte 1 ∷ Field.Long id ∷ Field.Long space ∷ []) ∷ [])) }
    ensures name { OnOk result (IsName name.now) }
    ensures room { (schema < 2 ^ 32) × (id < 2 ^ 32) × (space < 2 ^ 32) }
{
    let name = ended(alloc, name)?;
    let value = [Field::Byte(1), Field::Long(id), Field::Long(space)];
    put_row(alloc, batch, 2, &[Field::Long(schema), name], &value)
}

fn put_view_name(
    alloc: Global,
    batch: &mut Batch,
    schema: u32,
    id: u32,
    name: &Name,
) -> Result<(), AllocError>
    requires open { batch.old.is_framed ≡ false }
    ensures added { OnOk result (Added batch.old batch.new (row 2 (Field.Long schema ∷ Field.Ended name.now ∷ []) (Field.Byte 2 ∷ Field.Long id ∷ Field.Long 0 ∷ []) ∷ [])) }
    ensures name { OnOk result (IsName name.now) }
    ensures room { (schema < 2 ^ 32) × (id < 2 ^ 32) }
{
    let name = ended(alloc, name)?;
    let value = [Field::Byte(2), Field::Long(id), Field::Long(0)];
    put_row(alloc, batch, 2, &[Field::Long(schema), name], &value)
}

#[tactic(auto, using(crate::proofs::Fitting::view_fits))]
fn put_query(alloc: Global, batch: &mut Batch, id: u32, parts: &ViewParts) -> Result<(), AllocError>
    requires open { batch.old.is_framed ≡ false }
    ensures { OnOk result (AddedOne FitsView batch.old batch.new (inside_row id Query (view_fields parts.now) ∷ []) parts.now) }
{
    let fields = view_fields(alloc, parts)?;
    put_row(alloc, batch, 8, &[Field::Long(id)], &fields)
}
