// The rows of schemas, tables and views, deleted.
ghost use Rattle.std.specs.Prelude.{◌≡◌, ℕ, [], ◌∷◌, false, OnOk};
ghost use Rattle.dd_definitions.specs.declared.view_parts.ViewParts.{ViewParts};
ghost use Rattle.row_batch.specs.Rows.{is_key};
ghost use Rattle.dd_catalog.specs.Catalog.{Table, View};
ghost use Rattle.row_fields.specs.Fields.{Fits};
ghost use Rattle.catalog_rows.specs.Owners.{SchemaIs, ObjectIs, key_of, key_bytes};
ghost use Rattle.catalog_rows.specs.Changes.{is_erased};
ghost use Rattle.catalog_rows.specs.Adding.{Taken};
ghost use Rattle.catalog_rows.specs.Objects.{owner_of, schema_owner, object_owner, is_erased_if};

use crate::links::delete_links;
use crate::parts::ended;
use crate::rows::{delete_inside, delete_row};
use dd_catalog::Object;
use dd_definitions::TableDef;
use dd_names::{Name, ObjName, ObjectKey};
use row_batch::Batch;
use row_fields::Field;
use std::alloc::{AllocError, Global};

/// Adds the deletions of the rows of a schema, a table or a view under its key, as it stands. What else stands at a key has no
/// rows. Where the batch has no room for them, there is no memory; it may then have the first of them.
pub fn erase_rows(
    alloc: Global,
    batch: &mut Batch,
    key: &ObjectKey,
    object: &Object,
) -> Result<(), AllocError>
    requires open { batch.old.is_framed ≡ false }
    ensures { OnOk result (Taken batch.old batch.new (is_erased_if (owner_of key.now object.now))) }
{
    match object {
        Object::Schema { id } => erase_schema_at(alloc, batch, key, *id),
        Object::Table {
            id,
            schema,
            space,
            def,
        } => erase_table_at(alloc, batch, key, *schema, *id, *space, def),
        Object::View { id, schema, def: _ } => erase_view_at(alloc, batch, key, *schema, *id),
        Object::Absent
        | Object::Schemas(_)
        | Object::Objects(_)
        | Object::Children(_)
        | Object::Constraint { .. } => Ok(()),
    }
}

fn erase_schema_at(
    alloc: Global,
    batch: &mut Batch,
    key: &ObjectKey,
    id: u32,
) -> Result<(), AllocError>
    requires open { batch.old.is_framed ≡ false }
    ensures { OnOk result (Taken batch.old batch.new (is_erased_if (schema_owner key.now id))) }
{
    match key {
        ObjectKey::Schema(name) => erase_schema(alloc, batch, name),
        ObjectKey::Schemas
        | ObjectKey::Objects(_)
        | ObjectKey::Object(_)
        | ObjectKey::Children(_)
        | ObjectKey::Constraint { .. } => Ok(()),
    }
}

fn erase_table_at(
    alloc: Global,
    batch: &mut Batch,
    key: &ObjectKey,
    schema: u32,
    id: u32,
    space: u32,
    def: &TableDef,
) -> Result<(), AllocError>
    requires open { batch.old.is_framed ≡ false }
    ensures { OnOk result (Taken batch.old batch.new (is_erased_if (object_owner key.now schema id (Table space def.now)))) }
{
    match key {
        ObjectKey::Object(name) => erase_table(alloc, batch, name, schema, id, def),
        ObjectKey::Schemas
        | ObjectKey::Schema(_)
        | ObjectKey::Objects(_)
        | ObjectKey::Children(_)
        | ObjectKey::Constraint { .. } => Ok(()),
    }
}

fn erase_view_at(
    alloc: Global,
    batch: &mut Batch,
    key: &ObjectKey,
    schema: u32,
    id: u32,
) -> Result<(), AllocError>
    requires open { batch.old.is_framed ≡ false }
    ensures { (parts : ViewParts) → OnOk result (Taken batch.old batch.new (is_erased_if (object_owner key.now schema id (View parts)))) }
{
    match key {
        ObjectKey::Object(name) => erase_view(alloc, batch, name, schema, id),
        ObjectKey::Schemas
        | ObjectKey::Schema(_)
        | ObjectKey::Objects(_)
        | ObjectKey::Children(_)
        | ObjectKey::Constraint { .. } => Ok(()),
    }
}

fn erase_schema(alloc: Global, batch: &mut Batch, name: &Name) -> Result<(), AllocError>
    requires open { batch.old.is_framed ≡ false }
    ensures { (id : ℕ) → OnOk result (Taken batch.old batch.new (is_erased (SchemaIs name.now id))) }
{
    let name = ended(alloc, name)?;
    delete_row(alloc, batch, 1, &[name])
}

fn erase_table(
    alloc: Global,
    batch: &mut Batch,
    name: &ObjName,
    schema: u32,
    id: u32,
    def: &TableDef,
) -> Result<(), AllocError>
    requires open { batch.old.is_framed ≡ false }
    ensures { (space : ℕ) → OnOk result (Taken batch.old batch.new (is_erased (ObjectIs name.now schema id (Table space def.now)))) }
{
    delete_inside(alloc, batch, &[3, 4, 5, 6, 7], id)?;
    delete_name(alloc, batch, schema, &name.name)?;
    let keys = def.parts().foreign_keys.as_slice();
    delete_links(alloc, batch, schema, id, keys)
}

fn erase_view(
    alloc: Global,
    batch: &mut Batch,
    name: &ObjName,
    schema: u32,
    id: u32,
) -> Result<(), AllocError>
    requires open { batch.old.is_framed ≡ false }
    ensures { (parts : ViewParts) → OnOk result (Taken batch.old batch.new (is_erased (ObjectIs name.now schema id (View parts)))) }
{
    delete_inside(alloc, batch, &[8], id)?;
    delete_name(alloc, batch, schema, &name.name)
}

fn delete_name(alloc: Global, batch: &mut Batch, schema: u32, name: &Name) -> Result<(), AllocError>
    requires open { batch.old.is_framed ≡ false }
    ensures { OnOk result (Taken batch.old batch.new (λ q. is_key q (key_bytes (key_of 2 (Field.Long schema ∷ Field.Ended name.now ∷ []))))) }
{
    let name = ended(alloc, name)?;
    delete_row(alloc, batch, 2, &[Field::Long(schema), name])
}
