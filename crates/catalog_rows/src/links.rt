// Rows of foreign keys that others look up: among the children of a parent, and among the constraint names of a schema.
ghost use Rattle.std.specs.Prelude.{◌≡◌, [], ◌∷◌, false, IfOk, OnOk};
ghost use Rattle.std.specs.List.{AllByRecursion};
ghost use Rattle.dd_names.specs.Names.{fold};
ghost use Rattle.dd_names.specs.declared.object_name.ObjName.{ObjName};
ghost use Rattle.row_fields.specs.Fields.{Fits};
ghost use Rattle.catalog_rows.specs.Owners.{child_row, constraint_row};
ghost use Rattle.catalog_rows.specs.Lists.{numbered, link_rows};
ghost use Rattle.catalog_rows.specs.Changes.{is_among};
ghost use Rattle.catalog_rows.specs.Adding.{Added, AddedEach, Anything, Taken};

use crate::parts::{ended, object_name};
use crate::rows::{delete_row, put_row};
use dd_definitions::ForeignKeyDef;
use dd_names::ObjName;
use row_batch::Batch;
use row_fields::Field;
use std::alloc::{AllocError, Global};

/// Adds the rows of a table's foreign keys that others look up.
pub fn put_links(
    alloc: Global,
    batch: &mut Batch,
    name: &ObjName,
    schema: u32,
    id: u32,
    keys: &[ForeignKeyDef],
) -> Result<(), AllocError>
    requires open { batch.old.is_framed ≡ false }
    ensures { OnOk result (AddedEach Anything batch.old batch.new (link_rows name.now schema id) keys.now) }
{
    if keys.len() > 65_535 {
        return Err(AllocError);
    }
    let mut place: u16 = 0;
    'each: for key in keys {
        put_link(alloc, batch, name, schema, id, place, key)?;
        place += 1;
    }
    Ok(())
}

fn put_link(
    alloc: Global,
    batch: &mut Batch,
    name: &ObjName,
    schema: u32,
    id: u32,
    place: u16,
    key: &ForeignKeyDef,
) -> Result<(), AllocError>
    requires open { batch.old.is_framed ≡ false }
    ensures { OnOk result (Added batch.old batch.new (link_rows name.now schema id place key.now)) }
{
    put_child(alloc, batch, name, id, place, key)?;
    put_constraint(alloc, batch, schema, id, place, key)
}

fn put_child(
    alloc: Global,
    batch: &mut Batch,
    name: &ObjName,
    id: u32,
    place: u16,
    key: &ForeignKeyDef,
) -> Result<(), AllocError>
    requires open { batch.old.is_framed ≡ false }
    ensures { OnOk result (Added batch.old batch.new (child_row id name.now place key.now ∷ [])) }
{
    let child = object_name(alloc, name)?;
    let key = child_key(alloc, id, place, key)?;
    put_row(alloc, batch, 11, &key, &child)
}

fn put_constraint(
    alloc: Global,
    batch: &mut Batch,
    schema: u32,
    id: u32,
    place: u16,
    key: &ForeignKeyDef,
) -> Result<(), AllocError>
    requires open { batch.old.is_framed ≡ false }
    ensures { OnOk result (Added batch.old batch.new (constraint_row schema id place key.now ∷ [])) }
{
    let key = constraint_key(alloc, schema, key)?;
    let value = [Field::Long(id), Field::Short(place)];
    put_row(alloc, batch, 12, &key, &value)
}

fn child_key(
    alloc: Global,
    id: u32,
    place: u16,
    key: &ForeignKeyDef,
) -> Result<[Field; 4], AllocError>
    ensures fields { IfOk result (λ fields. fields ≡ Field.Ended key.now.parent.schema ∷ Field.Ended key.now.parent.name ∷ Field.Long id ∷ Field.Short place ∷ []) }
    ensures fits { IfOk result (λ fields. AllByRecursion Fits fields) }
{
    let schema = ended(alloc, &key.parent.schema)?;
    let name = ended(alloc, &key.parent.name)?;
    Ok([schema, name, Field::Long(id), Field::Short(place)])
}

fn constraint_key(alloc: Global, schema: u32, key: &ForeignKeyDef) -> Result<[Field; 2], AllocError>
    ensures fields { IfOk result (λ fields. fields ≡ Field.Long schema ∷ Field.Ended (fold key.now.name) ∷ []) }
    ensures fits { IfOk result (λ fields. AllByRecursion Fits fields) }
{
    let folded = key.name.fold()?;
    let folded = ended(alloc, &folded)?;
    Ok([Field::Long(schema), folded])
}

/// Adds the deletions of the rows of a table's foreign keys that others look up.
pub fn delete_links(
    alloc: Global,
    batch: &mut Batch,
    schema: u32,
    id: u32,
    keys: &[ForeignKeyDef],
) -> Result<(), AllocError>
    requires open { batch.old.is_framed ≡ false }
    ensures { (name : ObjName) → OnOk result (Taken batch.old batch.new (λ q. is_among q (numbered (link_rows name schema id) 0 keys.now))) }
{
    if keys.len() > 65_535 {
        return Err(AllocError);
    }
    let mut place: u16 = 0;
    'each: for key in keys {
        delete_link(alloc, batch, schema, id, place, key)?;
        place += 1;
    }
    Ok(())
}

fn delete_link(
    alloc: Global,
    batch: &mut Batch,
    schema: u32,
    id: u32,
    place: u16,
    key: &ForeignKeyDef,
) -> Result<(), AllocError>
    requires open { batch.old.is_framed ≡ false }
    ensures { (name : ObjName) → OnOk result (Taken batch.old batch.new (λ q. is_among q (link_rows name schema id place key.now))) }
{
    delete_child(alloc, batch, id, place, key)?;
    delete_constraint(alloc, batch, schema, id, place, key)
}

fn delete_child(
    alloc: Global,
    batch: &mut Batch,
    id: u32,
    place: u16,
    key: &ForeignKeyDef,
) -> Result<(), AllocError>
    requires open { batch.old.is_framed ≡ false }
    ensures { (name : ObjName) → OnOk result (Taken batch.old batch.new (λ q. is_among q (child_row id name place key.now ∷ []))) }
{
    let key = child_key(alloc, id, place, key)?;
    delete_row(alloc, batch, 11, &key)
}

fn delete_constraint(
    alloc: Global,
    batch: &mut Batch,
    schema: u32,
    id: u32,
    place: u16,
    key: &ForeignKeyDef,
) -> Result<(), AllocError>
    requires open { batch.old.is_framed ≡ false }
    ensures { OnOk result (Taken batch.old batch.new (λ q. is_among q (constraint_row schema id place key.now ∷ []))) }
{
    let key = constraint_key(alloc, schema, key)?;
    delete_row(alloc, batch, 12, &key)
}
