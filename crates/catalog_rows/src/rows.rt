// One row of a batch, or the rows under one id.
ghost use Rattle.std.specs.Prelude.{◌≡◌, ◌+◌, ◌<◌, ◌^◌, [], ◌∷◌, length, true, false, IfOk, OnOk};
ghost use Rattle.std.specs.List.{AllByRecursion, list_any};
ghost use Rattle.row_batch.specs.Rows.{is_key};
ghost use Rattle.row_fields.specs.Fields.{Fits};
ghost use Rattle.catalog_rows.specs.Owners.{row, key_of, key_bytes};
ghost use Rattle.catalog_rows.specs.Changes.{is_of};
ghost use Rattle.catalog_rows.specs.Adding.{Added, Taken};

use row_batch::Batch;
use row_fields::{Field, bytes_of, push_fields};
use std::alloc::{AllocError, Global};

/// Adds the put of a row. Where the batch has no room for it, there is no memory.
pub fn put_row(
    alloc: Global,
    batch: &mut Batch,
    tag: u8,
    key: &[Field],
    value: &[Field],
) -> Result<(), AllocError>
    requires open { batch.old.is_framed ≡ false }
    requires key_fits { AllByRecursion Fits key.now }
    requires value_fits { AllByRecursion Fits value.now }
    ensures { OnOk result (Added batch.old batch.new (row tag key.now value.now ∷ [])) }
{
    let key = key_of(alloc, tag, key)?;
    let value = bytes_of(alloc, value)?;
    if !has_room(batch) || key.len() > 65_535 || value.len() > 4_294_967_295 {
        return Err(AllocError);
    }
    batch.put(&key, &value)
}

/// Adds the deletion of a row.
pub fn delete_row(
    alloc: Global,
    batch: &mut Batch,
    tag: u8,
    key: &[Field],
) -> Result<(), AllocError>
    requires open { batch.old.is_framed ≡ false }
    requires fits { AllByRecursion Fits key.now }
    ensures { OnOk result (Taken batch.old batch.new (λ q. is_key q (key_bytes (key_of tag key.now)))) }
{
    let key = key_of(alloc, tag, key)?;
    if !has_room(batch) || key.len() > 65_535 {
        return Err(AllocError);
    }
    batch.delete(&key)
}

/// Adds the deletions of all rows with one of the tags and an id.
pub fn delete_inside(
    alloc: Global,
    batch: &mut Batch,
    tags: &[u8],
    id: u32,
) -> Result<(), AllocError>
    requires open { batch.old.is_framed ≡ false }
    ensures { OnOk result (Taken batch.old batch.new (λ q. list_any (λ tag. is_of tag id q) tags.now)) }
{
    'each: for tag in tags {
        delete_under(alloc, batch, *tag, id)?;
    }
    Ok(())
}

fn delete_under(alloc: Global, batch: &mut Batch, tag: u8, id: u32) -> Result<(), AllocError>
    requires open { batch.old.is_framed ≡ false }
    ensures { OnOk result (Taken batch.old batch.new (is_of tag id)) }
{
    let prefix = key_of(alloc, tag, &[Field::Long(id)])?;
    if !has_room(batch) || prefix.len() > 65_535 {
        return Err(AllocError);
    }
    batch.delete_prefix(&prefix)
}

/// Whether the batch has room for one operation more.
fn has_room(batch: &Batch) -> bool
    ensures { result ≡ true → length batch.now.operations + 1 < 2 ^ 32 }
{
    batch.operations().len() < 4_294_967_295
}

fn key_of(alloc: Global, tag: u8, fields: &[Field]) -> Result<Vec<u8>, AllocError>
    requires { AllByRecursion Fits fields.now }
    ensures { IfOk result (λ key. key.items ≡ key_bytes (key_of tag fields.now)) }
{
    let mut key = Vec::new(alloc);
    key.push(tag)?;
    push_fields(&mut key, fields)?;
    Ok(key)
}
