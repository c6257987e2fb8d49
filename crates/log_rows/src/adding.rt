// What is done to a record in a batch.
ghost use Rattle.std.specs.Prelude.{◌≡◌, ◌+◌, ◌<◌, ◌^◌, ◌++◌, [], ◌∷◌, length, true, false, IfOk, OnOk, OnErr};
ghost use Rattle.ddl_log.specs.Records.{IsRecord};
ghost use Rattle.log_rows.specs.Logs.{record_key, put_row, delete_row};

use ddl_log::{LogRecord, encode};
use row_batch::Batch;
use std::alloc::{AllocError, Global};

/// Adds the put of a record. Where the batch has no room for it, there is no memory; then it stays as it is.
pub fn put_record(alloc: Global, batch: &mut Batch, item: &LogRecord) -> Result<(), AllocError>
    requires record { IsRecord item.now }
    requires open { batch.old.is_framed ≡ false }
    ensures ok { OnOk result (batch.new ≡ record { operations = batch.old.operations ++ put_row item.now ∷ []; is_framed = false }) }
    ensures err { OnErr result (batch.new ≡ batch.old) }
{
    let key = key_of(alloc, item.id)?;
    let value = encode(alloc, item)?;
    if !has_room(batch) || key.len() > 65_535 || value.len() > 4_294_967_295 {
        return Err(AllocError);
    }
    batch.put(&key, value.as_slice())
}

/// Adds the deletion of a record. Where the batch has no room for it, there is no memory; then it stays as it is.
pub fn drop_record(alloc: Global, batch: &mut Batch, item: &LogRecord) -> Result<(), AllocError>
    requires open { batch.old.is_framed ≡ false }
    ensures ok { OnOk result (batch.new ≡ record { operations = batch.old.operations ++ delete_row item.now ∷ []; is_framed = false }) }
    ensures err { OnErr result (batch.new ≡ batch.old) }
{
    let key = key_of(alloc, item.id)?;
    if !has_room(batch) || key.len() > 65_535 {
        return Err(AllocError);
    }
    batch.delete(&key)
}

#[tactic(auto, unfolding(crate::specs::Logs::record_key))]
fn key_of(alloc: Global, id: u64) -> Result<Vec<u8>, AllocError>
    ensures { IfOk result (λ key. key.items ≡ record_key id) }
{
    let mut key = Vec::new(alloc);
    key.push(9)?;
    key.extend_from_slice(&id.to_be_bytes())?;
    Ok(key)
}

/// Whether the batch has room for one operation more.
fn has_room(batch: &Batch) -> bool
    ensures { result ≡ true → length batch.now.operations + 1 < 2 ^ 32 }
{
    batch.operations().len() < 4_294_967_295
}
