// The batches of one record.
ghost use Rattle.std.specs.Prelude.{◌≡◌, [], ◌∷◌, true, IfOk};
ghost use Rattle.ddl_log.specs.Records.{IsRecord};
ghost use Rattle.log_rows.specs.Logs.{put_row, delete_row};

use ddl_log::LogRecord;
use log_rows::{drop_record, put_record};
use row_batch::Batch;
use std::alloc::{AllocError, Global};

/// The batch that puts the record.
pub fn batch_with(alloc: Global, item: &LogRecord) -> Result<Batch, AllocError>
    requires { IsRecord item.now }
    ensures { IfOk result (λ batch. batch ≡ record { operations = put_row item.now ∷ []; is_framed = true }) }
{
    let mut batch = Batch::new(alloc);
    put_record(alloc, &mut batch, item)?;
    batch.frame()?;
    Ok(batch)
}

/// The batch that takes the record away.
pub fn batch_without(alloc: Global, item: &LogRecord) -> Result<Batch, AllocError>
    ensures { IfOk result (λ batch. batch ≡ record { operations = delete_row item.now ∷ []; is_framed = true }) }
{
    let mut batch = Batch::new(alloc);
    drop_record(alloc, &mut batch, item)?;
    batch.frame()?;
    Ok(batch)
}
