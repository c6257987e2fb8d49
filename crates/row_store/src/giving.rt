// The next rows of a scan.
ghost use Rattle.std.specs.Prelude.{◌≡◌, ◌<◌, length, IsTrue, MatchResult};
ghost use Rattle.row_store.specs.Entries.{rows_of, in_key_order};
ghost use Rattle.row_store.specs.Place.{rows_left};
ghost use Rattle.row_store.specs.Answer.{IsScanned, IsMemory};

use crate::outcome::RowFault;
use crate::scanning::{Scan, Scanned, key_of_last, piece_of};
use row_batch::Bytes;
use std::alloc::Global;

/// Gives a scan the first rows that are left to it, and moves it behind them.
pub fn next_rows(
    alloc: Global,
    rows: &[(Bytes, Bytes)],
    scan: &mut Scan,
) -> Result<Scanned, RowFault>
    requires { IsTrue (in_key_order rows.now) }
    ensures { MatchResult result (λ scanned. IsScanned scanned scan.old scan.new (rows_of rows.now)) (λ fault. IsMemory fault × (scan.new ≡ scan.old) × (0 < length (rows_left scan.old (rows_of rows.now)))) }
{
    let Ok(piece) = piece_of(alloc, rows, scan) else {
        return Err(RowFault::Memory);
    };
    match key_of_last(alloc, &piece) {
        Ok(Some(key)) => {
            scan.move_to(key);
            Ok(Scanned::Rows(piece))
        }
        Ok(None) => Ok(Scanned::End),
        Err(_) => Err(RowFault::Memory),
    }
}
