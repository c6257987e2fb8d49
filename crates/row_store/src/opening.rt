// A system file is opened by reading its journal.
ghost use Rattle.std.specs.Prelude.{◌≡◌, ◌≤◌, ◌+◌, List, ℕ, IsTrue, None, IfOk, IfErr, MatchResult};
ghost use Rattle.disk_trait.specs.Story.{WhereTold};
ghost use Rattle.row_batch.specs.declared.operation.Operation.{Operation};
ghost use Rattle.row_batch.specs.Rows.{no_rows};
ghost use Rattle.row_journal.specs.Value.{Stands};
ghost use Rattle.row_store.specs.Entries.{rows_of, in_key_order};
ghost use Rattle.row_store.specs.Header.{IsHead, head_of};
ghost use Rattle.row_store.specs.Value.{rows_after, IsRowsFile};
ghost use Rattle.row_store.specs.Opening.{Opens, IsOutside, IsRefusalOf, HasCount};

use crate::outcome::RowsRefused;
use crate::reading::rows_from;
use disk_trait::Disk;
use row_batch::Bytes;
use row_journal::{Journal, JournalFault, open_journal};
use std::alloc::Global;

/// A journal that was opened, and the rows that its batches make.
#[derive(Drop)]
pub struct Contents {
    pub journal: Journal,
    pub rows: Vec<(Bytes, Bytes)>,
}

/// Reads the journal of a file that begins as it must, and makes its rows.
pub fn read<D: Disk>(alloc: Global, disk: &mut D, path: &str) -> Result<Contents, RowsRefused>
    requires { WhereTold (D.story disk.old) (λ d. IsHead (head_of (d path.now))) }
    ensures same { D.story disk.new ≡ D.story disk.old }
    ensures order { IfOk result (λ read. IsTrue (in_key_order read.rows.items)) }
    ensures journal { IfOk result (λ read. (read.journal.path ≡ path.now) × (read.journal.at ≡ 64) × (read.journal.fault ≡ None)) }
    ensures found { IfOk result (λ read. WhereTold (D.story disk.old) (Opens read.journal (rows_of read.rows.items))) }
    ensures only { WhereTold (D.story disk.old) (λ d. (batches : List (List Operation)) → IsRowsFile batches (d path.now)
        → MatchResult result (λ read. rows_of read.rows.items ≡ rows_after batches no_rows) (λ refused. IsOutside refused)) }
    ensures refused { IfErr result (λ refused. WhereTold (D.story disk.old) (λ d. IsRefusalOf (d path.now) refused)) }
    ensures onward { D.moment_of disk.old ≤ D.moment_of disk.new }
    ensures calls { D.moment_of disk.new ≤ D.moment_of disk.old + 2 }
    ensures later { D.faults_of disk.old ≤ D.faults_of disk.new }
    ensures count { IfErr result (λ refused. HasCount refused (D.faults_of disk.old) (D.faults_of disk.new)) }
{
    match open_journal(alloc, disk, path, 64) {
        Ok(opened) => match rows_from(alloc, &opened.batches) {
            Ok(rows) => Ok(Contents {
                journal: opened.journal,
                rows,
            }),
            Err(_) => Err(RowsRefused::Memory),
        },
        Err(JournalFault::Fault { count }) => Err(RowsRefused::Fault { count }),
        Err(JournalFault::Malformed { at: _ }) => Err(RowsRefused::NoForm),
        Err(JournalFault::Memory) => Err(RowsRefused::Memory),
    }
}
