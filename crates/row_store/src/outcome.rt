ghost use Rattle.std.specs.Prelude.{◌≡◌};
ghost use Rattle.row_store.specs.Outcome.{is_done};

use row_journal::Appended;

/// What a commit has come to. After `Fault` and `Unsure` the store keeps the count and takes no more batches: open the file again.
#[derive(Clone, Copy, Debug, PartialEq, Eq)]
pub enum Committed {
    /// The batch is in the file, each crash leaves it there, and the rows have it.
    Done,
    /// The disk failed before the batch could count, so no crash leaves it; with the disk's count of faults.
    Fault { count: u64 },
    /// The disk failed later, so a crash may leave the batch or not; with the disk's count of faults.
    Unsure { count: u64 },
    /// There was no memory for the rows, and nothing changed.
    Memory,
}

/// Why a file wasn't opened.
#[derive(Clone, Copy, Debug, PartialEq, Eq)]
pub enum RowsRefused {
    /// The disk failed; with its count of faults.
    Fault { count: u64 },
    /// There is no system file of a version up to this one, or one whose bytes don't have its form.
    NoForm,
    /// It is a system file of a later version.
    Version { number: u32 },
    /// There was no memory for the rows.
    Memory,
}

/// Why a call of the store has no answer.
#[derive(Clone, Copy, Debug, PartialEq, Eq)]
pub enum RowFault {
    /// The disk failed; with its count of faults.
    Fault { count: u64 },
    /// There was no memory.
    Memory,
}

/// Whether an append to the journal is done.
pub fn is_done(appended: Appended) -> bool
    ensures { result ≡ is_done appended }
{
    match appended {
        Appended::Done => true,
        Appended::Fault { .. } | Appended::Unsure { .. } => false,
    }
}
