ghost use Rattle.std.specs.Prelude.{◌≡◌, ◌<◌, ◌≤◌, ◌+◌, ◌^◌, List, [], ◌∷◌, ◌++◌, ℕ, length, true, None, IfOk, IfErr, MatchResult};
ghost use Rattle.disk_trait.specs.Change.{Directory};
ghost use Rattle.disk_trait.specs.Story.{WhereTold, Images};
ghost use Rattle.disk_trait.specs.Carried.{Comes, Carries, Turns, Off, IsSettled};
ghost use Rattle.row_batch.specs.declared.operation.Operation.{Operation};
ghost use Rattle.row_batch.specs.Batches.{frame};
ghost use Rattle.row_batch.specs.Rows.{Rows, applied, no_rows};
ghost use Rattle.row_journal.specs.Value.{Stands, StandsSome};
ghost use Rattle.row_journal.specs.Append.{HasGate, Keeps, MayAppend, IsDone, IsFault, ReadsAs, Calls, HasCause, journal_after};
ghost use Rattle.row_store.specs.Header.{IsNewer, empty_file};
ghost use Rattle.row_store.specs.Making.{IsMade, HasFaultCount};
ghost use Rattle.row_store.specs.Value.{rows_after, IsRowsFile};
ghost use Rattle.row_store.specs.Place.{rows_left};
ghost use Rattle.row_store.specs.Answer.{IsGot, IsKept, IsScanned, IsMemory};
ghost use Rattle.row_store.specs.Outcome.{Through, WithoutMemory, rows_committed};
ghost use Rattle.row_store.specs.OnDisk.{HasRows, KeepsRows, MayHaveRows, ReadsRows, IsOnDisk};
ghost use Rattle.row_store.specs.Opening.{Opens, IsOutside, IsVersionOrOutside, IsRefusalOf, HasCount};

use crate::merging::apply_where;
use crate::outcome::{Committed, RowFault, RowsRefused, is_done};
use crate::preparing::prepare;
use crate::scanning::{Scan, Scanned};
use crate::searching::{Got, Search};
use crate::{entries, giving, header, making, opening};
use disk_trait::{Disk, PathText};
use row_batch::{Batch, Bytes};
use row_journal::{Appended, Journal};
use std::alloc::Global;
use std::marker::Model;

/// The place of a system file's first gate, behind its header.
const FIRST_GATE: u64 = 64;

/// Rows under keys, in key order, and the journal of the batches that made them from no rows. Contracts see the journal and
/// the rows as a map.
#[derive(Drop)]
pub struct RowStore {
    journal: Journal,
    rows: Vec<(Bytes, Bytes)>,
}

impl Model for RowStore {
    ghost use Rattle.std.specs.Prelude.{IsTrue};
    ghost use Rattle.std.specs.Coded.{Coded};
    ghost use Rattle.row_store.specs.Value.{StoreValue};
    ghost use Rattle.row_store.specs.Coding.{coded_store};
    ghost use Rattle.row_store.specs.Entries.{rows_of, in_key_order};

    ghost Value = { StoreValue };

    ghost coded = { coded_store };

    ghost view = { λ s. record { journal = s.journal; rows = rows_of s.rows.items } };

    ghost invariant = { λ s. IsTrue (in_key_order s.rows.items) };
}

impl RowStore {
    /// Opens the system file of a path, and makes the rows of the batches in its journal.
    pub fn open_rows<D: Disk>(
        alloc: Global,
        disk: &mut D,
        path: &str,
    ) -> Result<RowStore, RowsRefused>
        ensures same { D.story disk.new ≡ D.story disk.old }
        ensures journal { IfOk result (λ store. (store.journal.path ≡ path.now) × (store.journal.at ≡ 64) × (store.journal.fault ≡ None)) }
        // What is opened is a system file, of whose batches these are the rows.
        ensures found { IfOk result (λ store. WhereTold (D.story disk.old) (Opens store.journal store.rows)) }
        // A system file opens with just the rows of its batches, and one of a later version with none.
        ensures only { WhereTold (D.story disk.old) (λ d. (batches : List (List Operation)) → IsRowsFile batches (d path.now)
            → MatchResult result (λ store. store.rows ≡ rows_after batches no_rows) (λ refused. IsOutside refused)) }
        ensures newer { WhereTold (D.story disk.old) (λ d. (number : ℕ) → IsNewer number (d path.now)
            → MatchResult result (λ _. ⊥) (λ refused. IsVersionOrOutside number refused)) }
        ensures stands { IfOk result (λ store. WhereTold (D.story disk.new) (StandsSome store.journal)) }
        ensures room { IfOk result (λ store. WhereTold (D.story disk.new) (HasGate store.journal.path store.journal.end)) }
        ensures refused { IfErr result (λ refused. WhereTold (D.story disk.old) (λ d. IsRefusalOf (d path.now) refused)) }
        // In words of rows: a system file opens with its rows alone, and where each crash leaves the file as it reads, the store
        // is on the disk.
        ensures only_rows { WhereTold (D.story disk.old) (λ d. (rows : Rows) → HasRows rows (d path.now) → MatchResult result (λ store. store.rows ≡ rows) (λ refused. IsOutside refused)) }
        ensures on_disk { IfOk result (λ store. IsSettled path.now (D.story disk.old) → IsOnDisk (D.story disk.new) store) }
        ensures onward { D.moment_of disk.old ≤ D.moment_of disk.new }
        ensures calls { D.moment_of disk.new ≤ D.moment_of disk.old + 3 }
        ensures later { D.faults_of disk.old ≤ D.faults_of disk.new }
        ensures count { IfErr result (λ refused. HasCount refused (D.faults_of disk.old) (D.faults_of disk.new)) }
    {
        match header::check(disk, path) {
            Ok(()) => match opening::read(alloc, disk, path) {
                Ok(contents) => Ok(RowStore {
                    journal: contents.journal,
                    rows: contents.rows,
                }),
                Err(refused) => Err(refused),
            },
            Err(refusal) => Err(refusal),
        }
    }

    /// Makes a system file without rows on a path that is free, and syncs it. Memory is taken before the file is touched.
    /// After a fault there may be a file at the path that isn't a system file.
    pub fn make_rows<D: Disk>(alloc: Global, disk: &mut D, path: &str) -> Result<RowStore, RowFault>
        requires free { WhereTold (D.story disk.old) (λ d. d path.now ≡ None) }
        ensures journal { IfOk result (λ store. store.journal ≡ record { path = path.now; at = 64; end = 64; fault = None }) }
        ensures rows { IfOk result (λ store. store.rows ≡ no_rows) }
        // The file is one without batches, which each crash leaves as it reads, and nothing else changed.
        ensures reads { IfOk result (λ _. Turns (D.story disk.old) (D.story disk.new) (IsMade path.now empty_file)) }
        ensures file { IfOk result (λ _. WhereTold (D.story disk.new) (λ d. IsRowsFile [] (d path.now))) }
        ensures stands { IfOk result (λ store. WhereTold (D.story disk.new) (Stands store.journal [])) }
        ensures room { IfOk result (λ store. WhereTold (D.story disk.new) (HasGate store.journal.path store.journal.end)) }
        ensures settled { IfOk result (λ _. IsSettled path.now (D.story disk.new)) }
        ensures on_disk { IfOk result (λ store. IsOnDisk (D.story disk.new) store) }
        // Whatever it answers, no other file changed, neither as it reads nor as a crash leaves it.
        ensures off { Turns (D.story disk.old) (D.story disk.new) (Off path.now) }
        ensures carries { Carries (Off path.now) (D.moment_of disk.old) (D.moment_of disk.new) (D.story disk.old) (D.story disk.new) }
        ensures memory { IfErr result (λ fault. IsMemory fault → disk.new ≡ disk.old) }
        ensures onward { D.moment_of disk.old ≤ D.moment_of disk.new }
        ensures calls { D.moment_of disk.new ≤ D.moment_of disk.old + 3 }
        ensures later { D.faults_of disk.old ≤ D.faults_of disk.new }
        ensures count { IfErr result (λ fault. HasFaultCount fault (D.faults_of disk.old) (D.faults_of disk.new)) }
    {
        let Ok(text) = PathText::of(alloc, path) else {
            return Err(RowFault::Memory);
        };
        match making::make_empty(disk, path) {
            Ok(()) => Ok(RowStore {
                journal: Journal::of(text, FIRST_GATE, FIRST_GATE),
                rows: Vec::new(alloc),
            }),
            Err(_) => Err(RowFault::Fault {
                count: disk.faults(),
            }),
        }
    }

    /// Adds a framed batch to the journal, and then to the rows. Memory is taken before the file is touched.
    pub fn commit<D: Disk>(&mut self, disk: &mut D, batch: &Batch) -> Committed
        requires framed { batch.now.is_framed ≡ true }
        requires fresh { self.old.journal.fault ≡ None }
        requires room { WhereTold (D.story disk.old) (HasGate self.old.journal.path self.old.journal.end) }

        // The rows have the batch where it is done, so they stay those that the journal's batches make.
        ensures rows { self.new.rows ≡ rows_committed result batch.now.operations self.old.rows }
        ensures made { Through result (λ appended. IsDone appended → (batches : List (List Operation)) → self.old.rows ≡ rows_after batches no_rows → self.new.rows ≡ rows_after (batches ++ batch.now.operations ∷ []) no_rows) }
        ensures journal { Through result (λ appended. self.new.journal ≡ journal_after appended (length (frame batch.now.operations)) self.old.journal) }
        ensures memory { WithoutMemory result ((self.new ≡ self.old) × (disk.new ≡ disk.old)) }

        // What the disk reads then, and that a crash leaves it so once it is done.
        ensures stands { Through result (λ appended. IsDone appended → (batches : List (List Operation))
            → WhereTold (D.story disk.old) (Stands self.old.journal batches) → WhereTold (D.story disk.new) (Stands self.new.journal (batches ++ batch.now.operations ∷ []))) }
        ensures room { Through result (λ appended. IsDone appended → WhereTold (D.story disk.new) (HasGate self.new.journal.path self.new.journal.end)) }
        ensures settled { Through result (λ appended. IsDone appended → IsSettled self.old.journal.path (D.story disk.new)) }
        ensures reads { Through result (λ appended. (batches : List (List Operation)) → WhereTold (D.story disk.old) (Stands self.old.journal batches)
            → Turns (D.story disk.old) (D.story disk.new) (ReadsAs appended self.old.journal.path self.old.journal.at batches batch.now.operations)) }

        // Where each crash left the file as it read, a crash in the call and from then on leaves the batches with the new one
        // or without. Once it is done each crash leaves the new one, and after a fault none does.
        ensures any_moment { Through result (λ appended. (batches : List (List Operation)) → WhereTold (D.story disk.old) (Stands self.old.journal batches) → IsSettled self.old.journal.path (D.story disk.old)
            → Carries (MayAppend self.old.journal.path self.old.journal.at batches batch.now.operations) (D.moment_of disk.old) (D.moment_of disk.new) (D.story disk.old) (D.story disk.new)) }
        ensures done { Through result (λ appended. IsDone appended → (batches : List (List Operation)) → WhereTold (D.story disk.old) (Stands self.old.journal batches) → IsSettled self.old.journal.path (D.story disk.old)
            → (image : Directory) → Images (D.story disk.new) image → Comes (Keeps self.old.journal.path self.old.journal.at (batches ++ batch.now.operations ∷ [])) (D.story disk.old) image) }
        ensures fault { Through result (λ appended. IsFault appended → (batches : List (List Operation)) → WhereTold (D.story disk.old) (Stands self.old.journal batches) → IsSettled self.old.journal.path (D.story disk.old)
            → Carries (Keeps self.old.journal.path self.old.journal.at batches) (D.moment_of disk.old) (D.moment_of disk.new) (D.story disk.old) (D.story disk.new)) }

        // In words of rows: where the store is on the disk, a crash in the call and from then on leaves the rows of before or those
        // with the batch; after a fault, those of before. Once it is done the store is on the disk with the batch.
        ensures rows_at_each_moment { IsOnDisk (D.story disk.old) self.old
            → Carries (MayHaveRows self.old.journal.path self.old.rows (applied batch.now.operations self.old.rows)) (D.moment_of disk.old) (D.moment_of disk.new) (D.story disk.old) (D.story disk.new) }
        ensures rows_after_fault { Through result (λ appended. IsFault appended → IsOnDisk (D.story disk.old) self.old
            → Carries (KeepsRows self.old.journal.path self.old.rows) (D.moment_of disk.old) (D.moment_of disk.new) (D.story disk.old) (D.story disk.new)) }
        ensures rows_read { Through result (λ appended. IsOnDisk (D.story disk.old) self.old
            → Turns (D.story disk.old) (D.story disk.new) (ReadsRows appended self.old.journal.path self.old.rows (applied batch.now.operations self.old.rows))) }
        ensures on_disk { Through result (λ appended. IsDone appended → IsOnDisk (D.story disk.old) self.old → IsOnDisk (D.story disk.new) self.new) }

        // The moment doesn't fall, whatever it answers.
        ensures onward { D.moment_of disk.old ≤ D.moment_of disk.new }
        ensures calls { Through result (λ appended. Calls appended (D.moment_of disk.old) (D.moment_of disk.new)) }
        ensures later { D.faults_of disk.old ≤ D.faults_of disk.new }
        ensures cause { Through result (λ appended. HasCause appended (D.faults_of disk.old) (D.faults_of disk.new)) }
    {
        self.commit_batch(disk, batch)
    }

    /// The disk's count of faults at the commit that failed; None while none has. A store with such a fault takes no more
    /// batches: open the file again.
    pub fn fault(&self) -> Option<u64>
        ensures { result ≡ self.now.journal.fault }
    {
        self.journal.fault()
    }

    /// The value under the key of a search. While the rows are in memory the disk isn't called, the answer comes at once, and
    /// memory is wanted for a value alone.
    pub fn get<D: Disk>(&mut self, disk: &mut D, search: &mut Search) -> Result<Got, RowFault>
        ensures got { MatchResult result (λ got. IsGot got search.old self.old.rows) (λ fault. IsMemory fault × IsKept search.old self.old.rows) }
        ensures same { (self.new ≡ self.old) × (disk.new ≡ disk.old) × (search.new ≡ search.old) }
    {
        let alloc = *self.rows.allocator();
        let Some(value) = entries::value_of(&self.rows, search.key()) else {
            return Ok(Got::None);
        };
        match Bytes::of(alloc, value) {
            Ok(value) => Ok(Got::Value(value)),
            Err(_) => Err(RowFault::Memory),
        }
    }

    /// The next rows of a scan: the first of those under its prefix and behind the last key that it gave. While the rows are in
    /// memory the disk isn't called, some rows or the end come at once, and memory is wanted for rows alone. At a fault the scan
    /// keeps its place.
    pub fn scan<D: Disk>(&mut self, disk: &mut D, scan: &mut Scan) -> Result<Scanned, RowFault>
        ensures scanned { MatchResult result (λ scanned. IsScanned scanned scan.old scan.new self.old.rows) (λ fault. IsMemory fault × (scan.new ≡ scan.old) × (0 < length (rows_left scan.old self.old.rows))) }
        ensures same { (self.new ≡ self.old) × (disk.new ≡ disk.old) }
    {
        let alloc = *self.rows.allocator();
        giving::next_rows(alloc, &self.rows, scan)
    }

    /// A commit, in words of the journal and its batches.
    fn commit_batch<D: Disk>(&mut self, disk: &mut D, batch: &Batch) -> Committed
        requires framed { batch.now.is_framed ≡ true }
        requires fresh { self.old.journal.fault ≡ None }
        requires room { WhereTold (D.story disk.old) (HasGate self.old.journal.path self.old.journal.end) }

        // The rows have the batch where it is done, so they stay those that the journal's batches make.
        ensures rows { self.new.rows ≡ rows_committed result batch.now.operations self.old.rows }
        ensures made { Through result (λ appended. IsDone appended → (batches : List (List Operation)) → self.old.rows ≡ rows_after batches no_rows → self.new.rows ≡ rows_after (batches ++ batch.now.operations ∷ []) no_rows) }
        ensures journal { Through result (λ appended. self.new.journal ≡ journal_after appended (length (frame batch.now.operations)) self.old.journal) }
        ensures memory { WithoutMemory result ((self.new ≡ self.old) × (disk.new ≡ disk.old)) }

        // What the disk reads then, and that a crash leaves it so once it is done.
        ensures stands { Through result (λ appended. IsDone appended → (batches : List (List Operation))
            → WhereTold (D.story disk.old) (Stands self.old.journal batches) → WhereTold (D.story disk.new) (Stands self.new.journal (batches ++ batch.now.operations ∷ []))) }
        ensures room { Through result (λ appended. IsDone appended → WhereTold (D.story disk.new) (HasGate self.new.journal.path self.new.journal.end)) }
        ensures settled { Through result (λ appended. IsDone appended → IsSettled self.old.journal.path (D.story disk.new)) }
        ensures reads { Through result (λ appended. (batches : List (List Operation)) → WhereTold (D.story disk.old) (Stands self.old.journal batches)
            → Turns (D.story disk.old) (D.story disk.new) (ReadsAs appended self.old.journal.path self.old.journal.at batches batch.now.operations)) }

        // Where each crash left the file as it read, a crash in the call and from then on leaves the batches with the new one
        // or without. Once it is done each crash leaves the new one, and after a fault none does.
        ensures any_moment { Through result (λ appended. (batches : List (List Operation)) → WhereTold (D.story disk.old) (Stands self.old.journal batches) → IsSettled self.old.journal.path (D.story disk.old)
            → Carries (MayAppend self.old.journal.path self.old.journal.at batches batch.now.operations) (D.moment_of disk.old) (D.moment_of disk.new) (D.story disk.old) (D.story disk.new)) }
        ensures done { Through result (λ appended. IsDone appended → (batches : List (List Operation)) → WhereTold (D.story disk.old) (Stands self.old.journal batches) → IsSettled self.old.journal.path (D.story disk.old)
            → (image : Directory) → Images (D.story disk.new) image → Comes (Keeps self.old.journal.path self.old.journal.at (batches ++ batch.now.operations ∷ [])) (D.story disk.old) image) }
        ensures fault { Through result (λ appended. IsFault appended → (batches : List (List Operation)) → WhereTold (D.story disk.old) (Stands self.old.journal batches) → IsSettled self.old.journal.path (D.story disk.old)
            → Carries (Keeps self.old.journal.path self.old.journal.at batches) (D.moment_of disk.old) (D.moment_of disk.new) (D.story disk.old) (D.story disk.new)) }

        // The moment doesn't fall, whatever it answers.
        ensures onward { D.moment_of disk.old ≤ D.moment_of disk.new }
        ensures calls { Through result (λ appended. Calls appended (D.moment_of disk.old) (D.moment_of disk.new)) }
        ensures later { D.faults_of disk.old ≤ D.faults_of disk.new }
        ensures cause { Through result (λ appended. HasCause appended (D.faults_of disk.old) (D.faults_of disk.new)) }
    {
        let alloc = *self.rows.allocator();
        let Ok(prepared) = prepare(alloc, self.rows.len(), batch.operations()) else {
            return Committed::Memory;
        };
        let appended = self.journal.append(disk, batch.framed());
        apply_where(
            is_done(appended),
            &mut self.rows,
            prepared,
            batch.operations(),
        );
        match appended {
            Appended::Done => Committed::Done,
            Appended::Fault { count } => Committed::Fault { count },
            Appended::Unsure { count } => Committed::Unsure { count },
        }
    }
}
