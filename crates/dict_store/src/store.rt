ghost use Rattle.std.specs.Prelude.{◌≡◌, ◌<◌, ◌≤◌, ◌+◌, ◌-◌, ◌^◌, true, length, MatchResult, OkIff, ℕ, List, [], ◌∷◌, Some, None, Option, Err, OnOk, IfErr};
ghost use Rattle.disk_trait.specs.Story.{WhereTold, Images};
ghost use Rattle.disk_trait.specs.Carried.{Leaves};
ghost use Rattle.row_journal.specs.Append.{HasGate};
ghost use Rattle.row_batch.specs.Rows.{applied};
ghost use Rattle.row_store.specs.Answer.{IsGot, IsKept as HasKey, IsMemory, IsScanned};
ghost use Rattle.row_store.specs.Place.{rows_left};
ghost use Rattle.ddl_log.specs.declared.records.LogRecord.{LogRecord as Item};
ghost use Rattle.ddl_log.specs.Records.{IsRecord};
ghost use Rattle.log_rows.specs.Logs.{put_row, delete_row};
ghost use Rattle.dict_store_laws.specs.System.{system_path};
ghost use Rattle.dict_store_laws.specs.Recovers.{Holds, HoldsEither};
ghost use Rattle.dict_store_laws.specs.Kept.{File, Work, IsKept};
ghost use Rattle.dict_store_laws.specs.Steps.{IsWith, MayCommit, MayMake, MayPrepare, MayRemove, MayReplay, with_made, with_records};
ghost use Rattle.dict_store.specs.Answers.{HasCause, IsFault, IsPlain, IsRefused, halted_by, rows_behind};
ghost use Rattle.dict_store.specs.Ready.{is_ready};

use crate::batches::{batch_with, batch_without};
use crate::paths::{is_system, names_system};
use crate::{NoSpaceId, StoreFault};
use data_dir::{DirFault, make};
use ddl_log::LogRecord;
use disk_trait::Disk;
use post_ddl::replay;
use row_batch::Batch;
use row_store::{Committed, Got, RowFault, RowStore, Scan, Scanned, Search};
use std::alloc::Global;

/// A dictionary on a disk, which it owns: its rows, with the log of file operations among them, and the files.
///
/// What its calls say of content holds where the store is kept with the work that sessions have under way (`IsKept`). Then
/// each crash leaves the rows of before a call or, inside a commit, of before or after it, and files that fit these rows.
/// After a fault of a commit, or of a record's operation, the store keeps its number and makes no further call of the disk.
#[derive(Drop)]
pub struct Store<D: Disk> {
    disk: D,
    rows: RowStore,
    // The next number for an id or a tablespace.
    next: u32,
    // The number of the fault after which nothing more is done.
    halted: Option<u64>,
    ghost ready: { is_ready halted (D.story disk) rows.journal ≡ true },
    ghost place: { rows.journal.path ≡ system_path },
}

impl<D: Disk> Store<D> {
    /// The store of rows that were opened or made on the disk, with its next number. It makes no call of the disk.
    pub fn of(disk: D, rows: RowStore, next: u32) -> Store<D>
        requires place { rows.journal.path ≡ system_path }
        requires fresh { rows.journal.fault ≡ None }
        requires room { WhereTold (D.story disk) (HasGate rows.journal.path rows.journal.end) }
        ensures disk { result.disk ≡ disk }
        ensures rows { result.rows ≡ rows }
        ensures next { result.next ≡ next }
        ensures halted { result.halted ≡ None }
    {
        Store {
            disk,
            rows,
            next,
            halted: None,
        }
    }

    /// The disk, given back.
    pub fn into_disk(self) -> D
        ensures { result ≡ self.disk }
    {
        self.disk
    }

    /// The disk, to ask it for its moment and its faults.
    pub fn disk(&self) -> &D
        ensures { result.now ≡ self.now.disk }
    {
        &self.disk
    }

    /// The number of the fault after which the store does nothing more; None while it goes on.
    pub fn halted(&self) -> Option<u64>
        ensures { result ≡ self.now.halted }
    {
        self.halted
    }

    /// The next number.
    pub fn next(&self) -> u32
        ensures { result ≡ self.now.next }
    {
        self.next
    }

    /// Draws the next number, behind which the next one is greater by one. There is none to draw where it is
    /// 4,294,967,295.
    pub fn draw(&mut self) -> Result<u32, NoSpaceId>
        ensures drawn { OkIff result (self.old.next < 2 ^ 32 - 1) self.old.next }
        ensures goes_on { OnOk result (self.new.next ≡ self.old.next + 1) }
        ensures stays { IfErr result (λ refused. (refused.next ≡ self.old.next) × (self.new.next ≡ self.old.next)) }
        ensures same { (self.new.disk ≡ self.old.disk) × (self.new.rows ≡ self.old.rows) × (self.new.halted ≡ self.old.halted) }
    {
        if self.next == u32::MAX {
            return Err(NoSpaceId { next: self.next });
        }
        let number = self.next;
        self.next += 1;
        Ok(number)
    }

    /// The value under the key of a search, as `RowStore::get` gives it.
    pub fn get(&mut self, search: &mut Search) -> Result<Got, RowFault>
        ensures got { MatchResult result (λ got. IsGot got search.old self.old.rows.rows) (λ fault. IsMemory fault × HasKey search.old self.old.rows.rows) }
        ensures same { (self.new.disk ≡ self.old.disk) × (self.new.rows ≡ self.old.rows) × (self.new.next ≡ self.old.next) × (self.new.halted ≡ self.old.halted) × (search.new ≡ search.old) }
    {
        self.rows.get(&mut self.disk, search)
    }

    /// The next rows of a scan, as `RowStore::scan` gives them.
    pub fn scan(&mut self, scan: &mut Scan) -> Result<Scanned, RowFault>
        ensures scanned { MatchResult result (λ scanned. IsScanned scanned scan.old scan.new self.old.rows.rows) (λ fault. IsMemory fault × (scan.new ≡ scan.old) × (0 < length (rows_left scan.old self.old.rows.rows))) }
        ensures same { (self.new.disk ≡ self.old.disk) × (self.new.rows ≡ self.old.rows) × (self.new.next ≡ self.old.next) × (self.new.halted ≡ self.old.halted) }
    {
        self.rows.scan(&mut self.disk, scan)
    }

    /// Commits a batch of rows and records. A crash in the call leaves the rows of before or those with the batch, and files
    /// that fit these.
    pub fn commit(&mut self, batch: &Batch) -> Result<(), StoreFault>
        requires framed { batch.now.is_framed ≡ true }
        ensures any_moment { (work next : Work) → IsKept (D.story self.old.disk) self.old.rows work → MayCommit (D.story self.old.disk) self.old.rows.rows batch.now.operations next
            → Leaves (D.moment_of self.old.disk) (D.moment_of self.new.disk) (D.story self.old.disk) (D.story self.new.disk) (HoldsEither self.old.rows.rows work.wanted (applied batch.now.operations self.old.rows.rows) next.wanted) }
        // Once it is done each crash leaves the new rows, and after a fault none does.
        ensures kept { OnOk result ((work next : Work) → IsKept (D.story self.old.disk) self.old.rows work → MayCommit (D.story self.old.disk) self.old.rows.rows batch.now.operations next → IsKept (D.story self.new.disk) self.new.rows next) }
        ensures fault { IsFault result → (work : Work) → IsKept (D.story self.old.disk) self.old.rows work
            → Leaves (D.moment_of self.old.disk) (D.moment_of self.new.disk) (D.story self.old.disk) (D.story self.new.disk) (Holds self.old.rows.rows work.wanted) }
        ensures rows { self.new.rows.rows ≡ rows_behind result batch.now.operations self.old.rows.rows }
        ensures next { self.new.next ≡ self.old.next }
        ensures refused { IsRefused result → (self.new.disk ≡ self.old.disk) × (self.new.rows ≡ self.old.rows) }
        ensures first { (count : ℕ) → self.old.halted ≡ Some count → result ≡ Err (StoreFault.Halted count) }
        ensures halted { self.new.halted ≡ halted_by result self.old.halted }
        ensures onward { D.moment_of self.old.disk ≤ D.moment_of self.new.disk }
        ensures calls { D.moment_of self.new.disk ≤ D.moment_of self.old.disk + 4 }
        ensures later { D.faults_of self.old.disk ≤ D.faults_of self.new.disk }
        ensures cause { IfErr result (λ fault. HasCause fault self.old.halted (D.faults_of self.old.disk) (D.faults_of self.new.disk)) }
    {
        if let Some(count) = self.halted {
            return Err(StoreFault::Halted { count });
        }
        match self.rows.commit(&mut self.disk, batch) {
            Committed::Done => Ok(()),
            Committed::Memory => Err(StoreFault::Memory),
            Committed::Fault { count } => {
                self.halted = Some(count);
                Err(StoreFault::Fault { count })
            }
            Committed::Unsure { count } => {
                self.halted = Some(count);
                Err(StoreFault::Unsure { count })
            }
        }
    }

    /// Commits the record of a creation, whose file may be made once this is done. Whatever it answers, the same files are
    /// wanted.
    pub fn prepare(&mut self, alloc: Global, item: &LogRecord) -> Result<(), StoreFault>
        requires record { IsRecord item.now }
        ensures any_moment { (work : Work) (items : List Item) → IsKept (D.story self.old.disk) self.old.rows work → MayPrepare item.now work items
            → Leaves (D.moment_of self.old.disk) (D.moment_of self.new.disk) (D.story self.old.disk) (D.story self.new.disk) (HoldsEither self.old.rows.rows work.wanted (applied (put_row item.now ∷ []) self.old.rows.rows) work.wanted) }
        ensures kept { OnOk result ((work : Work) (items : List Item) → IsKept (D.story self.old.disk) self.old.rows work → MayPrepare item.now work items
            → IsKept (D.story self.new.disk) self.new.rows (with_records work items work.finished)) }
        ensures fault { IsFault result → (work : Work) → IsKept (D.story self.old.disk) self.old.rows work
            → Leaves (D.moment_of self.old.disk) (D.moment_of self.new.disk) (D.story self.old.disk) (D.story self.new.disk) (Holds self.old.rows.rows work.wanted) }
        ensures rows { self.new.rows.rows ≡ rows_behind result (put_row item.now ∷ []) self.old.rows.rows }
        ensures next { self.new.next ≡ self.old.next }
        ensures refused { IsRefused result → (self.new.disk ≡ self.old.disk) × (self.new.rows ≡ self.old.rows) }
        ensures first { (count : ℕ) → self.old.halted ≡ Some count → result ≡ Err (StoreFault.Halted count) }
        ensures halted { self.new.halted ≡ halted_by result self.old.halted }
        ensures onward { D.moment_of self.old.disk ≤ D.moment_of self.new.disk }
        ensures calls { D.moment_of self.new.disk ≤ D.moment_of self.old.disk + 4 }
        ensures later { D.faults_of self.old.disk ≤ D.faults_of self.new.disk }
        ensures cause { IfErr result (λ fault. HasCause fault self.old.halted (D.faults_of self.old.disk) (D.faults_of self.new.disk)) }
    {
        if let Some(count) = self.halted {
            return Err(StoreFault::Halted { count });
        }
        match batch_with(alloc, item) {
            Ok(batch) => self.commit(&batch),
            Err(_) => Err(StoreFault::Memory),
        }
    }

    /// Makes a file that a record deletes, with these bytes, and syncs it. After a failure it may be there in part, and the
    /// store goes on. With a system file it does nothing.
    pub fn perform(&mut self, path: &str, bytes: &[u8]) -> Result<(), StoreFault>
        ensures any_moment { (work : Work) → IsKept (D.story self.old.disk) self.old.rows work → MayMake path.now work
            → Leaves (D.moment_of self.old.disk) (D.moment_of self.new.disk) (D.story self.old.disk) (D.story self.new.disk) (Holds self.old.rows.rows work.wanted) }
        ensures stays { (work : Work) → IsKept (D.story self.old.disk) self.old.rows work → MayMake path.now work → IsKept (D.story self.new.disk) self.new.rows work }
        // Once it is done each crash leaves the file.
        ensures kept { OnOk result ((work : Work) (made : List File) → IsKept (D.story self.old.disk) self.old.rows work → MayMake path.now work → IsWith (path.now, bytes.now) work.made made
            → IsKept (D.story self.new.disk) self.new.rows (with_made work made)) }
        ensures same { (self.new.rows ≡ self.old.rows) × (self.new.next ≡ self.old.next) × (self.new.halted ≡ self.old.halted) }
        ensures first { (count : ℕ) → self.old.halted ≡ Some count → result ≡ Err (StoreFault.Halted count) }
        ensures plain { IfErr result IsPlain }
        ensures refused { IsRefused result → self.new.disk ≡ self.old.disk }
        ensures onward { D.moment_of self.old.disk ≤ D.moment_of self.new.disk }
        ensures calls { D.moment_of self.new.disk ≤ D.moment_of self.old.disk + 4 }
        ensures later { D.faults_of self.old.disk ≤ D.faults_of self.new.disk }
        ensures cause { IfErr result (λ fault. HasCause fault self.old.halted (D.faults_of self.old.disk) (D.faults_of self.new.disk)) }
    {
        if let Some(count) = self.halted {
            return Err(StoreFault::Halted { count });
        }
        if is_system(path) {
            return Ok(());
        }
        match make(&mut self.disk, path, bytes) {
            Ok(()) => Ok(()),
            Err(DirFault::Fault { count }) => Err(StoreFault::Fault { count }),
        }
    }

    /// Does the operation of a record, which may have been begun before; `bytes` are what a file that is written anew gets.
    /// With a system file it does nothing.
    pub fn replay(&mut self, item: &LogRecord, bytes: &[u8]) -> Result<(), StoreFault>
        ensures any_moment { (work : Work) → IsKept (D.story self.old.disk) self.old.rows work → MayReplay item.now bytes.now work
            → Leaves (D.moment_of self.old.disk) (D.moment_of self.new.disk) (D.story self.old.disk) (D.story self.new.disk) (Holds self.old.rows.rows work.wanted) }
        ensures kept { OnOk result ((work : Work) (finished : List Item) → IsKept (D.story self.old.disk) self.old.rows work → MayReplay item.now bytes.now work → IsWith item.now work.finished finished
            → IsKept (D.story self.new.disk) self.new.rows (with_records work work.items finished)) }
        ensures same { (self.new.rows ≡ self.old.rows) × (self.new.next ≡ self.old.next) }
        ensures first { (count : ℕ) → self.old.halted ≡ Some count → result ≡ Err (StoreFault.Halted count) }
        ensures plain { IfErr result IsPlain }
        ensures refused { IsRefused result → self.new.disk ≡ self.old.disk }
        ensures halted { self.new.halted ≡ halted_by result self.old.halted }
        ensures onward { D.moment_of self.old.disk ≤ D.moment_of self.new.disk }
        ensures calls { D.moment_of self.new.disk ≤ D.moment_of self.old.disk + 4 }
        ensures later { D.faults_of self.old.disk ≤ D.faults_of self.new.disk }
        ensures cause { IfErr result (λ fault. HasCause fault self.old.halted (D.faults_of self.old.disk) (D.faults_of self.new.disk)) }
    {
        if let Some(count) = self.halted {
            return Err(StoreFault::Halted { count });
        }
        if names_system(item) {
            return Ok(());
        }
        match replay(&mut self.disk, item, bytes) {
            Ok(()) => Ok(()),
            Err(DirFault::Fault { count }) => {
                self.halted = Some(count);
                Err(StoreFault::Fault { count })
            }
        }
    }

    /// Commits the removal of a record whose operation is done. Whatever it answers, the same files are wanted.
    pub fn remove_record(&mut self, alloc: Global, item: &LogRecord) -> Result<(), StoreFault>
        ensures any_moment { (work : Work) (items finished : List Item) → IsKept (D.story self.old.disk) self.old.rows work → MayRemove item.now work items finished
            → Leaves (D.moment_of self.old.disk) (D.moment_of self.new.disk) (D.story self.old.disk) (D.story self.new.disk) (HoldsEither self.old.rows.rows work.wanted (applied (delete_row item.now ∷ []) self.old.rows.rows) work.wanted) }
        ensures kept { OnOk result ((work : Work) (items finished : List Item) → IsKept (D.story self.old.disk) self.old.rows work → MayRemove item.now work items finished
            → IsKept (D.story self.new.disk) self.new.rows (with_records work items finished)) }
        ensures fault { IsFault result → (work : Work) → IsKept (D.story self.old.disk) self.old.rows work
            → Leaves (D.moment_of self.old.disk) (D.moment_of self.new.disk) (D.story self.old.disk) (D.story self.new.disk) (Holds self.old.rows.rows work.wanted) }
        ensures rows { self.new.rows.rows ≡ rows_behind result (delete_row item.now ∷ []) self.old.rows.rows }
        ensures next { self.new.next ≡ self.old.next }
        ensures refused { IsRefused result → (self.new.disk ≡ self.old.disk) × (self.new.rows ≡ self.old.rows) }
        ensures first { (count : ℕ) → self.old.halted ≡ Some count → result ≡ Err (StoreFault.Halted count) }
        ensures halted { self.new.halted ≡ halted_by result self.old.halted }
        ensures onward { D.moment_of self.old.disk ≤ D.moment_of self.new.disk }
        ensures calls { D.moment_of self.new.disk ≤ D.moment_of self.old.disk + 4 }
        ensures later { D.faults_of self.old.disk ≤ D.faults_of self.new.disk }
        ensures cause { IfErr result (λ fault. HasCause fault self.old.halted (D.faults_of self.old.disk) (D.faults_of self.new.disk)) }
    {
        if let Some(count) = self.halted {
            return Err(StoreFault::Halted { count });
        }
        match batch_without(alloc, item) {
            Ok(batch) => self.commit(&batch),
            Err(_) => Err(StoreFault::Memory),
        }
    }
}
