// A journal that is open.
ghost use Rattle.std.specs.Prelude.{◌≡◌, ◌≤◌, ◌+◌, ◌^◌, ◌∷◌, [], ◌++◌, ℕ, List, length, None};
ghost use Rattle.disk_trait.specs.Change.{Directory};
ghost use Rattle.disk_trait.specs.Story.{WhereTold, Images};
ghost use Rattle.disk_trait.specs.Carried.{Comes, Carries, Turns, IsSettled};
ghost use Rattle.row_batch.specs.declared.operation.Operation.{Operation};
ghost use Rattle.row_journal.specs.Contents.{IsFrame};
ghost use Rattle.row_journal.specs.Value.{Stands};
ghost use Rattle.row_journal.specs.Append.{HasGate, Keeps, MayAppend, IsDone, IsFault, ReadsAs, Calls, HasCause, journal_after};

use crate::Appended;
use crate::at::append_at;
use disk_trait::{Disk, PathText};
use std::marker::Model;

/// The batches in a file, from a place on: a gate byte, and as long as it is 1, a length of eight bytes, that many bytes of a
/// batch, and the next gate byte. Any other gate is closed and ends them. Contracts see the path, the place of the first
/// gate, that of the closed gate, and the number of the fault that spent the journal, if one did.
#[derive(Drop)]
pub struct Journal {
    path: PathText,
    at: u64,
    end: u64,
    fault: Option<u64>,
}

impl Model for Journal {
    ghost use Rattle.row_journal.specs.Value.{JournalValue};

    ghost Value = { JournalValue };

    ghost view = { λ j. record { path = j.path; at = j.at; end = j.end; fault = j.fault } };
}

impl Journal {
    /// A journal of a file that was written, with its first gate at byte `at` and its closed gate at byte `end`. `append` asks
    /// that the disk reads the file so.
    pub fn of(path: PathText, at: u64, end: u64) -> Journal
        ensures { result ≡ record { path = path; at = at; end = end; fault = None } }
    {
        Journal {
            path,
            at,
            end,
            fault: None,
        }
    }

    /// The disk's count of faults at the append that failed; None while none has. A journal with such a fault is spent: it
    /// takes no more batches, and the file is opened again.
    pub fn fault(&self) -> Option<u64>
        ensures { result ≡ self.now.fault }
    {
        self.fault
    }

    /// Adds a framed batch: the frame is written behind the closed gate and synced, and then the gate is opened and synced.
    /// That is four calls of the disk where it is done, and fewer where one of them fails. No byte before the first gate
    /// changes. After a fault the journal is spent. It takes no memory.
    pub fn append<D: Disk>(&mut self, disk: &mut D, framed: &[u8]) -> Appended
        requires fresh { self.old.fault ≡ None }
        requires room { WhereTold (D.story disk.old) (HasGate self.old.path self.old.end) }
        requires framed { (batch : List Operation) × IsFrame batch framed.now }

        // Once it is done the disk reads the batches with the new one at their end, and each crash leaves the file as it reads.
        ensures appended { (batches : List (List Operation)) (batch : List Operation) → IsFrame batch framed.now → IsDone result
            → WhereTold (D.story disk.old) (Stands self.old batches) → WhereTold (D.story disk.new) (Stands self.new (batches ++ batch ∷ [])) }
        ensures settled { IsDone result → IsSettled self.old.path (D.story disk.new) }
        ensures room { IsDone result → WhereTold (D.story disk.new) (HasGate self.new.path self.new.end) }
        ensures reads { (batches : List (List Operation)) (batch : List Operation) → IsFrame batch framed.now
            → WhereTold (D.story disk.old) (Stands self.old batches)
            → Turns (D.story disk.old) (D.story disk.new) (ReadsAs result self.old.path self.old.at batches batch) }

        // Where each crash left the file as it read, a crash in the call and from then on leaves the batches with the new one or
        // without. Once it is done each crash leaves the new one. Where it is a fault, none at any moment did.
        ensures any_moment { (batches : List (List Operation)) (batch : List Operation) → IsFrame batch framed.now
            → WhereTold (D.story disk.old) (Stands self.old batches) → IsSettled self.old.path (D.story disk.old)
            → Carries (MayAppend self.old.path self.old.at batches batch) (D.moment_of disk.old) (D.moment_of disk.new) (D.story disk.old) (D.story disk.new) }
        ensures done { (batches : List (List Operation)) (batch : List Operation) → IsFrame batch framed.now → IsDone result
            → WhereTold (D.story disk.old) (Stands self.old batches) → IsSettled self.old.path (D.story disk.old)
            → (image : Directory) → Images (D.story disk.new) image → Comes (Keeps self.old.path self.old.at (batches ++ batch ∷ [])) (D.story disk.old) image }
        ensures fault { (batches : List (List Operation)) → IsFault result
            → WhereTold (D.story disk.old) (Stands self.old batches) → IsSettled self.old.path (D.story disk.old)
            → Carries (Keeps self.old.path self.old.at batches) (D.moment_of disk.old) (D.moment_of disk.new) (D.story disk.old) (D.story disk.new) }

        ensures journal { self.new ≡ journal_after result (length framed.now) self.old }
        // The moment doesn't fall, whatever it answers.
        ensures onward { D.moment_of disk.old ≤ D.moment_of disk.new }
        ensures calls { Calls result (D.moment_of disk.old) (D.moment_of disk.new) }
        ensures later { D.faults_of disk.old ≤ D.faults_of disk.new }
        ensures cause { HasCause result (D.faults_of disk.old) (D.faults_of disk.new) }
        // An end past u64::MAX is a fault.
        ensures past { 2 ^ 64 ≤ self.old.end + 1 + length framed.now → IsFault result }
    {
        let appended = append_at(disk, self.path.as_str(), self.end, framed);
        match appended {
            Appended::Done => self.end += framed.len() as u64,
            Appended::Fault { count } => self.fault = Some(count),
            Appended::Unsure { count } => self.fault = Some(count),
        }
        appended
    }
}
