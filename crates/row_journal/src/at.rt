// An append to the batches that end at a place.
ghost use Rattle.std.specs.Prelude.{◌≡◌, ◌≤◌, ◌<◌, ◌+◌, ◌^◌, ◌∷◌, [], ◌++◌, ℕ, List, length, OnOk, OnErr};
ghost use Rattle.disk_trait.specs.Change.{Directory};
ghost use Rattle.disk_trait.specs.Story.{WhereTold, Images};
ghost use Rattle.disk_trait.specs.Calls.{HasRoom, Rose, next_count};
ghost use Rattle.disk_trait.specs.Carried.{Comes, Carries, Turns, IsSettled};
ghost use Rattle.row_batch.specs.declared.operation.Operation.{Operation};
ghost use Rattle.row_journal.specs.Contents.{IsFrame};
ghost use Rattle.row_journal.specs.Value.{EndsAt};
ghost use Rattle.row_journal.specs.Append.{HasGate, Staged, Keeps, MayAppend, IsDone, IsFault, ReadsAs, Calls, HasCause};

use crate::Appended;
use crate::gate::OPEN;
use disk_trait::{Disk, Failed, write_through};

/// Writes a framed batch behind the closed gate at `end`, and syncs the file. The gate stays closed.
fn stage<D: Disk>(disk: &mut D, path: &str, end: u64, framed: &[u8]) -> Result<(), Failed>
    requires room { WhereTold (D.story disk.old) (HasGate path.now end) }
    requires framed { (batch : List Operation) × IsFrame batch framed.now }
    ensures keeps { (at : ℕ) (batches : List (List Operation)) → WhereTold (D.story disk.old) (EndsAt path.now at end batches) → IsSettled path.now (D.story disk.old)
        → Carries (Keeps path.now at batches) (D.moment_of disk.old) (D.moment_of disk.new) (D.story disk.old) (D.story disk.new) }
    ensures reads { (at : ℕ) (batches : List (List Operation)) → WhereTold (D.story disk.old) (EndsAt path.now at end batches)
        → Turns (D.story disk.old) (D.story disk.new) (Keeps path.now at batches) }
    ensures staged { OnOk result ((at : ℕ) (batches : List (List Operation)) (batch : List Operation) → IsFrame batch framed.now
        → WhereTold (D.story disk.old) (EndsAt path.now at end batches) → WhereTold (D.story disk.new) (Staged path.now at end batches batch)) }
    ensures settled { OnOk result (IsSettled path.now (D.story disk.new)) }
    ensures gate { OnOk result (WhereTold (D.story disk.new) (HasRoom path.now end)) }
    ensures room { OnOk result (WhereTold (D.story disk.new) (HasGate path.now (end + length framed.now))) }
    ensures within { OnOk result (end + 1 + length framed.now < 2 ^ 64) }
    ensures onward { D.moment_of disk.old ≤ D.moment_of disk.new }
    ensures two_calls { OnOk result (D.moment_of disk.new ≡ D.moment_of disk.old + 2) }
    ensures some_calls { OnErr result (next_count (D.moment_of disk.old) ≤ D.moment_of disk.new) }
    ensures no_more_calls { D.moment_of disk.new ≤ D.moment_of disk.old + 2 }
    ensures later { D.faults_of disk.old ≤ D.faults_of disk.new }
    ensures cause { OnErr result (Rose (D.faults_of disk.old) (D.faults_of disk.new)) }
{
    let place = end.saturating_add(1);
    write_through(disk, path, place, framed)
}

/// Writes a framed batch behind the closed gate at `end`, and opens the gate once the batch is on the disk.
pub fn append_at<D: Disk>(disk: &mut D, path: &str, end: u64, framed: &[u8]) -> Appended
    requires room { WhereTold (D.story disk.old) (HasGate path.now end) }
    requires framed { (batch : List Operation) × IsFrame batch framed.now }

    ensures appended { (at : ℕ) (batches : List (List Operation)) (batch : List Operation) → IsFrame batch framed.now → IsDone result
        → WhereTold (D.story disk.old) (EndsAt path.now at end batches)
        → WhereTold (D.story disk.new) (EndsAt path.now at (end + length framed.now) (batches ++ batch ∷ [])) }
    ensures settled { IsDone result → IsSettled path.now (D.story disk.new) }
    ensures room { IsDone result → WhereTold (D.story disk.new) (HasGate path.now (end + length framed.now)) }
    ensures reads { (at : ℕ) (batches : List (List Operation)) (batch : List Operation) → IsFrame batch framed.now
        → WhereTold (D.story disk.old) (EndsAt path.now at end batches)
        → Turns (D.story disk.old) (D.story disk.new) (ReadsAs result path.now at batches batch) }

    // A crash at any moment leaves the batches with the new one or without, and the bytes before them.
    ensures any_moment { (at : ℕ) (batches : List (List Operation)) (batch : List Operation) → IsFrame batch framed.now
        → WhereTold (D.story disk.old) (EndsAt path.now at end batches) → IsSettled path.now (D.story disk.old)
        → Carries (MayAppend path.now at batches batch) (D.moment_of disk.old) (D.moment_of disk.new) (D.story disk.old) (D.story disk.new) }
    // Once it is done each crash leaves the new one. Where it is a fault, none at any moment did.
    ensures done { (at : ℕ) (batches : List (List Operation)) (batch : List Operation) → IsFrame batch framed.now → IsDone result
        → WhereTold (D.story disk.old) (EndsAt path.now at end batches) → IsSettled path.now (D.story disk.old)
        → (image : Directory) → Images (D.story disk.new) image → Comes (Keeps path.now at (batches ++ batch ∷ [])) (D.story disk.old) image }
    ensures fault { (at : ℕ) (batches : List (List Operation)) → IsFault result
        → WhereTold (D.story disk.old) (EndsAt path.now at end batches) → IsSettled path.now (D.story disk.old)
        → Carries (Keeps path.now at batches) (D.moment_of disk.old) (D.moment_of disk.new) (D.story disk.old) (D.story disk.new) }

    ensures onward { D.moment_of disk.old ≤ D.moment_of disk.new }
    ensures calls { Calls result (D.moment_of disk.old) (D.moment_of disk.new) }
    ensures later { D.faults_of disk.old ≤ D.faults_of disk.new }
    ensures cause { HasCause result (D.faults_of disk.old) (D.faults_of disk.new) }
    ensures past { 2 ^ 64 ≤ end + 1 + length framed.now → IsFault result }
{
    if stage(disk, path, end, framed).is_err() {
        return Appended::Fault {
            count: disk.faults(),
        };
    }
    if write_through(disk, path, end, &[OPEN]).is_err() {
        return Appended::Unsure {
            count: disk.faults(),
        };
    }
    Appended::Done
}
