// A write that is made durable at once, and the calls that it takes.
ghost use Rattle.std.specs.Prelude.{◌≡◌, ◌≤◌, ◌<◌, ◌+◌, ◌^◌, ℕ, List, length, OnOk, OnErr};
ghost use Rattle.std.proofs.Common.{inl};
ghost use Rattle.disk_trait.specs.Change.{wrote, reads_after};
ghost use Rattle.disk_trait.specs.Story.{WhereTold};
ghost use Rattle.disk_trait.specs.Calls.{HasRoom, Rose, next_count};
ghost use Rattle.disk_trait.specs.Carried.{Wrote, Carries, Turns, IsSettled};

use crate::{Disk, Failed};

/// Writes into a file, and syncs it: two calls where it answers Ok, and one or two otherwise. Whatever it answers, a crash
/// leaves no more than the range that was to be written otherwise than before, and so does what the disk reads; where it
/// answers Ok, the file is left as it reads.
pub fn write_through<D: Disk>(disk: &mut D, path: &str, at: u64, bytes: &[u8]) -> Result<(), Failed>
    requires { WhereTold (D.story disk.old) (HasRoom path.now at) }
    ensures carries { Carries (Wrote path.now (inl (at, length bytes.now))) (D.moment_of disk.old) (D.moment_of disk.new) (D.story disk.old) (D.story disk.new) }
    ensures turns { Turns (D.story disk.old) (D.story disk.new) (Wrote path.now (inl (at, length bytes.now))) }
    ensures reads { OnOk result (Turns (D.story disk.old) (D.story disk.new) (λ old new. (other : List ℕ) → new other ≡ reads_after (wrote path.now at bytes.now) old other)) }
    ensures settled { OnOk result (IsSettled path.now (D.story disk.new)) }
    ensures within { OnOk result (at + length bytes.now < 2 ^ 64) }
    ensures past { 2 ^ 64 ≤ at + length bytes.now → D.story disk.new ≡ D.story disk.old }
    ensures onward { D.moment_of disk.old ≤ D.moment_of disk.new }
    ensures two_calls { OnOk result (D.moment_of disk.new ≡ D.moment_of disk.old + 2) }
    ensures some_calls { OnErr result (next_count (D.moment_of disk.old) ≤ D.moment_of disk.new) }
    ensures no_more_calls { D.moment_of disk.new ≤ D.moment_of disk.old + 2 }
    ensures later { D.faults_of disk.old ≤ D.faults_of disk.new }
    ensures cause { OnErr result (Rose (D.faults_of disk.old) (D.faults_of disk.new)) }
{
    if disk.write_at(path, at, bytes).is_err() {
        return Err(Failed);
    }
    if disk.sync(path).is_err() {
        return Err(Failed);
    }
    Ok(())
}
