// A file is written anew.
ghost use Rattle.std.specs.Prelude.{◌≡◌, ◌≤◌, ◌+◌, ◌⊎◌, ℕ, List, length, OnOk, OnErr, IfErr};
ghost use Rattle.disk_trait.specs.Change.{Directory, cut, reads_after};
ghost use Rattle.disk_trait.specs.Story.{WhereTold, Images};
ghost use Rattle.disk_trait.specs.Calls.{IsThere, next_count};
ghost use Rattle.disk_trait.specs.Carried.{Comes, Carries, Turns, IsSettled};
ghost use Rattle.data_dir.specs.Files.{Rewrites, MayRewrite, IsAgreed, IsCounted};

use crate::fault::{DirFault, fault_of};
use disk_trait::{Disk, write_through};

/// Keeps so many bytes of a file that is there.
fn trim<D: Disk>(disk: &mut D, path: &str, size: u64) -> Result<(), DirFault>
    requires { WhereTold (D.story disk.old) (IsThere path.now) }
    ensures reads { OnOk result (Turns (D.story disk.old) (D.story disk.new) (λ old new. (other : List ℕ) → new other ≡ reads_after (cut path.now size) old other)) }
    ensures turns { Turns (D.story disk.old) (D.story disk.new) (MayRewrite path.now) }
    ensures carries { Carries (MayRewrite path.now) (D.moment_of disk.old) (D.moment_of disk.new) (D.story disk.old) (D.story disk.new) }
    ensures onward { D.moment_of disk.old ≤ D.moment_of disk.new }
    ensures one_call { OnOk result (D.moment_of disk.new ≡ D.moment_of disk.old + 1) }
    ensures calls { D.moment_of disk.new ≡ next_count (D.moment_of disk.old) }
    ensures later { D.faults_of disk.old ≤ D.faults_of disk.new }
    ensures cause { IfErr result (λ fault. IsCounted fault (D.faults_of disk.old) (D.faults_of disk.new)) }
{
    match disk.cut(path, size) {
        Ok(()) => Ok(()),
        Err(_) => Err(fault_of(disk)),
    }
}

/// Gives a file that is there these bytes, and syncs it, by three calls of the disk. What was behind them is cut off first.
pub fn rewrite<D: Disk>(disk: &mut D, path: &str, bytes: &[u8]) -> Result<(), DirFault>
    requires { WhereTold (D.story disk.old) (IsThere path.now) }
    ensures reads { OnOk result (Turns (D.story disk.old) (D.story disk.new) (Rewrites path.now bytes.now)) }
    ensures turns { Turns (D.story disk.old) (D.story disk.new) (MayRewrite path.now) }
    ensures carries { Carries (MayRewrite path.now) (D.moment_of disk.old) (D.moment_of disk.new) (D.story disk.old) (D.story disk.new) }
    ensures settled { OnOk result (IsSettled path.now (D.story disk.new)) }
    ensures onward { D.moment_of disk.old ≤ D.moment_of disk.new }
    ensures three_calls { OnOk result (D.moment_of disk.new ≡ D.moment_of disk.old + 3) }
    ensures some_calls { OnErr result (next_count (D.moment_of disk.old) ≤ D.moment_of disk.new) }
    ensures no_more_calls { D.moment_of disk.new ≤ D.moment_of disk.old + 3 }
    ensures later { D.faults_of disk.old ≤ D.faults_of disk.new }
    ensures cause { IfErr result (λ fault. IsCounted fault (D.faults_of disk.old) (D.faults_of disk.new)) }
{
    trim(disk, path, bytes.len() as u64)?;
    match write_through(disk, path, 0, bytes) {
        Ok(()) => Ok(()),
        Err(_) => Err(fault_of(disk)),
    }
}

/// Gives a file these bytes if it is there, by one call of the disk where it isn't and four where it is. Once it answers,
/// each crash leaves it so, if before each crash left the file there exactly where the disk read it as there.
pub fn write_sdi<D: Disk>(disk: &mut D, path: &str, bytes: &[u8]) -> Result<(), DirFault>
    ensures reads { OnOk result (Turns (D.story disk.old) (D.story disk.new) (Rewrites path.now bytes.now)) }
    ensures turns { Turns (D.story disk.old) (D.story disk.new) (MayRewrite path.now) }
    ensures carries { Carries (MayRewrite path.now) (D.moment_of disk.old) (D.moment_of disk.new) (D.story disk.old) (D.story disk.new) }
    ensures images { OnOk result (IsAgreed path.now (D.story disk.old) → (image : Directory) → Images (D.story disk.new) image → Comes (Rewrites path.now bytes.now) (D.story disk.old) image) }
    ensures onward { D.moment_of disk.old ≤ D.moment_of disk.new }
    ensures one_or_four { OnOk result ((D.moment_of disk.new ≡ D.moment_of disk.old + 1) ⊎ (D.moment_of disk.new ≡ D.moment_of disk.old + 4)) }
    ensures some_calls { next_count (D.moment_of disk.old) ≤ D.moment_of disk.new }
    ensures no_more_calls { D.moment_of disk.new ≤ D.moment_of disk.old + 4 }
    ensures later { D.faults_of disk.old ≤ D.faults_of disk.new }
    ensures cause { IfErr result (λ fault. IsCounted fault (D.faults_of disk.old) (D.faults_of disk.new)) }
{
    match disk.size(path) {
        Ok(Some(_)) => rewrite(disk, path, bytes),
        Ok(None) => Ok(()),
        Err(_) => Err(fault_of(disk)),
    }
}
