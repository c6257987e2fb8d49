// Files are removed and renamed.
ghost use Rattle.std.specs.Prelude.{◌≡◌, ◌≤◌, ◌+◌, None, is_some, OnOk, OnErr, IfOk, IfErr};
ghost use Rattle.disk_trait.specs.Change.{Directory};
ghost use Rattle.disk_trait.specs.Story.{WhereTold, Images};
ghost use Rattle.disk_trait.specs.Calls.{next_count};
ghost use Rattle.disk_trait.specs.Carried.{Off, Comes, Carries, Turns, Moves, MayMove};
ghost use Rattle.data_dir.specs.Files.{Drops, IsCounted};

use crate::fault::{DirFault, fault_of};
use disk_trait::Disk;

/// Removes a file, and says whether it was there, by one call of the disk. Once it answers, no crash leaves the file.
pub fn drop_file<D: Disk>(disk: &mut D, path: &str) -> Result<bool, DirFault>
    ensures reads { OnOk result (Turns (D.story disk.old) (D.story disk.new) (Drops path.now)) }
    ensures there { IfOk result (λ there. WhereTold (D.story disk.old) (λ d. there ≡ is_some (d path.now))) }
    ensures turns { Turns (D.story disk.old) (D.story disk.new) (Off path.now) }
    ensures carries { Carries (Off path.now) (D.moment_of disk.old) (D.moment_of disk.new) (D.story disk.old) (D.story disk.new) }
    ensures images { OnOk result ((image : Directory) → Images (D.story disk.new) image → Comes (Drops path.now) (D.story disk.old) image) }
    ensures onward { D.moment_of disk.old ≤ D.moment_of disk.new }
    ensures one_call { OnOk result (D.moment_of disk.new ≡ D.moment_of disk.old + 1) }
    ensures calls { D.moment_of disk.new ≡ next_count (D.moment_of disk.old) }
    ensures later { D.faults_of disk.old ≤ D.faults_of disk.new }
    ensures cause { IfErr result (λ fault. IsCounted fault (D.faults_of disk.old) (D.faults_of disk.new)) }
{
    match disk.remove(path) {
        Ok(there) => Ok(there),
        Err(_) => Err(fault_of(disk)),
    }
}

/// Gives a file another path, in the place of one that is there, and says whether it was there, by one call of the disk.
/// Once it answers, each crash leaves it so.
pub fn move_file<D: Disk>(disk: &mut D, from: &str, to: &str) -> Result<bool, DirFault>
    ensures reads { OnOk result (Turns (D.story disk.old) (D.story disk.new) (Moves from.now to.now)) }
    ensures there { IfOk result (λ there. WhereTold (D.story disk.old) (λ d. there ≡ is_some (d from.now))) }
    ensures turns { Turns (D.story disk.old) (D.story disk.new) (MayMove from.now to.now) }
    ensures carries { Carries (MayMove from.now to.now) (D.moment_of disk.old) (D.moment_of disk.new) (D.story disk.old) (D.story disk.new) }
    ensures images { OnOk result ((image : Directory) → Images (D.story disk.new) image → Comes (Moves from.now to.now) (D.story disk.old) image) }
    ensures onward { D.moment_of disk.old ≤ D.moment_of disk.new }
    ensures one_call { OnOk result (D.moment_of disk.new ≡ D.moment_of disk.old + 1) }
    ensures calls { D.moment_of disk.new ≡ next_count (D.moment_of disk.old) }
    ensures later { D.faults_of disk.old ≤ D.faults_of disk.new }
    ensures cause { IfErr result (λ fault. IsCounted fault (D.faults_of disk.old) (D.faults_of disk.new)) }
{
    match disk.rename(from, to) {
        Ok(there) => Ok(there),
        Err(_) => Err(fault_of(disk)),
    }
}
