// A file is made.
ghost use Rattle.std.specs.Prelude.{◌≡◌, ◌≤◌, ◌+◌, Some, OnOk, OnErr, IfErr};
ghost use Rattle.disk_trait.specs.Change.{Directory};
ghost use Rattle.disk_trait.specs.Story.{WhereTold, Images};
ghost use Rattle.disk_trait.specs.Calls.{IsThere, next_count};
ghost use Rattle.disk_trait.specs.Carried.{Off, Carries, Turns};
ghost use Rattle.data_dir.specs.Files.{Makes, IsCounted};

use crate::fault::{DirFault, fault_of};
use crate::rewriting::rewrite;
use disk_trait::Disk;

/// Sees to it that a file is there.
fn begin<D: Disk>(disk: &mut D, path: &str) -> Result<(), DirFault>
    ensures there { OnOk result (WhereTold (D.story disk.new) (IsThere path.now)) }
    ensures turns { Turns (D.story disk.old) (D.story disk.new) (Off path.now) }
    ensures carries { Carries (Off path.now) (D.moment_of disk.old) (D.moment_of disk.new) (D.story disk.old) (D.story disk.new) }
    ensures onward { D.moment_of disk.old ≤ D.moment_of disk.new }
    ensures one_call { OnOk result (D.moment_of disk.new ≡ D.moment_of disk.old + 1) }
    ensures calls { D.moment_of disk.new ≡ next_count (D.moment_of disk.old) }
    ensures later { D.faults_of disk.old ≤ D.faults_of disk.new }
    ensures cause { IfErr result (λ fault. IsCounted fault (D.faults_of disk.old) (D.faults_of disk.new)) }
{
    match disk.create(path) {
        Ok(_) => Ok(()),
        Err(_) => Err(fault_of(disk)),
    }
}

/// Makes a file with these bytes, in the place of one that is there, and syncs it, by four calls of the disk. A crash in
/// the call, or after its failure, leaves other files as it would have left them before; once it answers, each crash leaves
/// the file.
pub fn make<D: Disk>(disk: &mut D, path: &str, bytes: &[u8]) -> Result<(), DirFault>
    ensures reads { OnOk result (Turns (D.story disk.old) (D.story disk.new) (Makes path.now bytes.now)) }
    ensures turns { Turns (D.story disk.old) (D.story disk.new) (Off path.now) }
    ensures carries { Carries (Off path.now) (D.moment_of disk.old) (D.moment_of disk.new) (D.story disk.old) (D.story disk.new) }
    ensures images { OnOk result ((image : Directory) → Images (D.story disk.new) image → image path.now ≡ Some bytes.now) }
    ensures onward { D.moment_of disk.old ≤ D.moment_of disk.new }
    ensures four_calls { OnOk result (D.moment_of disk.new ≡ D.moment_of disk.old + 4) }
    ensures some_calls { OnErr result (next_count (D.moment_of disk.old) ≤ D.moment_of disk.new) }
    ensures no_more_calls { D.moment_of disk.new ≤ D.moment_of disk.old + 4 }
    ensures later { D.faults_of disk.old ≤ D.faults_of disk.new }
    ensures cause { IfErr result (λ fault. IsCounted fault (D.faults_of disk.old) (D.faults_of disk.new)) }
{
    begin(disk, path)?;
    rewrite(disk, path, bytes)
}
