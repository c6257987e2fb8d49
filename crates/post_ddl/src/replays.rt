ghost use Rattle.std.specs.Prelude.{◌≡◌, ◌≤◌, ◌+◌, OnOk, IfErr};
ghost use Rattle.disk_trait.specs.Change.{Directory};
ghost use Rattle.disk_trait.specs.Story.{Images};
ghost use Rattle.disk_trait.specs.Calls.{next_count};
ghost use Rattle.disk_trait.specs.Carried.{Carries, Comes, Turns};
ghost use Rattle.data_dir.specs.Files.{IsCounted};
ghost use Rattle.ddl_log.specs.declared.records.Kind.TheVariants.{DeleteSpace, RenameSpace, WriteSdi};
ghost use Rattle.ddl_log.specs.Effect.{IsUnder};
ghost use Rattle.post_ddl.specs.Replays.{Does, HasBytes, IsSteady};

use data_dir::{DirFault, drop_file, move_file, write_sdi};
use ddl_log::{Kind, LogRecord};
use disk_trait::Disk;

/// Removes the file of a record.
fn delete_space<D: Disk>(disk: &mut D, item: &LogRecord) -> Result<(), DirFault>
    requires { item.now.kind ≡ DeleteSpace }
    ensures reads { OnOk result ((wanted : Directory) → Turns (D.story disk.old) (D.story disk.new) (Does item.now wanted)) }
    ensures turns { (wanted : Directory) → Turns (D.story disk.old) (D.story disk.new) (IsUnder item.now wanted) }
    ensures carries { (wanted : Directory) → Carries (IsUnder item.now wanted) (D.moment_of disk.old) (D.moment_of disk.new) (D.story disk.old) (D.story disk.new) }
    ensures images { OnOk result ((wanted : Directory) (image : Directory) → Images (D.story disk.new) image → Comes (Does item.now wanted) (D.story disk.old) image) }
    ensures onward { D.moment_of disk.old ≤ D.moment_of disk.new }
    ensures some_calls { next_count (D.moment_of disk.old) ≤ D.moment_of disk.new }
    ensures no_more_calls { D.moment_of disk.new ≤ D.moment_of disk.old + 4 }
    ensures later { D.faults_of disk.old ≤ D.faults_of disk.new }
    ensures cause { IfErr result (λ fault. IsCounted fault (D.faults_of disk.old) (D.faults_of disk.new)) }
{
    match drop_file(disk, item.old_path.as_str()) {
        Ok(_) => Ok(()),
        Err(fault) => Err(fault),
    }
}

/// Gives the file of a record its new path, if it is there.
fn rename_space<D: Disk>(disk: &mut D, item: &LogRecord) -> Result<(), DirFault>
    requires { item.now.kind ≡ RenameSpace }
    ensures reads { OnOk result ((wanted : Directory) → Turns (D.story disk.old) (D.story disk.new) (Does item.now wanted)) }
    ensures turns { (wanted : Directory) → Turns (D.story disk.old) (D.story disk.new) (IsUnder item.now wanted) }
    ensures carries { (wanted : Directory) → Carries (IsUnder item.now wanted) (D.moment_of disk.old) (D.moment_of disk.new) (D.story disk.old) (D.story disk.new) }
    ensures images { OnOk result ((wanted : Directory) (image : Directory) → Images (D.story disk.new) image → Comes (Does item.now wanted) (D.story disk.old) image) }
    ensures onward { D.moment_of disk.old ≤ D.moment_of disk.new }
    ensures some_calls { next_count (D.moment_of disk.old) ≤ D.moment_of disk.new }
    ensures no_more_calls { D.moment_of disk.new ≤ D.moment_of disk.old + 4 }
    ensures later { D.faults_of disk.old ≤ D.faults_of disk.new }
    ensures cause { IfErr result (λ fault. IsCounted fault (D.faults_of disk.old) (D.faults_of disk.new)) }
{
    match move_file(disk, item.old_path.as_str(), item.new_path.as_str()) {
        Ok(_) => Ok(()),
        Err(fault) => Err(fault),
    }
}

/// Writes the file of a record anew, if it is there.
fn write_space<D: Disk>(disk: &mut D, item: &LogRecord, bytes: &[u8]) -> Result<(), DirFault>
    requires { item.now.kind ≡ WriteSdi }
    ensures reads { OnOk result ((wanted : Directory) → HasBytes item.now bytes.now wanted → Turns (D.story disk.old) (D.story disk.new) (Does item.now wanted)) }
    ensures turns { (wanted : Directory) → HasBytes item.now bytes.now wanted → Turns (D.story disk.old) (D.story disk.new) (IsUnder item.now wanted) }
    ensures carries { (wanted : Directory) → HasBytes item.now bytes.now wanted → Carries (IsUnder item.now wanted) (D.moment_of disk.old) (D.moment_of disk.new) (D.story disk.old) (D.story disk.new) }
    ensures images { OnOk result ((wanted : Directory) → HasBytes item.now bytes.now wanted → IsSteady item.now (D.story disk.old)
        → (image : Directory) → Images (D.story disk.new) image → Comes (Does item.now wanted) (D.story disk.old) image) }
    ensures onward { D.moment_of disk.old ≤ D.moment_of disk.new }
    ensures some_calls { next_count (D.moment_of disk.old) ≤ D.moment_of disk.new }
    ensures no_more_calls { D.moment_of disk.new ≤ D.moment_of disk.old + 4 }
    ensures later { D.faults_of disk.old ≤ D.faults_of disk.new }
    ensures cause { IfErr result (λ fault. IsCounted fault (D.faults_of disk.old) (D.faults_of disk.new)) }
{
    match write_sdi(disk, item.old_path.as_str(), bytes) {
        Ok(()) => Ok(()),
        Err(fault) => Err(fault),
    }
}

/// Does the operation of a record, which may have been begun before; `bytes` are what a file that is written anew gets, and
/// count for nothing for the other kinds. Whatever it answers, what the disk reads and what a crash leaves still has the
/// record's effect before it, and is otherwise as before. Once it answers, that effect is done.
pub fn replay<D: Disk>(disk: &mut D, item: &LogRecord, bytes: &[u8]) -> Result<(), DirFault>
    ensures reads { OnOk result ((wanted : Directory) → HasBytes item.now bytes.now wanted → Turns (D.story disk.old) (D.story disk.new) (Does item.now wanted)) }
    ensures turns { (wanted : Directory) → HasBytes item.now bytes.now wanted → Turns (D.story disk.old) (D.story disk.new) (IsUnder item.now wanted) }
    ensures carries { (wanted : Directory) → HasBytes item.now bytes.now wanted → Carries (IsUnder item.now wanted) (D.moment_of disk.old) (D.moment_of disk.new) (D.story disk.old) (D.story disk.new) }
    ensures images { OnOk result ((wanted : Directory) → HasBytes item.now bytes.now wanted → IsSteady item.now (D.story disk.old)
        → (image : Directory) → Images (D.story disk.new) image → Comes (Does item.now wanted) (D.story disk.old) image) }
    ensures onward { D.moment_of disk.old ≤ D.moment_of disk.new }
    ensures some_calls { next_count (D.moment_of disk.old) ≤ D.moment_of disk.new }
    ensures no_more_calls { D.moment_of disk.new ≤ D.moment_of disk.old + 4 }
    ensures later { D.faults_of disk.old ≤ D.faults_of disk.new }
    ensures cause { IfErr result (λ fault. IsCounted fault (D.faults_of disk.old) (D.faults_of disk.new)) }
{
    match item.kind {
        Kind::DeleteSpace => delete_space(disk, item),
        Kind::RenameSpace => rename_space(disk, item),
        Kind::WriteSdi => write_space(disk, item, bytes),
    }
}
