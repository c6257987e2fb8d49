// A system file without rows is made.
ghost use Rattle.std.specs.Prelude.{◌≡◌, ◌≤◌, ◌+◌, ◌∷◌, [], ◌++◌, Some, None, OnOk, OnErr};
ghost use Rattle.disk_trait.specs.Story.{WhereTold};
ghost use Rattle.disk_trait.specs.Calls.{Rose};
ghost use Rattle.disk_trait.specs.Carried.{Off, Carries, Turns, IsSettled};
ghost use Rattle.row_store.specs.Header.{empty_file};
ghost use Rattle.row_store.specs.Making.{IsMade};

use crate::header::HEADER;
use disk_trait::{Disk, Failed, write_through};

/// Makes an empty file on a path that is free.
fn create_empty<D: Disk>(disk: &mut D, path: &str) -> Result<(), Failed>
    requires { WhereTold (D.story disk.old) (λ d. d path.now ≡ None) }
    ensures reads { OnOk result (Turns (D.story disk.old) (D.story disk.new) (IsMade path.now [])) }
    ensures off { Turns (D.story disk.old) (D.story disk.new) (Off path.now) }
    ensures carries { Carries (Off path.now) (D.moment_of disk.old) (D.moment_of disk.new) (D.story disk.old) (D.story disk.new) }
    ensures onward { D.moment_of disk.old ≤ D.moment_of disk.new }
    ensures calls { D.moment_of disk.new ≤ D.moment_of disk.old + 1 }
    ensures later { D.faults_of disk.old ≤ D.faults_of disk.new }
    ensures cause { OnErr result (Rose (D.faults_of disk.old) (D.faults_of disk.new)) }
{
    match disk.create(path) {
        Ok(_) => Ok(()),
        Err(fault) => Err(fault),
    }
}

/// Writes the bytes of a file that is there and empty, and syncs it.
fn fill<D: Disk>(disk: &mut D, path: &str, bytes: &[u8]) -> Result<(), Failed>
    requires { WhereTold (D.story disk.old) (λ d. d path.now ≡ Some []) }
    ensures reads { OnOk result (Turns (D.story disk.old) (D.story disk.new) (IsMade path.now bytes.now)) }
    ensures off { Turns (D.story disk.old) (D.story disk.new) (Off path.now) }
    ensures carries { Carries (Off path.now) (D.moment_of disk.old) (D.moment_of disk.new) (D.story disk.old) (D.story disk.new) }
    ensures settled { OnOk result (IsSettled path.now (D.story disk.new)) }
    ensures onward { D.moment_of disk.old ≤ D.moment_of disk.new }
    ensures calls { D.moment_of disk.new ≤ D.moment_of disk.old + 2 }
    ensures later { D.faults_of disk.old ≤ D.faults_of disk.new }
    ensures cause { OnErr result (Rose (D.faults_of disk.old) (D.faults_of disk.new)) }
{
    write_through(disk, path, 0, bytes)
}

/// The header, and a closed gate.
fn blank() -> [u8; 65]
    ensures { result ≡ empty_file }
{
    let mut bytes = [0u8; 65];
    bytes[..64].copy_from_slice(&HEADER);
    bytes
}

/// Makes a system file without rows on a path that is free, and syncs it, by three calls of the disk at most.
pub fn make_empty<D: Disk>(disk: &mut D, path: &str) -> Result<(), Failed>
    requires { WhereTold (D.story disk.old) (λ d. d path.now ≡ None) }
    ensures reads { OnOk result (Turns (D.story disk.old) (D.story disk.new) (IsMade path.now empty_file)) }
    ensures off { Turns (D.story disk.old) (D.story disk.new) (Off path.now) }
    ensures carries { Carries (Off path.now) (D.moment_of disk.old) (D.moment_of disk.new) (D.story disk.old) (D.story disk.new) }
    ensures settled { OnOk result (IsSettled path.now (D.story disk.new)) }
    ensures onward { D.moment_of disk.old ≤ D.moment_of disk.new }
    ensures calls { D.moment_of disk.new ≤ D.moment_of disk.old + 3 }
    ensures later { D.faults_of disk.old ≤ D.faults_of disk.new }
    ensures cause { OnErr result (Rose (D.faults_of disk.old) (D.faults_of disk.new)) }
{
    create_empty(disk, path)?;
    fill(disk, path, &blank())
}
