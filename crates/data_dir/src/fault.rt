ghost use Rattle.std.specs.Prelude.{◌≡◌};

use disk_trait::Disk;

/// Why an operation on a file wasn't done.
#[derive(Clone, Copy, Debug, PartialEq, Eq)]
pub enum DirFault {
    /// The disk failed; with its count of faults.
    Fault { count: u64 },
}

/// The fault of a call that has failed just now.
pub fn fault_of<D: Disk>(disk: &D) -> DirFault
    ensures { result ≡ DirFault.Fault (D.faults_of disk.now) }
{
    DirFault::Fault {
        count: disk.faults(),
    }
}
