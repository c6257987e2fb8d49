// The calls of a disk, and what each of them says of the files and of a crash.
ghost use Rattle.std.specs.Prelude.{◌≡◌, ◌≤◌, ◌<◌, ◌+◌, ◌^◌, ℕ, List, [], Option, Bool, length, not, is_some, OnOk, IfOk, IsErr, IsErrOf};
ghost use Rattle.std.specs.Option.{option_map, unwrap_or};
ghost use Rattle.std.proofs.Common.{inl, inr};
ghost use Rattle.disk_trait.specs.Change.{made, removed, moved, wrote, cut as shortened, settled};
ghost use Rattle.disk_trait.specs.Story.{Story, WhereTold, IsSoundStory};
ghost use Rattle.disk_trait.specs.Calls.{Passes, Acts, Undecided, Spoils, NoEvent, Lists, Reads, IsThere, HasRoom};

use crate::PathText;

/// A call has failed, and the disk has counted the fault.
#[derive(Clone, Copy, Debug, PartialEq, Eq)]
pub struct Failed;

/// Why there is no list of the paths.
#[derive(Clone, Copy, Debug, PartialEq, Eq)]
pub enum ListFault {
    /// The disk has failed, and has counted the fault.
    Failed,
    /// There was no memory for the list.
    Memory,
}

/// Files under paths, which a crash may leave otherwise than they read. A disk may tell its content to contracts, or not.
///
/// Creating, removing and renaming are atomic, and durable once they answer Ok. During such a call, or after its failure, a
/// crash leaves the directory of before or after, until a later create, remove, rename or sync that names one of its paths
/// answers Ok: from then on the paths of both calls are as the disk then reads. Between two syncs of a file a crash may leave
/// any bytes in each range that was written and past the old end, and the same bytes elsewhere. Files are independent.
pub trait Disk: Send + Drop {
    /// What was done since the disk lay as it reads, where it tells its content.
    ghost story: { Self → Option Story };

    /// How many calls there were.
    ghost moment_of: { Self → ℕ };

    /// How many faults there were.
    ghost faults_of: { Self → ℕ };

    /// The number of calls so far, of those that may fail. At `u64::MAX` it stands still, and each such call fails.
    fn moment(&self) -> u64
        ensures { result ≡ moment_of self.now };

    /// The number of faults so far. It never falls, and stands still at `u64::MAX`.
    fn faults(&self) -> u64
        ensures { result ≡ faults_of self.now };

    /// All the paths, in byte order.
    fn list(&mut self) -> Result<Vec<PathText>, ListFault>
        ensures same { story self.new ≡ story self.old }
        ensures paths { IfOk result (λ paths. WhereTold (story self.old) (Lists paths.items)) }
        ensures passes { Passes (moment_of self.old) (moment_of self.new) (faults_of self.old) (faults_of self.new) (IsErrOf result ListFault.Failed) };

    /// The size of a file; None exactly where no file is there.
    fn size(&mut self, path: &str) -> Result<Option<u64>, Failed>
        ensures same { story self.new ≡ story self.old }
        ensures size { IfOk result (λ size. WhereTold (story self.old) (λ d. size ≡ option_map length (d path.now))) }
        ensures passes { Passes (moment_of self.old) (moment_of self.new) (faults_of self.old) (faults_of self.new) (IsErr result) };

    /// Reads as many bytes as stand from a place and fit, and says how many; 0 where no file is there.
    fn read_at(&mut self, path: &str, at: u64, into: &mut [u8]) -> Result<usize, Failed>
        ensures same { story self.new ≡ story self.old }
        ensures bytes { IfOk result (λ n. WhereTold (story self.old) (λ d. Reads (unwrap_or (d path.now) []) at into.old into.new n)) }
        ensures within { IfOk result (λ n. n ≤ length into.old) }
        ensures passes { Passes (moment_of self.old) (moment_of self.new) (faults_of self.old) (faults_of self.new) (IsErr result) };

    /// Makes an empty file, and says whether the path was free. A file that is there is unchanged.
    fn create(&mut self, path: &str) -> Result<bool, Failed>
        ensures acts { Acts (moment_of self.old) (story self.old) (story self.new) result (made path.now) (Undecided (made path.now)) }
        ensures free { IfOk result (λ free. WhereTold (story self.old) (λ d. free ≡ not (is_some (d path.now)))) }
        ensures passes { Passes (moment_of self.old) (moment_of self.new) (faults_of self.old) (faults_of self.new) (IsErr result) };

    /// Removes a file, and says whether it was there.
    fn remove(&mut self, path: &str) -> Result<bool, Failed>
        ensures acts { Acts (moment_of self.old) (story self.old) (story self.new) result (removed path.now) (Undecided (removed path.now)) }
        ensures there { IfOk result (λ there. WhereTold (story self.old) (λ d. there ≡ is_some (d path.now))) }
        ensures passes { Passes (moment_of self.old) (moment_of self.new) (faults_of self.old) (faults_of self.new) (IsErr result) };

    /// Gives a file another path, in the place of one that is there, and says whether it was there. To its own path a file
    /// is unchanged.
    fn rename(&mut self, from: &str, to: &str) -> Result<bool, Failed>
        ensures acts { Acts (moment_of self.old) (story self.old) (story self.new) result (moved from.now to.now) (Undecided (moved from.now to.now)) }
        ensures there { IfOk result (λ there. WhereTold (story self.old) (λ d. there ≡ is_some (d from.now))) }
        ensures passes { Passes (moment_of self.old) (moment_of self.new) (faults_of self.old) (faults_of self.new) (IsErr result) };

    /// Writes over what stands at a place, and past the end. The file must be there and reach up to the place; a disk that
    /// tells no content counts it as a fault otherwise. An end past `u64::MAX` is always a fault, which changes nothing.
    fn write_at(&mut self, path: &str, at: u64, bytes: &[u8]) -> Result<(), Failed>
        requires { WhereTold (story self.old) (HasRoom path.now at) }
        ensures within { OnOk result (at + length bytes.now < 2 ^ 64) }
        ensures past { 2 ^ 64 ≤ at + length bytes.now → story self.new ≡ story self.old }
        ensures acts { Acts (moment_of self.old) (story self.old) (story self.new) result (wrote path.now at bytes.now) (Spoils (story self.old) path.now (inl (at, length bytes.now))) }
        ensures passes { Passes (moment_of self.old) (moment_of self.new) (faults_of self.old) (faults_of self.new) (IsErr result) };

    /// Keeps the first `size` bytes of a file, or all of them where it has fewer. The file must be there; a disk that tells
    /// no content counts it as a fault otherwise.
    fn cut(&mut self, path: &str, size: u64) -> Result<(), Failed>
        requires { WhereTold (story self.old) (IsThere path.now) }
        ensures acts { Acts (moment_of self.old) (story self.old) (story self.new) result (shortened path.now size) (Spoils (story self.old) path.now (inr size)) }
        ensures passes { Passes (moment_of self.old) (moment_of self.new) (faults_of self.old) (faults_of self.new) (IsErr result) };

    /// From then on a crash leaves the file as it reads. The file must be there; a disk that tells no content counts it as
    /// a fault otherwise.
    fn sync(&mut self, path: &str) -> Result<(), Failed>
        requires { WhereTold (story self.old) (IsThere path.now) }
        ensures acts { Acts (moment_of self.old) (story self.old) (story self.new) result (settled path.now) NoEvent }
        ensures passes { Passes (moment_of self.old) (moment_of self.new) (faults_of self.old) (faults_of self.new) (IsErr result) };

    /// What the disk reads is one of the things that a crash now may leave, and no call was later than now.
    ghost sound: { (disk : Self) → IsSoundStory (story disk) (moment_of disk) };
}
