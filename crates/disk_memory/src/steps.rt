// A call on the files and the record of a disk in memory. For want of memory both stay as they were.
ghost use Rattle.std.specs.Prelude.{◌≡◌, ◌≤◌, ℕ, List, Some, length, not, is_some, false, OnOk, OnErr, IfOk};
ghost use Rattle.disk_trait.specs.Change.{reads_after, made, removed, moved, wrote, cut};
ghost use Rattle.disk_memory.specs.Record.{directory_of, event_when, Notes, IsSame};

use crate::files::{self, Files};
use crate::record::Record;
use std::alloc::{AllocError, Global};

/// Makes an empty file where none is, and says whether it did.
pub fn create(
    alloc: Global,
    files: &mut Files,
    calls: &mut Record,
    moment: u64,
    path: &str,
) -> Result<bool, AllocError>
    ensures free { IfOk result (λ free. free ≡ not (is_some (directory_of files.old path.now))) }
    ensures files { OnOk result ((q : List ℕ) → directory_of files.new q ≡ reads_after (made path.now) (directory_of files.old) q) }
    ensures calls { OnOk result (Notes calls.old calls.new (moment, event_when false (made path.now))) }
    ensures files_err { OnErr result ((q : List ℕ) → directory_of files.new q ≡ directory_of files.old q) }
    ensures calls_err { OnErr result (IsSame calls.old calls.new) }
{
    calls.made(moment, false, path)?;
    match files::create(alloc, files, path) {
        Ok(free) => Ok(free),
        Err(refused) => {
            calls.forget();
            Err(refused)
        }
    }
}

/// Removes a file, and says whether it was there.
pub fn remove(
    files: &mut Files,
    calls: &mut Record,
    moment: u64,
    path: &str,
) -> Result<bool, AllocError>
    ensures there { IfOk result (λ there. there ≡ is_some (directory_of files.old path.now)) }
    ensures files { OnOk result ((q : List ℕ) → directory_of files.new q ≡ reads_after (removed path.now) (directory_of files.old) q) }
    ensures calls { OnOk result (Notes calls.old calls.new (moment, event_when false (removed path.now))) }
    ensures files_err { OnErr result ((q : List ℕ) → directory_of files.new q ≡ directory_of files.old q) }
    ensures calls_err { OnErr result (IsSame calls.old calls.new) }
{
    calls.removed(moment, false, path)?;
    Ok(files::remove(files, path))
}

/// Gives a file another path, and says whether it was there.
pub fn rename(
    alloc: Global,
    files: &mut Files,
    calls: &mut Record,
    moment: u64,
    from: &str,
    to: &str,
) -> Result<bool, AllocError>
    ensures there { IfOk result (λ there. there ≡ is_some (directory_of files.old from.now)) }
    ensures files { OnOk result ((q : List ℕ) → directory_of files.new q ≡ reads_after (moved from.now to.now) (directory_of files.old) q) }
    ensures calls { OnOk result (Notes calls.old calls.new (moment, event_when false (moved from.now to.now))) }
    ensures files_err { OnErr result ((q : List ℕ) → directory_of files.new q ≡ directory_of files.old q) }
    ensures calls_err { OnErr result (IsSame calls.old calls.new) }
{
    calls.moved(moment, false, from, to)?;
    match files::rename(alloc, files, from, to) {
        Ok(there) => Ok(there),
        Err(refused) => {
            calls.forget();
            Err(refused)
        }
    }
}

/// Writes bytes into a file that reaches up to the place.
pub fn write(
    files: &mut Files,
    calls: &mut Record,
    moment: u64,
    path: &str,
    at: u64,
    bytes: &[u8],
) -> Result<(), AllocError>
    requires { (file : List ℕ) → directory_of files.old path.now ≡ Some file → at ≤ length file }
    ensures files { OnOk result ((q : List ℕ) → directory_of files.new q ≡ reads_after (wrote path.now at bytes.now) (directory_of files.old) q) }
    ensures calls { OnOk result (Notes calls.old calls.new (moment, event_when false (wrote path.now at bytes.now))) }
    ensures files_err { OnErr result ((q : List ℕ) → directory_of files.new q ≡ directory_of files.old q) }
    ensures calls_err { OnErr result (IsSame calls.old calls.new) }
{
    calls.wrote(moment, path, at, bytes)?;
    match files::write(files, path, at as usize, bytes) {
        Ok(()) => Ok(()),
        Err(refused) => {
            calls.forget();
            Err(refused)
        }
    }
}

/// Keeps the first bytes of a file.
pub fn cut(
    files: &mut Files,
    calls: &mut Record,
    moment: u64,
    path: &str,
    size: u64,
) -> Result<(), AllocError>
    ensures files { OnOk result ((q : List ℕ) → directory_of files.new q ≡ reads_after (cut path.now size) (directory_of files.old) q) }
    ensures calls { OnOk result (Notes calls.old calls.new (moment, event_when false (cut path.now size))) }
    ensures files_err { OnErr result ((q : List ℕ) → directory_of files.new q ≡ directory_of files.old q) }
    ensures calls_err { OnErr result (IsSame calls.old calls.new) }
{
    calls.cut(moment, path, size)?;
    files::shorten(files, path, size);
    Ok(())
}
