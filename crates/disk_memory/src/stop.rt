// A disk in memory as a crash leaves it.
ghost use Rattle.std.specs.Prelude.{◌≡◌, ◌≤◌, ℕ, List, [], None, true, IsTrue, IfOk};
ghost use Rattle.disk_memory.specs.Record.{directory_of, told};
ghost use Rattle.disk_memory.specs.Shown.{content, keeps, moment_of, lacked_of, fail_of, IsNew, Leaves};

use crate::clock::Clock;
use crate::disk::MemoryDisk;
use crate::fail::FailAt;
use crate::files::{self, Files};
use crate::record::Record;
use crate::replay::replay;
use std::alloc::{AllocError, Global};

impl MemoryDisk {
    /// An empty disk. The listed calls fail. With `keep` it keeps a record of its calls and tells its content.
    pub fn new(alloc: Global, fail: Vec<FailAt>, keep: bool) -> MemoryDisk
        ensures new { IsNew result }
        ensures empty { (path : List ℕ) → content result path ≡ None }
        ensures keep { keeps result ≡ keep }
        ensures fail { fail_of result ≡ fail.items }
    {
        MemoryDisk {
            alloc,
            start: Files::new(alloc),
            files: Files::new(alloc),
            calls: Record {
                alloc,
                keep,
                entries: Vec::new(alloc),
            },
            clock: Clock {
                moment: 0,
                faults: 0,
                lacked: 0,
                fail,
            },
        }
    }

    /// Whether it keeps a record of its calls, and so can be stopped.
    pub fn keeps_record(&self) -> bool
        ensures { result ≡ keeps self.now }
    {
        self.calls.keep
    }

    /// How often the disk could not grow. It stands still at `u64::MAX`.
    pub fn lacked(&self) -> u64
        ensures { result ≡ lacked_of self.now }
    {
        self.clock.lacked
    }

    /// A disk that reads as a crash may leave this one after that many calls and before the end of the next, and of which a
    /// crash leaves nothing else. Choice 0 leaves each file as its last sync did, and the next call undone. Choice 1 leaves
    /// all done. Any other choice leaves bytes of a generator, which begins with that number, where a crash may leave any.
    pub fn stop(&self, moment: u64, choice: u64) -> Result<MemoryDisk, AllocError>
        requires keep { IsTrue (keeps self.now) }
        requires past { moment ≤ moment_of self.now }
        ensures left { IfOk result (λ disk. Leaves self.now moment choice (content disk)) }
        ensures new { IfOk result IsNew }
        ensures keep { IfOk result (λ disk. keeps disk ≡ true) }
        ensures fail { IfOk result (λ disk. fail_of disk ≡ []) }
    {
        let last = if choice == 0 {
            moment
        } else {
            moment.saturating_add(1)
        };
        let (_, torn) = replay(self.alloc, &self.start, &self.calls.entries, last, choice)?;
        let files = files::copy(&torn)?;
        Ok(over(self.alloc, torn, files))
    }
}

// A disk that reads as a directory, and of which a crash leaves just that.
fn over(alloc: Global, start: Files, files: Files) -> MemoryDisk
    requires { (path : List ℕ) → directory_of files path ≡ directory_of start path }
    ensures new { IsNew result }
    ensures files { result.files ≡ files }
    ensures keep { keeps result ≡ true }
    ensures fail { fail_of result ≡ [] }
{
    MemoryDisk {
        alloc,
        start,
        files,
        calls: Record {
            alloc,
            keep: true,
            entries: Vec::new(alloc),
        },
        clock: Clock {
            moment: 0,
            faults: 0,
            lacked: 0,
            fail: Vec::new(alloc),
        },
    }
}
