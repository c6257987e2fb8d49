// The calls of a disk in memory, each with the cases in which it fails.
ghost use Rattle.std.specs.Prelude.{◌≡◌, ◌≤◌, ◌<◌, ◌+◌, ◌^◌, ◌⊎◌, ℕ, List, [], length, not, is_some, false, OnOk, OnErr, IfOk, IsErr, IsErrOf};
ghost use Rattle.std.specs.Option.{option_map, unwrap_or};
ghost use Rattle.std.proofs.Common.{inl, inr};
ghost use Rattle.disk_trait.specs.Change.{made, removed, moved, wrote, cut as shortened, tried, settled};
ghost use Rattle.disk_trait.specs.Crash.{did, failed};
ghost use Rattle.disk_trait.specs.Story.{WhereTold};
ghost use Rattle.disk_trait.specs.Calls.{last_moment, Passes, Acts, Undecided, Spoils, NoEvent, Lists, Reads, IsThere, HasRoom};
ghost use Rattle.disk_memory.specs.Record.{directory_of, told, story_when};
ghost use Rattle.disk_memory.specs.Fail.{passed};
ghost use Rattle.disk_memory.specs.Shown.{moment_of, faults_of, fail_of};
ghost use Rattle.disk_memory.specs.Causes.{story_of, IsListed, Cause, Goes, Tells, IsMissing, HasNoRoom};
ghost use Rattle.disk_memory.specs.Stands.{sound_when};

use crate::clock::Turn;
use crate::disk::MemoryDisk;
use crate::fail::Call;
use crate::{files, listing, steps};
use disk_trait::{Disk, Failed, ListFault, PathText};

impl Disk for MemoryDisk {
    ghost story = { λ m. story_when m.calls.keep (directory_of m.start) (told m.calls) };

    ghost moment_of = { λ m. m.clock.moment };

    ghost faults_of = { λ m. m.clock.faults };

    ghost sound = { λ m. sound_when m.calls.keep (directory_of m.start) m.calls.entries.items m.clock.moment m.current };

    fn moment(&self) -> u64 {
        self.clock.moment
    }

    fn faults(&self) -> u64 {
        self.clock.faults
    }

    fn list(&mut self) -> Result<Vec<PathText>, ListFault>
        ensures same { story_of self.new ≡ story_of self.old }
        ensures paths { IfOk result (λ paths. WhereTold (story_of self.old) (Lists paths.items)) }
        ensures passes { Passes (moment_of self.old) (moment_of self.new) (faults_of self.old) (faults_of self.new) (IsErrOf result ListFault.Failed) }
        ensures cause { IsErrOf result ListFault.Failed → Cause self.old self.new Call.List [] [] ⊥ }
        ensures fine { OnOk result (faults_of self.new ≡ faults_of self.old) }
        ensures listed { moment_of self.old < last_moment → IsListed self.old Call.List [] [] → IsErrOf result ListFault.Failed }
        ensures counts { moment_of self.old < last_moment → fail_of self.new ≡ passed Call.List [] [] (fail_of self.old) }
    {
        match self.clock.begin(Call::List, "", "") {
            Turn::Over | Turn::Listed => Err(ListFault::Failed),
            Turn::Open => match listing::paths(self.alloc, &self.files) {
                Ok(paths) => Ok(paths),
                Err(_) => Err(ListFault::Memory),
            },
        }
    }

    fn size(&mut self, path: &str) -> Result<Option<u64>, Failed>
        ensures same { story_of self.new ≡ story_of self.old }
        ensures size { IfOk result (λ size. WhereTold (story_of self.old) (λ d. size ≡ option_map length (d path.now))) }
        ensures passes { Passes (moment_of self.old) (moment_of self.new) (faults_of self.old) (faults_of self.new) (IsErr result) }
        ensures goes { Goes self.old self.new Call.Size path.now path.now result ⊥ }
    {
        match self.clock.begin(Call::Size, path, path) {
            Turn::Over | Turn::Listed => Err(Failed),
            Turn::Open => Ok(files::size(&self.files, path)),
        }
    }

    fn read_at(&mut self, path: &str, at: u64, into: &mut [u8]) -> Result<usize, Failed>
        ensures same { story_of self.new ≡ story_of self.old }
        ensures bytes { IfOk result (λ n. WhereTold (story_of self.old) (λ d. Reads (unwrap_or (d path.now) []) at into.old into.new n)) }
        ensures within { IfOk result (λ n. n ≤ length into.old) }
        ensures passes { Passes (moment_of self.old) (moment_of self.new) (faults_of self.old) (faults_of self.new) (IsErr result) }
        ensures goes { Goes self.old self.new Call.ReadAt path.now path.now result ⊥ }
    {
        match self.clock.begin(Call::ReadAt, path, path) {
            Turn::Over | Turn::Listed => Err(Failed),
            Turn::Open => Ok(files::read(&self.files, path, at, into)),
        }
    }

    fn create(&mut self, path: &str) -> Result<bool, Failed>
        ensures acts { Acts (moment_of self.old) (story_of self.old) (story_of self.new) result (made path.now) (Undecided (made path.now)) }
        ensures free { IfOk result (λ free. WhereTold (story_of self.old) (λ d. free ≡ not (is_some (d path.now)))) }
        ensures passes { Passes (moment_of self.old) (moment_of self.new) (faults_of self.old) (faults_of self.new) (IsErr result) }
        ensures goes { Goes self.old self.new Call.Create path.now path.now result ⊥ }
        ensures tells { Tells self.old self.new Call.Create path.now path.now (failed (made path.now) false) }
    {
        match self.clock.begin(Call::Create, path, path) {
            Turn::Over => Err(Failed),
            Turn::Listed => {
                if self.calls.made(self.clock.moment, true, path).is_err() {
                    self.clock.lack();
                }
                Err(Failed)
            }
            Turn::Open => {
                let done = steps::create(
                    self.alloc,
                    &mut self.files,
                    &mut self.calls,
                    self.clock.moment,
                    path,
                );
                match done {
                    Ok(free) => Ok(free),
                    Err(_) => {
                        self.clock.fault();
                        self.clock.lack();
                        Err(Failed)
                    }
                }
            }
        }
    }

    fn remove(&mut self, path: &str) -> Result<bool, Failed>
        ensures acts { Acts (moment_of self.old) (story_of self.old) (story_of self.new) result (removed path.now) (Undecided (removed path.now)) }
        ensures there { IfOk result (λ there. WhereTold (story_of self.old) (λ d. there ≡ is_some (d path.now))) }
        ensures passes { Passes (moment_of self.old) (moment_of self.new) (faults_of self.old) (faults_of self.new) (IsErr result) }
        ensures goes { Goes self.old self.new Call.Remove path.now path.now result ⊥ }
        ensures tells { Tells self.old self.new Call.Remove path.now path.now (failed (removed path.now) false) }
    {
        match self.clock.begin(Call::Remove, path, path) {
            Turn::Over => Err(Failed),
            Turn::Listed => {
                if self.calls.removed(self.clock.moment, true, path).is_err() {
                    self.clock.lack();
                }
                Err(Failed)
            }
            Turn::Open => match steps::remove(
                &mut self.files,
                &mut self.calls,
                self.clock.moment,
                path,
            ) {
                Ok(there) => Ok(there),
                Err(_) => {
                    self.clock.fault();
                    self.clock.lack();
                    Err(Failed)
                }
            },
        }
    }

    fn rename(&mut self, from: &str, to: &str) -> Result<bool, Failed>
        ensures acts { Acts (moment_of self.old) (story_of self.old) (story_of self.new) result (moved from.now to.now) (Undecided (moved from.now to.now)) }
        ensures there { IfOk result (λ there. WhereTold (story_of self.old) (λ d. there ≡ is_some (d from.now))) }
        ensures passes { Passes (moment_of self.old) (moment_of self.new) (faults_of self.old) (faults_of self.new) (IsErr result) }
        ensures goes { Goes self.old self.new Call.Rename from.now to.now result ⊥ }
        ensures tells { Tells self.old self.new Call.Rename from.now to.now (failed (moved from.now to.now) false) }
    {
        match self.clock.begin(Call::Rename, from, to) {
            Turn::Over => Err(Failed),
            Turn::Listed => {
                if self.calls.moved(self.clock.moment, true, from, to).is_err() {
                    self.clock.lack();
                }
                Err(Failed)
            }
            Turn::Open => {
                let done = steps::rename(
                    self.alloc,
                    &mut self.files,
                    &mut self.calls,
                    self.clock.moment,
                    from,
                    to,
                );
                match done {
                    Ok(there) => Ok(there),
                    Err(_) => {
                        self.clock.fault();
                        self.clock.lack();
                        Err(Failed)
                    }
                }
            }
        }
    }

    fn write_at(&mut self, path: &str, at: u64, bytes: &[u8]) -> Result<(), Failed>
        requires { WhereTold (story_of self.old) (HasRoom path.now at) }
        ensures within { OnOk result (at + length bytes.now < 2 ^ 64) }
        ensures past { 2 ^ 64 ≤ at + length bytes.now → story_of self.new ≡ story_of self.old }
        ensures acts { Acts (moment_of self.old) (story_of self.old) (story_of self.new) result (wrote path.now at bytes.now) (Spoils (story_of self.old) path.now (inl (at, length bytes.now))) }
        ensures passes { Passes (moment_of self.old) (moment_of self.new) (faults_of self.old) (faults_of self.new) (IsErr result) }
        ensures goes { Goes self.old self.new Call.WriteAt path.now path.now result ((2 ^ 64 ≤ at + length bytes.now) ⊎ HasNoRoom self.old path.now at) }
        ensures tells { at + length bytes.now < 2 ^ 64 → Tells self.old self.new Call.WriteAt path.now path.now (did (tried path.now (inl (at, length bytes.now)))) }
    {
        match self.clock.begin(Call::WriteAt, path, path) {
            Turn::Over => Err(Failed),
            Turn::Listed => {
                if bytes.len() as u64 > u64::MAX - at {
                    return Err(Failed);
                }
                if self
                    .calls
                    .tried_write(self.clock.moment, path, at, bytes.len())
                    .is_err()
                {
                    self.clock.lack();
                }
                Err(Failed)
            }
            Turn::Open => {
                if bytes.len() as u64 > u64::MAX - at || !files::has_room(&self.files, path, at) {
                    self.clock.fault();
                    return Err(Failed);
                }
                let done = steps::write(
                    &mut self.files,
                    &mut self.calls,
                    self.clock.moment,
                    path,
                    at,
                    bytes,
                );
                match done {
                    Ok(()) => Ok(()),
                    Err(_) => {
                        self.clock.fault();
                        self.clock.lack();
                        Err(Failed)
                    }
                }
            }
        }
    }

    fn cut(&mut self, path: &str, size: u64) -> Result<(), Failed>
        requires { WhereTold (story_of self.old) (IsThere path.now) }
        ensures acts { Acts (moment_of self.old) (story_of self.old) (story_of self.new) result (shortened path.now size) (Spoils (story_of self.old) path.now (inr size)) }
        ensures passes { Passes (moment_of self.old) (moment_of self.new) (faults_of self.old) (faults_of self.new) (IsErr result) }
        ensures goes { Goes self.old self.new Call.Cut path.now path.now result (IsMissing self.old path.now) }
        ensures tells { Tells self.old self.new Call.Cut path.now path.now (did (tried path.now (inr size))) }
    {
        match self.clock.begin(Call::Cut, path, path) {
            Turn::Over => Err(Failed),
            Turn::Listed => {
                if self.calls.tried_cut(self.clock.moment, path, size).is_err() {
                    self.clock.lack();
                }
                Err(Failed)
            }
            Turn::Open => {
                if !files::is_there(&self.files, path) {
                    self.clock.fault();
                    return Err(Failed);
                }
                match steps::cut(
                    &mut self.files,
                    &mut self.calls,
                    self.clock.moment,
                    path,
                    size,
                ) {
                    Ok(()) => Ok(()),
                    Err(_) => {
                        self.clock.fault();
                        self.clock.lack();
                        Err(Failed)
                    }
                }
            }
        }
    }

    fn sync(&mut self, path: &str) -> Result<(), Failed>
        requires { WhereTold (story_of self.old) (IsThere path.now) }
        ensures acts { Acts (moment_of self.old) (story_of self.old) (story_of self.new) result (settled path.now) (NoEvent) }
        ensures passes { Passes (moment_of self.old) (moment_of self.new) (faults_of self.old) (faults_of self.new) (IsErr result) }
        ensures goes { Goes self.old self.new Call.Sync path.now path.now result (IsMissing self.old path.now) }
    {
        match self.clock.begin(Call::Sync, path, path) {
            Turn::Over | Turn::Listed => Err(Failed),
            Turn::Open => {
                if !files::is_there(&self.files, path) {
                    self.clock.fault();
                    return Err(Failed);
                }
                match self.calls.settled(self.clock.moment, path) {
                    Ok(()) => Ok(()),
                    Err(_) => {
                        self.clock.fault();
                        self.clock.lack();
                        Err(Failed)
                    }
                }
            }
        }
    }
}
