// The folder as a disk: each call is counted, and each error is a fault.
ghost use Rattle.std.specs.Prelude.{◌≡◌, ◌≤◌, ◌<◌, ◌+◌, ◌^◌, None, length, IfOk, OnOk, OnErr, Ok};
ghost use Rattle.disk_trait.specs.Calls.{last_moment, next_count};

use crate::folder::Folders;
use crate::listing;
use crate::place::Place;
use disk_trait::{Disk, Failed, ListFault, PathText};
use std::alloc::{AllocError, Global};
use std::fs::Files;
use std::io;

/// A folder of the runtime's files as a disk. Paths are of two levels; a folder is made on need, and stays.
#[derive(Drop)]
pub struct HostDisk<R> {
    place: Place<R>,
    count: Count,
}

/// How many calls there were, and how many faults.
#[derive(Drop)]
struct Count {
    moment: u64,
    faults: u64,
}

impl Count {
    /// Begins a call. At the last moment it fails.
    fn begin(&mut self) -> Result<(), Failed>
        ensures moment { self.new.moment ≡ next_count self.old.moment }
        ensures onward { self.old.moment ≤ self.new.moment }
        ensures later { self.old.faults ≤ self.new.faults }
        ensures ok { OnOk result ((self.old.moment < last_moment) × (self.new.faults ≡ self.old.faults)) }
        ensures err { OnErr result ((self.old.moment ≡ last_moment) × (self.new.faults ≡ next_count self.old.faults)) }
    {
        if self.moment == u64::MAX {
            self.faults = self.faults.saturating_add(1);
            return Err(Failed);
        }
        self.moment += 1;
        Ok(())
    }

    /// Counts a fault.
    fn fail(&mut self) -> Failed
        ensures moment { self.new.moment ≡ self.old.moment }
        ensures faults { self.new.faults ≡ next_count self.old.faults }
        ensures later { self.old.faults ≤ self.new.faults }
    {
        self.faults = self.faults.saturating_add(1);
        Failed
    }
}

impl<R: Files + Clone + Drop + Send> HostDisk<R> {
    /// The folder as a disk. It need not be there.
    pub fn new(alloc: Global, files: R, folder: &str) -> Result<HostDisk<R>, AllocError>
        ensures moment { IfOk result (λ disk. ⟦<HostDisk<R> as Disk>⟧.moment_of disk ≡ 0) }
        ensures faults { IfOk result (λ disk. ⟦<HostDisk<R> as Disk>⟧.faults_of disk ≡ 0) }
    {
        Ok(HostDisk {
            place: Place {
                alloc,
                files,
                folder: folder.to_string(alloc)?,
                folders: Folders::new(alloc),
            },
            count: Count {
                moment: 0,
                faults: 0,
            },
        })
    }
}

impl<R: Files + Clone + Drop + Send> Disk for HostDisk<R> {
    ghost story = { λ _. None };

    ghost moment_of = { λ d. d.count.moment };

    ghost faults_of = { λ d. d.count.faults };

    ghost sound = { λ _. tt };

    fn moment(&self) -> u64 {
        self.count.moment
    }

    fn faults(&self) -> u64 {
        self.count.faults
    }

    fn list(&mut self) -> Result<Vec<PathText>, ListFault> {
        if self.count.begin().is_err() {
            return Err(ListFault::Failed);
        }
        match listing::paths(&self.place.files, self.place.alloc, &self.place.folder) {
            Ok(paths) => Ok(paths),
            Err(error) if error.kind() == io::ErrorKind::OutOfMemory => Err(ListFault::Memory),
            Err(_) => {
                self.count.fail();
                Err(ListFault::Failed)
            }
        }
    }

    fn size(&mut self, path: &str) -> Result<Option<u64>, Failed> {
        self.count.begin()?;
        match self.place.size(path) {
            Ok(answer) => Ok(answer),
            Err(_) => Err(self.count.fail()),
        }
    }

    fn read_at(&mut self, path: &str, at: u64, into: &mut [u8]) -> Result<usize, Failed> {
        self.count.begin()?;
        match self.place.read_at(path, at, into) {
            Ok(answer) => Ok(answer),
            Err(_) => Err(self.count.fail()),
        }
    }

    fn create(&mut self, path: &str) -> Result<bool, Failed> {
        self.count.begin()?;
        match self.place.create(path) {
            Ok(answer) => Ok(answer),
            Err(_) => Err(self.count.fail()),
        }
    }

    fn remove(&mut self, path: &str) -> Result<bool, Failed> {
        self.count.begin()?;
        match self.place.remove(path) {
            Ok(answer) => Ok(answer),
            Err(_) => Err(self.count.fail()),
        }
    }

    fn rename(&mut self, from: &str, to: &str) -> Result<bool, Failed> {
        self.count.begin()?;
        match self.place.rename(from, to) {
            Ok(answer) => Ok(answer),
            Err(_) => Err(self.count.fail()),
        }
    }

    fn write_at(&mut self, path: &str, at: u64, bytes: &[u8]) -> Result<(), Failed> {
        self.count.begin()?;
        if bytes.len() as u64 > u64::MAX - at {
            return Err(self.count.fail());
        }
        match self.place.write_at(path, at, bytes) {
            Ok(answer) => Ok(answer),
            Err(_) => Err(self.count.fail()),
        }
    }

    fn cut(&mut self, path: &str, size: u64) -> Result<(), Failed> {
        self.count.begin()?;
        match self.place.cut(path, size) {
            Ok(answer) => Ok(answer),
            Err(_) => Err(self.count.fail()),
        }
    }

    fn sync(&mut self, path: &str) -> Result<(), Failed> {
        self.count.begin()?;
        match self.place.sync(path) {
            Ok(answer) => Ok(answer),
            Err(_) => Err(self.count.fail()),
        }
    }
}
