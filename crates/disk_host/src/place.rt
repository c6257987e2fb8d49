// The folder, and the operations on the files in it by their paths.
ghost use Rattle.std.specs.Prelude.{◌≤◌, length, IfOk};

use crate::folder::{Folders, parent};
use crate::store;
use std::alloc::Global;
use std::fs::Files;
use std::io;

/// A folder of the runtime's files. Whatever a create, remove or rename answers with Ok, that stays.
#[derive(Drop)]
pub struct Place<R> {
    pub alloc: Global,
    pub files: R,
    pub folder: String,
    pub folders: Folders,
}

impl<R: Files> Place<R> {
    /// Where a path lies.
    fn of(&self, path: &str) -> io::Result<String> {
        let folder = self.folder.as_str();
        Ok(format!(in self.alloc; "{folder}/{path}")?)
    }

    /// The size of a file; None where none is there.
    pub fn size(&self, path: &str) -> io::Result<Option<u64>> {
        store::size(&self.files, &self.of(path)?)
    }

    /// Reads as many bytes as stand from a place and fit; none where no file is there.
    pub fn read_at(&self, path: &str, at: u64, into: &mut [u8]) -> io::Result<usize>
        ensures { IfOk result (λ n. n ≤ length into.old) }
    {
        let place = self.of(path)?;
        store::read_at(&self.files, &place, at, into)
    }

    /// Makes an empty file, and says whether the path was free.
    pub fn create(&mut self, path: &str) -> io::Result<bool> {
        let place = self.of(path)?;
        self.folders.make(&self.files, &self.folder)?;
        self.make_room(&place)?;
        match store::create(&self.files, &place) {
            Ok(is_free) => {
                self.folders.settle(&self.files)?;
                Ok(is_free)
            }
            Err(error) => {
                self.folders.forget_made();
                Err(error)
            }
        }
    }

    /// Makes the folder of a file that is to come to a place.
    fn make_room(&mut self, place: &str) -> io::Result<()> {
        self.folders.make(&self.files, parent(place))?;
        self.folders.change(parent(place))
    }

    /// Removes a file, and says whether it was there.
    pub fn remove(&mut self, path: &str) -> io::Result<bool> {
        let place = self.of(path)?;
        self.folders.change(parent(&place))?;
        let is_there = store::remove(&self.files, &place)?;
        self.folders.settle(&self.files)?;
        Ok(is_there)
    }

    /// Gives a file another path, and says whether it was there.
    pub fn rename(&mut self, from: &str, to: &str) -> io::Result<bool> {
        let from = self.of(from)?;
        let to = self.of(to)?;
        self.folders.see(parent(&from))?;
        self.folders.see(parent(&to))?;
        let is_there = store::size(&self.files, &from)?.is_some();
        if is_there {
            self.move_over(&from, &to)?;
        }
        self.folders.settle(&self.files)?;
        Ok(is_there)
    }

    fn move_over(&mut self, from: &str, to: &str) -> io::Result<()> {
        self.make_room(to)?;
        self.folders.change(parent(from))?;
        self.files.rename(from, to)
    }

    /// Writes bytes into a file that reaches up to the place.
    pub fn write_at(&self, path: &str, at: u64, bytes: &[u8]) -> io::Result<()> {
        store::write_at(&self.files, &self.of(path)?, at, bytes)
    }

    /// Keeps the first bytes of a file.
    pub fn cut(&self, path: &str, size: u64) -> io::Result<()> {
        store::cut(&self.files, &self.of(path)?, size)
    }

    /// What was written into a file stays, and what was made or removed and isn't synced yet.
    pub fn sync(&mut self, path: &str) -> io::Result<()> {
        let place = self.of(path)?;
        store::sync(&self.files, &place)?;
        self.folders.see(parent(&place))?;
        self.folders.settle(&self.files)
    }
}
