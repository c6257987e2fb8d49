// The folders that paths lie in: made on need, and synced once what was made or removed in them is to stay.
use std::alloc::Global;
use std::fs::{File, Files, OpenFile};
use std::io;

/// The folder that a path lies in; an empty text where it lies in the current one.
pub fn parent(path: &str) -> &str {
    match path.rsplit_once('/') {
        Some((folder, _)) => folder,
        None => "",
    }
}

/// Whether an error says that nothing is at a path.
pub fn is_absent(error: &io::Error) -> bool {
    let kind = error.kind();
    kind == io::ErrorKind::NotFound || kind == io::ErrorKind::NotADirectory
}

/// Which folders were made, which were seen, and which are to be synced.
#[derive(Drop)]
pub struct Folders {
    alloc: Global,
    made: Names,
    seen: Names,
    dirty: Names,
}

impl Folders {
    /// No folder was seen yet.
    pub fn new(alloc: Global) -> Folders {
        Folders {
            alloc,
            made: Names::new(alloc),
            seen: Names::new(alloc),
            dirty: Names::new(alloc),
        }
    }

    /// The folder is to be synced: a file in it is being made, removed or renamed.
    pub fn change(&mut self, folder: &str) -> io::Result<()> {
        self.dirty.add(self.alloc, folder)?;
        self.seen.add(self.alloc, folder)
    }

    /// A folder that is seen for the first time is to be synced, since another program may have left it unsynced.
    pub fn see(&mut self, folder: &str) -> io::Result<()> {
        if self.seen.has(folder) {
            return Ok(());
        }
        self.change(folder)
    }

    /// Makes a folder where none is, the first time that it is wanted. The folder that it lies in is to be synced.
    pub fn make<R: Files>(&mut self, files: &R, folder: &str) -> io::Result<()> {
        if folder.is_empty() || self.made.has(folder) {
            return Ok(());
        }
        self.change(parent(folder))?;
        make_folder(files, folder)?;
        self.made.add(self.alloc, folder)
    }

    /// Syncs the folders that are to be synced. Where that fails they stay so.
    pub fn settle<R: Files>(&mut self, files: &R) -> io::Result<()> {
        'folders: for folder in &self.dirty.names {
            sync_folder(files, folder)?;
        }
        self.dirty.names.clear();
        Ok(())
    }

    /// Forgets what was made, since a call has failed and a folder may be gone. What is to be synced stays.
    pub fn forget_made(&mut self) {
        self.made.names.clear();
    }
}

/// Names of folders, each once.
#[derive(Drop)]
struct Names {
    names: Vec<String>,
}

impl Names {
    fn new(alloc: Global) -> Names {
        Names {
            names: Vec::new(alloc),
        }
    }

    fn has(&self, folder: &str) -> bool {
        self.names.iter().any(|name| name.as_str() == folder)
    }

    fn add(&mut self, alloc: Global, folder: &str) -> io::Result<()> {
        if !self.has(folder) {
            self.names.push(folder.to_string(alloc)?)?;
        }
        Ok(())
    }
}

fn make_folder<R: Files>(files: &R, folder: &str) -> io::Result<()> {
    match files.create_dir(folder) {
        Err(error) if error.kind() != io::ErrorKind::AlreadyExists => Err(error),
        _ => Ok(()),
    }
}

/// What was made or removed in a folder stays. A folder that isn't there has nothing to keep.
fn sync_folder<R: Files>(files: &R, folder: &str) -> io::Result<()> {
    let path = if folder.is_empty() { "." } else { folder };
    match File::open(files, path) {
        Ok(opened) => opened.sync_all(),
        Err(error) if is_absent(&error) => Ok(()),
        Err(error) => Err(error),
    }
}
