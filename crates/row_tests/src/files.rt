// Calls of a disk that ask first whether a file is there.
use disk_trait::{Disk, Failed, PathText};

/// Writes, where the file reaches up to the place.
pub fn write<D: Disk>(disk: &mut D, path: &str, at: u64, bytes: &[u8]) -> Result<(), Failed> {
    match disk.size(path)? {
        Some(size) if at <= size => disk.write_at(path, at, bytes),
        _ => Err(Failed),
    }
}

/// Cuts a file that is there.
pub fn cut<D: Disk>(disk: &mut D, path: &str, size: u64) -> Result<(), Failed> {
    match disk.size(path)? {
        Some(_) => disk.cut(path, size),
        None => Err(Failed),
    }
}

/// Syncs a file that is there.
pub fn sync<D: Disk>(disk: &mut D, path: &str) -> Result<(), Failed> {
    match disk.size(path)? {
        Some(_) => disk.sync(path),
        None => Err(Failed),
    }
}

/// Makes a file of some bytes, and syncs it, in five calls.
pub fn put<D: Disk>(disk: &mut D, path: &str, bytes: &[u8]) -> Result<(), Failed> {
    disk.create(path)?;
    write(disk, path, 0, bytes)?;
    sync(disk, path)
}

/// Whether these are the paths, in this order.
pub fn is_list(paths: &[PathText], want: &[&str]) -> bool {
    if paths.len() != want.len() {
        return false;
    }
    'paths: for i in 0..paths.len().min(want.len()) {
        if paths[i].as_str() != want[i] {
            return false;
        }
    }
    true
}
