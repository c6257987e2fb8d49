// The paths of the folder, of two levels.
use crate::folder::is_absent;
use disk_trait::PathText;
use std::alloc::Global;
use std::fs::Files;
use std::io::{self, Read};

/// All the paths, in byte order. A folder that isn't there has none; a folder in a folder of it is one path.
pub fn paths<R: Files>(files: &R, alloc: Global, folder: &str) -> io::Result<Vec<PathText>> {
    let mut found = Vec::new(alloc);
    'names: for name in names_in(files, alloc, folder)? {
        let place = format!(in alloc; "{folder}/{name}")?;
        if files.symlink_metadata(&place)?.is_dir() {
            add_names(files, alloc, &place, &name, &mut found)?;
        } else {
            found.push(name)?;
        }
    }
    found.sort()?;
    to_paths(alloc, &found)
}

/// Adds the paths of a folder in the folder.
fn add_names<R: Files>(
    files: &R,
    alloc: Global,
    place: &str,
    name: &str,
    found: &mut Vec<String>,
) -> io::Result<()> {
    'inner: for inner in names_in(files, alloc, place)? {
        found.push(format!(in alloc; "{name}/{inner}")?)?;
    }
    Ok(())
}

fn to_paths(alloc: Global, found: &[String]) -> io::Result<Vec<PathText>> {
    let mut paths = Vec::new(alloc);
    'found: for path in found {
        paths.push(PathText::of(alloc, path.as_str())?)?;
    }
    Ok(paths)
}

/// The names in a folder. One that isn't UTF-8 is an error.
fn names_in<R: Files>(files: &R, alloc: Global, folder: &str) -> io::Result<Vec<String>> {
    let place = format!(in alloc; "{folder}/")?;
    let mut dir = match files.open_dir(&place) {
        Ok(dir) => dir,
        Err(error) if is_absent(&error) => return Ok(Vec::new(alloc)),
        Err(error) => return Err(error),
    };
    let mut bytes = Vec::new(alloc);
    dir.read_to_end(&mut bytes)?;
    split_names(alloc, &bytes)
}

/// The names of a folder, each of which is ended by a zero byte.
fn split_names(alloc: Global, bytes: &[u8]) -> io::Result<Vec<String>> {
    let Ok(text) = str::from_utf8(bytes) else {
        return Err(io::Error::from(io::ErrorKind::InvalidFilename));
    };
    let mut names = Vec::new(alloc);
    'names: for name in text.split('\0') {
        if !(name.is_empty() || name == "." || name == "..") {
            names.push(name.to_string(alloc)?)?;
        }
    }
    Ok(names)
}
