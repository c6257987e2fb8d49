// One operation on a file of the folder.
ghost use Rattle.std.specs.Prelude.{◌≤◌, length, IfOk};

use crate::folder::is_absent;
use std::fs::{File, Files, OpenFile, OpenOptions};
use std::io::{self, Read, Seek, SeekFrom, Write};

/// The size of a file; None where none is there. A folder is an error.
pub fn size<R: Files>(files: &R, place: &str) -> io::Result<Option<u64>> {
    match files.metadata(place) {
        Ok(metadata) if metadata.is_file() => Ok(Some(metadata.len())),
        Ok(_) => Err(io::Error::from(io::ErrorKind::IsADirectory)),
        Err(error) if is_absent(&error) => Ok(None),
        Err(error) => Err(error),
    }
}

/// Makes an empty file, and says whether the path was free. A folder there is an error.
pub fn create<R: Files>(files: &R, place: &str) -> io::Result<bool> {
    match File::create_new(files, place) {
        Ok(file) => {
            file.sync_all()?;
            Ok(true)
        }
        Err(error) if error.kind() == io::ErrorKind::AlreadyExists => {
            size(files, place)?;
            Ok(false)
        }
        Err(error) => Err(error),
    }
}

/// Removes a file, and says whether it was there.
pub fn remove<R: Files>(files: &R, place: &str) -> io::Result<bool> {
    match files.remove_file(place) {
        Ok(()) => Ok(true),
        Err(error) if is_absent(&error) => Ok(false),
        Err(error) => Err(error),
    }
}

/// Reads as many bytes as stand from a place and fit; none where no file is there.
pub fn read_at<R: Files>(files: &R, place: &str, at: u64, into: &mut [u8]) -> io::Result<usize>
    ensures { IfOk result (λ n. n ≤ length into.old) }
{
    match size(files, place)? {
        Some(size) if at < size => {
            let mut file = File::open(files, place)?;
            file.seek(SeekFrom::Start(at))?;
            read_full(&mut file, into)
        }
        _ => Ok(0),
    }
}

/// Reads until there is no more room or no more to read.
fn read_full<F: Read>(file: &mut F, into: &mut [u8]) -> io::Result<usize>
    ensures { IfOk result (λ n. n ≤ length into.old) }
{
    let mut count = 0;
    'reads: while count < into.len() {
        let read = file.read(&mut into[count..])?;
        if read == 0 {
            return Ok(count);
        }
        count += read;
    }
    Ok(count)
}

/// Writes bytes into a file that is there and reaches up to the place.
pub fn write_at<R: Files>(files: &R, place: &str, at: u64, bytes: &[u8]) -> io::Result<()> {
    match size(files, place)? {
        Some(size) if at <= size => {
            let mut file = OpenOptions::new().write(true).open(files, place)?;
            file.seek(SeekFrom::Start(at))?;
            file.write_all(bytes)
        }
        _ => Err(io::Error::from(io::ErrorKind::InvalidInput)),
    }
}

/// Keeps the first bytes of a file that is there.
pub fn cut<R: Files>(files: &R, place: &str, size: u64) -> io::Result<()> {
    let file = OpenOptions::new().write(true).open(files, place)?;
    if size < file.metadata()?.len() {
        file.set_len(size)?;
    }
    Ok(())
}

/// What was written into a file that is there stays.
pub fn sync<R: Files>(files: &R, place: &str) -> io::Result<()> {
    let file = OpenOptions::new().write(true).open(files, place)?;
    file.sync_all()
}
