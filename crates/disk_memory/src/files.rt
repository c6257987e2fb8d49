// The files of a disk in memory, as a directory.
ghost use Rattle.std.specs.Prelude.{◌≡◌, ◌≤◌, ◌<◌, ◌+◌, ◌^◌, ◌∷◌, ◌↔◌, [], ℕ, List, Some, None, length, take, true, false, not, is_some, OnOk, OnErr, IfOk, IfErr, IsTrue};
ghost use Rattle.std.specs.Option.{option_map, unwrap_or};
ghost use Rattle.std.specs.Map.{update};
ghost use Rattle.std.specs.Str.{bytes_eq};
ghost use Rattle.disk_trait.specs.Change.{linked, unlinked, relinked, overlaid, reads_after, made, removed, moved, wrote, cut};
ghost use Rattle.disk_trait.specs.Calls.{Reads, HasRoom};
ghost use Rattle.disk_memory.specs.Record.{directory_of};

use std::alloc::{AllocError, Global};
use std::collections::BTreeMap;

/// The bytes of each file, by its path.
pub type Files = BTreeMap<String, Vec<u8>>;

/// Whether a file is there.
pub fn is_there(files: &Files, path: &str) -> bool
    ensures { result ≡ is_some (directory_of files.now path.now) }
{
    files.contains_key(path)
}

/// Whether a file is there and reaches up to a place.
pub fn has_room(files: &Files, path: &str, at: u64) -> bool
    ensures { IsTrue result ↔ HasRoom path.now at (directory_of files.now) }
{
    match files.get(path) {
        Some(file) => at <= file.len() as u64,
        None => false,
    }
}

/// The size of a file, if it is there.
pub fn size(files: &Files, path: &str) -> Option<u64>
    ensures { result ≡ option_map length (directory_of files.now path.now) }
{
    match files.get(path) {
        Some(file) => Some(file.len() as u64),
        None => None,
    }
}

/// Reads as many bytes as stand from a place and fit, none where no file is there.
pub fn read(files: &Files, path: &str, at: u64, into: &mut [u8]) -> usize
    ensures { Reads (unwrap_or (directory_of files.now path.now) []) at into.old into.new result }
{
    match files.get(path) {
        Some(file) => read_into(file, at, into),
        None => 0,
    }
}

/// Makes an empty file where none is, and says whether it did.
pub fn create(alloc: Global, files: &mut Files, path: &str) -> Result<bool, AllocError>
    ensures free { IfOk result (λ free. free ≡ not (is_some (directory_of files.old path.now))) }
    ensures ok { OnOk result ((q : List ℕ) → directory_of files.new q ≡ reads_after (made path.now) (directory_of files.old) q) }
    ensures err { OnErr result ((q : List ℕ) → directory_of files.new q ≡ directory_of files.old q) }
{
    if files.contains_key(path) {
        return Ok(false);
    }
    files.insert(path.to_string(alloc)?, Vec::new(alloc))?;
    Ok(true)
}

/// Removes a file, and says whether it was there.
pub fn remove(files: &mut Files, path: &str) -> bool
    ensures there { result ≡ is_some (directory_of files.old path.now) }
    ensures ok { (q : List ℕ) → directory_of files.new q ≡ reads_after (removed path.now) (directory_of files.old) q }
{
    files.remove(path).is_some()
}

/// Writes bytes over those from a place on, and behind the end.
fn overwrite(file: &mut Vec<u8>, at: usize, bytes: &[u8]) -> Result<(), AllocError>
    requires { at ≤ length file.old.items }
    ensures ok { OnOk result (file.new.items ≡ overlaid at bytes.now file.old.items) }
    ensures err { OnErr result (file.new.items ≡ file.old.items) }
{
    let room = file.len() - at;
    let inside = if bytes.len() < room {
        bytes.len()
    } else {
        room
    };
    file.extend_from_slice(&bytes[inside..])?;
    file[at..at + inside].copy_from_slice(&bytes[..inside]);
    Ok(())
}

/// Writes bytes into a file that reaches up to a place.
pub fn write(files: &mut Files, path: &str, at: usize, bytes: &[u8]) -> Result<(), AllocError>
    requires { (file : List ℕ) → directory_of files.old path.now ≡ Some file → at ≤ length file }
    ensures ok { OnOk result ((q : List ℕ) → directory_of files.new q ≡ reads_after (wrote path.now at bytes.now) (directory_of files.old) q) }
    ensures err { OnErr result ((q : List ℕ) → directory_of files.new q ≡ directory_of files.old q) }
{
    match files.get_mut(path) {
        Some(file) => overwrite(file, at, bytes),
        None => Ok(()),
    }
}

/// A copy of all the files.
pub fn copy(files: &Files) -> Result<Files, AllocError>
    ensures { IfOk result (λ copy. (q : List ℕ) → directory_of copy q ≡ directory_of files.now q) }
{
    match files.clone() {
        Ok(copy) => Ok(copy),
        Err(refused) => Err(refused),
    }
}

/// Bytes written over others, or behind them where there are fewer.
fn overlay(file: &mut Vec<u8>, at: u64, bytes: &[u8]) -> Result<(), AllocError>
    ensures ok { OnOk result (file.new.items ≡ overlaid at bytes.now file.old.items) }
    ensures err { OnErr result (file.new.items ≡ file.old.items) }
{
    let len = file.len();
    let place = if at < len as u64 { at as usize } else { len };
    overwrite(file, place, bytes)
}

/// Writes bytes into a file, behind its end where it has fewer.
pub fn lay(files: &mut Files, path: &str, at: u64, bytes: &[u8]) -> Result<(), AllocError>
    ensures ok { OnOk result ((q : List ℕ) → directory_of files.new q ≡ reads_after (wrote path.now at bytes.now) (directory_of files.old) q) }
{
    match files.get_mut(path) {
        Some(file) => overlay(file, at, bytes),
        None => Ok(()),
    }
}

/// Puts a file in the place of any that is there.
pub fn put(alloc: Global, files: &mut Files, path: &str, bytes: &[u8]) -> Result<(), AllocError>
    ensures { OnOk result ((q : List ℕ) → directory_of files.new q ≡ update bytes_eq (directory_of files.old) path.now (Some bytes.now) q) }
{
    files.insert(path.to_string(alloc)?, bytes.to_vec(alloc)?)?;
    Ok(())
}

/// Puts bytes in the place of those of a file.
fn replace(files: &mut Files, path: &str, bytes: Vec<u8>)
    requires { is_some (directory_of files.old path.now) ≡ true }
    ensures { (q : List ℕ) → directory_of files.new q ≡ update bytes_eq (directory_of files.old) path.now (Some bytes.items) q }
{
    if let Some(file) = files.get_mut(path) {
        *file = bytes;
    }
}

/// Moves a file to another path, at which a file is.
fn move_over(files: &mut Files, from: &str, to: &str)
    requires apart { bytes_eq from.now to.now ≡ false }
    requires there { is_some (directory_of files.old to.now) ≡ true }
    ensures { (q : List ℕ) → directory_of files.new q ≡ reads_after (moved from.now to.now) (directory_of files.old) q }
{
    if let Some(bytes) = files.remove(from) {
        replace(files, to, bytes);
    }
}

/// Gives a file another path, and says whether it was there.
pub fn rename(alloc: Global, files: &mut Files, from: &str, to: &str) -> Result<bool, AllocError>
    ensures there { IfOk result (λ there. there ≡ is_some (directory_of files.old from.now)) }
    ensures ok { OnOk result ((q : List ℕ) → directory_of files.new q ≡ reads_after (moved from.now to.now) (directory_of files.old) q) }
    ensures err { OnErr result ((q : List ℕ) → directory_of files.new q ≡ directory_of files.old q) }
{
    if !files.contains_key(from) {
        return Ok(false);
    }
    if from == to {
        return Ok(true);
    }
    create(alloc, files, to)?;
    move_over(files, from, to);
    Ok(true)
}

/// Keeps the first bytes of a file.
pub fn shorten(files: &mut Files, path: &str, size: u64)
    ensures { (q : List ℕ) → directory_of files.new q ≡ reads_after (cut path.now size) (directory_of files.old) q }
{
    if let Some(file) = files.get_mut(path) {
        truncate(file, size);
    }
}

fn truncate(file: &mut Vec<u8>, size: u64)
    ensures { file.new.items ≡ take size file.old.items }
{
    if size < file.len() as u64 {
        file.truncate(size as usize);
    }
}

fn read_into(file: &[u8], at: u64, into: &mut [u8]) -> usize
    ensures { Reads file.now at into.old into.new result }
{
    if at >= file.len() as u64 {
        return 0;
    }
    let rest = &file[at as usize..];
    let n = if into.len() < rest.len() {
        into.len()
    } else {
        rest.len()
    };
    into[..n].copy_from_slice(&rest[..n]);
    n
}
