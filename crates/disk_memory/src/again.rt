// A call that was noted, done again: on what the disk read, and on what a crash then would leave.
ghost use Rattle.std.specs.Prelude.{◌≡◌, ℕ, List, length, OnOk, IfOk};
ghost use Rattle.disk_trait.specs.Change.{reads_after};
ghost use Rattle.disk_memory.specs.Record.{directory_of, change_of};
ghost use Rattle.disk_memory.specs.Replay.{Tears, Fills};
ghost use Rattle.std.specs.Map.{update};
ghost use Rattle.std.specs.Str.{bytes_eq};

use crate::files::{self, Files};
use crate::record::Did;
use std::alloc::{AllocError, Global};

/// Does a call again.
pub fn redo(alloc: Global, reads: &mut Files, call: &Did) -> Result<(), AllocError>
    ensures { OnOk result ((q : List ℕ) → directory_of reads.new q ≡ reads_after (change_of call.now) (directory_of reads.old) q) }
{
    match call {
        Did::Made(path) => {
            files::create(alloc, reads, path.as_str())?;
            Ok(())
        }
        Did::Removed(path) => {
            files::remove(reads, path.as_str());
            Ok(())
        }
        Did::Moved(from, to) => {
            files::rename(alloc, reads, from.as_str(), to.as_str())?;
            Ok(())
        }
        Did::Wrote(path, at, bytes) => files::lay(reads, path.as_str(), *at, bytes),
        Did::Cut(path, size) => {
            files::shorten(reads, path.as_str(), *size);
            Ok(())
        }
        Did::TriedWrite(_, _, _) | Did::TriedCut(_, _) | Did::Settled(_) => Ok(()),
    }
}

/// Does to what a crash leaves what a crash then makes of a call: by the choice nothing, all, or something else of what is
/// not synced.
pub fn tear(
    alloc: Global,
    reads: &Files,
    torn: &mut Files,
    call: &Did,
    choice: u64,
) -> Result<(), AllocError>
    ensures { OnOk result (Tears choice (directory_of reads.now) (change_of call.now) (directory_of torn.old) (directory_of torn.new)) }
{
    match call {
        Did::Made(_) | Did::Removed(_) | Did::Moved(_, _) => redo(alloc, torn, call),
        Did::Wrote(path, at, bytes) => match choice {
            0 => Ok(()),
            1 => files::lay(torn, path.as_str(), *at, bytes),
            _ => fill(alloc, torn, path.as_str(), *at, bytes.len(), choice),
        },
        Did::Cut(path, size) => {
            if choice > 0 {
                files::shorten(torn, path.as_str(), *size);
            }
            Ok(())
        }
        Did::TriedWrite(path, at, size) => match choice {
            0 | 1 => Ok(()),
            _ => fill(alloc, torn, path.as_str(), *at, *size, choice),
        },
        Did::TriedCut(path, size) => {
            if choice > 1 {
                files::shorten(torn, path.as_str(), *size);
            }
            Ok(())
        }
        Did::Settled(path) => settle(alloc, reads, torn, path.as_str()),
    }
}

/// Leaves a file as it reads.
fn settle(alloc: Global, reads: &Files, torn: &mut Files, path: &str) -> Result<(), AllocError>
    ensures { OnOk result ((q : List ℕ) → directory_of torn.new q ≡ update bytes_eq (directory_of torn.old) path.now (directory_of reads.now path.now) q) }
{
    match reads.get(path) {
        Some(bytes) => files::put(alloc, torn, path, bytes),
        None => {
            files::remove(torn, path);
            Ok(())
        }
    }
}

/// Writes so many bytes that depend on the choice.
fn fill(
    alloc: Global,
    torn: &mut Files,
    path: &str,
    at: u64,
    size: usize,
    choice: u64,
) -> Result<(), AllocError>
    ensures { OnOk result (Fills path.now at size (directory_of torn.old) (directory_of torn.new)) }
{
    let bytes = some_bytes(alloc, size, choice)?;
    files::lay(torn, path, at, &bytes)
}

/// So many bytes of a generator, by a number.
fn some_bytes(alloc: Global, size: usize, choice: u64) -> Result<Vec<u8>, AllocError>
    ensures { IfOk result (λ bytes. length bytes.items ≡ size) }
{
    let mut bytes = Vec::new(alloc);
    let mut state = choice;
    'bytes: for _ in 0..size {
        state = state
            .wrapping_mul(6364136223846793005)
            .wrapping_add(1442695040888963407);
        bytes.push((state >> 56) as u8)?;
    }
    Ok(bytes)
}
