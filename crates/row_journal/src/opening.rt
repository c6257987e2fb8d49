// A journal is opened by reading its file.
ghost use Rattle.std.specs.Prelude.{◌≡◌, ◌≤◌, ◌<◌, ◌+◌, ◌^◌, None, List, [], ℕ, length, drop, IfOk, IfErr, MatchResult};
ghost use Rattle.std.specs.List.{AllByRecursion};
ghost use Rattle.std.specs.Option.{unwrap_or};
ghost use Rattle.disk_trait.specs.Story.{WhereTold};
ghost use Rattle.row_batch.specs.declared.operation.Operation.{Operation};
ghost use Rattle.row_journal.specs.Contents.{gated, IsSized};
ghost use Rattle.row_journal.specs.Value.{EndsAt, Stands};
ghost use Rattle.row_journal.specs.Append.{Has};
ghost use Rattle.row_journal.specs.Opening.{operations_of, IsMalformed, IsFaultOf, IsOutside, IsNoOtherThan, HasCount};

use crate::reading::{Contents, read_gates};
use crate::{Journal, JournalFault};
use disk_trait::{Disk, PathText};
use row_batch::Batch;
use std::alloc::Global;

/// A journal that was opened, and the batches that its file holds, in their order.
#[derive(Drop)]
pub struct Opened {
    pub journal: Journal,
    pub batches: Vec<Batch>,
}

/// Reads as many bytes of a file from a place on as are there, at most `count`.
fn read_some<D: Disk>(
    alloc: Global,
    disk: &mut D,
    path: &str,
    at: u64,
    count: u64,
) -> Result<Vec<u8>, JournalFault>
    requires { at + count < 2 ^ 64 }
    ensures same { D.story disk.new ≡ D.story disk.old }
    ensures bytes { IfOk result (λ bytes. WhereTold (D.story disk.old) (λ d. length (drop at (unwrap_or (d path.now) [])) ≤ count → bytes.items ≡ drop at (unwrap_or (d path.now) []))) }
    ensures size { IfOk result (λ bytes. at + length bytes.items < 2 ^ 64) }
    ensures outside { IfErr result (λ fault. IsOutside fault) }
    ensures onward { D.moment_of disk.old ≤ D.moment_of disk.new }
    ensures calls { D.moment_of disk.new ≤ D.moment_of disk.old + 1 }
    ensures later { D.faults_of disk.old ≤ D.faults_of disk.new }
    ensures count { IfErr result (λ fault. HasCount fault (D.faults_of disk.old) (D.faults_of disk.new)) }
{
    let mut bytes = vec![in alloc; 0u8; count as usize]?;
    match disk.read_at(path, at, bytes.as_mut_slice()) {
        Ok(read) => {
            bytes.truncate(read);
            Ok(bytes)
        }
        Err(_) => Err(JournalFault::Fault {
            count: disk.faults(),
        }),
    }
}

/// The bytes of a file from a place on; none where no file is there.
fn rest_of<D: Disk>(
    alloc: Global,
    disk: &mut D,
    path: &str,
    at: u64,
) -> Result<Vec<u8>, JournalFault>
    ensures same { D.story disk.new ≡ D.story disk.old }
    ensures bytes { IfOk result (λ bytes. WhereTold (D.story disk.old) (λ d. bytes.items ≡ drop at (unwrap_or (d path.now) []))) }
    ensures size { IfOk result (λ bytes. at + length bytes.items < 2 ^ 64) }
    ensures outside { IfErr result (λ fault. IsOutside fault) }
    ensures onward { D.moment_of disk.old ≤ D.moment_of disk.new }
    ensures calls { D.moment_of disk.new ≤ D.moment_of disk.old + 2 }
    ensures later { D.faults_of disk.old ≤ D.faults_of disk.new }
    ensures count { IfErr result (λ fault. HasCount fault (D.faults_of disk.old) (D.faults_of disk.new)) }
{
    match disk.size(path) {
        Ok(None) => Ok(Vec::new(alloc)),
        Ok(Some(size)) => read_some(alloc, disk, path, at, size.saturating_sub(at)),
        Err(_) => Err(JournalFault::Fault {
            count: disk.faults(),
        }),
    }
}

/// The batches of a file from a place on.
fn contents_of<D: Disk>(
    alloc: Global,
    disk: &mut D,
    path: &str,
    at: u64,
) -> Result<Contents, JournalFault>
    ensures same { D.story disk.new ≡ D.story disk.old }
    ensures ends { IfOk result (λ contents. WhereTold (D.story disk.old) (EndsAt path.now at contents.end (operations_of contents.batches.items))) }
    ensures end { IfOk result (λ contents. contents.end ≡ at + length (gated (operations_of contents.batches.items))) }
    ensures batches { IfOk result (λ contents. AllByRecursion IsSized (operations_of contents.batches.items)) }
    ensures malformed { IfErr result (λ fault. WhereTold (D.story disk.old) (λ d. IsFaultOf at (d path.now) fault)) }
    ensures onward { D.moment_of disk.old ≤ D.moment_of disk.new }
    ensures calls { D.moment_of disk.new ≤ D.moment_of disk.old + 2 }
    ensures later { D.faults_of disk.old ≤ D.faults_of disk.new }
    ensures count { IfErr result (λ fault. HasCount fault (D.faults_of disk.old) (D.faults_of disk.new)) }
{
    match rest_of(alloc, disk, path, at) {
        Ok(bytes) => read_gates(alloc, &bytes, at),
        Err(fault) => Err(fault),
    }
}

/// Opens the journal whose first gate is at a place of a file, and reads its batches. It makes two calls of the disk at most,
/// which change nothing.
pub fn open_journal<D: Disk>(
    alloc: Global,
    disk: &mut D,
    path: &str,
    at: u64,
) -> Result<Opened, JournalFault>
    ensures same { D.story disk.new ≡ D.story disk.old }
    // The file holds the batches that are answered, up to the journal's end.
    ensures stands { IfOk result (λ opened. WhereTold (D.story disk.old) (Stands opened.journal (operations_of opened.batches.items))) }
    ensures journal { IfOk result (λ opened. opened.journal ≡ record { path = path.now; at = at; end = at + length (gated (operations_of opened.batches.items)); fault = None }) }
    // What is answered are batches, also where the disk doesn't tell the file.
    ensures batches { IfOk result (λ opened. AllByRecursion IsSized (operations_of opened.batches.items)) }
    ensures malformed { IfErr result (λ fault. WhereTold (D.story disk.old) (λ d. IsFaultOf at (d path.now) fault)) }
    // A file that holds batches opens with just these, and one with a fault is refused at no other place.
    ensures found { WhereTold (D.story disk.old) (λ d. (batches : List (List Operation)) → Has at batches (d path.now)
        → MatchResult result (λ opened. operations_of opened.batches.items ≡ batches) (λ fault. IsOutside fault)) }
    ensures refused { WhereTold (D.story disk.old) (λ d. (place : ℕ) → IsMalformed at place (d path.now)
        → MatchResult result (λ _. ⊥) (λ fault. IsNoOtherThan place fault)) }
    ensures onward { D.moment_of disk.old ≤ D.moment_of disk.new }
    ensures calls { D.moment_of disk.new ≤ D.moment_of disk.old + 2 }
    ensures later { D.faults_of disk.old ≤ D.faults_of disk.new }
    ensures count { IfErr result (λ fault. HasCount fault (D.faults_of disk.old) (D.faults_of disk.new)) }
{
    match contents_of(alloc, disk, path, at) {
        Ok(contents) => match PathText::of(alloc, path) {
            Ok(path) => Ok(Opened {
                journal: Journal::of(path, at, contents.end),
                batches: contents.batches,
            }),
            Err(_) => Err(JournalFault::Memory),
        },
        Err(fault) => Err(fault),
    }
}
