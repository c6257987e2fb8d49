ghost use Rattle.std.specs.Prelude.{◌≡◌, IfOk, true};

use disk_memory::{FailAt, MemoryDisk};
use disk_trait::Disk;
use row_batch::Batch;
use row_store::{Committed, Got, RowFault, RowStore, RowsRefused, Scan, Scanned, Search};
use std::alloc::{AllocError, Global};
use std::test::Fail;

const PATH: &str = "#dd/dict";

/// The file after the first batch: a header of 64 bytes, an open gate, the length 30 and the batch, and a closed gate.
const FIRST_FILE: [u8; 104] = [
    0x64, 0x64, 0x20, 0x64, 0x69, 0x63, 0x74, 0x69, 0x6f, 0x6e, 0x61, 0x72, 0x79, 0x20, 0x38, 0x0a,
    0, 0, 0, 1, 0, 0, 0, 0, 0, 0, 0, 0, 0, 0, 0, 0, 0, 0, 0, 0, 0, 0, 0, 0, 0, 0, 0, 0, 0, 0, 0, 0,
    0, 0, 0, 0, 0, 0, 0, 0, 0, 0, 0, 0, 0, 0, 0, 0, 0x01, 0, 0, 0, 0, 0, 0, 0, 0x1e, 0, 0, 0, 0x02,
    0x01, 0, 0x03, 0x01, 0x64, 0x00, 0, 0, 0, 0x04, 0, 0, 0, 0x01, 0x01, 0, 0x01, 0x0a, 0, 0, 0,
    0x04, 0, 0, 0, 0x02, 0x00,
];

/// The rows of a first schema `d`: its number under its name, and the next number.
fn first_batch(alloc: Global) -> Result<Batch, AllocError>
    ensures { IfOk result (λ batch. batch.is_framed ≡ true) }
{
    let mut batch = Batch::new(alloc);
    batch.put(&[1, b'd', 0], &[0, 0, 0, 1])?;
    batch.put(&[10], &[0, 0, 0, 2])?;
    batch.frame()?;
    Ok(batch)
}

/// Makes a system file where none is, and commits a batch to it, in eight calls of the disk.
fn first_run<D: Disk>(alloc: Global, disk: &mut D, batch: &Batch) -> Result<Committed, RowFault>
    requires { batch.now.is_framed ≡ true }
{
    let Ok(None) = disk.size(PATH) else {
        return Err(RowFault::Memory);
    };
    match RowStore::make_rows(alloc, disk, PATH) {
        Ok(mut store) => Ok(store.commit(disk, batch)),
        Err(fault) => Err(fault),
    }
}

/// A disk after the first run.
fn first_disk(alloc: Global) -> Result<MemoryDisk, Fail> {
    let mut disk = MemoryDisk::new(alloc, Vec::new(alloc), true);
    let batch = first_batch(alloc)?;
    match first_run(alloc, &mut disk, &batch) {
        Ok(Committed::Done) => Ok(disk),
        _ => Err(Fail::from("the first run isn't done")),
    }
}

/// Whether the file has these bytes, and no more.
fn reads<D: Disk>(disk: &mut D, want: &[u8]) -> bool {
    let mut bytes = [0u8; 128];
    match disk.read_at(PATH, 0, &mut bytes) {
        Ok(count) => &bytes[..count] == want,
        Err(_) => false,
    }
}

#[test]
fn the_first_batch_is_written_byte_for_byte(rt: HostRuntime) -> Result<(), Fail> {
    let mut disk = first_disk(rt.alloc())?;
    assert!(rt; reads(&mut disk, FIRST_FILE.as_slice()));
    Ok(())
}

/// What a store says of the next number.
#[derive(Clone, Copy, Debug, PartialEq, Eq)]
enum Said {
    NoFile,
    NoRow,
    Two,
    Other,
}

fn ask<D: Disk>(alloc: Global, disk: &mut D) -> Said {
    let Ok(mut store) = RowStore::open_rows(alloc, disk, PATH) else {
        return Said::NoFile;
    };
    let Ok(mut search) = Search::new(alloc, &[10]) else {
        return Said::Other;
    };
    match store.get(disk, &mut search) {
        Ok(Got::None) => Said::NoRow,
        Ok(Got::Value(value)) if value.as_slice() == [0, 0, 0, 2].as_slice() => Said::Two,
        _ => Said::Other,
    }
}

/// What is said of the disk as a crash leaves it.
fn said_after(alloc: Global, disk: &MemoryDisk, moment: u64, choice: u64) -> Result<Said, Fail> {
    if !disk.keeps_record() || moment > disk.moment() {
        return Err(Fail::from("no such moment"));
    }
    let mut left = disk.stop(moment, choice)?;
    Ok(ask(alloc, &mut left))
}

/// Whether a crash may leave this: a file only once it is synced, by the fourth call, and the row from its gate on.
fn may_say(moment: u64, said: Said) -> bool {
    match said {
        Said::NoFile => moment < 4,
        Said::NoRow => moment < 8,
        Said::Two => moment >= 6,
        Said::Other => false,
    }
}

#[test]
fn a_crash_leaves_the_rows_of_before_or_after(rt: HostRuntime) -> Result<(), Fail> {
    let disk = first_disk(rt.alloc())?;
    for moment in 0..9 {
        for choice in [0, 1, 2, 7, 8] {
            let said = said_after(rt.alloc(), &disk, moment, choice)?;
            assert!(rt; may_say(moment, said), "{said:?} at {moment}, {choice}");
        }
    }
    Ok(())
}

#[test]
fn a_crash_may_leave_the_last_batch_out_until_the_gate_is_synced(
    rt: HostRuntime,
) -> Result<(), Fail> {
    let disk = first_disk(rt.alloc())?;
    for (moment, choice, want) in [
        (0, 0, Said::NoFile),
        (4, 0, Said::NoRow),
        (6, 0, Said::NoRow),
        (6, 1, Said::Two),
        (7, 0, Said::NoRow),
        (7, 1, Said::Two),
        (8, 0, Said::Two),
    ] {
        assert_eq!(rt; said_after(rt.alloc(), &disk, moment, choice)?, want);
    }
    Ok(())
}

/// What the first run comes to where the call with this number fails.
fn failing(alloc: Global, call: u64) -> Result<Result<Committed, RowFault>, Fail> {
    let mut fail = Vec::new(alloc);
    fail.push(FailAt::Call(call))?;
    let mut disk = MemoryDisk::new(alloc, fail, true);
    let batch = first_batch(alloc)?;
    Ok(first_run(alloc, &mut disk, &batch))
}

#[test]
fn each_call_that_fails_is_answered_with_its_cause(rt: HostRuntime) -> Result<(), Fail> {
    for (call, want) in [
        (2, Err(RowFault::Fault { count: 1 })),
        (3, Err(RowFault::Fault { count: 1 })),
        (4, Err(RowFault::Fault { count: 1 })),
        (5, Ok(Committed::Fault { count: 1 })),
        (6, Ok(Committed::Fault { count: 1 })),
        (7, Ok(Committed::Unsure { count: 1 })),
        (8, Ok(Committed::Unsure { count: 1 })),
        (9, Ok(Committed::Done)),
    ] {
        assert_eq!(rt; failing(rt.alloc(), call)?, want);
    }
    Ok(())
}

/// Why the file of the first run isn't opened where the call with this number fails.
fn failing_open(alloc: Global, call: u64) -> Result<Option<RowsRefused>, Fail> {
    let mut fail = Vec::new(alloc);
    fail.push(FailAt::Call(call))?;
    let mut disk = MemoryDisk::new(alloc, fail, true);
    let batch = first_batch(alloc)?;
    let Ok(Committed::Done) = first_run(alloc, &mut disk, &batch) else {
        return Err(Fail::from("the first run isn't done"));
    };
    Ok(RowStore::open_rows(alloc, &mut disk, PATH).err())
}

#[test]
fn each_call_that_fails_in_opening_is_answered_with_its_cause(rt: HostRuntime) -> Result<(), Fail> {
    for (call, want) in [
        (9, Some(RowsRefused::Fault { count: 1 })),
        (10, Some(RowsRefused::Fault { count: 1 })),
        (11, Some(RowsRefused::Fault { count: 1 })),
        (12, None),
    ] {
        assert_eq!(rt; failing_open(rt.alloc(), call)?, want);
    }
    Ok(())
}

/// How many rows stand under a prefix, and whether the scan then ends.
fn count_under<D: Disk>(alloc: Global, disk: &mut D, prefix: &[u8]) -> Option<usize> {
    let Ok(mut store) = RowStore::open_rows(alloc, disk, PATH) else {
        return None;
    };
    let Ok(mut scan) = Scan::new(alloc, prefix) else {
        return None;
    };
    let count = match store.scan(disk, &mut scan) {
        Ok(Scanned::Rows(rows)) => rows.len(),
        Ok(Scanned::End) => return Some(0),
        _ => return None,
    };
    match store.scan(disk, &mut scan) {
        Ok(Scanned::End) => Some(count),
        _ => None,
    }
}

#[test]
fn rows_are_scanned_under_a_prefix(rt: HostRuntime) -> Result<(), Fail> {
    let mut disk = first_disk(rt.alloc())?;
    for (prefix, want) in [
        ([].as_slice(), 2),
        (&[1], 1),
        (&[1, b'd', 0], 1),
        (&[1, b'e'], 0),
        (&[10], 1),
        (&[2], 0),
    ] {
        assert_eq!(rt; count_under(rt.alloc(), &mut disk, prefix), Some(want));
    }
    Ok(())
}

/// Rows whose keys lie close together.
fn close_rows(alloc: Global) -> Result<Batch, AllocError>
    ensures { IfOk result (λ batch. batch.is_framed ≡ true) }
{
    let mut batch = Batch::new(alloc);
    batch.put(&[3], &[9])?;
    batch.put(&[2, 1, 9, 9], &[9])?;
    batch.put(&[2, 1], &[9])?;
    batch.put(&[3, 0], &[9])?;
    batch.put(&[2, 0, 9], &[9])?;
    batch.frame()?;
    Ok(batch)
}

/// Deletions and puts as they come, with a key that is put twice and then deleted.
fn changes(alloc: Global) -> Result<Batch, AllocError>
    ensures { IfOk result (λ batch. batch.is_framed ≡ true) }
{
    let mut batch = Batch::new(alloc);
    batch.put(&[7], &[1])?;
    batch.put(&[2, 1, 5], &[2])?;
    batch.delete_prefix(&[2, 1])?;
    batch.put(&[7], &[4])?;
    batch.delete(&[7])?;
    batch.delete(&[3])?;
    batch.frame()?;
    Ok(batch)
}

/// A store with two batches in a new file.
fn two_runs<D: Disk>(
    alloc: Global,
    disk: &mut D,
    first: &Batch,
    second: &Batch,
) -> Result<RowStore, Fail>
    requires { (first.now.is_framed ≡ true) × (second.now.is_framed ≡ true) }
{
    let Ok(None) = disk.size(PATH) else {
        return Err(Fail::new("there is a file"));
    };
    let Ok(mut store) = RowStore::make_rows(alloc, disk, PATH) else {
        return Err(Fail::new("no file is made"));
    };
    let Committed::Done = store.commit(disk, first) else {
        return Err(Fail::new("the first batch isn't done"));
    };
    let Committed::Done = store.commit(disk, second) else {
        return Err(Fail::new("the second batch isn't done"));
    };
    Ok(store)
}

/// The rows of a store: each key, 254, its value and 255.
fn rows_of<D: Disk>(alloc: Global, disk: &mut D, store: &mut RowStore) -> Result<Vec<u8>, Fail> {
    let mut scan = Scan::new(alloc, &[])?;
    let mut bytes = Vec::new(alloc);
    if let Ok(Scanned::Rows(rows)) = store.scan(disk, &mut scan) {
        for row in &rows {
            bytes.extend_from_slice(row.0.as_slice())?;
            bytes.push(254)?;
            bytes.extend_from_slice(row.1.as_slice())?;
            bytes.push(255)?;
        }
    }
    Ok(bytes)
}

#[test]
fn deletions_go_before_puts_and_the_last_put_counts(rt: HostRuntime) -> Result<(), Fail> {
    let left: [u8; 21] = [
        2, 0, 9, 254, 9, 255, 2, 1, 5, 254, 2, 255, 3, 0, 254, 9, 255, 7, 254, 4, 255,
    ];
    let alloc = rt.alloc();
    let mut disk = MemoryDisk::new(alloc, Vec::new(alloc), false);
    let mut store = two_runs(alloc, &mut disk, &close_rows(alloc)?, &changes(alloc)?)?;
    let now = rows_of(alloc, &mut disk, &mut store)?;
    assert_eq!(rt; now.as_slice(), left.as_slice());
    let Ok(mut again) = RowStore::open_rows(alloc, &mut disk, PATH) else {
        return Err(Fail::new("the file isn't opened"));
    };
    let read = rows_of(alloc, &mut disk, &mut again)?;
    assert_eq!(rt; read.as_slice(), left.as_slice());
    Ok(())
}
