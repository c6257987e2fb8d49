use crate::files::put;
use disk_memory::MemoryDisk;
use row_journal::{JournalFault, open_journal};
use std::alloc::Global;
use std::test::Fail;

/// A batch of two puts behind an open gate and its length.
const OPEN_BATCH: &[u8] = &[
    1, 0, 0, 0, 0, 0, 0, 0, 30, 0, 0, 0, 2, 1, 0, 3, 1, 100, 0, 0, 0, 0, 4, 0, 0, 0, 1, 1, 0, 1,
    10, 0, 0, 0, 4, 0, 0, 0, 2,
];

/// How many batches a journal of these pieces holds, or the fault that it is refused for.
fn opened(alloc: Global, pieces: &[&[u8]]) -> Result<Result<usize, JournalFault>, Fail> {
    let mut bytes = Vec::new(alloc);
    for piece in pieces {
        bytes.extend_from_slice(piece)?;
    }
    let mut disk = MemoryDisk::new(alloc, Vec::new(alloc), false);
    put(&mut disk, "j", &bytes)?;
    match open_journal(alloc, &mut disk, "j", 0) {
        Ok(opened) => Ok(Ok(opened.batches.len())),
        Err(fault) => Ok(Err(fault)),
    }
}

fn malformed(at: u64) -> Result<usize, JournalFault> {
    Err(JournalFault::Malformed { at })
}

#[test]
fn a_journal_ends_at_its_first_closed_gate(rt: HostRuntime) -> Result<(), Fail> {
    for (pieces, expected) in [
        ([[0].as_slice(), &[]], Ok(0)),
        ([&[2], OPEN_BATCH], Ok(0)),
        ([OPEN_BATCH, &[0]], Ok(1)),
        ([OPEN_BATCH, &[255, 1, 1]], Ok(1)),
        ([[].as_slice(), &[]], malformed(0)),
        ([&[1], &[]], malformed(0)),
        ([&[1, 0, 0, 0, 0, 0, 0, 0, 4], &[0, 0, 0]], malformed(0)),
        (
            [&[1, 0, 0, 0, 0, 0, 0, 0, 5], &[0, 0, 0, 0, 0, 0]],
            malformed(0),
        ),
        ([OPEN_BATCH, &[]], malformed(39)),
        ([OPEN_BATCH, &OPEN_BATCH[..38]], malformed(39)),
    ] {
        assert_eq!(rt; opened(rt.alloc(), &pieces)?, expected);
    }
    Ok(())
}
