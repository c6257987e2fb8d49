// The batches of a journal from its bytes.
ghost use Rattle.std.specs.Prelude.{◌≡◌, ◌<◌, ◌+◌, ◌^◌, length, IfOk, IfErr, MatchResult};
ghost use Rattle.row_batch.specs.Batches.{IsBatch, batch_bytes};
ghost use Rattle.row_journal.specs.Contents.{gated, Holds};
ghost use Rattle.row_journal.specs.Opening.{operations_of, IsReadFault, IsNoBatch};

use crate::JournalFault;
use crate::gate::{Gate, gate_of};
use row_batch::{Batch, BatchFault};
use std::alloc::Global;

/// The batches of a journal, and the place of the closed gate behind them.
#[derive(Drop)]
pub struct Contents {
    pub batches: Vec<Batch>,
    pub end: u64,
}

/// The batch of which the bytes behind the gate at `at` are.
fn batch_of(alloc: Global, content: &[u8], at: u64) -> Result<Batch, JournalFault>
    ensures { MatchResult result (λ batch. IsBatch batch.operations × (content.now ≡ batch_bytes batch.operations)) (λ fault. IsNoBatch at content.now fault) }
{
    match Batch::read(alloc, content) {
        Ok(batch) => Ok(batch),
        Err(BatchFault::Malformed) => Err(JournalFault::Malformed { at }),
        Err(BatchFault::Memory) => Err(JournalFault::Memory),
    }
}

/// The batches up to the first closed gate, where the first gate is at `at` of the file.
pub fn read_gates(alloc: Global, bytes: &[u8], at: u64) -> Result<Contents, JournalFault>
    requires { at + length bytes.now < 2 ^ 64 }
    ensures holds { IfOk result (λ contents. Holds 0 (operations_of contents.batches.items) bytes.now) }
    ensures end { IfOk result (λ contents. contents.end ≡ at + length (gated (operations_of contents.batches.items))) }
    ensures fault { IfErr result (λ fault. IsReadFault at bytes.now fault) }
{
    let mut batches = Vec::new(alloc);
    let mut rest = bytes;
    'gates: loop {
        let end = at + (bytes.len() - rest.len()) as u64;
        match gate_of(rest) {
            Gate::Closed => return Ok(Contents { batches, end }),
            Gate::Missing => return Err(JournalFault::Malformed { at: end }),
            Gate::Open { content, more } => {
                batches.push(batch_of(alloc, content, end)?)?;
                rest = more;
            }
        }
    }
}
