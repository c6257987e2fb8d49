// The loops that read a source to its end and write all of some bytes.
ghost use Rattle.std.specs.Prelude.{◌≡◌, ◌+◌, ◌^◌, ◌<◌, ◌≤◌, length, IfOk, OnOk, OnErr, IsErrOf};
ghost use Rattle.std.specs.Io.KnownBytes.{Appends, Consumes, IsAtEnd};
ghost use Rattle.edge_io.specs.Causes.{HasCause, Rose};
ghost use Rattle.edge_io.specs.Content.{AppendsPrefix, ConsumesAtMost};

use crate::stream::{Failed, Sink, Source};
use std::alloc::Global;

/// Why not all was read.
#[derive(Clone, Copy, Debug, PartialEq, Eq)]
pub enum ReadFault {
    /// The source has failed.
    Failed,
    /// There was no memory for what was read.
    Memory,
}

const PIECE: usize = 4096;

/// Reads the source to its end, or one byte past the limit. Whatever it answers, no more was read.
pub fn read_up_to<S: Source>(
    alloc: Global,
    source: &mut S,
    limit: usize,
) -> Result<Vec<u8>, ReadFault>
    requires { limit < 2 ^ 62 }
    ensures bytes { IfOk result (λ v. Consumes (S.left source.old) (S.left source.new) v.items) }
    ensures ended { IfOk result (λ v. length v.items ≤ limit → IsAtEnd (S.left source.new)) }
    ensures bound { IfOk result (λ v. length v.items ≤ limit + 1) }
    ensures within { ConsumesAtMost (limit + 1) (S.left source.old) (S.left source.new) }
    ensures later { S.faults source.old ≤ S.faults source.new }
    ensures failed { IsErrOf result ReadFault.Failed → Rose (S.faults source.old) (S.faults source.new) }
{
    let mut bytes = Vec::new(alloc);
    let mut piece = [0u8; PIECE];
    'pieces: while bytes.len() <= limit {
        let room = (limit + 1 - bytes.len()).min(PIECE);
        let Ok(count) = source.read(&mut piece[..room]) else {
            return Err(ReadFault::Failed);
        };
        if count == 0 {
            return Ok(bytes);
        }
        if bytes.extend_from_slice(&piece[..count]).is_err() {
            return Err(ReadFault::Memory);
        }
    }
    Ok(bytes)
}

/// Writes all of `bytes`. After a fault the sink has the first of them.
pub fn write_all<K: Sink>(sink: &mut K, bytes: &[u8]) -> Result<(), Failed>
    ensures all { OnOk result (Appends (K.held sink.old) (K.held sink.new) bytes.now) }
    ensures front { OnErr result (AppendsPrefix (K.held sink.old) (K.held sink.new) bytes.now) }
    ensures cause { HasCause (K.faults sink.old) (K.faults sink.new) result }
{
    let mut written = 0;
    'pieces: while written < bytes.len() {
        written += sink.write(&bytes[written..])?;
    }
    Ok(())
}
