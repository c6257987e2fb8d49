// A record's bytes.
ghost use Rattle.std.specs.Prelude.{◌≡◌, ◌<◌, ◌^◌, ◌++◌, length, IfOk, OnOk};
ghost use Rattle.row_batch.specs.Batches.{key_bytes};
ghost use Rattle.ddl_log.specs.Records.{kind_byte, head_bytes, record_bytes, IsRecord};

use crate::records::{Kind, LogRecord};
use dd_names::List;
use std::alloc::{AllocError, Global};

/// The bytes of a record, as the value of its row has them.
pub fn encode(alloc: Global, item: &LogRecord) -> Result<List<u8>, AllocError>
    requires { IsRecord item.now }
    ensures { IfOk result (λ bytes. bytes ≡ record_bytes item.now) }
{
    let mut bytes = Vec::new(alloc);
    match write(&mut bytes, item) {
        Ok(()) => Ok(List::from_vec(bytes)),
        Err(error) => Err(error),
    }
}

#[tactic(auto, unfolding(crate::specs::Records::record_bytes))]
fn write(bytes: &mut Vec<u8>, item: &LogRecord) -> Result<(), AllocError>
    requires { IsRecord item.now }
    ensures { OnOk result (bytes.new.items ≡ bytes.old.items ++ record_bytes item.now) }
{
    push_head(bytes, item.thread, item.kind, item.space)?;
    push_path(bytes, item.old_path.as_str().as_bytes())?;
    push_path(bytes, item.new_path.as_str().as_bytes())?;
    Ok(())
}

fn push_head(bytes: &mut Vec<u8>, thread: u32, kind: Kind, space: u32) -> Result<(), AllocError>
    ensures { OnOk result (bytes.new.items ≡ bytes.old.items ++ head_bytes thread kind space) }
{
    bytes.extend_from_slice(&thread.to_be_bytes())?;
    bytes.extend_from_slice(&[byte_of(kind)])?;
    bytes.extend_from_slice(&space.to_be_bytes())
}

/// A path behind its length.
fn push_path(bytes: &mut Vec<u8>, path: &[u8]) -> Result<(), AllocError>
    requires { length path.now < 2 ^ 16 }
    ensures { OnOk result (bytes.new.items ≡ bytes.old.items ++ key_bytes path.now) }
{
    bytes.extend_from_slice(&(path.len() as u16).to_be_bytes())?;
    bytes.extend_from_slice(path)
}

fn byte_of(kind: Kind) -> u8
    ensures { result ≡ kind_byte kind }
{
    match kind {
        Kind::DeleteSpace => 2,
        Kind::RenameSpace => 3,
        Kind::WriteSdi => 100,
    }
}
