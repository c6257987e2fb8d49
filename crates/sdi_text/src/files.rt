ghost use Rattle.std.specs.Prelude.{◌≡◌, ◌++◌, length, IfOk, OnOk};
ghost use Rattle.sdi_text.specs.Sdi.{sdi_bytes, header_bytes, length_bytes, file_bytes};

use crate::tables::table_value;
use dd_definitions::TableDef;
use dd_names::{List, Text};
use std::alloc::{AllocError, Global};

/// What each tablespace file begins with.
const MAGIC: [u8; 16] = *b"dd tablespace 1\n";

/// The SDI of a table whose tablespace has this number.
pub fn sdi(alloc: Global, table: &TableDef, space: u32) -> Result<Text, AllocError>
    ensures { IfOk result (λ text. text ≡ sdi_bytes table.now space) }
{
    let value = table_value(alloc, table.parts(), space)?;
    Ok(Text::from_string(value.to_string(alloc)?))
}

/// The bytes of the file of a table's tablespace, which has this number.
pub fn file_bytes(alloc: Global, table: &TableDef, space: u32) -> Result<List<u8>, AllocError>
    ensures { IfOk result (λ bytes. bytes ≡ file_bytes table.now space) }
{
    let text = sdi(alloc, table, space)?;
    let mut bytes = Vec::new(alloc);
    push_file(&mut bytes, space, text.as_str())?;
    Ok(List::from_vec(bytes))
}

fn push_file(bytes: &mut Vec<u8>, space: u32, sdi: &str) -> Result<(), AllocError>
    ensures { OnOk result (bytes.new.items ≡ bytes.old.items ++ (header_bytes space (length sdi.now) ++ sdi.now)) }
{
    push_header(bytes, space, sdi.len() as u64)?;
    bytes.extend_from_slice(sdi.as_bytes())
}

fn push_header(bytes: &mut Vec<u8>, space: u32, len: u64) -> Result<(), AllocError>
    ensures { OnOk result (bytes.new.items ≡ bytes.old.items ++ header_bytes space len) }
{
    bytes.extend_from_slice(&MAGIC)?;
    bytes.extend_from_slice(&space.to_be_bytes())?;
    push_length(bytes, len)
}

#[tactic(auto, unfolding(crate::specs::Sdi::length_bytes))]
fn push_length(bytes: &mut Vec<u8>, len: u64) -> Result<(), AllocError>
    ensures { OnOk result (bytes.new.items ≡ bytes.old.items ++ length_bytes len) }
{
    bytes.extend_from_slice(&[0; 4])?;
    bytes.extend_from_slice(&len.to_be_bytes())?;
    bytes.extend_from_slice(&[0; 32])
}
