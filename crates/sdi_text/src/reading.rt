ghost use Rattle.std.specs.Prelude.{◌≡◌, ◌<◌, ◌^◌, ℕ, true, IfOk, MatchResult, Some};
ghost use Rattle.std.specs.Str.{IsUtf8};
ghost use Rattle.serde_json.specs.Data.{Data, string};
ghost use Rattle.serde_json.specs.View.{view};
ghost use Rattle.dd_names.specs.Names.{IsName};
ghost use Rattle.dd_names.specs.declared.object_name.ObjName.{ObjName};
ghost use Rattle.dd_definitions.specs.declared.parts.TableParts.{TableParts};
ghost use Rattle.dd_definitions.specs.WellFormed.{is_well_formed};
ghost use Rattle.sdi_text.specs.Values.{table_value};
ghost use Rattle.sdi_text.specs.Sdi.{sdi_bytes};
ghost use Rattle.sdi_text.specs.Reading.{Reads, IsHeld};

use crate::fault::{SdiFault, both, of_json};
use crate::files::sdi;
use crate::found::{name_at, number_at, parts_at};
use dd_definitions::{TableDef, TableParts};
use dd_names::ObjName;
use serde_json::Value;
use std::alloc::Global;

/// The table and the number of its tablespace of which bytes are the SDI.
pub fn read_sdi(alloc: Global, bytes: &[u8]) -> Result<(TableDef, u32), SdiFault>
    ensures ok { IfOk result (λ read. bytes.now ≡ sdi_bytes read.0 read.1) }
    ensures exact { (parts : TableParts) → (space : ℕ) → IsHeld parts → is_well_formed parts ≡ true → space < 2 ^ 32 → IsUtf8 bytes.now → bytes.now ≡ sdi_bytes parts space → Reads (parts, space) result }
{
    match Value::from_slice(alloc, bytes) {
        Ok(value) => table_of(alloc, bytes, &value),
        Err(error) => Err(of_json(&error)),
    }
}

/// The table whose SDI these bytes are, where it is among the value.
fn table_of(alloc: Global, bytes: &[u8], value: &Value) -> Result<(TableDef, u32), SdiFault>
    ensures ok { IfOk result (λ read. bytes.now ≡ sdi_bytes read.0 read.1) }
    ensures exact { (parts : TableParts) → (space : ℕ) → IsHeld parts → is_well_formed parts ≡ true → space < 2 ^ 32 → view value.now ≡ table_value parts space → bytes.now ≡ sdi_bytes parts space → Reads (parts, space) result }
{
    match both(parts_of(alloc, value), number_at(value, "space")) {
        Ok((parts, space)) => formed(alloc, bytes, parts, space),
        Err(fault) => Err(fault),
    }
}

/// The table of these parts, where the bytes are its SDI.
fn formed(
    alloc: Global,
    bytes: &[u8],
    parts: TableParts,
    space: u32,
) -> Result<(TableDef, u32), SdiFault>
    ensures ok { IfOk result (λ read. bytes.now ≡ sdi_bytes read.0 read.1) }
    ensures exact { is_well_formed parts ≡ true → bytes.now ≡ sdi_bytes parts space → Reads (parts, space) result }
{
    let Ok(table) = TableDef::of(parts) else {
        return Err(SdiFault::NotSdi);
    };
    match compared(alloc, bytes, &table, space) {
        Ok(()) => Ok((table, space)),
        Err(fault) => Err(fault),
    }
}

/// Whether the bytes are the SDI of the table.
fn compared(alloc: Global, bytes: &[u8], table: &TableDef, space: u32) -> Result<(), SdiFault>
    ensures { MatchResult result (λ _. bytes.now ≡ sdi_bytes table.now space) (λ fault. bytes.now ≡ sdi_bytes table.now space → fault ≡ SdiFault.Memory) }
{
    let Ok(text) = sdi(alloc, table, space) else {
        return Err(SdiFault::Memory);
    };
    same(text.as_str().as_bytes(), bytes)
}

fn same(text: &[u8], bytes: &[u8]) -> Result<(), SdiFault>
    ensures { MatchResult result (λ _. bytes.now ≡ text.now) (λ fault. bytes.now ≡ text.now → fault ≡ SdiFault.Memory) }
{
    if text == bytes {
        Ok(())
    } else {
        Err(SdiFault::NotSdi)
    }
}

fn parts_of(alloc: Global, value: &Value) -> Result<TableParts, SdiFault>
    ensures { (parts : TableParts) → (space : ℕ) → IsHeld parts → view value.now ≡ table_value parts space → Reads parts result }
{
    let keys = both(
        parts_at(alloc, value, "indexes"),
        parts_at(alloc, value, "foreign_keys"),
    );
    let columns = parts_at(alloc, value, "columns");
    match both(both(name_of(alloc, value), columns), keys) {
        Ok(((name, columns), (indexes, foreign_keys))) => Ok(TableParts {
            name,
            columns,
            indexes,
            foreign_keys,
        }),
        Err(fault) => Err(fault),
    }
}

fn name_of(alloc: Global, value: &Value) -> Result<ObjName, SdiFault>
    ensures { (parts : TableParts) → (space : ℕ) → IsHeld parts → view value.now ≡ table_value parts space → Reads parts.name result }
{
    let schema = name_at(alloc, value, "schema");
    match both(schema, name_at(alloc, value, "name")) {
        Ok((schema, name)) => Ok(ObjName { schema, name }),
        Err(fault) => Err(fault),
    }
}
