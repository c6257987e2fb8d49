ghost use Rattle.std.specs.Prelude.{◌≡◌, IfOk, OnOk};
ghost use Rattle.serde_json.specs.Data.{no_members};
ghost use Rattle.serde_json.specs.View.{view, members_view};
ghost use Rattle.sdi_text.specs.Values.{table_value, table_members, lists_put, name_put};

use crate::members::{Members, put_number, put_parts, put_text};
use dd_definitions::TableParts;
use dd_names::ObjName;
use serde_json::{Map, Value};
use std::alloc::{AllocError, Global};

/// The value that the SDI of a table is.
pub(crate) fn table_value(
    alloc: Global,
    parts: &TableParts,
    space: u32,
) -> Result<Value, AllocError>
    ensures { IfOk result (λ value. view value ≡ table_value parts.now space) }
{
    let mut members = Map::new(alloc);
    put_table(alloc, &mut members, parts, space)?;
    Ok(Value::Object(members))
}

fn put_table(
    alloc: Global,
    members: &mut Members,
    parts: &TableParts,
    space: u32,
) -> Result<(), AllocError>
    ensures { members_view members.old.entries ≡ no_members → OnOk result (members_view members.new.entries ≡ table_members parts.now space) }
{
    put_lists(alloc, members, parts)?;
    put_number(alloc, members, "dd_version", 1)?;
    put_name(alloc, members, &parts.name)?;
    put_number(alloc, members, "space", space)
}

fn put_lists(alloc: Global, members: &mut Members, parts: &TableParts) -> Result<(), AllocError>
    ensures { OnOk result (members_view members.new.entries ≡ lists_put parts.now (members_view members.old.entries)) }
{
    put_parts(alloc, members, "columns", parts.columns.as_slice())?;
    put_parts(
        alloc,
        members,
        "foreign_keys",
        parts.foreign_keys.as_slice(),
    )?;
    put_parts(alloc, members, "indexes", parts.indexes.as_slice())
}

fn put_name(alloc: Global, members: &mut Members, name: &ObjName) -> Result<(), AllocError>
    ensures { OnOk result (members_view members.new.entries ≡ name_put name.now (members_view members.old.entries)) }
{
    put_text(alloc, members, "name", name.name.as_str())?;
    put_text(alloc, members, "schema", name.schema.as_str())
}
