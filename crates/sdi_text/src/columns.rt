ghost use Rattle.std.specs.Prelude.{◌≡◌, codes, OnOk};
ghost use Rattle.serde_json.specs.Data.{put, string, no_members};
ghost use Rattle.serde_json.specs.View.{view, members_view};
ghost use Rattle.show_text.specs.Columns.{type_text};
ghost use Rattle.sdi_text.specs.Reading.{IsHeldColumn};
ghost use Rattle.sdi_text.specs.Values.{column_value, column_members, front_put};

use crate::fault::{SdiFault, both};
use crate::found::{default_at, flag_at, name_at, type_at};
use crate::members::{Members, put_default, put_flag, put_text};
use crate::part::Part;
use crate::words::type_text;
use dd_definitions::ColumnDef;
use serde_json::{Map, Value};
use sql_types::ColumnType;
use std::alloc::{AllocError, Global};

impl Part for ColumnDef {
    ghost value_of = { column_value };

    ghost IsHeld = { IsHeldColumn };

    fn value(&self, alloc: Global) -> Result<Value, AllocError> {
        let mut members = Map::new(alloc);
        put_column(alloc, &mut members, self)?;
        Ok(Value::Object(members))
    }

    fn read(alloc: Global, value: &Value) -> Result<ColumnDef, SdiFault> {
        let texts = both(
            name_at(alloc, value, "name"),
            default_at(alloc, value, "default"),
        );
        let flags = both(flag_at(value, "auto"), flag_at(value, "nullable"));
        match both(both(texts, flags), type_at(value, "type")) {
            Ok((((name, default), (auto, nullable)), kind)) => Ok(ColumnDef {
                name,
                kind,
                nullable,
                default,
                auto,
            }),
            Err(fault) => Err(fault),
        }
    }
}

fn put_column(alloc: Global, members: &mut Members, column: &ColumnDef) -> Result<(), AllocError>
    ensures { members_view members.old.entries ≡ no_members → OnOk result (members_view members.new.entries ≡ column_members column.now) }
{
    put_front(alloc, members, column)?;
    put_flag(alloc, members, "nullable", column.nullable)?;
    put_type(alloc, members, column.kind)
}

fn put_front(alloc: Global, members: &mut Members, column: &ColumnDef) -> Result<(), AllocError>
    ensures { OnOk result (members_view members.new.entries ≡ front_put column.now (members_view members.old.entries)) }
{
    put_flag(alloc, members, "auto", column.auto)?;
    put_default(alloc, members, "default", &column.default)?;
    put_text(alloc, members, "name", column.name.as_str())
}

fn put_type(alloc: Global, members: &mut Members, kind: ColumnType) -> Result<(), AllocError>
    ensures { OnOk result (members_view members.new.entries ≡ put (codes "type") (string (type_text kind)) (members_view members.old.entries)) }
{
    let text = type_text(alloc, kind)?;
    put_text(alloc, members, "type", text.as_str())
}
