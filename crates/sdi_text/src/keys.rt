ghost use Rattle.std.specs.Prelude.{◌≡◌, codes, OnOk, Some};
ghost use Rattle.serde_json.specs.Data.{no_members, string};
ghost use Rattle.serde_json.specs.View.{view, members_view};
ghost use Rattle.serde_json.specs.Find.{get};
ghost use Rattle.dd_names.specs.Names.{IsName};
ghost use Rattle.dd_names.specs.declared.object_name.ObjName.{ObjName};
ghost use Rattle.sdi_text.specs.Reading.{Reads, IsHeldIndex, IsHeldKey};
ghost use Rattle.sdi_text.specs.Values.{index_value, index_members, foreign_key_value, foreign_key_members, child_put, rules_put, parent_put};

use crate::fault::{SdiFault, both};
use crate::found::{class_at, name_at, parts_at, rule_at};
use crate::members::{Members, put_parts, put_text};
use crate::part::Part;
use crate::words::{class_word, rule_name};
use dd_definitions::{ForeignKeyDef, IndexDef};
use dd_names::ObjName;
use serde_json::{Map, Value};
use std::alloc::{AllocError, Global};

impl Part for IndexDef {
    ghost value_of = { index_value };

    ghost IsHeld = { IsHeldIndex };

    fn value(&self, alloc: Global) -> Result<Value, AllocError> {
        let mut members = Map::new(alloc);
        put_index(alloc, &mut members, self)?;
        Ok(Value::Object(members))
    }

    fn read(alloc: Global, value: &Value) -> Result<IndexDef, SdiFault> {
        let columns = parts_at(alloc, value, "columns");
        let words = both(name_at(alloc, value, "name"), class_at(value, "kind"));
        match both(columns, words) {
            Ok((columns, (name, class))) => Ok(IndexDef {
                name,
                class,
                columns,
            }),
            Err(fault) => Err(fault),
        }
    }
}

fn put_index(alloc: Global, members: &mut Members, index: &IndexDef) -> Result<(), AllocError>
    ensures { members_view members.old.entries ≡ no_members → OnOk result (members_view members.new.entries ≡ index_members index.now) }
{
    put_parts(alloc, members, "columns", index.columns.as_slice())?;
    put_text(alloc, members, "kind", class_word(index.class))?;
    put_text(alloc, members, "name", index.name.as_str())
}

impl Part for ForeignKeyDef {
    ghost value_of = { foreign_key_value };

    ghost IsHeld = { IsHeldKey };

    fn value(&self, alloc: Global) -> Result<Value, AllocError> {
        let mut members = Map::new(alloc);
        put_foreign_key(alloc, &mut members, self)?;
        Ok(Value::Object(members))
    }

    fn read(alloc: Global, value: &Value) -> Result<ForeignKeyDef, SdiFault> {
        let child = both(
            name_at(alloc, value, "name"),
            parts_at(alloc, value, "columns"),
        );
        let rules = both(rule_at(value, "on_delete"), rule_at(value, "on_update"));
        let parent = both(
            parent_of(alloc, value),
            parts_at(alloc, value, "parent_columns"),
        );
        match both(both(child, parent), rules) {
            Ok((((name, columns), (parent, parent_columns)), (on_delete, on_update))) => {
                Ok(ForeignKeyDef {
                    name,
                    columns,
                    parent,
                    parent_columns,
                    on_delete,
                    on_update,
                })
            }
            Err(fault) => Err(fault),
        }
    }
}

/// The table that a foreign key refers to.
fn parent_of(alloc: Global, value: &Value) -> Result<ObjName, SdiFault>
    ensures { (parent : ObjName) → IsName parent.schema → IsName parent.name → get (codes "parent_schema") (view value.now) ≡ Some (string parent.schema) → get (codes "parent_name") (view value.now) ≡ Some (string parent.name) → Reads parent result }
{
    let schema = name_at(alloc, value, "parent_schema");
    match both(schema, name_at(alloc, value, "parent_name")) {
        Ok((schema, name)) => Ok(ObjName { schema, name }),
        Err(fault) => Err(fault),
    }
}

fn put_foreign_key(
    alloc: Global,
    members: &mut Members,
    key: &ForeignKeyDef,
) -> Result<(), AllocError>
    ensures { members_view members.old.entries ≡ no_members → OnOk result (members_view members.new.entries ≡ foreign_key_members key.now) }
{
    put_child(alloc, members, key)?;
    put_rules(alloc, members, key)?;
    put_parent(alloc, members, key)
}

fn put_child(alloc: Global, members: &mut Members, key: &ForeignKeyDef) -> Result<(), AllocError>
    ensures { OnOk result (members_view members.new.entries ≡ child_put key.now (members_view members.old.entries)) }
{
    put_parts(alloc, members, "columns", key.columns.as_slice())?;
    put_text(alloc, members, "name", key.name.as_str())
}

fn put_rules(alloc: Global, members: &mut Members, key: &ForeignKeyDef) -> Result<(), AllocError>
    ensures { OnOk result (members_view members.new.entries ≡ rules_put key.now (members_view members.old.entries)) }
{
    put_text(alloc, members, "on_delete", rule_name(key.on_delete))?;
    put_text(alloc, members, "on_update", rule_name(key.on_update))
}

fn put_parent(alloc: Global, members: &mut Members, key: &ForeignKeyDef) -> Result<(), AllocError>
    ensures { OnOk result (members_view members.new.entries ≡ parent_put key.now (members_view members.old.entries)) }
{
    put_parts(
        alloc,
        members,
        "parent_columns",
        key.parent_columns.as_slice(),
    )?;
    put_text(alloc, members, "parent_name", key.parent.name.as_str())?;
    put_text(alloc, members, "parent_schema", key.parent.schema.as_str())
}
