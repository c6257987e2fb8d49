// What goes, and that no table goes while a child of it stays.
ghost use Rattle.std.specs.Prelude.{◌≡◌, IfOk, Option, not};
ghost use Rattle.std.specs.List.{find};
ghost use Rattle.std.specs.Option.{option_copied};
ghost use Rattle.dd_names.specs.declared.object_name.ObjectKey.{ObjectKey as Key};
ghost use Rattle.dd_catalog.specs.declared.object.Object.{Object as Standing};
ghost use Rattle.dd_definitions.specs.declared.foreign_keys.ForeignKeyDef.{ForeignKeyDef as Constraint};
ghost use Rattle.dd_catalog.specs.Catalog.{is_same_object};
ghost use Rattle.dd_catalog.specs.Sights.{sight};
ghost use Rattle.dd_catalog.specs.Walks.{run};
ghost use Rattle.dd_catalog.specs.Follow.{Follows, sights};
ghost use Rattle.rules_outcome.specs.Decided.{there, HasIds};
ghost use Rattle.rules_schema.specs.Drops.{is_table, children_seen, name_of_key, constraint_on, refuse_for, no_child_stays};
ghost use Rattle.rules_schema.specs.Going.{goes};

use dd_catalog::{Lookup, Object, Stop, children_at, object_at};
use dd_definitions::ForeignKeyDef;
use dd_names::{Name, ObjName, ObjectKey};
use rules_elements::is_same_object;
use rules_named::stood;
use rules_outcome::{After, Edit};
use std::alloc::{AllocError, Global};
use std::collections::BTreeSet;

/// What stands at the key goes.
pub(crate) fn edit_gone(key: ObjectKey, object: &Object) -> Result<Edit, AllocError>
    ensures edit { IfOk result (λ edit. edit ≡ record { key = key; before = there object.now; after = After.Gone }) }
    ensures ids { (known : Key → Option Standing) → IfOk result (λ edit. HasIds known edit.key edit.after) }
{
    Ok(Edit {
        key,
        before: stood(object)?,
        after: After::Gone,
    })
}

pub(crate) fn is_table(object: &Object) -> bool
    ensures { result ≡ is_table (sight object.now) }
{
    matches!(object, Object::Table { .. })
}

/// What goes beside a table.
#[derive(Drop)]
pub(crate) enum Going<'a> {
    /// All of this schema.
    Schema(&'a Name),
    /// These tables.
    Tables(&'a BTreeSet<ObjName>),
}

/// The table has no child that stays: 3730 with the least.
#[tactic(auto, using(dd_catalog::specs::WalkLaws::run_bind), unfolding(crate::specs::Drops::no_child_stays))]
pub(crate) fn no_child_stays<L: Lookup>(
    alloc: Global,
    going: &Going,
    table: &ObjName,
    look: &L,
) -> Result<(), Stop>
    ensures { Follows (λ _. tt) result (run (sights (L.known look.now)) (no_child_stays (goes going.now) table.now)) }
{
    let object = children_at(look, table)?;
    let staying = child_staying(going, children_seen(object));
    refuse_for(alloc, table, staying, look)
}

/// The least child that stays.
fn child_staying<'a>(going: &Going, children: &'a [ObjName]) -> Option<&'a ObjName>
    ensures { option_copied result ≡ find (λ child. not (goes going.now child)) children.now }
{
    children.iter().find(|child| !goes(going, child))
}

fn goes(going: &Going, object: &ObjName) -> bool
    ensures { result ≡ goes going.now object.now }
{
    match going {
        Going::Schema(schema) => object.schema == **schema,
        Going::Tables(tables) => tables.contains(object),
    }
}

/// The other tables with a foreign key to a table, as the object at its key of children tells them.
pub fn children_seen(object: &Object) -> &[ObjName]
    ensures { result.now ≡ children_seen (sight object.now) }
{
    match object {
        Object::Children(children) => children.as_slice(),
        _ => &[],
    }
}

/// 3730 with the child that stays, if there is one.
#[tactic(auto, using(dd_catalog::specs::WalkLaws::run_bind), unfolding(crate::specs::Drops::refuse_for))]
fn refuse_for<L: Lookup>(
    alloc: Global,
    table: &ObjName,
    child: Option<&ObjName>,
    look: &L,
) -> Result<(), Stop>
    ensures { Follows (λ _. tt) result (run (sights (L.known look.now)) (refuse_for table.now (option_copied child.entry))) }
{
    match child {
        None => Ok(()),
        Some(child) => {
            let object = object_at(look, child)?;
            let constraint = constraint_on(table, object);
            Err(rules_refusals::fk_cannot_drop_parent(alloc, &table.name, constraint, &child.name)?)
        }
    }
}

/// The name of the first constraint of the child that refers to the table.
pub fn constraint_on<'a>(table: &ObjName, child: &'a Object) -> &'a str
    ensures { result.now ≡ constraint_on table.now (sight child.now) }
{
    match child {
        Object::Table { def, .. } => name_of_key(key_on(
            table,
            def.parts().foreign_keys.as_slice(),
        )),
        _ => "",
    }
}

fn key_on<'a>(table: &ObjName, keys: &'a [ForeignKeyDef]) -> Option<&'a ForeignKeyDef>
    ensures { option_copied result ≡ find (λ (key : Constraint). is_same_object key.parent table.now) keys.now }
{
    keys.iter().find(|key| is_same_object(&key.parent, table))
}

fn name_of_key<'a>(key: Option<&'a ForeignKeyDef>) -> &'a str
    ensures { result.now ≡ name_of_key (option_copied key.entry) }
{
    match key {
        None => "",
        Some(key) => key.name.as_str(),
    }
}
