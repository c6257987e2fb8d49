// The keys of children and of constraints at which a table stands.
ghost use Rattle.std.specs.Prelude.{◌≡◌, IfOk, OnOk};
ghost use Rattle.std.specs.List.{list_all, list_any};
ghost use Rattle.std.specs.Str.{bytes_eq};
ghost use Rattle.dd_names.specs.Names.{fold};
ghost use Rattle.dd_names.specs.declared.object_name.ObjectKey.TheVariants as keys;
ghost use Rattle.dd_definitions.specs.declared.foreign_keys.ForeignKeyDef.{ForeignKeyDef as Key};
ghost use Rattle.dd_catalog.specs.Catalog.{is_same_object};
ghost use Rattle.dd_index.specs.Keys.{is_no_capital, stands, HasKeys, HasMoreKeys};

use dd_definitions::ForeignKeyDef;
use dd_names::{Name, ObjName, ObjectKey, TryCopy, both};
use std::alloc::{AllocError, Global};
use std::collections::BTreeSet;

/// The keys of children and of constraints at which a table with these foreign keys stands.
pub fn keys_of(
    alloc: Global,
    table: &ObjName,
    foreign_keys: &[ForeignKeyDef],
) -> Result<BTreeSet<ObjectKey>, AllocError>
    ensures { IfOk result (λ keys. HasKeys keys table.now foreign_keys.now) }
{
    let mut keys = BTreeSet::new(alloc);
    'foreign_keys: for foreign_key in foreign_keys {
        add_keys(&mut keys, &table.schema, foreign_key)?;
    }
    Ok(keys)
}

fn add_keys(
    keys: &mut BTreeSet<ObjectKey>,
    schema: &Name,
    foreign_key: &ForeignKeyDef,
) -> Result<(), AllocError>
    ensures { OnOk result (HasMoreKeys keys.old keys.new schema.now foreign_key.now) }
{
    keys.insert(ObjectKey::Children(foreign_key.parent.copy()?))?;
    keys.insert(constraint_key(schema, &foreign_key.name)?)?;
    Ok(())
}

fn constraint_key(schema: &Name, name: &Name) -> Result<ObjectKey, AllocError>
    ensures { IfOk result (λ key. key ≡ keys.Constraint schema.now (fold name.now)) }
{
    match both(schema.copy(), name.fold()) {
        Ok((schema, folded)) => Ok(ObjectKey::Constraint { schema, folded }),
        Err(error) => Err(error),
    }
}

/// Whether a table with these foreign keys stands at the key: it is a child of another table, or it owns the constraint.
pub fn stands(key: &ObjectKey, table: &ObjName, foreign_keys: &[ForeignKeyDef]) -> bool
    ensures { result ≡ stands key.now table.now foreign_keys.now }
{
    match key {
        ObjectKey::Children(parent) => {
            refers_to(foreign_keys, parent) && !is_same_object(table, parent)
        }
        ObjectKey::Constraint { schema, folded } => {
            table.schema == *schema && has_constraint(foreign_keys, folded)
        }
        _ => false,
    }
}

fn refers_to(foreign_keys: &[ForeignKeyDef], parent: &ObjName) -> bool
    ensures { result ≡ list_any (λ (key : Key). is_same_object key.parent parent.now) foreign_keys.now }
{
    foreign_keys
        .iter()
        .any(|key| is_same_object(&key.parent, parent))
}

fn is_same_object(a: &ObjName, b: &ObjName) -> bool
    ensures { result ≡ is_same_object a.now b.now }
{
    a.schema == b.schema && a.name == b.name
}

fn has_constraint(foreign_keys: &[ForeignKeyDef], folded: &Name) -> bool
    ensures { result ≡ list_any (λ (key : Key). bytes_eq (fold key.name) folded.now) foreign_keys.now }
{
    foreign_keys.iter().any(|key| folds_to(&key.name, folded))
}

/// Whether the name with its letters in lower case is the other as it stands.
fn folds_to(name: &Name, folded: &Name) -> bool
    ensures { result ≡ bytes_eq (fold name.now) folded.now }
{
    name.same(folded) && has_no_capital(folded.as_str().as_bytes())
}

fn has_no_capital(bytes: &[u8]) -> bool
    ensures { result ≡ list_all is_no_capital bytes.now }
{
    bytes.iter().all(|c| !c.is_ascii_uppercase())
}
