// What a catalog lists: the names in a schema, the children of a table, the owner of a constraint.
ghost use Rattle.std.specs.Prelude.{◌≡◌, ◌++◌, [], ◌∷◌, IfOk, OnOk, if◌then◌else◌};
ghost use Rattle.std.specs.Str.{bytes_eq};
ghost use Rattle.std.specs.FinMap as finite_map;
ghost use Rattle.dd_catalog.specs.Catalog.{names_among};
ghost use Rattle.dd_catalog.specs.Sights.{sight};
ghost use Rattle.plain_catalog.specs.Listed.{first_seen, listing_seen, listed_at};

use crate::name_set::NameSet;
use crate::object_map::ObjectMap;
use dd_catalog::Object;
use dd_names::{List, Name, ObjName, ObjectKey, TryCopy};
use std::alloc::{AllocError, Global};

/// The names in byte order.
pub(crate) fn all_names(alloc: Global, names: &NameSet) -> Result<List<Name>, AllocError>
    ensures { IfOk result (λ list. list ≡ finite_map.keys names.now) }
{
    let mut list = List::new(alloc);
    'names: for name in names.iter() {
        list.push(name.copy()?)?;
    }
    Ok(list)
}

/// The names of the schema's objects, in order.
pub(crate) fn names_in(
    alloc: Global,
    objects: &ObjectMap,
    schema: &Name,
) -> Result<List<Name>, AllocError>
    ensures { IfOk result (λ names. names ≡ names_among schema.now (finite_map.entries objects.now)) }
{
    let mut names = List::new(alloc);
    'objects: for (name, _object) in objects.iter() {
        add_name(schema, name, &mut names)?;
    }
    Ok(names)
}

fn add_name(schema: &Name, name: &ObjName, names: &mut List<Name>) -> Result<(), AllocError>
    ensures { OnOk result (names.new ≡ names.old ++ (if bytes_eq name.now.schema schema.now then name.now.name ∷ [] else [])) }
{
    if name.schema == *schema {
        names.push(name.name.copy()?)?;
    }
    Ok(())
}

/// What stands at a key of children or of a constraint.
pub(crate) fn tables_listed(
    alloc: Global,
    objects: &ObjectMap,
    key: &ObjectKey,
) -> Result<Object, AllocError>
    ensures { IfOk result (λ object. sight object ≡ listed_at key.now (finite_map.entries objects.now)) }
{
    let tables = objects.standing(alloc, key)?;
    listing(key, tables)
}

fn listing(key: &ObjectKey, tables: List<ObjName>) -> Result<Object, AllocError>
    ensures { IfOk result (λ object. sight object ≡ listing_seen key.now tables) }
{
    match key {
        ObjectKey::Children(_) => Ok(Object::Children(tables)),
        ObjectKey::Constraint { .. } => first_owner(tables.as_slice()),
        _ => Ok(Object::Absent),
    }
}

fn first_owner(tables: &[ObjName]) -> Result<Object, AllocError>
    ensures { IfOk result (λ object. sight object ≡ first_seen tables.now) }
{
    match tables {
        [] => Ok(Object::Absent),
        [first, ..] => Ok(Object::Constraint {
            table: first.copy()?,
        }),
    }
}
