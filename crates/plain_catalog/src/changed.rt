// What an edit leaves of the schemas and of the objects.
ghost use Rattle.std.specs.Prelude.{◌≡◌, OnOk};
ghost use Rattle.rules_outcome.specs.Decided.{after_of};
ghost use Rattle.plain_catalog.specs.Changed.{is_left, objects_behind, put_or_remove, schemas_behind, stored};

use crate::name_set::NameSet;
use crate::object_map::ObjectMap;
use crate::stored::StoredObject;
use dd_names::{Name, ObjName};
use rules_outcome::After;
use std::alloc::AllocError;

/// Adds the schema, or takes it out where nothing is left of it.
pub(crate) fn change_schema(
    schemas: &mut NameSet,
    name: Name,
    after: After,
) -> Result<(), AllocError>
    ensures { OnOk result (schemas.new ≡ schemas_behind name (is_left (after_of after)) schemas.old) }
{
    if is_left(&after) {
        return schemas.insert(name);
    }
    schemas.remove(&name);
    Ok(())
}

fn is_left(after: &After) -> bool
    ensures { result ≡ is_left (after_of after.now) }
{
    !matches!(after, After::Gone)
}

/// Puts the object under the name, or takes out what has it where nothing is left. A table with a new tablespace gets the
/// number `fresh`.
pub(crate) fn change_object(
    objects: &mut ObjectMap,
    name: ObjName,
    after: After,
    fresh: u32,
) -> Result<(), AllocError>
    ensures { OnOk result (objects.new ≡ objects_behind fresh name (after_of after) objects.old) }
{
    if matches!(after, After::NewSchema) {
        return Ok(());
    }
    put_or_remove(objects, name, stored(after, fresh))
}

fn put_or_remove(
    objects: &mut ObjectMap,
    name: ObjName,
    stored: Option<StoredObject>,
) -> Result<(), AllocError>
    ensures { OnOk result (objects.new ≡ put_or_remove name stored objects.old) }
{
    match stored {
        Some(object) => objects.insert(name, object),
        None => {
            objects.remove(&name);
            Ok(())
        }
    }
}

// What is kept of an object, if something is left.
fn stored(after: After, fresh: u32) -> Option<StoredObject>
    ensures { result ≡ stored fresh (after_of after) }
{
    match after {
        After::NewTable { def, .. } | After::RebuiltTable { def, .. } => {
            Some(StoredObject::table(fresh, def))
        }
        After::KeptTable { space, def, .. } => Some(StoredObject::table(space, def)),
        After::NewView { def, .. } | After::KeptView { def, .. } => Some(StoredObject::view(def)),
        After::Gone | After::NewSchema => None,
    }
}
