// What stands at the name of an object behind the changes.
ghost use Rattle.std.specs.Prelude.{◌≡◌, IfOk, Some};
ghost use Rattle.dd_names.specs.declared.object_name.ObjectKey.TheVariants as keys;
ghost use Rattle.dd_catalog.specs.declared.object.Object.TheVariants as objects;
ghost use Rattle.dd_catalog.specs.Sights.{sight};
ghost use Rattle.dd_catalog.specs.Walks.{run, look_at};
ghost use Rattle.dd_catalog.specs.Follow.{Follows};
ghost use Rattle.rules_outcome.specs.Decided.{HasIdsAt};
ghost use Rattle.rules_rename.specs.Renames.{name_is_free};
ghost use Rattle.rules_rename.specs.Left.{kept};
ghost use Rattle.rules_rename.specs.Ids.{AreWithIds};
ghost use Rattle.rules_rename.specs.Puts.{behind};

use crate::overlay::Overlay;
use dd_catalog::{Lookup, Object, Stop, schema_at};
use dd_names::{Name, ObjName};
use std::alloc::{AllocError, Global};

/// What stands at the name behind the changes.
pub(crate) fn object_at<'a, L: Lookup>(
    overlay: &'a Overlay,
    name: &ObjName,
    look: &'a L,
) -> Result<&'a Object, Stop>
    ensures seen { Follows (λ object. sight object.now) result (run (behind (L.known look.now) overlay.now) (look_at (keys.Object name.now))) }
    ensures ids { AreWithIds (L.known look.now) overlay.now → IfOk result (λ object. HasIdsAt (L.known look.now) name.now (kept object.now)) }
{
    let known = dd_catalog::object_at(look, name)?;
    match overlay.left_at(name) {
        None => Ok(known),
        Some(left) => Ok(left.object()),
    }
}

/// The id of a schema that is there, as was looked at before the first pair.
pub(crate) fn schema_id<L: Lookup>(schema: &Name, look: &L) -> Result<u32, AllocError>
    ensures { IfOk result (λ id. L.known look.now (keys.Schema schema.now) ≡ Some (objects.Schema id)) }
{
    match schema_at(look, schema) {
        Ok(object) => id_of_schema(object),
        Err(_) => Err(AllocError),
    }
}

fn id_of_schema(object: &Object) -> Result<u32, AllocError>
    ensures { IfOk result (λ id. object.now ≡ objects.Schema id) }
{
    match object {
        Object::Schema { id } => Ok(*id),
        _ => Err(AllocError),
    }
}

/// The name is free behind the changes; where something is there, 1050.
pub(crate) fn name_is_free<L: Lookup>(
    alloc: Global,
    overlay: &Overlay,
    to: &ObjName,
    look: &L,
) -> Result<(), Stop>
    ensures { Follows (λ _. tt) result (run (behind (L.known look.now) overlay.now) (name_is_free to.now)) }
{
    match object_at(overlay, to, look)? {
        Object::Absent => Ok(()),
        _ => Err(rules_refusals::table_exists(alloc, &to.name)?),
    }
}
