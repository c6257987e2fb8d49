// The owner of a constraint behind the changes.
ghost use Rattle.std.specs.Prelude.{◌≡◌, IfOk, IsTrue};
ghost use Rattle.dd_names.specs.Names.{fold};
ghost use Rattle.dd_names.specs.declared.object_name.ObjectKey.TheVariants as keys;
ghost use Rattle.dd_catalog.specs.Catalog.{owner_among};
ghost use Rattle.dd_catalog.specs.Sights.{sight};
ghost use Rattle.dd_catalog.specs.Walks.{run, look_at};
ghost use Rattle.dd_catalog.specs.Follow.{Follows};
ghost use Rattle.rules_elements.specs.ForeignKeys.{is_owned_elsewhere};
ghost use Rattle.rules_rename.specs.Indexed.{first_owner};
ghost use Rattle.rules_rename.specs.Puts.{are_in_order, behind, placed, owner_left, owned_by, owned_found};

use crate::overlay::Overlay;
use dd_catalog::{Lookup, Object, Stop, constraint_at};
use dd_names::{Name, ObjName, ObjectKey, TryCopy, both};
use rules_elements::is_same_object;
use std::alloc::AllocError;

/// Whether another table has a constraint of that name behind the changes.
pub(crate) fn is_owned_at<L: Lookup>(
    overlay: &Overlay,
    table: &ObjName,
    schema: &Name,
    name: &Name,
    look: &L,
) -> Result<bool, Stop>
    ensures { Follows (λ owned. owned) result (owned_found table.now (run (behind (L.known look.now) overlay.now) (look_at (keys.Constraint schema.now (fold name.now))))) }
{
    let known = constraint_at(look, schema, name)?;
    match owned_there(overlay, table, schema, name)? {
        None => Ok(is_owned_still(overlay, table, known)),
        Some(owned) => Ok(owned),
    }
}

/// Whether the changed table that has the constraint is another one, if there is such a table.
fn owned_there(
    overlay: &Overlay,
    table: &ObjName,
    schema: &Name,
    name: &Name,
) -> Result<Option<bool>, AllocError>
    ensures owned { IfOk result (λ owned. owned ≡ owned_by table.now (owner_among schema.now (fold name.now) (placed overlay.now))) }
    ensures in_order { IfOk result (λ _. IsTrue (are_in_order overlay.now)) }
{
    let key = constraint_key(schema, name)?;
    let owners = overlay.standing(&key)?;
    Ok(owned_by(table, owners.as_slice()))
}

fn owned_by(table: &ObjName, owners: &[ObjName]) -> Option<bool>
    ensures { result ≡ owned_by table.now (first_owner owners.now) }
{
    match owners {
        [] => None,
        [owner, ..] => Some(!is_same_object(owner, table)),
    }
}

fn constraint_key(schema: &Name, name: &Name) -> Result<ObjectKey, AllocError>
    ensures { IfOk result (λ key. key ≡ keys.Constraint schema.now (fold name.now)) }
{
    match both(schema.copy(), name.fold()) {
        Ok((schema, folded)) => Ok(ObjectKey::Constraint { schema, folded }),
        Err(error) => Err(error),
    }
}

/// Whether what is known of the owner is another table that isn't changed.
fn is_owned_still(overlay: &Overlay, table: &ObjName, known: &Object) -> bool
    ensures { result ≡ is_owned_elsewhere table.now (owner_left overlay.now (sight known.now)) }
{
    match known {
        Object::Constraint { table: owner } => {
            !overlay.is_changed(owner) && !is_same_object(owner, table)
        }
        _ => false,
    }
}
