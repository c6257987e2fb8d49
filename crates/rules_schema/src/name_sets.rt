// Names of objects in ordered sets.
ghost use Rattle.std.specs.Prelude.{◌≡◌, [], IfOk};
ghost use Rattle.std.specs.BTreeSet.{contains};
ghost use Rattle.std.specs.Option.{option_copied};
ghost use Rattle.dd_catalog.specs.Catalog.{object_cmp};
ghost use Rattle.rules_schema.specs.Drops.{is_among, first_twice};

use dd_names::{ObjName, TryCopy};
use std::alloc::{AllocError, Global};
use std::collections::BTreeSet;

/// The first name that stood before.
pub(crate) fn first_twice(
    alloc: Global,
    objects: &[ObjName],
) -> Result<Option<&ObjName>, AllocError>
    ensures { IfOk result (λ twice. option_copied twice ≡ first_twice [] objects.now) }
{
    let mut seen = BTreeSet::new(alloc);
    'places: for place in 0..objects.len() {
        let object = &objects[place];
        if !seen.insert(object.copy()?)? {
            return Ok(Some(object));
        }
    }
    Ok(None)
}

/// The set of the names.
pub(crate) fn set_of(alloc: Global, objects: &[ObjName]) -> Result<BTreeSet<ObjName>, AllocError>
    ensures { IfOk result (λ names. contains object_cmp names ≡ is_among objects.now) }
{
    let mut names = BTreeSet::new(alloc);
    'places: for place in 0..objects.len() {
        let object = &objects[place];
        names.insert(object.copy()?)?;
    }
    Ok(names)
}
