// Names of objects in order.
ghost use Rattle.std.specs.Prelude.{◌≡◌, ◌≤◌, OnOk, length};
ghost use Rattle.std.specs.List.{insert};
ghost use Rattle.dd_catalog.specs.Catalog.{object_cmp};
ghost use Rattle.rules_rename.specs.Overlays.{put_name, put_names};

use dd_names::{List, ObjName};
use std::alloc::{AllocError, Global};
use std::cmp::Ordering;
use std::mem;

/// Puts each name in its place among the names, which are in order.
pub(crate) fn put_names(
    alloc: Global,
    more: List<ObjName>,
    names: &mut List<ObjName>,
) -> Result<(), AllocError>
    ensures { OnOk result (names.new ≡ put_names more names.old) }
{
    let mut rest = more.into_vec();
    'rest: while let Some(name) = rest.pop() {
        put_name(alloc, name, names)?;
    }
    Ok(())
}

fn put_name(alloc: Global, name: ObjName, names: &mut List<ObjName>) -> Result<(), AllocError>
    ensures { OnOk result (names.new ≡ put_name name names.old) }
{
    let place = place_of(&name, names.as_slice());
    let mut items = mem::replace(names, List::new(alloc)).into_vec();
    items.insert(place, name)?;
    *names = List::from_vec(items);
    Ok(())
}

/// The number of names that come no later than that one.
fn place_of(name: &ObjName, names: &[ObjName]) -> usize
    ensures within { result ≤ length names.now }
    ensures place { insert names.now result name.now ≡ put_name name.now names.now }
{
    'names: for place in 0..names.len() {
        if object_cmp(&names[place], name) == Ordering::Greater {
            return place;
        }
    }
    names.len()
}

/// The order of names: by the schemas, and then by the objects' own.
fn object_cmp(a: &ObjName, b: &ObjName) -> Ordering
    ensures { result ≡ object_cmp a.now b.now }
{
    a.schema.cmp(&b.schema).then(a.name.cmp(&b.name))
}
