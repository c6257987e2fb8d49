// The children of a table behind the changes.
ghost use Rattle.std.specs.Prelude.{◌≡◌, ◌++◌, [], ◌∷◌, not, filter, IfOk, OnOk, if◌then◌else◌};
ghost use Rattle.dd_names.specs.declared.object_name.ObjectKey.TheVariants as keys;
ghost use Rattle.dd_catalog.specs.Sights.{ChildrenThere};
ghost use Rattle.dd_catalog.specs.Walks.{run, look_at};
ghost use Rattle.dd_catalog.specs.Follow.{Follows};
ghost use Rattle.rules_rename.specs.Puts.{behind, is_changed};

use crate::ordered::put_names;
use crate::overlay::Overlay;
use dd_catalog::{Lookup, Stop};
use dd_names::{List, ObjName, ObjectKey, TryCopy};
use rules_schema::children_seen;
use std::alloc::{AllocError, Global};

/// The children of the table behind the changes, in order.
pub(crate) fn children_at<L: Lookup>(
    alloc: Global,
    overlay: &Overlay,
    parent: &ObjName,
    look: &L,
) -> Result<List<ObjName>, Stop>
    ensures { Follows (λ children. ChildrenThere children) result (run (behind (L.known look.now) overlay.now) (look_at (keys.Children parent.now))) }
{
    let known = dd_catalog::children_at(look, parent)?;
    let changed = overlay.standing(&ObjectKey::Children(parent.copy()?))?;
    let mut children = kept_children(alloc, overlay, children_seen(known))?;
    put_names(alloc, changed, &mut children)?;
    Ok(children)
}

/// Those of the children that aren't changed.
fn kept_children(
    alloc: Global,
    overlay: &Overlay,
    before: &[ObjName],
) -> Result<List<ObjName>, AllocError>
    ensures { IfOk result (λ children. children ≡ filter (λ child. not (is_changed overlay.now child)) before.now) }
{
    let mut children = List::new(alloc);
    'kept: for child in before {
        add_kept(overlay, child, &mut children)?;
    }
    Ok(children)
}

fn add_kept(
    overlay: &Overlay,
    child: &ObjName,
    children: &mut List<ObjName>,
) -> Result<(), AllocError>
    ensures { OnOk result (children.new ≡ children.old ++ (if is_changed overlay.now child.now then [] else child.now ∷ [])) }
{
    if !overlay.is_changed(child) {
        children.push(child.copy()?)?;
    }
    Ok(())
}
