// What all pairs change.
ghost use Rattle.std.specs.Prelude.{◌≡◌, [], IfOk, OnOk, IsTrue};
ghost use Rattle.std.specs.FinMap as finite_map;
ghost use Rattle.dd_catalog.specs.Walks.{run, over};
ghost use Rattle.dd_catalog.specs.Follow.{Follows, sights};
ghost use Rattle.rules_rename.specs.Renames.{one_pair};
ghost use Rattle.rules_rename.specs.Puts.{are_in_order, put_all};
ghost use Rattle.rules_rename.specs.Ids.{AreWithIds};
ghost use Rattle.rules_rename.specs.Pairs.{renaming_of, AreSame};

use crate::child_names::ChildNames;
use crate::left::Left;
use crate::one_object::renamed_object;
use crate::overlay::Overlay;
use crate::pairs::Renaming;
use dd_catalog::{Lookup, Stop};
use dd_names::{List, ObjName};
use std::alloc::{AllocError, Global};

/// What the pairs change, one after another.
pub(crate) fn all_pairs<L: Lookup>(
    alloc: Global,
    pairs: &[(ObjName, ObjName)],
    look: &L,
) -> Result<Renaming, Stop>
    ensures exact { Follows renaming_of result (run (sights (L.known look.now)) (over one_pair (record { overlay = finite_map.empty; children = [] }) pairs.now)) }
    ensures ids { IfOk result (λ renaming. AreWithIds (L.known look.now) renaming.overlay) }
{
    let mut renaming = Renaming {
        overlay: Overlay::new(alloc),
        children: ChildNames::new(alloc),
    };
    'pairs: for pair in pairs {
        one_pair(alloc, &mut renaming, pair, look)?;
    }
    Ok(renaming)
}

/// What one more pair changes, which sees what those before it have left.
fn one_pair<L: Lookup>(
    alloc: Global,
    renaming: &mut Renaming,
    pair: &(ObjName, ObjName),
    look: &L,
) -> Result<(), Stop>
    ensures exact { AreSame renaming.old.children → Follows (λ _. renaming_of renaming.new) result (run (sights (L.known look.now)) (one_pair (renaming_of renaming.old) pair.now)) }
    ensures same { AreSame renaming.old.children → OnOk result (AreSame renaming.new.children) }
    ensures ids { AreWithIds (L.known look.now) renaming.old.overlay → IfOk result (λ _. AreWithIds (L.known look.now) renaming.new.overlay) }
{
    let renamed = renamed_object(alloc, &renaming.overlay, &pair.0, &pair.1, look)?;
    put_all(&mut renaming.overlay, renamed.changes)?;
    renaming.children.add_all(renamed.children.as_slice())?;
    Ok(())
}

fn put_all(overlay: &mut Overlay, changes: List<(ObjName, Left)>) -> Result<(), AllocError>
    ensures changed { OnOk result (overlay.new ≡ put_all changes overlay.old) }
    ensures in_order { IsTrue (are_in_order overlay.old) }
{
    let _before = overlay.all();
    let mut rest = changes.into_vec();
    rest.reverse();
    'rest: while let Some((name, left)) = rest.pop() {
        overlay.put(name, left)?;
    }
    Ok(())
}
