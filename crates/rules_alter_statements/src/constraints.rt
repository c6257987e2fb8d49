// The constraints of a table that gets a new name.
ghost use Rattle.std.specs.Prelude.{◌≡◌, [], not};
ghost use Rattle.dd_names.specs.Names.{fold};
ghost use Rattle.dd_catalog.specs.Walks.{run, over};
ghost use Rattle.dd_catalog.specs.Follow.{Follows, sights};
ghost use Rattle.rules_rename.specs.Renames.{name_is_free, one_free, renamed_keys};

use dd_catalog::{Lookup, Object, Stop, constraint_at, object_at};
use dd_definitions::ForeignKeyDef;
use dd_names::{List, ObjName, TryCopy};
use rules_elements::{has_constraint_named, is_owned_elsewhere};
use rules_rename::{all_renamed, in_order, refuse_taken};
use std::alloc::{AllocError, Global};

/// The name is free; where something is there, 1050.
#[tactic(auto, using(dd_catalog::specs::WalkLaws::run_bind), unfolding(rules_rename::specs::Renames::name_is_free))]
pub(crate) fn name_is_free<L: Lookup>(alloc: Global, to: &ObjName, look: &L) -> Result<(), Stop>
    ensures { Follows (λ _. tt) result (run (sights (L.known look.now)) (name_is_free to.now)) }
{
    match object_at(look, to)? {
        Object::Absent => Ok(()),
        _ => Err(rules_refusals::table_exists(alloc, &to.name)?),
    }
}

/// The foreign keys of the table by their new names, in the order of these: 1059, 1826.
#[tactic(auto, using(dd_catalog::specs::WalkLaws::run_bind), unfolding(rules_rename::specs::Renames::renamed_keys))]
pub(crate) fn renamed_keys<L: Lookup>(
    alloc: Global,
    from: &ObjName,
    to: &ObjName,
    keys: &[ForeignKeyDef],
    look: &L,
) -> Result<List<ForeignKeyDef>, Stop>
    ensures { Follows (λ found. found) result (run (sights (L.known look.now)) (renamed_keys from.now to.now keys.now)) }
{
    let renamed = all_renamed(alloc, from, to, keys)?;
    let free = all_free(alloc, from, to, renamed.as_slice(), look)?;
    Ok(in_order(alloc, free)?)
}

fn all_free<L: Lookup>(
    alloc: Global,
    from: &ObjName,
    to: &ObjName,
    keys: &[ForeignKeyDef],
    look: &L,
) -> Result<List<ForeignKeyDef>, Stop>
    ensures { Follows (λ free. free) result (run (sights (L.known look.now)) (over (one_free from.now to.now) [] keys.now)) }
{
    let mut free = List::new(alloc);
    'keys: for key in keys {
        add_free(alloc, from, to, &mut free, key, look)?;
    }
    Ok(free)
}

/// One more foreign key, whose name neither another table nor one before it has: 1826.
#[tactic(auto, using(dd_catalog::specs::WalkLaws::run_bind), unfolding(rules_rename::specs::Renames::one_free))]
fn add_free<L: Lookup>(
    alloc: Global,
    from: &ObjName,
    to: &ObjName,
    before: &mut List<ForeignKeyDef>,
    key: &ForeignKeyDef,
    look: &L,
) -> Result<(), Stop>
    ensures { Follows (λ _. before.new) result (run (sights (L.known look.now)) (one_free from.now to.now before.old key.now)) }
{
    let owner = constraint_at(look, &to.schema, &key.name)?;
    let is_owned = is_owned_elsewhere(from, owner);
    let is_named = has_constraint_named(before.as_slice(), &key.name);
    refuse_taken(alloc, is_owned, is_named, &key.name)?;
    before.push(key.copy()?)?;
    Ok(())
}
