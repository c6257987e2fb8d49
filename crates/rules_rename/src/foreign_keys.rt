// Foreign keys behind a renaming.
ghost use Rattle.std.specs.Prelude.{◌≡◌, ◌||◌, [], IfOk, map};
ghost use Rattle.dd_catalog.specs.WalkLaws.{Look};
ghost use Rattle.dd_catalog.specs.Walks.{run, refuse_if, every, over};
ghost use Rattle.dd_catalog.specs.Follow.{Follows};
ghost use Rattle.rules_refusals.specs.Refusals.{fk_dup_name};
ghost use Rattle.rules_rename.specs.Renames.{with_parent, renamed_key, fits_in_name, one_free, in_order, renamed_keys, with_parents};
ghost use Rattle.rules_rename.specs.Puts.{behind};

use crate::constraints::fitting_name;
use crate::overlay::Overlay;
use crate::owners::is_owned_at;
use dd_catalog::{Lookup, Stop};
use dd_definitions::{ForeignKeyDef, TableDef, TableParts};
use dd_names::{List, Name, ObjName, TryCopy};
use rules_create::put_in_order;
use rules_elements::{has_constraint_named, is_same_object};
use std::alloc::{AllocError, Global};

/// The renamed table: its foreign keys have their new names and parents.
pub(crate) fn renamed_def<L: Lookup>(
    alloc: Global,
    overlay: &Overlay,
    from: &ObjName,
    to: &ObjName,
    def: &TableDef,
    look: &L,
) -> Result<TableDef, Stop>
    ensures keys { Follows (λ renamed. renamed.foreign_keys) result (run (behind (L.known look.now) overlay.now) (renamed_keys from.now to.now def.now.foreign_keys)) }
    ensures rest { IfOk result (λ renamed. renamed ≡ record def.now { name = to.now; foreign_keys = renamed.foreign_keys }) }
{
    let parts = def.parts();
    let keys = parts.foreign_keys.as_slice();
    let foreign_keys = renamed_keys(alloc, overlay, from, to, keys, look)?;
    match TableDef::of(TableParts {
        name: to.copy()?,
        columns: parts.columns.copy()?,
        indexes: parts.indexes.copy()?,
        foreign_keys,
    }) {
        Ok(renamed) => Ok(renamed),
        Err(_) => Err(Stop::Memory),
    }
}

/// The table, whose foreign keys refer to the new name in place of the old one.
pub fn with_parents(
    alloc: Global,
    from: &ObjName,
    to: &ObjName,
    def: &TableDef,
) -> Result<TableDef, AllocError>
    ensures { IfOk result (λ child. child ≡ with_parents from.now to.now def.now) }
{
    let parts = def.parts();
    match TableDef::of(TableParts {
        name: parts.name.copy()?,
        columns: parts.columns.copy()?,
        indexes: parts.indexes.copy()?,
        foreign_keys: keys_with_parent(alloc, from, to, parts.foreign_keys.as_slice())?,
    }) {
        Ok(child) => Ok(child),
        Err(_) => Err(AllocError),
    }
}

fn keys_with_parent(
    alloc: Global,
    from: &ObjName,
    to: &ObjName,
    keys: &[ForeignKeyDef],
) -> Result<List<ForeignKeyDef>, AllocError>
    ensures { IfOk result (λ found. found ≡ map (with_parent from.now to.now) keys.now) }
{
    let mut found = List::new(alloc);
    'keys: for key in keys {
        found.push(with_parent(from, to, key)?)?;
    }
    Ok(found)
}

fn with_parent(
    from: &ObjName,
    to: &ObjName,
    key: &ForeignKeyDef,
) -> Result<ForeignKeyDef, AllocError>
    ensures { IfOk result (λ found. found ≡ with_parent from.now to.now key.now) }
{
    let mut found = key.copy()?;
    if is_same_object(&key.parent, from) {
        found.parent = to.copy()?;
    }
    Ok(found)
}

/// The foreign keys of the table by their new names, in the order of these: 1059, 1826.
fn renamed_keys<L: Lookup>(
    alloc: Global,
    overlay: &Overlay,
    from: &ObjName,
    to: &ObjName,
    keys: &[ForeignKeyDef],
    look: &L,
) -> Result<List<ForeignKeyDef>, Stop>
    ensures { Follows (λ found. found) result (run (behind (L.known look.now) overlay.now) (renamed_keys from.now to.now keys.now)) }
{
    let renamed = all_renamed(alloc, from, to, keys)?;
    let free = all_free(alloc, overlay, from, to, renamed.as_slice(), look)?;
    Ok(in_order(alloc, free)?)
}

/// The foreign keys with their new names and parents; a name of more than 64 characters: 1059.
pub fn all_renamed(
    alloc: Global,
    from: &ObjName,
    to: &ObjName,
    keys: &[ForeignKeyDef],
) -> Result<List<ForeignKeyDef>, Stop>
    ensures fit { (look : Look) → Follows (λ _. tt) result (run look (every fits_in_name (map (renamed_key from.now to.now) keys.now))) }
    ensures keys { IfOk result (λ found. found ≡ map (renamed_key from.now to.now) keys.now) }
{
    let mut found = List::new(alloc);
    'keys: for key in keys {
        found.push(renamed_key(alloc, from, to, key)?)?;
    }
    Ok(found)
}

/// The foreign key by its new name; above 64 characters 1059.
#[tactic(auto, unfolding(crate::specs::Renames::renamed_key))]
fn renamed_key(
    alloc: Global,
    from: &ObjName,
    to: &ObjName,
    key: &ForeignKeyDef,
) -> Result<ForeignKeyDef, Stop>
    ensures fits { (look : Look) → Follows (λ _. tt) result (run look (fits_in_name (renamed_key from.now to.now key.now))) }
    ensures key { IfOk result (λ found. found ≡ renamed_key from.now to.now key.now) }
{
    let name = fitting_name(alloc, &from.name, &to.name, &key.name)?;
    let mut found = with_parent(from, to, key)?;
    found.name = name;
    Ok(found)
}

fn all_free<L: Lookup>(
    alloc: Global,
    overlay: &Overlay,
    from: &ObjName,
    to: &ObjName,
    keys: &[ForeignKeyDef],
    look: &L,
) -> Result<List<ForeignKeyDef>, Stop>
    ensures { Follows (λ free. free) result (run (behind (L.known look.now) overlay.now) (over (one_free from.now to.now) [] keys.now)) }
{
    let mut free = List::new(alloc);
    'keys: for key in keys {
        add_free(alloc, overlay, from, to, &mut free, key, look)?;
    }
    Ok(free)
}

/// One more foreign key, whose name neither another table nor one before it has: 1826.
fn add_free<L: Lookup>(
    alloc: Global,
    overlay: &Overlay,
    from: &ObjName,
    to: &ObjName,
    before: &mut List<ForeignKeyDef>,
    key: &ForeignKeyDef,
    look: &L,
) -> Result<(), Stop>
    ensures { Follows (λ _. before.new) result (run (behind (L.known look.now) overlay.now) (one_free from.now to.now before.old key.now)) }
{
    let owned = is_owned_at(overlay, from, &to.schema, &key.name, look)?;
    let named = has_constraint_named(before.as_slice(), &key.name);
    refuse_taken(alloc, owned, named, &key.name)?;
    before.push(key.copy()?)?;
    Ok(())
}

/// A constraint's name that another table has, or a foreign key before this one: 1826.
pub fn refuse_taken(alloc: Global, owned: bool, named: bool, name: &Name) -> Result<(), Stop>
    ensures { (look : Look) → Follows (λ _. tt) result (run look (refuse_if (owned || named) (fk_dup_name name.now))) }
{
    if owned {
        return Err(rules_refusals::fk_dup_name(alloc, name)?);
    }
    if named {
        return Err(rules_refusals::fk_dup_name(alloc, name)?);
    }
    Ok(())
}

/// The foreign keys in the order of their folded names.
pub fn in_order(alloc: Global, keys: List<ForeignKeyDef>) -> Result<List<ForeignKeyDef>, AllocError>
    ensures { IfOk result (λ found. found ≡ in_order keys) }
{
    let mut rest = keys.into_vec();
    let mut found = List::new(alloc);
    'rest: while let Some(key) = rest.pop() {
        put_in_order(alloc, key, &mut found)?;
    }
    Ok(found)
}
