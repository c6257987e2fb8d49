// The actions on foreign keys, and what holds of all of them behind the actions (MySQL 8.0 Reference Manual, 13.1.9 and 13.1.20.5).
ghost use Rattle.std.specs.Prelude.{◌≡◌, [], ◌∷◌, ◌++◌, not, IfOk, OnOk};
ghost use Rattle.dd_catalog.specs.WalkLaws.{Look};
ghost use Rattle.dd_catalog.specs.Walks.{every, refuse_if, run};
ghost use Rattle.dd_catalog.specs.Follow.{Follows, sights};
ghost use Rattle.rules_refusals.specs.Refusals.{cant_drop_field_or_key};
ghost use Rattle.rules_elements.specs.ForeignKeys.{has_constraint_named};
ghost use Rattle.rules_alter.specs.ForeignKeys.{all_keys_fit, child_fits, drop_foreign_key, other_keys, own_key_fits, pairs_fit, pairs_on_fit};

use crate::states::{Altering, Child};
use dd_catalog::{Lookup, Stop};
use dd_definitions::{ForeignKeyDef, TableParts};
use dd_names::{List, Name, TryCopy};
use rules_elements::{allow_null, has_constraint_named, is_same_object, pair_columns, parent_of};
use std::alloc::{AllocError, Global};

/// DROP FOREIGN KEY. Unknown: 1091.
#[tactic(auto, using(dd_catalog::specs::WalkLaws::run_bind), unfolding(crate::specs::ForeignKeys::drop_foreign_key))]
pub(crate) fn drop_foreign_key(alloc: Global, state: &mut Altering, name: &Name) -> Result<(), Stop>
    ensures { (look : Look) → Follows (λ _. state.new) result (run look (drop_foreign_key name.now state.old)) }
{
    allow_drop(alloc, state.parts.foreign_keys.as_slice(), name)?;
    let others = other_keys(alloc, name, state.parts.foreign_keys.as_slice())?;
    state.parts.foreign_keys = others;
    Ok(())
}

fn allow_drop(alloc: Global, keys: &[ForeignKeyDef], name: &Name) -> Result<(), Stop>
    ensures { (look : Look) → Follows (λ _. tt) result (run look (refuse_if (not (has_constraint_named keys.now name.now)) (cant_drop_field_or_key name.now))) }
{
    if has_constraint_named(keys, name) {
        return Ok(());
    }
    Err(rules_refusals::cant_drop_field_or_key(alloc, name)?)
}

fn other_keys(
    alloc: Global,
    name: &Name,
    keys: &[ForeignKeyDef],
) -> Result<List<ForeignKeyDef>, AllocError>
    ensures { IfOk result (λ others. others ≡ other_keys name.now keys.now) }
{
    let mut others = List::new(alloc);
    'keys: for key in keys {
        add_other(&mut others, name, key)?;
    }
    Ok(others)
}

fn add_other(
    others: &mut List<ForeignKeyDef>,
    name: &Name,
    key: &ForeignKeyDef,
) -> Result<(), AllocError>
    ensures { OnOk result (others.new ≡ others.old ++ other_keys name.now (key.now ∷ [])) }
{
    if !key.name.same(name) {
        others.push(key.copy()?)?;
    }
    Ok(())
}

/// Each foreign key of the table and then each child's has columns that may be paired: 3780, 1830.
#[tactic(auto, using(dd_catalog::specs::WalkLaws::run_bind), unfolding(crate::specs::ForeignKeys::all_keys_fit))]
pub(crate) fn all_keys_fit<L: Lookup>(alloc: Global, state: &Altering, look: &L) -> Result<(), Stop>
    ensures { Follows (λ _. tt) result (run (sights (L.known look.now)) (all_keys_fit state.now)) }
{
    own_keys_fit(
        alloc,
        &state.parts,
        state.parts.foreign_keys.as_slice(),
        look,
    )?;
    children_fit(alloc, &state.parts, state.children.as_slice())
}

fn own_keys_fit<L: Lookup>(
    alloc: Global,
    parts: &TableParts,
    keys: &[ForeignKeyDef],
    look: &L,
) -> Result<(), Stop>
    ensures { Follows (λ _. tt) result (run (sights (L.known look.now)) (every (own_key_fits parts.now) keys.now)) }
{
    'keys: for key in keys {
        own_key_fits(alloc, parts, key, look)?;
    }
    Ok(())
}

#[tactic(auto, using(dd_catalog::specs::WalkLaws::run_bind), unfolding(crate::specs::ForeignKeys::own_key_fits))]
fn own_key_fits<L: Lookup>(
    alloc: Global,
    parts: &TableParts,
    key: &ForeignKeyDef,
    look: &L,
) -> Result<(), Stop>
    ensures { Follows (λ _. tt) result (run (sights (L.known look.now)) (own_key_fits parts.now key.now)) }
{
    let parent = parent_of(alloc, parts, &key.parent, look)?;
    pairs_fit(alloc, parts, parent, key)
}

/// Column by column, kinds that differ: 3780. SET NULL and a column that is NOT NULL: 1830.
#[tactic(auto, using(dd_catalog::specs::WalkLaws::run_bind), unfolding(crate::specs::ForeignKeys::pairs_fit))]
fn pairs_fit(
    alloc: Global,
    child: &TableParts,
    parent: &TableParts,
    key: &ForeignKeyDef,
) -> Result<(), Stop>
    ensures { (look : Look) → Follows (λ _. tt) result (run look (pairs_fit child.now parent.now key.now)) }
{
    let columns = child.columns.as_slice();
    pair_columns(alloc, columns, parent.columns.as_slice(), &[], key)?;
    allow_null(alloc, columns, &[], key)
}

fn children_fit(alloc: Global, parts: &TableParts, children: &[Child]) -> Result<(), Stop>
    ensures { (look : Look) → Follows (λ _. tt) result (run look (every (child_fits parts.now) children.now)) }
{
    'children: for child in children {
        child_fits(alloc, parts, child)?;
    }
    Ok(())
}

/// The foreign keys of a child that refer to the table.
fn child_fits(alloc: Global, parts: &TableParts, child: &Child) -> Result<(), Stop>
    ensures { (look : Look) → Follows (λ _. tt) result (run look (child_fits parts.now child.now)) }
{
    keys_fit(
        alloc,
        parts,
        &child.parts,
        child.parts.foreign_keys.as_slice(),
    )
}

fn keys_fit(
    alloc: Global,
    parts: &TableParts,
    child: &TableParts,
    keys: &[ForeignKeyDef],
) -> Result<(), Stop>
    ensures { (look : Look) → Follows (λ _. tt) result (run look (every (pairs_on_fit child.now parts.now) keys.now)) }
{
    'keys: for key in keys {
        pairs_on_fit(alloc, child, parts, key)?;
    }
    Ok(())
}

/// The pairs of a foreign key that refers to the table.
fn pairs_on_fit(
    alloc: Global,
    child: &TableParts,
    parts: &TableParts,
    key: &ForeignKeyDef,
) -> Result<(), Stop>
    ensures { (look : Look) → Follows (λ _. tt) result (run look (pairs_on_fit child.now parts.now key.now)) }
{
    if is_same_object(&key.parent, &parts.name) {
        return pairs_fit(alloc, child, parts, key);
    }
    Ok(())
}
