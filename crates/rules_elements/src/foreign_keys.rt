ghost use Rattle.std.specs.Prelude.{◌≡◌, IfOk};
ghost use Rattle.std.specs.List.{list_any, find};
ghost use Rattle.std.specs.Option.{option_copied};
ghost use Rattle.dd_names.specs.Names.{same, fold};
ghost use Rattle.dd_names.specs.declared.object_name.ObjectKey.TheVariants as keys;
ghost use Rattle.dd_catalog.specs.Kinds.{first_odd_pair};
ghost use Rattle.dd_catalog.specs.Sights.{sight};
ghost use Rattle.dd_catalog.specs.Walks.{run, look_at, refuse_some};
ghost use Rattle.dd_catalog.specs.WalkLaws.{Look};
ghost use Rattle.dd_catalog.specs.Follow.{Follows, sights};
ghost use Rattle.rules_elements.specs.ForeignKeys.{name_or, as_written, odd_pair_refused, set_null_refused, is_owned_elsewhere, has_constraint_named, name_is_free, foreign_key_of, with_parent_columns};

use crate::kinds::{first_not_null, first_odd_pair, sets_null};
use crate::parents::{has_index_from, is_same_object, parent_of, spelled_all};
use dd_catalog::{Lookup, Object, Stop, constraint_at};
use dd_definitions::{ColumnDef, ForeignKeyDef, TableParts};
use dd_names::{List, Name, ObjName, ObjectKey, TryCopy, both};
use std::alloc::{AllocError, Global};

/// The foreign key with its parent columns as the parent spells them, or its first fault beside the parent and what the table
/// has so far: 1824, 1822, 3780, 1830 or 1826. Its columns, its name and its index are settled before; `written` are its columns
/// as the statement writes them, by which 3780 and 1830 name them, or else those of the key.
#[tactic(auto, using(dd_catalog::specs::WalkLaws::run_bind), unfolding(crate::specs::ForeignKeys::foreign_key_of))]
pub fn check_fk<L: Lookup>(
    alloc: Global,
    parts: &TableParts,
    written: &[Name],
    key: &ForeignKeyDef,
    look: &L,
) -> Result<ForeignKeyDef, Stop>
    ensures { Follows (λ found. found) result (run (sights (L.known look.now)) (foreign_key_of parts.now written.now key.now)) }
{
    let columns = parts.columns.as_slice();
    let names = key.parent_columns.as_slice();
    let parent = parent_of(alloc, parts, &key.parent, look)?;
    if !has_index_from(parent.indexes.as_slice(), names) {
        return Err(rules_refusals::fk_no_index_parent(alloc, &key.name, &key.parent.name)?);
    }
    pair_columns(alloc, columns, parent.columns.as_slice(), written, key)?;
    allow_null(alloc, columns, written, key)?;
    name_is_free(alloc, parts, &key.name, look)?;
    let spelled = spelled_all(alloc, parent.columns.as_slice(), names)?;
    Ok(with_parent_columns(key, spelled)?)
}

/// The foreign key with these parent columns.
fn with_parent_columns(
    key: &ForeignKeyDef,
    parent_columns: List<Name>,
) -> Result<ForeignKeyDef, AllocError>
    ensures { IfOk result (λ found. found ≡ with_parent_columns key.now parent_columns) }
{
    let named = both(key.name.copy(), key.columns.copy());
    match both(named, key.parent.copy()) {
        Ok(((name, columns), parent)) => Ok(ForeignKeyDef {
            name,
            columns,
            parent,
            parent_columns,
            on_delete: key.on_delete,
            on_update: key.on_update,
        }),
        Err(error) => Err(error),
    }
}

/// Refuses columns that differ in kind from the parent columns: 3780. `written` are those of the foreign key as a statement writes them.
pub fn pair_columns(
    alloc: Global,
    columns: &[ColumnDef],
    others: &[ColumnDef],
    written: &[Name],
    key: &ForeignKeyDef,
) -> Result<(), Stop>
    ensures { (look : Look) → Follows (λ _. tt) result (run look (refuse_some (odd_pair_refused written.now key.now.name (first_odd_pair columns.now others.now key.now.columns key.now.parent_columns)))) }
{
    match first_odd_pair(
        columns,
        others,
        key.columns.as_slice(),
        key.parent_columns.as_slice(),
    ) {
        None => Ok(()),
        Some((column, other)) => Err(rules_refusals::fk_incompatible_columns(
            alloc,
            as_written(written, column),
            other,
            &key.name,
        )?),
    }
}

/// Refuses SET NULL where a column of the foreign key is NOT NULL: 1830. `written` are its columns as a statement writes them.
pub fn allow_null(
    alloc: Global,
    columns: &[ColumnDef],
    written: &[Name],
    key: &ForeignKeyDef,
) -> Result<(), Stop>
    ensures { (look : Look) → Follows (λ _. tt) result (run look (refuse_some (set_null_refused written.now columns.now key.now))) }
{
    if !sets_null(key) {
        return Ok(());
    }
    match first_not_null(columns, key.columns.as_slice()) {
        None => Ok(()),
        Some(column) => Err(rules_refusals::fk_column_not_null(
            alloc,
            as_written(written, column),
            &key.name,
        )?),
    }
}

fn as_written<'a>(written: &'a [Name], name: &'a Name) -> &'a Name
    ensures { result.now ≡ as_written written.now name.now }
{
    match same_name(written, name) {
        None => name,
        Some(other) => other,
    }
}

fn same_name<'a>(written: &'a [Name], name: &Name) -> Option<&'a Name>
    ensures { option_copied result ≡ find (λ other. same other name.now) written.now }
{
    written.iter().find(|other| other.same(name))
}

#[tactic(auto, using(dd_catalog::specs::WalkLaws::run_bind), unfolding(crate::specs::ForeignKeys::name_is_free))]
fn name_is_free<L: Lookup>(
    alloc: Global,
    parts: &TableParts,
    name: &Name,
    look: &L,
) -> Result<(), Stop>
    ensures { Follows (λ _. tt) result (run (sights (L.known look.now)) (name_is_free parts.now name.now)) }
{
    let owner = constraint_at(look, &parts.name.schema, name)?;
    if is_owned_elsewhere(&parts.name, owner)
        || has_constraint_named(parts.foreign_keys.as_slice(), name)
    {
        return Err(rules_refusals::fk_dup_name(alloc, name)?);
    }
    Ok(())
}

/// Whether this, which stands at the key of a constraint, is another table than this one.
pub fn is_owned_elsewhere(table: &ObjName, object: &Object) -> bool
    ensures { result ≡ is_owned_elsewhere table.now (sight object.now) }
{
    match object {
        Object::Constraint { table: owner } => !is_same_object(owner, table),
        _ => false,
    }
}

/// Whether a foreign key has the name, in any case.
pub fn has_constraint_named(keys: &[ForeignKeyDef], name: &Name) -> bool
    ensures { result ≡ has_constraint_named keys.now name.now }
{
    keys.iter().any(|key| key.name.same(name))
}
